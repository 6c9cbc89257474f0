//! Tests of lists of calls, over a script, and a program's own contract over one.
#![tactic(auto)]

pub mod apart;
pub mod both;
pub mod by_laws;
pub mod driven_again;
#[cfg(test)]
mod expecting;
pub mod going_on;
pub mod leaving;
#[cfg(test)]
mod lists;
#[cfg(test)]
mod machine_runs;
#[cfg(test)]
mod made_again;
#[cfg(test)]
mod metering;
#[cfg(test)]
mod solo;
