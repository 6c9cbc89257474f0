//! Tests of `evloop_script`: which scripts are taken, what they say, and what is printed.
#![tactic(auto)]

#[cfg(test)]
mod expecting;
#[cfg(test)]
mod fault;
#[cfg(test)]
mod input;
#[cfg(test)]
mod names;
#[cfg(test)]
mod output;
#[cfg(test)]
mod script;
