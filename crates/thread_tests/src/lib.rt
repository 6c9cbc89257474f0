//! Tests of what several threads do at once: who sends beside a loop, in thousands of rounds, and who looks on while a value is
//! dropped.
#![tactic(auto)]

#[cfg(test)]
mod closing;
#[cfg(test)]
mod expecting;
#[cfg(test)]
mod fixture;
#[cfg(test)]
mod senders;
#[cfg(test)]
mod sending;
#[cfg(test)]
mod unlocked;
#[cfg(test)]
mod watched;
