//! Tests of `poller_records`: worked examples, each kind of bad line, random records, and a table that is recorded and replayed.
#![tactic(auto)]

pub mod asked_again;
#[cfg(test)]
mod bad_lines;
#[cfg(test)]
mod examples;
#[cfg(test)]
mod expecting;
pub mod first_bad;
#[cfg(test)]
mod random_records;
#[cfg(test)]
mod records;
