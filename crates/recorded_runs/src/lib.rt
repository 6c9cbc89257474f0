//! Runs of a manager that are made again: if subscribers and jobs are functions, calls, jobs and poller decide all that happens.
#![tactic(auto)]

pub mod laws;
