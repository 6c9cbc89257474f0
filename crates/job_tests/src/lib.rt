//! Tests of jobs and their endpoint, on one thread and beside the threads of senders: which are taken, which are refused, what ends
//! a loop, and what a close leaves.
#![tactic(auto)]

#[cfg(test)]
mod bystanders;
#[cfg(test)]
mod callers;
#[cfg(test)]
mod courses;
#[cfg(test)]
mod ending;
#[cfg(test)]
mod expecting;
pub mod heard;
#[cfg(test)]
mod jobs;
#[cfg(test)]
mod joins;
#[cfg(test)]
mod loops;
#[cfg(test)]
mod meetings;
#[cfg(test)]
mod own_counter;
pub mod percent;
#[cfg(test)]
mod rounds;
#[cfg(test)]
mod value_in_a_subscriber;
