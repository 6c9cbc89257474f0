//! Each call that requests memory, made again where memory is refused to it.
//!
//! A call to which memory is refused must have changed nothing, and is made once more; the second answer must be that of a
//! first call. So a test passes whichever single request is refused, and a second refusal of one call ends it with a message
//! that names the call. `ci/refuse_each_request` runs each test with each of its requests refused in turn.
#![tactic(auto)]

#[cfg(test)]
mod between_marks;
#[cfg(test)]
mod counters;
#[cfg(test)]
mod descriptors;
#[cfg(test)]
mod expecting;
#[cfg(test)]
mod jobs;
#[cfg(test)]
mod joins;
#[cfg(test)]
mod lists;
#[cfg(test)]
mod making;
#[cfg(test)]
mod messages;
#[cfg(test)]
mod queues;
#[cfg(test)]
mod recording;
#[cfg(test)]
mod removals;
#[cfg(test)]
mod scripts;
#[cfg(test)]
mod senders;
#[cfg(test)]
mod subscribers;
#[cfg(test)]
mod tables;
#[cfg(test)]
mod timers;
