//! Tests of timers: by themselves, as descriptors of a poller, and beside threads that arm them.
#![tactic(auto)]

#[cfg(test)]
mod armed_beside;
#[cfg(test)]
mod broken_clock;
pub mod by_laws;
#[cfg(test)]
mod clock;
#[cfg(test)]
mod closings;
#[cfg(test)]
mod due_times;
#[cfg(test)]
mod expecting;
#[cfg(test)]
mod host;
#[cfg(test)]
mod known;
#[cfg(test)]
mod limits;
#[cfg(test)]
mod one_timer;
#[cfg(test)]
mod probe;
#[cfg(test)]
mod random_calls;
#[cfg(test)]
mod reports;
#[cfg(test)]
mod sleeps;
#[cfg(test)]
mod steps;
#[cfg(test)]
mod taken_beside;
#[cfg(test)]
mod timed;
#[cfg(test)]
mod timers;
#[cfg(test)]
mod turns;
