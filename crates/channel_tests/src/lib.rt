//! Tests of channels: what their ends do behind the lock, on one thread, in a loop, and on several threads.
#![tactic(auto)]

#[cfg(test)]
mod bounds;
#[cfg(test)]
mod ends;
#[cfg(test)]
mod expecting;
#[cfg(test)]
mod host;
#[cfg(test)]
mod in_a_loop;
#[cfg(test)]
mod looks;
#[cfg(test)]
mod order;
pub mod queue_with_counter;
pub mod queue_with_room;
#[cfg(test)]
mod receiving;
#[cfg(test)]
mod rings;
#[cfg(test)]
mod room;
#[cfg(test)]
mod rounds;
#[cfg(test)]
mod senders;
#[cfg(test)]
mod tracked;
#[cfg(test)]
mod watched;
