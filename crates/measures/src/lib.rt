//! What programs share that measure, or run for long: words that pick measures, times, how they are printed, a poller without
//! descriptors, and what is looked at meanwhile.
#![tactic(auto)]

pub mod arguments;
pub mod bench;
pub mod fixed;
pub mod host;
pub mod memory;
pub mod progress;
pub mod timing;
