//! The scripts of `evloop`: their grammar, what they say, their subscribers, what is printed, and why one is not run to its
//! end.
#![tactic(auto)]

pub mod fault;
pub mod input;
pub mod names;
pub mod number;
pub mod output;
pub mod reactions;
pub mod requests;
pub mod script;
pub mod subscriber;
