//! Descriptors and ends of channels that close when they are dropped.
#![tactic(auto)]

mod close;
mod closing;
#[cfg(test)]
mod drops;

pub use close::Close;
pub use closing::Closing;
