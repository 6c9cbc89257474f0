//! What tests and examples of event loops are made of.

pub mod subscribers;
