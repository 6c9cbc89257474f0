//! Receivers as subscribers: what a loop is sent.
//!
//! An [`Inbox`] takes the messages of a channel at its events, and its loop takes them from it between two runs, when it can add,
//! remove and ask subscribers, too.
#![tactic(auto)]

mod inbox;

pub use inbox::Inbox;
