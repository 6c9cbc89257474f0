//! The tables that a dispatch reads: who owns which descriptor, where the subscribers stand, which descriptors each of them
//! watches, which were removed since the wait, and the order in which a report is dispatched. None knows a poller, a subscriber's
//! methods or the registrations as a whole: what holds of several tables is stated where they are used.
#![tactic(auto)]

pub mod cancelled;
pub mod dispatch_order;
pub mod owners;
pub mod places;
pub mod priority;
pub mod watch_lists;
