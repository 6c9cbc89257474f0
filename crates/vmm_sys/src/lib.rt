//! Event sets, packed events and pollers: what an event loop needs of the Rust crate `vmm-sys-util`, without a kernel.
//!
//! A [`poller::Poller`] keeps an interest list and reports events. [`script_poller::ScriptPoller`] answers as it was told to, and
//! so does [`fault_poller::FaultPoller`], except for one call that it refuses. [`table::Table`] keeps counters, lines and an
//! interest list in them; [`epoll::Epoll`] is such a table that threads share, with [`eventfd::EventFd`]s and [`line::Line`]s.
#![tactic(auto)]

pub mod counter;
mod description;
mod descriptors;
mod entries;
pub mod epoll;
pub mod errno;
pub mod event_set;
pub mod eventfd;
pub mod fault_poller;
mod fd;
pub mod line;
pub mod poller;
pub mod script_poller;
mod shared_table;
pub mod table;
