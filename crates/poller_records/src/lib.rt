//! Records of a poller's calls. [`recording_poller::RecordingPoller`] is any poller with a record of its calls beside it, and
//! [`replay_poller::ReplayPoller`] answers from such a record. A record is also read and written as text, a line an entry.
//!
//! ```text
//! add FD SET WORD ok           a call of ctl; also modify, delete
//! add FD SET WORD error N      the same, refused with error N
//! wait MS ROOM ok COUNT        a call of wait
//! wait MS ROOM error N         the same, refused with error N
//! event SET WORD               an event that the wait above reported
//! ```
//! One space separates two fields, and each line ends with a `\n`. Numbers are decimal, a set as the number of its bits, each
//! written in one way: without leading zeros, and with a `-` only in front of a number below 0.
#![tactic(auto)]

mod answers;
mod entries;
pub mod fault;
pub mod laws;
mod numbers;
pub mod record;
pub mod recording_poller;
pub mod replay_poller;
pub mod text;
