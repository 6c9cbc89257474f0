//! Channels of messages whose receiver has a descriptor, so that a loop waits for messages as for any event.
//!
//! [`channel`] makes a [`Sender`] and a [`Receiver`] over a counter, such as an `EventFd` of the poller's table. A subscriber adds
//! the receiver's descriptor for `IN`, and takes the messages at its event. Senders need no loop: subscribers send to each other
//! and to themselves, as threads and other loops do. [`sync_channel`] has a bound, [`sync_channel_with_room`] also a descriptor for
//! senders.
#![tactic(auto)]

mod ends;
mod errors;
pub mod history;
pub mod laws;
pub mod queue;
mod receiver;
pub mod room;
mod sender;
mod shared;
mod tracked;

pub use ends::{channel, sync_channel, sync_channel_with_room};
pub use errors::{CloseError, Refusal, SendError};
pub use receiver::Receiver;
pub use sender::Sender;
pub use tracked::{Tracked, TrackedReceiver, TrackedSender};
