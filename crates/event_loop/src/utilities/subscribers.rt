//! Subscribers that count their events, on counters (`EventFd`) of the in-process table.
//!
//! An event's set is matched exactly. `IN` is counted: in a [`CounterSubscriberWithData`] on the counter that its data name, or as
//! spurious where they name none. `ERROR` is counted as an error. At `HANG_UP` its descriptor is removed, and the hang-up is kept.
//! Any other set is counted as spurious in a [`CounterSubscriber`], and not at all in the other two. Counts stop at `u64::MAX`, but
//! the events of a [`CounterInnerMutSubscriber`] wrap.
//!
//! Nothing panics: the first refusal of a request is kept, and later requests are still made. Of two subscribers that add one
//! descriptor in `init` both join, and the second keeps its refusal. None reads its counter, so a triggered counter is reported
//! until [`clear_event`](Counter::clear_event). A counter of another table is only a number here: registering it watches the
//! poller's own descriptor of that number. One that is dropped while registered is still reported, and its number never comes back.

mod counter;
mod counter_subscriber;
mod event_kind;
mod inner_mut;
mod observations;
mod with_data;

pub use counter::Counter;
pub use counter_subscriber::CounterSubscriber;
pub use inner_mut::CounterInnerMutSubscriber;
pub use with_data::CounterSubscriberWithData;
