//! An event loop without jobs, on which `event_manager` builds, and which it re-exports. Subscribers register descriptors with a
//! poller through an [`EventOps`]; each run of an [`EventLoop`] waits once and gives each reported event to the subscriber that
//! owns its descriptor at that moment. A job of a manager gets the [`Registry`].
#![tactic(auto)]

mod boxed_subscriber;
mod descriptor_owners;
mod epoll;
mod error;
mod event_loop;
mod events;
mod ops;
mod poller;
mod ready_list;
mod registration_state;
mod registry;
mod subscriber_ops;
mod subscribers;
pub mod utilities;
mod wrappers;

pub use crate::event_loop::{EventLoop, MAX_READY_EVENTS_CAPACITY};
pub use boxed_subscriber::{BoxedSubscriber, StepInput, StepSubscriber};
pub use dispatch_tables::cancelled::cancelled_at;
pub use dispatch_tables::priority::Priority;
pub use error::{Error, Result};
pub use events::{Events, RefusedRequest, Request, events_are_equal};
pub use ops::EventOps;
pub use poller::{BoxedPoller, EventPoller};
pub use registry::{Batch, Registry};
pub use subscriber_ops::SubscriberOps;
pub use subscribers::{EventSubscriber, MutEventSubscriber, SubscriberId, Subscribers};
pub use vmm_sys::epoll::EventSet;
pub use wrappers::{Either, Locked};
