//! An event loop for virtual machine monitors: a port of the Rust crate `event-manager` 0.4.2 with proofs.
//!
//! Subscribers register descriptors with a poller through an [`EventOps`]. A run of an [`EventManager`] waits once and delivers
//! each event, by its descriptor's priority and then in the report's order, to the subscriber that owns the descriptor then, unless
//! it was removed since the wait; then it runs each job sent by a [`RemoteEndpoint`] once. `event_loop` has what needs no jobs.
#![tactic(auto)]

mod calls;
mod endpoint;
pub mod jobs;
pub mod laws;
mod ledgers;
mod lists;
mod loops;
mod manager;
mod named_counter;
mod senders;
mod tracked;

pub use calls::{Call, Reply};
pub use endpoint::RemoteEndpoint;
pub use endpoint::closed::Closed;
pub use event_loop::{
    Batch, BoxedPoller, BoxedSubscriber, Either, Error, EventLoop, EventOps, EventPoller, EventSet,
    EventSubscriber, Events, Locked, MAX_READY_EVENTS_CAPACITY, MutEventSubscriber, Priority,
    RefusedRequest, Registry, Request, Result, StepInput, StepSubscriber, SubscriberId,
    SubscriberOps, Subscribers, cancelled_at, utilities,
};
pub use job_tickets::ledgers::Ledgers;
pub use job_tickets::naming::Naming;
pub use job_tickets::tickets::Ticket;
pub use jobs::{Action, ActionOn, AddSubscriber, Job, NoJob, RemoveSubscriber};
pub use ledgers::{WithLedgers, with_ledgers};
pub use lists::drive;
pub use loops::{ThreadLoop, with_loops};
pub use manager::EventManager;
pub use named_counter::{Named, NamedCounter};
pub use senders::{Ended, JobSender, LoopWithSenders, Senders, with_senders};
pub use tracked::TrackedManager;
pub use vmm_sys::counter::{Bell, Counter};
