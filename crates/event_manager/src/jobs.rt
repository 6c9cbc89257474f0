//! Jobs on the loop's registry, between two batches, and the queue in which they wait.

pub mod account;
pub mod action;
pub mod job;
pub mod members;
pub mod queue;

pub use account::{Outcome, Step, replay};
pub use action::{Action, ActionOn};
pub use job::{Job, NoJob};
pub use members::{AddSubscriber, RemoveSubscriber};
pub(crate) use queue::Refused;
pub use queue::{Entry, JobQueue};
