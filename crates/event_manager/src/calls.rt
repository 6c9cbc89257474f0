//! Calls of a manager and their replies, as values.

use event_loop::{Request, Result, SubscriberId};

/// A call of a manager, as one of a list.
#[derive(PartialEq, Eq, Debug, Drop)]
pub enum Call<S> {
    /// `add_subscriber`.
    Add(S),
    /// `remove_subscriber`.
    Remove(SubscriberId),
    /// Replaces the subscriber by another value.
    Set(SubscriberId, S),
    /// Requests through `event_ops`.
    Ask(SubscriberId, Vec<Request>),
    /// `run_with_timeout`, with these milliseconds.
    Run(i32),
}

/// The reply to a [`Call`].
#[derive(PartialEq, Eq, Debug, Drop)]
pub enum Reply<S> {
    /// What `add_subscriber` answered.
    Added(Result<SubscriberId>),
    /// What `remove_subscriber` answered.
    Removed(Result<S>),
    /// The old value.
    Set(Result<S>),
    /// The answers to the requests, in order.
    Asked(Result<Vec<Result<()>>>),
    /// What `run_with_timeout` answered.
    Ran(Result<usize>),
}
