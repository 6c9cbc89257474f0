//! A job for one subscriber.

use crate::jobs::Job;
use event_loop::{EventPoller, MutEventSubscriber, Registry, Result, SubscriberId, SubscriberOps};
use std::sync::Wait;
use std::time::Clock;

/// What is done to one subscriber, or read of it, between two batches; sent as [`ActionOn`]. Not in event-manager.
pub trait Action<S>: Drop {
    /// What it replies.
    type Reply: Drop;

    /// Which reply it may give, and which value it may leave, from the value before.
    ghost does: { Self → S → Self.Reply → S → Type 0 };

    /// What a caller that waits for a reply knows of it.
    ghost replies: { Self.Reply → Type 0 } = { λ reply. Unit {0} };

    /// Does it.
    fn act<R: Wait + Clock>(self, subscriber: &mut S, rt: &R) -> Self::Reply
        ensures done { does self subscriber.old result subscriber.new }
        ensures fact { replies result };
}

/// The job that does an action to the subscriber of an id and replies as it does. `InvalidId`, and nothing done, if nobody has it.
#[derive(Drop)]
pub struct ActionOn<A> {
    /// The id.
    pub subscriber: SubscriberId,
    /// What is done.
    pub action: A,
}

impl<S: MutEventSubscriber + Drop, A: Action<S>> Job<S> for ActionOn<A> {
    type Reply = Result<A::Reply>;

    ghost use Rattle.std.specs.Prelude.{IfOk};
    ghost use Rattle.event_manager.specs.Actions.{IsDoneTo};

    ghost may = { λ self steps reply. IsDoneTo A.does self.subscriber self.action steps reply };

    ghost replies = { λ reply. IfOk reply A.replies };

    fn call<P: EventPoller, R: Wait + Clock>(
        self,
        registry: &mut Registry<S, P>,
        rt: &R,
    ) -> Result<A::Reply> {
        let subscriber = registry.subscriber_mut(self.subscriber)?;
        Ok(self.action.act(subscriber, rt))
    }
}
