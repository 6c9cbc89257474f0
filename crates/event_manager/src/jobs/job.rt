//! What a job is.

ghost use Rattle.std.specs.Prelude.{◌≡◌, List, []};
ghost use Rattle.event_loop.specs.Registry.{LoopStep};
ghost use Rattle.event_loop.specs.LoopState.{HaveStepped};
ghost use Rattle.event_loop.specs.Subscribers.{loop_state};

use event_loop::{EventPoller, MutEventSubscriber, Registry};
use std::sync::Wait;
use std::time::Clock;

/// A job on a registry of subscribers of type `S`.
pub trait Job<S: MutEventSubscriber>: Drop {
    /// What the job replies.
    type Reply: Drop;

    ghost use Rattle.std.specs.Prelude.{List};
    ghost use Rattle.event_loop.specs.Registry.{LoopStep};

    /// Which steps it may make, with their answers, and which reply it may then give.
    ghost may: { Self → List (LoopStep S) → Self.Reply → Type 0 };

    /// What a caller that waits for a reply knows of it.
    ghost replies: { Self.Reply → Type 0 } = { λ reply. Unit {0} };

    /// Does the job.
    fn call<P: EventPoller, R: Wait + Clock>(
        self,
        registry: &mut Registry<S, P>,
        rt: &R,
    ) -> Self::Reply
        ensures stepped { (steps : List (LoopStep S)) × may self steps result
            × HaveStepped S.begins P.controls P.waits (loop_state registry.old) steps (loop_state registry.new) }
        ensures fact { replies result };
}

/// The job that does nothing.
#[derive(Drop)]
pub struct NoJob;

impl<S: MutEventSubscriber> Job<S> for NoJob {
    type Reply = ();

    ghost may = { λ self steps reply. steps ≡ [] };

    fn call<P: EventPoller, R: Wait + Clock>(self, _registry: &mut Registry<S, P>, _rt: &R) {}
}
