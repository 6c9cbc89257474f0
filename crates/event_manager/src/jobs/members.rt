//! Jobs by which subscribers join and leave.

use crate::jobs::Job;
use event_loop::{EventPoller, MutEventSubscriber, Registry, Result, SubscriberId, SubscriberOps};
use std::sync::Wait;
use std::time::Clock;

/// The job that adds a subscriber, and replies as [`SubscriberOps::add_subscriber`] answers. A refused subscriber is dropped.
#[derive(Drop)]
pub struct AddSubscriber<S>(pub S);

impl<S: MutEventSubscriber + Drop> Job<S> for AddSubscriber<S> {
    type Reply = Result<SubscriberId>;

    ghost use Rattle.std.specs.Prelude.{◌≡◌, [], ◌∷◌};
    ghost use Rattle.event_loop.specs.LoopState.{IsJoin};
    ghost use Rattle.event_loop.specs.Registry.{LoopStep};

    ghost may = { λ self steps reply. (step : LoopStep S) × (steps ≡ step ∷ []) × IsJoin self.0 reply step };

    fn call<P: EventPoller, R: Wait + Clock>(
        self,
        registry: &mut Registry<S, P>,
        _rt: &R,
    ) -> Result<SubscriberId> {
        registry.add_subscriber(self.0)
    }
}

/// The job that removes the subscriber of an id, and replies it. `InvalidId` if nobody has the id.
#[derive(Drop)]
pub struct RemoveSubscriber(pub SubscriberId);

impl<S: MutEventSubscriber + Drop> Job<S> for RemoveSubscriber {
    type Reply = Result<S>;

    ghost use Rattle.std.specs.Prelude.{◌≡◌, [], ◌∷◌};
    ghost use Rattle.event_loop.specs.LoopState.{IsLeave};
    ghost use Rattle.event_loop.specs.Registry.{LoopStep};

    ghost may = { λ self steps reply. (step : LoopStep S) × (steps ≡ step ∷ []) × IsLeave self.0 reply step };

    fn call<P: EventPoller, R: Wait + Clock>(
        self,
        registry: &mut Registry<S, P>,
        _rt: &R,
    ) -> Result<S> {
        registry.remove_subscriber(self.0)
    }
}
