//! Calls on subscribers from outside a batch.

ghost use Rattle.std.specs.Prelude.{◌≡◌, IfErr, IfOk};
ghost use Rattle.std.specs.Borrow.{sem, LendsSoOk};
ghost use Rattle.std.specs.FinMap as map;
ghost use Rattle.event_loop.specs.Registry.{LoopStep, HasId, LacksId, AreBelow};
ghost use Rattle.event_loop.specs.Requests.{StandsFor, with_ops};
ghost use Rattle.event_loop.specs.contracts.ops.EventOps.{the_row as ops_row};
ghost use Rattle.event_loop.specs.LoopState.{HasStepped, IsJoin, IsLeave, with_value};

use crate::error::{Error, Result};
use crate::ops::EventOps;
use crate::poller::EventPoller;
use crate::subscribers::{MutEventSubscriber, SubscriberId};
use std::alloc::Global;

/// What is done to subscribers from outside a batch. A refused call changes nothing that a contract sees by `seen`: the subscribers
/// by id, the next id, the registrations, the poller and the capacity.
pub trait SubscriberOps {
    type Subscriber: MutEventSubscriber;

    type Poller: EventPoller;

    ghost use Rattle.event_loop.specs.LoopState.{LoopState};

    ghost seen: { Self → LoopState Self.Subscriber Self.Poller };

    /// Holds the subscriber under the next id and calls its `init`; it stays held, whatever `init` asks for and is refused.
    ///
    /// Refused before `init`, and the subscriber is dropped: `IdsUsedUp` where the next id is `u64::MAX`; then `OutOfMemory`.
    fn add_subscriber(&mut self, subscriber: Self::Subscriber) -> Result<SubscriberId>
        ensures { (step : LoopStep Self.Subscriber) × IsJoin subscriber result step
            × HasStepped Self.Subscriber.begins Self.Poller.controls Self.Poller.waits (seen self.old) step (seen self.new) };

    /// The id that the next `add_subscriber` gives if it isn't refused, for calls that name it beforehand. `u64::MAX` is never
    /// given: where it is next, each join is refused with `IdsUsedUp`.
    fn next_id(&self) -> SubscriberId
        ensures next { result ≡ (seen self.now).registry.next }
        ensures below { AreBelow (seen self.now).registry.next (seen self.now).registry.values };

    /// The ids of all subscribers, in ascending order. Not in event-manager.
    fn ids(&self, alloc: Global) -> Result<Vec<SubscriberId>>
        ensures ids { IfOk result (λ ids. ids.items ≡ map.keys (seen self.now).registry.values) }
        ensures refusals { IfErr result (λ e. e ≡ Error.OutOfMemory) };

    /// Removes the subscriber and returns it; `InvalidId` where no subscriber has the id. The poller is asked for one Delete (its
    /// event has the empty set, data 0 and descriptor 0) for each of the subscriber's descriptors, in ascending order. Whatever it
    /// answers, these descriptors are free. The id is never given again. Takes no memory.
    fn remove_subscriber(&mut self, id: SubscriberId) -> Result<Self::Subscriber>
        ensures { (step : LoopStep Self.Subscriber) × IsLeave id result step
            × HasStepped Self.Subscriber.begins Self.Poller.controls Self.Poller.waits (seen self.old) step (seen self.new) };

    /// The subscriber of the id; `InvalidId` where there is none.
    fn subscriber(&self, id: SubscriberId) -> Result<&Self::Subscriber>
        ensures found { IfOk result (λ r. HasId (seen self.now).registry id r.now) }
        ensures lost { IfErr result (λ e. (e ≡ Error.InvalidId) × LacksId (seen self.now).registry id) };

    /// Lends the subscriber of the id; `InvalidId` where there is none. Takes no memory.
    fn subscriber_mut(&mut self, id: SubscriberId) -> Result<&mut Self::Subscriber>
        ensures* lent { sem 𝓛 (LendsSoOk Self.row Self.Subscriber.row self.entry result (λ n w. seen n ≡ with_value (seen self.old) id w) (λ n. seen n ≡ seen self.old)) }
        ensures found { IfOk result (λ r. HasId (seen self.old).registry id r.now) }
        ensures lost { IfErr result (λ e. (e ≡ Error.InvalidId) × LacksId (seen self.old).registry id) };

    /// Lends the [`EventOps`] of the subscriber, for requests from outside a batch; `InvalidId` where no subscriber has the id.
    /// Takes no memory. Subscribers and next id stay; registrations and poller are then what the requests made through the loan
    /// leave. Who swaps the loans of two managers gives each the other's registrations; an event whose owner's id a manager doesn't
    /// hold goes to nobody.
    fn event_ops(&mut self, id: SubscriberId) -> Result<&mut EventOps<Self::Poller>>
        ensures* lent { sem 𝓛 (LendsSoOk Self.row (ops_row Self.Poller.row) self.entry result (λ n w. seen n ≡ with_ops (seen self.old) w) (λ n. seen n ≡ seen self.old)) }
        ensures found { IfOk result (λ ops. StandsFor ops.now id (seen self.old)) }
        ensures held { IfOk result (λ ops. (value : Self.Subscriber) × HasId (seen self.old).registry id value) }
        ensures lost { IfErr result (λ e. (e ≡ Error.InvalidId) × LacksId (seen self.old).registry id) };
}
