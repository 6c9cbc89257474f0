//! Subscribers, and the ids that a registry gives them.

ghost use Rattle.std.specs.Prelude.{◌≡◌, List, IfErr, IfNone, IfOk, OnSome};
ghost use Rattle.std.specs.Option.{option_copied};
ghost use Rattle.std.specs.FinMap as map;
ghost use Rattle.event_loop.specs.PollerCall.{PollerCall};
ghost use Rattle.event_loop.specs.Exchange.{Exchanges};
ghost use Rattle.event_loop.specs.Requests.{AreMadeThrough};

use crate::error::{Error, Result};
use crate::events::Events;
use crate::ops::EventOps;
use crate::poller::EventPoller;
use dispatch_tables::places::SubscriberPlaces;
use std::alloc::Global;
use std::marker::Model;

/// The number under which a registry holds a subscriber: counted up from 1, or from the loop's `first_id`, and never given again.
#[derive(Clone, Copy, PartialEq, Eq, PartialOrd, Ord, Hash, Debug)]
pub struct SubscriberId {
    pub(crate) number: u64,
}

impl Model for SubscriberId {
    ghost use Rattle.std.specs.Prelude.{ℕ};

    ghost Value = { ℕ };

    ghost view = { λ s. s.number };

    ghost inverse = { λ n. record { number = n } };
}

impl SubscriberId {
    /// The number.
    pub fn number(&self) -> u64
        ensures { result ≡ self.now }
    {
        self.number
    }
}

pub(crate) fn ids_of<S>(places: &SubscriberPlaces<S>, alloc: Global) -> Result<Vec<SubscriberId>>
    ensures ids { IfOk result (λ ids. ids.items ≡ map.keys places.now.by_id) }
    ensures refusals { IfErr result (λ e. e ≡ Error.OutOfMemory) }
{
    let numbers = places.ids(alloc)?;
    let mut ids = Vec::with_capacity(alloc, numbers.len())?;
    for number in &numbers {
        ids.push(SubscriberId { number: *number })?;
    }
    Ok(ids)
}

/// The subscribers that a loop held when it was taken apart, by id. Contracts see them as a map.
#[derive(Drop)]
pub struct Subscribers<S> {
    pub(crate) places: SubscriberPlaces<S>,
}

impl<S> Model for Subscribers<S> {
    ghost use Rattle.std.specs.Ordering.{nat_cmp};
    ghost use Rattle.std.specs.FinMap.{FinMap, code};
    ghost use Rattle.std.specs.Coded.{coded_ℕ};

    ghost Value = { FinMap nat_cmp S };

    ghost coded = { code coded_ℕ S.code };

    ghost view = { λ s. s.places.by_id };
}

impl<S> Subscribers<S> {
    /// The ids of all subscribers, in ascending order.
    pub fn ids(&self, alloc: Global) -> Result<Vec<SubscriberId>>
        ensures ids { IfOk result (λ ids. ids.items ≡ map.keys self.now) }
        ensures refusals { IfErr result (λ e. e ≡ Error.OutOfMemory) }
    {
        ids_of(&self.places, alloc)
    }

    /// The subscriber of the id, where the loop held one.
    pub fn get(&self, id: SubscriberId) -> Option<&S>
        ensures { option_copied result ≡ map.get self.now id }
    {
        self.places.get(id.number())
    }

    /// Removes the subscriber of the id and returns it, where the loop held one. Takes no memory.
    pub fn remove(&mut self, id: SubscriberId) -> Option<S>
        ensures value { result ≡ map.get self.old id }
        ensures removed { OnSome result (self.new ≡ map.remove self.old id) }
        ensures absent { IfNone result (self.new ≡ self.old) }
    {
        match self.places.remove(id.number()) {
            Some((_, subscriber)) => Some(subscriber),
            None => None,
        }
    }
}

/// A subscriber that changes only what it holds in cells, locks or atomics. `begins_shared` and `serves_shared` state what `init`
/// and `process` may ask for: they relate its value, the event, and the list of requests with their answers.
pub trait EventSubscriber {
    ghost use Rattle.dispatch_tables.specs.Event.{Event};
    ghost use Rattle.event_loop.specs.Exchange.{Exchanges};

    ghost begins_shared: { Self → Exchanges → Type 0 };

    ghost serves_shared: { Self → Event → Exchanges → Type 0 };

    /// Called with each event that is dispatched to the subscriber.
    fn process<P: EventPoller>(&self, events: Events, ops: &mut EventOps<P>)
        ensures { (exchanges : Exchanges) × (calls : List PollerCall) × serves_shared self.now events exchanges
            × AreMadeThrough P.controls P.waits ops.old ops.new exchanges calls };

    /// Called once, when the subscriber is added.
    fn init<P: EventPoller>(&self, ops: &mut EventOps<P>)
        ensures { (exchanges : Exchanges) × (calls : List PollerCall) × begins_shared self.now exchanges
            × AreMadeThrough P.controls P.waits ops.old ops.new exchanges calls };
}

/// A subscriber. `begins` and `serves` state what `init` and `process` may ask for and do: they relate its value before, the event,
/// the list of requests with their answers, and its value after. It changes the registrations through `ops` alone.
pub trait MutEventSubscriber {
    ghost use Rattle.dispatch_tables.specs.Event.{Event};
    ghost use Rattle.event_loop.specs.Exchange.{Exchanges};

    ghost begins: { Self → Exchanges → Self → Type 0 };

    ghost serves: { Self → Event → Exchanges → Self → Type 0 };

    /// Called with each event that is dispatched to the subscriber.
    fn process<P: EventPoller>(&mut self, events: Events, ops: &mut EventOps<P>)
        ensures { (exchanges : Exchanges) × (calls : List PollerCall) × serves self.old events exchanges self.new
            × AreMadeThrough P.controls P.waits ops.old ops.new exchanges calls };

    /// Called once, when the subscriber is added.
    fn init<P: EventPoller>(&mut self, ops: &mut EventOps<P>)
        ensures { (exchanges : Exchanges) × (calls : List PollerCall) × begins self.old exchanges self.new
            × AreMadeThrough P.controls P.waits ops.old ops.new exchanges calls };
}
