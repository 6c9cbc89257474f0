//! The registry: the subscribers by id, over their registrations.

ghost use Rattle.std.specs.Prelude.{◌≡◌, [], map, IfErr, IfOk, MatchOption};
ghost use Rattle.dispatch_tables.specs.Members.{nobody};
ghost use Rattle.event_loop.specs.Registry.{LoopStep};
ghost use Rattle.event_loop.specs.RegistrationState.{all_pending};
ghost use Rattle.event_loop.specs.LoopState.{HasStepped, IsJoin, IsLeave, new_loop, no_descriptor, with_next_id};
ghost use Rattle.event_loop.specs.Subscribers.{TakesPosition, IsDispatched, IsBatch, IsNew, loop_state};

use crate::epoll::EpollWrapper;
use crate::error::{Error, Result};
use crate::events::Events;
use crate::ops::EventOps;
use crate::poller::{BoxedPoller, EventPoller};
use crate::registration_state::RegistrationState;
use crate::subscriber_ops::SubscriberOps;
use crate::subscribers::{MutEventSubscriber, SubscriberId, Subscribers, ids_of};
use dispatch_tables::places::SubscriberPlaces;
use std::alloc::Global;
use vmm_sys::epoll::ControlOperation;
use vmm_sys::errno::Errno;

pub(crate) const FIRST_ID: u64 = 1;

const NO_DESCRIPTOR: u32 = 2147483648;

/// What a wait reported.
#[derive(Clone, Copy)]
pub struct Batch {
    /// How many events were reported.
    pub count: usize,
    /// Whether one of them was on the endpoint's descriptor.
    pub endpoint_ready: bool,
}

/// The subscribers by id, their registrations, and the poller.
pub struct Registry<S, P = BoxedPoller> {
    pub(crate) subscribers: SubscriberPlaces<S>,
    pub(crate) ops: EventOps<P>,
}

// Not derived: so each way out of a function that owns one has one call to prove, not a drop of each part.
impl<S: Drop, P: Drop> Drop for Registry<S, P> {
    fn drop(self) {
        let Registry {
            subscribers: _,
            ops: _,
        } = self;
    }
}

impl<S: MutEventSubscriber, P: EventPoller> Registry<S, P> {
    /// A registry with no subscriber, whose batches have up to `capacity` events. The poller is asked to add the descriptor of
    /// `endpoint`, which no subscriber can own: its events only set [`Batch::endpoint_ready`]. Refused, in this order, and the
    /// poller is dropped: `OutOfMemory`; `Epoll` with the poller's number.
    pub fn new(alloc: Global, poller: P, endpoint: Events, capacity: usize) -> Result<Self>
    where
        P: Drop,
        ensures { IsNew P.controls poller endpoint capacity result }
    {
        let registrations = RegistrationState::new(alloc, endpoint.number(), capacity)?;
        let mut epoll = EpollWrapper {
            registrations,
            poller,
        };
        match epoll.ctl(ControlOperation::Add, endpoint) {
            Ok(()) => Ok(Registry::over(alloc, epoll, FIRST_ID)),
            Err(errno) => Err(Error::Epoll(errno)),
        }
    }

    pub(crate) fn without_endpoint(
        alloc: Global,
        poller: P,
        capacity: usize,
        first_id: u64,
    ) -> Result<Self>
    where
        P: Drop,
        ensures made { IfOk result (λ made. loop_state made ≡ with_next_id (new_loop no_descriptor poller capacity) first_id) }
        ensures refusals { IfErr result (λ error. error ≡ Error.OutOfMemory) }
    {
        let registrations = RegistrationState::new(alloc, NO_DESCRIPTOR, capacity)?;
        let epoll = EpollWrapper {
            registrations,
            poller,
        };
        Ok(Registry::over(alloc, epoll, first_id))
    }

    fn over(alloc: Global, epoll: EpollWrapper<P>, first_id: u64) -> Self
        ensures { (result.subscribers ≡ record nobody { next = first_id }) × (result.ops.epoll ≡ epoll) }
    {
        Registry {
            subscribers: SubscriberPlaces::from_id(alloc, first_id),
            ops: EventOps {
                epoll,
                id: 0,
                place: 0,
            },
        }
    }

    /// Takes the next event of the batch and returns whether it was on the endpoint's descriptor; `None` where none is left.
    fn dispatch_next(&mut self) -> Option<bool>
        ensures { MatchOption result
            ((self.new ≡ self.old) × (self.old.ops.epoll.registrations.ready ≡ []))
            (λ is_endpoint. TakesPosition S.serves P.controls P.waits self.old is_endpoint self.new) }
    {
        let Some(ready_entry) = self.ops.epoll.registrations.next_ready() else {
            return None;
        };
        if ready_entry.cancelled {
            return Some(ready_entry.is_endpoint);
        }
        let Some(owner) = self.ops.epoll.registrations.owner(&ready_entry.entry) else {
            return Some(ready_entry.is_endpoint);
        };
        let Some(subscriber) = self.subscribers.get_mut_at(owner.place, owner.id) else {
            return Some(ready_entry.is_endpoint);
        };
        self.ops.turn_to(owner.id, owner.place);
        subscriber.process(Events::of_entry(&ready_entry.entry), &mut self.ops);
        Some(ready_entry.is_endpoint)
    }

    fn dispatch(&mut self) -> bool
        requires { self.old.ops.epoll.registrations.ready ≡ all_pending (map (λ p. p.0) self.old.ops.epoll.registrations.ready) }
        ensures { IsDispatched S.serves P.controls P.waits self.old self.new (map (λ p. p.0) self.old.ops.epoll.registrations.ready) result }
    {
        let mut endpoint_ready = false;
        while let Some(is_endpoint) = self.dispatch_next() {
            endpoint_ready = endpoint_ready | is_endpoint;
        }
        endpoint_ready
    }

    /// Waits once and dispatches the batch, as [`EventLoop::run_with_timeout`](crate::EventLoop::run_with_timeout) does and with
    /// its refusals. An interrupted wait is an empty batch.
    pub fn run_with_timeout(&mut self, ms: i32) -> Result<Batch>
        ensures { IsBatch S.serves P.controls P.waits (loop_state self.old) ms result (loop_state self.new) }
    {
        match self
            .ops
            .epoll
            .registrations
            .wait(&mut self.ops.epoll.poller, ms)
        {
            Ok(count) => {
                let endpoint_ready = self.dispatch();
                Ok(Batch {
                    count,
                    endpoint_ready,
                })
            }
            Err(e) => {
                if e == Errno::EINTR {
                    return Ok(Batch {
                        count: 0,
                        endpoint_ready: false,
                    });
                }
                Err(Error::Epoll(e))
            }
        }
    }

    /// The poller, to read what it keeps.
    pub fn poller(&self) -> &P
        ensures { result.now ≡ (loop_state self.now).poller }
    {
        &self.ops.epoll.poller
    }

    /// The subscribers by id, and the poller, which isn't called: what was added to it stays there.
    pub fn into_parts(self) -> (Subscribers<S>, P)
        ensures subscribers { result.0 ≡ (loop_state self).registry.values }
        ensures poller { result.1 ≡ (loop_state self).poller }
    {
        let Registry { subscribers, ops } = self;
        let EventOps { epoll, .. } = ops;
        let EpollWrapper { poller, .. } = epoll;
        let subscribers = Subscribers {
            places: subscribers,
        };
        (subscribers, poller)
    }

    pub(crate) fn join(&mut self, subscriber: S) -> Result<SubscriberId>
    where
        S: Drop,
        ensures { (step : LoopStep S) × IsJoin subscriber result step
            × HasStepped S.begins P.controls P.waits (loop_state self.old) step (loop_state self.new) }
    {
        let id = self.subscribers.next_id();
        if id == u64::MAX {
            return Err(Error::IdsUsedUp);
        }
        let place = self.subscribers.next_place();
        self.ops.epoll.registrations.open(id, place)?;
        let place = self.subscribers.insert(subscriber)?;
        let Some(held) = self.subscribers.get_mut_at(place, id) else {
            unreachable!()
        };
        self.ops.turn_to(id, place);
        held.init(&mut self.ops);
        Ok(SubscriberId { number: id })
    }

    pub(crate) fn leave(&mut self, id: u64) -> Result<S>
        ensures { (step : LoopStep S) × IsLeave id result step
            × HasStepped S.begins P.controls P.waits (loop_state self.old) step (loop_state self.new) }
    {
        match self.subscribers.remove(id) {
            Some((place, subscriber)) => {
                self.ops.epoll.release(id, place);
                Ok(subscriber)
            }
            None => Err(Error::InvalidId),
        }
    }
}

impl<S: MutEventSubscriber + Drop, P: EventPoller> SubscriberOps for Registry<S, P> {
    type Subscriber = S;

    type Poller = P;

    ghost seen = { λ r. loop_state r };

    fn add_subscriber(&mut self, subscriber: S) -> Result<SubscriberId> {
        self.join(subscriber)
    }

    fn next_id(&self) -> SubscriberId {
        SubscriberId {
            number: self.subscribers.next_id(),
        }
    }

    fn ids(&self, alloc: Global) -> Result<Vec<SubscriberId>> {
        ids_of(&self.subscribers, alloc)
    }

    fn remove_subscriber(&mut self, id: SubscriberId) -> Result<S> {
        self.leave(id.number())
    }

    fn subscriber(&self, id: SubscriberId) -> Result<&S> {
        self.subscribers.get(id.number()).ok_or(Error::InvalidId)
    }

    fn subscriber_mut(&mut self, id: SubscriberId) -> Result<&mut S> {
        match self.subscribers.get_mut(id.number()) {
            Some(subscriber) => Ok(subscriber),
            None => Err(Error::InvalidId),
        }
    }

    fn event_ops(&mut self, id: SubscriberId) -> Result<&mut EventOps<P>> {
        let id = id.number();
        if let Some(place) = self.subscribers.place_of(id) {
            self.ops.turn_to(id, place);
            return Ok(&mut self.ops);
        }
        Err(Error::InvalidId)
    }
}
