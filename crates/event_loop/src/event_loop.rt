//! An event loop that takes no jobs.

ghost use Rattle.std.specs.Prelude.{◌≡◌, negsuc, IfErr, IfOk};
ghost use Rattle.std.specs.Borrow.{sem, LendsSoOk};
ghost use Rattle.event_loop.specs.LoopState.{IsLoopIteration, new_loop, no_descriptor, no_job, with_next_id, with_value};
ghost use Rattle.event_loop.specs.Requests.{StandsFor, with_ops};
ghost use Rattle.event_loop.specs.EventLoop.{seen_of, IsCapacityRefused};

use crate::error::{Error, Result};
use crate::ops::EventOps;
use crate::poller::{BoxedPoller, EventPoller};
use crate::registry::{FIRST_ID, Registry};
use crate::subscriber_ops::SubscriberOps;
use crate::subscribers::{MutEventSubscriber, SubscriberId, Subscribers};
use std::alloc::Global;

/// The largest capacity: as many entries of 12 bytes as fit in 2147483647 bytes. Such a loop asks for 40 bytes an entry: 7.2 GB.
pub const MAX_READY_EVENTS_CAPACITY: usize = 178956970;

const DEFAULT_CAPACITY: usize = 256;

/// An event loop over a poller, and the subscribers that it serves. Each run waits once and gives each event of the report to the
/// subscriber that owns its descriptor at its turn. It takes no jobs, so it needs no counter, no ledger and no handle: its poller
/// waits. Not in event-manager, whose manager always has an endpoint, as `EventManager` has.
pub struct EventLoop<S, P = BoxedPoller> {
    registry: Registry<S, P>,
}

// Not derived: so who owns one has one call to prove, not a drop of each part.
impl<S: Drop, P: Drop> Drop for EventLoop<S, P> {
    fn drop(self) {
        let EventLoop { registry: _ } = self;
    }
}

impl<S: MutEventSubscriber, P: EventPoller> EventLoop<S, P> {
    /// [`with_capacity`](EventLoop::with_capacity) of 256.
    pub fn new(alloc: Global, poller: P) -> Result<Self>
    where
        P: Drop,
        ensures made { IfOk result (λ made. seen_of made ≡ new_loop no_descriptor poller 256) }
        ensures refusals { IfErr result (λ error. error ≡ Error.OutOfMemory) }
    {
        let registry = Registry::without_endpoint(alloc, poller, DEFAULT_CAPACITY, FIRST_ID)?;
        Ok(EventLoop { registry })
    }

    /// A loop with no subscriber and batches of up to `capacity` events. The poller isn't called; capacity 0 is left to its `wait`.
    ///
    /// Refused, in this order, and the poller is dropped: `InvalidCapacity` above [`MAX_READY_EVENTS_CAPACITY`]; `OutOfMemory`.
    pub fn with_capacity(alloc: Global, poller: P, capacity: usize) -> Result<Self>
    where
        P: Drop,
        ensures made { IfOk result (λ made. seen_of made ≡ new_loop no_descriptor poller capacity) }
        ensures refusals { IsCapacityRefused capacity result }
    {
        if capacity > MAX_READY_EVENTS_CAPACITY {
            return Err(Error::InvalidCapacity);
        }
        let registry = Registry::without_endpoint(alloc, poller, capacity, FIRST_ID)?;
        Ok(EventLoop { registry })
    }

    /// As [`new`](EventLoop::new), but `first_id` is the id given first. A loop that continues another, from that one's
    /// [`next_id`](SubscriberOps::next_id) on, gives no id that the other gave. Not in event-manager.
    pub fn with_first_id(alloc: Global, poller: P, first_id: u64) -> Result<Self>
    where
        P: Drop,
        ensures made { IfOk result (λ made. seen_of made ≡ with_next_id (new_loop no_descriptor poller 256) first_id) }
        ensures refusals { IfErr result (λ error. error ≡ Error.OutOfMemory) }
    {
        let registry = Registry::without_endpoint(alloc, poller, DEFAULT_CAPACITY, first_id)?;
        Ok(EventLoop { registry })
    }

    /// The poller, to read what it keeps, such as the record of its calls. Not in event-manager.
    pub fn poller(&self) -> &P
        ensures { result.now ≡ (seen_of self.now).poller }
    {
        self.registry.poller()
    }

    /// Ends the loop; returns its subscribers by id and its poller, which isn't called: what was added stays. Not in event-manager.
    pub fn into_parts(self) -> (Subscribers<S>, P)
        ensures subscribers { result.0 ≡ (seen_of self).registry.values }
        ensures poller { result.1 ≡ (seen_of self).poller }
    {
        let EventLoop { registry } = self;
        registry.into_parts()
    }

    /// [`run_with_timeout`](EventLoop::run_with_timeout) without a limit.
    pub fn run(&mut self) -> Result<usize>
        ensures { IsLoopIteration S.begins S.serves no_job P.controls P.waits (seen_of self.old) (negsuc 0) result (seen_of self.new) }
    {
        self.run_with_timeout(-1)
    }

    /// Waits once, for at most `ms` milliseconds (negative: without a limit), dispatches what is reported, and returns how many
    /// events were reported, cancelled ones and those of nobody included.
    ///
    /// Events of a higher [`Priority`](crate::Priority) go first, by the one that each descriptor held after the wait (the lowest
    /// where nobody owned it), and those of one priority in the order of the report. Each goes once, to the subscriber that owns
    /// its descriptor at its turn, unless a `remove` of that descriptor has succeeded since the wait; else to nobody.
    ///
    /// An interrupted wait (`EINTR`) returns 0; one that is refused with another number is `Epoll` with it. In both cases nobody is
    /// called and nothing changes but the poller. The loop itself takes no memory in a run.
    pub fn run_with_timeout(&mut self, ms: i32) -> Result<usize>
        ensures { IsLoopIteration S.begins S.serves no_job P.controls P.waits (seen_of self.old) ms result (seen_of self.new) }
    {
        let batch = self.registry.run_with_timeout(ms)?;
        Ok(batch.count)
    }
}

impl<S: MutEventSubscriber + Drop, P: EventPoller> SubscriberOps for EventLoop<S, P> {
    type Subscriber = S;

    type Poller = P;

    ghost seen = { λ l. seen_of l };

    fn add_subscriber(&mut self, subscriber: S) -> Result<SubscriberId> {
        self.registry.add_subscriber(subscriber)
    }

    fn next_id(&self) -> SubscriberId {
        self.registry.next_id()
    }

    fn ids(&self, alloc: Global) -> Result<Vec<SubscriberId>> {
        self.registry.ids(alloc)
    }

    fn remove_subscriber(&mut self, id: SubscriberId) -> Result<S> {
        self.registry.remove_subscriber(id)
    }

    fn subscriber(&self, id: SubscriberId) -> Result<&S> {
        self.registry.subscriber(id)
    }

    fn subscriber_mut(&mut self, id: SubscriberId) -> Result<&mut S> {
        self.registry.subscriber_mut(id)
    }

    fn event_ops(&mut self, id: SubscriberId) -> Result<&mut EventOps<P>> {
        self.registry.event_ops(id)
    }
}
