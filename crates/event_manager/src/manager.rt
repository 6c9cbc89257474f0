//! The event manager: a loop that waits and dispatches.

ghost use Rattle.std.specs.Prelude.{◌≡◌, ℕ, List, negsuc, IfErr, IfOk};
ghost use Rattle.event_loop.specs.Registry.{LoopStep};
ghost use Rattle.std.specs.Borrow.{sem, LendsSoOk};
ghost use Rattle.event_loop.specs.LoopState.{HaveStepped, IsLoopIteration, with_value};
ghost use Rattle.event_loop.specs.Requests.{StandsFor, with_ops};
ghost use Rattle.event_manager.specs.Manager.{state_of, endpoint_of, IsMade};

use crate::endpoint::RemoteEndpoint;
use crate::endpoint::channel::EventManagerChannel;
use crate::endpoint::closed::Closed;
use crate::jobs::Job;
use crate::named_counter::NamedCounter;
use event_loop::{
    BoxedPoller, Error, EventOps, EventPoller, Events, MAX_READY_EVENTS_CAPACITY,
    MutEventSubscriber, Registry, Result, SubscriberId, SubscriberOps, Subscribers,
};
use job_tickets::ledgers::Ledgers;
use std::alloc::Global;
use std::sync::Wait;
use std::time::Clock;
use vmm_sys::epoll::EventSet;

pub(crate) const DEFAULT_CAPACITY: usize = 256;

/// An event loop over a poller, the subscribers that it serves, and the jobs that its endpoints send. Without jobs, `J` is
/// [`NoJob`](crate::jobs::NoJob). `N`, the type of the counter that wakes it, names the ledgers of its tickets and taken jobs.
pub struct EventManager<S: MutEventSubscriber, J: Job<S>, N: NamedCounter, P = BoxedPoller> {
    registry: Registry<S, P>,
    channel: EventManagerChannel<S, J, N>,
}

// Not derived: so an owner proves one call, and not the drop of every part.
impl<S: MutEventSubscriber + Drop, J: Job<S>, N: NamedCounter, P: Drop> Drop
    for EventManager<S, J, N, P> {
    fn drop(self) {
        let EventManager {
            registry: _,
            channel: _,
        } = self;
    }
}

impl<S: MutEventSubscriber, J: Job<S>, N: NamedCounter, P: EventPoller> EventManager<S, J, N, P> {
    /// A manager with capacity 256, as [`new_with_capacity`](EventManager::new_with_capacity) makes it.
    pub fn new(alloc: Global, poller: P, counter: N, ledgers: Ledgers<N>) -> Result<Self>
    where
        S: Drop,
        P: Drop,
        ensures { IsMade P.controls poller (endpoint_of N.descriptor counter) 256 state_of result }
    {
        EventManager::new_with_capacity(alloc, poller, counter, DEFAULT_CAPACITY, ledgers)
    }

    /// A manager without subscribers, whose batches have up to `capacity` events; 0 passes here, and is left to the poller's
    /// `wait`. Its endpoint is `counter`, which the poller must be able to watch: an [`EventFd`](vmm_sys::eventfd::EventFd) of the
    /// poller's table, as [`Named`](crate::Named), or your own. The poller is asked to add its descriptor with the set `IN` and the
    /// descriptor as word. The ledgers are those of [`with_ledgers`](crate::with_ledgers). Only the loop may clear the counter, by
    /// whatever handle: a run takes jobs only if the endpoint's event was reported, so jobs whose ring somebody else has cleared
    /// before the wait stay where they are until the next ring.
    ///
    /// Refused, in this order, with poller and counter dropped: `InvalidCapacity` above [`MAX_READY_EVENTS_CAPACITY`], before the
    /// poller is asked; `OutOfMemory`; `Epoll` with the number that the poller answers.
    pub fn new_with_capacity(
        alloc: Global,
        poller: P,
        counter: N,
        capacity: usize,
        ledgers: Ledgers<N>,
    ) -> Result<Self>
    where
        S: Drop,
        P: Drop,
        ensures { IsMade P.controls poller (endpoint_of N.descriptor counter) capacity state_of result }
    {
        if capacity > MAX_READY_EVENTS_CAPACITY {
            return Err(Error::InvalidCapacity);
        }
        let events = Events::new(&counter, EventSet::IN);
        let channel = EventManagerChannel::new(alloc, counter, ledgers)?;
        let registry = Registry::new(alloc, poller, events, capacity)?;
        Ok(EventManager { registry, channel })
    }

    /// The poller, to read what it keeps, such as a record of its calls. Not in event-manager.
    pub fn poller(&self) -> &P
        ensures { result.now ≡ (state_of self.now).poller }
    {
        self.registry.poller()
    }

    /// [`run_with_timeout`](EventManager::run_with_timeout) without a limit.
    pub fn run<R: Wait + Clock>(&mut self, rt: &R) -> Result<usize>
        ensures { IsLoopIteration S.begins S.serves J.may P.controls P.waits (state_of self.old) (negsuc 0) result (state_of self.new) }
    {
        self.run_with_timeout(-1, rt)
    }

    /// Waits once, for at most `ms` milliseconds (negative: without a limit), dispatches the reported events, and then runs waiting
    /// jobs. Returns how many events were reported, including cancelled ones and those of nobody.
    ///
    /// Events of a higher [`Priority`](crate::Priority) go first, by what each descriptor held after the wait (0 if nobody owned
    /// it), and those of one priority in the order of the report. Each goes once, to the subscriber that owns its descriptor at its
    /// turn, unless a `remove` of that descriptor has succeeded since the wait; else to nobody. Events of the endpoint's descriptor
    /// go to nobody. If there was one, then after all deliveries the counter is cleared once, and all waiting jobs are taken and
    /// run once each, in the order of the tickets, without the queue's lock; a job that is sent meanwhile waits for a later run.
    ///
    /// An interrupted wait (`EINTR`) returns 0; one that is refused with another number is `Epoll` with it. Then nobody is called,
    /// and only the poller changes. A run whose wait succeeded returns `Ok`, and takes no memory of the manager's.
    pub fn run_with_timeout<R: Wait + Clock>(&mut self, ms: i32, rt: &R) -> Result<usize>
        ensures { IsLoopIteration S.begins S.serves J.may P.controls P.waits (state_of self.old) ms result (state_of self.new) }
    {
        let batch = self.registry.run_with_timeout(ms)?;
        if batch.endpoint_ready {
            self.channel.run_jobs(&mut self.registry, rt);
        }
        Ok(batch.count)
    }

    /// An endpoint, by which other threads send jobs to this manager. `OutOfMemory` if one more owner is refused.
    pub fn remote_endpoint(&self) -> Result<RemoteEndpoint<S, J, N>>
        ensures refusals { IfErr result (λ e. e ≡ Error.OutOfMemory) }
    {
        let channel = self.channel.shared()?;
        Ok(RemoteEndpoint { channel })
    }

    pub(crate) fn has_waiting_jobs<R: Wait>(&self, rt: &R) -> bool {
        self.channel.has_waiting_jobs(rt)
    }

    pub(crate) fn call_here<R: Wait + Clock>(&mut self, job: J, rt: &R) -> J::Reply
        ensures { (steps : List (LoopStep S)) × J.may job steps result × HaveStepped S.begins P.controls P.waits (state_of self.old) steps (state_of self.new) }
    {
        job.call(&mut self.registry, rt)
    }

    /// As [`close`](EventManager::close), but returns the subscribers by id, and the poller with all that was added to it, the
    /// endpoint too. Not in event-manager.
    pub fn into_parts<R: Wait + Clock>(self, rt: &R) -> (Closed<N>, Subscribers<S>, P)
        ensures taken { result.0.taken ≡ (state_of self).taken }
        ensures subscribers { result.1 ≡ (state_of self).registry.values }
        ensures poller { result.2 ≡ (state_of self).poller }
    {
        let EventManager { registry, channel } = self;
        let closed = channel.close(rt);
        let (subscribers, poller) = registry.into_parts();
        (closed, subscribers, poller)
    }

    /// Closes the queue in one step: later sends are refused with `ChannelSend`. Waiting jobs are dropped, and whoever waits for
    /// their replies gets `ChannelRecv`. Then subscribers and poller are dropped; the poller is asked for nothing.
    pub fn close<R: Wait + Clock>(self, rt: &R) -> Closed<N>
    where
        S: Drop,
        P: Drop,
        ensures taken { result.taken ≡ (state_of self).taken }
    {
        let (closed, _subscribers, _poller) = self.into_parts(rt);
        closed
    }
}

impl<S: MutEventSubscriber + Drop, J: Job<S>, N: NamedCounter, P: EventPoller> SubscriberOps
    for EventManager<S, J, N, P> {
    type Subscriber = S;

    type Poller = P;

    ghost seen = { λ m. state_of m };

    fn add_subscriber(&mut self, subscriber: S) -> Result<SubscriberId> {
        self.registry.add_subscriber(subscriber)
    }

    fn next_id(&self) -> SubscriberId {
        self.registry.next_id()
    }

    fn ids(&self, alloc: Global) -> Result<Vec<SubscriberId>> {
        self.registry.ids(alloc)
    }

    fn remove_subscriber(&mut self, id: SubscriberId) -> Result<S> {
        self.registry.remove_subscriber(id)
    }

    fn subscriber(&self, id: SubscriberId) -> Result<&S> {
        self.registry.subscriber(id)
    }

    fn subscriber_mut(&mut self, id: SubscriberId) -> Result<&mut S> {
        self.registry.subscriber_mut(id)
    }

    fn event_ops(&mut self, id: SubscriberId) -> Result<&mut EventOps<P>> {
        self.registry.event_ops(id)
    }
}
