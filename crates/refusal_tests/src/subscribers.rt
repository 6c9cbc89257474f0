//! Subscribers of a manager: their joins, and their requests from outside a batch.

use crate::again;
use crate::expecting::{Looping, expect_ok, expect_same, expect_unchanged};
use event_manager::{
    Error, EventManager, EventOps, EventPoller, Events, MutEventSubscriber, NamedCounter, NoJob,
    Priority, Request, Result, SubscriberId, SubscriberOps,
};
use std::alloc::Global;
use vmm_sys::errno::Errno;

/// What a descriptor is answered that its subscriber doesn't own.
const NOT_OWN: Result<()> = Err(Error::Epoll(Errno::ENOENT));

/// What a subscriber is answered that joins while there is memory.
const OWN: [Result<()>; 3] = [Ok(()), Ok(()), Err(Error::FdAlreadyRegistered)];

/// When it joins it adds its own descriptor, modifies it, and adds it once more; at each event it counts, and makes its other
/// requests.
#[derive(Drop)]
pub struct Watcher {
    pub own: Events,
    pub at_each_event: Vec<Request>,
    /// How many events it was given.
    pub heard: u64,
    /// What was answered when it joined.
    pub joined: [Result<()>; 3],
}

impl Watcher {
    /// One that asks for nothing at an event.
    pub fn new(own: Events, alloc: Global) -> Watcher {
        Watcher {
            own,
            at_each_event: Vec::new(alloc),
            heard: 0,
            joined: [Ok(()); 3],
        }
    }
}

impl MutEventSubscriber for Watcher {
    ghost begins = { λ v exchanges w. Unit {0} };

    ghost serves = { λ v event exchanges w. Unit {0} };

    fn process<P: EventPoller>(&mut self, _events: Events, ops: &mut EventOps<P>) {
        self.heard = self.heard.saturating_add(1);
        let _ = ops.request_all(&self.at_each_event);
    }

    fn init<P: EventPoller>(&mut self, ops: &mut EventOps<P>) {
        let own = self.own;
        let answers = ops.request_each([
            Request::Add(own),
            Request::Modify(own),
            Request::Add(own),
        ]);
        self.joined = answers;
    }
}

/// A manager of a test that takes no jobs.
pub type Manager<N, P> = EventManager<Watcher, NoJob, N, P>;

/// Takes a subscriber of this descriptor in. Had a refused join asked for the descriptor, the second one's request would be
/// refused.
pub fn join<N: NamedCounter, P: EventPoller, R: Looping>(
    rt: &R,
    alloc: Global,
    manager: &mut Manager<N, P>,
    own: Events,
) -> SubscriberId {
    let id = again!(
        rt,
        "add_subscriber",
        manager.add_subscriber(Watcher::new(own, alloc))
    );
    let call = "EventOps::add in init";
    let joined = expect_ok(rt, "subscriber_mut", manager.subscriber_mut(id)).joined;
    match joined {
        [Err(Error::OutOfMemory), modified, again] => {
            expect_unchanged(rt, call, modified == NOT_OWN);
            expect_ok(rt, call, again);
        }
        _ => expect_same(rt, call, &joined, &OWN),
    }
    id
}

/// Asks for a descriptor for the subscriber, at a priority where one is given.
fn add<N: NamedCounter, P: EventPoller>(
    manager: &mut Manager<N, P>,
    id: SubscriberId,
    events: Events,
    priority: Option<Priority>,
) -> Result<()> {
    let ops = manager.event_ops(id)?;
    match priority {
        None => ops.add(events),
        Some(priority) => ops.add_with_priority(events, priority),
    }
}

/// Whether the id doesn't own the descriptor.
fn is_not_own<N: NamedCounter, P: EventPoller>(
    manager: &mut Manager<N, P>,
    id: SubscriberId,
    events: Events,
) -> bool {
    match manager.event_ops(id) {
        Ok(ops) => ops.modify(events) == NOT_OWN,
        Err(_) => false,
    }
}

/// Adds the descriptor for the subscriber, from outside a batch, at a priority where one is given.
pub fn ask<N: NamedCounter, P: EventPoller, R: Looping>(
    rt: &R,
    manager: &mut Manager<N, P>,
    id: SubscriberId,
    events: Events,
    priority: Option<Priority>,
) {
    let call = match priority {
        None => "EventOps::add",
        Some(_) => "EventOps::add_with_priority",
    };
    again!(
        rt,
        call,
        add(manager, id, events, priority),
        is_not_own(manager, id, events)
    )
}

/// How many events the subscriber was given.
pub fn heard<N: NamedCounter, P: EventPoller, R: Looping>(
    rt: &R,
    manager: &mut Manager<N, P>,
    id: SubscriberId,
) -> u64 {
    expect_ok(rt, "subscriber_mut", manager.subscriber_mut(id)).heard
}
