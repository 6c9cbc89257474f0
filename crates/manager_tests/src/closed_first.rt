//! A descriptor that is closed before its owner has removed it.

use crate::expecting::{Host, expect_ok, expect_same};
use crate::steps::counter_of;
use event_manager::{Error, EventLoop, EventPoller, Events, Request, SubscriberId, SubscriberOps};
use fixtures::asking::Asking;
use std::alloc::Global;
use std::process::Abort;
use vmm_sys::epoll::{AsRawFd, Epoll, EventSet};

/// Joins a subscriber that adds the descriptor.
fn join<P: EventPoller, R: Abort>(
    rt: &R,
    alloc: Global,
    events: &mut EventLoop<Asking, P>,
    own: Events,
) -> SubscriberId {
    let asking = expect_ok(rt, Asking::new(alloc, &[Request::Add(own)], &[]));
    expect_ok(rt, events.add_subscriber(asking))
}

/// Lets a subscriber leave, and expects that it saw `seen` events, and which refusal.
fn leave<P: EventPoller, R: Abort>(
    rt: &R,
    events: &mut EventLoop<Asking, P>,
    id: SubscriberId,
    seen: usize,
    refusal: Option<Error>,
) {
    let left = expect_ok(rt, events.remove_subscriber(id));
    expect_same(rt, &left.seen.len(), &seen);
    expect_same(rt, &left.first_refusal.map(|it| it.error), &refusal);
}

// Its number is given again, and still belongs to who added the first.
fn close_before_the_removal<R: Host>(rt: R, alloc: Global) {
    let epoll = expect_ok(&rt, Epoll::new(rt, alloc));
    let poller = expect_ok(&rt, epoll.try_clone());
    let mut events = expect_ok(&rt, EventLoop::new(alloc, poller));
    let counter = counter_of(&rt, &epoll);
    let own = Events::new(&counter, EventSet::OUT);
    let first = join(&rt, alloc, &mut events, own);
    expect_same(&rt, &events.run_with_timeout(0), &Ok(1));
    counter.close(&rt);
    let again = counter_of(&rt, &epoll);
    expect_same(&rt, &again.as_raw_fd(), &own.fd());
    expect_same(&rt, &events.run_with_timeout(0), &Ok(0));
    let second = join(&rt, alloc, &mut events, own);
    expect_same(&rt, &events.run_with_timeout(0), &Ok(0));
    leave(&rt, &mut events, first, 1, None);
    leave(
        &rt,
        &mut events,
        second,
        0,
        Some(Error::FdAlreadyRegistered),
    );
    let third = join(&rt, alloc, &mut events, own);
    expect_same(&rt, &events.run_with_timeout(0), &Ok(1));
    leave(&rt, &mut events, third, 1, None);
}

#[test]
fn a_number_of_a_closed_descriptor_belongs_to_its_owner_until_it_is_removed(rt: HostRuntime) {
    close_before_the_removal(rt, rt.alloc());
}
