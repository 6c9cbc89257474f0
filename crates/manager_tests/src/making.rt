//! How a loop and a manager are made, what their capacity may be, and what a loop holds at its end.

use crate::expecting::{Looping, expect_ok, expect_same};
use event_manager::{
    Error, EventLoop, EventPoller, Events, MAX_READY_EVENTS_CAPACITY, SubscriberOps,
};
use fixtures::counting::{Counting, counting_on};
use fixtures::driving::replies_to;
use fixtures::parts::{Idle, silent_parts};
use fixtures::runs::run_alone;
use fixtures::scripts::script_of;
use std::alloc::Global;
use std::sync::atomic::{AtomicU64, Ordering};
use vmm_sys::epoll::{ControlOperation, EpollEvent};
use vmm_sys::errno::Errno;
use vmm_sys::table::Table;

/// A poller that counts what it is asked for.
#[derive(Drop)]
struct Counted<'a>(&'a AtomicU64);

impl EventPoller for Counted<'_> {
    ghost controls = { λ before op fd event answer after. Unit {0} };

    ghost waits = { λ before ms capacity answer after. Unit {0} };

    fn control(&mut self, _op: ControlOperation, _fd: u32, _event: Events) -> Result<(), Errno> {
        self.0.fetch_add(1, Ordering::SeqCst);
        Ok(())
    }

    fn poll(&mut self, _ms: i32, _buffer: &mut [EpollEvent]) -> Result<usize, Errno> {
        self.0.fetch_add(1, Ordering::SeqCst);
        Ok(0)
    }
}

#[test]
fn capacity_above_the_limit_asks_the_poller_for_nothing(rt: HostRuntime) {
    let asked = AtomicU64::new(0);
    for capacity in [MAX_READY_EVENTS_CAPACITY + 1, usize::MAX] {
        let mut parts = expect_ok(&rt, silent_parts(rt, rt.alloc(), Counted(&asked)));
        parts.capacity = Some(capacity);
        let refused = replies_to::<Idle, _, _>(&rt, parts, Vec::new(rt.alloc())).err();
        expect_same(&rt, &refused, &Some(Error::InvalidCapacity));
    }
    expect_same(&rt, &asked.load(Ordering::SeqCst), &0);
}

#[test]
fn a_loop_without_jobs_has_its_capacity(rt: HostRuntime) {
    let script = expect_ok(&rt, script_of(rt.alloc(), &[3, 4]));
    let made = EventLoop::<Counting, _>::with_capacity(rt.alloc(), script, 1);
    let mut event_loop = expect_ok(&rt, made);
    expect_same(&rt, &event_loop.run(), &Ok(1));
    expect_same(&rt, &event_loop.run(), &Ok(1));
}

#[test]
fn a_loop_lists_its_subscribers_and_so_do_its_parts(rt: HostRuntime) {
    let script = expect_ok(&rt, script_of(rt.alloc(), &[]));
    let mut event_loop = expect_ok(&rt, EventLoop::new(rt.alloc(), script));
    let first = expect_ok(&rt, event_loop.add_subscriber(counting_on(1)));
    let second = expect_ok(&rt, event_loop.add_subscriber(counting_on(2)));
    let third = expect_ok(&rt, event_loop.add_subscriber(counting_on(3)));
    drop(expect_ok(&rt, event_loop.remove_subscriber(second)));
    let held = [first, third];
    let ids = expect_ok(&rt, event_loop.ids(rt.alloc()));
    expect_same(&rt, &ids.as_slice(), &held.as_slice());
    let (subscribers, _poller) = event_loop.into_parts();
    let ids = expect_ok(&rt, subscribers.ids(rt.alloc()));
    expect_same(&rt, &ids.as_slice(), &held.as_slice());
}

/// Expects that a run of a manager without capacity is refused, over this poller, and that nobody is called.
fn expect_refused_wait<P: EventPoller + Drop, R: Looping + Send>(rt: R, alloc: Global, poller: P) {
    let mut parts = expect_ok(&rt, silent_parts(rt, alloc, poller));
    parts.capacity = Some(0);
    let runs = [Err(Error::Epoll(Errno::EINVAL))];
    let left = expect_ok(&rt, run_alone(&rt, parts, counting_on(1), &runs));
    expect_same(&rt, &left.count, &0);
}

#[test]
fn a_capacity_of_0_is_left_to_the_poller(rt: HostRuntime) {
    let script = expect_ok(&rt, script_of(rt.alloc(), &[1]));
    expect_refused_wait(rt, rt.alloc(), script);
    let mut table = Table::new(rt.alloc());
    // The endpoint's descriptor, and one that is ready.
    expect_same(&rt, &table.add_counter(0), &Ok(0));
    expect_same(&rt, &table.add_counter(1), &Ok(1));
    expect_refused_wait(rt, rt.alloc(), table);
}
