//! What a trigger writes, and how long the counter is then ready.

use crate::expecting::{Host, expect_ok, expect_same};
use crate::steps::{expect_values, three_counters_of};
use event_manager::utilities::subscribers::{
    CounterInnerMutSubscriber, CounterSubscriber, CounterSubscriberWithData,
};
use std::alloc::Global;
use vmm_sys::epoll::{AsRawFd, ControlOperation, Epoll, EpollEvent, EventSet};
use vmm_sys::eventfd::EventFd;
use vmm_sys::poller::Poller;

/// Values of a counter before a trigger and after it: into the highest one nothing is written.
const ROWS: [(u64, u64); 3] = [
    (0, 1),
    (18446744073709551613, 18446744073709551614),
    (18446744073709551614, 18446744073709551614),
];

/// A counter of this value in a new table, twice.
fn counter_twice<R: Host>(rt: R, alloc: Global, value: u64) -> (EventFd, EventFd) {
    let epoll = expect_ok(&rt, Epoll::new(rt, alloc));
    let event_fd = expect_ok(&rt, EventFd::new(&epoll, value, &rt));
    let same = expect_ok(&rt, event_fd.try_clone());
    (event_fd, same)
}

#[test]
fn a_trigger_writes_1_where_there_is_room(rt: HostRuntime) {
    for (before, after) in ROWS {
        let (event_fd, same) = counter_twice(rt, rt.alloc(), before);
        CounterSubscriber::new(same).trigger_event(&rt);
        expect_same(&rt, &event_fd.read(&rt), &Ok(after));
    }
}

#[test]
fn a_shared_trigger_writes_1_where_there_is_room(rt: HostRuntime) {
    for (before, after) in ROWS {
        let (event_fd, same) = counter_twice(rt, rt.alloc(), before);
        CounterInnerMutSubscriber::new(same).trigger_event(&rt);
        expect_same(&rt, &event_fd.read(&rt), &Ok(after));
    }
}

/// Three counters of value 0 in a new table, each of which is wanted for `IN`.
fn wanted_counters<R: Host>(rt: R, alloc: Global) -> (Epoll<R>, [EventFd; 3]) {
    let mut epoll = expect_ok(&rt, Epoll::new(rt, alloc));
    let event_fds = three_counters_of(&rt, &epoll);
    for event_fd in &event_fds {
        let wanted = EpollEvent::new(EventSet::IN, 0);
        let added = epoll.ctl(ControlOperation::Add, event_fd.as_raw_fd(), wanted);
        expect_ok(&rt, added);
    }
    (epoll, event_fds)
}

/// Expects twice that `count` counters are ready.
fn expect_ready<R: Host>(rt: &R, epoll: &mut Epoll<R>, count: usize) {
    for _wait in 0..2 {
        let mut buffer = [EpollEvent::new(EventSet::empty(), 0); 4];
        expect_same(rt, &epoll.wait(0, &mut buffer), &Ok(count));
    }
}

#[test]
fn a_counter_is_ready_from_trigger_to_clear(rt: HostRuntime) {
    let (mut epoll, event_fds) = wanted_counters(rt, rt.alloc());
    let [event_fd, _second, _third] = event_fds;
    let mut subscriber = CounterSubscriber::new(event_fd);
    expect_ready(&rt, &mut epoll, 0);
    subscriber.trigger_event(&rt);
    expect_ready(&rt, &mut epoll, 1);
    subscriber.clear_event(&rt);
    expect_ready(&rt, &mut epoll, 0);
}

#[test]
fn a_shared_counter_is_ready_from_trigger_to_clear(rt: HostRuntime) {
    let (mut epoll, event_fds) = wanted_counters(rt, rt.alloc());
    let [event_fd, _second, _third] = event_fds;
    let subscriber = CounterInnerMutSubscriber::new(event_fd);
    expect_ready(&rt, &mut epoll, 0);
    subscriber.trigger_event(&rt);
    expect_ready(&rt, &mut epoll, 1);
    subscriber.clear_event(&rt);
    expect_ready(&rt, &mut epoll, 0);
}

#[test]
fn a_trigger_of_all_makes_three_counters_ready(rt: HostRuntime) {
    let (mut epoll, event_fds) = wanted_counters(rt, rt.alloc());
    let mut subscriber = CounterSubscriberWithData::new(rt.alloc(), event_fds, 7);
    expect_ready(&rt, &mut epoll, 0);
    subscriber.trigger_all_counters(&rt);
    expect_ready(&rt, &mut epoll, 3);
    expect_values(&rt, &subscriber, [0, 0, 0]);
}
