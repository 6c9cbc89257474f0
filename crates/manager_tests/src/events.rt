//! Events of a counter's descriptor.

use crate::expecting::{Host, expect_ok, expect_same};
use crate::steps::counter_of;
use event_manager::Events;
use std::alloc::Global;
use std::process::Abort;
use vmm_sys::epoll::{AsRawFd, Epoll, EventSet};
use vmm_sys::eventfd::EventFd;

/// A counter of value 0 in a new table, behind another.
fn new_counter<R: Host>(rt: &R, alloc: Global) -> EventFd {
    let epoll = expect_ok(rt, Epoll::new(*rt, alloc));
    counter_of(rt, &epoll);
    counter_of(rt, &epoll)
}

/// Expects that these are the events of the counter's descriptor of this set and data 0, as made of the plain number.
fn expect_events<R: Abort>(
    rt: &R,
    event_fd: &EventFd,
    events: Events,
    from_number: Events,
    set: EventSet,
) {
    expect_same(rt, &(events == from_number), &true);
    expect_same(rt, &events.event_set(), &set);
    expect_same(rt, &events.data(), &0);
    expect_same(rt, &events.fd(), &event_fd.as_raw_fd());
}

#[test]
fn test_empty_events(rt: HostRuntime) {
    let event_fd = new_counter(&rt, rt.alloc());
    let from_number = Events::empty_raw(event_fd.as_raw_fd());
    let events = Events::empty(&event_fd);
    expect_events(&rt, &event_fd, events, from_number, EventSet::empty());
}

#[test]
fn test_events_no_data(rt: HostRuntime) {
    let event_fd = new_counter(&rt, rt.alloc());
    let from_number = Events::new_raw(event_fd.as_raw_fd(), EventSet::IN);
    let events = Events::new(&event_fd, EventSet::IN);
    expect_events(&rt, &event_fd, events, from_number, EventSet::IN);
}

#[test]
fn test_events_data(rt: HostRuntime) {
    let event_fd = new_counter(&rt, rt.alloc());
    let first = Events::with_data_raw(event_fd.as_raw_fd(), 42, EventSet::IN);
    let second = Events::with_data(&event_fd, 43, EventSet::IN);
    expect_same(&rt, &(first != second), &true);
    expect_same(&rt, &(first.data(), second.data()), &(42, 43));
}

#[test]
fn descriptor_and_data_are_one_word(rt: HostRuntime) {
    let first = Events::with_data_raw(5, 42, EventSet::IN);
    let second = Events::with_data_raw(5, 43, EventSet::IN);
    let word = first.epoll_event().data();
    expect_same(&rt, &word, &180388626437);
    expect_same(&rt, &word.to_be_bytes(), &[0, 0, 0, 0x2a, 0, 0, 0, 5]);
    expect_same(&rt, &(first.fd(), first.data()), &(5, 42));
    expect_same(&rt, &second.epoll_event().data(), &184683593733);
    expect_same(&rt, &(first != second), &true);
}
