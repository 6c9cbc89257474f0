//! Ids, priorities and events, as they are compared and hashed.

use crate::expecting::{expect, expect_ok, expect_same};
use crate::forms::Numbered;
use crate::values::{hash_both, higher, is_either};
use event_manager::{EventLoop, EventSet, Events, Priority, SubscriberId, SubscriberOps};
use std::alloc::Global;
use std::hash::{DefaultHasher, Hasher};
use std::process::Abort;
use vmm_sys::script_poller::ScriptPoller;

#[test]
fn the_higher_priority_is_that_of_the_higher_number(rt: HostRuntime) {
    let all = [
        Priority::Lowest,
        Priority::Low,
        Priority::High,
        Priority::Highest,
    ];
    for (one, other, expected) in [(0, 3, 3), (2, 1, 2), (1, 2, 2), (3, 3, 3)] {
        expect_same(&rt, &higher(all[one], all[other]), &all[expected]);
    }
}

#[test]
fn events_of_another_set_or_data_are_others(rt: HostRuntime) {
    let read = Events::with_data_raw(5, 7, EventSet::IN);
    let write = Events::with_data_raw(5, 7, EventSet::OUT);
    let renamed = Events::with_data_raw(5, 8, EventSet::IN);
    expect(&rt, is_either(&read, &write, &read));
    expect(&rt, is_either(&read, &read, &renamed));
    expect(&rt, !is_either(&read, &write, &renamed));
}

/// The id that a loop gives to its first subscriber.
fn id_from<R: Abort>(rt: &R, alloc: Global, first_id: u64) -> SubscriberId {
    let poller = ScriptPoller::new(alloc);
    let mut event_loop = expect_ok(rt, EventLoop::with_first_id(alloc, poller, first_id));
    let own = Events::empty_raw(5);
    expect_ok(rt, event_loop.add_subscriber(Numbered { own, seen: 0 }))
}

#[test]
fn equal_ids_are_hashed_alike(rt: HostRuntime) {
    let one = id_from(&rt, rt.alloc(), 1);
    for (first_id, is_equal) in [(1, true), (2, false)] {
        let other = id_from(&rt, rt.alloc(), first_id);
        let mut first = DefaultHasher::new();
        let mut second = DefaultHasher::new();
        let answer = hash_both(&one, &other, &mut first, &mut second);
        expect_same(&rt, &answer, &is_equal);
        expect_same(&rt, &(first.finish() == second.finish()), &is_equal);
    }
}
