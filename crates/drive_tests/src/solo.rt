//! A subscriber that asks for nothing after its `init` is given the same beside any neighbour as alone.

use crate::expecting::{Looping, expect, expect_ok, expect_same};
use event_manager::{Call, Events, Request};
use fixtures::asking::{Asking, adds, wanted};
use fixtures::driving::{driven, id_of};
use fixtures::parts::silent_parts;
use fixtures::scripts::push_events;
use std::alloc::Global;
use std::process::Abort;
use vmm_sys::epoll::EventSet;
use vmm_sys::script_poller::ScriptPoller;

const IN: EventSet = EventSet::IN;

const OUT: EventSet = EventSet::OUT;

/// Three reports, of descriptors from 3 to 8.
const REPORTS: [&[(u64, EventSet)]; 3] = [
    &[
        (3, IN),
        (5, IN),
        ((7 << 32) + 4, IN),
        (6, IN),
        ((1 << 32) + 3, IN),
    ],
    &[(5, IN), (3, OUT), (6, IN)],
    &[(4, OUT), (8, IN), (3, IN)],
];

/// The poller that gives these reports.
fn three_reports<R: Abort>(rt: &R, alloc: Global) -> ScriptPoller {
    let mut script = ScriptPoller::new(alloc);
    for events in REPORTS {
        expect_ok(rt, push_events(&mut script, alloc, events));
    }
    script
}

/// The events of 3 and 4 in the reports.
fn events_of_3_and_4() -> [Events; 6] {
    [
        Events::new_raw(3, IN),
        Events::with_data_raw(4, 7, IN),
        Events::with_data_raw(3, 1, IN),
        Events::new_raw(3, OUT),
        Events::new_raw(4, OUT),
        Events::new_raw(3, IN),
    ]
}

/// The owner of 3 and 4 joins, and this neighbour behind it, if any; three runs, and both leave.
fn calls_beside<R: Abort>(rt: &R, alloc: Global, neighbour: Option<Asking>) -> Vec<Call<Asking>> {
    let own = [Request::Add(wanted(3)), Request::Add(wanted(4))];
    let owner = expect_ok(rt, Asking::new(alloc, &own, &[]));
    let mut calls = expect_ok(rt, vec![in alloc; Call::Add(owner)]);
    let mut joined = 1;
    if let Some(neighbour) = neighbour {
        expect_ok(rt, calls.push(Call::Add(neighbour)));
        joined = 2;
    }
    for _run in 0..3 {
        expect_ok(rt, calls.push(Call::Run(0)));
    }
    for number in 1..=joined {
        expect_ok(
            rt,
            calls.push(Call::Remove(expect_ok(rt, id_of(alloc, number)))),
        );
    }
    calls
}

/// Expects that the owner of 3 and 4 is given their events beside this neighbour, which has `count` events.
fn expect_beside<R: Looping + Send>(
    rt: R,
    alloc: Global,
    neighbour: Option<Asking>,
    count: Option<usize>,
) {
    let parts = expect_ok(&rt, silent_parts(rt, alloc, three_reports(&rt, alloc)));
    let calls = calls_beside(&rt, alloc, neighbour);
    let (_ran, left) = expect_ok(&rt, driven(&rt, parts, calls));
    let Some(owner) = left.first() else {
        panic!(rt; "the owner does not leave");
    };
    expect(&rt, owner.seen.as_slice() == events_of_3_and_4().as_slice());
    expect_same(
        &rt,
        &left.get(1).map(|neighbour| neighbour.seen.len()),
        &count,
    );
}

#[test]
fn alone_it_is_given_its_events_in_order(rt: HostRuntime) {
    expect_beside(rt, rt.alloc(), None, None);
}

#[test]
fn beside_one_that_renews_its_descriptors(rt: HostRuntime) {
    let adds = [Request::Add(wanted(5)), Request::Add(wanted(6))];
    let renewal = [
        Request::Remove(wanted(5)),
        Request::Remove(wanted(6)),
        Request::Add(wanted(5)),
        Request::Add(wanted(6)),
    ];
    let neighbour = expect_ok(&rt, Asking::new(rt.alloc(), &adds, &renewal));
    // Of 5 in the first two reports: with it goes the event of 6 behind.
    expect_beside(rt, rt.alloc(), Some(neighbour), Some(2));
}

#[test]
fn beside_one_that_asks_for_all_descriptors(rt: HostRuntime) {
    let all = expect_ok(&rt, adds(rt.alloc(), 0, 10));
    let neighbour = expect_ok(&rt, Asking::new(rt.alloc(), &all, &all));
    // Of 5 and 6 in the first two reports, and of 8 in the third.
    expect_beside(rt, rt.alloc(), Some(neighbour), Some(5));
}

#[test]
fn beside_one_that_asks_for_nothing(rt: HostRuntime) {
    let neighbour = expect_ok(&rt, Asking::new(rt.alloc(), &[], &[]));
    expect_beside(rt, rt.alloc(), Some(neighbour), Some(0));
}
