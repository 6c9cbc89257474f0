//! Descriptors that are added, changed and removed, lines that hang up, and subscribers that leave.

use crate::expecting::{Host, expect_ok, expect_same};
use crate::steps::{Step, counter_of, expect_values, replies_in, three_counters_of};
use event_manager::utilities::subscribers::{CounterSubscriber, CounterSubscriberWithData};
use event_manager::{Call, Error, Events, MutEventSubscriber, Reply, Request};
use fixtures::asking::Asking;
use fixtures::driving::{id_of, replies_to, seen_in};
use fixtures::parts::{Idle, OnTable, on_table};
use std::alloc::Global;
use std::process::Abort;
use vmm_sys::epoll::EventSet;
use vmm_sys::eventfd::EventFd;
use vmm_sys::line::Line;

/// Joins a subscriber that adds a descriptor, and makes these requests at its first event.
fn join<'a, R: Abort>(rt: &R, alloc: Global, own: Events, later: &[Request]) -> Step<'a, Asking> {
    let mut asking = expect_ok(rt, Asking::new(alloc, &[Request::Add(own)], later));
    asking.turns = 1;
    Step::Make(Call::Add(asking))
}

/// Lets the subscriber of this number leave.
fn leave<'a, S, R: Abort>(rt: &R, alloc: Global, number: u64) -> Step<'a, S> {
    Step::Make(Call::Remove(expect_ok(rt, id_of(alloc, number))))
}

/// A run of at most `ms` milliseconds.
fn run<'a, S>(ms: i32) -> Step<'a, S> {
    Step::Make(Call::Run(ms))
}

/// Who leaves in these steps, whose runs must report these `counts` of events.
fn left_in<S: MutEventSubscriber + Drop, R: Host, const N: usize>(
    rt: &R,
    parts: OnTable<R>,
    steps: Vec<Step<'_, S>>,
    counts: [usize; N],
) -> Vec<S> {
    let alloc = parts.alloc;
    let (ran, left) = expect_ok(rt, seen_in(alloc, replies_in(rt, parts, steps)));
    let mut expected = Vec::new(alloc);
    for count in counts {
        expect_ok(rt, expected.push(Ok(count)));
    }
    expect_same(rt, &ran.as_slice(), &expected.as_slice());
    left
}

/// Expects that the runs of these steps report these `counts` of events, and that these are the events of who leaves.
fn expect_steps<R: Host, const N: usize>(
    rt: &R,
    parts: OnTable<R>,
    steps: Vec<Step<'_, Asking>>,
    counts: [usize; N],
    events: &[&[Events]],
) {
    let left = left_in(rt, parts, steps, counts);
    expect_same(rt, &left.len(), &events.len());
    for (asking, expected) in left.iter().zip(events) {
        expect_same(rt, &asking.seen.as_slice(), expected);
    }
}

/// `OUT` events of a new counter of value 0 in the table of these parts.
fn writable_of<R: Host>(rt: &R, parts: &OnTable<R>) -> Events {
    Events::new(&counter_of(rt, &parts.poller), EventSet::OUT)
}

#[test]
fn test_register(rt: HostRuntime) {
    let alloc = rt.alloc();
    let parts = expect_ok(&rt, on_table(rt, alloc, 0));
    let (first, second) = (writable_of(&rt, &parts), writable_of(&rt, &parts));
    let steps = vec![in alloc;
        join(&rt, alloc, first, &[Request::Add(second)]),
        run(-1),
        run(-1),
        leave(&rt, alloc, 1),
    ];
    let steps = expect_ok(&rt, steps);
    expect_steps(&rt, parts, steps, [1, 2], &[&[first, first, second]]);
}

#[test]
fn test_unregister(rt: HostRuntime) {
    let alloc = rt.alloc();
    let parts = expect_ok(&rt, on_table(rt, alloc, 0));
    let own = writable_of(&rt, &parts);
    let steps = vec![in alloc;
        join(&rt, alloc, own, &[Request::Remove(own)]),
        run(-1),
        run(100),
        leave(&rt, alloc, 1),
    ];
    expect_steps(&rt, parts, expect_ok(&rt, steps), [1, 0], &[&[own]]);
}

#[test]
fn test_modify(rt: HostRuntime) {
    let alloc = rt.alloc();
    let parts = expect_ok(&rt, on_table(rt, alloc, 0));
    let event_fd = counter_of(&rt, &parts.poller);
    let before = Events::new(&event_fd, EventSet::OUT);
    let after = Events::new(&event_fd, EventSet::IN);
    let steps = vec![in alloc;
        join(&rt, alloc, before, &[Request::Modify(after)]),
        run(-1),
        Step::Write(&event_fd),
        run(-1),
        leave(&rt, alloc, 1),
    ];
    expect_steps(
        &rt,
        parts,
        expect_ok(&rt, steps),
        [1, 1],
        &[&[before, after]],
    );
}

#[test]
fn test_remove_subscriber(rt: HostRuntime) {
    let alloc = rt.alloc();
    let parts = expect_ok(&rt, on_table(rt, alloc, 0));
    let own = writable_of(&rt, &parts);
    let steps = vec![in alloc;
        join(&rt, alloc, own, &[]),
        run(-1),
        leave(&rt, alloc, 1),
        run(100),
        leave(&rt, alloc, 1),
    ];
    let mut replies = replies_in(&rt, parts, expect_ok(&rt, steps));
    let Some(Reply::Removed(again)) = replies.pop() else {
        panic!(rt; "no leave is last");
    };
    expect_same(&rt, &again.err(), &Some(Error::InvalidId));
    let (ran, left) = expect_ok(&rt, seen_in(alloc, replies));
    expect_same(&rt, &ran.as_slice(), &[Ok(1), Ok(0)].as_slice());
    expect_same(&rt, &left.len(), &1);
    for asking in left {
        expect_same(&rt, &asking.seen.as_slice(), &[own].as_slice());
    }
}

/// `IN` and `HANG_UP` events of a new line in the table of these parts, which has hung up.
fn hung_up_of<R: Host>(rt: &R, parts: &OnTable<R>) -> [Events; 2] {
    let line = expect_ok(rt, Line::new(&parts.poller, rt));
    expect_ok(rt, line.set(EventSet::HANG_UP, rt));
    [
        Events::new(&line, EventSet::IN),
        Events::new(&line, EventSet::HANG_UP),
    ]
}

#[test]
fn test_handling_errors_in_subscriber(rt: HostRuntime) {
    let alloc = rt.alloc();
    let parts = expect_ok(&rt, on_table(rt, alloc, 0));
    let [kept, keeps] = hung_up_of(&rt, &parts);
    let [removed, removes] = hung_up_of(&rt, &parts);
    let steps = vec![in alloc;
        join(&rt, alloc, kept, &[]),
        run(-1),
        run(-1),
        run(-1),
        join(&rt, alloc, removed, &[Request::Remove(removed)]),
        run(-1),
        run(-1),
        leave(&rt, alloc, 1),
        leave(&rt, alloc, 2),
    ];
    let steps = expect_ok(&rt, steps);
    let events: [&[Events]; 2] = [&[keeps; 5], &[removes]];
    expect_steps(&rt, parts, steps, [1, 1, 1, 2, 1], &events);
}

#[test]
fn test_add_invalid_subscriber(rt: HostRuntime) {
    let alloc = rt.alloc();
    let parts = expect_ok(&rt, on_table(rt, alloc, 0));
    let event_fd = counter_of(&rt, &parts.poller);
    let same = expect_ok(&rt, event_fd.try_clone());
    let steps = vec![in alloc;
        Step::Make(Call::Add(CounterSubscriber::new(event_fd))),
        Step::Make(Call::Add(CounterSubscriber::new(same))),
        leave(&rt, alloc, 1),
        leave(&rt, alloc, 2),
    ];
    let left = left_in(&rt, parts, expect_ok(&rt, steps), []);
    expect_same(&rt, &left.len(), &2);
    for (subscriber, fault) in left.iter().zip([None, Some(Error::FdAlreadyRegistered)]) {
        expect_same(&rt, &subscriber.fault(), &fault);
    }
}

#[test]
fn test_max_ready_list_size(rt: HostRuntime) {
    for capacity in [178956971, usize::MAX] {
        let mut parts = expect_ok(&rt, on_table(rt, rt.alloc(), 0));
        parts.capacity = Some(capacity);
        let refused = replies_to::<Idle, _, _>(&rt, parts, Vec::new(rt.alloc())).err();
        expect_same(&rt, &refused, &Some(Error::InvalidCapacity));
    }
}

/// Which of the hundred subscribers are triggered.
const TRIGGERED: [usize; 4] = [1, 3, 50, 97];

/// Joins a subscriber of each counter, of which some are triggered, and runs; clears those, and runs again; all leave.
fn steps_of_hundred<'a, R: Host>(
    rt: &R,
    alloc: Global,
    event_fds: &'a [EventFd],
) -> Vec<Step<'a, CounterSubscriber>> {
    let mut steps = Vec::new(alloc);
    for (index, event_fd) in event_fds.iter().enumerate() {
        let mut subscriber = CounterSubscriber::new(expect_ok(rt, event_fd.try_clone()));
        if TRIGGERED.contains(&index) {
            subscriber.trigger_event(rt);
        }
        expect_ok(rt, steps.push(Step::Make(Call::Add(subscriber))));
    }
    expect_ok(rt, steps.push(run(100)));
    for index in TRIGGERED {
        if let Some(event_fd) = event_fds.get(index) {
            expect_ok(rt, steps.push(Step::Read(event_fd)));
        }
    }
    expect_ok(rt, steps.push(run(100)));
    for number in 1..=100 {
        expect_ok(rt, steps.push(leave(rt, alloc, number)));
    }
    steps
}

#[test]
fn test_single_threaded(rt: HostRuntime) {
    let parts = expect_ok(&rt, on_table(rt, rt.alloc(), 0));
    let mut event_fds = Vec::new(rt.alloc());
    for _ in 0..100 {
        expect_ok(&rt, event_fds.push(counter_of(&rt, &parts.poller)));
    }
    let steps = steps_of_hundred(&rt, rt.alloc(), &event_fds);
    let left = left_in(&rt, parts, steps, [4, 0]);
    expect_same(&rt, &left.len(), &100);
    for (index, subscriber) in left.iter().enumerate() {
        let counted = u64::from(TRIGGERED.contains(&index));
        expect_same(&rt, &subscriber.counter(), &counted);
    }
}

#[test]
fn test_reuse_file_descriptor(rt: HostRuntime) {
    let alloc = rt.alloc();
    let parts = expect_ok(&rt, on_table(rt, alloc, 0));
    let event_fds = three_counters_of(&rt, &parts.poller);
    let mut subscriber = CounterSubscriberWithData::new(alloc, event_fds, 0);
    subscriber.set_toggle_registry(true);
    subscriber.trigger_all_counters(&rt);
    let steps = vec![in alloc;
        Step::Make(Call::Add(subscriber)),
        run(-1),
        leave(&rt, alloc, 1),
    ];
    let left = left_in(&rt, parts, expect_ok(&rt, steps), [3]);
    expect_same(&rt, &left.len(), &1);
    for subscriber in &left {
        expect_values(&rt, subscriber, [1, 0, 0]);
    }
}
