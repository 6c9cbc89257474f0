//! Counting subscribers that are served events of a script.

use crate::expecting::{Host, expect_ok, expect_same};
use crate::steps::{counter_of, expect_values, three_counters_of};
use event_manager::utilities::subscribers::{
    CounterInnerMutSubscriber, CounterSubscriber, CounterSubscriberWithData,
};
use event_manager::{Error, MutEventSubscriber};
use fixtures::parts::Parts;
use fixtures::runs::run_alone;
use fixtures::scripts::push_words;
use std::alloc::Global;
use std::sync::Arc;
use vmm_sys::epoll::{ControlOperation, Epoll, EventSet};
use vmm_sys::errno::Errno;
use vmm_sys::script_poller::ScriptPoller;

const IN: EventSet = EventSet::IN;

const HANG_UP: EventSet = EventSet::HANG_UP;

/// Sets and data of events of descriptor 0.
type Reported<'a> = &'a [(EventSet, u32)];

/// What a poller refuses of descriptor 0, once each.
type Refusals<'a> = &'a [(ControlOperation, i32)];

/// A Delete that is refused, and the fault that a subscriber then keeps.
const REFUSED_DELETE: Refusals<'static> = &[(ControlOperation::Delete, 22)];

const FAULT: Option<Error> = Some(Error::Epoll(Errno(22)));

/// The subscriber, after a run for each of the events, by a poller that refuses this. The endpoint is of the table.
fn served<S: MutEventSubscriber + Drop, R: Host>(
    rt: &R,
    alloc: Global,
    epoll: &Epoll<R>,
    subscriber: S,
    events: Reported<'_>,
    refusals: Refusals<'_>,
) -> S {
    let (mut script, mut runs) = (ScriptPoller::new(alloc), Vec::new(alloc));
    for (set, data) in events {
        let word = u64::from(*data) << 32;
        expect_ok(rt, push_words(&mut script, alloc, *set, &[word]));
        expect_ok(rt, runs.push(Ok(1)));
    }
    for (op, errno) in refusals {
        expect_ok(rt, script.push_refusal(*op, 0, Errno(*errno)));
    }
    let parts = Parts::new(alloc, script, counter_of(rt, epoll));
    expect_ok(rt, run_alone(rt, parts, subscriber, &runs))
}

/// The subscriber of descriptor 0, after these events.
fn served_counter<R: Host>(
    rt: R,
    alloc: Global,
    events: Reported<'_>,
    refusals: Refusals<'_>,
) -> CounterSubscriber {
    let epoll = expect_ok(&rt, Epoll::new(rt, alloc));
    let subscriber = CounterSubscriber::new(counter_of(&rt, &epoll));
    served(&rt, alloc, &epoll, subscriber, events, refusals)
}

#[test]
fn a_counter_counts_and_prints_what_is_in_alone(rt: HostRuntime) {
    let events = [(IN, 0), (IN | EventSet::OUT, 0)];
    for (count, spurious) in [(1, 0), (2, 1)] {
        let subscriber = served_counter(rt, rt.alloc(), &events[..count], &[]);
        let shown = expect_ok(&rt, format!(in rt.alloc(); "{}", *subscriber));
        expect_same(&rt, &shown.as_str(), &"(event_fd = 0, counter = 1)");
        expect_same(&rt, &subscriber.spurious(), &spurious);
    }
}

#[test]
fn data_beside_those_of_the_three_counters_is_spurious(rt: HostRuntime) {
    let epoll = expect_ok(&rt, Epoll::new(rt, rt.alloc()));
    let event_fds = three_counters_of(&rt, &epoll);
    let subscriber = CounterSubscriberWithData::new(rt.alloc(), event_fds, 10);
    let events = [(IN, 9), (IN, 13)];
    let subscriber = served(&rt, rt.alloc(), &epoll, subscriber, &events, &[]);
    expect_values(&rt, &subscriber, [0, 0, 0]);
    expect_same(&rt, &subscriber.spurious(), &2);
}

// The event behind the hang-up finds the registration that stays.
#[test]
fn a_counter_whose_removal_is_refused_stays(rt: HostRuntime) {
    let events = [(HANG_UP, 0), (IN, 0)];
    let subscriber = served_counter(rt, rt.alloc(), &events, REFUSED_DELETE);
    expect_same(&rt, &subscriber.hung_up(), &true);
    expect_same(&rt, &subscriber.fault(), &FAULT);
    expect_same(&rt, &subscriber.counter(), &1);
}

/// How many events, errors and spurious events a subscriber counted, whether its descriptor hung up, and its fault.
type State = ((u64, u64, u64), bool, Option<Error>);

/// Expects this state of a shared subscriber of descriptor 0 after these events.
fn expect_shared<R: Host>(
    rt: R,
    alloc: Global,
    events: Reported<'_>,
    refusals: Refusals<'_>,
    expected: State,
) {
    let epoll = expect_ok(&rt, Epoll::new(rt, alloc));
    let subscriber = CounterInnerMutSubscriber::new(counter_of(&rt, &epoll));
    let shared = expect_ok(&rt, Arc::new(alloc, subscriber));
    let shared = served(&rt, alloc, &epoll, shared, events, refusals);
    let counts = (shared.counter(), shared.errors(), shared.spurious());
    expect_same(&rt, &(counts, shared.hung_up(), shared.fault()), &expected);
}

#[test]
fn a_shared_counter_tells_events_by_their_sets(rt: HostRuntime) {
    let (error, out) = (EventSet::ERROR, EventSet::OUT);
    let sets = [
        IN,
        IN,
        error,
        error,
        error,
        out,
        IN | out,
        IN | error,
        EventSet::empty(),
    ];
    let events = sets.map(|set| (set, 0));
    expect_shared(rt, rt.alloc(), &events, &[], ((2, 3, 0), false, None));
}

#[test]
fn a_shared_counter_whose_removal_is_refused_stays(rt: HostRuntime) {
    let events = [(HANG_UP, 0), (IN, 0)];
    let state = ((1, 0, 0), true, FAULT);
    expect_shared(rt, rt.alloc(), &events, REFUSED_DELETE, state);
}

#[test]
fn a_shared_counter_keeps_its_first_fault(rt: HostRuntime) {
    let events = [(HANG_UP, 0), (HANG_UP, 0)];
    let refusals = [
        (ControlOperation::Delete, 22),
        (ControlOperation::Delete, 5),
    ];
    let state = ((0, 0, 0), true, FAULT);
    expect_shared(rt, rt.alloc(), &events, &refusals, state);
}

#[test]
fn a_shared_counter_whose_addition_is_refused_joins_with_the_fault(rt: HostRuntime) {
    let refusals = [(ControlOperation::Add, 22)];
    let state = ((0, 0, 0), false, FAULT);
    expect_shared(rt, rt.alloc(), &[(IN, 0)], &refusals, state);
}
