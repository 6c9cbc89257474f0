//! Managers that are moved to a second thread, and run there.

ghost use Rattle.std.specs.Prelude.{◌≡◌};

use crate::expecting::{Host, expect_ok, expect_same};
use crate::steps::{counter_of, expect_values, three_counters_of};
use event_manager::utilities::subscribers::{
    CounterInnerMutSubscriber, CounterSubscriber, CounterSubscriberWithData,
};
use event_manager::{
    Either, EventManager, Ledgers, MutEventSubscriber, Named, NamedCounter, Naming, NoJob,
};
use fixtures::making::make;
use fixtures::parts::{OnTable, on_table};
use fixtures::runs::{let_leave, take_in};
use std::alloc::Global;
use std::marker::Brand;
use std::sync::Arc;
use std::sync::ledger::Blank;
use std::thread;
use vmm_sys::epoll::Epoll;
use vmm_sys::eventfd::EventFd;

type Loop<S, N, R> = EventManager<S, NoJob, N, Epoll<R>>;

/// The manager, after a second thread made a hundred runs with it, each of which must report `count` events.
fn moved<S, N, R>(rt: R, manager: Loop<S, N, R>, count: usize) -> Loop<S, N, R>
where
    S: MutEventSubscriber + Send + Drop + 'static,
    N: NamedCounter + Send + Sync + 'static,
    R: Host + 'static,
{
    let runner = thread::spawn(&rt, move || {
        let mut manager = manager;
        for _ in 0..100 {
            expect_same(&rt, &manager.run_with_timeout(1000, &rt), &Ok(count));
        }
        manager
    });
    expect_ok(&rt, runner).join(&rt)
}

/// As [`run_on_second_thread`], whatever its ledgers.
fn run_moved<S, N, R>(
    rt: R,
    parts: OnTable<R>,
    subscribers: Vec<S>,
    count: usize,
    tickets: Blank,
    taken: Blank,
) -> Vec<S>
where
    S: MutEventSubscriber + Send + Drop + 'static,
    N: Naming + Send + Sync + 'static,
    R: Host + 'static,
    requires tickets { (tickets.name ≡ N.tickets) × (tickets.parts ≡ 9223372036854775808) }
    requires taken { (taken.name ≡ N.taken) × (taken.parts ≡ 1) }
{
    let ledgers = Ledgers::<Named<N, EventFd>>::new(tickets, taken);
    let (counter, parts) = parts.split();
    let alloc = parts.alloc;
    let made = make::<S, NoJob, _, _>(parts, Named::<N, _>::new(counter), ledgers);
    let mut manager = expect_ok(&rt, made);
    let ids = expect_ok(&rt, take_in(&mut manager, alloc, subscribers));
    let mut manager = moved(rt, manager, count);
    expect_ok(&rt, let_leave(&mut manager, alloc, &ids))
}

/// The subscribers, in order, after a manager of them was moved to a second thread and has made a hundred runs there,
/// each of which must report `count` events.
fn run_on_second_thread<S: MutEventSubscriber + Send + Drop + 'static, R: Host + 'static>(
    rt: R,
    parts: OnTable<R>,
    subscribers: Vec<S>,
    count: usize,
) -> Vec<S> {
    let tickets = Blank::new(9223372036854775808);
    run_moved::<S, Brand, R>(rt, parts, subscribers, count, tickets, Blank::new(1))
}

/// A subscriber with three counters in the table of these parts, all of which are triggered.
fn triggered<R: Host>(
    rt: &R,
    alloc: Global,
    parts: &OnTable<R>,
    first_data: u16,
) -> CounterSubscriberWithData {
    let event_fds = three_counters_of(rt, &parts.poller);
    let mut subscriber = CounterSubscriberWithData::new(alloc, event_fds, u32::from(first_data));
    subscriber.trigger_all_counters(rt);
    subscriber
}

#[test]
fn test_one_type_subscriber(rt: HostRuntime) {
    let parts = expect_ok(&rt, on_table(rt, rt.alloc(), 0));
    let first = triggered(&rt, rt.alloc(), &parts, 1);
    let second = triggered(&rt, rt.alloc(), &parts, 1999);
    let both = expect_ok(&rt, vec![in rt.alloc(); first, second]);
    let left = run_on_second_thread(rt, parts, both, 6);
    expect_same(&rt, &left.len(), &2);
    for subscriber in &left {
        expect_values(&rt, subscriber, [100, 100, 100]);
    }
}

#[test]
fn test_diff_type_subscribers(rt: HostRuntime) {
    let parts = expect_ok(&rt, on_table(rt, rt.alloc(), 0));
    let three = triggered(&rt, rt.alloc(), &parts, 1);
    let mut one = CounterSubscriber::new(counter_of(&rt, &parts.poller));
    one.trigger_event(&rt);
    let both = vec![in rt.alloc(); Either::First(three), Either::Second(one)];
    let both = expect_ok(&rt, both);
    let left = run_on_second_thread(rt, parts, both, 4);
    expect_same(&rt, &left.len(), &2);
    for subscriber in &left {
        match subscriber {
            Either::First(three) => expect_values(&rt, three, [100, 100, 100]),
            Either::Second(one) => expect_same(&rt, &one.counter(), &100),
        }
    }
}

#[test]
fn test_subscriber_inner_mut(rt: HostRuntime) {
    let parts = expect_ok(&rt, on_table(rt, rt.alloc(), 0));
    let subscriber = CounterInnerMutSubscriber::new(counter_of(&rt, &parts.poller));
    let shared = expect_ok(&rt, Arc::new(rt.alloc(), subscriber));
    shared.trigger_event(&rt);
    let theirs = expect_ok(&rt, shared.clone());
    let one = expect_ok(&rt, vec![in rt.alloc(); theirs]);
    let left = run_on_second_thread(rt, parts, one, 1);
    expect_same(&rt, &left.len(), &1);
    expect_same(&rt, &shared.counter(), &100);
}
