//! A list of calls that is driven over a script, and again over the record of that.

use crate::driven_again::Counters;
use crate::expecting::{expect, expect_ok, expect_same};
use event_manager::utilities::subscribers::CounterSubscriber;
use event_manager::{
    Call, EventManager, EventPoller, Ledgers, NamedCounter, Reply, Result, WithLedgers, drive,
    with_ledgers,
};
use fixtures::driving::{id_of, seen_in};
use fixtures::scripts::script_of;
use poller_records::recording_poller::RecordingPoller;
use poller_records::replay_poller::ReplayPoller;
use std::alloc::Global;
use std::process::Abort;
use std::sync::Wait;
use std::time::Clock;
use vmm_sys::epoll::Epoll;
use vmm_sys::eventfd::EventFd;

/// Calls for a new manager over this poller, which is handed out with their replies.
#[derive(Drop)]
struct Driving<P, R> {
    rt: R,
    alloc: Global,
    poller: P,
    calls: Vec<Call<CounterSubscriber>>,
}

impl<P: EventPoller + Drop, R: Wait + Clock + Drop> WithLedgers for Driving<P, R> {
    type Output = Result<(Vec<Reply<CounterSubscriber>>, P)>;

    fn run<N: NamedCounter + Send + Sync>(self, counter: N, ledgers: Ledgers<N>) -> Self::Output {
        let Driving {
            rt,
            alloc,
            poller,
            calls,
        } = self;
        let mut manager: Counters<N, _> = EventManager::new(alloc, poller, counter, ledgers)?;
        let mut replies = Vec::new(alloc);
        drive(&mut manager, calls, &mut replies, &rt)?;
        let (_closed, _left, poller) = manager.into_parts(&rt);
        Ok((replies, poller))
    }
}

/// Lets a subscriber of this counter join, be served, and leave.
fn join_serve_leave<P, R: Abort + Copy>(
    rt: R,
    alloc: Global,
    poller: P,
    event_fd: &EventFd,
) -> Driving<P, R> {
    let subscriber = CounterSubscriber::new(expect_ok(&rt, event_fd.try_clone()));
    let id = expect_ok(&rt, id_of(alloc, 1));
    let calls = vec![in alloc; Call::Add(subscriber), Call::Run(0), Call::Remove(id)];
    let calls = expect_ok(&rt, calls);
    Driving {
        rt,
        alloc,
        poller,
        calls,
    }
}

/// How many events were reported, and what the one who left had counted.
fn counted<R: Abort>(
    rt: &R,
    alloc: Global,
    replies: Vec<Reply<CounterSubscriber>>,
) -> (Vec<Result<usize>>, Option<u64>) {
    let (ran, left) = expect_ok(rt, seen_in(alloc, replies));
    (ran, left.first().map(|subscriber| subscriber.counter()))
}

#[test]
fn a_recorded_list_of_calls_is_made_again(rt: HostRuntime) {
    let alloc = rt.alloc();
    let epoll = expect_ok(&rt, Epoll::new(rt, alloc));
    let endpoint = expect_ok(&rt, EventFd::new(&epoll, 0, &rt));
    let event_fd = expect_ok(&rt, EventFd::new(&epoll, 0, &rt));
    let script = expect_ok(&rt, script_of(alloc, &[1]));
    let poller = expect_ok(&rt, RecordingPoller::new(script, alloc, 16));
    let counter = expect_ok(&rt, endpoint.try_clone());
    let recorded = with_ledgers(counter, join_serve_leave(rt, alloc, poller, &event_fd));
    let (replies, recording) = expect_ok(&rt, recorded);
    expect(&rt, recording.is_complete());
    let (_script, entries) = recording.into_parts();
    let poller = ReplayPoller::new(entries);
    let replayed = with_ledgers(endpoint, join_serve_leave(rt, alloc, poller, &event_fd));
    let (again, replay) = expect_ok(&rt, replayed);
    expect_same(&rt, &(replay.diverged(), replay.is_over()), &(None, true));
    let replies = counted(&rt, alloc, replies);
    expect_same(&rt, &replies.1, &Some(1));
    expect_same(&rt, &counted(&rt, alloc, again), &replies);
}
