//! What calls cost beside many others: none of them looks at these, so the same calls take about as long as beside few.

use crate::expecting::{expect, expect_ok};
use crate::forms::Renewing;
use event_manager::{EventLoop, EventSet, Events, SubscriberId, SubscriberOps};
use std::alloc::Global;
use std::process::Abort;
use std::time::{Clock, Duration, Instant};
use vmm_sys::script_poller::ScriptPoller;

/// How many subscribers there are, or descriptors of one.
const FEW: i32 = 40;

const MANY: i32 = 20_000;

/// How often the calls are made.
const CALLS: u32 = 4_000;

/// How often their time is taken; the least counts.
const REPEATS: u32 = 3;

/// How many times as long calls may take beside many: by caches, and by what else the machine does. Where each of the others
/// is looked at, they take more than 24 times as long.
const MOST: u32 = 8;

/// Which calls are made, all of them for who came last.
#[derive(Clone, Copy, PartialEq)]
enum Calls {
    /// It is given an event, at which it takes its descriptor out and puts it in again.
    Deliveries,
    /// It does the same from outside.
    Requests,
    /// It leaves, and joins again.
    Joins,
    /// It alone has joined, and owns all descriptors: it takes the last two out, the last one last, and puts them in again.
    Removals,
}

fn on(fd: i32) -> Events {
    Events::new_raw(fd.max(0), EventSet::IN)
}

fn make_renewing(fd: i32) -> Renewing {
    Renewing {
        own: on(fd),
        seen: 0,
    }
}

/// How long calls may take.
#[derive(Clone, Copy)]
struct Limit {
    start: Instant,
    most: Duration,
}

impl Limit {
    fn new<R: Clock + Abort>(rt: &R, most: Duration) -> Self {
        Limit {
            start: expect_ok(rt, Instant::now(rt)),
            most,
        }
    }

    fn elapsed<R: Clock + Abort>(&self, rt: &R) -> Duration {
        expect_ok(rt, self.start.elapsed(rt))
    }

    /// Whether they took longer. Then no more are made, so a test that fails ends soon.
    fn is_over<R: Clock + Abort>(&self, rt: &R) -> bool {
        self.elapsed(rt) > self.most
    }
}

/// A loop, who joined it last, and the last descriptor.
#[derive(Drop)]
struct Scene {
    event_loop: EventLoop<Renewing, ScriptPoller>,
    last: SubscriberId,
    last_fd: i32,
}

impl Scene {
    /// `count` subscribers have joined, each with a descriptor of its own, from 0 on; or one, with all descriptors. The last
    /// descriptor is reported for each call.
    fn new<R: Abort>(rt: &R, alloc: Global, count: i32, calls: Calls) -> Self {
        let last_fd = count.saturating_sub(1);
        let mut poller = ScriptPoller::new(alloc);
        for _call in 0..CALLS * REPEATS {
            let report = expect_ok(rt, vec![in alloc; on(last_fd).epoll_event()]);
            expect_ok(rt, poller.push_report(report));
        }
        let mut event_loop = expect_ok(rt, EventLoop::new(alloc, poller));
        let mut last = expect_ok(rt, event_loop.add_subscriber(make_renewing(0)));
        for fd in 1..count {
            if calls == Calls::Removals {
                let ops = expect_ok(rt, event_loop.event_ops(last));
                expect_ok(rt, ops.add(on(fd)));
            } else {
                last = expect_ok(rt, event_loop.add_subscriber(make_renewing(fd)));
            }
        }
        Scene {
            event_loop,
            last,
            last_fd,
        }
    }

    /// Takes descriptors out and puts them in again, in this order.
    fn renew<R: Abort>(&mut self, rt: &R, fds: &[i32]) {
        let ops = expect_ok(rt, self.event_loop.event_ops(self.last));
        for fd in fds {
            expect_ok(rt, ops.remove(on(*fd)));
        }
        for fd in fds {
            expect_ok(rt, ops.add(on(*fd)));
        }
    }

    fn call<R: Abort>(&mut self, rt: &R, calls: Calls) {
        let last_fd = self.last_fd;
        match calls {
            Calls::Deliveries => expect(rt, self.event_loop.run() == Ok(1)),
            Calls::Requests => self.renew(rt, &[last_fd]),
            Calls::Joins => {
                let left = expect_ok(rt, self.event_loop.remove_subscriber(self.last));
                self.last = expect_ok(rt, self.event_loop.add_subscriber(left));
            }
            Calls::Removals => self.renew(rt, &[last_fd.saturating_sub(1), last_fd]),
        }
    }
}

/// How long the calls take, or longer than they may.
fn time_of<R: Clock + Abort>(
    rt: &R,
    alloc: Global,
    count: i32,
    calls: Calls,
    most: Duration,
) -> Duration {
    let mut scene = Scene::new(rt, alloc, count, calls);
    let mut least = Duration::MAX;
    for _repeat in 0..REPEATS {
        let limit = Limit::new(rt, most);
        for _call in 0..CALLS {
            if limit.is_over(rt) {
                break;
            }
            scene.call(rt, calls);
        }
        least = least.min(limit.elapsed(rt));
    }
    least
}

/// Expects that calls beside many take about as long as beside few.
fn expect_no_looks<R: Clock + Abort>(rt: &R, alloc: Global, calls: Calls) {
    let few = time_of(rt, alloc, FEW, calls, Duration::MAX);
    let most = few.saturating_mul(MOST);
    expect(rt, time_of(rt, alloc, MANY, calls, most) <= most);
}

#[test]
fn deliveries_and_their_requests_look_at_no_others(rt: HostRuntime) {
    expect_no_looks(&rt, rt.alloc(), Calls::Deliveries);
}

#[test]
fn requests_look_at_no_others(rt: HostRuntime) {
    expect_no_looks(&rt, rt.alloc(), Calls::Requests);
}

#[test]
fn joins_and_leaves_look_at_no_others(rt: HostRuntime) {
    expect_no_looks(&rt, rt.alloc(), Calls::Joins);
}

#[test]
fn removals_look_at_no_other_descriptors_of_their_owner(rt: HostRuntime) {
    expect_no_looks(&rt, rt.alloc(), Calls::Removals);
}
