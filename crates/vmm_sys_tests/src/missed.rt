//! Changes that come just as a thread goes to sleep in a wait.

use crate::expecting::{expect_ok, expect_same};
use crate::fixture::{Change, Fixture, Host, no_event, pause};
use std::sync::atomic::{AtomicU64, Ordering};
use std::thread;
use vmm_sys::epoll::{Epoll, EventSet};
use vmm_sys::errno::Errno;
use vmm_sys::poller::Poller;

/// A limit far above what a test has patience for.
const LONG: i32 = 60_000;

const ROUNDS: u64 = 10_000;

#[test]
fn no_write_is_missed_by_a_wait_without_limit(rt: HostRuntime) {
    expect_none_to_be_missed(&rt, Change::Write, -1);
}

#[test]
fn no_write_is_missed_by_a_wait_with_a_limit(rt: HostRuntime) {
    expect_none_to_be_missed(&rt, Change::Write, LONG);
}

#[test]
fn no_read_is_missed_by_a_wait(rt: HostRuntime) {
    expect_none_to_be_missed(&rt, Change::Read, -1);
}

#[test]
fn no_set_is_missed_by_a_wait(rt: HostRuntime) {
    expect_none_to_be_missed(&rt, Change::Set(EventSet::IN), -1);
}

#[test]
fn no_modify_is_missed_by_a_wait(rt: HostRuntime) {
    expect_none_to_be_missed(&rt, Change::Modify(EventSet::IN), -1);
}

/// What both threads know: the descriptors, the change of each round, and how often it was taken back.
#[derive(Drop)]
struct Turns {
    fixture: Fixture,
    change: Change,
    taken_back: AtomicU64,
}

impl Turns {
    // Makes each change as soon as the one before was taken back, so just as the other thread goes to sleep.
    fn make_each<R: Host>(&self, rt: &R, epoll: Epoll<R>) {
        let mut epoll = epoll;
        for round in 0..ROUNDS {
            self.fixture.make(rt, &mut epoll, self.change);
            expect_more_than(rt, &self.taken_back, round);
        }
    }

    // Waits in each round, and takes back what the other did.
    fn take_each_back<R: Host>(&self, rt: &R, epoll: Epoll<R>, ms: i32) {
        let mut epoll = epoll;
        for round in 0..ROUNDS {
            expect_same(rt, &wait_for_one(&mut epoll, ms), &Ok(1));
            self.fixture.take_back(rt, &mut epoll, self.change);
            self.taken_back.store(round + 1, Ordering::SeqCst);
        }
    }
}

fn expect_none_to_be_missed<R: Host>(rt: &R, change: Change, ms: i32) {
    let (epoll, fixture) = Fixture::open(rt);
    let theirs = expect_ok(rt, epoll.try_clone());
    let turns = Turns {
        fixture,
        change,
        taken_back: AtomicU64::new(0),
    };
    thread::join(
        rt,
        || turns.make_each(rt, epoll),
        || turns.take_each_back(rt, theirs, ms),
    );
}

// A change is told behind its step, so it may end the wait behind the one that reported it.
fn wait_for_one<R: Host>(epoll: &mut Epoll<R>, ms: i32) -> Result<usize, Errno> {
    for _ in 0..2 {
        let answer = epoll.wait(ms, &mut [no_event()]);
        if answer != Ok(0) {
            return answer;
        }
    }
    Ok(0)
}

// Looks many times at once, and then for ten seconds. Ends the test where the number stands still.
fn expect_more_than<R: Host>(rt: &R, number: &AtomicU64, least: u64) {
    for look in 0..20_000 {
        if number.load(Ordering::SeqCst) > least {
            return;
        }
        if look >= 10_000 {
            pause(rt, 1);
        }
    }
    panic!(rt; "a wake-up was lost");
}
