//! What ends a wait on another thread, and what its limit means.

use crate::expecting::{expect_ok, expect_same};
use crate::fixture::{Change, Fixture, Host, no_event, pause};
use std::alloc::Global;
use std::sync::Arc;
use std::sync::atomic::{AtomicBool, Ordering};
use std::thread;
use std::thread::JoinHandle;
use std::time::{Duration, Instant};
use vmm_sys::epoll::{Epoll, EpollEvent, EventSet};
use vmm_sys::errno::Errno;
use vmm_sys::poller::Poller;

/// How many milliseconds a call may last past what ends it.
const PATIENCE: u64 = 10_000;

/// What a wait with room for two entries answered, its buffer, and how long it took.
#[derive(Clone, Copy)]
pub(crate) struct Report {
    pub(crate) answer: Result<usize, Errno>,
    pub(crate) buffer: [EpollEvent; 2],
    pub(crate) took: Duration,
}

impl Report {
    /// Expects this event alone.
    fn expect<R: Host>(&self, rt: &R, event: EpollEvent) {
        let expected = (Ok(1), [event, no_event()]);
        expect_same(rt, &(self.answer, self.buffer), &expected);
    }
}

/// A thread that waits once.
#[derive(Drop)]
pub(crate) struct Waiter {
    over: Arc<AtomicBool, Global>,
    thread: JoinHandle<Report>,
}

impl Waiter {
    pub(crate) fn start<R: Host>(rt: R, epoll: &Epoll<R>, ms: i32) -> Waiter {
        let epoll = expect_ok(&rt, epoll.try_clone());
        let over = expect_ok(&rt, Arc::new(rt.alloc(), AtomicBool::new(false)));
        let theirs = expect_ok(&rt, Arc::try_clone(&over));
        let started = thread::spawn(&rt, move || {
            let report = wait_once(&rt, epoll, ms);
            theirs.store(true, Ordering::SeqCst);
            report
        });
        let thread = expect_ok(&rt, started);
        Waiter { over, thread }
    }

    pub(crate) fn is_over(&self) -> bool {
        self.over.load(Ordering::SeqCst)
    }

    /// What the wait answers. Ends the test where it doesn't end by itself.
    pub(crate) fn report<R: Host>(self, rt: &R) -> Report {
        expect_set(rt, &self.over);
        self.thread.join(rt)
    }
}

/// What a thread is answered that waits once.
pub(crate) fn report_of<R: Host>(rt: R, epoll: &Epoll<R>, ms: i32) -> Report {
    Waiter::start(rt, epoll, ms).report(&rt)
}

/// Ends the test unless the flag is soon set.
pub(crate) fn expect_set<R: Host>(rt: &R, flag: &AtomicBool) {
    for _ in 0..PATIENCE {
        if flag.load(Ordering::SeqCst) {
            return;
        }
        pause(rt, 1);
    }
    panic!(rt; "the other thread still waits");
}

fn wait_once<R: Host>(rt: &R, epoll: Epoll<R>, ms: i32) -> Report {
    let mut epoll = epoll;
    let mut buffer = [no_event(); 2];
    let start = Instant::now(rt).expect(rt, "the clock is read");
    let answer = epoll.wait(ms, &mut buffer);
    let took = start.elapsed(rt).expect(rt, "the clock is read");
    Report {
        answer,
        buffer,
        took,
    }
}

/// How many milliseconds a thread is given to fall asleep.
const TO_SLEEP: u64 = 100;

/// A limit far above what a test has patience for.
const LONG: i32 = 60_000;

#[test]
fn an_add_ends_waits(rt: HostRuntime) {
    expect_to_end_waits(rt, Change::Add(EventSet::IN));
    expect_to_end_waits(rt, Change::Add(EventSet::OUT));
}

#[test]
fn a_modify_ends_waits(rt: HostRuntime) {
    expect_to_end_waits(rt, Change::Modify(EventSet::IN));
    expect_to_end_waits(rt, Change::Modify(EventSet::OUT));
}

#[test]
fn a_write_ends_waits(rt: HostRuntime) {
    expect_to_end_waits(rt, Change::Write);
}

#[test]
fn a_read_ends_waits(rt: HostRuntime) {
    expect_to_end_waits(rt, Change::Read);
}

#[test]
fn a_set_ends_waits(rt: HostRuntime) {
    for set in [EventSet::IN, EventSet::ERROR, EventSet::HANG_UP] {
        expect_to_end_waits(rt, Change::Set(set));
    }
}

// The change ends three waits, without a limit and with a long one, which answer what is ready.
fn expect_to_end_waits<R: Host>(rt: R, change: Change) {
    let (mut epoll, fixture) = Fixture::open(&rt);
    let waiters = start_three(rt, &epoll);
    pause(&rt, TO_SLEEP);
    for waiter in &waiters {
        assert!(rt; !waiter.is_over());
    }
    let event = fixture.make(&rt, &mut epoll, change);
    for waiter in waiters {
        waiter.report(&rt).expect(&rt, event);
    }
}

fn start_three<R: Host>(rt: R, epoll: &Epoll<R>) -> Vec<Waiter> {
    let mut waiters = Vec::new(rt.alloc());
    for ms in [-1, LONG, -1] {
        expect_ok(&rt, waiters.push(Waiter::start(rt, epoll, ms)));
    }
    waiters
}

/// What the calls of [`Fixture::make_refused`] are answered.
const REFUSALS: [Option<Errno>; 7] = [
    Some(Errno::EINVAL),
    Some(Errno::EAGAIN),
    Some(Errno::EAGAIN),
    Some(Errno::EEXIST),
    Some(Errno::ENOENT),
    Some(Errno::EBADF),
    Some(Errno::EINVAL),
];

#[test]
fn refused_calls_end_no_wait(rt: HostRuntime) {
    let (mut epoll, fixture) = Fixture::open(&rt);
    let waiter = Waiter::start(rt, &epoll, 400);
    for _ in 0..15 {
        pause(&rt, 20);
        expect_same(&rt, &fixture.make_refused(&rt, &mut epoll), &REFUSALS);
    }
    let report = waiter.report(&rt);
    expect_same(&rt, &report.answer, &Ok(0));
    assert!(rt; report.took >= Duration::from_millis(400));
}

#[test]
fn a_timed_wait_ends_by_the_clock(rt: HostRuntime) {
    let (epoll, _fixture) = Fixture::open(&rt);
    for ms in [1, 100] {
        let report = report_of(rt, &epoll, ms);
        expect_same(&rt, &report.answer, &Ok(0));
        assert!(rt; report.took >= Duration::from_millis(ms as u64));
    }
}

#[test]
fn a_wait_with_limit_0_does_not_sleep(rt: HostRuntime) {
    let (epoll, _fixture) = Fixture::open(&rt);
    let report = report_of(rt, &epoll, 0);
    expect_same(&rt, &report.answer, &Ok(0));
}

#[test]
fn a_wait_does_not_sleep_where_something_is_ready(rt: HostRuntime) {
    let (mut epoll, fixture) = Fixture::open(&rt);
    let event = fixture.make(&rt, &mut epoll, Change::Write);
    for ms in [-1, 0, LONG] {
        report_of(rt, &epoll, ms).expect(&rt, event);
    }
}

#[test]
fn changes_do_not_put_a_limit_off(rt: HostRuntime) {
    let (epoll, fixture) = Fixture::open(&rt);
    let waiter = Waiter::start(rt, &epoll, 1000);
    // Five seconds, in which the changes never stop for as long as the limit.
    for _ in 0..1000 {
        if waiter.is_over() {
            break;
        }
        fixture.change_in_vain(&rt);
        pause(&rt, 5);
    }
    assert!(rt; waiter.is_over());
    expect_same(&rt, &waiter.report(&rt).answer, &Ok(0));
}

#[test]
fn limits_of_hours_are_not_cut(rt: HostRuntime) {
    let (mut epoll, fixture) = Fixture::open(&rt);
    let hour = Waiter::start(rt, &epoll, 3_600_000);
    let longest = Waiter::start(rt, &epoll, i32::MAX);
    pause(&rt, 300);
    assert!(rt; !hour.is_over());
    assert!(rt; !longest.is_over());
    fixture.make(&rt, &mut epoll, Change::Write);
    expect_same(&rt, &hour.report(&rt).answer, &Ok(1));
    expect_same(&rt, &longest.report(&rt).answer, &Ok(1));
}
