//! A poller with timers over a table, and what is done with it.

use crate::expecting::{expect_ok, expect_same};
use crate::host::Looping;
use std::alloc::Global;
use std::process::Abort;
use std::sync::Wait;
use std::time::{Clock, Duration};
use timerfd::{TimedPoller, TimerFd};
use vmm_sys::counter::Counter;
use vmm_sys::epoll::{AsRawFd, ControlOperation, Epoll, EpollEvent, EventSet};
use vmm_sys::eventfd::EventFd;
use vmm_sys::poller::Poller;

/// A poller with timers over a table.
pub type OverTable<R> = TimedPoller<Epoll<R>, R>;

/// One over a new table, without a timer.
pub fn open<R: Looping>(rt: &R, alloc: Global) -> OverTable<R> {
    let epoll = expect_ok(rt, Epoll::new(*rt, alloc));
    let counter = expect_ok(rt, EventFd::new(&epoll, 0, rt));
    expect_ok(rt, TimedPoller::new(epoll, counter, *rt, alloc))
}

/// A new timer.
pub fn open_timer<P, Q, C, R>(rt: &R, timed: &TimedPoller<P, Q, C>) -> TimerFd<C>
where
    C: Counter + Drop,
    R: Looping,
{
    expect_ok(rt, TimerFd::new(timed, rt))
}

/// An entry for `IN`.
pub fn ready(word: u64) -> EpollEvent {
    EpollEvent::new(EventSet::IN, word)
}

/// Adds an interest for `IN` with this word.
pub fn watch<P: Poller, D: AsRawFd, R: Abort>(rt: &R, poller: &mut P, descriptor: &D, word: u64) {
    let fd = descriptor.as_raw_fd();
    expect_ok(rt, poller.ctl(ControlOperation::Add, fd, ready(word)));
}

/// A new timer, of which this word is reported.
pub fn watched_timer<P, Q, C, R>(rt: &R, timed: &mut TimedPoller<P, Q, C>, word: u64) -> TimerFd<C>
where
    P: Poller,
    Q: Wait + Clock + Drop,
    C: Counter + Drop,
    R: Looping,
{
    let timer = open_timer(rt, timed);
    watch(rt, timed, &timer, word);
    timer
}

/// Expects that a wait of `ms` milliseconds, with room for 4 entries or fewer, reports these words, each for `IN`.
pub fn expect_report<P: Poller, R: Abort>(
    rt: &R,
    poller: &mut P,
    ms: i32,
    room: usize,
    words: &[u64],
) {
    let mut buffer = [ready(0); 4];
    let room = room.min(buffer.len());
    let count = expect_ok(rt, poller.wait(ms, &mut buffer[..room])).min(room);
    expect_same(rt, &count, &words.len());
    for (entry, word) in buffer[..count].iter().zip(words) {
        expect_same(rt, entry, &ready(*word));
    }
}

/// Arms the timer: it is due after `nanoseconds`, and again after each interval.
pub fn arm_again<R: Looping>(rt: &R, timer: &TimerFd, nanoseconds: u64, interval: u64) {
    let duration = Duration::from_nanos(nanoseconds);
    let interval = Duration::from_nanos(interval);
    expect_ok(rt, timer.reset(duration, Some(interval), rt));
}
