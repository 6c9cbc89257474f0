//! Timers that are closed: by the last of their copies, and their numbers are given again.

use crate::expecting::{expect_ok, expect_same, put};
use crate::host::{Host, Looping};
use crate::timed::{
    OverTable, arm_again, expect_report, open, open_timer, ready, watch, watched_timer,
};
use std::alloc::Global;
use std::thread;
use timerfd::TimerTable;
use vmm_sys::epoll::{AsRawFd, ControlOperation, RawFd};
use vmm_sys::errno::Errno;
use vmm_sys::poller::Poller;

/// The number of the first timer.
const FIRST: RawFd = 2147483647;

/// How often threads close the copies of one timer at once.
const ROUNDS: u32 = 200;

/// The number that is given next, to a timer that is closed again.
fn expect_next_is<R: Looping>(rt: &R, timed: &OverTable<R>, fd: RawFd) {
    let next = open_timer(rt, timed);
    expect_same(rt, &next.as_raw_fd(), &fd);
    next.close(rt);
}

/// A wait with room for two reports entries with these words.
fn expect_words<R: Looping>(rt: &R, timed: &mut OverTable<R>, words: &[u64]) {
    expect_report(rt, timed, 0, 2, words);
}

#[test]
fn closed_timers_of_a_table(host: HostRuntime) {
    let mut table = TimerTable::new(host.alloc());
    for index in 0..4 {
        expect_same(&host, &table.add(), &Ok(index));
        expect_same(
            &host,
            &table.ctl(ControlOperation::Add, index, ready(7)),
            &Ok(()),
        );
        table.arm(index, 1, 0);
    }
    for (index, answer) in [
        (2, Ok(())),
        (0, Ok(())),
        (2, Err(Errno::EBADF)),
        (4, Err(Errno::EBADF)),
    ] {
        expect_same(&host, &table.close(index), &answer);
    }
    table.set_time(1);
    let mut buffer = [ready(0); 4];
    expect_same(&host, &table.report(&mut buffer), &2);
    expect_same(
        &host,
        &table.ctl(ControlOperation::Delete, 2, ready(7)),
        &Err(Errno::EBADF),
    );
    // The lowest comes first, disarmed and without an interest.
    for index in [0, 2, 4] {
        expect_same(&host, &table.add(), &Ok(index));
        expect_same(&host, &table.is_armed(index), &false);
        expect_same(
            &host,
            &table.ctl(ControlOperation::Delete, index, ready(7)),
            &Err(Errno::ENOENT),
        );
    }
}

#[test]
fn a_copy_keeps_a_timer_open(host: HostRuntime) {
    let mut timed = open(&host, host.alloc());
    let timer = watched_timer(&host, &mut timed, 5);
    let copy = expect_ok(&host, timer.try_clone());
    timer.close(&host);
    arm_again(&host, &copy, 1, 0);
    expect_words(&host, &mut timed, &[5]);
    expect_next_is(&host, &timed, FIRST.wrapping_sub(1));
    copy.close(&host);
    expect_words(&host, &mut timed, &[]);
    let deleted = timed.ctl(ControlOperation::Delete, FIRST, ready(5));
    expect_same(&host, &deleted, &Err(Errno::EBADF));
    expect_next_is(&host, &timed, FIRST);
}

#[test]
fn a_timer_that_is_given_a_number_again_is_disarmed(host: HostRuntime) {
    let mut timed = open(&host, host.alloc());
    let timer = watched_timer(&host, &mut timed, 5);
    arm_again(&host, &timer, 1, 0);
    timer.close(&host);
    let next = open_timer(&host, &timed);
    expect_same(&host, &next.as_raw_fd(), &FIRST);
    expect_same(&host, &next.is_armed(&host), &Ok(false));
    watch(&host, &mut timed, &next, 6);
    expect_words(&host, &mut timed, &[]);
    arm_again(&host, &next, 1, 0);
    expect_words(&host, &mut timed, &[6]);
}

#[test]
fn copies_that_are_closed_at_once_close_once(host: HostRuntime) {
    let timed = open(&host, host.alloc());
    for _round in 0..ROUNDS {
        close_at_once(host, host.alloc(), &timed);
        expect_next_is(&host, &timed, FIRST);
    }
}

// Each copy of a timer is closed by a thread of its own.
fn close_at_once<R: Host>(rt: R, alloc: Global, timed: &OverTable<R>) {
    let timer = open_timer(&rt, timed);
    let mut threads = Vec::new(alloc);
    for _ in 0..3 {
        let copy = expect_ok(&rt, timer.try_clone());
        let thread = expect_ok(&rt, thread::spawn(&rt, move || copy.close(&rt)));
        put(&rt, &mut threads, thread);
    }
    timer.close(&rt);
    for thread in threads {
        thread.join(&rt);
    }
}

#[test]
fn what_is_opened_and_closed_leaves_no_timer_behind(host: HostRuntime) {
    let mut timed = open(&host, host.alloc());
    for _ in 0..20_000 {
        watched_timer(&host, &mut timed, 5).close(&host);
    }
    expect_next_is(&host, &timed, FIRST);
}
