//! A table that pollers, counters, lines and their copies share; each call is one step of it.

use crate::expecting::{expect_ok, expect_same};
use crate::fixture::{
    ADD, DELETE, HIGHEST, Host, MODIFY, entry, input, no_event, open_counter, open_line,
    open_poller, want, wanted_counter, wanted_line,
};
use crate::waits::{expect_set, report_of};
use std::process::Abort;
use std::sync::Arc;
use std::sync::atomic::{AtomicBool, Ordering};
use std::thread;
use vmm_sys::counter::{Bell, Counter};
use vmm_sys::epoll::{AsRawFd, Epoll, EpollEvent, EventSet};
use vmm_sys::errno::Errno;
use vmm_sys::eventfd::EventFd;
use vmm_sys::line::Line;
use vmm_sys::poller::Poller;

#[test]
fn pollers_of_one_table_see_what_the_others_did(rt: HostRuntime) {
    let mut epoll = open_poller(&rt);
    let mut other = expect_ok(&rt, epoll.try_clone());
    let counter = open_counter(&rt, &epoll, 1);
    want(&rt, &mut other, &counter, EventSet::IN);
    let line = open_line(&rt, &other);
    expect_ok(&rt, line.set(EventSet::IN, &rt));
    want(&rt, &mut epoll, &line, EventSet::IN);
    let both = [entry(&counter, EventSet::IN), entry(&line, EventSet::IN)];
    expect_same(&rt, &all_ready(&rt, &mut epoll), &both);
    expect_same(&rt, &all_ready(&rt, &mut other), &both);
}

fn all_ready<P: Poller, R: Abort>(rt: &R, poller: &mut P) -> [EpollEvent; 2] {
    let mut buffer = [no_event(); 2];
    expect_ok(rt, poller.wait(0, &mut buffer));
    buffer
}

#[test]
fn a_new_poller_has_a_table_of_its_own(rt: HostRuntime) {
    for value in 0..2 {
        let epoll = open_poller(&rt);
        let counter = open_counter(&rt, &epoll, value);
        expect_same(&rt, &counter.as_raw_fd(), &0);
        expect_same(&rt, &counter.read(&rt).ok().unwrap_or(0), &value);
    }
}

#[test]
fn changes_of_interests(rt: HostRuntime) {
    let mut epoll = open_poller(&rt);
    open_counter(&rt, &epoll, 1);
    let input = input(5);
    let output = EpollEvent::new(EventSet::OUT, 6);
    let once = EpollEvent::new(EventSet::from_bits_retain(0x4000_0001), 5);
    // Each change with its answer, and what a wait then reports.
    let rows = [
        (ADD, 7, input, Err(Errno::EBADF), no_event()),
        (ADD, 0, once, Err(Errno::EINVAL), no_event()),
        (MODIFY, 0, input, Err(Errno::ENOENT), no_event()),
        (ADD, 0, input, Ok(()), input),
        (ADD, 0, output, Err(Errno::EEXIST), input),
        (MODIFY, 0, output, Ok(()), output),
        (DELETE, 0, input, Ok(()), no_event()),
        (DELETE, 0, input, Err(Errno::ENOENT), no_event()),
    ];
    for (op, fd, event, answer, reported) in rows {
        let mut buffer = [no_event()];
        expect_same(&rt, &epoll.ctl(op, fd, event), &answer);
        expect_ok(&rt, epoll.wait(0, &mut buffer));
        expect_same(&rt, &buffer, &[reported]);
    }
}

#[test]
fn those_reported_go_to_the_back(rt: HostRuntime) {
    for ms in [-1, 0, 60_000] {
        expect_order_of_service(rt, ms);
    }
}

// Each of five ready counters is reported in turn, two at a time.
fn expect_order_of_service<R: Host>(rt: R, ms: i32) {
    let mut epoll = open_poller(&rt);
    for _ in 0..5 {
        wanted_counter(&rt, &mut epoll, 1);
    }
    for (first, second) in [(0, 1), (2, 3), (4, 0), (1, 2)] {
        let report = report_of(rt, &epoll, ms);
        expect_same(&rt, &report.answer, &Ok(2));
        expect_same(&rt, &report.buffer, &[input(first), input(second)]);
    }
}

#[test]
fn a_refused_opening_opens_nothing(rt: HostRuntime) {
    let epoll = open_poller(&rt);
    let refused = EventFd::new(&epoll, u64::MAX, &rt);
    expect_same(&rt, &refused.err(), &Some(Errno::EINVAL));
    let line = open_line(&rt, &epoll);
    expect_same(&rt, &line.as_raw_fd(), &0);
}

#[test]
fn counters_of_one_table_are_apart(rt: HostRuntime) {
    let epoll = open_poller(&rt);
    let first = open_counter(&rt, &epoll, 2);
    let second = open_counter(&rt, &epoll, 1);
    expect_ok(&rt, first.write(5, &rt));
    expect_ok(&rt, first.write(7, &rt));
    expect_same(&rt, &second.read(&rt), &Ok(1));
    expect_same(&rt, &second.read(&rt), &Err(Errno::EAGAIN));
    expect_same(&rt, &first.read(&rt), &Ok(14));
    expect_same(&rt, &first.read(&rt), &Err(Errno::EAGAIN));
}

#[test]
fn a_counter_is_rung_by_a_1_and_cleared_by_a_read(rt: HostRuntime) {
    let epoll = open_poller(&rt);
    let counter = open_counter(&rt, &epoll, 0);
    for rings in 1..=3 {
        for _ring in 0..rings {
            expect_same(&rt, &counter.ring(&rt), &Ok(()));
        }
        expect_same(&rt, &counter.clear(&rt), &Ok(rings));
    }
    expect_same(&rt, &counter.clear(&rt), &Err(Errno::EAGAIN));
}

#[test]
fn a_refused_write_leaves_the_value(rt: HostRuntime) {
    let mut epoll = open_poller(&rt);
    let counter = open_counter(&rt, &epoll, HIGHEST);
    want(&rt, &mut epoll, &counter, EventSet::OUT);
    expect_same(&rt, &counter.write(1, &rt), &Err(Errno::EAGAIN));
    expect_same(&rt, &epoll.wait(0, &mut [no_event()]), &Ok(0));
    expect_same(&rt, &counter.write(u64::MAX, &rt), &Err(Errno::EINVAL));
    expect_same(&rt, &counter.read(&rt), &Ok(HIGHEST));
    expect_same(&rt, &counter.read(&rt), &Err(Errno::EAGAIN));
}

#[test]
fn a_counter_never_waits_for_its_value(rt: HostRuntime) {
    let epoll = open_poller(&rt);
    let empty = open_counter(&rt, &epoll, 0);
    let full = open_counter(&rt, &epoll, HIGHEST);
    let over = expect_ok(&rt, Arc::new(rt.alloc(), AtomicBool::new(false)));
    let theirs = expect_ok(&rt, Arc::try_clone(&over));
    let started = thread::spawn(&rt, move || {
        let answers = (empty.read(&rt), full.write(1, &rt));
        theirs.store(true, Ordering::SeqCst);
        answers
    });
    let caller = expect_ok(&rt, started);
    expect_set(&rt, &over);
    expect_same(
        &rt,
        &caller.join(&rt),
        &(Err(Errno::EAGAIN), Err(Errno::EAGAIN)),
    );
}

#[test]
fn lines_of_one_table_are_apart(rt: HostRuntime) {
    let mut epoll = open_poller(&rt);
    wanted_line(&rt, &mut epoll);
    let second = wanted_line(&rt, &mut epoll);
    let both = EventSet::from_bits_retain(0x5);
    // What the second line is set to, and what of it is reported.
    for (set, count, reported) in [
        (both, 1, entry(&second, EventSet::IN)),
        (EventSet::empty(), 0, no_event()),
    ] {
        let mut buffer = [no_event(); 2];
        expect_same(&rt, &second.set(set, &rt), &Ok(()));
        expect_same(&rt, &epoll.wait(0, &mut buffer), &Ok(count));
        expect_same(&rt, &buffer, &[reported, no_event()]);
    }
}

#[test]
fn a_copy_of_a_counter_has_its_value(rt: HostRuntime) {
    let epoll = open_poller(&rt);
    open_counter(&rt, &epoll, 7);
    let counter = open_counter(&rt, &epoll, 0);
    let copy = expect_ok(&rt, counter.try_clone());
    expect_same(&rt, &copy.as_raw_fd(), &counter.as_raw_fd());
    expect_ok(&rt, counter.write(2, &rt));
    expect_same(&rt, &copy.read(&rt), &Ok(2));
    expect_ok(&rt, copy.write(3, &rt));
    expect_same(&rt, &counter.read(&rt), &Ok(3));
}

#[test]
fn what_a_copy_of_a_line_sets_is_reported(rt: HostRuntime) {
    let mut epoll = open_poller(&rt);
    open_line(&rt, &epoll);
    let line = wanted_line(&rt, &mut epoll);
    let copy = expect_ok(&rt, line.try_clone());
    expect_same(&rt, &copy.as_raw_fd(), &line.as_raw_fd());
    expect_ok(&rt, copy.set(EventSet::IN, &rt));
    let mut buffer = [no_event()];
    expect_same(&rt, &epoll.wait(0, &mut buffer), &Ok(1));
    expect_same(&rt, &buffer, &[entry(&line, EventSet::IN)]);
}

macro_rules! with_memory {
    ($call:expr) => {
        match $call {
            Err(Errno::ENOMEM) => $call,
            answer => answer,
        }
    };
}

/// Each call of a shared table that requests memory. With one request refused (`rt try --test --fail-alloc N`) the same call
/// made again answers what a first one would have; a `ctl` requests none.
#[test]
fn requests_of_a_shared_table(rt: HostRuntime) {
    let mut epoll = expect_ok(&rt, with_memory!(Epoll::new(rt, rt.alloc())));
    let mut other = expect_ok(&rt, with_memory!(epoll.try_clone()));
    let counter = expect_ok(&rt, with_memory!(EventFd::new(&epoll, 1, &rt)));
    expect_same(&rt, &counter.as_raw_fd(), &0);
    let line = expect_ok(&rt, with_memory!(Line::new(&epoll, &rt)));
    expect_same(&rt, &line.as_raw_fd(), &1);
    let added = epoll.ctl(ADD, 0, entry(&counter, EventSet::IN));
    expect_same(&rt, &added, &Ok(()));
    let mut buffer = [no_event()];
    expect_same(&rt, &other.wait(0, &mut buffer), &Ok(1));
    expect_same(&rt, &buffer, &[entry(&counter, EventSet::IN)]);
}

const ROUNDS: u64 = 20_000;

#[test]
fn what_is_written_is_read_or_left(rt: HostRuntime) {
    let epoll = open_poller(&rt);
    let counter = open_counter(&rt, &epoll, 0);
    let by_one = |k| match k < 2 {
        true => write_often(&rt, &counter),
        false => read_often(&rt, &counter),
    };
    let sums = thread::map_indices(&rt, rt.alloc(), 4, &by_one);
    let read = expect_ok(&rt, sums);
    let taken = read.iter().fold(0u64, |sum, part| sum.wrapping_add(*part));
    let left = counter.read(&rt).unwrap_or(0);
    expect_same(&rt, &taken.wrapping_add(left), &(2 * ROUNDS));
}

// Writes 1 many times, and reads nothing.
fn write_often<R: Host>(rt: &R, counter: &EventFd) -> u64 {
    for _ in 0..ROUNDS {
        expect_same(rt, &counter.write(1, rt), &Ok(()));
    }
    0
}

// Reads many times; answers the sum of what was read.
fn read_often<R: Host>(rt: &R, counter: &EventFd) -> u64 {
    let mut sum = 0u64;
    for _ in 0..ROUNDS {
        sum = sum.wrapping_add(counter.read(rt).unwrap_or(0));
    }
    sum
}
