//! What is closed: a counter or a line by the last of its handles, and its number is given again.

use crate::expecting::{expect_ok, expect_same};
use crate::fixture::{
    ADD, DELETE, Host, entry, input, no_event, open_counter, open_poller, want, wanted_counter,
    wanted_line,
};
use std::process::Abort;
use std::thread;
use vmm_sys::counter::Counter;
use vmm_sys::epoll::{AsRawFd, Epoll, EventSet, RawFd};
use vmm_sys::errno::Errno;
use vmm_sys::eventfd::EventFd;
use vmm_sys::poller::Poller;
use vmm_sys::table::Table;

/// How often threads close the handles of one counter at once.
const ROUNDS: u32 = 200;

/// How many handles are closed at once.
const HANDLES: usize = 4;

#[test]
fn calls_on_descriptors_that_are_closed(rt: HostRuntime) {
    let mut table = Table::new(rt.alloc());
    for number in 0..4 {
        expect_same(&rt, &table.add_counter(1), &Ok(number));
        let event = input(u64::from(number.unsigned_abs()));
        expect_ok(&rt, table.ctl(ADD, number, event));
    }
    for (fd, answer) in [
        (2, Ok(())),
        (0, Ok(())),
        (2, Err(Errno::EBADF)),
        (4, Err(Errno::EBADF)),
        (-1, Err(Errno::EBADF)),
    ] {
        expect_same(&rt, &table.close(fd), &answer);
    }
    expect_refused(&rt, &mut table, 2);
    expect_words(&rt, &mut table, &[1, 3]);
    // The lowest comes first, without an interest.
    for number in [0, 2, 4] {
        expect_same(&rt, &table.add_counter(1), &Ok(number));
    }
    expect_words(&rt, &mut table, &[1, 3]);
}

fn expect_refused<R: Abort>(rt: &R, table: &mut Table, fd: RawFd) {
    expect_same(rt, &table.write(fd, 1), &Err(Errno::EBADF));
    expect_same(rt, &table.read(fd), &Err(Errno::EBADF));
    expect_same(rt, &table.set_line(fd, EventSet::IN), &Err(Errno::EBADF));
    let deleted = table.ctl(DELETE, fd, no_event());
    expect_same(rt, &deleted, &Err(Errno::EBADF));
}

// A wait with room for four reports entries with these words.
fn expect_words<P: Poller, R: Abort>(rt: &R, poller: &mut P, words: &[u64]) {
    let mut buffer = [no_event(); 4];
    let count = expect_ok(rt, poller.wait(0, &mut buffer)).min(buffer.len());
    expect_same(rt, &count, &words.len());
    for (reported, word) in buffer.iter().zip(words) {
        expect_same(rt, &reported.data(), word);
    }
}

#[test]
fn a_copy_keeps_a_counter_open(rt: HostRuntime) {
    let mut epoll = open_poller(&rt);
    let counter = wanted_counter(&rt, &mut epoll, 1);
    let copy = expect_ok(&rt, counter.try_clone());
    counter.close(&rt);
    expect_words(&rt, &mut epoll, &[0]);
    expect_same(&rt, &copy.read(&rt), &Ok(1));
    expect_ok(&rt, copy.write(1, &rt));
    expect_next_is(&rt, &epoll, 1);
    copy.close(&rt);
    expect_words(&rt, &mut epoll, &[]);
    expect_next_is(&rt, &epoll, 0);
}

#[test]
fn a_copy_keeps_a_line_open(rt: HostRuntime) {
    let mut epoll = open_poller(&rt);
    let line = wanted_line(&rt, &mut epoll);
    let copy = expect_ok(&rt, line.try_clone());
    line.close(&rt);
    expect_ok(&rt, copy.set(EventSet::IN, &rt));
    expect_words(&rt, &mut epoll, &[0]);
    expect_next_is(&rt, &epoll, 1);
    copy.close(&rt);
    expect_words(&rt, &mut epoll, &[]);
    expect_next_is(&rt, &epoll, 0);
}

// The number that is given next, and is closed again.
fn expect_next_is<R: Host>(rt: &R, epoll: &Epoll<R>, fd: RawFd) {
    let next = open_counter(rt, epoll, 0);
    expect_same(rt, &next.as_raw_fd(), &fd);
    next.close(rt);
}

#[test]
fn a_number_that_is_given_again_has_no_interest(rt: HostRuntime) {
    let mut epoll = open_poller(&rt);
    let first = wanted_counter(&rt, &mut epoll, 1);
    // As a channel closes the counter that it was given.
    Counter::close(first, &rt);
    let second = open_counter(&rt, &epoll, 1);
    expect_same(&rt, &second.as_raw_fd(), &0);
    expect_words(&rt, &mut epoll, &[]);
    want(&rt, &mut epoll, &second, EventSet::IN);
    let mut buffer = [no_event()];
    expect_same(&rt, &epoll.wait(0, &mut buffer), &Ok(1));
    expect_same(&rt, &buffer, &[entry(&second, EventSet::IN)]);
}

#[test]
fn the_last_handle_closes_by_its_close_alone(rt: HostRuntime) {
    let mut epoll = open_poller(&rt);
    let counter = wanted_counter(&rt, &mut epoll, 1);
    drop(expect_ok(&rt, counter.try_clone()));
    expect_words(&rt, &mut epoll, &[0]);
    counter.close(&rt);
    expect_words(&rt, &mut epoll, &[]);
    let counter = wanted_counter(&rt, &mut epoll, 1);
    let copy = expect_ok(&rt, counter.try_clone());
    counter.close(&rt);
    drop(copy);
    expect_words(&rt, &mut epoll, &[0]);
    expect_next_is(&rt, &epoll, 1);
}

#[test]
fn handles_that_are_closed_at_once_close_once(rt: HostRuntime) {
    let epoll = open_poller(&rt);
    for _round in 0..ROUNDS {
        close_at_once(&rt, &epoll);
        expect_next_is(&rt, &epoll, 0);
    }
}

// Each handle of a counter is closed by a thread of its own.
fn close_at_once<R: Host>(rt: &R, epoll: &Epoll<R>) {
    let counter = open_counter(rt, epoll, 0);
    let mut handles = Vec::new(rt.alloc());
    for _ in 1..HANDLES {
        expect_ok(rt, handles.push(expect_ok(rt, counter.try_clone())));
    }
    expect_ok(rt, handles.push(counter));
    let closed = thread::map_vec(rt, handles, &|handle: EventFd| handle.close(rt));
    expect_ok(rt, closed);
}

#[test]
fn what_is_opened_and_closed_leaves_no_number_behind(rt: HostRuntime) {
    let mut epoll = open_poller(&rt);
    for _ in 0..100_000 {
        wanted_counter(&rt, &mut epoll, 1).close(&rt);
    }
    expect_next_is(&rt, &epoll, 0);
}
