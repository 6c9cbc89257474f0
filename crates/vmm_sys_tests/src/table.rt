//! The table, as one owner uses it: worked rows of its calls, and the numbers of its errors. What they answer is proved.

use crate::expecting::{expect_ok, expect_same};
use crate::fixture::{ADD, DELETE, HIGHEST, MODIFY, input, no_event};
use std::process::Abort;
use vmm_sys::epoll::{ControlOperation, EpollEvent, EventSet};
use vmm_sys::errno::Errno;
use vmm_sys::table::Table;

const IN: EventSet = EventSet::IN;

#[test]
fn calls_on_a_counter_and_a_line_in_turn(rt: HostRuntime) {
    let mut table = Table::new(rt.alloc());
    expect_same(&rt, &table.add_counter(0), &Ok(0));
    expect_same(&rt, &table.add_line(), &Ok(1));
    expect_requests(&rt, &mut table);
    expect_values(&rt, &mut table);
    expect_states_of_the_line(&rt, &mut table);
}

// Each interest is asked for with its descriptor as word.
fn ask(table: &mut Table, op: ControlOperation, fd: u8, set: EventSet) -> Result<(), Errno> {
    table.ctl(op, i32::from(fd), EpollEvent::new(set, u64::from(fd)))
}

// Interests that are refused, and one in the counter.
fn expect_requests<R: Abort>(rt: &R, table: &mut Table) {
    let rows = [
        (ADD, 7, EventSet::ONE_SHOT, Err(Errno::EBADF)),
        (ADD, 0, IN | EventSet::ONE_SHOT, Err(Errno::EINVAL)),
        (MODIFY, 0, IN, Err(Errno::ENOENT)),
        (ADD, 0, IN, Ok(())),
        (ADD, 0, IN, Err(Errno::EEXIST)),
    ];
    for (op, fd, set, answer) in rows {
        expect_same(rt, &ask(table, op, fd, set), &answer);
    }
}

// Writes and reads that are refused, and a write of nothing.
fn expect_values<R: Abort>(rt: &R, table: &mut Table) {
    expect_same(rt, &table.write(1, u64::MAX), &Err(Errno::EBADF));
    expect_same(rt, &table.read(0), &Err(Errno::EAGAIN));
    expect_same(rt, &table.write(0, 0), &Ok(()));
    expect_report(rt, table, Ok(0), no_event());
}

// What is reported of the line, by its state and by what is wanted of it.
fn expect_states_of_the_line<R: Abort>(rt: &R, table: &mut Table) {
    expect_same(rt, &table.set_line(1, EventSet::READ_HANG_UP), &Ok(()));
    expect_same(rt, &ask(table, ADD, 1, IN), &Ok(()));
    expect_report(rt, table, Ok(0), no_event());
    let both = EventSet::HANG_UP | EventSet::ERROR;
    expect_same(rt, &table.set_line(1, both), &Ok(()));
    expect_same(rt, &ask(table, MODIFY, 1, EventSet::empty()), &Ok(()));
    expect_report(rt, table, Ok(1), EpollEvent::new(both, 1));
    expect_same(rt, &table.wait(&mut []), &Err(Errno::EINVAL));
}

// A wait with room for two answers this; its first entry is then this one, and its second untouched.
fn expect_report<R: Abort>(
    rt: &R,
    table: &mut Table,
    answer: Result<usize, Errno>,
    first: EpollEvent,
) {
    let mut buffer = [no_event(); 2];
    expect_same(rt, &table.wait(&mut buffer), &answer);
    expect_same(rt, &buffer, &[first, no_event()]);
}

#[test]
fn a_full_counter_of_a_table(rt: HostRuntime) {
    let mut table = Table::new(rt.alloc());
    expect_same(&rt, &table.add_counter(HIGHEST), &Ok(0));
    expect_same(&rt, &ask(&mut table, ADD, 0, EventSet::OUT), &Ok(()));
    expect_same(&rt, &table.write(0, 1), &Err(Errno::EAGAIN));
    expect_report(&rt, &mut table, Ok(0), no_event());
    expect_same(&rt, &table.write(0, u64::MAX), &Err(Errno::EINVAL));
    expect_same(&rt, &table.read(0), &Ok(HIGHEST));
    expect_same(&rt, &table.read(0), &Err(Errno::EAGAIN));
}

// Opens counters of these values, and adds an interest in each.
fn open<R: Abort>(rt: &R, table: &mut Table, values: &[u64]) {
    for &value in values {
        let fd = expect_ok(rt, table.add_counter(value));
        let wanted = input(fd.max(0) as u64);
        expect_ok(rt, table.ctl(ADD, fd, wanted));
    }
}

// The next waits, each with room for one, report these descriptors in turn.
fn expect_each<R: Abort>(rt: &R, table: &mut Table, fds: &[u64]) {
    for &fd in fds {
        let mut buffer = [no_event()];
        expect_same(rt, &table.wait(&mut buffer), &Ok(1));
        expect_same(rt, &buffer, &[input(fd)]);
    }
}

#[test]
fn one_that_is_not_ready_is_passed_over(rt: HostRuntime) {
    let mut table = Table::new(rt.alloc());
    open(&rt, &mut table, &[0, 1, 1, 1, 1, 1]);
    for (first, second) in [(1, 2), (3, 4), (5, 1)] {
        let mut buffer = [no_event(); 2];
        expect_same(&rt, &table.wait(&mut buffer), &Ok(2));
        expect_same(&rt, &buffer, &[input(first), input(second)]);
    }
}

#[test]
fn four_that_are_ready_are_served_one_by_one(rt: HostRuntime) {
    let mut table = Table::new(rt.alloc());
    open(&rt, &mut table, &[1, 1, 1, 1]);
    expect_each(&rt, &mut table, &[0, 1, 2, 3]);
}

#[test]
fn one_is_added_and_one_deleted_between_the_waits(rt: HostRuntime) {
    let mut table = Table::new(rt.alloc());
    open(&rt, &mut table, &[1, 1, 1, 1]);
    expect_each(&rt, &mut table, &[0]);
    open(&rt, &mut table, &[1]);
    expect_ok(&rt, table.ctl(DELETE, 1, no_event()));
    expect_each(&rt, &mut table, &[2, 3]);
}

/// Each constant, and its number in Linux.
const NUMBERS: [(Errno, i32); 8] = [
    (Errno::ENOENT, 2),
    (Errno::EINTR, 4),
    (Errno::EBADF, 9),
    (Errno::EAGAIN, 11),
    (Errno::ENOMEM, 12),
    (Errno::EEXIST, 17),
    (Errno::EINVAL, 22),
    (Errno::EMFILE, 24),
];

#[test]
fn constants_have_their_numbers(rt: HostRuntime) {
    for (errno, number) in NUMBERS {
        expect_same(&rt, &errno.0, &number);
    }
}
