//! Tables that are shared, and what is opened in them.

use crate::again;
use crate::expecting::{Host, expect_ok, expect_same, mark};
use std::alloc::Global;
use vmm_sys::epoll::{AsRawFd, ControlOperation, Epoll, EpollEvent, EventSet, RawFd};
use vmm_sys::errno::Errno;
use vmm_sys::eventfd::EventFd;
use vmm_sys::line::Line;
use vmm_sys::poller::Poller;

/// How many counters and how many lines are opened.
const OPENED: u16 = 9;

/// What an interest in a descriptor is answered that was never opened, and in one that nobody has registered.
const UNOPENED: Result<(), Errno> = Err(Errno::EBADF);

const UNREGISTERED: Result<(), Errno> = Err(Errno::ENOENT);

/// An event whose word is the descriptor.
pub fn event_of(fd: RawFd) -> EpollEvent {
    EpollEvent::new(EventSet::IN, fd.unsigned_abs() as u64)
}

fn interest_of<P: Poller>(poller: &mut P, fd: RawFd) -> Result<(), Errno> {
    poller.ctl(ControlOperation::Modify, fd, event_of(fd))
}

/// Whether the descriptor was never opened.
pub fn is_unopened<P: Poller>(poller: &mut P, fd: RawFd) -> bool {
    interest_of(poller, fd) == UNOPENED
}

/// Whether the descriptor is open, and nobody has registered it.
pub fn is_unregistered<P: Poller>(poller: &mut P, fd: RawFd) -> bool {
    interest_of(poller, fd) == UNREGISTERED
}

/// A poller over a new table.
pub fn open_epoll<R: Host>(rt: &R, alloc: Global) -> Epoll<R> {
    again!(rt, "Epoll::new", Epoll::new(*rt, alloc))
}

/// A poller over the same table.
pub fn copy_epoll<R: Host>(rt: &R, epoll: &Epoll<R>) -> Epoll<R> {
    expect_ok(rt, "Epoll::try_clone", epoll.try_clone())
}

/// A counter of value 0, whose descriptor must be this one.
pub fn open_counter<R: Host>(rt: &R, epoll: &mut Epoll<R>, fd: RawFd) -> EventFd {
    let call = "EventFd::new";
    let counter = again!(
        rt,
        call,
        EventFd::new(&*epoll, 0, rt),
        is_unopened(epoll, fd)
    );
    expect_same(rt, call, &counter.as_raw_fd(), &fd);
    expect_same(rt, call, &is_unregistered(epoll, fd), &true);
    counter
}

/// Another handle on the same counter.
pub fn copy_counter<R: Host>(rt: &R, counter: &EventFd) -> EventFd {
    expect_ok(rt, "EventFd::try_clone", counter.try_clone())
}

/// A line, whose descriptor must be this one.
fn open_line<R: Host>(rt: &R, epoll: &mut Epoll<R>, fd: RawFd) -> Line {
    let call = "Line::new";
    let line = again!(rt, call, Line::new(&*epoll, rt), is_unopened(epoll, fd));
    expect_same(rt, call, &line.as_raw_fd(), &fd);
    expect_same(rt, call, &is_unregistered(epoll, fd), &true);
    line
}

/// Opens counters and lines in turn, in one table: the descriptors of the last ones.
fn open_in_turn<R: Host>(rt: &R, epoll: &mut Epoll<R>) -> [RawFd; 2] {
    let mut last = [0, 0];
    for k in 0..OPENED {
        let fd = 2 * k as RawFd;
        let counter = open_counter(rt, epoll, fd).as_raw_fd();
        let line = open_line(rt, epoll, fd + 1).as_raw_fd();
        last = [counter, line];
    }
    last
}

/// Opens a counter and a line of the table: the descriptors of their copies, which take no memory, nor does their closing.
fn open_and_copy<R: Host>(rt: &R, epoll: &mut Epoll<R>) -> [RawFd; 2] {
    let counter = open_counter(rt, epoll, 18);
    let line = open_line(rt, epoll, 19);
    mark(rt);
    let counter_copy = copy_counter(rt, &counter);
    let line_copy = expect_ok(rt, "Line::try_clone", line.try_clone());
    mark(rt);
    let copied = [counter_copy.as_raw_fd(), line_copy.as_raw_fd()];
    mark(rt);
    close_all(rt, [counter, counter_copy], [line, line_copy]);
    mark(rt);
    expect_same(rt, "EventFd::close", &is_unopened(epoll, 18), &true);
    expect_same(rt, "Line::close", &is_unopened(epoll, 19), &true);
    copied
}

fn close_all<R: Host>(rt: &R, counters: [EventFd; 2], lines: [Line; 2]) {
    for counter in counters {
        counter.close(rt);
    }
    for line in lines {
        line.close(rt);
    }
}

#[test]
fn pollers_counters_and_lines_are_opened_and_copied(rt: HostRuntime) {
    let mut epoll = open_epoll(&rt, rt.alloc());
    let last = open_in_turn(&rt, &mut epoll);
    expect_same(
        &rt,
        "the last of 9 counters and of 9 lines",
        &last,
        &[16, 17],
    );
    mark(&rt);
    let mut copy = copy_epoll(&rt, &epoll);
    mark(&rt);
    let is_same_table = is_unregistered(&mut copy, 17) && is_unopened(&mut copy, 18);
    expect_same(&rt, "Epoll::try_clone", &is_same_table, &true);
    let copies = open_and_copy(&rt, &mut copy);
    expect_same(
        &rt,
        "EventFd::try_clone, Line::try_clone",
        &copies,
        &[18, 19],
    );
}
