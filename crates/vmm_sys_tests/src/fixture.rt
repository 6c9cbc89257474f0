//! A shared table and its descriptors, some of them for tests of what ends a wait.

use crate::expecting::{expect_ok, expect_same};
use std::process::Abort;
use std::sync::Wait;
use std::thread;
use std::thread::Threads;
use std::time::{Clock, Duration};
use vmm_sys::epoll::{AsRawFd, ControlOperation, Epoll, EpollEvent, EventSet};
use vmm_sys::errno::Errno;
use vmm_sys::eventfd::EventFd;
use vmm_sys::line::Line;
use vmm_sys::poller::Poller;

/// What the tests on threads need of the runtime.
pub(crate) trait Host: Threads
    + Wait
    + Clock
    + AllocGlobal
    + Abort
    + Copy
    + Send
    + Sync
    + Drop
    + 'static {}

impl<R> Host for R
where
    R: Threads + Wait + Clock + AllocGlobal + Abort + Copy + Send + Sync + Drop + 'static,
{}

pub(crate) fn pause<R: Host>(rt: &R, ms: u64) {
    thread::sleep(rt, Duration::from_millis(ms));
}

pub(crate) const HIGHEST: u64 = 18446744073709551614;

pub(crate) const ADD: ControlOperation = ControlOperation::Add;

pub(crate) const MODIFY: ControlOperation = ControlOperation::Modify;

pub(crate) const DELETE: ControlOperation = ControlOperation::Delete;

/// A call after which a [`Fixture`] has one descriptor ready; with what of it is then ready, where there is a choice.
#[derive(Clone, Copy)]
pub(crate) enum Change {
    Add(EventSet),
    /// To `IN` or to `OUT`.
    Modify(EventSet),
    Write,
    Read,
    Set(EventSet),
}

/// Descriptors of a table in which nothing is ready: an empty counter and a line are wanted for `IN`, a full
/// counter for `OUT`, and a counter of 1 isn't wanted.
#[derive(Drop)]
pub(crate) struct Fixture {
    empty: EventFd,
    full: EventFd,
    line: Line,
    unwanted: EventFd,
}

impl Fixture {
    /// Those of a new table, and its poller.
    pub(crate) fn open<R: Host>(rt: &R) -> (Epoll<R>, Fixture) {
        let mut epoll = open_poller(rt);
        let fixture = Fixture {
            empty: wanted_counter(rt, &mut epoll, 0),
            full: open_counter(rt, &epoll, HIGHEST),
            line: wanted_line(rt, &mut epoll),
            unwanted: open_counter(rt, &epoll, 1),
        };
        want(rt, &mut epoll, &fixture.full, EventSet::OUT);
        (epoll, fixture)
    }

    /// Makes the call; the answer is the one entry that a wait then reports.
    pub(crate) fn make<R: Host>(&self, rt: &R, epoll: &mut Epoll<R>, change: Change) -> EpollEvent {
        match change {
            Change::Add(set) => {
                want(rt, epoll, &self.unwanted, set);
                entry(&self.unwanted, set)
            }
            Change::Modify(set) => {
                let counter = if set == EventSet::IN {
                    &self.full
                } else {
                    &self.empty
                };
                let event = entry(counter, set);
                expect_ok(rt, epoll.ctl(MODIFY, counter.as_raw_fd(), event));
                event
            }
            Change::Write => {
                expect_ok(rt, self.empty.write(1, rt));
                entry(&self.empty, EventSet::IN)
            }
            Change::Read => {
                expect_same(rt, &self.full.read(rt), &Ok(HIGHEST));
                entry(&self.full, EventSet::OUT)
            }
            Change::Set(set) => {
                expect_ok(rt, self.line.set(set, rt));
                entry(&self.line, set)
            }
        }
    }

    /// Takes back a change that isn't an addition, or a modification to `OUT`.
    pub(crate) fn take_back<R: Host>(&self, rt: &R, epoll: &mut Epoll<R>, change: Change) {
        match change {
            Change::Write => expect_same(rt, &self.empty.read(rt), &Ok(1)),
            Change::Read => expect_ok(rt, self.full.write(HIGHEST, rt)),
            Change::Set(_) => expect_ok(rt, self.line.set(EventSet::empty(), rt)),
            Change::Add(_) | Change::Modify(_) => {
                let event = entry(&self.full, EventSet::OUT);
                expect_ok(rt, epoll.ctl(MODIFY, self.full.as_raw_fd(), event));
            }
        }
    }

    /// Changes the line twice, of which nothing is ready.
    pub(crate) fn change_in_vain<R: Host>(&self, rt: &R) {
        expect_ok(rt, self.line.set(EventSet::OUT, rt));
        expect_ok(rt, self.line.set(EventSet::empty(), rt));
    }

    /// Makes calls of each kind that may be refused, and answers what they did.
    pub(crate) fn make_refused<R: Host>(&self, rt: &R, epoll: &mut Epoll<R>) -> [Option<Errno>; 7] {
        let none = no_event();
        let (empty, unwanted) = (self.empty.as_raw_fd(), self.unwanted.as_raw_fd());
        [
            self.empty.write(u64::MAX, rt).err(),
            self.full.write(1, rt).err(),
            self.empty.read(rt).err(),
            epoll.ctl(ADD, empty, none).err(),
            epoll.ctl(MODIFY, unwanted, none).err(),
            epoll.ctl(DELETE, 99, none).err(),
            EventFd::new(&*epoll, u64::MAX, rt).err(),
        ]
    }
}

pub(crate) fn no_event() -> EpollEvent {
    EpollEvent::new(EventSet::empty(), 0)
}

pub(crate) fn input(word: u64) -> EpollEvent {
    EpollEvent::new(EventSet::IN, word)
}

/// The entry of a descriptor, whose word is its number.
pub(crate) fn entry<D: AsRawFd>(descriptor: &D, set: EventSet) -> EpollEvent {
    EpollEvent::new(set, descriptor.as_raw_fd() as u64)
}

/// Adds an interest in a descriptor.
pub(crate) fn want<R: Host, D: AsRawFd>(
    rt: &R,
    epoll: &mut Epoll<R>,
    descriptor: &D,
    set: EventSet,
) {
    let event = entry(descriptor, set);
    expect_ok(rt, epoll.ctl(ADD, descriptor.as_raw_fd(), event));
}

/// A poller over a new table.
pub(crate) fn open_poller<R: Host>(rt: &R) -> Epoll<R> {
    expect_ok(rt, Epoll::new(*rt, rt.alloc()))
}

/// A new counter of this value.
pub(crate) fn open_counter<R: Host>(rt: &R, epoll: &Epoll<R>, value: u64) -> EventFd {
    expect_ok(rt, EventFd::new(epoll, value, rt))
}

pub(crate) fn open_line<R: Host>(rt: &R, epoll: &Epoll<R>) -> Line {
    expect_ok(rt, Line::new(epoll, rt))
}

/// A new counter of this value, which is wanted for `IN`.
pub(crate) fn wanted_counter<R: Host>(rt: &R, epoll: &mut Epoll<R>, value: u64) -> EventFd {
    let counter = open_counter(rt, epoll, value);
    want(rt, epoll, &counter, EventSet::IN);
    counter
}

/// A new line, which is wanted for `IN`.
pub(crate) fn wanted_line<R: Host>(rt: &R, epoll: &mut Epoll<R>) -> Line {
    let line = open_line(rt, epoll);
    want(rt, epoll, &line, EventSet::IN);
    line
}
