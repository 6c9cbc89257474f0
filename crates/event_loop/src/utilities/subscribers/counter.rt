//! A counter of events.

ghost use Rattle.std.specs.Prelude.{◌≡◌, Some, unsigned_abs};
ghost use Rattle.event_loop.specs.CounterEvents.{new_counter, one_more, counter_text, event_on};
ghost use Rattle.event_loop.specs.declared.utilities.subscribers.counter.Counter.{Counter};

use crate::events::Events;
use std::fmt;
use std::sync::Wait;
use vmm_sys::epoll::{AsRawFd, EventSet, RawFd};
use vmm_sys::eventfd::EventFd;

/// An `EventFd`, and how many events it had. It prints as `(event_fd = F, counter = N)`, F being its descriptor.
#[derive(Drop)]
pub struct Counter {
    event_fd: EventFd,
    counter: u64,
}

impl Counter {
    ghost use Rattle.event_loop.specs.CounterEvents.{count_of};

    /// A counter from 0.
    pub fn new(event_fd: EventFd) -> Self
        ensures { result ≡ new_counter event_fd }
    {
        Counter {
            event_fd,
            counter: 0,
        }
    }

    /// Writes 1 to the `EventFd`, which makes it ready for `IN`. Where it is full nothing changes.
    pub fn trigger_event<R: Wait>(&mut self, rt: &R)
        ensures { self.new ≡ self.old }
    {
        let _ = self.event_fd.write(1, rt);
    }

    /// Reads the `EventFd`, which is then no longer ready for `IN`.
    pub fn clear_event<R: Wait>(&self, rt: &R) {
        let _ = self.event_fd.read(rt);
    }

    /// How many events it had, up to `u64::MAX`.
    pub fn counter(&self) -> u64
        ensures { result ≡ count_of self.now }
    {
        self.counter
    }

    pub(super) fn count(&mut self)
        ensures { self.new ≡ one_more self.old }
    {
        self.counter = self.counter.saturating_add(1);
    }

    pub(super) fn input(&self, data: u32) -> Events
        ensures { result ≡ event_on self.now «data» }
    {
        Events::with_data(&self.event_fd, data, EventSet::IN)
    }
}

impl AsRawFd for Counter {
    ghost use Rattle.event_loop.specs.CounterEvents.{descriptor_of};

    ghost descriptor = { descriptor_of };

    fn as_raw_fd(&self) -> RawFd {
        self.event_fd.as_raw_fd()
    }
}

impl fmt::Display for Counter {
    ghost output = { λ c. Some (counter_text c) };

    fn fmt<W: fmt::Write>(&self, f: &mut fmt::Formatter<W>) -> fmt::Result {
        let fd = self.event_fd.as_raw_fd();
        let counter = self.counter;
        write!(f, "(event_fd = {fd}, counter = {counter})")
    }
}
