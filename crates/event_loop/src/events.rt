//! Events, and requests as values.

ghost use Rattle.std.specs.Prelude.{◌≡◌, ◌≤ℤ◌, ◌<◌, ◌^◌, pos, unsigned_abs, IsTrue, ◌↔◌};
ghost use Rattle.dispatch_tables.specs.Event.{event_of_entry};
ghost use Rattle.event_loop.specs.PollerRelations.{entry_of_event};
ghost use Rattle.vmm_sys.specs.EventSet.{bits_of};

use crate::error::Error;
use dispatch_tables::priority::Priority;
use std::marker::Model;
use vmm_sys::epoll::{AsRawFd, EpollEvent, EventSet, RawFd};

/// A descriptor from 0 up, 32 bits of data, and a set of events; packed as the word `data * 2^32 + fd`. A subscriber gets it in
/// `process`, and gives it to an [`EventOps`](crate::EventOps). Two are equal where all three parts are.
#[derive(Clone, Copy, PartialEq, Eq, Debug)]
pub struct Events {
    inner: EpollEvent,
}

impl Model for Events {
    ghost use Rattle.std.specs.Prelude.{◌<◌, ◌^◌};
    ghost use Rattle.std.proofs.Common.{ap};
    ghost use Rattle.vmm_sys.specs.EpollEvent.{word_of, low_half, set_of, event, word_of_halves-whole};
    ghost use Rattle.dispatch_tables.specs.Event.{Event, event_of_entry};
    ghost use Rattle.event_loop.specs.PollerRelations.{entry_of_event};

    ghost Value = { Event };

    ghost view = { λ e. event_of_entry e.inner };

    ghost invariant = { λ e. low_half e.inner < 2 ^ 31 };

    ghost inverse = { λ e. record { inner = entry_of_event e } };

    ghost inverse_ok = { λ e h. ap (λ w. record { inner = event (set_of e.inner) w }) (word_of_halves-whole (word_of e.inner)) };
}

impl Events {
    /// The event of a descriptor from 0 up, with the empty set and data 0.
    pub fn empty_raw(fd: RawFd) -> Self
        requires { pos 0 ≤ℤ fd }
        ensures { result ≡ record { fd = unsigned_abs fd; payload = 0; set = 0 } }
    {
        Events::with_data_raw(fd, 0, EventSet::empty())
    }

    /// The event of a source's descriptor, with the empty set and data 0.
    pub fn empty<T: AsRawFd>(source: &T) -> Self
        ensures { result ≡ record { fd = unsigned_abs (T.descriptor source.now); payload = 0; set = 0 } }
    {
        Events::empty_raw(source.as_raw_fd())
    }

    /// The event of a descriptor from 0 up, with this set and data 0.
    pub fn new_raw(fd: RawFd, events: EventSet) -> Self
        requires { pos 0 ≤ℤ fd }
        ensures { result ≡ record { fd = unsigned_abs fd; payload = 0; set = bits_of events } }
    {
        Events::with_data_raw(fd, 0, events)
    }

    /// The event of a source's descriptor, with this set and data 0.
    pub fn new<T: AsRawFd>(source: &T, events: EventSet) -> Self
        ensures { result ≡ record { fd = unsigned_abs (T.descriptor source.now); payload = 0; set = bits_of events } }
    {
        Events::new_raw(source.as_raw_fd(), events)
    }

    /// The event of a descriptor from 0 up, with this set and data.
    pub fn with_data_raw(fd: RawFd, data: u32, events: EventSet) -> Self
        requires { pos 0 ≤ℤ fd }
        ensures { result ≡ record { fd = unsigned_abs fd; payload = «data»; set = bits_of events } }
    {
        Events {
            inner: EpollEvent::packed(events, fd as u32, data),
        }
    }

    /// The event of a source's descriptor, with this set and data.
    pub fn with_data<T: AsRawFd>(source: &T, data: u32, events: EventSet) -> Self
        ensures { result ≡ record { fd = unsigned_abs (T.descriptor source.now); payload = «data»; set = bits_of events } }
    {
        Events::with_data_raw(source.as_raw_fd(), data, events)
    }

    pub(crate) fn of_entry(entry: &EpollEvent) -> Self
        requires { (event_of_entry entry.now).fd < 2 ^ 31 }
        ensures { result ≡ event_of_entry entry.now }
    {
        Events { inner: *entry }
    }

    /// The descriptor, from 0 up.
    pub fn fd(&self) -> RawFd
        ensures { result ≡ pos self.now.fd }
    {
        self.inner.fd()
    }

    pub(crate) fn number(&self) -> u32
        ensures value { result ≡ self.now.fd }
        ensures is_descriptor { result < 2 ^ 31 }
    {
        self.inner.low_half()
    }

    /// The data.
    pub fn data(&self) -> u32
        ensures { result ≡ self.now.payload }
    {
        self.inner.high_half()
    }

    /// The set.
    pub fn event_set(&self) -> EventSet
        ensures { bits_of result ≡ self.now.set }
    {
        self.inner.event_set()
    }

    /// The event as a poller gets it: the set, and the packed word.
    pub fn epoll_event(&self) -> EpollEvent
        ensures { result ≡ entry_of_event self.now }
    {
        self.inner
    }
}

/// Whether descriptor, data and set are equal; so equality is an equivalence.
pub fn events_are_equal(a: &Events, b: &Events) -> bool
    ensures { IsTrue result ↔ (a.now ≡ b.now) }
{
    // Read, so that the prover knows of each that its descriptor is one from 0 up.
    let _first = &a.inner;
    let _second = &b.inner;
    a == b
}

/// A request of a subscriber, as a value.
#[derive(Clone, Copy, PartialEq, Eq, Debug)]
pub enum Request {
    /// [`EventOps::add`](crate::EventOps::add).
    Add(Events),
    /// [`EventOps::add_with_priority`](crate::EventOps::add_with_priority).
    AddWithPriority(Events, Priority),
    /// [`EventOps::modify`](crate::EventOps::modify).
    Modify(Events),
    /// [`EventOps::remove`](crate::EventOps::remove).
    Remove(Events),
}

/// The first request of a list that was refused, as [`EventOps::request_all`](crate::EventOps::request_all) returns it.
#[derive(Clone, Copy, PartialEq, Eq, Debug)]
pub struct RefusedRequest {
    /// Its index in the list, from 0.
    pub index: usize,
    /// Why it was refused.
    pub error: Error,
}

impl From<RefusedRequest> for Error {
    ghost from_gives = { λ refused error. error ≡ refused.error };

    fn from(refused: RefusedRequest) -> Error {
        refused.error
    }
}
