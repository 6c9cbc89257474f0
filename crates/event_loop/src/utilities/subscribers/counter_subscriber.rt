//! A subscriber with one counter.

ghost use Rattle.std.specs.Prelude.{◌≡◌};
ghost use Rattle.event_loop.specs.CounterEvents.{new_counter, nothing_observed};
ghost use Rattle.event_loop.specs.CounterSubscribers.{counter_begins, counter_serves};

use super::counter::Counter;
use super::event_kind::EventKind;
use super::observations::Observations;
use crate::error::Error;
use crate::events::Events;
use crate::ops::EventOps;
use crate::poller::EventPoller;
use crate::subscribers::MutEventSubscriber;
use std::ops::{Deref, DerefMut};
use vmm_sys::eventfd::EventFd;

/// Counts the `IN` events of one [`Counter`], which it lends by `Deref`. `init` adds its descriptor with `IN` and data 0.
#[derive(Drop)]
pub struct CounterSubscriber {
    counter: Counter,
    observations: Observations,
}

impl CounterSubscriber {
    ghost use Rattle.event_loop.specs.CounterSubscribers.{observed_by_counter, made_counter};

    /// A subscriber with a counter from 0, that has observed nothing.
    pub fn new(event_fd: EventFd) -> Self
        ensures { result ≡ made_counter event_fd }
    {
        CounterSubscriber {
            counter: Counter::new(event_fd),
            observations: Observations::new(),
        }
    }

    /// How many events had exactly the set `ERROR`, up to `u64::MAX`.
    pub fn errors(&self) -> u64
        ensures { result ≡ (observed_by_counter self.now).errors }
    {
        self.observations.errors
    }

    /// How many events had a set that is neither `IN`, `ERROR` nor `HANG_UP`, up to `u64::MAX`.
    pub fn spurious(&self) -> u64
        ensures { result ≡ (observed_by_counter self.now).spurious }
    {
        self.observations.spurious
    }

    /// Whether an event had exactly the set `HANG_UP`.
    pub fn hung_up(&self) -> bool
        ensures { result ≡ (observed_by_counter self.now).hung_up }
    {
        self.observations.hung_up
    }

    /// The first refusal that a request of this subscriber met.
    pub fn fault(&self) -> Option<Error>
        ensures { result ≡ (observed_by_counter self.now).fault }
    {
        self.observations.fault
    }
}

impl Deref for CounterSubscriber {
    type Target = Counter;

    ghost use Rattle.event_loop.specs.CounterSubscribers.{counter_in};

    ghost deref_gives = { λ v counter. counter ≡ counter_in v };

    fn deref(&self) -> &Counter {
        &self.counter
    }
}

impl DerefMut for CounterSubscriber {
    ghost use Rattle.std.specs.Borrow.{sem, Lends};
    ghost use Rattle.event_loop.specs.contracts.utilities.subscribers.counter.Counter.{the_row as the_counter_row};
    ghost use Rattle.event_loop.specs.contracts.utilities.subscribers.counter_subscriber.CounterSubscriber.{the_row};
    ghost use Rattle.event_loop.specs.CounterSubscribers.{counter_in, with_counter};

    ghost deref_mut_gives = { λ v counter. counter ≡ counter_in v };

    fn deref_mut(&mut self) -> &mut Counter
        ensures* writes_back { sem 𝓛 (Lends the_row the_counter_row self.entry result (with_counter self.old)) }
        ensures shows { result.now ≡ counter_in self.old }
    {
        &mut self.counter
    }
}

impl MutEventSubscriber for CounterSubscriber {
    ghost begins = { counter_begins };

    ghost serves = { counter_serves };

    fn process<P: EventPoller>(&mut self, events: Events, ops: &mut EventOps<P>) {
        match EventKind::of(events) {
            EventKind::Input => self.counter.count(),
            EventKind::Error => self.observations.count_error(),
            EventKind::HangUp => {
                let answer = ops.remove(events);
                self.observations.hang_up(answer);
            }
            EventKind::Other => self.observations.count_spurious(),
        }
    }

    fn init<P: EventPoller>(&mut self, ops: &mut EventOps<P>) {
        let answer = ops.add(self.counter.input(0));
        self.observations.keep_fault(answer);
    }
}
