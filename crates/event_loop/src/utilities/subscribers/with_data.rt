//! A subscriber with three counters, told apart by data.

ghost use Rattle.std.specs.Prelude.{◌≡◌, ◌≤◌, false, List, [], ◌∷◌, IfOk, IfErr};
ghost use Rattle.event_loop.specs.Exchange.{Exchanges, requests_of};
ghost use Rattle.event_loop.specs.PollerCall.{PollerCall};
ghost use Rattle.event_loop.specs.Requests.{AreMadeThrough};
ghost use Rattle.event_loop.specs.CounterEvents.{kind_of, nothing_observed};

use super::counter::Counter;
use super::event_kind::EventKind;
use super::observations::Observations;
use crate::error::{Error, Result};
use crate::events::{Events, Request};
use crate::ops::EventOps;
use crate::poller::EventPoller;
use crate::subscribers::MutEventSubscriber;
use std::alloc::Global;
use std::sync::Wait;
use vmm_sys::eventfd::EventFd;

/// Counts the `IN` events of three [`Counter`]s, whose data are `first_data` and the two numbers after it. `init` adds the three
/// with `IN` and their data. Once [`set_toggle_registry`](CounterSubscriberWithData::set_toggle_registry) has set the toggle, the
/// next `process`, whatever its event, first clears it, removes all three descriptors and adds them again.
#[derive(Drop)]
pub struct CounterSubscriberWithData {
    first: Counter,
    second: Counter,
    third: Counter,
    first_data: u32,
    toggle_registry: bool,
    observations: Observations,
    alloc: Global,
    ghost data_fits: { first_data ≤ 4294967293 },
}

impl CounterSubscriberWithData {
    ghost use Rattle.event_loop.specs.DataCounterSubscribers.{event_fds_of, first_data_of, is_toggled, counts_of, with_toggle, observed_with_data, events_wanted, renewal, with_renewal, with_event_counted, data_row};

    /// A subscriber that has counted nothing; `alloc` is for `get_all_counter_values`.
    pub fn new(alloc: Global, event_fds: [EventFd; 3], first_data: u32) -> Self
        requires { first_data ≤ 4294967293 }
        ensures event_fds { event_fds_of result ≡ event_fds }
        ensures data { first_data_of result ≡ first_data }
        ensures counts { counts_of result ≡ 0 ∷ 0 ∷ 0 ∷ [] }
        ensures toggle { is_toggled result ≡ false }
        ensures observed { observed_with_data result ≡ nothing_observed }
    {
        let [first, second, third] = event_fds;
        CounterSubscriberWithData {
            first: Counter::new(first),
            second: Counter::new(second),
            third: Counter::new(third),
            first_data,
            toggle_registry: false,
            observations: Observations::new(),
            alloc,
        }
    }

    /// Triggers all three counters.
    pub fn trigger_all_counters<R: Wait>(&mut self, rt: &R)
        ensures { self.new ≡ self.old }
    {
        self.first.trigger_event(rt);
        self.second.trigger_event(rt);
        self.third.trigger_event(rt);
    }

    /// How many events each counter had, in order. `OutOfMemory`: memory was refused.
    pub fn get_all_counter_values(&self) -> Result<Vec<u64>>
        ensures counts { IfOk result (λ counts. counts.items ≡ counts_of self.now) }
        ensures refusal { IfErr result (λ e. e ≡ Error.OutOfMemory) }
    {
        let (first, second, third) = (&self.first, &self.second, &self.third);
        Ok(vec![in self.alloc; first.counter(), second.counter(), third.counter()]?)
    }

    /// Sets or clears the toggle.
    pub fn set_toggle_registry(&mut self, toggle: bool)
        ensures { self.new ≡ with_toggle toggle self.old }
    {
        self.toggle_registry = toggle;
    }

    /// How many events had exactly the set `ERROR`, up to `u64::MAX`.
    pub fn errors(&self) -> u64
        ensures { result ≡ (observed_with_data self.now).errors }
    {
        self.observations.errors
    }

    /// How many `IN` events had data of none of the counters, up to `u64::MAX`.
    pub fn spurious(&self) -> u64
        ensures { result ≡ (observed_with_data self.now).spurious }
    {
        self.observations.spurious
    }

    /// Whether an event had exactly the set `HANG_UP`.
    pub fn hung_up(&self) -> bool
        ensures { result ≡ (observed_with_data self.now).hung_up }
    {
        self.observations.hung_up
    }

    /// The first refusal that a request of this subscriber met.
    pub fn fault(&self) -> Option<Error>
        ensures { result ≡ (observed_with_data self.now).fault }
    {
        self.observations.fault
    }

    fn wanted(&self) -> [Events; 3]
        ensures { result ≡ events_wanted self.now }
    {
        [
            self.first.input(self.first_data),
            self.second.input(self.first_data + 1),
            self.third.input(self.first_data + 2),
        ]
    }

    fn renew<P: EventPoller>(&mut self, ops: &mut EventOps<P>)
        ensures { (exchanges : Exchanges) × (calls : List PollerCall) × (requests_of exchanges ≡ renewal self.old)
            × (self.new ≡ with_renewal exchanges self.old) × AreMadeThrough P.controls P.waits ops.old ops.new exchanges calls }
    {
        if !self.toggle_registry {
            return;
        }
        self.toggle_registry = false;
        let [first, second, third] = self.wanted();
        let answer = ops.request_all(&[
            Request::Remove(first),
            Request::Remove(second),
            Request::Remove(third),
            Request::Add(first),
            Request::Add(second),
            Request::Add(third),
        ]);
        self.observations.keep_first_fault(answer);
    }

    fn count(&mut self, data: u32)
        ensures { self.new ≡ with_event_counted «data» self.old }
    {
        if data == self.first_data {
            self.first.count();
        } else if data == self.first_data + 1 {
            self.second.count();
        } else if data == self.first_data + 2 {
            self.third.count();
        } else {
            self.observations.count_spurious();
        }
    }

    fn serve<P: EventPoller>(&mut self, events: Events, ops: &mut EventOps<P>)
        ensures { (exchanges : Exchanges) × (calls : List PollerCall) × data_row (kind_of events.set) self.old events exchanges self.new
            × AreMadeThrough P.controls P.waits ops.old ops.new exchanges calls }
    {
        match EventKind::of(events) {
            EventKind::Input => self.count(events.data()),
            EventKind::Error => self.observations.count_error(),
            EventKind::HangUp => {
                let answer = ops.remove(events);
                self.observations.hang_up(answer);
            }
            EventKind::Other => {}
        }
    }
}

impl MutEventSubscriber for CounterSubscriberWithData {
    ghost use Rattle.event_loop.specs.DataCounterSubscribers.{data_begins, data_serves};

    ghost begins = { data_begins };

    ghost serves = { data_serves };

    fn process<P: EventPoller>(&mut self, events: Events, ops: &mut EventOps<P>) {
        self.renew(ops);
        self.serve(events, ops);
    }

    fn init<P: EventPoller>(&mut self, ops: &mut EventOps<P>) {
        let [first, second, third] = self.wanted();
        let answer = ops.request_all(&[
            Request::Add(first),
            Request::Add(second),
            Request::Add(third),
        ]);
        self.observations.keep_first_fault(answer);
    }
}
