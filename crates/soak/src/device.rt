//! The subscribers.

use event_manager::{EventOps, EventPoller, EventSet, Events, MutEventSubscriber, Request, Result};
use std::sync::Wait;
use vmm_sys::epoll::AsRawFd;
use vmm_sys::eventfd::EventFd;

/// Reads its two counters. At each event of the first it takes the second out, and puts it in again.
#[derive(Drop)]
pub struct Device<R> {
    /// One counter.
    pub first: EventFd,
    /// The other.
    pub second: EventFd,
    /// What it has read, up to `u64::MAX`.
    pub read: u64,
    /// How many jobs have counted themselves here, up to `u64::MAX`.
    pub jobs: u64,
    /// How many of its requests were refused, up to `u64::MAX`.
    pub refused: u64,
    /// Its handle.
    pub rt: R,
}

impl<R: Wait> Device<R> {
    /// Counts a job at this device.
    pub fn count_job(&mut self) {
        self.jobs = self.jobs.saturating_add(1);
    }

    fn value(&self, is_first: bool) -> u64 {
        let value = if is_first {
            self.first.read(&self.rt)
        } else {
            self.second.read(&self.rt)
        };
        value.unwrap_or(0)
    }

    fn note(&mut self, answers: (Result<()>, Result<()>)) {
        let refusals = answers.0.is_err() as u64 + answers.1.is_err() as u64;
        self.refused = self.refused.saturating_add(refusals);
    }
}

impl<R: Wait> MutEventSubscriber for Device<R> {
    ghost begins = { λ v exchanges w. Unit {0} };

    ghost serves = { λ v event exchanges w. Unit {0} };

    fn process<P: EventPoller>(&mut self, events: Events, ops: &mut EventOps<P>) {
        let is_first = events.fd() == self.first.as_raw_fd();
        self.read = self.read.saturating_add(self.value(is_first));
        if is_first {
            let own = Events::new(&self.second, EventSet::IN);
            self.note(ops.request_both(Request::Remove(own), Request::Add(own)));
        }
    }

    fn init<P: EventPoller>(&mut self, ops: &mut EventOps<P>) {
        let first = Events::new(&self.first, EventSet::IN);
        let second = Events::new(&self.second, EventSet::IN);
        self.note(ops.request_both(Request::Add(first), Request::Add(second)));
    }
}
