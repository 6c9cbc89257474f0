//! A subscriber that is shared while it counts.

ghost use Rattle.std.specs.Prelude.{◌≡◌};
ghost use Rattle.event_loop.specs.SharedCounterSubscribers.{shared_begins, shared_serves};

use super::event_kind::EventKind;
use crate::error::{Error, Result};
use crate::events::Events;
use crate::ops::EventOps;
use crate::poller::EventPoller;
use crate::subscribers::EventSubscriber;
use std::sync::atomic::{AtomicBool, AtomicU64, Ordering};
use std::sync::{OnceLock, Wait};
use vmm_sys::epoll::{AsRawFd, EventSet};
use vmm_sys::eventfd::EventFd;

/// Counts the `IN` events of one `EventFd` in atomics, so that others may read them while a registry holds it, as in an `Arc`.
/// `init` adds the descriptor with `IN` and data 0. Nothing is claimed of its numbers.
#[derive(Drop)]
pub struct CounterInnerMutSubscriber {
    event_fd: EventFd,
    counter: AtomicU64,
    errors: AtomicU64,
    hung_up: AtomicBool,
    fault: OnceLock<Error>,
}

impl CounterInnerMutSubscriber {
    ghost use Rattle.event_loop.specs.SharedCounterSubscribers.{event_fd_of};

    /// A subscriber that has counted nothing.
    pub fn new(event_fd: EventFd) -> Self
        ensures { event_fd_of result ≡ event_fd }
    {
        CounterInnerMutSubscriber {
            event_fd,
            counter: AtomicU64::new(0),
            errors: AtomicU64::new(0),
            hung_up: AtomicBool::new(false),
            fault: OnceLock::new(),
        }
    }

    /// Writes 1 to the `EventFd`, which makes it ready for `IN`. Where it is full nothing changes.
    pub fn trigger_event<R: Wait>(&self, rt: &R) {
        let _ = self.event_fd.write(1, rt);
    }

    /// Reads the `EventFd`, which is then no longer ready for `IN`.
    pub fn clear_event<R: Wait>(&self, rt: &R) {
        let _ = self.event_fd.read(rt);
    }

    /// How many events had exactly the set `IN`; it wraps.
    pub fn counter(&self) -> u64 {
        self.counter.load(Ordering::SeqCst)
    }

    /// How many events had exactly the set `ERROR`, up to `u64::MAX`.
    pub fn errors(&self) -> u64 {
        self.errors.load(Ordering::SeqCst)
    }

    /// Always 0: an event whose set is neither `IN`, `ERROR` nor `HANG_UP` isn't counted.
    pub fn spurious(&self) -> u64
        ensures { result ≡ 0 }
    {
        0
    }

    /// Whether an event had exactly the set `HANG_UP`.
    pub fn hung_up(&self) -> bool {
        self.hung_up.load(Ordering::SeqCst)
    }

    /// The first refusal that a request of this subscriber met.
    pub fn fault(&self) -> Option<Error> {
        self.fault.get().copied()
    }

    /// Keeps a refusal, where there was none before; it waits for nobody.
    fn keep_fault(&self, answer: Result<()>) {
        if let Err(error) = answer {
            let _ = self.fault.try_set(error);
        }
    }
}

fn count_up(count: &AtomicU64) {
    let _ = count.fetch_update(Ordering::SeqCst, Ordering::SeqCst, |n| n.checked_add(1));
}

impl EventSubscriber for CounterInnerMutSubscriber {
    ghost begins_shared = { shared_begins };

    ghost serves_shared = { shared_serves };

    fn process<P: EventPoller>(&self, events: Events, ops: &mut EventOps<P>) {
        match EventKind::of(events) {
            EventKind::Input => {
                self.counter.fetch_add(1, Ordering::SeqCst);
            }
            EventKind::Error => count_up(&self.errors),
            EventKind::HangUp => {
                self.hung_up.store(true, Ordering::SeqCst);
                let answer = ops.remove(events);
                self.keep_fault(answer);
            }
            EventKind::Other => {}
        }
    }

    fn init<P: EventPoller>(&self, ops: &mut EventOps<P>) {
        let answer = ops.add(Events::new(&self.event_fd, EventSet::IN));
        self.keep_fault(answer);
    }
}
