//! Pollers, as the manager calls them.

ghost use Rattle.std.specs.Prelude.{◌≡◌, ◌≤◌, ◌<◌, ◌^◌, length, pos, IfOk};
ghost use Rattle.event_loop.specs.ReadyList.{report_of};
ghost use Rattle.event_loop.specs.PollerRelations as boxed;
ghost use Rattle.event_loop.specs.PollerRelations.{entry_of_event, WaitsBy};

use crate::events::Events;
use vmm_sys::epoll::{ControlOperation, EpollEvent};
use vmm_sys::errno::Errno;
use vmm_sys::poller::Poller;

/// A poller, as a manager calls it: each `vmm_sys` poller as it is, or one whose type isn't known in a [`BoxedPoller`]. Contracts
/// speak of it by its relations `controls` and `waits` alone, so they hold for every poller. Its calls have names of their own, so
/// that `ctl` and `wait` of a `vmm_sys` poller can be called where this trait is in use.
pub trait EventPoller {
    ghost use Rattle.std.specs.Prelude.{ℕ, ℤ, List, Result};
    ghost use Rattle.vmm_sys.specs.declared.errno.Errno.{Errno};
    ghost use Rattle.vmm_sys.specs.declared.entries.ControlOperation.{ControlOperation};
    ghost use Rattle.dispatch_tables.specs.Event.{Event};

    /// Which answer `control` may give, and which value it may leave, from a value, an operation, a descriptor and an event.
    ghost controls: { Self → ControlOperation → ℕ → Event → Result (Unit {0}) Errno → Self → Type 0 };

    /// Which report or refusal `poll` may give, and which value it may leave, from a value, the milliseconds and the capacity.
    ghost waits: { Self → ℤ → ℕ → Result (List Event) Errno → Self → Type 0 };

    /// Changes the interest in the descriptor `fd`, which is also the event's, but for a `Delete` when a subscriber leaves: its
    /// event has descriptor 0, data 0 and the empty set.
    fn control(&mut self, op: ControlOperation, fd: u32, event: Events) -> Result<(), Errno>
        requires { fd < 2 ^ 31 }
        ensures { controls self.old op fd event result self.new };

    /// Waits at most `ms` milliseconds (negative: without a limit; 0: not at all) for a report, writes its entries into the front
    /// of the buffer, and returns how many.
    fn poll(&mut self, ms: i32, buffer: &mut [EpollEvent]) -> Result<usize, Errno>
        ensures count_fits { IfOk result (λ n. n ≤ length buffer.old) }
        ensures answer { waits self.old ms (length buffer.old) (report_of result buffer.new) self.new };
}

/// A `vmm_sys` poller of any type, in a box that the caller makes where the type is known:
/// `let poller: Box<dyn Poller + Send> = Box::new(alloc, script)?;`. There is no `new`: the checker refuses a trait object of a
/// type that isn't known, as in a function that is generic over the poller or over the `R` of an `Epoll<R>`; such a function passes
/// its `Epoll<R>` unboxed.
#[derive(Drop)]
pub struct BoxedPoller(pub Box<dyn Poller + Send>);

impl EventPoller for BoxedPoller {
    ghost controls = { λ v op fd event r w. (w.0.vtable ≡ v.0.vtable) × boxed.controls (Poller-box v.0) ((Poller-box v.0).meaning v.0.value) op fd event r ((Poller-box w.0).meaning w.0.value) };

    ghost waits = { λ v ms capacity r w. (w.0.vtable ≡ v.0.vtable) × boxed.waits (Poller-box v.0) ((Poller-box v.0).meaning v.0.value) ms capacity r ((Poller-box w.0).meaning w.0.value) };

    fn control(&mut self, op: ControlOperation, fd: u32, event: Events) -> Result<(), Errno> {
        self.0.ctl(op, fd as i32, event.epoll_event())
    }

    fn poll(&mut self, ms: i32, buffer: &mut [EpollEvent]) -> Result<usize, Errno> {
        self.0.wait(ms, buffer)
    }
}

impl<T: Poller> EventPoller for T {
    ghost controls = { λ v op fd event r w. T.may_ctl (T.meaning v) op (pos fd) (entry_of_event event) r (T.meaning w) };

    ghost waits = { λ v ms capacity r w. WaitsBy T.may_wait (T.meaning v) ms capacity r (T.meaning w) };

    fn control(&mut self, op: ControlOperation, fd: u32, event: Events) -> Result<(), Errno> {
        self.ctl(op, fd as i32, event.epoll_event())
    }

    fn poll(&mut self, ms: i32, buffer: &mut [EpollEvent]) -> Result<usize, Errno> {
        self.wait(ms, buffer)
    }
}
