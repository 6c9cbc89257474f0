//! The interface of a poller.

ghost use Rattle.std.specs.Prelude.{ℕ, ℤ, ◌≤◌, length, List, IfOk, Result};
ghost use base.Stored.{Gv};
ghost use Rattle.vmm_sys.specs.Poller.{reported};
ghost use Rattle.vmm_sys.specs.declared.entries.ControlOperation.{ControlOperation};
ghost use Rattle.vmm_sys.specs.declared.entries.EpollEvent.{EpollEvent};
ghost use Rattle.vmm_sys.specs.declared.errno.Errno.{Errno};

use crate::descriptors::RawFd;
use crate::entries::{ControlOperation, EpollEvent};
use crate::errno::Errno;

/// Keeps an interest list, and reports which of its descriptors have something. Each type of poller states two relations between
/// its states and answers. Through a `dyn Poller` the state is seen as a tree of numbers, its meaning; a call keeps the relations.
pub trait Poller: Drop {
    /// The state.
    ghost meaning: { Self → Gv };

    /// From a state: which answer `ctl` may give, and which state it may leave.
    ghost may_ctl: { Gv → ControlOperation → ℤ → EpollEvent → Result (Unit {0}) Errno → Gv → Type 0 };

    /// From a state, with a time limit and a room: which answer and entries `wait` may give, and which state it may leave.
    ghost may_wait: { Gv → ℤ → ℕ → Result ℕ Errno → List EpollEvent → Gv → Type 0 };

    /// Changes the interest in `fd`. For `Delete` the event has no effect.
    fn ctl(&mut self, op: ControlOperation, fd: RawFd, event: EpollEvent) -> Result<(), Errno>
        ensures { may_ctl (meaning self.old) op fd event result (meaning self.new) };

    /// Writes a report into the front of the buffer, and returns the number of its entries; past them the buffer may hold anything.
    /// `ms` limits the wait: where it is negative there is no limit, where it is 0 no wait, otherwise it is milliseconds.
    fn wait(&mut self, ms: i32, buffer: &mut [EpollEvent]) -> Result<usize, Errno>
        ensures count_fits { IfOk result (λ n. n ≤ length buffer.old) }
        ensures answer { may_wait (meaning self.old) ms (length buffer.old) result (reported result buffer.new)
            (meaning self.new) };
}
