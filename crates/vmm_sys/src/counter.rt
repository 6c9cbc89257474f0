//! What wakes a loop: a bell, and a counter that a poller watches.

ghost use Rattle.std.specs.Prelude.{ℕ, Result};
ghost use Rattle.vmm_sys.specs.declared.errno.Errno.{Errno};
ghost use Rattle.vmm_sys.specs.SharedTable.{AnswersOfSome};
ghost use Rattle.vmm_sys.specs.Table.{write_of, read_of};
ghost use Rattle.vmm_sys.specs.EventFd.{descriptor_of};

use crate::descriptors::AsRawFd;
use crate::errno::Errno;
use crate::eventfd::EventFd;
use std::sync::Wait;
use std::time::Clock;

/// What tells a loop that something waits.
pub trait Bell {
    /// Which answers a ring may give.
    ghost rings: { Self → Result (Unit {0}) Errno → Type 0 };

    /// Rings once: who waits on the other side is woken, or finds it rung at the next look.
    fn ring<R: Wait + Clock>(&self, rt: &R) -> std::result::Result<(), Errno>
        ensures { rings self.now result };
}

/// A bell with a descriptor: ready for `IN` from a ring on, until it is cleared. Linux's `eventfd` and an [`EventFd`] are such. In
/// a counter of your own ring and clear must each be one step, whatever threads call them, and neither may wait for the other.
pub trait Counter: AsRawFd + Bell {
    /// Which answers a clear may give.
    ghost clears: { Self → Result ℕ Errno → Type 0 };

    /// Takes the value (how often it was rung, where only rings change it), so that it isn't ready until the next ring.
    fn clear<R: Wait + Clock>(&self, rt: &R) -> std::result::Result<u64, Errno>
        ensures { clears self.now result };

    /// Gives this handle up; by default by its drop.
    fn close<R: Wait>(self, _rt: &R)
    where
        Self: Sized + Drop,
    {}
}

/// Rings by writing 1: `EAGAIN` where the value is 18446744073709551614.
impl Bell for EventFd {
    ghost rings = { λ event_fd answer. AnswersOfSome (λ t. write_of t (descriptor_of event_fd) 1) answer };

    fn ring<R: Wait + Clock>(&self, rt: &R) -> std::result::Result<(), Errno> {
        self.write(1, rt)
    }
}

/// Is cleared by a read: `EAGAIN` where the value is 0.
impl Counter for EventFd {
    ghost clears = { λ event_fd answer. AnswersOfSome (λ t. read_of t (descriptor_of event_fd)) answer };

    fn clear<R: Wait + Clock>(&self, rt: &R) -> std::result::Result<u64, Errno> {
        self.read(rt)
    }

    fn close<R: Wait>(self, rt: &R) {
        EventFd::close(self, rt);
    }
}
