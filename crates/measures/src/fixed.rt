//! The poller of the measures without descriptors.

use std::alloc::{AllocError, Global};
use vmm_sys::epoll::{ControlOperation, EpollEvent, EventSet, RawFd};
use vmm_sys::errno::Errno;
use vmm_sys::poller::Poller;

/// The lowest descriptor that is reported.
pub const FIRST: u16 = 10;

/// The number of entries in a whole batch.
pub const BATCH: u32 = 256;

/// Accepts each change and keeps nothing; each wait returns at once with one fixed report, or as much of its front as fits.
#[derive(Drop)]
pub struct Fixed {
    report: Vec<EpollEvent>,
}

impl Fixed {
    /// Reports the first `count` of the descriptors from 10 up, each for `IN`.
    pub fn first(count: u32, alloc: Global) -> Result<Fixed, AllocError> {
        Fixed::every(1, count, count, alloc)
    }

    /// Reports 256 entries, spread evenly over `count` descriptors from 10 up, each for `IN`.
    pub fn spread(count: u32, alloc: Global) -> Result<Fixed, AllocError> {
        Fixed::every((count / BATCH).max(1), BATCH, count, alloc)
    }

    fn every(stride: u32, entries: u32, among: u32, alloc: Global) -> Result<Fixed, AllocError> {
        let among = among.max(1);
        let mut report = Vec::new(alloc);
        for k in 0..entries {
            let fd = FIRST as u64 + (k.wrapping_mul(stride) % among) as u64;
            report.push(EpollEvent::new(EventSet::IN, fd))?;
        }
        Ok(Fixed { report })
    }
}

impl Poller for Fixed {
    ghost use base.Stored.{gnil};
    ghost use Rattle.std.specs.Prelude.{◌≡◌, IsOk, Ok};

    ghost meaning = { λ v. gnil };

    ghost may_ctl = { λ v op fd event r w. IsOk r };

    ghost may_wait = { λ v ms room r entries w. IsOk r };

    fn ctl(&mut self, _op: ControlOperation, _fd: RawFd, _event: EpollEvent) -> Result<(), Errno> {
        Ok(())
    }

    fn wait(&mut self, _ms: i32, buffer: &mut [EpollEvent]) -> Result<usize, Errno> {
        let count = self.report.len().min(buffer.len());
        buffer[..count].copy_from_slice(&self.report[..count]);
        Ok(count)
    }
}
