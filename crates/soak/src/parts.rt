//! What the loop is loaded with.

use crate::device::Device;
use anyhow::Result;
use measures::host::Host;
use measures::progress::Progress;
use std::alloc::Global;
use std::sync::Wait;
use vmm_sys::epoll::Epoll;
use vmm_sys::errno::Errno;
use vmm_sys::eventfd::EventFd;

/// The number of devices.
pub const DEVICES: u32 = 4;

/// Two counters of the table.
pub struct Pair {
    first: EventFd,
    second: EventFd,
}

// Not derived: an owner's proof then has one call, instead of a drop of each field.
impl Drop for Pair {
    fn drop(self) {
        let Pair {
            first: _,
            second: _,
        } = self;
    }
}

impl Pair {
    /// Two counters with the value 0.
    pub fn new<R: Host>(epoll: &Epoll<R>, rt: &R) -> Result<Pair> {
        Ok(Pair {
            first: EventFd::new(epoll, 0, rt)?,
            second: EventFd::new(epoll, 0, rt)?,
        })
    }

    /// A device over them. Refused as a copy of a counter is.
    pub fn device<R: Wait + Copy>(&self, rt: &R) -> std::result::Result<Device<R>, Errno> {
        Ok(Device {
            first: self.first.try_clone()?,
            second: self.second.try_clone()?,
            read: 0,
            jobs: 0,
            refused: 0,
            rt: *rt,
        })
    }

    /// Writes 1 to each.
    pub fn write<R: Wait>(&self, rt: &R) -> Result<()> {
        self.first.write(1, rt)?;
        self.second.write(1, rt)?;
        Ok(())
    }

    /// Takes what nobody has read.
    pub fn rest<R: Wait>(&self, rt: &R) -> u64 {
        let first = self.first.read(rt).unwrap_or(0);
        let second = self.second.read(rt).unwrap_or(0);
        first.saturating_add(second)
    }
}

/// What the loop is loaded with.
#[derive(Drop)]
pub struct Parts<'a> {
    /// The counters of the guest.
    pub guest: Pair,
    /// The counters of each device.
    pub pairs: Vec<Pair>,
    /// The number of rounds.
    pub rounds: u32,
    /// Where the threads that load it note how far they have come.
    pub progress: &'a Progress,
}

impl<'a> Parts<'a> {
    /// New ones, of this table.
    pub fn new<R: Host>(
        epoll: &Epoll<R>,
        alloc: Global,
        rounds: u32,
        progress: &'a Progress,
        rt: &R,
    ) -> Result<Parts<'a>> {
        let mut pairs = Vec::new(alloc);
        for _ in 0..DEVICES {
            pairs.push(Pair::new(epoll, rt)?)?;
        }
        Ok(Parts {
            guest: Pair::new(epoll, rt)?,
            pairs,
            rounds,
            progress,
        })
    }
}
