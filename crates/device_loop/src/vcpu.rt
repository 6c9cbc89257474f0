//! The thread of a virtual processor, on which the guest's drivers run.

use crate::fault::Fault;
use crate::net::Net;
use crate::ring::{BlockRequest, Ring, RingName};
use crate::shared::Shared;
use event_manager::{Error, Locked};
use std::sync::{Arc, Mutex, Wait};
use vmm_sys::eventfd::EventFd;

/// The sectors that are read when the guest boots, while the block device is paused, and when the guest is shut down.
const FIRST: [u64; 6] = [7, 3, 9, 1, 8, 2];

const LATER: [u64; 3] = [6, 5, 4];

const LAST: [u64; 2] = [10, 11];

/// What the driver of a block device uses.
#[derive(Drop)]
pub struct BlockDriver<Q: RingName> {
    /// The ring, which the device has too.
    pub ring: Arc<Mutex<Ring<Q>>>,
    /// Its handle on the device's queue.
    pub queue: EventFd,
}

impl<Q: RingName> BlockDriver<Q> {
    fn read<W: Wait>(&self, sectors: &[u64], rt: &W) -> Result<(), Fault> {
        {
            let mut ring = self.ring.lock(rt);
            for sector in sectors {
                ring.queue(BlockRequest { sector: *sector })
                    .map_err(Error::from)?;
            }
        }
        self.queue.write(1, rt)?;
        Ok(())
    }
}

/// What a virtual processor uses.
#[derive(Drop)]
pub struct Vcpu<'a, Q: RingName, R> {
    /// The network device, which the loop has too.
    pub net: Arc<Locked<Net<R>, R>>,
    /// The driver's handle on that device's queue.
    pub queue: EventFd,
    /// The driver of the block device.
    pub block: BlockDriver<Q>,
    /// The exit event.
    pub exit: EventFd,
    /// What the threads share.
    pub shared: &'a Shared<R>,
}

impl<Q: RingName, R: Wait + Drop> Vcpu<'_, Q, R> {
    fn boot<W: Wait>(&self, rt: &W) -> Result<(), Fault> {
        self.net.mutex.lock(rt).activate()?;
        self.queue.write(3, rt)?;
        self.block.read(&FIRST, rt)
    }

    /// Boots, reads while the block device is paused, and reads and exits once it is to shut down, whatever came of that.
    pub fn run<W: Wait>(self, rt: &W) -> Result<(), Fault> {
        let booted = self.boot(rt);
        let _ = self.shared.has_booted.set(rt, booted.is_ok());
        let _ = self.shared.is_paused.wait(rt);
        let read = self.block.read(&LATER, rt);
        let _ = self.shared.has_read.set(rt, read.is_ok());
        let _ = self.shared.is_to_shut_down.wait(rt);
        let read_last = self.block.read(&LAST, rt);
        self.exit.write(1, rt)?;
        booted?;
        read?;
        read_last
    }
}
