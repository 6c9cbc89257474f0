//! The guest, who has the other ends of the devices' descriptors.

use crate::device::Device;
use event_manager::{EventSet, Events};
use std::sync::Wait;
use std::time::Clock;
use vmm_sys::epoll::Epoll;
use vmm_sys::errno::Errno;
use vmm_sys::eventfd::EventFd;
use vmm_sys::line::Line;

/// What the guest does before a run of the loop.
#[derive(Clone, Copy)]
pub struct Deed {
    /// Its name.
    pub name: &'static str,
    // How often either queue is kicked.
    kicks: (u64, u64),
    // The state of the console's line from then on.
    line: EventSet,
}

/// What the guest does.
pub const DEEDS: [Deed; 5] = [
    Deed {
        name: "kick of the first queue",
        kicks: (1, 0),
        line: EventSet::OUT,
    },
    Deed {
        name: "kicks of both queues",
        kicks: (1, 1),
        line: EventSet::OUT,
    },
    Deed {
        name: "input",
        kicks: (0, 0),
        line: EventSet::IN,
    },
    Deed {
        name: "hang-up",
        kicks: (0, 0),
        line: EventSet::HANG_UP,
    },
    Deed {
        name: "late input",
        kicks: (0, 0),
        line: EventSet::IN,
    },
];

/// Who acts on the devices' descriptors before each run of the loop.
pub trait Guest {
    /// Does this.
    fn act(&self, deed: &Deed) -> Result<(), Errno>;
}

/// The guest of a run in production.
#[derive(Drop)]
pub struct Present<R> {
    first: EventFd,
    second: EventFd,
    line: Line,
    rt: R,
}

impl<R: Wait + Clock + Clone + Send + Drop> Present<R> {
    /// Opens the descriptors. `EMFILE`, `ENOMEM`.
    pub fn new(epoll: &Epoll<R>, rt: R) -> Result<Self, Errno> {
        Ok(Present {
            first: EventFd::new(epoll, 0, &rt)?,
            second: EventFd::new(epoll, 0, &rt)?,
            line: Line::new(epoll, &rt)?,
            rt,
        })
    }

    /// A device with two queues, which wants this of the second one, and a console.
    pub fn devices(&self, of_second: EventSet) -> (Device, Device) {
        let first = Events::new(&self.first, EventSet::IN);
        let second = Events::with_data(&self.second, 1, of_second);
        let line = Events::new(&self.line, EventSet::IN);
        (Device::new(first, Some(second)), Device::new(line, None))
    }
}

impl<R: Wait> Guest for Present<R> {
    fn act(&self, deed: &Deed) -> Result<(), Errno> {
        // Kicks that were served are taken back, so that they aren't reported again.
        let _ = self.first.read(&self.rt);
        let _ = self.second.read(&self.rt);
        self.first.write(deed.kicks.0, &self.rt)?;
        self.second.write(deed.kicks.1, &self.rt)?;
        self.line.set(deed.line, &self.rt)
    }
}

/// Nobody: what the guest in production brought about stands in the record.
pub struct Absent;

impl Guest for Absent {
    fn act(&self, _deed: &Deed) -> Result<(), Errno> {
        Ok(())
    }
}
