//! The loop's thread.

use crate::device::Device;
use crate::parts::Parts;
use crate::senders::{Load, Loader};
use crate::work::Work;
use event_manager::{
    Error, EventPoller, LoopWithSenders, NamedCounter, Result, Senders, SubscriberId,
    TrackedManager,
};
use std::alloc::Global;
use std::sync::Wait;
use std::time::Clock;

/// The most waits of the loop, each with the time limit 0, once its load has ended.
const MAX_LAST_WAITS: u32 = 1000;

/// The loop under load: each of its waits is without a limit, which would hide a lost wake-up.
#[derive(Clone, Copy)]
pub struct Served<'a> {
    /// What it is loaded with.
    pub parts: &'a Parts<'a>,
}

impl Served<'_> {
    /// Lets a device of each pair join.
    fn join<N: NamedCounter, P: EventPoller, R: Wait + Copy + Drop>(
        &self,
        rt: &R,
        alloc: Global,
        manager: &mut TrackedManager<Device<R>, Work<R>, N, P>,
    ) -> Result<Vec<SubscriberId>> {
        let mut ids = Vec::new(alloc);
        for pair in &self.parts.pairs {
            let device = pair.device(rt).map_err(Error::EventFd)?;
            ids.push(manager.add_subscriber(device)?)?;
        }
        Ok(ids)
    }
}

impl<'a, R: Wait + Clock + Copy + Drop> LoopWithSenders<Device<R>, Work<R>, Loader<'a>, R>
    for Served<'a> {
    fn begin<N: NamedCounter, P: EventPoller>(
        &mut self,
        rt: &R,
        alloc: Global,
        manager: &mut TrackedManager<Device<R>, Work<R>, N, P>,
    ) -> Result<Vec<Loader<'a>>> {
        let parts = self.parts;
        let ids = self.join(rt, alloc, manager)?;
        let Some(first) = ids.first().copied() else {
            return Err(Error::InvalidId);
        };
        let mut loaders = Vec::new(alloc);
        for load in [Load::Write, Load::Fire(ids), Load::Call(first)] {
            loaders.push(Loader { load, parts })?;
        }
        Ok(loaders)
    }

    fn run<N: NamedCounter, P: EventPoller>(
        &mut self,
        rt: &R,
        manager: &mut TrackedManager<Device<R>, Work<R>, N, P>,
        senders: &Senders,
    ) -> Result<()> {
        senders.run_until_ended(manager, rt)?;
        for _ in 0..MAX_LAST_WAITS {
            if manager.run_with_timeout(0, rt)? == 0 {
                break;
            }
        }
        Ok(())
    }
}
