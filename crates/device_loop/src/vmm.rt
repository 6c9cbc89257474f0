//! What ends the machine.

use event_manager::{EventOps, EventPoller, EventSet, Events, MutEventSubscriber, Result};
use std::sync::Wait;
use vmm_sys::epoll::Epoll;
use vmm_sys::errno::Errno;
use vmm_sys::eventfd::EventFd;

/// Waits for the exit event, which a vCPU's thread writes when the guest has shut down.
#[derive(Drop)]
pub struct Vmm<R> {
    /// A virtual processor writes it by a handle of its own.
    pub exit: EventFd,
    has_exited: bool,
    // The answer to its request.
    asked: Result<()>,
    rt: R,
}

impl<R: Wait + Drop> Vmm<R> {
    /// One of a machine that runs, over a new exit event of this table. Refused as that is.
    pub fn new(epoll: &Epoll<R>, rt: R) -> std::result::Result<Self, Errno> {
        Ok(Vmm {
            exit: EventFd::new(epoll, 0, &rt)?,
            has_exited: false,
            asked: Ok(()),
            rt,
        })
    }
}

impl<R> Vmm<R> {
    /// Whether the machine is to end; or the refusal, where the exit event was refused.
    pub fn has_exited(&self) -> Result<bool> {
        self.asked.map(|()| self.has_exited)
    }
}

impl<R: Wait> MutEventSubscriber for Vmm<R> {
    ghost use Rattle.std.specs.Prelude.{◌≡◌, true, unsigned_abs};
    ghost use Rattle.event_manager.specs.Exchange.{AsksAndKeeps, AsksNothing};
    ghost use Rattle.event_manager.specs.Request.TheVariants.{Add};
    ghost use Rattle.vmm_sys.specs.EventFd.{descriptor_of};

    ghost begins = { λ v exchanges w. AsksAndKeeps (Add (record { fd = unsigned_abs (descriptor_of v.exit); payload = 0; set = 0x1 })) w.asked exchanges × (w ≡ record v { asked = w.asked }) };

    ghost serves = { λ v event exchanges w. AsksNothing exchanges × (w ≡ record v { has_exited = true }) };

    fn process<P: EventPoller>(&mut self, _events: Events, _ops: &mut EventOps<P>) {
        let _ = self.exit.read(&self.rt);
        self.has_exited = true;
    }

    fn init<P: EventPoller>(&mut self, ops: &mut EventOps<P>) {
        self.asked = ops.add(Events::new(&self.exit, EventSet::IN));
    }
}
