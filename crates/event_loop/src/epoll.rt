//! The registrations and the batch, beside the poller that keeps the interest list.

ghost use Rattle.std.specs.Prelude.{◌≡◌, [], ◌∷◌};
ghost use Rattle.event_loop.specs.PollerCall.{Control, Leads};
ghost use Rattle.event_loop.specs.Releasing.{HasReleased};

use crate::events::Events;
use crate::poller::EventPoller;
use crate::registration_state::RegistrationState;
use vmm_sys::epoll::ControlOperation;
use vmm_sys::errno::Errno;

/// The registrations, and the poller that has the interest list.
#[derive(Drop)]
pub struct EpollWrapper<P> {
    pub(crate) registrations: RegistrationState,
    pub(crate) poller: P,
}

impl<P: EventPoller> EpollWrapper<P> {
    pub(crate) fn ctl(
        &mut self,
        op: ControlOperation,
        events: Events,
    ) -> std::result::Result<(), Errno>
        ensures registrations { self.new.registrations ≡ self.old.registrations }
        ensures led { Leads P.controls P.waits self.old.poller (Control op events.fd events result ∷ []) self.new.poller }
    {
        self.poller.control(op, events.number(), events)
    }

    /// Asks the poller for one Delete for each descriptor of the id, whatever it answers. Takes no memory.
    pub(crate) fn release(&mut self, id: u64, place: usize)
        ensures { HasReleased P.controls P.waits self.old self.new id }
    {
        let fds = self.registrations.take_watched(id, place);
        for fd in &fds {
            let event = Events::empty_raw(0);
            let _ = self.poller.control(ControlOperation::Delete, *fd, event);
        }
        self.registrations.keep_room(place, fds);
    }
}
