//! What an event is, by exactly its set.

ghost use Rattle.std.specs.Prelude.{◌≡◌};
ghost use Rattle.event_loop.specs.CounterEvents.{kind_of};

use crate::events::Events;
use vmm_sys::epoll::EventSet;

#[derive(Clone, Copy, PartialEq, Eq, Debug)]
pub(super) enum EventKind {
    Input,
    Error,
    HangUp,
    /// Any other set.
    Other,
}

impl EventKind {
    pub(super) fn of(events: Events) -> EventKind
        ensures { result ≡ kind_of events.set }
    {
        let set = events.event_set();
        if set == EventSet::IN {
            EventKind::Input
        } else if set == EventSet::ERROR {
            EventKind::Error
        } else if set == EventSet::HANG_UP {
            EventKind::HangUp
        } else {
            EventKind::Other
        }
    }
}
