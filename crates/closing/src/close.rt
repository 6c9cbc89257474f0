//! What can be closed by a handle.

use channels::{Receiver, Sender};
use std::sync::Wait;
use std::time::Clock;
use timerfd::TimerFd;
use vmm_sys::counter::Counter;
use vmm_sys::eventfd::EventFd;
use vmm_sys::line::Line;

/// Something that a handle of type `R` closes: an [`EventFd`], a [`Line`], a [`TimerFd`], an end of a channel, or a type of your own.
pub trait Close<R> {
    /// Closes it; a refusal is passed over.
    fn close(self, rt: &R);
}

impl<R: Wait> Close<R> for EventFd {
    fn close(self, rt: &R) {
        EventFd::close(self, rt);
    }
}

impl<R: Wait> Close<R> for Line {
    fn close(self, rt: &R) {
        Line::close(self, rt);
    }
}

impl<R: Wait> Close<R> for TimerFd {
    fn close(self, rt: &R) {
        TimerFd::close(self, rt);
    }
}

/// A sender whose counter refuses the ring of the last close stays open.
impl<M: Drop, C: Counter + Drop, R: Wait + Clock> Close<R> for Sender<M, C> {
    fn close(self, rt: &R) {
        let _ = Sender::close(self, rt);
    }
}

/// The messages that wait are dropped, without the channel's lock.
impl<M: Drop, C: Counter + Drop, R: Wait + Clock> Close<R> for Receiver<M, C> {
    fn close(self, rt: &R) {
        let _ = Receiver::close(self, rt);
    }
}
