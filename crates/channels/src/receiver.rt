//! The receiving end.

ghost use Rattle.std.specs.Prelude.{◌≡◌, ◌++◌, List, OnErr};

use crate::shared::{self, Shared};
use std::alloc::AllocError;
use std::sync::{Arc, Wait};
use std::time::Clock;
use vmm_sys::counter::Counter;
use vmm_sys::epoll::{AsRawFd, RawFd};
use vmm_sys::eventfd::EventFd;

/// Takes the messages of a channel. Its descriptor is ready for `IN` exactly while messages wait, and once all senders have closed.
///
/// A drop doesn't close it: sends are still agreed to, and what waits is dropped with the last sender. The descriptor is closed
/// where the last of all ends calls `close`.
#[derive(Drop)]
pub struct Receiver<M, C = EventFd> {
    pub(crate) shared: Arc<Shared<M, C>>,
}

impl<M: Drop, C: Counter + Drop> Receiver<M, C> {
    /// Moves all messages that wait behind what the list has, in the order in which they were sent. Refused where the list gets no
    /// memory; then all of them wait still.
    pub fn take<R: Wait + Clock>(&mut self, into: &mut Vec<M>, rt: &R) -> Result<(), AllocError>
        ensures behind { (taken : List M) × (into.new.items ≡ into.old.items ++ taken) }
        ensures refused { OnErr result (into.new.items ≡ into.old.items) }
        ensures same { self.new ≡ self.old }
    {
        let shared = &*self.shared;
        let mut signal = shared.signal(rt);
        let mut state = shared.state.lock(rt);
        let taken = state.queue.take(into, &mut signal);
        let _ = shared.update_room(&mut state, rt);
        taken
    }

    /// The message that has waited longest, if one waits. It doesn't block.
    pub fn recv<R: Wait + Clock>(&mut self, rt: &R) -> Option<M>
        ensures same { self.new ≡ self.old }
    {
        let shared = &*self.shared;
        let mut signal = shared.signal(rt);
        let mut state = shared.state.lock(rt);
        let message = state.queue.receive(&mut signal);
        let _ = shared.update_room(&mut state, rt);
        message
    }

    /// Whether nothing waits and all senders have closed.
    pub fn is_over<R: Wait>(&self, rt: &R) -> bool {
        self.shared.state.lock(rt).queue.is_over()
    }

    /// How many messages wait; `None` where the channel's lock is held at this moment: it never blocks.
    pub fn pending(&self) -> Option<usize> {
        let state = self.shared.state.try_lock()?;
        Some(state.queue.waiting())
    }

    /// Refuses messages from now on, and returns all that wait, in the order in which they were sent. The last end closes the
    /// channel's counters, too ([`Counter::close`]).
    pub fn close<R: Wait + Clock>(self, rt: &R) -> Vec<M> {
        let waiting = self.shared.end(rt);
        shared::close(self.shared, rt);
        waiting
    }
}

impl<M, C: AsRawFd> AsRawFd for Receiver<M, C> {
    ghost use Rattle.channels.specs.Ends.{counter_of_receiver};

    ghost descriptor = { λ receiver. C.descriptor (counter_of_receiver receiver) };

    fn as_raw_fd(&self) -> RawFd {
        self.shared.counter.as_raw_fd()
    }
}
