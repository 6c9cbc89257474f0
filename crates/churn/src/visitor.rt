//! A visitor: a subscriber with a channel and a timer of its own.

use channels::Receiver;
use event_loop::{
    EventOps, EventPoller, EventSet, Events, MutEventSubscriber, RefusedRequest, Request,
};
use std::sync::Wait;
use std::time::Clock;
use timerfd::TimerFd;
use vmm_sys::epoll::AsRawFd;

/// How many messages are taken at an event, at most.
const AT_ONCE: u64 = 8;

/// Receives messages until all senders have closed, and waits until its timer has expired.
#[derive(Drop)]
pub struct Visitor<R> {
    pub messages: Receiver<u64>,
    pub timer: TimerFd,
    /// How many messages were received.
    pub received: u64,
    /// Whether all were.
    pub is_over: bool,
    /// How often the timer has expired.
    pub expirations: u64,
    /// The first request that was refused.
    pub refused: Option<RefusedRequest>,
    pub rt: R,
}

impl<R: Wait + Clock + Drop> Visitor<R> {
    fn receive(&mut self) {
        for _message in 0..AT_ONCE {
            if self.messages.recv(&self.rt).is_none() {
                break;
            }
            self.received = self.received.saturating_add(1);
        }
        self.is_over = self.messages.is_over(&self.rt);
    }

    /// Its descriptors.
    pub fn descriptors(&self) -> [i32; 2] {
        [self.messages.as_raw_fd(), self.timer.as_raw_fd()]
    }

    /// Whether it has all that it came for.
    pub fn is_content(&self) -> bool {
        self.is_over && self.expirations > 0
    }

    /// Closes both; the answer is how many messages were received.
    pub fn close(self) -> u64 {
        let received = self.received;
        self.messages.close(&self.rt);
        self.timer.close(&self.rt);
        received
    }
}

impl<R: Wait + Clock + Drop> MutEventSubscriber for Visitor<R> {
    ghost begins = { λ v exchanges w. Unit {0} };

    ghost serves = { λ v event exchanges w. Unit {0} };

    fn process<P: EventPoller>(&mut self, events: Events, ops: &mut EventOps<P>) {
        if events.fd() == self.timer.as_raw_fd() {
            self.expirations = self.timer.wait(&self.rt).unwrap_or(0);
            return;
        }
        self.receive();
        if self.is_over {
            // Else it is reported for ever.
            self.refused = ops.request_all(&[Request::Remove(events)]).err();
        }
    }

    fn init<P: EventPoller>(&mut self, ops: &mut EventOps<P>) {
        let both = [
            Request::Add(Events::new(&self.messages, EventSet::IN)),
            Request::Add(Events::new(&self.timer, EventSet::IN)),
        ];
        self.refused = ops.request_all(&both).err();
    }
}
