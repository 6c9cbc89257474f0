//! Visits of a loop, one after another.

use crate::visitor::Visitor;
use anyhow::{Result, ensure};
use channels::{Sender, channel};
use event_loop::{EventLoop, SubscriberId, SubscriberOps};
use measures::host::Host;
use std::alloc::Global;
use std::thread;
use std::time::Duration;
use timerfd::{TimedPoller, TimerFd};
use vmm_sys::epoll::Epoll;
use vmm_sys::eventfd::EventFd;

/// How many messages a visitor is sent.
pub const MESSAGES: u64 = 3;

/// In one of this many rounds another thread sends.
const SENT_BY_A_THREAD: u32 = 50;

/// For how many seconds a visitor is waited for.
const PATIENCE: u64 = 60;

/// The loop over the table.
pub type Loop<R> = EventLoop<Visitor<R>, TimedPoller<Epoll<R>, R>>;

/// Where visitors come.
#[derive(Drop)]
pub struct Place<'a, R: Host> {
    /// The runtime.
    pub rt: &'a R,
    /// Where memory comes from.
    pub alloc: Global,
    /// The table.
    pub epoll: &'a Epoll<R>,
    /// The loop.
    pub events: &'a mut Loop<R>,
    /// The descriptors of the first visitor, once one has come.
    pub first: Option<[i32; 2]>,
}

/// Sends all messages, and closes; whether nothing was refused.
fn send_all<R: Host>(sender: Sender<u64>, rt: &R) -> bool {
    let mut is_sent = true;
    for message in 0..MESSAGES {
        is_sent &= sender.send(message, rt).is_ok();
    }
    sender.close(rt).is_ok() && is_sent
}

impl<R: Host> Place<'_, R> {
    /// A visit; the answer is how many messages the visitor received.
    pub fn visit(&mut self, round: u32) -> Result<u64> {
        let (sender, id) = self.join()?;
        if round % SENT_BY_A_THREAD == 0 {
            let rt = *self.rt;
            let thread = thread::spawn(self.rt, move || send_all(sender, &rt))?;
            let ran = self.run(id);
            ensure!(thread.join(self.rt), "a message was refused");
            ran?;
        } else {
            ensure!(send_all(sender, self.rt), "a message was refused");
            self.run(id)?;
        }
        self.leave(id)
    }

    /// A visitor comes; the answer is who sends to it, and its id.
    fn join(&mut self) -> Result<(Sender<u64>, SubscriberId)> {
        let counter = EventFd::new(self.epoll, 0, self.rt)?;
        let (sender, messages) = channel(counter, self.alloc)?;
        let timer = TimerFd::new(self.events.poller(), self.rt)?;
        timer.reset(Duration::from_nanos(1), None, self.rt)?;
        let id = self.events.add_subscriber(Visitor {
            messages,
            timer,
            received: 0,
            is_over: false,
            expirations: 0,
            refused: None,
            rt: *self.rt,
        })?;
        Ok((sender, id))
    }

    /// Runs the loop until the visitor is content.
    fn run(&mut self, id: SubscriberId) -> Result<()> {
        let began = self.rt.monotonic()?;
        for _run in self.rt.forever() {
            if self.events.subscriber(id)?.is_content() {
                break;
            }
            let waited = self.rt.monotonic()?.saturating_sub(began);
            ensure!(waited.as_secs() < PATIENCE, "a visitor waits in vain");
            // A signal may end it sooner.
            self.events.run_with_timeout(1000)?;
        }
        Ok(())
    }

    /// The visitor leaves: it is taken out, and then what it has is closed.
    fn leave(&mut self, id: SubscriberId) -> Result<u64> {
        let visitor = self.events.remove_subscriber(id)?;
        let descriptors = visitor.descriptors();
        let first = *self.first.get_or_insert(descriptors);
        ensure!(visitor.refused.is_none(), "a request was refused");
        ensure!(descriptors == first, "a number wasn't given again");
        Ok(visitor.close())
    }
}
