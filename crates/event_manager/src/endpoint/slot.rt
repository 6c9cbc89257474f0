//! Where a caller waits for the reply of its job: a slot with two ends.

ghost use Rattle.std.specs.Prelude.{◌≡◌, IfOk, IfErr, IfSome};
ghost use Rattle.event_loop.specs.declared.error.Error.TheVariants.{ChannelRecv, OutOfMemory};

use crate::jobs::Job;
use event_loop::{Error, MutEventSubscriber, Result};
use std::alloc::Global;
use std::marker::{Model, PhantomData};
use std::sync::{Arc, Condvar, Mutex, Wait};

#[derive(Drop)]
struct Held<S: MutEventSubscriber, J: Job<S>> {
    reply: Option<J::Reply>,
    closed: bool,
    subscriber: PhantomData<S>,
}

impl<S: MutEventSubscriber, J: Job<S>> Model for Held<S, J> {
    ghost use Rattle.std.specs.Prelude.{Bool, IfSome};

    ghost Value = { Bool };

    ghost view = { λ h. h.closed };

    ghost invariant = { λ h. IfSome h.reply (λ r. J.replies r) };
}

impl<S: MutEventSubscriber, J: Job<S>> Held<S, J> {
    // Returns the old reply, so that none is dropped under the lock.
    fn fill(&mut self, reply: J::Reply) -> Option<J::Reply>
        requires { J.replies reply }
    {
        self.reply.replace(reply)
    }

    fn take(&mut self) -> Option<J::Reply>
        ensures { IfSome result (λ r. J.replies r) }
    {
        self.reply.take()
    }

    fn is_settled(&self) -> bool {
        self.reply.is_some() || self.closed
    }

    fn close(&mut self) {
        self.closed = true;
    }
}

#[derive(Drop)]
struct Slot<S: MutEventSubscriber, J: Job<S>> {
    held: Mutex<Held<S, J>>,
    changed: Condvar,
}

impl<S: MutEventSubscriber, J: Job<S>> Slot<S, J> {
    fn new() -> Self {
        Slot {
            held: Mutex::new(Held {
                reply: None,
                closed: false,
                subscriber: PhantomData,
            }),
            changed: Condvar::new(),
        }
    }
}

/// The end of a slot that fills it or closes it, once: either uses it up.
#[derive(Drop)]
pub(crate) struct ReplySender<S: MutEventSubscriber, J: Job<S>> {
    slot: Arc<Slot<S, J>>,
}

impl<S: MutEventSubscriber, J: Job<S>> ReplySender<S, J> {
    pub(crate) fn fill<R: Wait>(self, reply: J::Reply, rt: &R)
        requires { J.replies reply }
    {
        let _none = self.slot.held.lock(rt).fill(reply);
        self.slot.changed.notify_all();
    }

    pub(crate) fn close<R: Wait>(self, rt: &R) {
        self.slot.held.lock(rt).close();
        self.slot.changed.notify_all();
    }
}

#[derive(Drop)]
pub(crate) struct ReplyReceiver<S: MutEventSubscriber, J: Job<S>> {
    slot: Arc<Slot<S, J>>,
}

impl<S: MutEventSubscriber, J: Job<S>> ReplyReceiver<S, J> {
    pub(crate) fn wait<R: Wait>(self, rt: &R) -> Result<J::Reply>
        ensures fact { IfOk result (λ r. J.replies r) }
        ensures closed { IfErr result (λ e. e ≡ ChannelRecv) }
    {
        let slot = &*self.slot;
        let mut held = slot
            .changed
            .wait_while(rt, slot.held.lock(rt), |held| !held.is_settled());
        held.take().ok_or(Error::ChannelRecv)
    }
}

pub(crate) fn new_slot<S: MutEventSubscriber, J: Job<S>>(
    alloc: Global,
) -> Result<(ReplySender<S, J>, ReplyReceiver<S, J>)>
    ensures { IfErr result (λ e. e ≡ OutOfMemory) }
{
    let own = Arc::new(alloc, Slot::new())?;
    let theirs = Arc::try_clone(&own)?;
    Ok((ReplySender { slot: theirs }, ReplyReceiver { slot: own }))
}
