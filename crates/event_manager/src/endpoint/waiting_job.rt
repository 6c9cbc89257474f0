//! A job on its way to the loop.

ghost use Rattle.std.specs.Prelude.{◌≡◌};
ghost use Rattle.event_manager.specs.JobRuns.{HasRun};
ghost use Rattle.event_loop.specs.Subscribers.{loop_state};

use crate::endpoint::slot::ReplySender;
use crate::jobs::Job;
use event_loop::{EventPoller, MutEventSubscriber, Registry};
use std::marker::Model;
use std::sync::Wait;
use std::time::Clock;

/// A sent job, with the slot of its caller if one waits. They can't be parted, so a reply goes into its own job's slot.
#[derive(Drop)]
pub(crate) struct WaitingJob<S: MutEventSubscriber, J: Job<S>> {
    job: J,
    slot: Option<ReplySender<S, J>>,
}

impl<S: MutEventSubscriber, J: Job<S>> Model for WaitingJob<S, J> {
    ghost Value = { J };

    ghost view = { λ w. w.job };
}

impl<S: MutEventSubscriber, J: Job<S>> WaitingJob<S, J> {
    pub(crate) fn new(job: J, slot: Option<ReplySender<S, J>>) -> Self
        ensures { result ≡ job }
    {
        WaitingJob { job, slot }
    }

    /// Runs the job, and hands its reply to the caller that waits for it, if one does.
    pub(crate) fn run<P: EventPoller, R: Wait + Clock>(self, registry: &mut Registry<S, P>, rt: &R)
        ensures { HasRun S.begins J.may P.controls P.waits (loop_state registry.old) self (loop_state registry.new) }
    {
        let WaitingJob { job, slot } = self;
        let reply = job.call(registry, rt);
        if let Some(slot) = slot {
            slot.fill(reply, rt);
        }
    }

    pub(crate) fn close<R: Wait>(self, rt: &R) {
        let WaitingJob { slot, .. } = self;
        if let Some(slot) = slot {
            slot.close(rt);
        }
    }
}
