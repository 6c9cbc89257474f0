//! The jobs that a manager has taken from the queue, and runs in the order of their tickets.

ghost use Rattle.std.specs.Prelude.{◌≡◌, ◌+◌, ◌≤◌, [], length};
ghost use Rattle.event_manager.specs.JobQueue.{TicketsFollow, after_take, after_close, tickets_and_jobs};
ghost use Rattle.event_manager.specs.JobRuns.{JobsAreRun};
ghost use Rattle.event_loop.specs.Subscribers.{loop_state};

use crate::endpoint::waiting_job::WaitingJob;
use crate::jobs::{Entry, Job, JobQueue};
use event_loop::{EventPoller, MutEventSubscriber, Registry};
use job_tickets::tickets::MOST_TICKETS;
use std::alloc::Global;
use std::marker::Model;
use std::sync::Wait;
use std::time::Clock;

/// Jobs from a queue, and how many ran before. Others can't read or change them, only run or close them.
#[derive(Drop)]
pub(crate) struct TakenJobs<S: MutEventSubscriber, J: Job<S>> {
    // Empty between two runs; it keeps its room.
    entries: Vec<Entry<WaitingJob<S, J>, ()>>,
    ran: u64,
}

impl<S: MutEventSubscriber, J: Job<S>> Model for TakenJobs<S, J> {
    ghost use Rattle.event_manager.specs.JobRuns.{Taken};

    ghost Value = { Taken J };

    ghost view = { λ t. record { ran = t.ran; entries = t.entries.items } };
}

impl<S: MutEventSubscriber, J: Job<S>> TakenJobs<S, J> {
    pub(crate) fn new(alloc: Global) -> Self
        ensures { result ≡ record { ran = 0; entries = [] } }
    {
        TakenJobs {
            entries: Vec::new(alloc),
            ran: 0,
        }
    }

    pub(crate) fn len(&self) -> usize
        ensures { result ≡ length self.now.entries }
    {
        self.entries.len()
    }

    pub(crate) fn take(&mut self, queue: &mut JobQueue<WaitingJob<S, J>, ()>)
        requires { self.old.entries ≡ [] }
        ensures handed_out { self.new ≡ record self.old { entries = queue.old.waiting } }
        ensures taken { queue.new ≡ after_take queue.old }
        ensures numbers { TicketsFollow queue.old.taken queue.old.waiting }
        ensures room { queue.old.taken + length queue.old.waiting ≤ MOST_TICKETS }
    {
        queue.take(&mut self.entries);
    }

    pub(crate) fn close(&mut self, queue: &mut JobQueue<WaitingJob<S, J>, ()>)
        requires { self.old.entries ≡ [] }
        ensures handed_out { self.new ≡ record self.old { entries = queue.old.waiting } }
        ensures closed { queue.new ≡ after_close queue.old }
    {
        queue.close(&mut self.entries);
    }

    pub(crate) fn run_all<P: EventPoller, R: Wait + Clock>(
        &mut self,
        registry: &mut Registry<S, P>,
        rt: &R,
    )
        requires { TicketsFollow self.old.ran self.old.entries }
        ensures ran { JobsAreRun S.begins S.serves J.may P.controls P.waits (loop_state registry.old) self.old.ran (tickets_and_jobs self.old.entries) (loop_state registry.new) self.new.ran }
        ensures counted { self.new.ran ≡ self.old.ran + length self.old.entries }
        ensures none_left { self.new.entries ≡ [] }
    {
        self.entries.reverse();
        while let Some(entry) = self.entries.pop() {
            entry.job.run(registry, rt);
            self.ran += 1;
        }
    }

    pub(crate) fn close_all<R: Wait>(self, rt: &R) {
        let TakenJobs { entries, .. } = self;
        for entry in entries {
            entry.job.close(rt);
        }
    }
}
