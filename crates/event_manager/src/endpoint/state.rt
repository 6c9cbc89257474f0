//! What the lock of the job queue guards: the queue, with the books of issued tickets and of taken jobs.

ghost use Rattle.std.specs.Prelude.{◌≡◌, ◌⊎◌, ◌+◌, ◌<◌, ◌≤◌, [], length, Err, None, IfOk, IfErr, false};
ghost use Rattle.event_manager.specs.JobQueue.{new_queue, after_take, after_close, IsSend, TicketsFollow, send_answer};
ghost use Rattle.event_loop.specs.declared.error.Error.TheVariants.{TicketsUsedUp};

use crate::Error;
use crate::endpoint::closed::Closed;
use crate::endpoint::taken_jobs::TakenJobs;
use crate::endpoint::waiting_job::WaitingJob;
use crate::jobs::{Job, JobQueue, Refused};
use event_loop::MutEventSubscriber;
use job_tickets::naming::Naming;
use job_tickets::taken::{TakenBook, TakenCount};
use job_tickets::tickets::{Register, Ticket};
use std::alloc::Global;
use std::marker::Model;
use std::mem;
use std::sync::Wait;
use std::time::Clock;
use vmm_sys::counter::Bell;

#[derive(Drop)]
pub(crate) struct ChannelState<S: MutEventSubscriber, J: Job<S>, N: Naming> {
    queue: JobQueue<WaitingJob<S, J>, ()>,
    register: Option<Register<N>>,
    taken: TakenBook<N>,
    // `Some` once the queue is closed: so whoever has the count knows that the queue is open.
    last_count: Option<TakenCount<N>>,
}

impl<S: MutEventSubscriber, J: Job<S>, N: Naming> Model for ChannelState<S, J, N> {
    ghost use Rattle.std.specs.Prelude.{◌≡◌, true, false, Some, IsSome};
    ghost use Rattle.event_manager.specs.JobQueue.{QueueState};

    ghost Value = { QueueState J (Unit {0}) };

    ghost view = { λ c. c.queue };

    ghost invariant = { λ c. (c.taken ≡ c.queue.taken) × (c.queue.closed ≡ false → c.register ≡ Some c.queue.issued) × (c.queue.closed ≡ true → IsSome c.last_count) };
}

impl<S: MutEventSubscriber, J: Job<S>, N: Naming> ChannelState<S, J, N> {
    pub(crate) fn new(alloc: Global, register: Register<N>, taken: TakenBook<N>) -> Self
        requires { (register ≡ 0) × (taken ≡ 0) }
        ensures { result ≡ new_queue }
    {
        ChannelState {
            queue: JobQueue::new(alloc),
            register: Some(register),
            taken,
            last_count: None,
        }
    }

    pub(crate) fn waiting(&self) -> usize
        ensures { result ≡ length self.now.waiting }
    {
        self.queue.waiting()
    }

    pub(crate) fn send<B: Bell, R: Wait + Clock>(
        &mut self,
        job: WaitingJob<S, J>,
        bell: &B,
        rt: &R,
    ) -> std::result::Result<Ticket<N>, Refused<WaitingJob<S, J>, ()>>
        ensures sent { IsSend (B.rings bell.now) self.old job None (send_answer result) self.new }
        ensures handed_back { IfErr result (λ refused. refused.job ≡ job) }
    {
        match self.queue.offer(job, None, bell, rt) {
            Ok(_) => {}
            Err(refused) => return Err(refused),
        }
        match &mut self.register {
            Some(register) => Ok(register.issue()),
            None => unreachable!(),
        }
    }

    pub(crate) fn send_after<B: Bell, R: Wait + Clock>(
        &mut self,
        shown: &Ticket<N>,
        job: WaitingJob<S, J>,
        bell: &B,
        rt: &R,
    ) -> std::result::Result<Ticket<N>, Refused<WaitingJob<S, J>, ()>>
        ensures above { IfOk result (λ n. shown.now < n) }
        ensures sent { shown.now ≤ self.old.issued → IsSend (B.rings bell.now) self.old job None (send_answer result) self.new }
        ensures not_issued { self.old.issued < shown.now → (send_answer result ≡ Err TicketsUsedUp) × (self.new ≡ self.old) }
        ensures handed_back { IfErr result (λ refused. refused.job ≡ job) }
        ensures answers { (send_answer result ≡ Err TicketsUsedUp) ⊎ IsSend (B.rings bell.now) self.old job None (send_answer result) self.new }
    {
        if shown.number() > self.queue.issued() {
            return Err(Refused {
                error: Error::TicketsUsedUp,
                job,
                slot: None,
            });
        }
        self.send(job, bell, rt)
    }

    pub(crate) fn take(&mut self, count: &mut TakenCount<N>, into: &mut TakenJobs<S, J>)
        requires { into.old.entries ≡ [] }
        ensures agree { count.old ≡ self.old.taken }
        ensures handed_out { into.new ≡ record into.old { entries = self.old.waiting } }
        ensures taken { self.new ≡ after_take self.old }
        ensures count { count.new ≡ count.old + length into.new.entries }
        ensures numbers { TicketsFollow count.old into.new.entries }
    {
        into.take(&mut self.queue);
        count.add(&mut self.taken, into.len() as u64);
    }

    pub(crate) fn close(
        &mut self,
        mut count: TakenCount<N>,
        into: &mut TakenJobs<S, J>,
    ) -> Closed<N>
        requires { into.old.entries ≡ [] }
        ensures was_open { self.old.closed ≡ false }
        ensures agree { count ≡ self.old.taken }
        ensures issued { result.issued ≡ self.old.issued }
        ensures counted { result.taken ≡ self.old.taken }
        ensures handed_out { into.new ≡ record into.old { entries = self.old.waiting } }
        ensures closed { self.new ≡ after_close self.old }
    {
        count.is_alone(self.last_count.take());
        count.agree(&mut self.taken);
        into.close(&mut self.queue);
        let taken = count.count();
        self.last_count = Some(count);
        match self.register.take() {
            Some(register) => Closed::new(register, taken),
            None => unreachable!(),
        }
    }
}
