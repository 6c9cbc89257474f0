//! The queue of jobs, without locks.

ghost use Rattle.std.specs.Prelude.{◌≡◌, ◌+◌, ◌≤◌, true, [], length, IfErr};
ghost use Rattle.event_manager.specs.JobQueue.{new_queue, after_take, after_close, IsSend, TicketsFollow, send_answer};

use event_loop::{Error, Result};
use job_tickets::tickets::MOST_TICKETS;
use std::alloc::{AllocError, Global};
use std::marker::Model;
use std::mem;
use std::sync::Wait;
use std::time::Clock;
use vmm_sys::counter::Bell;

/// A job that waits, with its ticket, and the slot for its reply where a caller waits for one.
#[derive(Drop)]
pub struct Entry<J, Q> {
    /// The number of its ticket.
    pub ticket: u64,
    /// The job.
    pub job: J,
    /// Where its reply goes.
    pub slot: Option<Q>,
}

#[derive(Drop)]
pub(crate) struct Refused<J, Q> {
    pub(crate) error: Error,
    pub(crate) job: J,
    pub(crate) slot: Option<Q>,
}

/// Waiting jobs, in the order of their tickets. Contracts see how many jobs were taken, how many tickets were issued, whether it is
/// closed, and the list. An open queue has the jobs that were issued and not taken; a closed one has none, and never changes.
#[derive(Drop)]
pub struct JobQueue<J, Q> {
    waiting: Vec<Entry<J, Q>>,
    taken: u64,
    issued: u64,
    closed: bool,
}

impl<J, Q> Model for JobQueue<J, Q> {
    ghost use Rattle.event_manager.specs.JobQueue.{QueueState, IsQueueState};

    ghost Value = { QueueState J Q };

    ghost view = { λ q. record { taken = q.taken; issued = q.issued; closed = q.closed; waiting = q.waiting.items } };

    ghost invariant = { λ q. IsQueueState q.taken q.issued q.closed q.waiting.items };
}

impl<J, Q> JobQueue<J, Q> {
    /// An open, empty queue.
    pub fn new(alloc: Global) -> Self
        ensures { result ≡ new_queue }
    {
        JobQueue::behind(alloc, 0)
    }

    /// An open, empty queue of which `issued` tickets (at most 9223372036854775807) were issued, and as many jobs taken.
    pub fn behind(alloc: Global, issued: u64) -> Self
        requires { issued ≤ MOST_TICKETS }
        ensures { result ≡ record new_queue { taken = issued; issued = issued } }
    {
        JobQueue {
            waiting: Vec::new(alloc),
            taken: issued,
            issued,
            closed: false,
        }
    }

    /// How many jobs wait.
    pub fn waiting(&self) -> usize
        ensures { result ≡ length self.now.waiting }
    {
        self.waiting.len()
    }

    /// How many tickets were issued.
    pub fn issued(&self) -> u64
        ensures { result ≡ self.now.issued }
    {
        self.issued
    }

    pub(crate) fn reserve(&mut self, additional: usize) -> std::result::Result<(), AllocError>
        ensures kept { self.new ≡ self.old }
    {
        self.waiting.reserve(additional)
    }

    /// Makes room, rings the bell and puts the job last; returns its ticket, the next number. Refused, in this order, with the
    /// queue unchanged and job and slot dropped: `ChannelSend` if it is closed; `TicketsUsedUp` if 9223372036854775807 were issued;
    /// `OutOfMemory`, before the bell is rung; `EventFd` with the number that the bell answers.
    pub fn send<B: Bell, R: Wait + Clock>(
        &mut self,
        job: J,
        slot: Option<Q>,
        bell: &B,
        rt: &R,
    ) -> Result<u64>
    where
        J: Drop,
        Q: Drop,
        ensures { IsSend (B.rings bell.now) self.old job slot result self.new }
    {
        match self.offer(job, slot, bell, rt) {
            Ok(ticket) => Ok(ticket),
            Err(refused) => Err(refused.error),
        }
    }

    /// As [`send`](JobQueue::send), but refused jobs and slots come back, so that a lock's holder drops none under it.
    pub(crate) fn offer<B: Bell, R: Wait + Clock>(
        &mut self,
        job: J,
        slot: Option<Q>,
        bell: &B,
        rt: &R,
    ) -> std::result::Result<u64, Refused<J, Q>>
        ensures sent { IsSend (B.rings bell.now) self.old job slot (send_answer result) self.new }
        ensures handed_back { IfErr result (λ refused. (refused.job ≡ job) × (refused.slot ≡ slot)) }
    {
        let error = if self.closed {
            Error::ChannelSend
        } else if self.issued == MOST_TICKETS {
            Error::TicketsUsedUp
        } else if self.waiting.reserve(1).is_err() {
            Error::OutOfMemory
        } else if let Err(errno) = bell.ring(rt) {
            Error::EventFd(errno)
        } else {
            let ticket = self.issued + 1;
            self.waiting.push_reserved(Entry { ticket, job, slot });
            self.issued = ticket;
            return Ok(ticket);
        };
        Err(Refused { error, job, slot })
    }

    /// Moves all waiting jobs into the empty list, and counts them as taken. Swaps the two lists, so takes no memory.
    pub fn take(&mut self, into: &mut Vec<Entry<J, Q>>)
        requires { into.old.items ≡ [] }
        ensures handed_out { into.new.items ≡ self.old.waiting }
        ensures taken { self.new ≡ after_take self.old }
        ensures numbers { TicketsFollow self.old.taken self.old.waiting }
        ensures room { self.old.taken + length self.old.waiting ≤ self.old.issued }
        ensures most { self.old.issued ≤ MOST_TICKETS }
        ensures none_once_closed { self.old.closed ≡ true → self.old.waiting ≡ [] }
    {
        mem::swap(&mut self.waiting, into);
        self.taken += into.len() as u64;
    }

    /// As [`take`](JobQueue::take), but without counting them as taken; sends are refused from then on.
    pub fn close(&mut self, into: &mut Vec<Entry<J, Q>>)
        requires { into.old.items ≡ [] }
        ensures handed_out { into.new.items ≡ self.old.waiting }
        ensures closed { self.new ≡ after_close self.old }
    {
        mem::swap(&mut self.waiting, into);
        self.closed = true;
    }
}
