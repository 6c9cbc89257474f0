//! The remote endpoint, by which other threads send jobs to the loop.

ghost use Rattle.std.specs.Prelude.{◌≡◌, ◌<◌, IfOk, IfErr};
ghost use Rattle.event_manager.specs.JobQueue.{send_answer};
ghost use Rattle.event_manager.specs.Endpoint.{counter_of_endpoint, IsSendRefusal, IsCallRefusal, IsRingRefusal};
ghost use Rattle.event_loop.specs.declared.error.Error.TheVariants.{OutOfMemory};

pub(crate) mod channel;
pub(crate) mod closed;
mod slot;
mod state;
mod taken_jobs;
mod waiting_job;

use crate::endpoint::channel::Channel;
use crate::endpoint::slot::new_slot;
use crate::endpoint::waiting_job::WaitingJob;
use crate::jobs::{Job, Refused};
use crate::named_counter::NamedCounter;
use event_loop::{Error, MutEventSubscriber, Result};
use job_tickets::naming::Naming;
use job_tickets::tickets::Ticket;
use std::sync::{Arc, Wait};
use std::time::Clock;
use vmm_sys::counter::Bell;

// Called without the queue's lock: the drop of a refused job runs its sender's code.
fn answer<J: Drop, Q: Drop, N: Naming>(
    sent: std::result::Result<Ticket<N>, Refused<J, Q>>,
) -> Result<Ticket<N>>
    ensures { result ≡ send_answer sent }
{
    match sent {
        Ok(ticket) => Ok(ticket),
        Err(refused) => Err(refused.error),
    }
}

/// Sends jobs to its manager, from any thread. No job and no reply is dropped under the queue's lock, so a drop may use an endpoint
/// without a deadlock on it. A manager that is dropped without [`close`](crate::EventManager::close) leaves the queue open: sends
/// are accepted, no job runs, and a `call_blocking` waits for ever.
pub struct RemoteEndpoint<S: MutEventSubscriber, J: Job<S>, N: NamedCounter> {
    pub(crate) channel: Arc<Channel<S, J, N>>,
}

// Not derived: so an owner proves one call, and not the drop of every part.
impl<S: MutEventSubscriber, J: Job<S>, N: NamedCounter> Drop for RemoteEndpoint<S, J, N> {
    fn drop(self) {
        let RemoteEndpoint { channel: _ } = self;
    }
}

impl<S: MutEventSubscriber, J: Job<S>, N: NamedCounter> RemoteEndpoint<S, J, N> {
    /// Sends a job, which the loop runs once, in the order of the tickets, after the current batch, if its report has a ring
    /// already, or a later one: perhaps before what its sender wrote or kicked earlier is reported. The ticket may be dropped.
    /// Refused, in this order, with the queue unchanged and the job dropped: `ChannelSend` if the manager was closed;
    /// `TicketsUsedUp` if 9223372036854775807 tickets were issued; `OutOfMemory`; `EventFd` with the number with which the
    /// manager's counter refuses its ring (`EAGAIN` if an `EventFd` of a table is full).
    pub fn fire<R: Wait + Clock>(&self, job: J, rt: &R) -> Result<Ticket<N>>
        ensures refusals { IfErr result (IsSendRefusal (N.rings (counter_of_endpoint self.now))) }
    {
        let channel = &*self.channel;
        let fired = WaitingJob::new(job, None);
        let sent = channel.state.lock(rt).send(fired, &channel.counter, rt);
        answer(sent)
    }

    /// As [`fire`](RemoteEndpoint::fire), with a ticket above `shown`: jobs that a thread sends so run in the order of its sends.
    /// Refused as `fire`; also with `TicketsUsedUp` if `shown` is above all issued tickets, as none from this manager is.
    pub fn fire_after<R: Wait + Clock>(
        &self,
        shown: &Ticket<N>,
        job: J,
        rt: &R,
    ) -> Result<Ticket<N>>
        ensures above { IfOk result (λ n. shown.now < n) }
        ensures refusals { IfErr result (IsSendRefusal (N.rings (counter_of_endpoint self.now))) }
    {
        let channel = &*self.channel;
        let job = WaitingJob::new(job, None);
        let sent = channel
            .state
            .lock(rt)
            .send_after(shown, job, &channel.counter, rt);
        answer(sent)
    }

    /// Sends a job and waits for its reply. On the loop's own thread it waits for ever, as in event-manager. Refused before it
    /// waits as [`fire`](RemoteEndpoint::fire), before that with `OutOfMemory` if there is no memory for the reply's place.
    /// `ChannelRecv` if the manager was closed before the job ran.
    pub fn call_blocking<R: Wait + Clock>(&self, job: J, rt: &R) -> Result<J::Reply>
        ensures fact { IfOk result (λ r. J.replies r) }
        ensures refusals { IfErr result (IsCallRefusal (N.rings (counter_of_endpoint self.now))) }
    {
        let channel = &*self.channel;
        let (sender, receiver) = new_slot(channel.alloc)?;
        let called = WaitingJob::new(job, Some(sender));
        let sent = channel.state.lock(rt).send(called, &channel.counter, rt);
        let _ticket = answer(sent)?;
        receiver.wait(rt)
    }

    /// Rings the manager's counter, which ends the loop's wait. Takes no memory unless that ring does. `EventFd` with the number
    /// with which the counter refuses its ring; then nothing changes.
    pub fn kick<R: Wait + Clock>(&self, rt: &R) -> Result<()>
        ensures refusals { IfErr result (IsRingRefusal (N.rings (counter_of_endpoint self.now))) }
    {
        self.channel.counter.ring(rt).map_err(Error::EventFd)
    }

    /// Another endpoint of the same manager. `OutOfMemory` if one more owner is refused.
    pub fn try_clone(&self) -> Result<Self>
        ensures same_counter { IfOk result (λ other. counter_of_endpoint other ≡ counter_of_endpoint self.now) }
        ensures refusals { IfErr result (λ e. e ≡ OutOfMemory) }
    {
        let channel = Arc::try_clone(&self.channel)?;
        Ok(RemoteEndpoint { channel })
    }

    /// How many jobs wait; `None` if the queue's lock is held at this moment. Never waits, and takes no memory.
    pub fn pending(&self) -> Option<usize> {
        let state = self.channel.state.try_lock()?;
        Some(state.waiting())
    }
}
