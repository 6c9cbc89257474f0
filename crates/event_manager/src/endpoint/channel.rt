//! What a manager and its endpoints share, and the manager's side of it.

ghost use Rattle.std.specs.Prelude.{◌≡◌, ℕ, List, IfErr, IfOk};
ghost use Rattle.event_manager.specs.JobRuns.{JobsAreRun};
ghost use Rattle.event_loop.specs.Subscribers.{loop_state};

use crate::endpoint::closed::Closed;
use crate::endpoint::state::ChannelState;
use crate::endpoint::taken_jobs::TakenJobs;
use crate::jobs::Job;
use crate::named_counter::NamedCounter;
use event_loop::{Error, EventPoller, MutEventSubscriber, Registry, Result};
use job_tickets::ledgers::Ledgers;
use job_tickets::taken::TakenCount;
use std::alloc::{AllocError, Global};
use std::marker::Model;
use std::sync::{Arc, Mutex, Wait};
use std::time::Clock;

#[derive(Drop)]
pub(crate) struct Channel<S: MutEventSubscriber, J: Job<S>, N: NamedCounter> {
    pub(crate) state: Mutex<ChannelState<S, J, N>>,
    pub(crate) counter: N,
    pub(crate) alloc: Global,
}

/// The manager's side: it alone takes jobs. Contracts see how many it took and ran.
#[derive(Drop)]
pub(crate) struct EventManagerChannel<S: MutEventSubscriber, J: Job<S>, N: NamedCounter> {
    channel: Arc<Channel<S, J, N>>,
    taken: TakenCount<N>,
    jobs: TakenJobs<S, J>,
}

impl<S: MutEventSubscriber, J: Job<S>, N: NamedCounter> Model for EventManagerChannel<S, J, N> {
    ghost use Rattle.std.specs.Prelude.{◌≡◌, ℕ, []};

    ghost Value = { ℕ };

    ghost view = { λ c. c.jobs.ran };

    ghost invariant = { λ c. (c.jobs.entries ≡ []) × (c.taken ≡ c.jobs.ran) };
}

impl<S: MutEventSubscriber, J: Job<S>, N: NamedCounter> EventManagerChannel<S, J, N> {
    pub(crate) fn new(
        alloc: Global,
        counter: N,
        ledgers: Ledgers<N>,
    ) -> std::result::Result<Self, AllocError>
        ensures { IfOk result (λ c. c ≡ 0) }
    {
        let (register, book, count) = ledgers.open();
        let state = ChannelState::new(alloc, register, book);
        let channel = Channel {
            state: Mutex::new(state),
            counter,
            alloc,
        };
        Ok(EventManagerChannel {
            channel: Arc::new(alloc, channel)?,
            taken: count,
            jobs: TakenJobs::new(alloc),
        })
    }

    pub(crate) fn shared(&self) -> Result<Arc<Channel<S, J, N>>>
        ensures refusals { IfErr result (λ e. e ≡ Error.OutOfMemory) }
    {
        Ok(Arc::try_clone(&self.channel)?)
    }

    pub(crate) fn has_waiting_jobs<R: Wait>(&self, rt: &R) -> bool {
        self.channel.state.lock(rt).waiting() > 0
    }

    /// Clears the counter, then takes all waiting jobs, and runs them in the order of the tickets, without the queue's lock.
    pub(crate) fn run_jobs<P: EventPoller, R: Wait + Clock>(
        &mut self,
        registry: &mut Registry<S, P>,
        rt: &R,
    )
        ensures { (taken : List (ℕ × J)) × JobsAreRun S.begins S.serves J.may P.controls P.waits (loop_state registry.old) self.old taken (loop_state registry.new) self.new }
    {
        let _ = self.channel.counter.clear(rt);
        self.channel
            .state
            .lock(rt)
            .take(&mut self.taken, &mut self.jobs);
        self.jobs.run_all(registry, rt);
    }

    pub(crate) fn close<R: Wait + Clock>(self, rt: &R) -> Closed<N>
        ensures { result.taken ≡ self }
    {
        let EventManagerChannel {
            channel,
            taken: count,
            mut jobs,
        } = self;
        let closed = channel.state.lock(rt).close(count, &mut jobs);
        jobs.close_all(rt);
        closed
    }
}
