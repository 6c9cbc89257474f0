//! What laws say of a list of calls that is driven again, on another manager.

ghost use Rattle.std.specs.Prelude.{◌≡◌, ℕ, OnOk};
ghost use Rattle.event_manager.specs.CounterSubscribers.{counter_begins, counter_serves};
ghost use Rattle.event_manager.specs.LoopState.{contents_of};
ghost use Rattle.event_manager.specs.Manager.{state_of};
ghost use Rattle.recorded_runs.specs.Determinism.{IsReplay, IsTheRun};
ghost use Rattle.drive_tests.specs.Again.{AreMade, RunsAgain};

use event_manager::utilities::subscribers::CounterSubscriber;
use event_manager::{
    Call, EventManager, EventPoller, Job, NamedCounter, NoJob, Reply, Result, drive,
};
use poller_records::recording_poller::RecordingPoller;
use poller_records::replay_poller::ReplayPoller;
use recorded_runs::laws::{
    a_recorded_run_is_made_again, a_replay_is_the_run, counters_are_functions,
};
use std::sync::Wait;
use std::time::Clock;
use vmm_sys::poller::Poller;

/// A manager of counting subscribers, which runs no jobs but those that do nothing.
pub type Counters<N, P> = EventManager<CounterSubscriber, NoJob, N, P>;

/// Drives the calls over a replay. For each run over a recording of a poller of type `P`: where the manager began as that run did,
/// its replay at what was recorded of it, calls and jobs are the same, neither lacks memory, and the replay hasn't diverged by the
/// end, each call does what it did in that run.
pub fn drive_over_record<P: Poller, N: NamedCounter, R: Wait + Clock>(
    replayed: &mut Counters<N, ReplayPoller>,
    calls: Vec<Call<CounterSubscriber>>,
    replies: &mut Vec<Reply<CounterSubscriber>>,
    rt: &R,
) -> Result<()>
    ensures { OnOk result ((again : AreMade counter_begins counter_serves ⟦<NoJob as Job<CounterSubscriber>>⟧.may ⟦<ReplayPoller as EventPoller>⟧.controls ⟦<ReplayPoller as EventPoller>⟧.waits
        (state_of replayed.old) calls.items replies.old.items replies.new.items (state_of replayed.new))
        × RunsAgain counter_begins counter_serves ⟦<NoJob as Job<CounterSubscriber>>⟧.may
        ⟦<RecordingPoller<P> as EventPoller>⟧.controls ⟦<RecordingPoller<P> as EventPoller>⟧.waits (state_of replayed.old) again.trace (state_of replayed.new)) }
{
    counters_are_functions();
    a_recorded_run_is_made_again::<CounterSubscriber, NoJob, P>();
    drive(replayed, calls, replies, rt)
}

/// Drives calls on two managers, whatever their pollers. Where both began alike, calls, poller calls and jobs are the same, and
/// neither lacks memory, both runs are the same.
pub fn drive_alike<N, M, P, Q, R>(
    one: &mut Counters<N, P>,
    other: &mut Counters<M, Q>,
    calls: Vec<Call<CounterSubscriber>>,
    calls_again: Vec<Call<CounterSubscriber>>,
    replies: &mut Vec<Reply<CounterSubscriber>>,
    replies_again: &mut Vec<Reply<CounterSubscriber>>,
    rt: &R,
) -> Result<()>
where
    N: NamedCounter,
    M: NamedCounter,
    P: EventPoller,
    Q: EventPoller,
    R: Wait + Clock,
    ensures { OnOk result ((made : AreMade counter_begins counter_serves ⟦<NoJob as Job<CounterSubscriber>>⟧.may P.controls P.waits
        (state_of one.old) calls.items replies.old.items replies.new.items (state_of one.new))
        × (again : AreMade counter_begins counter_serves ⟦<NoJob as Job<CounterSubscriber>>⟧.may Q.controls Q.waits
        (state_of other.old) calls_again.items replies_again.old.items replies_again.new.items (state_of other.new))
        × ((capacity : ℕ) → contents_of (state_of other.old) ≡ contents_of (state_of one.old) → IsReplay capacity made.trace again.trace →
        IsTheRun made.trace again.trace (contents_of (state_of one.new)) (contents_of (state_of other.new)))) }
{
    counters_are_functions();
    a_replay_is_the_run::<CounterSubscriber, NoJob>();
    drive(one, calls, replies, rt)?;
    drive(other, calls_again, replies_again, rt)
}
