//! Laws of runs made again, if subscribers and jobs are functions and no memory is refused. Each function here does nothing.

ghost use Rattle.std.specs.Prelude.{◌≡◌, ℕ, false, List};
ghost use Rattle.event_loop.specs.Iteration.{LoopContents};
ghost use Rattle.event_loop.specs.LoopState.{LoopState, contents_of, no_job};
ghost use Rattle.event_manager.specs.Driven.{IsTraceOf};
ghost use Rattle.event_manager.specs.Trace.{TraceEntry, IsTrace};
ghost use Rattle.event_manager.specs.declared.calls.Call.{Call};
ghost use Rattle.event_manager.specs.declared.calls.Reply.{Reply};
ghost use Rattle.recorded_runs.specs.Determinism.{AreFunctions, IsReplay, IsTheRun};
ghost use Rattle.recorded_runs.specs.RecordedRun.{BeginsAgain, IsMadeAgain};
ghost use Rattle.poller_records.specs.Recording.{Recording};
ghost use Rattle.poller_records.specs.Replay.{Replay};

use event_manager::utilities::subscribers::CounterSubscriber;
use event_manager::{EventPoller, Job, MutEventSubscriber, NoJob};
use poller_records::recording_poller::RecordingPoller;
use poller_records::replay_poller::ReplayPoller;
use vmm_sys::poller::Poller;

/// A replay is the run: from one state the same calls, with the same poller calls and jobs, do the same; vectors may lie elsewhere.
pub fn a_replay_is_the_run<S: MutEventSubscriber, J: Job<S>>()
    ensures { (capacity : ℕ) (before : LoopContents S) (trace replay : List (TraceEntry S J J.Reply)) (after replayed : LoopContents S) →
        AreFunctions S.begins S.serves J.may → IsTrace S.begins S.serves J.may before trace after →
        IsTrace S.begins S.serves J.may before replay replayed → IsReplay capacity trace replay → IsTheRun trace replay after replayed }
{}

/// A replay of a complete record by a `ReplayPoller`, from the run's start with its calls and jobs, is the run unless it diverges.
pub fn a_recorded_run_is_made_again<S: MutEventSubscriber, J: Job<S>, P: Poller>()
    ensures { (before after : LoopState S (Recording P)) (calls : List (Call S)) (replies : List (Reply S)) (trace : List (TraceEntry S J J.Reply))
        (start end : LoopState S Replay) (calls_again : List (Call S)) (replies_again : List (Reply S)) (again : List (TraceEntry S J J.Reply)) →
        AreFunctions S.begins S.serves J.may →
        IsTraceOf S.begins S.serves J.may ⟦<RecordingPoller<P> as EventPoller>⟧.controls ⟦<RecordingPoller<P> as EventPoller>⟧.waits
        before calls replies after trace →
        IsTraceOf S.begins S.serves J.may ⟦<ReplayPoller as EventPoller>⟧.controls ⟦<ReplayPoller as EventPoller>⟧.waits
        start calls_again replies_again end again →
        BeginsAgain before after start → end.poller.diverged ≡ false → IsMadeAgain trace again →
        IsTheRun trace again (contents_of after) (contents_of end) }
{}

/// As `a_recorded_run_is_made_again`, of a loop without jobs: each entry of a list is what one of its calls promises.
pub fn a_recorded_loop_is_made_again<S: MutEventSubscriber, P: Poller>()
    ensures { (before after : LoopState S (Recording P)) (calls : List (Call S)) (replies : List (Reply S)) (trace : List (TraceEntry S ⊥ (Unit {0})))
        (start end : LoopState S Replay) (calls_again : List (Call S)) (replies_again : List (Reply S)) (again : List (TraceEntry S ⊥ (Unit {0}))) →
        AreFunctions S.begins S.serves no_job →
        IsTraceOf S.begins S.serves no_job ⟦<RecordingPoller<P> as EventPoller>⟧.controls ⟦<RecordingPoller<P> as EventPoller>⟧.waits
        before calls replies after trace →
        IsTraceOf S.begins S.serves no_job ⟦<ReplayPoller as EventPoller>⟧.controls ⟦<ReplayPoller as EventPoller>⟧.waits
        start calls_again replies_again end again →
        BeginsAgain before after start → end.poller.diverged ≡ false → IsMadeAgain trace again →
        IsTheRun trace again (contents_of after) (contents_of end) }
{}

/// `CounterSubscriber` and `NoJob` are functions: answers so far decide what they ask next, all answers their value or reply.
pub fn counters_are_functions()
    ensures { AreFunctions ⟦<CounterSubscriber as MutEventSubscriber>⟧.begins ⟦<CounterSubscriber as MutEventSubscriber>⟧.serves
        ⟦<NoJob as Job<CounterSubscriber>>⟧.may }
{}
