//! What holds of every history of a manager: each function does nothing, and its contract is a law.

ghost use Rattle.std.specs.Hash as fed;
ghost use Rattle.std.specs.List.{fold};
ghost use Rattle.std.specs.Ordering.{nat_cmp};
ghost use Rattle.std.specs.List.Sorted.{IsPermutation};
ghost use Rattle.std.specs.Prelude.{IsTrue, Bool, ◌↔◌, ◌≡◌, ℕ, false, List, [], ◌∷◌, ◌++◌, map, None, Result};
ghost use Rattle.dispatch_tables.specs.Event.{Event};
ghost use Rattle.event_loop.specs.PollerCall.{PollerCall};
ghost use Rattle.event_loop.specs.Registrations.{Registrations, is_id};
ghost use Rattle.dispatch_tables.specs.Priority.{number_of};
ghost use Rattle.event_loop.specs.DispatchOrder.{IsDispatchOrder};
ghost use Rattle.event_loop.specs.Exchange.{Exchanges, ExchangesFit};
ghost use Rattle.event_loop.specs.Requests.{AreMadeThrough};
ghost use Rattle.event_loop.specs.declared.ops.EventOps.{EventOps};
ghost use Rattle.event_loop.specs.Registry.{Registry, LoopStep, Steps, Left, AreBelow, id_of};
ghost use Rattle.event_loop.specs.Dispatch.{Position, Delivery, is_removed, still_pending, with_pending, IsDelivery};
ghost use Rattle.event_loop.specs.Iteration.{LoopContents};
ghost use Rattle.event_manager.specs.Trace.{TraceEntry, IsTrace, new_state};
ghost use Rattle.event_manager.specs.Projection.{NonInterference, IsApart, IsAsIfAlone, receiver_of};
ghost use Rattle.event_manager.specs.Guarantees.{AreGiven, RemovedStayGone, RemovedStayUnknown, IsSound, IsUntouched, FreesExactly};
ghost use Rattle.event_loop.specs.LoopState.{LoopState};
ghost use Rattle.event_manager.specs.declared.calls.Call.{Call};
ghost use Rattle.event_manager.specs.declared.calls.Reply.{Reply};
ghost use Rattle.event_manager.specs.Driven.{IsDriven};
ghost use Rattle.event_manager.specs.History.{Turn, IsHistory, history_of};
ghost use Rattle.event_manager.specs.TraceProjection.{TracesProject};
ghost use Rattle.event_manager.specs.Life.{Lives, life_of};
ghost use Rattle.event_manager.specs.Wants.{by_test, AreDisjoint, IsWithin, StaysWithin};
ghost use Rattle.std.specs.FinMap.{get};
ghost use Rattle.event_loop.specs.declared.error.Error.{Error};
ghost use Rattle.event_manager.specs.JobQueue.{QueueState, IsSend};
ghost use Rattle.event_manager.specs.WakeUps.{WakeState, AreSteps, ReachesQueue, NoJobWaitsUnheard, new_wake_state};
ghost use Rattle.dispatch_tables.specs.Ownership.{class_in};

use crate::jobs::Job;
pub use event_loop::events_are_equal;
use event_loop::{EventPoller, MutEventSubscriber, Priority, SubscriberId};
use std::cmp::Ordering;
use std::hash::{Hash, Hasher};

/// A step of the queue of jobs, or of the counter that wakes its loop.
#[derive(Drop)]
pub enum WakeStep<J> {
    /// A sender that has the queue's lock rings the counter for a job.
    Ring,
    /// That sender puts the job last, and releases the lock.
    Queue(J),
    /// Somebody rings the counter, with or without the lock, and sends nothing.
    Kick,
    /// The loop clears the counter, which needs no lock.
    Clear,
    /// The loop takes all that waits.
    Take,
    /// The manager closes.
    Close,
}

/// Non-interference: a history's projection to an id that is apart from its neighbours (no other id owns at the start, or adds with
/// success, a descriptor that the id owns at the start or asks to add) is itself a history, with the same steps for that id, the
/// same waits, deliveries, exchanges and end value. A trace in which no job ran has one with its calls and replies.
pub fn non_interference<S: MutEventSubscriber, J: Job<S>>()
    ensures traces { (before : LoopContents S) (trace : List (TraceEntry S J J.Reply)) (after : LoopContents S) →
        IsTrace S.begins S.serves J.may before trace after → IsHistory S.begins S.serves before.registry (history_of trace) after.registry }
    ensures joined { (before : Registry S) (history : List (Turn S)) (between : Registry S) (more : List (Turn S)) (after : Registry S) →
        IsHistory S.begins S.serves before history between → IsHistory S.begins S.serves between more after → IsHistory S.begins S.serves before (history ++ more) after }
    ensures projected { (before : Registry S) (history : List (Turn S)) (after : Registry S) →
        IsHistory S.begins S.serves before history after → NonInterference S.begins S.serves before history after }
    ensures without_jobs { (before : LoopContents S) (trace : List (TraceEntry S J J.Reply)) (after : LoopContents S) →
        IsTrace S.begins S.serves J.may before trace after → TracesProject S.begins S.serves J.may before trace after }
{}

/// A subscriber that wants only descriptors that no other id may have is as if alone. `wants` says which a subscriber of that value
/// may ever ask for, `claims` which id may have which. If nobody comes to want or asks to add more, and what joins, replaces or is
/// asked from outside is within its id's claims, as the registry is at the start, the registry is so at the end. If no two ids
/// claim the same descriptor, each is apart from its neighbours in that history, which so has a projection to each.
pub fn wants_keep_apart<S: MutEventSubscriber>()
    ensures kept { (wants : S → ℕ → Bool) (claims : ℕ → ℕ → Bool) (before : Registry S) (history : List (Turn S)) (after : Registry S) →
        StaysWithin (by_test wants) (by_test claims) S.begins S.serves before history after → IsWithin (by_test wants) (by_test claims) after }
    ensures apart { (wants : S → ℕ → Bool) (claims : ℕ → ℕ → Bool) (before : Registry S) (history : List (Turn S)) (after : Registry S) → AreDisjoint (by_test claims) →
        StaysWithin (by_test wants) (by_test claims) S.begins S.serves before history after → (i : ℕ) → IsApart i before history }
    ensures as_if_alone { (wants : S → ℕ → Bool) (claims : ℕ → ℕ → Bool) (before : Registry S) (history : List (Turn S)) (after : Registry S) → AreDisjoint (by_test claims) →
        StaysWithin (by_test wants) (by_test claims) S.begins S.serves before history after → (i : ℕ) → IsAsIfAlone S.begins S.serves i before history after }
{}

/// What happens to an id is a life of its own: its value at the end comes from that at the start by its own joins, deliveries,
/// replacements and leaves. Joins and deliveries are as the subscriber's relations say; a replacement may put any value.
pub fn lives_are_its_own<S: MutEventSubscriber>()
    ensures { (i : ℕ) (before : Registry S) (history : List (Turn S)) (after : Registry S) →
        IsHistory S.begins S.serves before history after → Lives S.begins S.serves (get before.values i) (life_of i history) (get after.values i) }
{}

/// The ids that joins give in a trace follow each other from the next id on, each once. If each held id is below the next, as in a
/// new manager, that stays so, and each later call for an id that left is refused: by the replies alone, with `InvalidId`.
pub fn ids_are_given_once<S: MutEventSubscriber, J: Job<S>>()
    ensures given { (before : LoopContents S) (trace : List (TraceEntry S J J.Reply)) (after : LoopContents S) →
        IsTrace S.begins S.serves J.may before trace after → AreGiven before.registry.next (history_of trace) after.registry.next }
    ensures removed { (before : LoopContents S) (trace : List (TraceEntry S J J.Reply)) (after : LoopContents S) →
        IsTrace S.begins S.serves J.may before trace after → AreBelow before.registry.next before.registry.values → RemovedStayGone (history_of trace) }
    ensures unknown { (before : LoopContents S) (trace : List (TraceEntry S J J.Reply)) (after : LoopContents S) →
        IsTrace S.begins S.serves J.may before trace after → AreBelow before.registry.next before.registry.values →
        RemovedStayUnknown (map (λ entry. entry.call) trace) (map (λ entry. entry.reply) trace) }
    ensures new { (endpoint : ℕ) → AreBelow 1 (new_state {V = S} endpoint).registry.values }
    ensures below { (before : LoopContents S) (trace : List (TraceEntry S J J.Reply)) (after : LoopContents S) →
        IsTrace S.begins S.serves J.may before trace after → AreBelow before.registry.next before.registry.values → AreBelow after.registry.next after.registry.values }
{}

/// In every trace of a new manager all owners of descriptors are in the map of subscribers; nobody owns the endpoint's descriptor.
pub fn owners_are_subscribers<S: MutEventSubscriber, J: Job<S>>()
    ensures new { (endpoint : ℕ) → IsSound (new_state {V = S} endpoint).registry }
    ensures kept { (before : LoopContents S) (trace : List (TraceEntry S J J.Reply)) (after : LoopContents S) →
        IsTrace S.begins S.serves J.may before trace after → IsSound before.registry → IsSound after.registry }
{}

/// Isolation: a step for an id, or an event that it gets, leaves the values, the descriptors with their priorities, and the pending
/// events of all others; an event that nobody gets, those of all. A leave frees exactly its id's descriptors, whatever the poller
/// answers. Pending after an event of a batch are the later ones whose descriptor no exchange so far removed.
pub fn others_are_untouched<S: MutEventSubscriber>()
    ensures steps { (before : Registry S) (step : LoopStep S) (after : Registry S) → Steps S.begins before step after →
        (j : ℕ) → is_id j (id_of step) ≡ false → IsUntouched j before after }
    ensures deliveries { (before : Registry S) (removed : Bool) (event : Event) (delivery : Delivery S) (after : Registry S) →
        IsDelivery S.serves before removed event delivery after → (j : ℕ) → is_id j (receiver_of delivery) ≡ false → IsUntouched j before after }
    ensures leaving { (before after : Registry S) (i : ℕ) (value : S) (calls : List PollerCall) →
        Steps S.begins before (Left i value calls) after → FreesExactly i before.registrations after.registrations }
    ensures pending { (before : Registry S) (earlier : List (Position S)) (event : Event) (later : List Event) (delivery : Delivery S) (after : Registry S) →
        IsDelivery S.serves (with_pending (still_pending earlier later) before) (is_removed event.fd earlier) event delivery after →
        after.registrations.pending ≡ still_pending (earlier ++ record { event = event; delivery = delivery } ∷ []) later }
{}

/// Each report has exactly one order of dispatch: a permutation of it, and the report itself if no descriptor has a class above 0.
pub fn one_dispatch_order()
    ensures exists { (registrations : Registrations) (report : List Event) → (ordered : List Event) × IsDispatchOrder registrations report ordered }
    ensures unique { (registrations : Registrations) (report one other : List Event) →
        IsDispatchOrder registrations report one → IsDispatchOrder registrations report other → one ≡ other }
    ensures all { (registrations : Registrations) (report ordered : List Event) →
        IsDispatchOrder registrations report ordered → IsPermutation report ordered }
    ensures lowest { (registrations : Registrations) (report : List Event) →
        ((fd : ℕ) → class_in registrations.owners fd ≡ 0) → IsDispatchOrder registrations report report }
{}

/// The empty list of exchanges changes no registration, and two lists in a row are one, for registrations and poller: so a
/// subscriber made of subscribers has their exchanges, joined.
pub fn exchanges_join<P: EventPoller>()
    ensures empty { (i : ℕ) (registrations : Registrations) → ExchangesFit i registrations [] [] registrations }
    ensures joined { (i : ℕ) (before mid after : Registrations) (exchanges more : Exchanges) (calls rest : List PollerCall) →
        ExchangesFit i before exchanges calls mid → ExchangesFit i mid more rest after → ExchangesFit i before (exchanges ++ more) (calls ++ rest) after }
    ensures made { (before mid after : EventOps P) (exchanges more : Exchanges) (calls rest : List PollerCall) →
        AreMadeThrough P.controls P.waits before mid exchanges calls → AreMadeThrough P.controls P.waits mid after more rest →
        AreMadeThrough P.controls P.waits before after (exchanges ++ more) (calls ++ rest) }
{}

/// The empty list of calls is driven, if each held id is below the next, and two driven lists in a row are one: what `drive`
/// promises of a list holds of all that a program drove bit by bit.
pub fn driven_lists_join<S: MutEventSubscriber, J: Job<S>, P: EventPoller>()
    ensures empty { (state : LoopState S P) → AreBelow state.registry.next state.registry.values →
        IsDriven S.begins S.serves J.may P.controls P.waits state [] [] state }
    ensures joined { (before between after : LoopState S P) (calls more_calls : List (Call S)) (replies more_replies : List (Reply S)) →
        IsDriven S.begins S.serves J.may P.controls P.waits before calls replies between →
        IsDriven S.begins S.serves J.may P.controls P.waits between more_calls more_replies after →
        IsDriven S.begins S.serves J.may P.controls P.waits before (calls ++ more_calls) (replies ++ more_replies) after }
{}

/// No job waits unheard: while the counter is 0 and the loop isn't between its clear and its take, no job waits, and no sender is
/// between its ring and its job. That holds of a new queue and a counter of 0, and after any list of steps, agreed to or refused,
/// in any order that the queue's lock allows, if only the loop clears the counter: a loop that sleeps because it is 0 leaves no job
/// waiting. A send, whatever its answer, is such a list of steps; a take of all that waits, and a close, are one step each.
pub fn no_job_waits_unheard<J>()
    ensures new { NoJobWaitsUnheard (new_wake_state {J = J}) }
    ensures sends { (before : WakeState J) (job : J) (answer : Result ℕ Error) (queue : QueueState J (Unit {0})) → before.job_is_to_come ≡ false →
        IsSend (λ rung. Unit {0}) before.queue job None answer queue → ReachesQueue before queue }
    ensures kept { (before : WakeState J) (steps : List (WakeStep J)) (after : WakeState J) →
        AreSteps before steps after → NoJobWaitsUnheard before → NoJobWaitsUnheard after }
{}

/// Priorities compare as their numbers do.
pub fn compare_priorities(a: &Priority, b: &Priority) -> Ordering
    ensures { result ≡ nat_cmp (number_of a.now) (number_of b.now) }
{
    a.cmp(b)
}

/// Equality of ids is that of their numbers.
pub fn ids_are_equal(a: &SubscriberId, b: &SubscriberId) -> bool
    ensures { IsTrue result ↔ (a.now ≡ b.now) }
{
    a == b
}

/// The hash of an id is that of its number.
pub fn hash_id<H: Hasher>(id: &SubscriberId, state: &mut H)
    ensures { state.new ≡ fold H.write state.old (fed.u64 id.now) }
{
    id.hash(state)
}
