//! A manager that is known to come from a new one, by calls and jobs.

ghost use Rattle.std.specs.Prelude.{◌≡◌, List, negsuc, IfErr, IfOk};
ghost use Rattle.std.specs.FinMap as map;
ghost use Rattle.event_loop.specs.Registry.{LoopStep, HasId, LacksId};
ghost use Rattle.event_loop.specs.LoopState.{HasStepped, HaveStepped, IsJoin, IsLeave, IsLoopIteration, contents_of};
ghost use Rattle.event_manager.specs.Manager.{endpoint_of, IsMade};
ghost use Rattle.event_manager.specs.Actions.{IsDoneTo};
ghost use Rattle.event_manager.specs.Reached.{IsReached, HasEnded};

use crate::endpoint::RemoteEndpoint;
use crate::endpoint::closed::Closed;
use crate::jobs::{Action, ActionOn, Job};
use crate::manager::EventManager;
use crate::named_counter::NamedCounter;
use event_loop::{
    BoxedPoller, Error, EventPoller, MutEventSubscriber, Result, SubscriberId, SubscriberOps,
    Subscribers,
};
use job_tickets::ledgers::Ledgers;
use std::alloc::Global;
use std::marker::Model;
use std::sync::Wait;
use std::time::Clock;

/// An [`EventManager`] known to come from a new one by calls and jobs: the [`laws`](crate::laws) hold of what it has done, and what
/// each service and job keeps it has kept. It has no `subscriber_mut` and no `event_ops`: what they lend could be replaced.
#[derive(Drop)]
pub struct TrackedManager<S: MutEventSubscriber, J: Job<S>, N: NamedCounter, P = BoxedPoller> {
    manager: EventManager<S, J, N, P>,
}

impl<S: MutEventSubscriber, J: Job<S>, N: NamedCounter, P> Model for TrackedManager<S, J, N, P> {
    ghost use Rattle.event_loop.specs.LoopState.{LoopState, contents_of};
    ghost use Rattle.event_manager.specs.Manager.{state_of};
    ghost use Rattle.event_manager.specs.Reached.{loop_state_code, IsReached};

    ghost Value = { LoopState S P };

    ghost coded = { loop_state_code S.code P.code };

    ghost view = { λ t. state_of t.manager };

    ghost invariant = { λ t. IsReached S.begins S.serves J.may (contents_of (state_of t.manager)) };
}

impl<S: MutEventSubscriber, J: Job<S>, N: NamedCounter, P: EventPoller> TrackedManager<S, J, N, P> {
    /// As [`EventManager::new_with_capacity`].
    pub fn new_with_capacity(
        alloc: Global,
        poller: P,
        counter: N,
        capacity: usize,
        ledgers: Ledgers<N>,
    ) -> Result<Self>
    where
        S: Drop,
        P: Drop,
        ensures { IsMade P.controls poller (endpoint_of N.descriptor counter) capacity (λ t. t) result }
    {
        let manager = EventManager::new_with_capacity(alloc, poller, counter, capacity, ledgers)?;
        Ok(TrackedManager { manager })
    }

    /// As [`EventManager::poller`].
    pub fn poller(&self) -> &P
        ensures { result.now ≡ self.now.poller }
    {
        self.manager.poller()
    }

    /// Does nothing: its contract is the history by which a new manager became this one.
    pub fn reveal_history(&self)
        ensures { IsReached S.begins S.serves J.may (contents_of self.now) }
    {
        // Read, so that the check knows what holds of it.
        let _manager = &self.manager;
    }

    /// As [`EventManager::run`].
    pub fn run<R: Wait + Clock>(&mut self, rt: &R) -> Result<usize>
        ensures { IsLoopIteration S.begins S.serves J.may P.controls P.waits self.old (negsuc 0) result self.new }
    {
        self.run_with_timeout(-1, rt)
    }

    /// As [`EventManager::run_with_timeout`].
    pub fn run_with_timeout<R: Wait + Clock>(&mut self, ms: i32, rt: &R) -> Result<usize>
        ensures { IsLoopIteration S.begins S.serves J.may P.controls P.waits self.old ms result self.new }
    {
        self.manager.run_with_timeout(ms, rt)
    }

    /// As [`EventManager::remote_endpoint`].
    pub fn remote_endpoint(&self) -> Result<RemoteEndpoint<S, J, N>>
        ensures refusals { IfErr result (λ e. e ≡ Error.OutOfMemory) }
    {
        self.manager.remote_endpoint()
    }

    pub(crate) fn has_waiting_jobs<R: Wait>(&self, rt: &R) -> bool {
        self.manager.has_waiting_jobs(rt)
    }

    /// As [`EventManager::into_parts`].
    pub fn into_parts<R: Wait + Clock>(self, rt: &R) -> (Closed<N>, Subscribers<S>, P)
        ensures taken { result.0.taken ≡ self.taken }
        ensures subscribers { result.1 ≡ self.registry.values }
        ensures poller { result.2 ≡ self.poller }
        ensures ended { HasEnded S.begins S.serves J.may result.1 result.0.taken }
    {
        self.manager.into_parts(rt)
    }

    /// As [`EventManager::close`].
    pub fn close<R: Wait + Clock>(self, rt: &R) -> Closed<N>
    where
        S: Drop,
        P: Drop,
        ensures taken { result.taken ≡ self.taken }
    {
        self.manager.close(rt)
    }
}

impl<S: MutEventSubscriber + Drop, J: Job<S>, N: NamedCounter, P: EventPoller> TrackedManager<
    S,
    J,
    N,
    P,
> {
    /// As [`SubscriberOps::add_subscriber`].
    pub fn add_subscriber(&mut self, subscriber: S) -> Result<SubscriberId>
        ensures { (step : LoopStep S) × IsJoin subscriber result step × HasStepped S.begins P.controls P.waits self.old step self.new }
    {
        self.manager.add_subscriber(subscriber)
    }

    /// As [`SubscriberOps::ids`].
    pub fn ids(&self, alloc: Global) -> Result<Vec<SubscriberId>>
        ensures ids { IfOk result (λ ids. ids.items ≡ map.keys self.now.registry.values) }
        ensures refusals { IfErr result (λ e. e ≡ Error.OutOfMemory) }
    {
        self.manager.ids(alloc)
    }

    /// As [`SubscriberOps::remove_subscriber`].
    pub fn remove_subscriber(&mut self, id: SubscriberId) -> Result<S>
        ensures { (step : LoopStep S) × IsLeave id result step × HasStepped S.begins P.controls P.waits self.old step self.new }
    {
        self.manager.remove_subscriber(id)
    }

    /// As [`SubscriberOps::subscriber`].
    pub fn subscriber(&self, id: SubscriberId) -> Result<&S>
        ensures found { IfOk result (λ r. HasId self.now.registry id r.now) }
        ensures lost { IfErr result (λ e. (e ≡ Error.InvalidId) × LacksId self.now.registry id) }
    {
        self.manager.subscriber(id)
    }
}

fn act_here<S, A, N, P, R>(
    manager: &mut TrackedManager<S, ActionOn<A>, N, P>,
    action: ActionOn<A>,
    rt: &R,
) -> Result<A::Reply>
where
    S: MutEventSubscriber + Drop,
    A: Action<S>,
    N: NamedCounter,
    P: EventPoller,
    R: Wait + Clock,
    ensures { (steps : List (LoopStep S)) × IsDoneTo A.does action.subscriber action.action steps result × HaveStepped S.begins P.controls P.waits manager.old steps manager.new }
{
    manager.manager.call_here(action, rt)
}

impl<S: MutEventSubscriber + Drop, A: Action<S>, N: NamedCounter, P: EventPoller> TrackedManager<
    S,
    ActionOn<A>,
    N,
    P,
> {
    /// Does the action at once, without a ticket: in place of `subscriber_mut`. `InvalidId` if nobody has the id.
    pub fn act<R: Wait + Clock>(&mut self, action: ActionOn<A>, rt: &R) -> Result<A::Reply>
        ensures { (steps : List (LoopStep S)) × IsDoneTo A.does action.subscriber action.action steps result × HaveStepped S.begins P.controls P.waits self.old steps self.new }
    {
        act_here(self, action, rt)
    }
}
