//! Lists of calls, which [`drive`] makes.

ghost use Rattle.std.specs.Prelude.{◌≡◌, List, ◌++◌, OnOk, OnErr, IfErr};
ghost use Rattle.event_manager.specs.SingleCall.{HasCalled};
ghost use Rattle.event_manager.specs.Driven.{IsDriven};
ghost use Rattle.event_manager.specs.Manager.{state_of};
ghost use Rattle.event_manager.specs.Trace.{Effect, Matches};

mod ask;
mod plan;

use crate::calls::{Call, Reply};
use crate::jobs::Job;
use crate::lists::ask::{ask, replace};
use crate::lists::plan::{Planned, plan_all};
use crate::manager::EventManager;
use crate::named_counter::NamedCounter;
use event_loop::{Error, EventPoller, MutEventSubscriber, Result, SubscriberOps};
use std::sync::Wait;
use std::time::Clock;

fn make_call<S, J, N, P, R>(
    manager: &mut EventManager<S, J, N, P>,
    planned: Planned<S>,
    rt: &R,
) -> Reply<S>
where
    S: MutEventSubscriber + Drop,
    J: Job<S>,
    N: NamedCounter,
    P: EventPoller,
    R: Wait + Clock,
    ensures { (effect : Effect S J J.Reply) × Matches effect planned.call result
        × HasCalled S.begins S.serves J.may P.controls P.waits (state_of manager.old) effect (state_of manager.new) }
{
    let Planned { call, answers } = planned;
    match call {
        Call::Add(subscriber) => Reply::Added(manager.add_subscriber(subscriber)),
        Call::Remove(id) => Reply::Removed(manager.remove_subscriber(id)),
        Call::Set(id, subscriber) => Reply::Set(replace(manager, id, subscriber)),
        Call::Ask(id, requests) => Reply::Asked(ask(manager, id, &requests, answers)),
        Call::Run(ms) => Reply::Ran(manager.run_with_timeout(ms, rt)),
    }
}

/// Makes the calls in order, and appends a reply for each. `Set` returns the old value; if nobody has the id, `InvalidId`, and the
/// new one is dropped. `Ask` makes its requests in order by [`event_ops`](SubscriberOps::event_ops), whatever each is answered.
///
/// All room for lists is made before the first call, by the allocators of the two vectors. `OutOfMemory` if it is refused: then no
/// call is made, the calls are dropped, and manager and replies are as before.
pub fn drive<S, J, N, P, R>(
    manager: &mut EventManager<S, J, N, P>,
    calls: Vec<Call<S>>,
    replies: &mut Vec<Reply<S>>,
    rt: &R,
) -> Result<()>
where
    S: MutEventSubscriber + Drop,
    J: Job<S>,
    N: NamedCounter,
    P: EventPoller,
    R: Wait + Clock,
    ensures driven { OnOk result ((new : List (Reply S)) × (replies.new.items ≡ replies.old.items ++ new)
        × IsDriven S.begins S.serves J.may P.controls P.waits (state_of manager.old) calls.items new (state_of manager.new)) }
    ensures refused { OnErr result ((manager.new ≡ manager.old) × (replies.new.items ≡ replies.old.items)) }
    ensures memory { IfErr result (λ e. e ≡ Error.OutOfMemory) }
{
    // Its contract says that each held id is below the next.
    let _next = manager.next_id();
    replies.reserve(calls.len())?;
    let mut plan = plan_all(calls)?;
    while let Some(planned) = plan.pop() {
        let reply = make_call(manager, planned, rt);
        replies.push_reserved(reply);
    }
    Ok(())
}
