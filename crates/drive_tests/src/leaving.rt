//! What a program's own contract can say of a list of calls: who left is asked for nothing.

ghost use Rattle.std.specs.Prelude.{◌≡◌, [], ◌∷◌, ◌++◌, OnOk, Result, Ok, Err};
ghost use Rattle.event_manager.specs.Error.{Error};
ghost use Rattle.event_manager.specs.Error.TheVariants.{InvalidId};
ghost use Rattle.event_manager.specs.declared.calls.Reply.{Reply};
ghost use Rattle.event_manager.specs.declared.calls.Reply.TheVariants.{Removed, Asked};

use event_manager::{
    Call, EventManager, EventPoller, Job, MutEventSubscriber, NamedCounter, Reply, Request, Result,
    SubscriberId, drive,
};
use std::alloc::Global;
use std::sync::Wait;
use std::time::Clock;

/// Lets a subscriber leave, and then makes requests for it: they are refused with `InvalidId`, whatever the first reply.
pub fn remove_then_ask<S, J, N, P, R>(
    alloc: Global,
    manager: &mut EventManager<S, J, N, P>,
    id: SubscriberId,
    requests: Vec<Request>,
    replies: &mut Vec<Reply<S>>,
    rt: &R,
) -> Result<()>
where
    S: MutEventSubscriber + Drop,
    J: Job<S>,
    N: NamedCounter,
    P: EventPoller,
    R: Wait + Clock,
    ensures { OnOk result ((removed : Result S Error) × (replies.new.items ≡ replies.old.items ++ Removed removed ∷ Asked (Err InvalidId) ∷ [])) }
{
    let mut calls = Vec::new(alloc);
    calls.push(Call::Remove(id))?;
    calls.push(Call::Ask(id, requests))?;
    drive(manager, calls, replies, rt)
}

/// Lets a subscriber leave and another join, runs once, and then makes requests for the first: where it left, they are refused
/// with `InvalidId`, whoever joined and whatever jobs did.
pub fn replace_then_ask<S, J, N, P, R>(
    alloc: Global,
    manager: &mut EventManager<S, J, N, P>,
    id: SubscriberId,
    successor: S,
    requests: Vec<Request>,
    replies: &mut Vec<Reply<S>>,
    rt: &R,
) -> Result<()>
where
    S: MutEventSubscriber + Drop,
    J: Job<S>,
    N: NamedCounter,
    P: EventPoller,
    R: Wait + Clock,
    ensures { OnOk result ((first second third fourth : Reply S)
        × (replies.new.items ≡ replies.old.items ++ first ∷ second ∷ third ∷ fourth ∷ []) × ((gone : S) → first ≡ Removed (Ok gone) → fourth ≡ Asked (Err InvalidId))) }
{
    let mut calls = Vec::new(alloc);
    calls.push(Call::Remove(id))?;
    calls.push(Call::Add(successor))?;
    calls.push(Call::Run(0))?;
    calls.push(Call::Ask(id, requests))?;
    drive(manager, calls, replies, rt)
}
