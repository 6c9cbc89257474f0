//! The calls that lines of a script make.

ghost use Rattle.std.specs.Prelude.{◌≡◌, [], ◌∷◌, IfErr, IfOk, OnErr};
ghost use Rattle.event_manager.specs.Driven.{IsDriven};
ghost use Rattle.event_manager.specs.Manager.{state_of};
ghost use Rattle.evloop.specs.Replies.{IsReplyTo};

use event_manager::{
    Call, EventManager, EventPoller, Job, MutEventSubscriber, NamedCounter, Reply, drive,
};
use evloop_script::fault::Fault;
use std::alloc::Global;
use std::sync::Wait;
use std::time::Clock;

/// Makes one call, as a list of its own, and answers as the manager does: with a reply of the call's kind.
///
/// # Errors
///
/// `OutOfMemory`, the call not having been made.
pub fn make_call<S, J, N, P, R>(
    rt: &R,
    alloc: Global,
    manager: &mut EventManager<S, J, N, P>,
    call: Call<S>,
) -> Result<Reply<S>, Fault>
where
    S: MutEventSubscriber + Drop,
    J: Job<S>,
    N: NamedCounter,
    P: EventPoller,
    R: Wait + Clock,
    ensures driven { IfOk result (λ reply. IsDriven S.begins S.serves J.may P.controls P.waits (state_of manager.old) (call ∷ []) (reply ∷ []) (state_of manager.new)) }
    ensures kind { IfOk result (λ reply. IsReplyTo call reply) }
    ensures refused { OnErr result (state_of manager.new ≡ state_of manager.old) }
    ensures memory { IfErr result (λ fault. fault ≡ Fault.OutOfMemory) }
{
    let mut calls = Vec::new(alloc);
    calls.push(call)?;
    let mut replies = Vec::new(alloc);
    let Ok(()) = drive(manager, calls, &mut replies, rt) else {
        return Err(Fault::OutOfMemory);
    };
    match replies.pop() {
        Some(reply) => Ok(reply),
        None => unreachable!(),
    }
}
