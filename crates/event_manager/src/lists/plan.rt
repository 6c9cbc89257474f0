//! Calls with the room that their answers need.

ghost use Rattle.std.specs.Prelude.{◌≡◌, ◌≤◌, [], IfOk, map, reverse, vec_capacity, vec_len};
ghost use Rattle.event_manager.specs.SingleCall.{answers_to};

use crate::calls::Call;
use event_loop::Result;
use std::alloc::AllocError;

#[derive(Drop)]
pub(crate) struct Planned<S> {
    pub(crate) call: Call<S>,
    pub(crate) answers: Vec<Result<()>>,
    ghost none: { answers.items ≡ [] },
    ghost room: { answers_to call ≤ vec_capacity answers },
}

fn count_requests<S>(call: &Call<S>) -> usize
    ensures { result ≡ answers_to call.now }
{
    match call {
        Call::Ask(_, requests) => requests.len(),
        Call::Add(_) | Call::Remove(_) | Call::Set(_, _) | Call::Run(_) => 0,
    }
}

/// Makes the room for all calls. The last call stands first.
pub(crate) fn plan_all<S: Drop>(
    calls: Vec<Call<S>>,
) -> std::result::Result<Vec<Planned<S>>, AllocError>
    ensures calls { IfOk result (λ plan. map (λ p. p.call) (reverse plan.items) ≡ calls.items) }
    ensures count { IfOk result (λ plan. vec_len plan ≡ vec_len calls) }
{
    let alloc = *calls.allocator();
    let mut calls = calls;
    let mut plan = Vec::with_capacity(alloc, calls.len())?;
    while let Some(call) = calls.pop() {
        let answers = Vec::with_capacity(alloc, count_requests(&call))?;
        plan.push(Planned { call, answers })?;
    }
    Ok(plan)
}
