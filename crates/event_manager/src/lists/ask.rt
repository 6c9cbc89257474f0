//! Calls of a list for one subscriber: requests in order, and another value.

ghost use Rattle.std.specs.Prelude.{◌≡◌, ◌≤◌, List, [], length, vec_capacity};
ghost use Rattle.event_loop.specs.Exchange.{Exchanges, requests_of, answers_of};
ghost use Rattle.event_loop.specs.PollerCall.{PollerCall};
ghost use Rattle.event_loop.specs.Registry.{LoopStep};
ghost use Rattle.event_loop.specs.Requests.{AreMadeThrough};
ghost use Rattle.event_loop.specs.LoopState.{HasStepped};
ghost use Rattle.event_manager.specs.SingleCall.{IsAsk, IsReplacement};

use event_loop::{EventOps, EventPoller, Request, Result, SubscriberId, SubscriberOps};
use std::mem;

fn make_requests<P: EventPoller>(
    ops: &mut EventOps<P>,
    requests: &[Request],
    answers: &mut Vec<Result<()>>,
)
    requires none { answers.old.items ≡ [] }
    requires room { length requests.now ≤ vec_capacity answers.old }
    ensures { (exchanges : Exchanges) × (calls : List PollerCall) × (requests_of exchanges ≡ requests.now) × (answers_of exchanges ≡ answers.new.items)
        × AreMadeThrough P.controls P.waits ops.old ops.new exchanges calls }
{
    for request in requests {
        let answer = ops.request(*request);
        answers.push_reserved(answer);
    }
}

pub(crate) fn ask<M: SubscriberOps>(
    manager: &mut M,
    id: SubscriberId,
    requests: &[Request],
    answers: Vec<Result<()>>,
) -> Result<Vec<Result<()>>>
    requires none { answers.items ≡ [] }
    requires room { length requests.now ≤ vec_capacity answers }
    ensures { (step : LoopStep M.Subscriber) × IsAsk id requests.now result step
        × HasStepped M.Subscriber.begins M.Poller.controls M.Poller.waits (M.seen manager.old) step (M.seen manager.new) }
{
    let mut answers = answers;
    match manager.event_ops(id) {
        Ok(ops) => {
            make_requests(ops, requests, &mut answers);
            Ok(answers)
        }
        Err(e) => Err(e),
    }
}

pub(crate) fn replace<M: SubscriberOps>(
    manager: &mut M,
    id: SubscriberId,
    subscriber: M::Subscriber,
) -> Result<M::Subscriber>
where
    M::Subscriber: Drop,
    ensures { (step : LoopStep M.Subscriber) × IsReplacement id subscriber result step
        × HasStepped M.Subscriber.begins M.Poller.controls M.Poller.waits (M.seen manager.old) step (M.seen manager.new) }
{
    match manager.subscriber_mut(id) {
        Ok(held) => Ok(mem::replace(held, subscriber)),
        Err(e) => Err(e),
    }
}
