//! A job of whose replies its callers know something.

ghost use Rattle.std.specs.Prelude.{◌≤◌, IfOk};

use event_manager::{
    EventPoller, Job, MutEventSubscriber, NamedCounter, Registry, RemoteEndpoint, Result,
};
use std::sync::Wait;
use std::time::Clock;

/// Asks how many percent a part is of a hundred: at most 100.
#[derive(Drop)]
pub struct Percent {
    /// The part.
    pub part: u64,
}

impl<S: MutEventSubscriber> Job<S> for Percent {
    type Reply = u64;

    ghost use Rattle.std.specs.Prelude.{◌≡◌, ◌≤◌, []};

    ghost may = { λ self steps reply. steps ≡ [] };

    ghost replies = { λ reply. reply ≤ 100 };

    fn call<P: EventPoller, R: Wait + Clock>(self, _registry: &mut Registry<S, P>, _rt: &R) -> u64 {
        self.part.min(100)
    }
}

/// What the loop replies: the caller knows that it is at most 100.
pub fn ask_percent<S: MutEventSubscriber, N: NamedCounter, R: Wait + Clock>(
    endpoint: &RemoteEndpoint<S, Percent, N>,
    part: u64,
    rt: &R,
) -> Result<u64>
    ensures { IfOk result (λ percent. percent ≤ 100) }
{
    endpoint.call_blocking(Percent { part }, rt)
}
