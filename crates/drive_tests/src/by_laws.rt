//! What laws say of a program's own runs.

ghost use Rattle.std.specs.Prelude.{◌≡◌, ◌≢◌, ℕ, List, None, negsuc, IfOk};
ghost use Rattle.std.specs.FinMap.{get};
ghost use Rattle.event_manager.specs.Ownership.{class_in};
ghost use Rattle.event_manager.specs.Dispatch.{events_of};
ghost use Rattle.event_manager.specs.EventLoop.{seen_of};
ghost use Rattle.event_manager.specs.Guarantees.{IsSound, IsUntouched};
ghost use Rattle.event_manager.specs.Life.{LifeStep, Lives};
ghost use Rattle.event_manager.specs.LoopState.{IsLoopIteration, no_job};
ghost use Rattle.event_manager.specs.Registry.{AreBelow};

use crate::going_on::{Advance, Meter};
use event_manager::laws::{
    ids_are_given_once, lives_are_its_own, non_interference, one_dispatch_order,
    others_are_untouched, owners_are_subscribers,
};
use event_manager::{
    ActionOn, EventLoop, EventPoller, MutEventSubscriber, NamedCounter, Result, SubscriberId,
    TrackedManager,
};
use std::sync::Wait;
use std::time::Clock;

/// Runs a manager once. Then each owner of a descriptor is held, and nobody owns the endpoint's; each id that is held was given; and
/// what is held under an id came about by that id's own joins, events, actions and leaves.
pub fn run_lawfully<N: NamedCounter, P: EventPoller, R: Wait + Clock>(
    meters: &mut TrackedManager<Meter, ActionOn<Advance>, N, P>,
    rt: &R,
) -> Result<usize>
    ensures sound { IsSound meters.new.registry }
    ensures given { AreBelow meters.new.registry.next meters.new.registry.values }
    ensures lives { (id : ℕ) → (life : List (LifeStep Meter)) × Lives ⟦<Meter as MutEventSubscriber>⟧.begins ⟦<Meter as MutEventSubscriber>⟧.serves None life (get meters.new.registry.values id) }
{
    let ran = meters.run_with_timeout(0, rt);
    meters.reveal_history();
    owners_are_subscribers::<Meter, ActionOn<Advance>>();
    ids_are_given_once::<Meter, ActionOn<Advance>>();
    non_interference::<Meter, ActionOn<Advance>>();
    lives_are_its_own::<Meter>();
    ran
}

/// Lets a meter leave: every other one keeps its value, its descriptors and what is pending for it.
pub fn remove_apart<N: NamedCounter, P: EventPoller>(
    meters: &mut TrackedManager<Meter, ActionOn<Advance>, N, P>,
    id: SubscriberId,
) -> Result<Meter>
    ensures { (other : ℕ) → other ≢ id → IsUntouched other meters.old.registry meters.new.registry }
{
    others_are_untouched::<Meter>();
    meters.remove_subscriber(id)
}

/// Runs a loop once. Where each descriptor has the lowest priority, what the poller reports is dispatched in the order of the report.
pub fn run_in_order<S: MutEventSubscriber, P: EventPoller>(
    subscribers: &mut EventLoop<S, P>,
) -> Result<usize>
    ensures { (did : IsLoopIteration S.begins S.serves no_job P.controls P.waits (seen_of subscribers.old) (negsuc 0) result (seen_of subscribers.new))
        × (((fd : ℕ) → class_in (seen_of subscribers.old).registry.registrations.owners fd ≡ 0) → IfOk did.iteration.waited (λ report. events_of did.iteration.positions ≡ report)) }
{
    one_dispatch_order();
    subscribers.run()
}
