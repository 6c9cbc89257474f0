//! What a program's own contract can say of its devices: each is as if the others were not there.

ghost use Rattle.std.specs.Prelude.{◌≡◌, ℕ, Bool, [], ◌∷◌, OnOk};
ghost use Rattle.event_manager.specs.Registry.{new_registry};
ghost use Rattle.event_manager.specs.Manager.{state_of};
ghost use Rattle.event_manager.specs.Wants.{WantApart, AllAsIfAlone, IsWithin, by_test};
ghost use Rattle.drive_tests.specs.Devices.{wants, is_own};

use event_manager::laws::wants_keep_apart;
use event_manager::{
    Action, ActionOn, EventManager, EventOps, EventPoller, Events, MutEventSubscriber,
    NamedCounter, Request, Result, SubscriberOps,
};
use std::sync::Wait;
use std::time::Clock;

/// Serves the events of one descriptor.
#[derive(Drop)]
pub struct Device {
    /// What it adds.
    pub own: Events,
    /// How many events it has served.
    pub served: u64,
    /// Whether it serves none.
    pub is_paused: bool,
}

impl MutEventSubscriber for Device {
    ghost use Rattle.std.specs.Prelude.{◌≡◌, [], ◌∷◌};
    ghost use Rattle.event_manager.specs.Exchange.{AsksToAdd, requests_of};
    ghost use Rattle.event_manager.specs.Request.TheVariants.{Add, Remove};

    ghost begins = { λ v exchanges w. AsksToAdd v.own exchanges × (w ≡ v) };

    // It adds its descriptor anew, so that what is still pending for it is reported again.
    ghost serves = { λ v event exchanges w. (requests_of exchanges ≡ Remove v.own ∷ Add v.own ∷ []) × (w ≡ record v { served = w.served }) };

    fn process<P: EventPoller>(&mut self, _events: Events, ops: &mut EventOps<P>) {
        if !self.is_paused {
            self.served = self.served.saturating_add(1);
        }
        let _ = ops.request_both(Request::Remove(self.own), Request::Add(self.own));
    }

    fn init<P: EventPoller>(&mut self, ops: &mut EventOps<P>) {
        let _ = ops.add(self.own);
    }
}

/// Pauses a device, or lets it go on.
#[derive(Drop)]
pub struct Pause(pub bool);

impl Action<Device> for Pause {
    type Reply = ();

    ghost use Rattle.std.specs.Prelude.{◌≡◌};

    ghost does = { λ self v reply w. w ≡ record v { is_paused = self.0 } };

    fn act<R: Wait + Clock>(self, device: &mut Device, _rt: &R) {
        device.is_paused = self.0;
    }
}

/// The devices of a machine.
#[derive(Drop)]
pub struct Machine {
    /// Its disk.
    pub disk: Device,
    /// Its network card.
    pub network: Device,
    /// Its console.
    pub console: Device,
    /// Its timer.
    pub timer: Device,
}

/// Lets the four devices of a machine join a new manager, runs it once, and answers how many events were reported: none where the
/// wait was refused. Where all join, each is as if the others were not there, whatever the poller answers and reports, and whatever
/// actions are sent.
pub fn run_machine<N: NamedCounter, P: EventPoller, R: Wait + Clock>(
    machine: Machine,
    manager: &mut EventManager<Device, ActionOn<Pause>, N, P>,
    rt: &R,
) -> Result<usize>
    requires new { (endpoint : ℕ) × ((state_of manager.old).registry ≡ new_registry endpoint) }
    requires apart { WantApart wants (machine.disk ∷ machine.network ∷ machine.console ∷ machine.timer ∷ []) }
    ensures { OnOk result (AllAsIfAlone ⟦<Device as MutEventSubscriber>⟧.begins ⟦<Device as MutEventSubscriber>⟧.serves (state_of manager.old).registry (state_of manager.new).registry) }
{
    let Machine {
        disk,
        network,
        console,
        timer,
    } = machine;
    manager.add_subscriber(disk)?;
    manager.add_subscriber(network)?;
    manager.add_subscriber(console)?;
    manager.add_subscriber(timer)?;
    Ok(manager.run_with_timeout(0, rt).unwrap_or(0))
}

/// Runs a manager of devices once. Where each of them has and wants only what its id claims, that is so afterwards too, whatever the
/// poller answers and reports, and whatever actions are sent.
pub fn run_within<N: NamedCounter, P: EventPoller, R: Wait + Clock>(
    manager: &mut EventManager<Device, ActionOn<Pause>, N, P>,
    rt: &R,
) -> Result<usize>
    ensures { (claims : ℕ → ℕ → Bool) → IsWithin (by_test is_own) (by_test claims) (state_of manager.old).registry → IsWithin (by_test is_own) (by_test claims) (state_of manager.new).registry }
{
    wants_keep_apart::<Device>();
    manager.run_with_timeout(0, rt)
}
