//! What a program's own contract can say of a run: what each service and each job keeps, the run keeps.

ghost use Rattle.event_manager.specs.EventLoop.{seen_of};
ghost use Rattle.event_manager.specs.Manager.{state_of};
ghost use Rattle.event_manager.specs.Kept.{AllGoOn, HeldGoOn};
ghost use Rattle.event_manager.specs.Kept.{AllHeld};
ghost use Rattle.std.specs.Prelude.{IfOk};
ghost use Rattle.drive_tests.specs.Meters.{no_less, has_gone_on};

use event_manager::{
    Action, ActionOn, Counter, Ended, EventLoop, EventManager, EventOps, EventPoller, Events,
    JobSender, LoopWithSenders, MutEventSubscriber, NamedCounter, Result, SubscriberOps,
    with_senders,
};
use std::alloc::Global;
use std::sync::Wait;
use std::thread::Threads;
use std::time::Clock;

/// Counts the events of one descriptor.
#[derive(Drop)]
pub struct Meter {
    /// What it adds.
    pub own: Events,
    /// What it had counted when it joined.
    pub began: u64,
    /// How many events there were.
    pub count: u64,
}

impl MutEventSubscriber for Meter {
    ghost use Rattle.std.specs.Prelude.{◌≡◌, ◌≤◌, []};
    ghost use Rattle.event_manager.specs.Exchange.{AsksToAdd};

    // It notes its count.
    ghost begins = { λ v exchanges w. AsksToAdd v.own exchanges × (w ≡ record v { began = v.count }) };

    // Its count never goes down.
    ghost serves = { λ v event exchanges w. (exchanges ≡ []) × (v.count ≤ w.count) × (w.began ≡ v.began) };

    fn process<P: EventPoller>(&mut self, _events: Events, _ops: &mut EventOps<P>) {
        self.count = self.count.saturating_add(1);
    }

    fn init<P: EventPoller>(&mut self, ops: &mut EventOps<P>) {
        self.began = self.count;
        let _ = ops.add(self.own);
    }
}

/// Adds this number to a meter's count.
#[derive(Drop)]
pub struct Advance(pub u64);

impl Action<Meter> for Advance {
    type Reply = ();

    ghost use Rattle.std.specs.Prelude.{◌≡◌, ◌≤◌};

    ghost does = { λ self v reply w. (v.count ≤ w.count) × (w.began ≡ v.began) };

    fn act<R: Wait + Clock>(self, meter: &mut Meter, _rt: &R) {
        meter.count = meter.count.saturating_add(self.0);
    }
}

/// Runs a loop once: whoever is in it stays, and no count goes down.
pub fn run_loop<P: EventPoller>(meters: &mut EventLoop<Meter, P>) -> Result<usize>
    ensures { AllGoOn no_less (seen_of meters.old).registry (seen_of meters.new).registry }
{
    meters.run_with_timeout(0)
}

/// Runs a manager once, which is sent actions: no count goes down, whatever is reported and sent.
pub fn run_manager<N: NamedCounter, P: EventPoller, R: Wait + Clock>(
    meters: &mut EventManager<Meter, ActionOn<Advance>, N, P>,
    rt: &R,
) -> Result<usize>
    ensures { HeldGoOn no_less (state_of meters.old).registry (state_of meters.new).registry }
{
    // Its contract says that each held id is below the next.
    let _next = meters.next_id();
    meters.run_with_timeout(0, rt)
}

/// Runs meters beside those who send actions, each on a thread of its own: each meter that is handed out in the end has no
/// less than it had when it joined, whatever the body does, is reported and is sent.
pub fn run_meters<P, C, B, Q, T, R>(
    rt: &R,
    alloc: Global,
    poller: P,
    counter: C,
    body: &mut B,
) -> Result<Ended<Meter, T, P>>
where
    P: EventPoller + Drop,
    C: Counter + Send + Sync + Drop,
    B: LoopWithSenders<Meter, ActionOn<Advance>, Q, R>,
    Q: JobSender<Meter, ActionOn<Advance>, T, R> + Send + Drop,
    T: Send + Drop,
    R: Threads + Wait + Clock + Sync,
    ensures { IfOk result (λ ended. AllHeld has_gone_on ended.subscribers) }
{
    with_senders(rt, alloc, poller, counter, body)
}
