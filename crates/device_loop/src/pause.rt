//! The pause of a block device, a job of two steps.

ghost use Rattle.std.specs.Prelude.{◌≡◌};
ghost use Rattle.event_manager.specs.Registry.{LoopStep};
ghost use Rattle.event_manager.specs.LoopState.{HasStepped, IsRequest};

use crate::api::Device;
use crate::ring::RingName;
use event_manager::{
    Action, ActionOn, Either, Error, EventPoller, Events, Job, Registry, Request, Result,
    SubscriberId, SubscriberOps,
};
use std::sync::Wait;
use std::time::Clock;

/// A block device is to be paused, or to go on.
#[derive(Clone, Copy)]
pub struct SetPaused {
    /// The id of the device.
    pub device: SubscriberId,
    /// Whether it is to be paused.
    pub is_paused: bool,
}

// Sets the flag of a block device, and replies which events it wants of its queue. `InvalidId`: it is another device.
#[derive(Clone, Copy)]
struct SetFlag(bool);

impl<Q: RingName, R: Wait + Drop> Action<Device<Q, R>> for SetFlag {
    type Reply = Result<Events>;

    ghost use Rattle.std.specs.Prelude.{◌≡◌};
    ghost use Rattle.device_loop.specs.Pauses.{with_flag};

    ghost does = { λ self v told w. w ≡ with_flag self.0 v };

    fn act<W: Wait + Clock>(self, device: &mut Device<Q, R>, _rt: &W) -> Result<Events> {
        match device {
            Either::Second(Either::Second(Either::First(block))) => {
                block.set_paused(self.0);
                Ok(block.kicks())
            }
            _ => Err(Error::InvalidId),
        }
    }
}

fn ask<O: SubscriberOps>(owner: &mut O, id: SubscriberId, request: Request) -> Result<Result<()>>
    ensures { (step : LoopStep O.Subscriber) × IsRequest id request result step
        × HasStepped O.Subscriber.begins O.Poller.controls O.Poller.waits (O.seen owner.old) step (O.seen owner.new) }
{
    match owner.event_ops(id) {
        Ok(ops) => Ok(ops.request(request)),
        Err(e) => Err(e),
    }
}

/// Sets the flag, and removes the queue from the loop, which its kicks would wake in vain, or adds it again.
impl<Q: RingName, R: Wait + Drop> Job<Device<Q, R>> for SetPaused {
    type Reply = Result<bool>;

    ghost use Rattle.std.specs.Prelude.{All};
    ghost use Rattle.event_manager.specs.Kept.{StepGoesOn};
    ghost use Rattle.device_loop.specs.Pauses.{IsSameButPaused};

    ghost may = { λ self steps reply. All (StepGoesOn IsSameButPaused) steps };

    fn call<P: EventPoller, W: Wait + Clock>(
        self,
        registry: &mut Registry<Device<Q, R>, P>,
        rt: &W,
    ) -> Result<bool> {
        let SetPaused { device, is_paused } = self;
        let set_flag = ActionOn {
            subscriber: device,
            action: SetFlag(is_paused),
        };
        let kicks = set_flag.call(registry, rt)??;
        let request = if is_paused {
            Request::Remove(kicks)
        } else {
            Request::Add(kicks)
        };
        ask(registry, device, request)??;
        Ok(is_paused)
    }
}
