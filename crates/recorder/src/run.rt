//! A run of the devices.

ghost use Rattle.std.specs.Prelude.{IfOk};
ghost use Rattle.event_manager.specs.EventLoop.{seen_of};
ghost use Rattle.recorder.specs.Run.{IsRun};

use crate::device::Device;
use crate::guest::{DEEDS, Guest};
use anyhow::Result;
use event_manager::{EventLoop, EventPoller, SubscriberOps};

/// What a run tells.
#[derive(Clone, Copy)]
pub struct Told {
    /// How many events were reported after each deed of the guest.
    pub events: [usize; 5],
    /// The device with two queues, at the end.
    pub queue: Device,
    /// The console, at the end.
    pub console: Device,
}

/// Lets the devices join, and runs the loop after each deed. What they were refused is its error.
pub fn drive<P: EventPoller, G: Guest>(
    event_loop: &mut EventLoop<Device, P>,
    devices: &(Device, Device),
    guest: &G,
) -> Result<Told>
    ensures { IfOk result (λ told. IsRun P.controls P.waits (seen_of event_loop.old) devices.now told (seen_of event_loop.new)) }
{
    let queue = event_loop.add_subscriber(devices.0)?;
    let console = event_loop.add_subscriber(devices.1)?;
    let mut events = [0; 5];
    for (at, deed) in DEEDS.iter().enumerate() {
        guest.act(deed)?;
        let count = event_loop.run_with_timeout(0)?;
        events[at] = count;
    }
    let queue = event_loop.subscriber(queue)?.answered()?;
    let console = event_loop.subscriber(console)?.answered()?;
    Ok(Told {
        events,
        queue,
        console,
    })
}
