//! The jobs.

use crate::device::Device;
use event_manager::{
    Action, ActionOn, AddSubscriber, EventPoller, Job, Registry, RemoveSubscriber, Result,
    SubscriberId,
};
use std::sync::Wait;
use std::time::Clock;

/// A job.
#[derive(Drop)]
pub enum Work<R> {
    /// Counts itself at the device of the id.
    Count(SubscriberId),
    /// Lets a guest join.
    Join(Device<R>),
    /// Lets the guest of the id leave.
    Leave(SubscriberId),
}

/// What a job replies.
#[derive(Drop)]
pub enum Reply {
    /// Whether there was the device.
    Counted(Result<()>),
    /// The guest's id.
    Joined(Result<SubscriberId>),
    /// What the guest had read, and how many of its requests were refused.
    Left(Result<(u64, u64)>),
}

#[derive(Drop)]
struct CountJob;

impl<R: Wait + Drop> Action<Device<R>> for CountJob {
    type Reply = ();

    ghost does = { λ self v reply w. Unit {0} };

    fn act<W: Wait + Clock>(self, device: &mut Device<R>, _rt: &W) {
        device.count_job();
    }
}

impl<R: Wait + Drop> Job<Device<R>> for Work<R> {
    type Reply = Reply;

    ghost may = { λ self steps reply. Unit {0} };

    fn call<P: EventPoller, W: Wait + Clock>(
        self,
        registry: &mut Registry<Device<R>, P>,
        rt: &W,
    ) -> Reply {
        match self {
            Work::Count(subscriber) => {
                let action = CountJob;
                Reply::Counted(ActionOn { subscriber, action }.call(registry, rt))
            }
            Work::Join(guest) => Reply::Joined(AddSubscriber(guest).call(registry, rt)),
            Work::Leave(id) => {
                let left = RemoveSubscriber(id).call(registry, rt);
                Reply::Left(left.map(|guest| (guest.read, guest.refused)))
            }
        }
    }
}
