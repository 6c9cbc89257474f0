//! What the API asks of the loop.

ghost use Rattle.device_loop.specs.Answers.{IsAnswer};

use crate::block::Block;
use crate::console::Console;
use crate::net::Net;
use crate::pause::SetPaused;
use crate::ring::RingName;
use crate::statistics::Statistics;
use crate::vmm::Vmm;
use event_manager::{
    Action, ActionOn, AddSubscriber, Either, Error, EventPoller, Job, Locked, Registry, Result,
    SubscriberId,
};
use std::fmt;
use std::sync::{Arc, Wait};
use std::time::Clock;

/// The subscribers: a network device, which a vCPU's thread shares; a console; a block device; what ends the machine.
pub type Device<Q, R> = Either<
    Arc<Locked<Net<R>, R>>,
    Either<Console<R>, Either<Block<Q, R>, Vmm<R>>>,
>;

/// A question to a device.
#[derive(Clone, Copy)]
pub enum ApiAction {
    /// What it has counted.
    GetStatistics,
    /// To add this many tokens to its rate limiter.
    UpdateRateLimit(u64),
}

/// The loop's reply.
#[derive(Clone, Copy, PartialEq, Eq, Debug)]
pub enum ApiReply {
    /// What the device has counted.
    Statistics(Statistics),
    /// The rate limiter was given its tokens.
    Updated,
    /// The id of the device that was plugged in.
    PluggedIn(SubscriberId),
    /// Whether the device is paused now, or goes on.
    Paused(bool),
}

impl fmt::Display for ApiReply {
    fn fmt<W: fmt::Write>(&self, f: &mut fmt::Formatter<W>) -> fmt::Result {
        match self {
            ApiReply::Statistics(statistics) => write!(f, "{statistics}"),
            ApiReply::Updated => write!(f, "updated"),
            ApiReply::PluggedIn(id) => write!(f, "plugged in as {}", id.number()),
            ApiReply::Paused(true) => write!(f, "paused"),
            ApiReply::Paused(false) => write!(f, "goes on"),
        }
    }
}

// `InvalidId`: the device has no statistics, or no rate limiter.
fn answer<Q: RingName, R: Wait + Drop, W: Wait>(
    action: ApiAction,
    device: &Device<Q, R>,
    rt: &W,
) -> Result<ApiReply>
    ensures { IsAnswer action device.now result }
{
    match (action, device) {
        (ApiAction::GetStatistics, Either::First(net)) => {
            net.mutex.lock(rt).statistics().map(ApiReply::Statistics)
        }
        (ApiAction::UpdateRateLimit(tokens), Either::First(net)) => {
            let updated = net.mutex.lock(rt).update_rate_limit(tokens);
            updated.map(|()| ApiReply::Updated).map_err(Error::EventFd)
        }
        (ApiAction::GetStatistics, Either::Second(Either::First(console))) => {
            console.statistics().map(ApiReply::Statistics)
        }
        (ApiAction::GetStatistics, Either::Second(Either::Second(Either::First(block)))) => {
            block.statistics().map(ApiReply::Statistics)
        }
        _ => Err(Error::InvalidId),
    }
}

impl<Q: RingName, R: Wait + Drop> Action<Device<Q, R>> for ApiAction {
    type Reply = Result<ApiReply>;

    ghost use Rattle.std.specs.Prelude.{◌≡◌};
    ghost use Rattle.device_loop.specs.Answers.{IsAnswer};

    // It changes nothing that the loop holds: of a network device that is a lock.
    ghost does = { λ self v told w. IsAnswer self v told × (w ≡ v) };

    fn act<W: Wait + Clock>(self, device: &mut Device<Q, R>, rt: &W) -> Result<ApiReply> {
        answer(self, device, rt)
    }
}

/// A job of the loop.
#[derive(Drop)]
pub enum ApiRequest<Q: RingName, R> {
    /// Something is asked of the device of an id.
    Ask(ActionOn<ApiAction>),
    /// A device is plugged in.
    PlugIn(AddSubscriber<Device<Q, R>>),
    /// A block device is paused, or is to go on.
    SetPaused(SetPaused),
}

impl<Q: RingName, R: Wait + Drop> Job<Device<Q, R>> for ApiRequest<Q, R> {
    type Reply = Result<ApiReply>;

    ghost use Rattle.std.specs.Prelude.{All};
    ghost use Rattle.event_manager.specs.Kept.{StepGoesOn};
    ghost use Rattle.device_loop.specs.Pauses.{IsSameButPaused};

    // What it puts in a device's place differs only in the pause; who leaves, and what is asked for, stays open.
    ghost may = { λ self steps reply. All (StepGoesOn IsSameButPaused) steps };

    fn call<P: EventPoller, W: Wait + Clock>(
        self,
        registry: &mut Registry<Device<Q, R>, P>,
        rt: &W,
    ) -> Result<ApiReply> {
        match self {
            ApiRequest::Ask(question) => question.call(registry, rt)?,
            ApiRequest::PlugIn(device) => device.call(registry, rt).map(ApiReply::PluggedIn),
            ApiRequest::SetPaused(pause) => pause.call(registry, rt).map(ApiReply::Paused),
        }
    }
}
