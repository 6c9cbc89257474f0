//! The API's thread, which also plays the other ends of the tap and of the console's line, and fills the block device's bucket.

use crate::api::{ApiAction, ApiReply, ApiRequest, Device};
use crate::console::Console;
use crate::fault::Fault;
use crate::pause::SetPaused;
use crate::ring::RingName;
use crate::shared::Shared;
use event_manager::{
    ActionOn, AddSubscriber, Either, EventSet, NamedCounter, RemoteEndpoint, SubscriberId,
};
use std::sync::Wait;
use std::time::Clock;
use vmm_sys::eventfd::EventFd;
use vmm_sys::line::Line;

/// The endpoint by which the loop is asked.
pub type Endpoint<Q, N, R> = RemoteEndpoint<Device<Q, R>, ApiRequest<Q, R>, N>;

/// What the thread of the API uses.
#[derive(Drop)]
pub struct Client<'a, R> {
    /// The id of the network device.
    pub net: SubscriberId,
    /// The other end of its tap.
    pub tap: Line,
    /// The id of the block device.
    pub block: SubscriberId,
    /// The counter that fills that device's bucket.
    pub refill: EventFd,
    /// What the threads share.
    pub shared: &'a Shared<R>,
}

fn ask<Q: RingName, N: NamedCounter, R: Wait + Clock + Drop>(
    endpoint: &Endpoint<Q, N, R>,
    subscriber: SubscriberId,
    action: ApiAction,
    rt: &R,
) -> Result<ApiReply, Fault> {
    let question = ActionOn { subscriber, action };
    Ok(endpoint.call_blocking(ApiRequest::Ask(question), rt)??)
}

/// Prints the statistics of a device.
fn print_statistics<Q: RingName, N: NamedCounter, R: Wait + Clock + Print + Drop>(
    what: &str,
    endpoint: &Endpoint<Q, N, R>,
    device: SubscriberId,
    rt: &R,
) -> Result<(), Fault> {
    let statistics = ask(endpoint, device, ApiAction::GetStatistics, rt)?;
    println!(rt; "{what}: {statistics}")?;
    Ok(())
}

/// Pauses the block device, or lets it go on, and prints what it answers.
fn set_paused<Q: RingName, N: NamedCounter, R: Wait + Clock + Print + Drop>(
    endpoint: &Endpoint<Q, N, R>,
    device: SubscriberId,
    is_paused: bool,
    rt: &R,
) -> Result<(), Fault> {
    let pause = SetPaused { device, is_paused };
    let answer = endpoint.call_blocking(ApiRequest::SetPaused(pause), rt)??;
    println!(rt; "block: {answer}")?;
    Ok(())
}

impl<R: Wait + Clock + Print + Copy + Drop> Client<'_, R> {
    // No contract says that a reply counts what was done before. The first comes behind the batch in which the device is set up,
    // each later one behind a batch with what was done before: a batch's jobs run once all its events are served.
    fn use_net<Q: RingName, N: NamedCounter>(
        &self,
        endpoint: &Endpoint<Q, N, R>,
        rt: &R,
    ) -> Result<(), Fault> {
        let limited = ask(endpoint, self.net, ApiAction::UpdateRateLimit(5), rt)?;
        println!(rt; "rate limit: {limited}")?;
        print_statistics("net, booted", endpoint, self.net, rt)?;
        self.tap.set(EventSet::IN, rt)?;
        print_statistics("net, input", endpoint, self.net, rt)?;
        self.tap.set(EventSet::HANG_UP, rt)?;
        print_statistics("net, hang-up", endpoint, self.net, rt)?;
        self.tap.set(EventSet::IN, rt)?;
        print_statistics("net, late input", endpoint, self.net, rt)
    }

    fn use_console<Q: RingName, N: NamedCounter>(
        &self,
        endpoint: &Endpoint<Q, N, R>,
        rt: &R,
    ) -> Result<(), Fault> {
        let line = Line::new(&self.shared.epoll, rt)?;
        let console = Either::Second(Either::First(Console::new(&line, *rt)?));
        let plugged_in = endpoint.call_blocking(ApiRequest::PlugIn(AddSubscriber(console)), rt)??;
        println!(rt; "console: {plugged_in}")?;
        let ApiReply::PluggedIn(id) = plugged_in else {
            return Err(Fault::Reply);
        };
        line.set(EventSet::IN, rt)?;
        print_statistics("console, input", endpoint, id, rt)?;
        line.set(EventSet::HANG_UP, rt)?;
        print_statistics("console, hang-up", endpoint, id, rt)
    }

    // Pauses the device while the guest reads, and at last.
    fn use_block<Q: RingName, N: NamedCounter>(
        &self,
        endpoint: &Endpoint<Q, N, R>,
        rt: &R,
    ) -> Result<(), Fault> {
        let device = self.block;
        print_statistics("block, booted", endpoint, device, rt)?;
        self.refill.write(1, rt)?;
        print_statistics("block, refilled", endpoint, device, rt)?;
        set_paused(endpoint, device, true, rt)?;
        let _ = self.shared.is_paused.set(rt, ());
        if !*self.shared.has_read.wait(rt) {
            return Ok(());
        }
        self.refill.write(1, rt)?;
        print_statistics("block, paused", endpoint, device, rt)?;
        set_paused(endpoint, device, false, rt)?;
        print_statistics("block, at work", endpoint, device, rt)?;
        set_paused(endpoint, device, true, rt)
    }

    fn use_devices<Q: RingName, N: NamedCounter>(
        &self,
        endpoint: &Endpoint<Q, N, R>,
        rt: &R,
    ) -> Result<(), Fault> {
        self.use_net(endpoint, rt)?;
        self.use_console(endpoint, rt)?;
        self.use_block(endpoint, rt)
    }

    /// Uses the devices once the guest has booted, and shuts it down, whatever came of that; the guest's thread reports refusals to
    /// it.
    pub fn run<Q: RingName, N: NamedCounter>(
        self,
        endpoint: &Endpoint<Q, N, R>,
        rt: &R,
    ) -> Result<(), Fault> {
        let has_booted = *self.shared.has_booted.wait(rt);
        let used = if has_booted {
            self.use_devices(endpoint, rt)
        } else {
            Ok(())
        };
        let _ = self.shared.is_paused.set(rt, ());
        let _ = self.shared.is_to_shut_down.set(rt, ());
        used
    }
}
