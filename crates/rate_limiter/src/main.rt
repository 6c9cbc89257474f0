//! The program `rate_limiter`: a device whose requests are limited by a bucket of tokens, in a loop with a timer that refills it.
//!
//! A guest kicks the device, and a line is printed for each tick. The clock is the program's own, so each run prints the same;
//! arguments and input are ignored.
#![tactic(auto)]

mod device;

use anyhow::Result;
use device::Device;
use event_loop::{EventLoop, SubscriberOps};
use std::sync::Wait;
use std::sync::atomic::{AtomicU64, Ordering};
use std::time::Clock;
use timerfd::{TickClock, TimedPoller, TimerFd};
use vmm_sys::epoll::Epoll;
use vmm_sys::eventfd::EventFd;

/// How many requests the guest puts into the queue at each tick.
const REQUESTS: [u64; 11] = [2, 2, 3, 0, 0, 0, 0, 0, 0, 0, 1];

/// Runs the device in a loop beside the guest, tick by tick of the clock.
fn run<C: Wait + Clock + Copy + Send + Drop, R: Print + AllocGlobal>(
    ticks: &AtomicU64,
    clock: &C,
    rt: &R,
) -> Result<()> {
    let epoll = Epoll::new(*clock, rt.alloc())?;
    let queue = EventFd::new(&epoll, 0, clock)?;
    let alarm = EventFd::new(&epoll, 0, clock)?;
    let timed = TimedPoller::new(epoll, alarm, *clock, rt.alloc())?;
    let device = Device::new(queue.try_clone()?, TimerFd::new(&timed, clock)?, *clock);
    let mut event_loop = EventLoop::new(rt.alloc(), timed)?;
    let device = event_loop.add_subscriber(device)?;
    for (tick, requests) in (1..).zip(REQUESTS) {
        ticks.store(tick, Ordering::SeqCst);
        queue.write(requests, clock)?;
        let events = event_loop.run_with_timeout(0)?;
        let device = event_loop.subscriber(device)?.answered()?;
        println!(rt; "tick {tick}: requests {requests}, events {events}, {device}")?;
    }
    Ok(())
}

fn main(rt: HostRuntime) -> Result<()> {
    let ticks = AtomicU64::new(0);
    run(&ticks, &TickClock::new(&ticks, rt), &rt)
}
