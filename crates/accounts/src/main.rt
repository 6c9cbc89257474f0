//! An account in an event loop, and a customer on a thread of its own who sends it jobs.
#![tactic(auto)]

mod account;
mod bank;
mod order;

use anyhow::Result;
use bank::Bank;
use event_manager::with_senders;
use std::alloc::Global;
use std::sync::Wait;
use std::thread::Threads;
use std::time::Clock;
use vmm_sys::epoll::Epoll;
use vmm_sys::eventfd::EventFd;

/// Runs the loop beside the customer, and then prints what the customer was told.
fn run_bank<R: Threads + Wait + Clock + Print + Copy + Send + Sync + Drop>(
    rt: &R,
    alloc: Global,
) -> Result<()> {
    let epoll = Epoll::new(*rt, alloc)?;
    let event_fd = EventFd::new(&epoll, 0, rt)?;
    let mut bank = Bank {
        counter: EventFd::new(&epoll, 0, rt)?,
    };
    let ended = with_senders(rt, alloc, epoll, event_fd, &mut bank)?;
    ended.ran?;
    for told in ended.sent {
        let told = told?;
        println!(rt; "three deposits of 400: {}", told.balance)?;
        println!(rt; "25 more by the counter: {}", told.later)?;
        if let Err(error) = told.removed {
            println!(rt; "an account that was removed: {error}")?;
        }
    }
    Ok(())
}

fn main(rt: HostRuntime) -> Result<()> {
    run_bank(&rt, rt.alloc())
}
