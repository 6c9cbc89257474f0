//! A small server: an acceptor, connections that end by a hang-up or when idle for too long, and a client on a thread of its own.
//! It shows how a subscriber brings others: the acceptor sends the connections that it has accepted to the loop, which lets them
//! join between two of its runs, as it lets those leave that are over. The clock is the program's own, so each run prints the same.
#![tactic(auto)]

mod acceptor;
mod client;
mod connection;
mod fault;
mod server;

use event_manager::with_senders;
use fault::Fault;
use server::Server;
use std::alloc::Global;
use std::process::ExitCode;
use std::sync::Wait;
use std::sync::atomic::AtomicU64;
use std::thread::Threads;
use std::time::Clock;
use timerfd::{TickClock, TimedPoller};
use vmm_sys::epoll::Epoll;
use vmm_sys::eventfd::EventFd;

/// Serves the client until it has ended, and then prints how many jobs ran. The clock shows these ticks, which the client moves on.
fn serve<C, R>(ticks: &AtomicU64, clock: C, rt: &R, alloc: Global) -> Result<(), Fault>
where
    C: Wait + Clock + Copy + Send + Drop,
    R: Threads + Wait + Clock + Print + Sync,
{
    let epoll = Epoll::new(clock, alloc)?;
    let event_fd = EventFd::new(&epoll, 0, &clock)?;
    let alarm = EventFd::new(&epoll, 0, &clock)?;
    let timed = TimedPoller::new(epoll, alarm, clock, alloc)?;
    let mut server = Server::new(ticks, clock, alloc, &timed)?;
    let ended = with_senders(rt, alloc, timed, event_fd, &mut server)?;
    ended.ran?;
    for client_ran in ended.sent {
        client_ran?;
    }
    Ok(println!(rt; "jobs: {}", ended.taken)?)
}

fn main(rt: HostRuntime) -> ExitCode {
    let ticks = AtomicU64::new(0);
    match serve(&ticks, TickClock::new(&ticks, rt), &rt, rt.alloc()) {
        Ok(()) => ExitCode::SUCCESS,
        Err(fault) => {
            let _ = eprintln!(rt; "server: {fault}");
            ExitCode::FAILURE
        }
    }
}
