//! The program `churn`: visitors come to a running loop, and leave it, each with a channel and a timer of its own, for a number of
//! rounds, its argument, or 1000000. A visitor leaves once its timer has expired and all of its messages are there; these are sent
//! by the loop's thread, and in each 50th round by another one. Then its ends and its timer are closed.
//!
//! Each visitor must have the descriptors of the first, and after the thousandth the process may take at most a megabyte more. Else
//! the program ends with 1 and says what is otherwise.
#![tactic(auto)]

pub mod visit;
pub mod visitor;

use anyhow::{Context, Result, ensure};
use event_loop::EventLoop;
use measures::arguments::rounds;
use measures::bench::expect;
use measures::host::Host;
use measures::memory::resident;
use std::alloc::Global;
use std::rt::Files;
use timerfd::TimedPoller;
use visit::{MESSAGES, Place};
use vmm_sys::epoll::Epoll;
use vmm_sys::eventfd::EventFd;

/// How many rounds there are without an argument.
const ROUNDS: u32 = 1000000;

/// From which round on the process takes no more memory.
const SETTLED: u32 = 1000;

/// How many bytes it may take nevertheless: what the system counts is whole pages, and the stacks of threads.
const MORE: u64 = 1048576;

/// All rounds; the answer is how many messages were received.
fn run<R: Host + Files + AllocGlobal>(rt: &R, alloc: Global, rounds: u32) -> Result<u64> {
    let epoll = Epoll::new(*rt, alloc)?;
    let alarm = EventFd::new(&epoll, 0, rt)?;
    let timed = TimedPoller::new(epoll.try_clone()?, alarm, *rt, alloc)?;
    let mut events = EventLoop::new(alloc, timed)?;
    let mut place = Place {
        rt,
        alloc,
        epoll: &epoll,
        events: &mut events,
        first: None,
    };
    let mut received: u64 = 0;
    let mut settled = None;
    for round in 0..rounds {
        if round == SETTLED {
            settled = Some(resident(rt)?);
        }
        received = received.saturating_add(place.visit(round)?);
    }
    if let Some(before) = settled {
        let most = before.saturating_add(MORE);
        ensure!(resident(rt)? <= most, "the process takes more memory");
    }
    Ok(received)
}

fn main(rt: HostRuntime) -> Result<()> {
    let rounds = rounds(&rt, ROUNDS)?;
    let received = run(&rt, rt.alloc(), rounds)?;
    println!(rt; "visitors: {rounds}")?;
    println!(rt; "messages: {received}")?;
    expect(received, u64::from(rounds).saturating_mul(MESSAGES)).context("messages")?;
    Ok(())
}
