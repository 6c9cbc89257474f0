//! Devices of a virtual machine in one event loop, in the shape that Firecracker gives them, beside a thread of the API and one
//! that plays a virtual processor. It shows a device that asks for more once it is activated, and that another thread shares under
//! a lock; one that a job plugs in later; a job that asks devices; and an exit event that ends the loop.
#![tactic(auto)]

mod api;
mod block;
mod client;
mod console;
mod fault;
mod machine;
mod net;
mod pause;
mod report;
mod ring;
mod shared;
mod statistics;
mod vcpu;
mod vmm;

ghost use Rattle.std.specs.Prelude.{◌≡◌, IfOk};
ghost use Rattle.device_loop.specs.Runs.{IsServedInOrder, IsOfALife};

use api::{ApiRequest, Device};
use event_manager::laws::{lives_are_its_own, non_interference};
use event_manager::{Error, MutEventSubscriber, with_senders};
use fault::Fault;
use machine::Machine;
use report::BlockReport;
use ring::{Ring, RingName};
use shared::Shared;
use std::alloc::Global;
use std::marker::Brand;
use std::process::ExitCode;
use std::sync::ledger::Blank;
use std::sync::{Arc, Mutex, Wait};
use std::thread::Threads;
use std::time::Clock;
use vmm_sys::epoll::Epoll;
use vmm_sys::eventfd::EventFd;

fn all_ran(sent: Vec<Result<(), Fault>>) -> Result<(), Fault> {
    for thread_ran in sent {
        thread_ran?;
    }
    Ok(())
}

/// Prints what ended the loop, and how many jobs were issued and taken.
fn print_end<R: Print>(rt: &R, has_exited: bool, issued: u64, taken: u64) -> Result<(), Fault> {
    let why = if has_exited {
        "the exit event"
    } else {
        "the end of its threads"
    };
    println!(rt; "ended by {why}; jobs: {issued} issued, {taken} taken")?;
    Ok(())
}

/// Runs the machine, prints what ended its loop and how many jobs were issued and taken, and returns what came of the block device,
/// whose life in the loop it is. Whatever the other devices, the API and the poller do, requests are served in the order of the
/// queue, each once, none while paused, and at most as many as a full bucket and its refills have tokens. No other ring has its
/// name, which `blank` gives.
fn run_machine<Q, R>(rt: &R, alloc: Global, blank: Blank) -> Result<BlockReport<Q>, Fault>
where
    Q: RingName + Send + Sync,
    R: Threads + Wait + Clock + Print + Copy + Send + Sync + Drop,
    requires { (blank.name ≡ Q.ring) × (blank.parts ≡ 1) }
    ensures served { IfOk result IsServedInOrder }
    ensures lived { IfOk result (IsOfALife ⟦<Device<Q, R> as MutEventSubscriber>⟧.begins ⟦<Device<Q, R> as MutEventSubscriber>⟧.serves) }
{
    let epoll = Epoll::new(*rt, alloc)?;
    let event_fd = EventFd::new(&epoll, 0, rt)?;
    let shared = Shared::new(epoll.try_clone()?);
    let (ring, limiter) = Ring::<Q>::new(alloc, blank);
    let ring = Arc::new(alloc, Mutex::new(ring)).map_err(Error::from)?;
    let shared_ring = Arc::try_clone(&ring).map_err(Error::from)?;
    let mut machine = Machine::new(&shared, shared_ring, limiter);
    let mut ended = with_senders(rt, alloc, epoll, event_fd, &mut machine)?;
    ended.ran?;
    non_interference::<Device<Q, R>, ApiRequest<Q, R>>();
    lives_are_its_own::<Device<Q, R>>();
    let block = machine.take_block(&mut ended.subscribers)?;
    all_ran(ended.sent)?;
    print_end(rt, machine.has_exited(), ended.issued, ended.taken)?;
    Ok(BlockReport::new(block, &mut ring.lock(rt), alloc)?)
}

fn tell_named<Q, R>(rt: &R, alloc: Global, blank: Blank) -> Result<(), Fault>
where
    Q: RingName + Send + Sync,
    R: Threads + Wait + Clock + Print + Copy + Send + Sync + Drop,
    requires { (blank.name ≡ Q.ring) × (blank.parts ≡ 1) }
{
    let report = run_machine::<Q, R>(rt, alloc, blank)?;
    println!(rt; "block: {report}")?;
    Ok(())
}

fn tell<R: Threads + Wait + Clock + Print + Copy + Send + Sync + Drop>(
    rt: &R,
    alloc: Global,
) -> Result<(), Fault> {
    tell_named::<Brand, R>(rt, alloc, Blank::new(1))
}

fn main(rt: HostRuntime) -> ExitCode {
    match tell(&rt, rt.alloc()) {
        Ok(()) => ExitCode::SUCCESS,
        Err(fault) => {
            let _ = eprintln!(rt; "device_loop: {fault}");
            ExitCode::FAILURE
        }
    }
}
