//! The loop and its load, and what must come of it.

use crate::device::Device;
use crate::parts::{DEVICES, Parts};
use crate::served::Served;
use anyhow::{Context, Result, bail};
use event_manager::{Ended, Subscribers, with_senders};
use measures::bench::expect;
use measures::host::Host;
use measures::progress::Progress;
use std::alloc::Global;
use std::sync::Arc;
use std::thread;
use vmm_sys::epoll::Epoll;
use vmm_sys::eventfd::EventFd;

/// The number of jobs of a round that are waited for, each behind one that isn't: a guest's join and leave, and one that counts.
const CALLS: u64 = 3;

/// What was counted, all of it as it must be.
#[derive(Clone, Copy)]
pub struct Loaded {
    /// What the devices have read.
    pub read: u64,
    /// The number of jobs that were sent without waiting.
    pub fired: u64,
    /// The number of jobs that were sent and waited for.
    pub called: u64,
    /// The number of jobs that the loop has taken.
    pub taken: u64,
}

/// What the devices have counted in all, each number up to `u64::MAX`.
#[derive(Clone, Copy)]
struct Counts {
    read: u64,
    jobs: u64,
    refused: u64,
}

fn counts_of<R>(devices: &Subscribers<Device<R>>, alloc: Global) -> Result<Counts> {
    let ids = devices.ids(alloc)?;
    let (mut read, mut jobs, mut refused) = (0u64, 0u64, 0u64);
    for id in &ids {
        if let Some(device) = devices.get(*id) {
            read = read.saturating_add(device.read);
            jobs = jobs.saturating_add(device.jobs);
            refused = refused.saturating_add(device.refused);
        }
    }
    Ok(Counts {
        read,
        jobs,
        refused,
    })
}

fn judge(rounds: u32, counts: Counts, issued: u64, taken: u64) -> Result<Loaded> {
    let called = rounds as u64 * CALLS;
    let fired = rounds as u64 * (DEVICES as u64 + 1) + called;
    let written = rounds as u64 * DEVICES as u64 * 2;
    expect(counts.refused, 0).context("refused requests of the devices")?;
    expect(counts.jobs, fired + rounds as u64).context("jobs that ran")?;
    expect(issued, fired + called).context("jobs sent")?;
    Ok(Loaded {
        read: expect(counts.read, written).context("read of the devices")?,
        fired,
        called,
        taken: expect(taken, fired + called).context("jobs taken")?,
    })
}

fn judge_ended<R: Host>(
    ended: Ended<Device<R>, Result<()>, Epoll<R>>,
    rounds: u32,
    alloc: Global,
) -> Result<Loaded> {
    ended.ran?;
    let counts = counts_of(&ended.subscribers, alloc)?;
    for loaded in ended.sent {
        loaded?;
    }
    judge(rounds, counts, ended.issued, ended.taken)
}

fn load_loop<R: Host>(rt: &R, alloc: Global, rounds: u32, progress: &Progress) -> Result<Loaded> {
    let epoll = Epoll::new(*rt, alloc)?;
    let event_fd = EventFd::new(&epoll, 0, rt)?;
    let parts = Parts::new(&epoll, alloc, rounds, progress, rt)?;
    let mut served = Served { parts: &parts };
    let ended = with_senders(rt, alloc, epoll, event_fd, &mut served)?;
    judge_ended(ended, rounds, alloc)
}

fn load_to_end<R: Host>(rt: R, alloc: Global, rounds: u32, progress: &Progress) -> Result<Loaded> {
    let loaded = load_loop(&rt, alloc, rounds, progress);
    progress.end(&rt);
    loaded
}

/// Loads an event manager for `rounds` rounds, on other threads than this one, which looks on. Refused where a call was, where
/// something was lost, came twice, or came to another, and where threads wait for what was lost: they are left alone, and end with
/// the program.
pub fn load<R: Host>(rt: R, alloc: Global, rounds: u32) -> Result<Loaded> {
    let progress = Arc::new(alloc, Progress::new())?;
    let theirs = Arc::try_clone(&progress)?;
    let loading = thread::spawn(&rt, move || load_to_end(rt, alloc, rounds, &theirs));
    let Ok(loading) = loading else {
        bail!("no thread can be started");
    };
    progress.wait_for_end(&rt)?;
    loading.join(&rt)
}
