//! What a job costs that another thread sends to the loop's, and waits for.
//!
//! Both wait without a limit, so whoever misses a wake-up or a reply waits for ever. The program's first thread looks on:
//! where no reply has come for ten seconds, it ends the program with 1 and a line that says so.

use crate::subscribers::{CountOne, Counter, count_at};
use anyhow::{Result, bail};
use event_manager::{
    ActionOn, Error, EventPoller, JobSender, LoopWithSenders, NamedCounter, RemoteEndpoint,
    SubscriberId, TrackedManager, with_senders,
};
use measures::bench::{Bench, Measured};
use measures::fixed::FIRST;
use measures::host::Host;
use measures::progress::Progress;
use measures::timing::Times;
use std::alloc::Global;
use std::sync::{Arc, Wait};
use std::thread;
use std::time::Clock;
use vmm_sys::epoll::Epoll;
use vmm_sys::eventfd::EventFd;

/// How many jobs a repeat sends.
const JOBS: u32 = 2000;

/// A loop with one counter, which is called `rounds` times in each repeat.
#[derive(Clone, Copy)]
struct CalledLoop<'a> {
    rounds: u32,
    progress: &'a Progress,
}

/// Who calls it, `rounds` times in each repeat.
#[derive(Clone, Copy)]
struct Caller<'a> {
    id: SubscriberId,
    rounds: u32,
    progress: &'a Progress,
}

impl<'a, R: Wait + Clock> LoopWithSenders<Counter, ActionOn<CountOne>, Caller<'a>, R>
    for CalledLoop<'a> {
    fn begin<N: NamedCounter, P: EventPoller>(
        &mut self,
        _rt: &R,
        alloc: Global,
        manager: &mut TrackedManager<Counter, ActionOn<CountOne>, N, P>,
    ) -> event_manager::Result<Vec<Caller<'a>>> {
        let caller = Caller {
            id: manager.add_subscriber(Counter::new(FIRST as i32, 0))?,
            rounds: self.rounds,
            progress: self.progress,
        };
        let mut callers = Vec::new(alloc);
        match callers.push(caller) {
            Ok(()) => Ok(callers),
            Err(_refused) => Err(Error::OutOfMemory),
        }
    }
}

impl<R: Wait + Clock> JobSender<Counter, ActionOn<CountOne>, Result<Times>, R> for Caller<'_> {
    /// Sends the jobs of all repeats.
    fn send<N: NamedCounter>(
        self,
        endpoint: &RemoteEndpoint<Counter, ActionOn<CountOne>, N>,
        rt: &R,
    ) -> Result<Times> {
        let Caller {
            id,
            rounds,
            progress,
        } = self;
        Times::of(|| call_often(endpoint, id, rounds, progress, rt), rt)
    }
}

/// Sends `rounds` jobs, and waits for the reply of each.
fn call_often<N: NamedCounter, R: Wait + Clock>(
    endpoint: &RemoteEndpoint<Counter, ActionOn<CountOne>, N>,
    id: SubscriberId,
    rounds: u32,
    progress: &Progress,
    rt: &R,
) -> Result<()> {
    for _ in 0..rounds {
        let _ = endpoint.call_blocking(count_at(id), rt)??;
        progress.step();
    }
    Ok(())
}

/// What came of a loop that took `taken` jobs, by what its caller gave.
fn measured(sent: Vec<Result<Times>>, taken: u64, rounds: u32) -> Result<Measured> {
    let mut sent = sent;
    let Some(times) = sent.pop() else {
        bail!("the caller gave nothing");
    };
    Measured::of(times?, rounds as u64, taken)
}

/// Makes the loop over the in-process table, and measures a call beside it.
fn measure<R: Host>(rt: &R, alloc: Global, rounds: u32, progress: &Progress) -> Result<Measured> {
    let epoll = Epoll::new(*rt, alloc)?;
    let event_fd = EventFd::new(&epoll, 0, rt)?;
    let mut called = CalledLoop { rounds, progress };
    let ended = with_senders(rt, alloc, epoll, event_fd, &mut called)?;
    ended.ran?;
    measured(ended.sent, ended.taken, rounds)
}

/// Measures a call, and notes the end of it.
fn measure_to_end<R: Host>(
    rt: R,
    alloc: Global,
    rounds: u32,
    progress: &Progress,
) -> Result<Measured> {
    let measured = measure(&rt, alloc, rounds, progress);
    progress.end(&rt);
    measured
}

/// Measures a `call_blocking` from another thread than the loop's. Refused where a reply was lost: so the two threads are left
/// alone, and end with the program.
pub fn measure_calls<R: Host>(bench: &Bench<R>) -> Result<()> {
    let (rt, alloc, rounds) = (bench.rt, bench.alloc, bench.rounds(JOBS));
    let progress = Arc::new(alloc, Progress::new())?;
    let theirs = Arc::try_clone(&progress)?;
    let measuring = thread::spawn(&rt, move || measure_to_end(rt, alloc, rounds, &theirs));
    let Ok(measuring) = measuring else {
        bail!("no thread can be started");
    };
    progress.wait_for_end(&rt)?;
    bench.print("call_blocking between two threads", measuring.join(&rt)?)
}
