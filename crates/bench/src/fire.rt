//! What a job costs that the loop's own thread sends and runs.

use crate::managers::{ManagerMeasure, take_over};
use crate::subscribers::{CountOne, Counter, count_at};
use anyhow::Result;
use event_manager::{
    ActionOn, EventManager, EventPoller, NamedCounter, RemoteEndpoint, SubscriberId, SubscriberOps,
};
use measures::bench::{Bench, Measured, expect};
use measures::fixed::{BATCH, FIRST};
use measures::host::Host;
use measures::timing::Times;
use std::sync::Wait;
use std::time::Clock;
use vmm_sys::epoll::Epoll;
use vmm_sys::eventfd::EventFd;

/// How many jobs a repeat sends.
const JOBS: u32 = 20000;

/// Jobs on one counter, each with a run.
#[derive(Clone, Copy)]
struct FiredJobs;

impl<R: Host> ManagerMeasure<R> for FiredJobs {
    type Subscriber = Counter;

    type Job = ActionOn<CountOne>;

    fn capacity(&self) -> usize {
        BATCH as usize
    }

    fn take<N: NamedCounter, P: EventPoller>(
        &self,
        manager: &mut EventManager<Counter, ActionOn<CountOne>, N, P>,
        bench: &Bench<R>,
    ) -> Result<Measured> {
        let endpoint = manager.remote_endpoint()?;
        fire_often(manager, &endpoint, bench.rounds(JOBS), &bench.rt)
    }
}

/// Lets a counter join, and sends the jobs of all repeats to it. Refused where it has counted another number.
fn fire_often<N: NamedCounter, P: EventPoller, R: Wait + Clock>(
    manager: &mut EventManager<Counter, ActionOn<CountOne>, N, P>,
    endpoint: &RemoteEndpoint<Counter, ActionOn<CountOne>, N>,
    rounds: u32,
    rt: &R,
) -> Result<Measured> {
    let id = manager.add_subscriber(Counter::new(FIRST as i32, 0))?;
    let times = Times::of(|| fire_and_run(manager, endpoint, id, rounds, rt), rt)?;
    let count = manager.remove_subscriber(id)?.counted()?;
    Measured::of(times, rounds as u64, count)
}

// Sends a job and runs the manager, `rounds` times.
fn fire_and_run<N: NamedCounter, P: EventPoller, R: Wait + Clock>(
    manager: &mut EventManager<Counter, ActionOn<CountOne>, N, P>,
    endpoint: &RemoteEndpoint<Counter, ActionOn<CountOne>, N>,
    id: SubscriberId,
    rounds: u32,
    rt: &R,
) -> Result<()> {
    for _ in 0..rounds {
        let _ticket = endpoint.fire(count_at(id), rt)?;
        expect(manager.run(rt)? as u64, 1)?;
    }
    Ok(())
}

/// Measures a `fire` with the run that does its job.
pub fn measure_fires<R: Host>(bench: &Bench<R>) -> Result<()> {
    let epoll = Epoll::new(bench.rt, bench.alloc)?;
    let endpoint = EventFd::new(&epoll, 0, &bench.rt)?;
    let measured = take_over(bench, &FiredJobs, epoll, endpoint)?;
    bench.print("fire, and the run that does the job", measured)
}
