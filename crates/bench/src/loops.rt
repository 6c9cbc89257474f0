//! What a delivery costs of several loops at once, each on a thread of its own, over a table of its own.

use anyhow::Result;
use event_manager::utilities::subscribers::CounterSubscriber;
use event_manager::{EventLoop, EventPoller, SubscriberOps, ThreadLoop, with_loops};
use measures::bench::{Bench, Measured, expect};
use measures::host::Host;
use measures::timing::Times;
use std::alloc::Global;
use vmm_sys::epoll::Epoll;
use vmm_sys::eventfd::EventFd;

/// How many runs each loop makes in a repeat in full.
const RUNS: u32 = 40960;

/// How many counters a loop has, each of which each run delivers.
const COUNTERS: u32 = 16;

/// How many loops there are, each with the name of its measure.
const LOOPS_AT_ONCE: [(u32, &str); 3] = [
    (1, "a delivery of one loop"),
    (2, "a delivery of one of 2 loops at once"),
    (4, "a delivery of one of 4 loops at once"),
];

/// A loop over these counters, which makes `runs` runs.
#[derive(Drop)]
struct Delivering<P> {
    poller: P,
    counters: Vec<EventFd>,
    runs: u32,
}

/// Counters of the poller's table, all ready.
fn open_counters<R: Host>(poller: &Epoll<R>, alloc: Global, rt: &R) -> Result<Vec<EventFd>> {
    let mut counters = Vec::new(alloc);
    for _counter in 0..COUNTERS {
        counters.push(EventFd::new(poller, 1, rt)?)?;
    }
    Ok(counters)
}

/// One over a table of its own, whose counters stay ready.
fn begin<R: Host>(runs: u32, alloc: Global, rt: &R) -> Result<Delivering<Epoll<R>>> {
    let poller = Epoll::new(*rt, alloc)?;
    let counters = open_counters(&poller, alloc, rt)?;
    Ok(Delivering {
        poller,
        counters,
        runs,
    })
}

/// Lets a subscriber of each counter join.
fn join<P: EventPoller>(
    event_loop: &mut EventLoop<CounterSubscriber, P>,
    counters: Vec<EventFd>,
) -> event_manager::Result<()> {
    for counter in counters {
        let _ = event_loop.add_subscriber(CounterSubscriber::new(counter))?;
    }
    Ok(())
}

/// Makes `runs` runs, and answers how many events they delivered.
fn run_often<P: EventPoller>(
    event_loop: &mut EventLoop<CounterSubscriber, P>,
    runs: u32,
) -> event_manager::Result<u64> {
    let mut delivered: u64 = 0;
    for _run in 0..runs {
        delivered = delivered.saturating_add(event_loop.run()? as u64);
    }
    Ok(delivered)
}

impl<P: EventPoller + Drop, R> ThreadLoop<R> for Delivering<P> {
    type Output = event_manager::Result<u64>;

    /// Makes the runs, and answers how many events they delivered.
    fn run(self, _rt: &R) -> event_manager::Result<u64> {
        let Delivering {
            poller,
            counters,
            runs,
        } = self;
        let mut event_loop = EventLoop::new(*counters.allocator(), poller)?;
        join(&mut event_loop, counters)?;
        run_often(&mut event_loop, runs)
    }
}

/// Makes `runs` runs in each of `loops` loops at once, and answers how many events all delivered.
fn deliver_at_once<R: Host>(loops: u32, runs: u32, alloc: Global, rt: &R) -> Result<u64> {
    let first = begin(runs, alloc, rt)?;
    let others = begin_others(loops, runs, alloc, rt)?;
    let (first, others) = with_loops(rt, alloc, first, others)?;
    Ok(sum(first?, others.as_slice())?)
}

/// All `loops` loops but the first.
fn begin_others<R: Host>(
    loops: u32,
    runs: u32,
    alloc: Global,
    rt: &R,
) -> Result<Vec<Delivering<Epoll<R>>>> {
    let mut others = Vec::new(alloc);
    for _other in 1..loops {
        others.push(begin(runs, alloc, rt)?)?;
    }
    Ok(others)
}

/// How many events were delivered in all, `first` of them by the first loop. Refused as the first other that was refused.
fn sum(first: u64, others: &[event_manager::Result<u64>]) -> event_manager::Result<u64> {
    let mut delivered = first;
    for other in others {
        delivered = delivered.saturating_add((*other)?);
    }
    Ok(delivered)
}

/// Measures a delivery of `loops` loops at once: the time of all over the deliveries of all.
fn measure_loops_at_once<R: Host>(bench: &Bench<R>, loops: u32) -> Result<Measured> {
    let runs = bench.rounds(RUNS);
    let operations = u64::from(loops).saturating_mul(u64::from(runs.saturating_mul(COUNTERS)));
    let mut count: u64 = 0;
    let times = Times::of(
        || -> Result<()> {
            let delivered = deliver_at_once(loops, runs, bench.alloc, &bench.rt)?;
            count = count.saturating_add(expect(delivered, operations)?);
            Ok(())
        },
        &bench.rt,
    )?;
    Measured::of(times, operations, count)
}

/// Measures deliveries of several loops.
pub fn measure_loops<R: Host>(bench: &Bench<R>) -> Result<()> {
    for (loops, name) in LOOPS_AT_ONCE {
        bench.print(name, measure_loops_at_once(bench, loops)?)?;
    }
    Ok(())
}
