//! What subscribers and descriptors take of memory: by what the process holds of it.

use crate::subscribers::{Counter, descriptor};
use anyhow::Result;
use event_manager::{EventLoop, EventSet, Events, SubscriberOps};
use measures::bench::Bench;
use measures::fixed::{BATCH, Fixed};
use measures::host::Host;
use measures::memory::resident;
use std::alloc::Global;
use std::rt::Files;

/// How many subscribers, and how many descriptors, the bytes are of.
const MANY: u32 = 1000000;

/// A loop without jobs over a poller that reports nothing.
type IdleLoop = EventLoop<Counter, Fixed>;

fn idle_loop(alloc: Global) -> Result<IdleLoop> {
    let poller = Fixed::first(0, alloc)?;
    Ok(EventLoop::with_capacity(alloc, poller, BATCH as usize)?)
}

/// Lets `count` subscribers join, each with a descriptor of its own.
fn join(event_loop: &mut IdleLoop, count: u32) -> Result<()> {
    for k in 0..count {
        let _ = event_loop.add_subscriber(Counter::new(descriptor(k), 1))?;
    }
    Ok(())
}

/// Adds `count` descriptors to one subscriber.
fn add(event_loop: &mut IdleLoop, count: u32) -> Result<()> {
    let id = event_loop.add_subscriber(Counter::new(0, 0))?;
    let ops = event_loop.event_ops(id)?;
    for k in 0..count {
        ops.add(Events::new_raw(descriptor(k), EventSet::IN))?;
    }
    Ok(())
}

/// Prints how many bytes the process holds more than it held before, for each of `count`; or the count, where times aren't wanted
/// either.
fn print_taken<R: Host + Files + AllocGlobal>(
    bench: &Bench<R>,
    name: &str,
    count: u32,
    before: u64,
) -> Result<()> {
    let bytes = resident(&bench.rt)?.saturating_sub(before) / count.max(1) as u64;
    let (number, unit) = if bench.wanted.checked {
        (count as u64, "")
    } else {
        (bytes, " bytes")
    };
    println!(bench.rt; "{:<44} {:>10}{}", name, number, unit)?;
    Ok(())
}

/// Measures the memory of subscribers with a descriptor each.
fn measure_subscribers<R: Host + Files + AllocGlobal>(
    bench: &Bench<R>,
    event_loop: &mut IdleLoop,
) -> Result<()> {
    let (count, before) = (bench.rounds(MANY), resident(&bench.rt)?);
    join(event_loop, count)?;
    print_taken(
        bench,
        "memory, a subscriber with a descriptor",
        count,
        before,
    )
}

/// Measures that of descriptors of one subscriber.
fn measure_descriptors<R: Host + Files + AllocGlobal>(
    bench: &Bench<R>,
    event_loop: &mut IdleLoop,
) -> Result<()> {
    let (count, before) = (bench.rounds(MANY), resident(&bench.rt)?);
    add(event_loop, count)?;
    print_taken(
        bench,
        "memory, a descriptor of one subscriber",
        count,
        before,
    )
}

/// Measures the memory of a million subscribers with a descriptor each, and of a million descriptors of one.
pub fn measure_memory<R: Host + Files + AllocGlobal>(bench: &Bench<R>) -> Result<()> {
    let mut event_loop = idle_loop(bench.alloc)?;
    measure_subscribers(bench, &mut event_loop)?;
    // The first loop is still there, so that its memory isn't used again.
    let mut other = idle_loop(bench.alloc)?;
    measure_descriptors(bench, &mut other)
}
