//! What a write costs that the loop delivers, over the in-process table.

use crate::managers::{ManagerMeasure, take_over};
use crate::subscribers::Reader;
use anyhow::Result;
use event_manager::{EventManager, EventPoller, NamedCounter, NoJob, SubscriberOps};
use measures::arguments::Size;
use measures::bench::{Bench, Measured, expect};
use measures::fixed::BATCH;
use measures::host::Host;
use measures::timing::Times;
use std::alloc::Global;
use std::sync::Wait;
use std::time::Clock;
use vmm_sys::epoll::Epoll;
use vmm_sys::eventfd::EventFd;

/// How many writes a repeat makes.
const WRITES: u32 = 4096;

/// Counters of the manager's table, with a reader each.
#[derive(Drop)]
struct WrittenCounters {
    counters: Vec<EventFd>,
}

impl<R: Host> ManagerMeasure<R> for WrittenCounters {
    type Subscriber = Reader<R>;

    type Job = NoJob;

    fn capacity(&self) -> usize {
        BATCH as usize
    }

    fn take<N: NamedCounter, P: EventPoller>(
        &self,
        manager: &mut EventManager<Reader<R>, NoJob, N, P>,
        bench: &Bench<R>,
    ) -> Result<Measured> {
        let (counters, rounds) = (self.counters.as_slice(), bench.rounds(WRITES));
        join(manager, counters, &bench.rt)?;
        let times = Times::of(
            || write_and_run(manager, counters, rounds, &bench.rt),
            &bench.rt,
        )?;
        Measured::of(times, rounds as u64, leave(manager, bench.alloc)?)
    }
}

/// Lets a reader of each counter join.
fn join<N: NamedCounter, P: EventPoller, R: Wait + Copy + Drop>(
    manager: &mut EventManager<Reader<R>, NoJob, N, P>,
    counters: &[EventFd],
    rt: &R,
) -> Result<()> {
    for counter in counters {
        let _ = manager.add_subscriber(Reader {
            counter: counter.try_clone()?,
            sum: 0,
            rt: *rt,
        })?;
    }
    Ok(())
}

/// Lets all readers leave, and answers what they have read in all.
fn leave<N: NamedCounter, P: EventPoller, R: Wait + Drop>(
    manager: &mut EventManager<Reader<R>, NoJob, N, P>,
    alloc: Global,
) -> Result<u64> {
    let ids = manager.ids(alloc)?;
    let mut count = 0u64;
    for id in &ids {
        count = count.saturating_add(manager.remove_subscriber(*id)?.sum);
    }
    Ok(count)
}

// Writes 1 to one counter after the other, `rounds` times in all, and runs the manager each time.
fn write_and_run<N: NamedCounter, P: EventPoller, R: Wait + Clock>(
    manager: &mut EventManager<Reader<R>, NoJob, N, P>,
    counters: &[EventFd],
    rounds: u32,
    rt: &R,
) -> Result<()> {
    let mut next = counters.iter();
    for _ in 0..rounds {
        if next.len() == 0 {
            next = counters.iter();
        }
        if let Some(counter) = next.next() {
            counter.write(1, rt)?;
        }
        expect(manager.run(rt)? as u64, 1)?;
    }
    Ok(())
}

/// Opens `count` counters of the poller's table.
fn open_counters<R: Host>(
    bench: &Bench<R>,
    epoll: &Epoll<R>,
    count: u32,
) -> Result<WrittenCounters> {
    let mut counters = Vec::new(bench.alloc);
    for _ in 0..count {
        counters.push(EventFd::new(epoll, 0, &bench.rt)?)?;
    }
    Ok(WrittenCounters { counters })
}

/// Takes the measure with `count` counters, on a manager over a table of its own.
fn measure<R: Host>(bench: &Bench<R>, count: u32) -> Result<Measured> {
    let epoll = Epoll::new(bench.rt, bench.alloc)?;
    let endpoint = EventFd::new(&epoll, 0, &bench.rt)?;
    let written = open_counters(bench, &epoll, count)?;
    take_over(bench, &written, epoll, endpoint)
}

/// Measures a write, the run that delivers it and its read at each wanted size.
pub fn measure_counters<R: Host>(bench: &Bench<R>) -> Result<()> {
    for (size, count) in [
        (Size::Small, 1),
        (Size::Small, 16),
        (Size::Middle, 256),
        (Size::Large, 4096),
        (Size::Huge, 1_000_000),
    ] {
        if bench.wanted.has_size(size) {
            let name = ("a write, a run and a read,", count, " counters");
            bench.print_sized(name, measure(bench, count)?)?;
        }
    }
    Ok(())
}
