//! What timers cost: those of a table of timers, and a wait beside them.

use anyhow::Result;
use measures::arguments::Size;
use measures::bench::{Bench, Measured, expect};
use measures::host::Host;
use measures::timing::{REPEATS, Times};
use std::alloc::Global;
use std::time::Duration;
use timerfd::{TimedPoller, TimerFd, TimerTable};
use vmm_sys::epoll::{AsRawFd, ControlOperation, Epoll, EpollEvent, EventSet};
use vmm_sys::errno::Errno;
use vmm_sys::eventfd::EventFd;
use vmm_sys::poller::Poller;

/// How often a call is made in a repeat.
const CALLS: u32 = 10000;

/// When the first timer is due.
const FIRST: u64 = 1_000_000_000;

/// A table of `count` timers, all disarmed.
fn disarmed(count: u32, alloc: Global) -> Result<TimerTable> {
    let mut table = TimerTable::new(alloc);
    for _ in 0..count {
        let _index = table.add()?;
    }
    Ok(table)
}

/// Arms the first `count` timers: one is due at each nanosecond from the first on, and again once all others have been.
fn arm_all(table: &mut TimerTable, count: u32) {
    for index in 0..count {
        table.arm(index as usize, FIRST + index as u64, count as u64);
    }
}

/// A table of `count` timers, all armed.
fn armed(count: u32, alloc: Global) -> Result<TimerTable> {
    let mut table = disarmed(count, alloc)?;
    arm_all(&mut table, count);
    Ok(table)
}

/// The timer behind this one, of `count`.
fn behind(index: u32, count: u32) -> u32 {
    if index >= count.saturating_sub(1) {
        0
    } else {
        index + 1
    }
}

/// Disarms and arms a timer `rounds` times.
fn disarm_and_arm(table: &mut TimerTable, index: usize, rounds: u32) {
    for _ in 0..rounds {
        table.disarm(index);
        table.arm(index, FIRST, 0);
    }
}

/// Arms `rounds` timers in turn, each later than it was, from `first` on; the answer is the next one.
fn arm_later(table: &mut TimerTable, count: u32, rounds: u32, first: u32) -> u32 {
    let mut index = first;
    for round in 0..rounds {
        table.arm(index as usize, 2 * FIRST + round as u64, 0);
        index = behind(index, count);
    }
    index
}

/// Tells the time nanosecond by nanosecond, and takes the expirations of the timer that is due then, which are added to the
/// count. The answer is the timer of the next nanosecond.
fn expire(table: &mut TimerTable, timers: u32, rounds: u32, first: u32, count: &mut u64) -> u32 {
    let mut index = first;
    for _ in 0..rounds {
        table.set_time(table.next_due().unwrap_or(0));
        let taken = table.take_expirations(index as usize).unwrap_or(0);
        *count = count.saturating_add(taken);
        index = behind(index, timers);
    }
    index
}

/// Waits `rounds` times, and adds how many entries were reported in all to the count.
fn wait<P: Poller>(poller: &mut P, rounds: u32, count: &mut u64) -> Result<(), Errno> {
    let mut buffer = [EpollEvent::new(EventSet::empty(), 0); 16];
    for _ in 0..rounds {
        *count = count.saturating_add(poller.wait(0, &mut buffer)? as u64);
    }
    Ok(())
}

/// A table for each repeat, with `count` timers, all disarmed.
fn disarmed_for_each(count: u32, alloc: Global) -> Result<Vec<TimerTable>> {
    let mut tables = Vec::new(alloc);
    for _ in 0..REPEATS {
        tables.push(disarmed(count, alloc)?)?;
    }
    Ok(tables)
}

/// How many of the tables' timers, `timers` each, are armed.
fn count_armed(tables: &[TimerTable], timers: u32) -> u64 {
    let mut count = 0u64;
    for table in tables {
        for index in 0..timers {
            count = count.saturating_add(table.is_armed(index as usize) as u64);
        }
    }
    count
}

/// What a repeat does to a table whose timers are all armed.
#[derive(Clone, Copy, PartialEq, Eq)]
enum Work {
    /// Counts the pairs; the timer is then due first.
    DisarmAndArm,
    /// Counts the calls.
    ArmLater,
    /// Counts the expirations.
    Expire,
}

/// The works, in the order in which they are measured.
const WORKS: [Work; 3] = [Work::DisarmAndArm, Work::ArmLater, Work::Expire];

/// What the repeats have counted, and the timer that is next.
#[derive(Clone, Copy)]
struct Counted {
    count: u64,
    next: u32,
}

impl Work {
    /// Does the work of a repeat.
    fn repeat(self, table: &mut TimerTable, timers: u32, rounds: u32, counted: &mut Counted) {
        let Counted { count, next } = counted;
        match self {
            Work::DisarmAndArm => disarm_and_arm(table, timers as usize / 2, rounds),
            Work::ArmLater => *next = arm_later(table, timers, rounds, *next),
            Work::Expire => {
                *next = expire(table, timers, rounds, *next, count);
                return;
            }
        }
        *count = count.saturating_add(rounds as u64);
    }

    /// What stands before the number of timers in the name, and behind it.
    fn name(self) -> (&'static str, &'static str) {
        match self {
            Work::DisarmAndArm => ("disarm and arm one of", ""),
            Work::ArmLater => ("re-arm each of", " in turn"),
            Work::Expire => ("one of", " expires and is taken"),
        }
    }

    /// Measures it on a table with `timers` timers.
    fn measure<R: Host>(
        self,
        bench: &Bench<R>,
        table: &mut TimerTable,
        timers: u32,
    ) -> Result<Measured> {
        let rounds = bench.rounds(CALLS);
        let mut counted = Counted { count: 0, next: 0 };
        let times = Times::of(
            || {
                self.repeat(table, timers, rounds, &mut counted);
                Result::<(), Errno>::Ok(())
            },
            &bench.rt,
        )?;
        if self == Work::DisarmAndArm {
            let _ = expect(table.next_due().unwrap_or(0), FIRST)?;
        }
        Measured::of(times, rounds as u64, counted.count)
    }
}

/// Measures what arms `timers` timers, by those that are then armed.
fn measure_filling<R: Host>(bench: &Bench<R>, timers: u32) -> Result<()> {
    let mut tables = disarmed_for_each(timers, bench.alloc)?;
    let measured = fill(bench, tables.as_mut_slice(), timers)?;
    bench.print_sized(("arm while filling to", timers, " timers"), measured)
}

/// Arms the timers of one of the tables in each repeat.
fn fill<R: Host>(bench: &Bench<R>, tables: &mut [TimerTable], timers: u32) -> Result<Measured> {
    let mut next = tables.iter_mut();
    let times = Times::of(
        || {
            if let Some(table) = next.next() {
                arm_all(table, timers);
            }
            Result::<(), Errno>::Ok(())
        },
        &bench.rt,
    )?;
    Measured::of(times, timers as u64, count_armed(tables, timers))
}

/// Measures one work on a table of its own.
fn measure_work<R: Host>(bench: &Bench<R>, work: Work, timers: u32) -> Result<()> {
    let mut table = armed(timers, bench.alloc)?;
    let measured = work.measure(bench, &mut table, timers)?;
    let (before, behind) = work.name();
    bench.print_sized((before, timers, behind), measured)
}

/// Measures waits, each of which reports one counter.
fn measure_wait<P: Poller, R: Host>(bench: &Bench<R>, name: &str, poller: &mut P) -> Result<()> {
    let rounds = bench.rounds(CALLS);
    let mut count = 0u64;
    let times = Times::of(|| wait(poller, rounds, &mut count), &bench.rt)?;
    bench.print(name, Measured::of(times, rounds as u64, count)?)
}

/// Measures a wait with timers beside it, and with one of them armed.
fn measure_beside_timers<R: Host>(
    bench: &Bench<R>,
    timed: &mut TimedPoller<Epoll<R>, R>,
) -> Result<()> {
    measure_wait(bench, "a wait, 1 counter ready, no timer armed", timed)?;
    let timer = TimerFd::new(timed, &bench.rt)?;
    let event = EpollEvent::new(EventSet::IN, 7);
    timed.ctl(ControlOperation::Add, timer.as_raw_fd(), event)?;
    timer.reset(Duration::from_secs(3600), None, &bench.rt)?;
    measure_wait(bench, "a wait, 1 counter ready, a timer armed", timed)
}

/// Measures a wait of a table that others share, alone, with timers beside it, and with one of them armed.
fn measure_waits<R: Host>(bench: &Bench<R>) -> Result<()> {
    let (rt, alloc) = (bench.rt, bench.alloc);
    let mut epoll = Epoll::new(rt, alloc)?;
    let ready = EventFd::new(&epoll, 1, &rt)?;
    let event = EpollEvent::new(EventSet::IN, 7);
    epoll.ctl(ControlOperation::Add, ready.as_raw_fd(), event)?;
    measure_wait(bench, "a wait, 1 counter ready", &mut epoll)?;
    let counter = EventFd::new(&epoll, 0, &rt)?;
    let mut timed = TimedPoller::new(epoll, counter, rt, alloc)?;
    measure_beside_timers(bench, &mut timed)
}

/// Measures timers at each wanted size, and waits beside them.
pub fn measure_timers<R: Host>(bench: &Bench<R>) -> Result<()> {
    for (size, timers) in [
        (Size::Small, 16),
        (Size::Large, 4096),
        (Size::Huge, 1_000_000),
    ] {
        if bench.wanted.has_size(size) {
            measure_filling(bench, timers)?;
            for work in WORKS {
                measure_work(bench, work, timers)?;
            }
        }
    }
    measure_waits(bench)
}
