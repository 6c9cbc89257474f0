//! What the calls of the in-process table cost.

use anyhow::Result;
use measures::arguments::Size;
use measures::bench::{Bench, Measured, expect};
use measures::fixed::BATCH;
use measures::host::Host;
use measures::timing::{REPEATS, Times};
use std::alloc::Global;
use vmm_sys::epoll::{ControlOperation, EpollEvent, EventSet};
use vmm_sys::errno::Errno;
use vmm_sys::table::Table;

/// What a call of a table answers. What is timed answers no larger error: with one of `anyhow` a wait takes 18 ns in place of
/// 10.
type Called<T> = std::result::Result<T, Errno>;

/// How often a call of `ctl` is made in a repeat.
const CONTROLS: u32 = 10000;

/// How often a repeat waits where one interest is ready.
const WAITS_FOR_ONE: u32 = 2000;

/// A buffer with room for `room` entries.
pub fn buffer(room: usize, alloc: Global) -> Result<Vec<EpollEvent>> {
    Ok(vec![in alloc; EpollEvent::new(EventSet::empty(), 0); room]?)
}

/// A table with `count` counters of this value, and no interest.
fn open_counters(count: u32, value: u64, alloc: Global) -> Result<Table> {
    let mut table = Table::new(alloc);
    for _ in 0..count {
        let _ = table.add_counter(value)?;
    }
    Ok(table)
}

/// Asks for `IN` of the first `count` descriptors, with the descriptor as word.
fn add_interests(table: &mut Table, count: u32) -> Called<()> {
    for fd in 0..count {
        let event = EpollEvent::new(EventSet::IN, fd as u64);
        table.ctl(ControlOperation::Add, fd.cast_signed(), event)?;
    }
    Ok(())
}

/// A table with `count` counters of this value, and an interest in each.
fn filled(count: u32, value: u64, alloc: Global) -> Result<Table> {
    let mut table = open_counters(count, value, alloc)?;
    add_interests(&mut table, count)?;
    Ok(table)
}

/// A table for each repeat, with `count` counters of the value 1, and no interest.
fn unwatched(count: u32, alloc: Global) -> Result<Vec<Table>> {
    let mut tables = Vec::new(alloc);
    for _ in 0..REPEATS {
        tables.push(open_counters(count, 1, alloc)?)?;
    }
    Ok(tables)
}

/// How many interests the tables, with `interests` each, report in all.
fn reported(tables: &mut [Table], interests: u32, alloc: Global) -> Result<u64> {
    let mut buffer = buffer(interests as usize + 1, alloc)?;
    let mut count = 0u64;
    for table in tables {
        wait(table, buffer.as_mut_slice(), 1, &mut count)?;
    }
    Ok(count)
}

/// Waits `rounds` times, and adds how many entries were reported in all to the count.
fn wait(table: &mut Table, buffer: &mut [EpollEvent], rounds: u32, count: &mut u64) -> Called<()> {
    for _ in 0..rounds {
        *count = count.saturating_add(table.wait(buffer)? as u64);
    }
    Ok(())
}

/// Writes 1 to one counter `rounds` times.
fn write_to(table: &mut Table, fd: i32, rounds: u32) -> Called<()> {
    for _ in 0..rounds {
        table.write(fd, 1)?;
    }
    Ok(())
}

/// Reads one counter and writes 1 to it `rounds` times, and adds what was read to the count.
fn turn(table: &mut Table, fd: i32, rounds: u32, count: &mut u64) -> Called<()> {
    for _ in 0..rounds {
        *count = count.saturating_add(table.read(fd)?);
        table.write(fd, 1)?;
    }
    Ok(())
}

/// Modifies one of the interests `rounds` times, in turn: first the one behind `last`, and `last` is then the last. As its
/// word each has how often any was modified, which is added to the count.
fn modify(
    table: &mut Table,
    interests: u32,
    rounds: u32,
    count: &mut u64,
    last: &mut u32,
) -> Called<()> {
    let (mut number, mut fd) = (*count, *last);
    for _ in 0..rounds {
        number = number.saturating_add(1);
        fd = if fd >= interests.saturating_sub(1) {
            0
        } else {
            fd + 1
        };
        let event = EpollEvent::new(EventSet::IN, number);
        table.ctl(ControlOperation::Modify, fd.cast_signed(), event)?;
    }
    (*count, *last) = (number, fd);
    Ok(())
}

/// Modifies the interest in a descriptor to another set and back `rounds` times, and adds the pairs to the count.
fn modify_and_back(table: &mut Table, fd: i32, rounds: u32, count: &mut u64) -> Called<()> {
    for _ in 0..rounds {
        let event = EpollEvent::new(EventSet::IN.union(EventSet::OUT), *count);
        table.ctl(ControlOperation::Modify, fd, event)?;
        let event = EpollEvent::new(EventSet::IN, *count);
        table.ctl(ControlOperation::Modify, fd, event)?;
        *count = count.saturating_add(1);
    }
    Ok(())
}

/// Adds and deletes the interest in a descriptor `rounds` times, and adds the pairs to the count.
fn add_and_delete(table: &mut Table, fd: i32, rounds: u32, count: &mut u64) -> Called<()> {
    for _ in 0..rounds {
        let event = EpollEvent::new(EventSet::IN, *count);
        table.ctl(ControlOperation::Add, fd, event)?;
        table.ctl(ControlOperation::Delete, fd, event)?;
        *count = count.saturating_add(1);
    }
    Ok(())
}

/// Writes 1 to each of the first `count` counters, from the highest descriptor down.
fn write_in_reverse(table: &mut Table, count: u32) -> Called<()> {
    for fd in (0..count).rev() {
        table.write(fd.cast_signed(), 1)?;
    }
    Ok(())
}

/// Reads each of the first `count` counters.
fn read_all(table: &mut Table, count: u32) -> Called<()> {
    for fd in 0..count {
        let _read = table.read(fd.cast_signed())?;
    }
    Ok(())
}

/// Makes `rounds` passes: each writes to all counters, from the highest descriptor down, waits once, and reads all; and adds
/// how many entries were reported in all to the count.
fn pass_in_reverse(
    table: &mut Table,
    buffer: &mut [EpollEvent],
    interests: u32,
    rounds: u32,
    count: &mut u64,
) -> Called<()> {
    for _ in 0..rounds {
        write_in_reverse(table, interests)?;
        wait(table, buffer, 1, count)?;
        read_all(table, interests)?;
    }
    Ok(())
}

/// What a repeat does to a table with an interest in each of its counters.
#[derive(Clone, Copy, PartialEq, Eq)]
enum Work {
    /// Counts the modifications, each of which has its number as word; the interest of the last is then reported with it.
    Modify,
    /// Counts the pairs; the interests are then reported.
    ModifyAndBack,
    /// Counts the pairs; the others are then reported.
    AddAndDelete,
    /// Counts the entries that are reported.
    Report,
    /// Counts the waits, each of which must report one entry.
    ReportOne,
    /// Counts the writes to a counter that is ready all along.
    WriteToReady,
    /// Counts what is read of a counter that is idle and ready in turn, while all others are ready.
    Turn,
    /// Counts the entries of waits between which all counters turn ready, the last in the queue first.
    Reverse,
}

/// The works, in the order in which they are measured.
const WORKS: [Work; 8] = [
    Work::Modify,
    Work::ModifyAndBack,
    Work::AddAndDelete,
    Work::Report,
    Work::ReportOne,
    Work::WriteToReady,
    Work::Turn,
    Work::Reverse,
];

/// What the repeats have counted, and the descriptor of the last modification.
#[derive(Clone, Copy)]
struct Counted {
    count: u64,
    last: u32,
}

/// Measures what fills a table with `interests` interests, by those that are then reported.
fn measure_filling<R: Host>(bench: &Bench<R>, interests: u32) -> Result<()> {
    let mut tables = unwatched(interests, bench.alloc)?;
    let measured = fill(bench, tables.as_mut_slice(), interests)?;
    let name = ("Add while filling to", interests, " interests");
    bench.print_sized(name, measured)
}

/// Fills one of the tables in each repeat.
fn fill<R: Host>(bench: &Bench<R>, tables: &mut [Table], interests: u32) -> Result<Measured> {
    let mut next = tables.iter_mut();
    let times = Times::of(
        || match next.next() {
            Some(table) => add_interests(table, interests),
            None => Ok(()),
        },
        &bench.rt,
    )?;
    let count = reported(tables, interests, bench.alloc)?;
    Measured::of(times, interests as u64, count)
}

/// Measures one work on a table of its own, where a repeat waits `waits` times while all are ready.
fn measure_work<R: Host>(bench: &Bench<R>, work: Work, interests: u32, waits: u32) -> Result<()> {
    let rounds = bench.rounds(work.rounds(waits));
    let mut table = filled(interests, work.value(), bench.alloc)?;
    let mut buffer = buffer(work.room(interests), bench.alloc)?;
    let measured = work.measure(bench, &mut table, buffer.as_mut_slice(), interests, rounds)?;
    let (before, behind) = work.name();
    bench.print_sized((before, interests, behind), measured)
}

impl Work {
    /// What each counter has at first: it is ready unless that is 0.
    fn value(self) -> u64 {
        match self {
            Work::ReportOne | Work::Reverse => 0,
            _ => 1,
        }
    }

    /// For how many entries the waits have room.
    fn room(self, interests: u32) -> usize {
        match self {
            Work::Report | Work::ReportOne => BATCH as usize,
            _ => interests as usize + 1,
        }
    }

    /// How many rounds a repeat has in full, where it waits `waits` times while all are ready.
    fn rounds(self, waits: u32) -> u32 {
        match self {
            Work::Report | Work::Reverse => waits,
            Work::ReportOne => WAITS_FOR_ONE,
            _ => CONTROLS,
        }
    }

    /// How many operations a round has.
    fn operations(self, interests: u32) -> u32 {
        match self {
            Work::Report => interests.min(BATCH),
            Work::Reverse => interests,
            _ => 1,
        }
    }

    /// What stands before the number of interests in the name, and behind it.
    fn name(self) -> (&'static str, &'static str) {
        match self {
            Work::Modify => ("Modify each of", " interests in turn"),
            Work::ModifyAndBack => ("Modify one of", " to another set and back"),
            Work::AddAndDelete => ("Add and Delete one beside", ""),
            Work::Report => ("an entry of a wait, all of", " ready"),
            Work::ReportOne => ("a wait, 1 of", " ready"),
            Work::WriteToReady => ("a write to one of", " that stay ready"),
            Work::Turn => ("a read and a write of one, all of", " ready"),
            Work::Reverse => ("a write, an entry and a read,", " in reverse"),
        }
    }

    /// Measures it on a table with `interests` interests.
    fn measure<R: Host>(
        self,
        bench: &Bench<R>,
        table: &mut Table,
        buffer: &mut [EpollEvent],
        interests: u32,
        rounds: u32,
    ) -> Result<Measured> {
        let last = interests.saturating_sub(1);
        let mut counted = Counted { count: 0, last };
        self.prepare(table, interests)?;
        let times = Times::of(
            || self.repeat(table, buffer, interests, rounds, &mut counted),
            &bench.rt,
        )?;
        let count = self.count(table, buffer, interests, counted)?;
        let operations = rounds as u64 * self.operations(interests) as u64;
        Measured::of(times, operations, count)
    }

    /// Opens the counter that is added and deleted, or makes one ready where none else is.
    fn prepare(self, table: &mut Table, interests: u32) -> Called<()> {
        match self {
            Work::AddAndDelete => {
                let _ = table.add_counter(1)?;
            }
            Work::ReportOne => table.write(interests.saturating_sub(1).cast_signed(), 1)?,
            _ => {}
        }
        Ok(())
    }

    /// Does the work of a repeat.
    fn repeat(
        self,
        table: &mut Table,
        buffer: &mut [EpollEvent],
        interests: u32,
        rounds: u32,
        counted: &mut Counted,
    ) -> Called<()> {
        let Counted { count, last } = counted;
        let (fd, behind) = ((interests / 2).cast_signed(), interests.cast_signed());
        match self {
            Work::Modify => modify(table, interests, rounds, count, last),
            Work::ModifyAndBack => modify_and_back(table, fd, rounds, count),
            Work::AddAndDelete => add_and_delete(table, behind, rounds, count),
            Work::Report | Work::ReportOne => wait(table, buffer, rounds, count),
            Work::WriteToReady => write_to(table, fd, rounds),
            Work::Turn => turn(table, fd, rounds, count),
            Work::Reverse => pass_in_reverse(table, buffer, interests, rounds, count),
        }
    }

    /// What the repeats have counted. Refused where the table doesn't report each interest that was modified, or stood
    /// beside the one that was added and deleted.
    fn count(
        self,
        table: &mut Table,
        buffer: &mut [EpollEvent],
        interests: u32,
        counted: Counted,
    ) -> Result<u64> {
        match self {
            Work::Modify | Work::ModifyAndBack | Work::AddAndDelete => {
                let _ = expect(table.wait(buffer)? as u64, interests as u64)?;
            }
            _ => {}
        }
        Ok(match self {
            Work::Modify => buffer
                .get(counted.last as usize)
                .map_or(0, |entry| entry.data()),
            Work::WriteToReady => table.read((interests / 2).cast_signed())?.saturating_sub(1),
            _ => counted.count,
        })
    }
}

/// Measures the calls of a table at each wanted size.
pub fn measure_tables<R: Host>(bench: &Bench<R>) -> Result<()> {
    for (size, interests, waits) in [
        (Size::Small, 16, 20000),
        (Size::Middle, 256, 1000),
        (Size::Large, 4096, 20),
        (Size::Huge, 1_000_000, 5),
    ] {
        if bench.wanted.has_size(size) {
            measure_filling(bench, interests)?;
            for work in WORKS {
                measure_work(bench, work, interests, waits)?;
            }
        }
    }
    Ok(())
}
