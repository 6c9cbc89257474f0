//! What it costs to record an event that a poller reports.

use crate::table_calls::buffer;
use anyhow::Result;
use measures::bench::{Bench, Measured, expect};
use measures::fixed::{BATCH, Fixed};
use measures::host::Host;
use measures::timing::{REPEATS, Times};
use poller_records::recording_poller::RecordingPoller;
use vmm_sys::epoll::EpollEvent;
use vmm_sys::errno::Errno;
use vmm_sys::poller::Poller;

/// How often a repeat waits.
const WAITS: u32 = 1000;

/// Waits `rounds` times, and adds how many entries were reported in all to the count.
fn wait<P: Poller>(
    poller: &mut P,
    buffer: &mut [EpollEvent],
    rounds: u32,
    count: &mut u64,
) -> Result<(), Errno> {
    let mut reported = 0u64;
    for _ in 0..rounds {
        reported = reported.saturating_add(poller.wait(-1, buffer)? as u64);
    }
    *count = count.saturating_add(reported);
    Ok(())
}

/// Measures the waits of a poller.
fn measure_waits<P: Poller, R: Host>(bench: &Bench<R>, name: &str, poller: &mut P) -> Result<()> {
    let rounds = bench.rounds(WAITS);
    let mut buffer = buffer(BATCH as usize, bench.alloc)?;
    let mut count = 0u64;
    let times = Times::of(
        || wait(poller, buffer.as_mut_slice(), rounds, &mut count),
        &bench.rt,
    )?;
    let measured = Measured::of(times, rounds as u64 * BATCH as u64, count)?;
    bench.print(name, measured)
}

/// Measures a reported event of the fixed poller that is recorded, each into room that no other takes. Refused where one was
/// left out.
fn measure_recorded<R: Host>(bench: &Bench<R>) -> Result<()> {
    let rounds = bench.rounds(WAITS) as usize * REPEATS as usize;
    let entries = rounds * (1 + BATCH as usize);
    let fixed = Fixed::spread(BATCH, bench.alloc)?;
    let mut poller = RecordingPoller::new(fixed, bench.alloc, entries)?;
    measure_waits(bench, "a reported event, recorded", &mut poller)?;
    let _ = expect(poller.record().len() as u64, entries as u64)?;
    Ok(())
}

/// Measures one alone, and one that is recorded.
pub fn measure_records<R: Host>(bench: &Bench<R>) -> Result<()> {
    let mut fixed = Fixed::spread(BATCH, bench.alloc)?;
    measure_waits(bench, "a reported event", &mut fixed)?;
    measure_recorded(bench)
}
