//! What a join and a leave cost.

use crate::managers::{ManagerMeasure, take_over_fixed};
use crate::subscribers::Counter;
use anyhow::Result;
use event_manager::{EventManager, EventPoller, NamedCounter, NoJob, SubscriberOps};
use measures::arguments::Size;
use measures::bench::{Bench, Measured, expect};
use measures::fixed::{BATCH, FIRST, Fixed};
use measures::host::Host;
use measures::timing::Times;

/// The lowest descriptor of the subscriber that joins and leaves.
const FIRST_OF_GUEST: i32 = 1000000;

/// Joins and leaves of a subscriber with `descriptors` descriptors, beside others with one each.
#[derive(Clone, Copy)]
struct JoinAndLeave {
    others: u16,
    descriptors: u16,
}

impl<R: Host> ManagerMeasure<R> for JoinAndLeave {
    type Subscriber = Counter;

    type Job = NoJob;

    fn capacity(&self) -> usize {
        BATCH as usize
    }

    fn take<N: NamedCounter, P: EventPoller>(
        &self,
        manager: &mut EventManager<Counter, NoJob, N, P>,
        bench: &Bench<R>,
    ) -> Result<Measured> {
        for k in 0..self.others {
            let _ = manager.add_subscriber(Counter::new(FIRST as i32 + k as i32, 1))?;
        }
        let (descriptors, rounds) = (self.descriptors, bench.rounds(50000));
        let mut count = 0u64;
        let times = Times::of(
            || join_and_leave(manager, descriptors, rounds, &mut count),
            &bench.rt,
        )?;
        Measured::of(times, rounds as u64, count)
    }
}

// Adds how many left to the count; each must have counted nothing.
fn join_and_leave<N: NamedCounter, P: EventPoller>(
    manager: &mut EventManager<Counter, NoJob, N, P>,
    descriptors: u16,
    rounds: u32,
    count: &mut u64,
) -> Result<()> {
    for _ in 0..rounds {
        let id = manager.add_subscriber(Counter::new(FIRST_OF_GUEST, descriptors))?;
        expect(manager.remove_subscriber(id)?.counted()?, 0)?;
        *count = count.saturating_add(1);
    }
    Ok(())
}

/// Measures a join and a leave at each wanted size, of a subscriber with one descriptor and of one with 16.
pub fn measure_joins<R: Host>(bench: &Bench<R>) -> Result<()> {
    for (size, others) in [(Size::Small, 0), (Size::Middle, 256), (Size::Large, 4096)] {
        for (descriptors, behind) in [(1, " others, 1 fds"), (16, " others, 16 fds")] {
            if bench.wanted.has_size(size) {
                let joins = JoinAndLeave {
                    others,
                    descriptors,
                };
                let measured = take_over_fixed(bench, &joins, Fixed::first(0, bench.alloc)?)?;
                bench.print_sized(("join and leave,", others as u32, behind), measured)?;
            }
        }
    }
    Ok(())
}
