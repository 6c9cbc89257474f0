//! What a delivered event costs.

ghost use Rattle.std.specs.Prelude.{◌≤ℤ◌, pos};

use crate::managers::{ManagerMeasure, run_rounds, take_over_fixed};
use crate::subscribers::{Counter, descriptor};
use anyhow::Result;
use event_manager::{
    EventManager, EventPoller, EventSet, Events, NamedCounter, NoJob, Priority, SubscriberId,
    SubscriberOps,
};
use measures::arguments::Size;
use measures::bench::{Bench, Measured, expect};
use measures::fixed::{BATCH, FIRST, Fixed};
use measures::host::Host;
use measures::timing::{REPEATS, Times};
use std::alloc::Global;

/// A descriptor that no wait reports.
const UNREPORTED: i32 = 60000;

/// Which priorities the descriptors have.
#[derive(Clone, Copy, PartialEq, Eq)]
enum Priorities {
    /// The lowest.
    Lowest,
    /// The lowest, but for one descriptor beside them that is never reported.
    OneElsewhere,
    /// Each of the four in turn.
    Four,
}

/// Batches of 256 events for `subscribers` subscribers with one descriptor each.
#[derive(Clone, Copy)]
struct Deliver {
    subscribers: u32,
    priorities: Priorities,
}

impl<R: Host> ManagerMeasure<R> for Deliver {
    type Subscriber = Counter;

    type Job = NoJob;

    fn capacity(&self) -> usize {
        BATCH as usize
    }

    fn take<N: NamedCounter, P: EventPoller>(
        &self,
        manager: &mut EventManager<Counter, NoJob, N, P>,
        bench: &Bench<R>,
    ) -> Result<Measured> {
        for k in 0..self.subscribers {
            self.join(manager, descriptor(k))?;
        }
        let (batch, rounds_before, rounds) = (
            BATCH as u64,
            bench.rounds(1000),
            bench.rounds(20000),
        );
        run_rounds(manager, rounds_before, batch, &bench.rt)?;
        let times = Times::of(|| run_rounds(manager, rounds, batch, &bench.rt), &bench.rt)?;
        let all_rounds = rounds_before as u64 + REPEATS as u64 * rounds as u64;
        Ok(Measured {
            times,
            operations: rounds as u64 * batch,
            count: expect(leave(manager, bench.alloc)?, all_rounds * batch)?,
        })
    }
}

/// Lets all subscribers leave, and answers what they have counted in all.
fn leave<N: NamedCounter, P: EventPoller>(
    manager: &mut EventManager<Counter, NoJob, N, P>,
    alloc: Global,
) -> Result<u64> {
    let ids = manager.ids(alloc)?;
    let mut count = 0u64;
    for id in &ids {
        count = count.saturating_add(manager.remove_subscriber(*id)?.counted()?);
    }
    Ok(count)
}

impl Deliver {
    /// Lets a subscriber with this descriptor join.
    fn join<N: NamedCounter, P: EventPoller>(
        &self,
        manager: &mut EventManager<Counter, NoJob, N, P>,
        fd: i32,
    ) -> Result<()>
        requires { pos 0 ≤ℤ fd }
    {
        let id = manager.add_subscriber(Counter::new(fd, 1))?;
        self.give_priority(manager, id, fd)
    }

    /// Gives the subscriber's descriptor its priority.
    fn give_priority<N: NamedCounter, P: EventPoller>(
        &self,
        manager: &mut EventManager<Counter, NoJob, N, P>,
        id: SubscriberId,
        fd: i32,
    ) -> Result<()>
        requires { pos 0 ≤ℤ fd }
    {
        match self.priorities {
            Priorities::Lowest => {}
            Priorities::OneElsewhere if fd == FIRST as i32 => {
                let elsewhere = Events::new_raw(UNREPORTED, EventSet::IN);
                manager
                    .event_ops(id)?
                    .add_with_priority(elsewhere, Priority::Low)?;
            }
            Priorities::OneElsewhere => {}
            Priorities::Four => {
                let own = Events::new_raw(fd, EventSet::IN);
                let priority = Priority::new((fd % 4) as u8).unwrap_or(Priority::Lowest);
                let ops = manager.event_ops(id)?;
                ops.remove(own)?;
                ops.add_with_priority(own, priority)?;
            }
        }
        Ok(())
    }
}

/// The sizes, each with its number of subscribers.
const SIZES: [(Size, u32); 5] = [
    (Size::Small, 16),
    (Size::Middle, 256),
    (Size::Large, 4096),
    (Size::Huge, 65536),
    (Size::Huge, 1000000),
];

/// Which priorities are measured, each with what stands behind the number of subscribers in the name.
const PRIORITIES: [(Priorities, &str); 3] = [
    (Priorities::Lowest, " subscribers"),
    (Priorities::OneElsewhere, ", a priority elsewhere"),
    (Priorities::Four, ", four priorities"),
];

/// Measures a delivery at each wanted size; with priorities at those up to 4096.
pub fn measure_deliveries<R: Host>(bench: &Bench<R>) -> Result<()> {
    for (size, subscribers) in SIZES {
        for (priorities, behind) in PRIORITIES {
            let is_measured = size != Size::Huge || priorities == Priorities::Lowest;
            if is_measured && bench.wanted.has_size(size) {
                let deliver = Deliver {
                    subscribers,
                    priorities,
                };
                let spread = Fixed::spread(subscribers, bench.alloc)?;
                let measured = take_over_fixed(bench, &deliver, spread)?;
                bench.print_sized(("deliver,", subscribers, behind), measured)?;
            }
        }
    }
    Ok(())
}
