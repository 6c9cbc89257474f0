//! What a remove and an add of one descriptor cost, made at an event.

use crate::managers::{ManagerMeasure, run_rounds, take_over_fixed};
use crate::subscribers::Toggler;
use anyhow::Result;
use event_manager::{EventManager, EventPoller, NamedCounter, NoJob, SubscriberOps};
use measures::arguments::Size;
use measures::bench::{Bench, Measured};
use measures::fixed::Fixed;
use measures::host::Host;
use measures::timing::Times;

/// Batches of `entries` events of one subscriber, which at each removes a descriptor that isn't in the batch, and adds it
/// again.
#[derive(Clone, Copy)]
struct Toggle {
    entries: u16,
    /// How many descriptors the subscriber has: the first of them, one for each event, it leaves as they are.
    descriptors: u16,
    capacity: u32,
    rounds: u32,
}

impl<R: Host> ManagerMeasure<R> for Toggle {
    type Subscriber = Toggler;

    type Job = NoJob;

    fn capacity(&self) -> usize {
        self.capacity as usize
    }

    fn take<N: NamedCounter, P: EventPoller>(
        &self,
        manager: &mut EventManager<Toggler, NoJob, N, P>,
        bench: &Bench<R>,
    ) -> Result<Measured> {
        let (entries, rounds) = (self.entries as u64, bench.rounds(self.rounds));
        let id = manager.add_subscriber(Toggler::new(self.descriptors, self.entries))?;
        let times = Times::of(
            || run_rounds(manager, rounds, entries, &bench.rt),
            &bench.rt,
        )?;
        let count = manager.remove_subscriber(id)?.counted()?;
        Measured::of(times, rounds as u64 * entries, count)
    }
}

fn measure<R: Host>(bench: &Bench<R>, before: &str, toggle: Toggle) -> Result<()> {
    let fixed = Fixed::first(toggle.entries as u32, bench.alloc)?;
    let measured = take_over_fixed(bench, &toggle, fixed)?;
    bench.print_sized((before, toggle.capacity, ""), measured)
}

/// Measures a toggle at each wanted size, of one event in a batch, whose subscriber has 256 descriptors.
pub fn measure_one_by_one<R: Host>(bench: &Bench<R>) -> Result<()> {
    for (size, capacity, rounds) in [
        (Size::Small, 256, 100000),
        (Size::Middle, 4096, 20000),
        (Size::Large, 65536, 2000),
    ] {
        if bench.wanted.has_size(size) {
            let toggle = Toggle {
                entries: 1,
                descriptors: 256,
                capacity,
                rounds,
            };
            measure(bench, "toggle one, capacity", toggle)?;
        }
    }
    Ok(())
}

/// Measures it of 256 events in a batch, whose subscriber has 512 descriptors.
pub fn measure_batches<R: Host>(bench: &Bench<R>) -> Result<()> {
    for (size, capacity, rounds) in [
        (Size::Small, 256, 400),
        (Size::Middle, 4096, 80),
        (Size::Large, 65536, 8),
    ] {
        if bench.wanted.has_size(size) {
            let toggle = Toggle {
                entries: 256,
                descriptors: 512,
                capacity,
                rounds,
            };
            measure(bench, "toggle in a batch of 256, capacity", toggle)?;
        }
    }
    Ok(())
}
