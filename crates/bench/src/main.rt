//! What the calls of a manager cost, of jobs, channels and several loops, of the in-process table, timers and a recording poller:
//! a line for each measure, with the least and the middle time of 5 repeats, in nanoseconds an operation. docs/PERFORMANCE.md says
//! how to read them, and which words pick measures.
#![tactic(auto)]

mod calls;
mod counters;
mod deliver;
mod fire;
mod join_and_leave;
mod loops;
mod managers;
mod memory;
mod messages;
mod record;
mod subscribers;
mod table_calls;
mod timer_calls;
mod toggle;

use anyhow::Result;
use measures::arguments::{Family, Wanted};
use measures::bench::Bench;
use measures::host::Host;
use std::rt::Files;

/// The measures of a family.
#[derive(Clone, Copy)]
enum Measures {
    Deliveries,
    OneByOne,
    Batches,
    Joins,
    Memory,
    Counters,
    Records,
    Tables,
    Timers,
    Fires,
    Calls,
    Messages,
    Loops,
}

/// The families, in the order in which they are measured.
const FAMILIES: [(Family, Measures); 13] = [
    (Family("deliver"), Measures::Deliveries),
    (Family("one"), Measures::OneByOne),
    (Family("batch"), Measures::Batches),
    (Family("leave"), Measures::Joins),
    (Family("memory"), Measures::Memory),
    (Family("counters"), Measures::Counters),
    (Family("record"), Measures::Records),
    (Family("table"), Measures::Tables),
    (Family("timers"), Measures::Timers),
    (Family("fire"), Measures::Fires),
    (Family("call"), Measures::Calls),
    (Family("message"), Measures::Messages),
    (Family("loops"), Measures::Loops),
];

fn main(rt: HostRuntime) -> Result<()> {
    let wanted = Wanted::from_arguments(&rt, &FAMILIES.map(|(family, _)| family))?;
    let alloc = rt.alloc();
    let bench = Bench { rt, alloc, wanted };
    bench.print_heading()?;
    for (family, measures) in FAMILIES {
        if bench.wanted.has_family(family) {
            measure(&bench, measures)?;
        }
    }
    Ok(())
}

/// Takes the measures of a family.
fn measure<R: Host + Files + AllocGlobal>(bench: &Bench<R>, measures: Measures) -> Result<()> {
    match measures {
        Measures::Deliveries => deliver::measure_deliveries(bench),
        Measures::OneByOne => toggle::measure_one_by_one(bench),
        Measures::Batches => toggle::measure_batches(bench),
        Measures::Joins => join_and_leave::measure_joins(bench),
        Measures::Memory => memory::measure_memory(bench),
        Measures::Counters => counters::measure_counters(bench),
        Measures::Records => record::measure_records(bench),
        Measures::Tables => table_calls::measure_tables(bench),
        Measures::Timers => timer_calls::measure_timers(bench),
        Measures::Fires => fire::measure_fires(bench),
        Measures::Calls => calls::measure_calls(bench),
        Measures::Messages => messages::measure_messages(bench),
        Measures::Loops => loops::measure_loops(bench),
    }
}
