//! A run that is recorded in production and made again on a desk.
//!
//! Two devices run in a loop whose poller records its calls, beside a guest who kicks and hangs up. The record is written as
//! text and read back, and the same devices run over it without the guest: they come to the same, as the contract of
//! `replay` says. A device that was changed runs over it too, up to the first call that differs.
#![tactic(auto)]

mod device;
mod guest;
mod recorded;
mod run;

use anyhow::Result;
use event_manager::EventSet;
use guest::{DEEDS, Present};
use recorded::{Recorded, Replayed, replay, run_twice};
use run::Told;
use vmm_sys::epoll::Epoll;

/// Prints what a run told.
fn print_told<R: Print>(told: &Told, rt: &R) -> Result<()> {
    for (deed, events) in DEEDS.iter().zip(&told.events) {
        println!(rt; "{}: events {events}", deed.name)?;
    }
    let (first, second) = (told.queue.of_first, told.queue.of_second);
    let (inputs, hung_up) = (told.console.of_first, told.console.hung_up);
    Ok(println!(rt; "kicks {first} and {second}, inputs {inputs}, hung up: {hung_up}")?)
}

/// Prints what a replay of the record of this text came to.
fn print_replayed<R: Print>(replayed: &Replayed, text: &str, rt: &R) -> Result<()> {
    match replayed {
        Replayed::Made { told, is_over } => {
            print_told(told, rt)?;
            Ok(println!(rt; "the record is over: {is_over}")?)
        }
        Replayed::Left(index) => {
            let entry = text.lines().nth(*index).unwrap_or("behind the last");
            Ok(println!(rt; "diverged at entry {index}: {entry}")?)
        }
    }
}

fn main(rt: HostRuntime) -> Result<()> {
    let alloc = rt.alloc();
    let epoll = Epoll::new(rt, alloc)?;
    let guest = Present::new(&epoll, rt)?;
    let devices = guest.devices(EventSet::IN);
    let (recorded, replayed) = run_twice(epoll, &devices, &guest, alloc)?;
    let Recorded {
        told,
        text,
        is_complete,
    } = recorded;
    println!(rt; "in production:")?;
    print_told(&told, &rt)?;
    print!(rt; "its record, complete: {is_complete}\n{text}")?;
    println!(rt; "on a desk:")?;
    print_replayed(&replayed, &text, &rt)?;
    println!(rt; "on a desk, with a queue that wants OUT too:")?;
    let changed = guest.devices(EventSet::IN | EventSet::OUT);
    let replayed = replay::<Epoll<HostRuntime>>(&text, &changed, alloc)?;
    print_replayed(&replayed, &text, &rt)
}
