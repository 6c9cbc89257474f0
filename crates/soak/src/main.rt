//! The program `soak`: four threads load one event manager for a number of rounds, its argument, or 10000. One runs the manager.
//! One writes the counters of the devices, each of which reads its own, and in mid-batch takes one out and puts it in again. One
//! sends jobs. One sends jobs and waits for their replies: a guest joins, is written to, and leaves; right before each it sends a
//! job without waiting, and at the end of a round another, and waits until none is in the queue. What was written must then be
//! read, each job run once, each call replied: the program prints its counts, the same for the same number of rounds; else it ends
//! with 1 and what differs. Loop and callers wait without a limit, so whoever misses a wake-up or a reply waits for ever: the first
//! thread looks on, and where no other makes a step for ten seconds it ends the program with 1 and a line that says so.
#![tactic(auto)]

pub mod device;
pub mod load;
pub mod parts;
pub mod senders;
pub mod served;
pub mod work;

use anyhow::Result;
use load::{Loaded, load};
use measures::arguments::rounds;

/// How many rounds there are without an argument.
const ROUNDS: u32 = 10000;

fn main(rt: HostRuntime) -> Result<()> {
    let rounds = rounds(&rt, ROUNDS)?;
    let Loaded {
        read,
        fired,
        called,
        taken,
    } = load(rt, rt.alloc(), rounds)?;
    println!(rt; "rounds: {rounds}")?;
    println!(rt; "written to the devices, and read: {read}")?;
    println!(rt; "jobs sent: {fired}, called: {called}, run: {taken}")?;
    println!(rt; "guests that joined, and left: {rounds}")?;
    Ok(())
}
