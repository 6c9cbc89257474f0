//! What a measure is given, and how what came of it is printed.

use crate::arguments::Wanted;
use crate::timing::{REPEATS, Times};
use anyhow::{Result, ensure};
use std::alloc::Global;

const FEW: u32 = 3;

/// What came of a measure.
#[derive(Clone, Copy)]
pub struct Measured {
    /// How long the repeats took.
    pub times: Times,
    /// The number of operations in a repeat.
    pub operations: u64,
    /// What all rounds counted; it is what the work has.
    pub count: u64,
}

impl Measured {
    /// What came of repeats with `operations` operations each. Refused where all of them counted another number.
    pub fn of(times: Times, operations: u64, count: u64) -> Result<Measured> {
        Ok(Measured {
            times,
            operations,
            count: expect(count, operations.saturating_mul(u64::from(REPEATS)))?,
        })
    }
}

/// The runtime, and what is wanted.
#[derive(Drop)]
pub struct Bench<R> {
    /// The runtime.
    pub rt: R,
    /// Where memory comes from.
    pub alloc: Global,
    /// What is measured, and how.
    pub wanted: Wanted,
}

impl<R: Print> Bench<R> {
    /// The number of rounds of a repeat that in full has `full`.
    pub fn rounds(&self, full: u32) -> u32 {
        if self.wanted.checked { FEW } else { full }
    }

    /// Prints the heading of the columns; nothing where counts are wanted in place of times.
    pub fn print_heading(&self) -> Result<()> {
        if !self.wanted.checked {
            println!(self.rt;
                "{:<44} {:>12} {:>12}",
                "ns per operation", "least", "middle"
            )?;
        }
        Ok(())
    }

    /// Prints the name, and the least and the middle time of an operation in nanoseconds, or the count where counts are wanted.
    pub fn print(&self, name: &str, measured: Measured) -> Result<()> {
        if self.wanted.checked {
            println!(self.rt; "{:<44} {:>10}", name, measured.count)?;
            return Ok(());
        }
        let least = measured.times.least(measured.operations);
        let middle = measured.times.middle(measured.operations);
        println!(self.rt;
            "{:<44} {:>10}.{} {:>10}.{}",
            name,
            least / 10,
            least % 10,
            middle / 10,
            middle % 10
        )?;
        Ok(())
    }

    /// Prints a line as `print` does, with a size in the name.
    pub fn print_sized(&self, name: (&str, u32, &str), measured: Measured) -> Result<()> {
        let (before, size, behind) = name;
        let name = format!(in self.alloc; "{before} {size}{behind}")?;
        self.print(name.as_str(), measured)
    }
}

/// Returns what was answered; refused where it isn't what was expected.
pub fn expect(answered: u64, expected: u64) -> Result<u64> {
    ensure!(
        answered == expected,
        "answered {answered}, and not {expected}"
    );
    Ok(answered)
}
