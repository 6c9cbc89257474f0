//! How long repeats take.

use anyhow::{Error, Result};
use std::time::{Clock, Instant};

/// How often each measure is repeated.
pub const REPEATS: u32 = 5;

/// How long the repeats of a measure took, in nanoseconds.
#[derive(Clone, Copy)]
pub struct Times {
    nanoseconds: [u128; 5],
}

impl Times {
    /// Does the work 5 times, each between two looks at the clock. Refused as the work is, and where the clock can't be read.
    pub fn of<F, E, R>(mut work: F, rt: &R) -> Result<Times>
    where
        F: FnMut() -> std::result::Result<(), E>,
        E: Into<Error>,
        R: Clock,
        requires { F.IsAlwaysCallable work }
    {
        let mut nanoseconds = [0; 5];
        for k in 0..5usize {
            let start = Instant::now(rt)?;
            work().map_err(|error| error.into())?;
            nanoseconds[k] = start.elapsed(rt)?.as_nanos();
        }
        nanoseconds.sort_unstable();
        Ok(Times { nanoseconds })
    }

    /// The least time per operation, of `operations` in a repeat, in tenths of a nanosecond.
    pub fn least(&self, operations: u64) -> u128 {
        tenths(self.nanoseconds[0], operations)
    }

    /// The middle time per operation, of `operations` in a repeat, in tenths of a nanosecond.
    pub fn middle(&self, operations: u64) -> u128 {
        tenths(self.nanoseconds[2], operations)
    }
}

fn tenths(nanoseconds: u128, operations: u64) -> u128 {
    nanoseconds.saturating_mul(10) / (operations.max(1) as u128)
}
