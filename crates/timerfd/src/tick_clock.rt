//! A clock that a program or a test sets.

use std::io;
use std::sync::Wait;
use std::sync::atomic::{AtomicU64, Ordering};
use std::time::{Clock, Duration};

/// A handle whose clock shows `ticks` milliseconds: a program or a test sets them, so a test of timers need not sleep. Ours.
#[derive(Clone, Copy)]
pub struct TickClock<'a, R> {
    ticks: &'a AtomicU64,
    rt: R,
}

impl<'a, R> TickClock<'a, R> {
    /// A clock that shows these ticks.
    pub fn new(ticks: &'a AtomicU64, rt: R) -> Self {
        TickClock { ticks, rt }
    }
}

impl<R: Wait> Wait for TickClock<'_, R> {}

impl<R> Clock for TickClock<'_, R> {
    fn monotonic(&self) -> io::Result<Duration> {
        Ok(Duration::from_millis(self.ticks.load(Ordering::SeqCst)))
    }

    fn since_1970(&self) -> io::Result<Duration> {
        self.monotonic()
    }
}
