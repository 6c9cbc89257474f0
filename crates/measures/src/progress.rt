//! How far other threads have come, and the wait for their end.

use anyhow::{Result, bail};
use std::sync::atomic::{AtomicU64, Ordering};
use std::sync::{Condvar, Mutex, Wait};
use std::time::{Clock, Duration};

/// How often the threads are looked at, in milliseconds.
const LOOK: u64 = 1000;

/// How many looks in a row may find no further step.
const PATIENCE: u32 = 10;

/// How many steps the threads have made, and whether all is over.
#[derive(Drop)]
pub struct Progress {
    steps: AtomicU64,
    over: Mutex<bool>,
    changed: Condvar,
}

impl Progress {
    /// No step is made yet.
    pub fn new() -> Self {
        Progress {
            steps: AtomicU64::new(0),
            over: Mutex::new(false),
            changed: Condvar::new(),
        }
    }

    /// Counts a step.
    pub fn step(&self) {
        self.steps.fetch_add(1, Ordering::SeqCst);
    }

    /// Notes that all is over.
    pub fn end(&self, rt: &impl Wait) {
        *self.over.lock(rt) = true;
        self.changed.notify_all();
    }

    /// Waits for the end, a look long.
    fn is_over_soon<R: Wait + Clock>(&self, rt: &R) -> bool {
        let look = Duration::from_millis(LOOK);
        let (over, _) = self
            .changed
            .wait_timeout_while(rt, self.over.lock(rt), look, |over| !*over);
        *over
    }

    /// Waits until all is over. Refused where nobody makes a step for some ten seconds: then the threads may wait for ever.
    pub fn wait_for_end<R: Wait + Clock>(&self, rt: &R) -> Result<()> {
        let (mut seen, mut idle) = (0, 0u32);
        for _ in rt.forever() {
            if self.is_over_soon(rt) {
                return Ok(());
            }
            let steps = self.steps.load(Ordering::SeqCst);
            idle = if steps == seen {
                idle.saturating_add(1)
            } else {
                0
            };
            seen = steps;
            if idle >= PATIENCE {
                break;
            }
        }
        bail!("no thread moves any more, after {seen} steps")
    }
}
