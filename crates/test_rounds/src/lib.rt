//! Rounds that the threads of a test make together, beside one that looks on.
#![tactic(auto)]

use std::sync::Wait;
use std::sync::atomic::{AtomicBool, AtomicU64, Ordering};
use std::time::{Clock, Duration, Instant};
use std::{hint, thread};

/// For how many milliseconds the rounds may stand still.
const PATIENCE: u64 = 10_000;

/// How many milliseconds there is time for more rounds, on a busy machine where they are fewer.
const MOST_TIME: u64 = 15_000;

/// Rests for up to 511 turns, and one time in four lets others run first: so steps come at each point of other threads' steps.
/// The rest follows from the round and the step's number in it, and looks random.
pub fn rest(round: u64, step: u64) {
    let seed = round.wrapping_mul(0x9e37_79b9_7f4a_7c15).wrapping_add(step);
    let mixed = (seed ^ (seed >> 31)).wrapping_mul(0xbf58_476d_1ce4_e5b9);
    if mixed >> 53 & 3 == 0 {
        thread::yield_now();
    }
    for _turn in 0..mixed >> 55 {
        hint::spin_loop();
    }
}

/// How far the rounds of a test are: how many were counted, and whether they are over.
#[derive(Drop)]
pub struct Rounds {
    counted: AtomicU64,
    time_is_up: AtomicBool,
    have_ended: AtomicBool,
}

impl Rounds {
    pub fn new() -> Self {
        Rounds {
            counted: AtomicU64::new(0),
            time_is_up: AtomicBool::new(false),
            have_ended: AtomicBool::new(false),
        }
    }

    /// Comes to a round, which counts, and waits until `threads` have: it looks many times at once, then lets others run, and
    /// sleeps at last.
    pub fn begin<R: Clock>(&self, rt: &R, round: u64, threads: u64) {
        self.count();
        let all = round.saturating_add(1).saturating_mul(threads);
        for look in 0..u64::MAX {
            if self.counted() >= all {
                break;
            }
            match look {
                0..=999 => {}
                1000..=1099 => thread::yield_now(),
                _ => thread::sleep(rt, Duration::from_micros(20)),
            }
        }
    }

    /// Counts one more.
    pub fn count(&self) {
        self.counted.fetch_add(1, Ordering::SeqCst);
    }

    /// How many were counted.
    pub fn counted(&self) -> u64 {
        self.counted.load(Ordering::SeqCst)
    }

    /// Whether there is time for one more.
    pub fn has_time(&self) -> bool {
        !self.time_is_up.load(Ordering::SeqCst)
    }

    /// Ends them.
    pub fn end(&self) {
        self.have_ended.store(true, Ordering::SeqCst);
    }

    /// Looks on until they have ended, and answers whether they did: not, where for ten seconds none is counted, or the clock isn't
    /// read.
    pub fn look_on<R: Wait + Clock>(&self, rt: &R) -> bool {
        let Ok(begin) = Instant::now(rt) else {
            return false;
        };
        let (mut seen, mut since) = (0, begin);
        for _look in rt.forever() {
            if self.have_ended.load(Ordering::SeqCst) {
                break;
            }
            let Ok(now) = Instant::now(rt) else {
                return false;
            };
            let counted = self.counted();
            if counted != seen {
                (seen, since) = (counted, now);
            }
            if now.saturating_duration_since(since) > Duration::from_millis(PATIENCE) {
                return false;
            }
            if now.saturating_duration_since(begin) > Duration::from_millis(MOST_TIME) {
                self.time_is_up.store(true, Ordering::SeqCst);
            }
            thread::sleep(rt, Duration::from_millis(1));
        }
        true
    }
}
