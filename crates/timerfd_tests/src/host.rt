//! What the tests need of the runtime.

use crate::expecting::expect_ok;
use std::process::Abort;
use std::sync::Wait;
use std::thread::Threads;
use std::time::Clock;

/// What those need of it that start threads.
pub trait Host: Threads + Looping + Sync + 'static {}

impl<R: Threads + Looping + Sync + 'static> Host for R {}

/// What the others need of it.
pub trait Looping: Wait + Clock + Abort + Copy + Send + Drop {}

impl<R: Wait + Clock + Abort + Copy + Send + Drop> Looping for R {}

/// What the clock shows, in nanoseconds.
pub fn now<R: Looping>(rt: &R) -> u64 {
    let time = expect_ok(rt, rt.monotonic());
    u64::try_from(time.as_nanos()).unwrap_or(u64::MAX)
}
