//! What the programs need of the runtime.

use std::sync::Wait;
use std::thread::Threads;
use std::time::Clock;

/// A runtime with threads, a clock and an output.
pub trait Host: Threads + Wait + Clock + Print + Copy + Send + Sync + Drop + 'static {}

impl<R: Threads + Wait + Clock + Print + Copy + Send + Sync + Drop + 'static> Host for R {}
