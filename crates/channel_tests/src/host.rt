//! What the tests need of the runtime.

use std::process::Abort;
use std::sync::Wait;
use std::thread::Threads;
use std::time::Clock;

/// What those need of it that start threads.
pub trait Host: Threads + Looping + Sync + 'static {}

impl<R: Threads + Looping + Sync + 'static> Host for R {}

/// What the others need of it.
pub trait Looping: Wait + Clock + AllocGlobal + Abort + Copy + Send + Drop {}

impl<R: Wait + Clock + AllocGlobal + Abort + Copy + Send + Drop> Looping for R {}
