//! A clock that a test sets.

use crate::expecting::expect_same;
use std::fmt::Display;
use std::io;
use std::process::Abort;
use std::sync::Wait;
use std::sync::atomic::{AtomicBool, AtomicU64, Ordering};
use std::time::{Clock, Duration};

/// The number of an error of the clock, where it has one.
pub const NUMBER: i32 = 71;

/// The face of a clock: the time in nanoseconds, and how often it was read.
#[derive(Drop)]
pub struct Face {
    time: AtomicU64,
    pub reads: AtomicU64,
    is_broken: AtomicBool,
    has_number: AtomicBool,
}

impl Face {
    /// It shows this time, and wasn't read.
    pub fn new(time: u64) -> Self {
        Face {
            time: AtomicU64::new(time),
            reads: AtomicU64::new(0),
            is_broken: AtomicBool::new(false),
            has_number: AtomicBool::new(false),
        }
    }

    /// From now on it shows this time.
    pub fn set(&self, time: u64) {
        self.is_broken.store(false, Ordering::SeqCst);
        self.time.store(time, Ordering::SeqCst);
    }

    /// Until it is set again, a read of it answers an error, with its number or without one.
    pub fn damage(&self, has_number: bool) {
        self.has_number.store(has_number, Ordering::SeqCst);
        self.is_broken.store(true, Ordering::SeqCst);
    }

    fn read(&self) -> io::Result<Duration> {
        self.reads.fetch_add(1, Ordering::SeqCst);
        if !self.is_broken.load(Ordering::SeqCst) {
            return Ok(Duration::from_nanos(self.time.load(Ordering::SeqCst)));
        }
        if self.has_number.load(Ordering::SeqCst) {
            return Err(io::Error::from_raw_os_error(NUMBER));
        }
        Err(io::Error::other("the clock is broken"))
    }
}

/// Expects that `count` were counted since the last such call.
pub fn expect_count<R: Abort>(rt: &R, counted: &AtomicU64, count: u64) {
    expect_same(rt, &counted.swap(0, Ordering::SeqCst), &count);
}

/// A runtime with such a clock in place of its own.
#[derive(Clone, Copy, Drop)]
pub struct ByFace<'a, R> {
    face: &'a Face,
    rt: R,
}

impl<'a, R> ByFace<'a, R> {
    pub fn new(face: &'a Face, rt: R) -> Self {
        ByFace { face, rt }
    }
}

impl<R: Wait> Wait for ByFace<'_, R> {}

impl<R> Clock for ByFace<'_, R> {
    fn monotonic(&self) -> io::Result<Duration> {
        self.face.read()
    }

    fn since_1970(&self) -> io::Result<Duration> {
        self.face.read()
    }
}

impl<R: Abort> Abort for ByFace<'_, R> {
    fn abort(&self) -> ! {
        self.rt.abort()
    }

    fn exit(&self, code: i32) -> ! {
        self.rt.exit(code)
    }

    fn panic<D: Display + Drop>(&self, message: D) -> ! {
        self.rt.panic(message)
    }
}
