//! What a call must answer, in functions of their own that name the call where it doesn't: so a test's body is short.

use channels::Refusal;
use event_manager::Error;
use std::alloc::{AllocError, AllocFailed};
use std::fmt::Debug;
use std::process::Abort;
use std::sync::Wait;
use std::time::{Clock, Instant};
use vmm_sys::errno::Errno;

/// What the tests need of the runtime. A method of a trait calls functions with this bound alone.
pub trait Looping: Wait + Clock + Eprint + Abort + Copy + Drop {}

impl<R: Wait + Clock + Eprint + Abort + Copy + Drop> Looping for R {}

/// One that a poller keeps, too.
pub trait Host: Looping + Send {}

impl<R: Looping + Send> Host for R {}

/// What a refused call answers.
pub trait Fault: Debug + Drop {
    /// Whether it is for want of memory.
    fn is_for_memory(&self) -> bool;
}

impl Fault for Error {
    fn is_for_memory(&self) -> bool {
        *self == Error::OutOfMemory
    }
}

impl Fault for Errno {
    fn is_for_memory(&self) -> bool {
        *self == Errno::ENOMEM
    }
}

impl Fault for Refusal {
    fn is_for_memory(&self) -> bool {
        *self == Refusal::OutOfMemory
    }
}

impl Fault for AllocError {
    fn is_for_memory(&self) -> bool {
        true
    }
}

impl<T: Drop> Fault for AllocFailed<T> {
    fn is_for_memory(&self) -> bool {
        true
    }
}

/// The answer of a call, where memory wasn't refused to it.
pub fn unless_refused<T, E: Fault, R: Abort>(
    rt: &R,
    call: &str,
    answer: Result<T, E>,
) -> Option<T> {
    match answer {
        Ok(value) => Some(value),
        Err(fault) => {
            if !fault.is_for_memory() {
                panic!(rt; "{call}: {fault:?}");
            }
            None
        }
    }
}

/// What a call answers that must succeed.
pub fn expect_ok<T, E: Fault, R: Abort>(rt: &R, call: &str, answer: Result<T, E>) -> T {
    match unless_refused(rt, call, answer) {
        Some(value) => value,
        None => panic!(rt; "{call}: out of memory"),
    }
}

/// Expects that a call answered this.
pub fn expect_same<A: PartialEq + Debug, R: Abort>(rt: &R, call: &str, found: &A, expected: &A) {
    if found != expected {
        panic!(rt; "{call}: {found:?}, and not {expected:?}");
    }
}

/// Expects that a call to which memory was refused changed nothing, and tells standard error that it is made again.
pub fn expect_unchanged<R: Eprint + Abort>(rt: &R, call: &str, is_unchanged: bool) {
    if !is_unchanged {
        panic!(rt; "{call}: refused, it changed something");
    }
    let _ = eprintln!(rt; "{call}: made again");
}

/// The answer of a call that is made once more where memory is refused to it. Then, between the two, the last expression must
/// hold; where there is none, the second answer or a later one shows what a refused call had changed.
#[macro_export]
macro_rules! again {
    ($rt:expr, $name:expr, $call:expr) => {
        $crate::again!($rt, $name, $call, true)
    };
    ($rt:expr, $name:expr, $call:expr, $unchanged:expr) => {
        match $crate::expecting::unless_refused($rt, $name, $call) {
            Some(value) => value,
            None => {
                $crate::expecting::expect_unchanged($rt, $name, $unchanged);
                $crate::expecting::expect_ok($rt, $name, $call)
            }
        }
    };
}

/// Looks at the clock, which nothing else of a test does: `ci/refuse_each_request` sees how many requests for memory lie between
/// two looks. It takes no memory.
pub fn mark<R: Clock + Abort>(rt: &R) {
    if Instant::now(rt).is_err() {
        panic!(rt; "the clock can't be read");
    }
}
