//! What tests need of the runtime, and what they expect, in functions of their own: so a test's body is short.

use std::fmt::Debug;
use std::process::Abort;
use std::sync::Wait;
use std::thread::Threads;
use std::time::Clock;

/// What a body needs of the runtime that starts no thread. A method of a trait calls functions with this bound alone.
pub trait Looping: Wait + Clock + Abort + Copy + Drop {}

impl<R: Wait + Clock + Abort + Copy + Drop> Looping for R {}

/// What a test needs of it that starts threads.
pub trait Host: Looping + Threads + Send + Sync {}

impl<R: Looping + Threads + Send + Sync> Host for R {}

/// Expects that the two are equal.
pub fn expect_same<A: PartialEq + Debug, R: Abort>(rt: &R, found: &A, expected: &A) {
    assert_eq!(rt; found, expected);
}

/// Expects that this holds.
pub fn expect<R: Abort>(rt: &R, holds: bool) {
    assert!(rt; holds);
}

/// What a call answers that must succeed.
pub fn expect_ok<A, E: Debug + Drop, R: Abort>(rt: &R, answer: Result<A, E>) -> A {
    answer.expect(rt, "it succeeds")
}
