//! What tests expect, in functions of their own: so a test's body is short.

use std::fmt::Debug;
use std::process::Abort;

/// Expects that the two are equal.
pub fn expect_same<A: PartialEq + Debug, R: Abort>(rt: &R, found: &A, expected: &A) {
    assert_eq!(rt; found, expected);
}

/// What a call answers that must succeed.
pub fn expect_ok<A, E: Debug + Drop, R: Abort>(rt: &R, answer: Result<A, E>) -> A {
    answer.expect(rt, "it succeeds")
}

/// Puts a value last.
pub fn put<A: Drop, R: Abort>(rt: &R, list: &mut Vec<A>, value: A) {
    expect_same(rt, &list.push(value).is_ok(), &true);
}
