//! What tests expect, in functions of their own: so a test's body is short.

use std::fmt::Debug;
use std::process::Abort;

/// Expects that the two are equal.
pub fn expect_same<A: PartialEq + Debug, R: Abort>(rt: &R, found: &A, expected: &A) {
    assert_eq!(rt; found, expected);
}

/// Expects that the two are equal, for this row of a table.
pub fn expect_same_for<A: PartialEq + Debug, D: Debug, R: Abort>(
    rt: &R,
    found: &A,
    expected: &A,
    row: &D,
) {
    assert_eq!(rt; found, expected, "{row:?}");
}

/// What a call answers that must succeed.
pub fn expect_ok<A, E: Debug + Drop, R: Abort>(rt: &R, answer: Result<A, E>) -> A {
    match answer {
        Ok(it) => it,
        Err(error) => panic!(rt; "error: {error:?}"),
    }
}
