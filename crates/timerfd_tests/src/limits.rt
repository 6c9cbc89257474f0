//! For how long the poller below is waited for.

use crate::steps::Step::{Arm, ArmAgain, Clear, Limit, Reads, Report, Take, Time};
use crate::steps::Which::{First, Other};
use crate::steps::run;

/// A millisecond.
const MS: u64 = 1_000_000;

#[test]
fn without_an_armed_timer_the_limit_is_that_of_the_wait(host: HostRuntime) {
    let steps = [Limit(1, 1), Limit(0, 0), Limit(-1, -1), Reads(0)];
    run(host, host.alloc(), &steps);
}

#[test]
fn the_limit_is_the_time_from_what_the_clock_shows_to_the_next_due_time(host: HostRuntime) {
    // Due at 10, 13, 16 and 19 milliseconds.
    let steps = [
        ArmAgain(First, 10 * MS, 3 * MS),
        Limit(-1, 10),
        Limit(1, 1),
        Time(4 * MS + 1),
        Limit(-1, 6),
        Time(16 * MS + 1),
        Take(First, Ok(3)),
        Limit(-1, 3),
    ];
    run(host, host.alloc(), &steps);
}

#[test]
fn the_limit_is_that_of_the_first_timer_with_an_interest_or_not(host: HostRuntime) {
    let steps = [
        Arm(First, 50 * MS),
        Arm(Other, 20 * MS),
        Limit(-1, 20),
        Arm(Other, 70 * MS),
        Limit(-1, 50),
        Clear(First),
        Limit(-1, 70),
        // It has expired, and nobody wants to hear of it.
        Time(70 * MS),
        Limit(-1, -1),
    ];
    run(host, host.alloc(), &steps);
}

#[test]
fn a_wait_reads_the_clock_once_or_not_at_all(host: HostRuntime) {
    let steps = [
        Arm(First, 10),
        Arm(Other, 90),
        Reads(2),
        Report(&[]),
        Reads(1),
        Time(10),
        Report(&[1]),
        Reads(1),
        // The first is ready, and none is armed any more.
        Clear(Other),
        Report(&[1]),
        Reads(0),
    ];
    run(host, host.alloc(), &steps);
}
