//! A clock that answers an error.

use crate::clock::NUMBER;
use crate::steps::Step::{Arm, Armed, Damage, Limit, Report, Reset, Take, Time};
use crate::steps::Which::First;
use crate::steps::run;
use std::time::Duration;
use vmm_sys::errno::Errno;

#[test]
fn a_broken_clock_is_heard_of_and_nothing_changes(host: HostRuntime) {
    // Whether the clock's error has a number, and what is then answered.
    for (has_number, errno) in [(true, Errno(NUMBER)), (false, Errno::EIO)] {
        let steps = [
            Arm(First, 10),
            Damage(has_number),
            Reset(Duration::from_nanos(30), None, Err(errno)),
            Armed(First, Err(errno)),
            Take(First, Err(errno)),
            Time(10),
            Take(First, Ok(1)),
        ];
        run(host, host.alloc(), &steps);
    }
}

#[test]
fn the_limit_is_that_of_the_wait_by_a_broken_clock(host: HostRuntime) {
    let steps = [
        Arm(First, 10),
        Damage(true),
        Limit(-1, -1),
        Limit(9, 9),
        Time(10),
        Report(&[1]),
    ];
    run(host, host.alloc(), &steps);
}
