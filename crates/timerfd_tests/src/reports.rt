//! What a poller with timers reports of them.

use crate::steps::Step::{Arm, ArmAgain, Change, Clear, Report, Share, Take, Time};
use crate::steps::Which::{First, Other};
use crate::steps::run;
use vmm_sys::epoll::{ControlOperation, EventSet};

#[test]
fn a_timer_is_reported_from_when_it_is_due_until_its_expirations_are_taken(host: HostRuntime) {
    let steps = [
        Report(&[]),
        ArmAgain(First, 10, 10),
        Time(9),
        Report(&[]),
        Time(10),
        Report(&[1]),
        Report(&[1]),
        Take(First, Ok(1)),
        Report(&[]),
        Time(35),
        Report(&[1]),
        Report(&[1]),
        Take(First, Ok(2)),
        Report(&[]),
    ];
    run(host, host.alloc(), &steps);
}

#[test]
fn a_timer_is_not_reported_where_it_is_armed_anew_or_cleared(host: HostRuntime) {
    let steps = [
        Arm(First, 10),
        Time(10),
        Report(&[1]),
        Arm(First, 10),
        Report(&[]),
        Time(20),
        Report(&[1]),
        Clear(First),
        Report(&[]),
        Arm(First, 10),
        Clear(First),
        Time(30),
        Report(&[]),
    ];
    run(host, host.alloc(), &steps);
}

#[test]
fn a_timer_is_reported_as_its_interest_says(host: HostRuntime) {
    let steps = [
        Arm(Other, 10),
        Time(10),
        Report(&[]),
        Change(ControlOperation::Add, Other, EventSet::IN),
        Report(&[2]),
        Change(ControlOperation::Modify, Other, EventSet::OUT),
        Report(&[]),
        Change(ControlOperation::Modify, Other, EventSet::IN),
        Report(&[2]),
        Change(ControlOperation::Delete, Other, EventSet::IN),
        Report(&[]),
    ];
    run(host, host.alloc(), &steps);
}

#[test]
fn a_dropped_timer_is_still_reported(host: HostRuntime) {
    // Both handles are on the other timer, so there is none on the first.
    let steps = [Arm(First, 10), Share(Other), Time(10), Report(&[1])];
    run(host, host.alloc(), &steps);
}
