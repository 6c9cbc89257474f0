//! What ends a sleep, by the calls that a poller makes while it waits: so nothing depends on the turns of threads.

use crate::steps::Step::{
    Answered, Arm, ArmBeside, Armed, Below, Change, Fail, Limit, Reads, Report, Rings, Sleep, Take,
    Time,
};
use crate::steps::Which::{First, Other};
use crate::steps::{run, run_with_refusal};
use vmm_sys::epoll::{ControlOperation, EventSet};
use vmm_sys::errno::Errno;

/// A millisecond.
const MS: u64 = 1_000_000;

#[test]
fn a_timer_that_is_due_when_a_sleep_ends_is_reported_by_it(host: HostRuntime) {
    // Where it isn't due yet, nothing is; the clock is read before and behind the sleep.
    let steps = [
        Arm(First, 10 * MS),
        Reads(1),
        Sleep(10 * MS - 1, &[]),
        Reads(2),
        Sleep(10 * MS, &[1]),
        Reads(2),
        Take(First, Ok(1)),
    ];
    run(host, host.alloc(), &steps);
}

#[test]
fn an_arming_that_is_due_first_ends_a_sleep(host: HostRuntime) {
    // Without an armed timer, beside a later one, and as its own earlier time. What ends a sleep is seen by no other wait.
    let steps = [
        ArmBeside(First, 50 * MS),
        Limit(-1, -1),
        Below(1),
        Rings(1),
        Report(&[]),
        Below(0),
        Arm(Other, 90 * MS),
        ArmBeside(First, 10 * MS),
        Limit(-1, 50),
        Below(1),
        Rings(1),
        ArmBeside(First, 5 * MS),
        Limit(60_000, 10),
        Below(1),
        Rings(1),
        Time(5 * MS),
        Report(&[1]),
        Answered(Ok(())),
    ];
    run(host, host.alloc(), &steps);
}

#[test]
fn an_arming_that_is_due_later_ends_no_sleep(host: HostRuntime) {
    let steps = [
        Arm(First, 10 * MS),
        ArmBeside(Other, 10 * MS + 1),
        Limit(-1, 10),
        ArmBeside(Other, 50 * MS),
        Limit(60_000, 10),
        ArmBeside(First, 20 * MS),
        Limit(-1, 10),
        Below(0),
        Rings(0),
    ];
    run(host, host.alloc(), &steps);
}

#[test]
fn without_a_sleep_no_arming_rings(host: HostRuntime) {
    let steps = [
        Arm(First, 50 * MS),
        ArmBeside(First, 40 * MS),
        Limit(0, 0),
        Rings(0),
        // A sleep that has ended, by itself, by an error, or by an arming, is over.
        Limit(-1, 40),
        Arm(First, 30 * MS),
        Fail(Errno::EINTR),
        Arm(First, 20 * MS),
        Rings(0),
        ArmBeside(First, 10 * MS),
        Limit(-1, 20),
        Rings(1),
        Arm(First, 5 * MS),
        Rings(0),
    ];
    run(host, host.alloc(), &steps);
}

#[test]
fn where_a_timer_is_ready_no_arming_rings(host: HostRuntime) {
    let steps = [
        Arm(First, MS),
        Time(MS),
        ArmBeside(Other, MS),
        Report(&[1]),
        Arm(Other, 1),
        Rings(0),
    ];
    run(host, host.alloc(), &steps);
}

#[test]
fn a_counter_that_refuses_a_ring_is_heard_of_unless_it_is_full(host: HostRuntime) {
    let rows = [(Errno::EAGAIN, Ok(())), (Errno::EBADF, Err(Errno::EBADF))];
    for (refusal, answer) in rows {
        let steps = [
            ArmBeside(First, MS),
            Limit(-1, -1),
            Answered(answer),
            Rings(1),
            Armed(First, Ok(true)),
        ];
        run_with_refusal(host, host.alloc(), Some(refusal), &steps);
    }
}

#[test]
fn an_error_of_the_poller_below_loses_no_timer(host: HostRuntime) {
    // Two timers fill the room of a report; then the poller below comes first, and fails.
    let steps = [
        Change(ControlOperation::Add, Other, EventSet::IN),
        Arm(First, MS),
        Arm(Other, MS),
        Time(MS),
        Fail(Errno::EINTR),
        Report(&[1, 2]),
        Fail(Errno::EINTR),
        Report(&[1, 2]),
    ];
    run(host, host.alloc(), &steps);
}
