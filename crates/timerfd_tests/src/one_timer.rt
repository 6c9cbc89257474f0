//! One timer as a descriptor, by a clock that the test sets.

use crate::expecting::{expect_ok, expect_same};
use crate::steps::Step::{Arm, ArmAgain, Armed, Clear, Reads, Reset, Share, Take, Time};
use crate::steps::Which::{First, Other};
use crate::steps::run;
use crate::timed::{open, open_timer};
use std::time::Duration;
use vmm_sys::epoll::AsRawFd;
use vmm_sys::errno::Errno;

/// What a take answers where there is nothing to take.
const NONE: Result<u64, Errno> = Err(Errno::EAGAIN);

#[test]
fn one_shot(host: HostRuntime) {
    let duration = Duration::from_millis(200);
    for interval in [None, Some(Duration::ZERO)] {
        let steps = [
            Armed(First, Ok(false)),
            Take(First, NONE),
            Time(1_000),
            Reset(duration, interval, Ok(())),
            Time(200_000_999),
            Take(First, NONE),
            Armed(First, Ok(true)),
            Time(200_001_000),
            Take(First, Ok(1)),
            Take(First, NONE),
            Armed(First, Ok(false)),
        ];
        run(host, host.alloc(), &steps);
    }
}

#[test]
fn interval(host: HostRuntime) {
    // Due at 10, 14, 18 and so on.
    let steps = [
        ArmAgain(First, 10, 4),
        Time(9),
        Take(First, NONE),
        Time(10),
        Take(First, Ok(1)),
        Time(13),
        Take(First, NONE),
        Time(18),
        Take(First, Ok(2)),
        Take(First, NONE),
        Time(4010),
        Take(First, Ok(998)),
        Armed(First, Ok(true)),
    ];
    run(host, host.alloc(), &steps);
}

#[test]
fn a_timer_is_due_from_when_it_is_armed(host: HostRuntime) {
    let steps = [
        Arm(First, 7),
        Time(3),
        Arm(Other, 7),
        Time(9),
        Take(First, Ok(1)),
        Take(Other, NONE),
        Time(10),
        Take(First, NONE),
        Take(Other, Ok(1)),
    ];
    run(host, host.alloc(), &steps);
}

#[test]
fn expirations_add_up_until_they_are_taken(host: HostRuntime) {
    // By then it has expired once, three times and four times.
    let steps = [
        ArmAgain(First, 10, 4),
        Time(10),
        Armed(First, Ok(true)),
        Time(21),
        Armed(First, Ok(true)),
        Time(22),
        Armed(First, Ok(true)),
        Take(First, Ok(4)),
    ];
    run(host, host.alloc(), &steps);
}

#[test]
fn expirations_are_dropped_where_a_timer_is_armed_or_cleared(host: HostRuntime) {
    let steps = [
        ArmAgain(First, 10, 4),
        Time(21),
        Armed(First, Ok(true)),
        Arm(First, 5),
        Take(First, NONE),
        Time(26),
        // The new duration has no interval.
        Armed(First, Ok(false)),
        Clear(First),
        Take(First, NONE),
    ];
    run(host, host.alloc(), &steps);
}

#[test]
fn a_duration_of_zero_disarms_whatever_the_interval(host: HostRuntime) {
    for interval in [None, Some(Duration::ZERO), Some(Duration::from_nanos(3))] {
        let steps = [
            ArmAgain(First, 5, 5),
            Reset(Duration::ZERO, interval, Ok(())),
            Armed(First, Ok(false)),
            Time(100),
            Take(First, NONE),
        ];
        run(host, host.alloc(), &steps);
    }
}

#[test]
fn a_time_past_the_end_of_the_clock_counts_as_its_end(host: HostRuntime) {
    let steps = [
        Time(1_000),
        Reset(Duration::MAX, None, Ok(())),
        Time(u64::MAX - 1),
        Take(First, NONE),
        Time(u64::MAX),
        Take(First, Ok(1)),
    ];
    run(host, host.alloc(), &steps);
}

#[test]
fn a_clone_is_the_same_timer(host: HostRuntime) {
    let steps = [
        Arm(First, 5),
        Armed(Other, Ok(false)),
        Share(First),
        Armed(Other, Ok(true)),
        Time(5),
        Take(Other, Ok(1)),
        Take(First, NONE),
        Arm(Other, 5),
        Clear(First),
        Armed(Other, Ok(false)),
    ];
    run(host, host.alloc(), &steps);
}

#[test]
fn a_call_reads_the_clock_once_or_not_at_all(host: HostRuntime) {
    let steps = [
        Reads(0),
        ArmAgain(First, 5, 5),
        Reads(1),
        Time(5),
        Armed(First, Ok(true)),
        Reads(1),
        // What was told before is taken without a look.
        Take(First, Ok(1)),
        Reads(0),
        Take(First, NONE),
        Reads(1),
        Clear(First),
        Reset(Duration::ZERO, None, Ok(())),
        Reads(0),
    ];
    run(host, host.alloc(), &steps);
}

#[test]
fn the_numbers_of_timers_count_down_from_the_highest(rt: HostRuntime) {
    let timed = open(&rt, rt.alloc());
    for number in [2_147_483_647, 2_147_483_646] {
        let found = open_timer(&rt, &timed).as_raw_fd();
        expect_same(&rt, &found, &number);
    }
}

#[test]
fn a_timer_opens_another_beside_itself(host: HostRuntime) {
    let timed = open(&host, host.alloc());
    let timer = open_timer(&host, &timed);
    let other = expect_ok(&host, timer.open_another(&host));
    expect_same(&host, &other.as_raw_fd(), &2147483646);
    expect_ok(&host, other.reset(Duration::from_secs(3600), None, &host));
    expect_same(&host, &timer.is_armed(&host), &Ok(false));
    expect_same(&host, &other.is_armed(&host), &Ok(true));
}
