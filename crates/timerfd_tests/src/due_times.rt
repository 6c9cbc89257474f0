//! Sleeps that end by the clock, as the runtime's own shows it.

use crate::expecting::{expect_ok, expect_same};
use crate::host::{Looping, now};
use crate::timed::{OverTable, arm_again, open, ready, watched_timer};
use vmm_sys::poller::Poller;

/// How many milliseconds a wait may last.
const LIMIT: i32 = 5_000;

/// A wait that has lasted for this many nanoseconds was not ended.
const LONG: u64 = 2_500_000_000;

/// Waits until the timer is reported: neither before this time nor much later.
fn wait_for_it<R: Looping>(rt: &R, timed: &mut OverTable<R>, due: u64) {
    for _wait in rt.forever() {
        let mut buffer = [ready(0)];
        let count = expect_ok(rt, timed.wait(LIMIT, &mut buffer));
        let time = now(rt);
        assert!(rt; time < due.saturating_add(LONG), "a sleep lasts too long");
        if count > 0 {
            expect_same(rt, &buffer, &[ready(7)]);
            assert!(rt; time >= due, "a timer is reported too early");
            break;
        }
    }
}

#[test]
fn a_sleep_ends_once_a_timer_is_due(rt: HostRuntime) {
    let mut timed = open(&rt, rt.alloc());
    let timer = watched_timer(&rt, &mut timed, 7);
    let interval = 1_500_000;
    for duration in [1, 30_000, 999_999, 1_000_000, 1_000_001, 7_300_000] {
        let mut due = now(&rt).saturating_add(duration);
        arm_again(&rt, &timer, duration, interval);
        for _expiration in 0..5 {
            wait_for_it(&rt, &mut timed, due);
            let count = expect_ok(&rt, timer.wait(&rt));
            due = due.saturating_add(count.saturating_mul(interval));
        }
    }
}
