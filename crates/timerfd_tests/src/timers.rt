//! Timers without a poller.

use crate::expecting::{expect_ok, expect_same};
use timerfd::Timers;

#[test]
fn timers_are_added_while_there_is_memory(rt: HostRuntime) {
    let mut timers = Timers::new(rt.alloc());
    for index in 0..41 {
        expect_same(&rt, &expect_ok(&rt, timers.add()), &index);
    }
}
