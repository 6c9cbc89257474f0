//! The turns of timers and of what the poller below reports, where there is little room.

use crate::clock::{ByFace, Face};
use crate::expecting::expect_ok;
use crate::host::Looping;
use crate::timed::{OverTable, expect_report, open, watch, watched_timer};
use std::time::Duration;
use vmm_sys::eventfd::EventFd;

/// Opens timers with the words from 1 up that are due at 1, and a counter of the table below with the next word, which is ready.
fn fill<R: Looping>(rt: &R, timed: &mut OverTable<R>, timers: u64) {
    for index in 0..timers {
        let timer = watched_timer(rt, timed, index.saturating_add(1));
        expect_ok(rt, timer.reset(Duration::from_nanos(1), None, rt));
    }
    let counter = expect_ok(rt, EventFd::new(timed.poller(), 1, rt));
    watch(rt, timed, &counter, timers.saturating_add(1));
}

/// Expects that waits with room for `room` entries report these words in turn, each for `IN`.
fn expect_reports<R: Looping>(rt: &R, timed: &mut OverTable<R>, room: usize, reports: &[&[u64]]) {
    for words in reports {
        expect_report(rt, timed, 0, room, words);
    }
}

#[test]
fn a_timer_and_a_counter_take_turns(host: HostRuntime) {
    let face = Face::new(0);
    let rt = ByFace::new(&face, host);
    let mut timed = open(&rt, host.alloc());
    fill(&rt, &mut timed, 1);
    face.set(1);
    expect_reports(&rt, &mut timed, 1, &[&[1], &[2], &[1], &[2], &[1]]);
}

#[test]
fn timers_have_the_room_that_the_poller_below_leaves(host: HostRuntime) {
    let face = Face::new(0);
    let rt = ByFace::new(&face, host);
    let mut timed = open(&rt, host.alloc());
    fill(&rt, &mut timed, 3);
    face.set(1);
    // What was reported last comes last: behind the second wait that is 1, 2.
    let reports: [&[u64]; 5] = [&[1, 2, 3], &[4, 1, 2], &[3, 1, 2], &[4, 3, 1], &[2, 3, 1]];
    expect_reports(&rt, &mut timed, 3, &reports);
}
