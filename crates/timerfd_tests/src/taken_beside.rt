//! Threads that take expirations of one timer.

use crate::clock::{ByFace, Face};
use crate::expecting::expect_same;
use crate::host::Looping;
use crate::timed::{arm_again, open, open_timer};
use std::sync::atomic::{AtomicBool, Ordering};
use std::thread;
use timerfd::TimerFd;
use vmm_sys::errno::Errno;

/// How often the clock goes on, and by how much.
const STEPS: u64 = 20_000;

const STEP: u64 = 7;

/// When the timer is due, and then after each interval.
const DUE: u64 = 10;

const INTERVAL: u64 = 3;

/// How many expirations are taken by one call; none where there is none.
fn take<R: Looping>(rt: &R, timer: &TimerFd) -> u64 {
    match timer.wait(rt) {
        Ok(count) => count,
        refused => {
            expect_same(rt, &refused, &Err(Errno::EAGAIN));
            0
        }
    }
}

/// Lets the clock go on, and takes at each step: how many were taken.
fn go_on<R: Looping>(rt: &R, face: &Face, timer: &TimerFd, is_over: &AtomicBool) -> u64 {
    let mut taken = 0u64;
    for step in 1..=STEPS {
        face.set(step * STEP);
        taken = taken.saturating_add(take(rt, timer));
    }
    is_over.store(true, Ordering::SeqCst);
    taken
}

/// Takes until the clock stands still: how many were taken.
fn take_beside<R: Looping>(rt: &R, timer: &TimerFd, is_over: &AtomicBool) -> u64 {
    let mut taken = 0u64;
    for _turn in rt.forever() {
        if is_over.load(Ordering::SeqCst) {
            break;
        }
        taken = taken.saturating_add(take(rt, timer));
    }
    taken
}

#[test]
fn each_expiration_is_taken_once(host: HostRuntime) {
    let (face, is_over) = (Face::new(0), AtomicBool::new(false));
    let rt = ByFace::new(&face, host);
    let timed = open(&rt, host.alloc());
    let timer = open_timer(&rt, &timed);
    arm_again(&rt, &timer, DUE, INTERVAL);
    let (one, other) = thread::join(
        &host,
        || go_on(&rt, &face, &timer, &is_over),
        || take_beside(&rt, &timer, &is_over),
    );
    let rest = take(&rt, &timer);
    let all = (STEPS * STEP - DUE) / INTERVAL + 1;
    let taken = one.saturating_add(other).saturating_add(rest);
    expect_same(&rt, &taken, &all);
    expect_same(&rt, &timer.wait(&rt), &Err(Errno::EAGAIN));
}
