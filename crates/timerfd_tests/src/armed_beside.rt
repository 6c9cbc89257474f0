//! A thread that arms timers, beside one that waits for them: no arming is missed, and none is heard of too early.

use crate::expecting::{expect_ok, expect_same};
use crate::host::{Host, Looping, now};
use crate::timed::{OverTable, open, watched_timer};
use std::alloc::Global;
use std::sync::atomic::{AtomicU64, Ordering};
use std::thread;
use std::time::Duration;
use test_rounds::{Rounds, rest};
use timerfd::TimerFd;
use vmm_sys::epoll::{EpollEvent, EventSet};
use vmm_sys::poller::Poller;

/// How many threads come to a round.
const THREADS: u64 = 2;

/// How many rounds there are. Most take some microseconds.
const ROUNDS: u64 = 4_000;

/// A wait that has lasted for this many nanoseconds was not ended.
const LONG: u64 = 5_000_000_000;

/// The limit of waits that have one, and after how long timers are due that are late, in milliseconds.
const LIMIT: i32 = 60_000;

/// The word of the timer that is waited for.
const WANTED: u64 = 7;

/// The timers that both threads know: the one that is waited for, one that is late, and one that is armed and cleared.
#[derive(Drop)]
struct Three {
    wanted: TimerFd,
    late: TimerFd,
    noise: TimerFd,
    // Before this time the first isn't due, in nanoseconds.
    not_before: AtomicU64,
}

/// Three timers of the poller.
fn open_three<R: Looping>(rt: &R, timed: &mut OverTable<R>) -> Three {
    Three {
        wanted: watched_timer(rt, timed, WANTED),
        late: watched_timer(rt, timed, 8),
        noise: watched_timer(rt, timed, 9),
        not_before: AtomicU64::new(0),
    }
}

/// After how many nanoseconds the timer of this round is due: at once, or a little later.
fn duration_of(round: u64) -> u64 {
    match round % 16 {
        3 => 1_000_000,
        7 => 300_000,
        11 => 50_000,
        _ => 1,
    }
}

/// What is armed when a round begins.
fn prepare<R: Looping>(rt: &R, three: &Three, round: u64) {
    let late = Duration::from_millis(LIMIT as u64);
    expect_ok(rt, three.late.clear(rt));
    match round % 3 {
        0 => {}
        1 => expect_ok(rt, three.late.reset(late, Some(late), rt)),
        _ => expect_ok(rt, three.wanted.reset(late, None, rt)),
    }
}

/// Arms the timer that is waited for.
fn arm_wanted<R: Looping>(rt: &R, three: &Three, round: u64) {
    let duration = duration_of(round);
    let due = now(rt).saturating_add(duration);
    three.not_before.store(due, Ordering::SeqCst);
    expect_ok(
        rt,
        three.wanted.reset(Duration::from_nanos(duration), None, rt),
    );
}

/// Rests, or sleeps, so that the other thread falls asleep too.
fn rest_or_sleep<R: Looping>(rt: &R, round: u64, step: u64) {
    if round.wrapping_add(step.wrapping_mul(5)) % 13 == 0 {
        thread::sleep(rt, Duration::from_micros(100));
    }
    rest(round, step);
}

/// In each round arms the timer that is waited for, and before or behind that arms and clears another one.
fn arm_in_rounds<R: Looping>(rt: &R, rounds: &Rounds, three: &Three) {
    for round in 0..ROUNDS {
        rounds.begin(rt, round, THREADS);
        rest_or_sleep(rt, round, 0);
        if round % 5 == 1 {
            arm_and_clear(rt, three, round);
        }
        arm_wanted(rt, three, round);
        if round % 5 == 3 {
            arm_and_clear(rt, three, round);
        }
    }
}

/// Arms a timer, and clears it.
fn arm_and_clear<R: Looping>(rt: &R, three: &Three, round: u64) {
    let duration = Duration::from_nanos(1 + round % 7 * 20_000);
    expect_ok(rt, three.noise.reset(duration, None, rt));
    rest_or_sleep(rt, round, 1);
    expect_ok(rt, three.noise.clear(rt));
}

/// Whether a wait of at most `ms` milliseconds reports the timer that is waited for.
fn is_reported<R: Looping>(rt: &R, timed: &mut OverTable<R>, ms: i32) -> bool {
    let mut buffer = [EpollEvent::new(EventSet::empty(), 0); 4];
    let count = expect_ok(rt, timed.wait(ms, &mut buffer)).min(4);
    buffer[..count].iter().any(|entry| entry.data() == WANTED)
}

/// Waits until the timer is reported, and takes its one expiration.
fn wait_for_it<R: Looping>(rt: &R, timed: &mut OverTable<R>, three: &Three, ms: i32) {
    let begin = now(rt);
    for _wait in rt.forever() {
        let is_reported = is_reported(rt, timed, ms);
        let time = now(rt);
        assert!(rt; time.saturating_sub(begin) < LONG, "nothing ends the sleep");
        if is_reported {
            assert!(rt;
                time >= three.not_before.load(Ordering::SeqCst),
                "too early"
            );
            break;
        }
    }
    expect_same(rt, &three.wanted.wait(rt), &Ok(1));
}

/// In each round waits for the timer.
fn wait_in_rounds<R: Looping>(rt: &R, rounds: &Rounds, timed: OverTable<R>, three: &Three) {
    let mut timed = timed;
    for round in 0..ROUNDS {
        prepare(rt, three, round);
        rounds.begin(rt, round, THREADS);
        rest_or_sleep(rt, round, 2);
        let ms = if round % 2 == 0 { -1 } else { LIMIT };
        wait_for_it(rt, &mut timed, three, ms);
    }
}

fn make_rounds<R: Host>(rt: &R, alloc: Global) {
    let rounds = Rounds::new();
    let mut timed = open(rt, alloc);
    let three = open_three(rt, &mut timed);
    thread::join(
        rt,
        || expect_same(rt, &rounds.look_on(rt), &true),
        || {
            thread::join(
                rt,
                || wait_in_rounds(rt, &rounds, timed, &three),
                || arm_in_rounds(rt, &rounds, &three),
            );
            rounds.end();
        },
    );
}

#[test]
fn an_arming_by_another_thread_ends_a_sleep_that_would_outlast_it(rt: HostRuntime) {
    make_rounds(&rt, rt.alloc());
}
