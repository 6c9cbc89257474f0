//! Tests as lists of steps: of two timers over a [`Probe`](crate::probe::Probe), by a clock that the test sets.

use crate::clock::{ByFace, Face, expect_count};
use crate::expecting::{expect_ok, expect_same};
use crate::host::Looping;
use crate::probe::{Deed, OverProbe, Rung, open_probe};
use crate::timed::{expect_report, open_timer, ready, watched_timer};
use std::alloc::Global;
use std::process::Abort;
use std::sync::Wait;
use std::sync::atomic::AtomicU64;
use std::time::Duration;
use timerfd::TimerFd;
use vmm_sys::epoll::{AsRawFd, ControlOperation, EpollEvent, EventSet};
use vmm_sys::errno::Errno;
use vmm_sys::poller::Poller;

/// How many entries a wait has room for.
const ROOM: usize = 2;

/// One of the two timers. Their words are 1 and 2; there is an interest in the first from the beginning.
#[derive(Clone, Copy)]
pub enum Which {
    First,
    Other,
}

/// A step, with what must come of it. Times are in nanoseconds, but those of waits.
#[derive(Clone, Copy)]
pub enum Step<'a> {
    /// The clock shows this time from now on.
    Time(u64),
    /// The clock answers an error from now on, with a number or without.
    Damage(bool),
    /// So often the clock was read since the last such step.
    Reads(u64),
    /// So often the timers' counter was rung since the last such step.
    Rings(u64),
    /// A timer is armed once, after this duration.
    Arm(Which, u64),
    /// A timer is armed, after this duration and again after each interval.
    ArmAgain(Which, u64, u64),
    /// A reset of the first timer is answered so.
    Reset(Duration, Option<Duration>, Result<(), Errno>),
    /// A timer is cleared.
    Clear(Which),
    /// What `is_armed` answers.
    Armed(Which, Result<bool, Errno>),
    /// What a take answers.
    Take(Which, Result<u64, Errno>),
    /// The handle on the other timer is dropped: from now on it is a clone of this one.
    Share(Which),
    /// The interest in a timer is changed.
    Change(ControlOperation, Which, EventSet),
    /// A wait of no milliseconds reports these words, each for `IN`.
    Report(&'a [u64]),
    /// A wait of the first number of milliseconds reports nothing, and waits the second number for the poller below.
    Limit(i32, i32),
    /// A wait without a limit, at whose end the clock shows this time, reports these words.
    Sleep(u64, &'a [u64]),
    /// While the next wait lasts a timer is armed once, after this duration.
    ArmBeside(Which, u64),
    /// So that arming was answered.
    Answered(Result<(), Errno>),
    /// The poller below reported this many entries to the last wait.
    Below(usize),
    /// A wait without a limit and with more room fails as the poller below does.
    Fail(Errno),
}

/// A poller and its timers.
#[derive(Drop)]
struct Setup<'a, R> {
    face: &'a Face,
    rings: &'a AtomicU64,
    timed: OverProbe<'a, R>,
    first: TimerFd<Rung<'a>>,
    other: TimerFd<Rung<'a>>,
}

impl<'a, R: Looping> Setup<'a, R> {
    /// The timer.
    fn timer(&self, which: Which) -> &TimerFd<Rung<'a>> {
        match which {
            Which::First => &self.first,
            Which::Other => &self.other,
        }
    }

    /// Makes a step.
    fn make(&mut self, rt: &R, step: Step<'_>) {
        match step {
            Step::Time(time) => self.face.set(time),
            Step::Damage(has_number) => self.face.damage(has_number),
            Step::Reads(count) => expect_count(rt, &self.face.reads, count),
            Step::Rings(count) => expect_count(rt, self.rings, count),
            Step::Arm(which, duration) => self.arm(rt, which, duration, None),
            Step::ArmAgain(which, duration, interval) => {
                self.arm(rt, which, duration, Some(Duration::from_nanos(interval)));
            }
            Step::Reset(duration, interval, answer) => {
                expect_same(rt, &self.first.reset(duration, interval, rt), &answer);
            }
            Step::Clear(which) => expect_same(rt, &self.timer(which).clear(rt), &Ok(())),
            Step::Armed(which, answer) => {
                expect_same(rt, &self.timer(which).is_armed(rt), &answer);
            }
            Step::Take(which, answer) => expect_same(rt, &self.timer(which).wait(rt), &answer),
            Step::Share(which) => self.clone_timer(rt, which),
            Step::Change(op, which, set) => self.change(rt, op, which, set),
            Step::Report(words) => self.report(rt, 0, words),
            Step::Limit(ms, limit) => {
                self.report(rt, ms, &[]);
                expect_same(rt, &self.timed.poller().ms, &limit);
            }
            Step::Sleep(time, words) => {
                self.timed.poller().plan(rt, Deed::Pass(self.face, time));
                self.report(rt, -1, words);
            }
            Step::ArmBeside(which, duration) => self.arm_beside(rt, which, duration),
            Step::Answered(answer) => expect_same(rt, &self.timed.poller().armed, &answer),
            Step::Below(count) => expect_same(rt, &self.timed.poller().count, &count),
            Step::Fail(errno) => self.fail(rt, errno),
        }
    }

    /// A timer is armed.
    fn arm(&self, rt: &R, which: Which, duration: u64, interval: Option<Duration>) {
        let duration = Duration::from_nanos(duration);
        expect_ok(rt, self.timer(which).reset(duration, interval, rt));
    }

    /// Both handles are on this timer from now on.
    fn clone_timer(&mut self, rt: &R, which: Which) {
        let copy = expect_ok(rt, self.timer(which).try_clone());
        match which {
            Which::First => self.other = copy,
            Which::Other => self.first = copy,
        }
    }

    /// The interest in a timer is changed.
    fn change(&mut self, rt: &R, op: ControlOperation, which: Which, set: EventSet) {
        let word = match which {
            Which::First => 1,
            Which::Other => 2,
        };
        let fd = self.timer(which).as_raw_fd();
        expect_ok(rt, self.timed.ctl(op, fd, EpollEvent::new(set, word)));
    }

    /// Expects that a wait of `ms` milliseconds reports these words.
    fn report(&mut self, rt: &R, ms: i32, words: &[u64]) {
        expect_report(rt, &mut self.timed, ms, ROOM, words);
    }

    /// While the next wait lasts a timer is armed.
    fn arm_beside(&self, rt: &R, which: Which, duration: u64) {
        let timer = expect_ok(rt, self.timer(which).try_clone());
        self.timed.poller().plan(rt, Deed::Arm(timer, duration));
    }

    /// Expects that a wait fails so.
    fn fail(&mut self, rt: &R, errno: Errno) {
        self.timed.poller().plan(rt, Deed::Fail(errno));
        let mut buffer = [ready(0); ROOM + 2];
        expect_same(rt, &self.timed.wait(-1, &mut buffer), &Err(errno));
    }
}

/// Makes these steps, beginning at time 0.
pub fn run<R: Wait + Abort + Copy + Send + Drop>(host: R, alloc: Global, steps: &[Step<'_>]) {
    run_with_refusal(host, alloc, None, steps);
}

/// The same, where the timers' counter refuses to be rung by this number, if any.
pub fn run_with_refusal<R: Wait + Abort + Copy + Send + Drop>(
    host: R,
    alloc: Global,
    refusal: Option<Errno>,
    steps: &[Step<'_>],
) {
    let (face, rings) = (Face::new(0), AtomicU64::new(0));
    let rt = ByFace::new(&face, host);
    let mut timed = open_probe(&rt, alloc, &rings, refusal);
    let mut setup = Setup {
        face: &face,
        rings: &rings,
        first: watched_timer(&rt, &mut timed, 1),
        other: open_timer(&rt, &timed),
        timed,
    };
    for step in steps {
        setup.make(&rt, *step);
    }
}
