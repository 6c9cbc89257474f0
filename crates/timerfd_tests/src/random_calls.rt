//! Calls at random, beside what the rules say of each timer.

use crate::clock::{ByFace, Face};
use crate::expecting::{expect_ok, expect_same, put};
use crate::host::Looping;
use crate::known::{KnownTimers, TIMERS};
use crate::timed::{OverTable, open, open_timer, ready};
use rand_core::Rng;
use rand_pcg::Pcg32;
use std::alloc::Global;
use std::time::Duration;
use timerfd::TimerFd;
use vmm_sys::epoll::{AsRawFd, ControlOperation};
use vmm_sys::errno::Errno;
use vmm_sys::poller::Poller;

/// How many runs there are, each with a seed of its own, and how many calls each makes.
const RUNS: u64 = 40;

const CALLS: u32 = 1_000;

/// A poller and its timers, and what is known of them.
#[derive(Drop)]
struct Run<'a, R> {
    face: &'a Face,
    timed: OverTable<R>,
    timers: Vec<TimerFd>,
    known: KnownTimers,
    random: Pcg32,
}

impl<R: Looping> Run<'_, R> {
    /// A number below the limit, which isn't 0.
    fn below(&mut self, limit: u32) -> u64 {
        u64::from(self.random.next_u32().checked_rem(limit).unwrap_or(0))
    }

    /// The clock goes on: mostly by a little, and at times by a lot.
    fn go_on(&mut self) {
        let most = if self.below(20) == 0 { 1_000 } else { 7 };
        self.known.clock = self.known.clock.saturating_add(self.below(most));
        self.face.set(self.known.clock);
    }

    /// A call of one of the timers.
    fn call(&mut self, rt: &R) {
        let at = self.below(TIMERS as u32) as usize;
        let (call, duration, interval) = (self.below(8), self.below(12), self.below(4));
        let Some(timer) = self.timers.get(at) else {
            return;
        };
        match call {
            0 => {
                expect_ok(rt, timer.clear(rt));
                self.known.arm(at, 0, 0);
            }
            1..=3 => {
                let wanted = Some(Duration::from_nanos(interval));
                expect_ok(rt, timer.reset(Duration::from_nanos(duration), wanted, rt));
                self.known.arm(at, duration, interval);
            }
            4 => expect_same(rt, &timer.is_armed(rt), &Ok(self.known.is_armed(at))),
            _ => {
                let taken = self.known.take(at).ok_or(Errno::EAGAIN);
                expect_same(rt, &timer.wait(rt), &taken);
            }
        }
    }

    /// A change of the interest in a timer.
    fn change(&mut self, rt: &R) {
        let at = self.below(TIMERS as u32) as usize;
        let op = match self.below(5) {
            0 => ControlOperation::Delete,
            1 => ControlOperation::Modify,
            _ => ControlOperation::Add,
        };
        let (Some(timer), Some(known)) = (self.timers.get(at), self.known.timers.get_mut(at)) else {
            return;
        };
        let answer = match (op, known.is_watched) {
            (ControlOperation::Add, true) => Err(Errno::EEXIST),
            (ControlOperation::Add, false) | (_, true) => Ok(()),
            (_, false) => Err(Errno::ENOENT),
        };
        if answer.is_ok() {
            known.is_watched = op != ControlOperation::Delete;
        }
        let fd = timer.as_raw_fd();
        expect_same(rt, &self.timed.ctl(op, fd, ready(at as u64)), &answer);
    }

    /// Waits with some room, and expects a report of what is known to be ready: as much as has room, and nothing twice.
    fn wait(&mut self, rt: &R, room: usize) {
        let mut buffer = [ready(0); TIMERS];
        let room = room.min(buffer.len());
        let count = expect_ok(rt, self.timed.wait(0, &mut buffer[..room])).min(room);
        self.known.begin_wait();
        let (mut all, mut found) = (0usize, 0usize);
        for (word, timer) in (0u64..).zip(&self.known.timers) {
            let times = buffer[..count]
                .iter()
                .filter(|it| **it == ready(word))
                .count();
            assert!(rt; times <= usize::from(timer.is_ready()));
            all = all.saturating_add(usize::from(timer.is_ready()));
            found = found.saturating_add(times);
        }
        expect_same(rt, &(count, found), &(all.min(room), count));
    }

    fn make_call(&mut self, rt: &R) {
        match self.below(10) {
            0 | 1 => self.go_on(),
            2 => self.change(rt),
            3..=6 => self.call(rt),
            7 => {
                let room = (self.below(5) as usize).saturating_add(1);
                self.wait(rt, room);
            }
            _ => self.wait(rt, usize::MAX),
        }
    }
}

/// A poller with its timers.
fn begin<'a, R: Looping>(rt: &R, alloc: Global, face: &'a Face, seed: u64) -> Run<'a, R> {
    let timed = open(rt, alloc);
    let mut timers = Vec::new(alloc);
    for _timer in 0..TIMERS {
        put(rt, &mut timers, open_timer(rt, &timed));
    }
    Run {
        face,
        timed,
        timers,
        known: KnownTimers::NEW,
        random: Pcg32::new(seed, seed),
    }
}

#[test]
fn calls_at_random_answer_what_the_rules_say(host: HostRuntime) {
    for seed in 0..RUNS {
        let face = Face::new(0);
        let rt = ByFace::new(&face, host);
        let mut run = begin(&rt, host.alloc(), &face, seed);
        for _call in 0..CALLS {
            run.make_call(&rt);
        }
    }
}
