//! Timers that a poller and descriptors share: each call is one step under their lock, and no code of a caller runs under it.

ghost use Rattle.std.specs.Prelude.{◌≡◌, IfOk, IfErr, IfSome, length, is_some};
ghost use Rattle.std.specs.Arc.{arc_value};
ghost use Rattle.vmm_sys.specs.Table.{wait_of, filled};
ghost use Rattle.timerfd.specs.Limits.{ms_until, lesser, IsLimit};
ghost use Rattle.timerfd.specs.TimerTable.{table_of, reported_by, AreReached};
ghost use Rattle.timerfd.specs.TimedPoller.{timer_of, told_of, report_of, Reports, Begins, ChangesTimer, AnswersOfTimer};

use crate::clock;
use crate::timer_table::TimerTable;
use std::alloc::Global;
use std::sync::{Arc, Mutex, Wait};
use std::time::Clock;
use vmm_sys::counter::Counter;
use vmm_sys::epoll::{ControlOperation, EpollEvent, RawFd};
use vmm_sys::errno::Errno;

/// The timers, and whether a wait sleeps that a timer due before all others must end.
#[derive(Drop)]
pub(crate) struct State {
    pub(crate) timers: TimerTable,
    asleep: bool,
}

/// How a wait begins: the number of timers' entries in front of the buffer, and the limit of the wait below, in milliseconds.
#[derive(Clone, Copy)]
pub(crate) struct Begun {
    pub(crate) front: usize,
    pub(crate) limit: i32,
}

impl State {
    fn begin_wait(&mut self, now: Option<u64>, ms: i32, buffer: &mut [EpollEvent]) -> Begun
        ensures limit { IsLimit (told_of now self.old.timers) (is_some now) ms result.limit }
        ensures front { result.front ≡ length (report_of (told_of now self.old.timers) (length buffer.old)) }
        ensures entries { buffer.new ≡ filled (wait_of (table_of (told_of now self.old.timers)) (length buffer.old)) buffer.old }
        ensures moved { self.new.timers ≡ reported_by (told_of now self.old.timers) (length buffer.old) }
        ensures reached { AreReached (told_of now self.old.timers) }
    {
        self.tell(now);
        let limit = self.limit(now.is_some(), ms);
        self.asleep = limit != 0;
        let front = self.timers.report(buffer);
        Begun { front, limit }
    }

    fn report(&mut self, now: Option<u64>, buffer: &mut [EpollEvent]) -> usize
        ensures { Reports buffer.old result buffer.new }
    {
        self.tell(now);
        self.timers.report(buffer)
    }

    fn tell(&mut self, now: Option<u64>)
        ensures { self.new.timers ≡ told_of now self.old.timers }
    {
        if let Some(now) = now {
            self.timers.set_time(now);
        }
    }

    fn limit(&self, is_known: bool, ms: i32) -> i32
        ensures { IsLimit self.now.timers is_known ms result }
    {
        let first = self.timers.next_due();
        if self.timers.has_ready() {
            return 0;
        }
        match first {
            Some(due) if is_known => lesser(ms, ms_until(self.timers.time(), due)),
            _ => ms,
        }
    }

    fn ctl(
        &mut self,
        op: ControlOperation,
        fd: RawFd,
        event: EpollEvent,
    ) -> Option<Result<(), Errno>>
        ensures changed { ChangesTimer op fd event self.old.timers result self.new.timers }
        ensures reached { IfSome result (λ _. AreReached self.old.timers) }
    {
        let index = timer_of(fd, self.timers.len())?;
        Some(self.timers.ctl(op, index, event))
    }

    // Arms the timer; returns whether a wait sleeps that would outlast its due time.
    fn arm(&mut self, index: usize, due: u64, interval: u64) -> bool {
        let is_first = self.timers.next_due().is_none_or(|first| due < first);
        let ends_a_sleep = self.asleep && is_first;
        self.asleep = self.asleep && !is_first;
        self.timers.arm(index, due, interval);
        ends_a_sleep
    }
}

fn ms_until(now: u64, due: u64) -> u64
    ensures { result ≡ ms_until now due }
{
    due.saturating_sub(now).div_ceil(1_000_000)
}

fn lesser(ms: i32, left: u64) -> i32
    ensures { result ≡ lesser ms left }
{
    let left = i32::try_from(left).unwrap_or(i32::MAX);
    if ms < 0 { left } else { ms.min(left) }
}

fn timer_of(fd: RawFd, count: usize) -> Option<usize>
    ensures { result ≡ timer_of fd count }
{
    if fd < 0 {
        return None;
    }
    let index = (RawFd::MAX - fd) as usize;
    if index < count { Some(index) } else { None }
}

/// Timers under a lock, and the counter that ends a sleep.
pub(crate) struct Shared<C> {
    pub(crate) state: Mutex<State>,
    pub(crate) counter: C,
    pub(crate) alloc: Global,
}

// Not derived: an owner's proof then has one call, instead of a drop of each field.
impl<C: Drop> Drop for Shared<C> {
    fn drop(self) {
        let Shared {
            state: _,
            counter: _,
            alloc: _,
        } = self;
    }
}

/// No timers, with this counter. `ENOMEM`: memory was refused; the counter is dropped.
pub(crate) fn new_timers<C: Drop>(counter: C, alloc: Global) -> Result<Arc<Shared<C>>, Errno>
    ensures counter { IfOk result (λ timers. (arc_value timers).counter ≡ counter) }
    ensures errors { IfErr result (λ e. e ≡ Errno.ENOMEM) }
{
    let state = State {
        timers: TimerTable::new(alloc),
        asleep: false,
    };
    let shared = Shared {
        state: Mutex::new(state),
        counter,
        alloc,
    };
    Arc::new(alloc, shared).map_err(|_| Errno::ENOMEM)
}

impl<C> Shared<C> {
    /// Begins a wait. The clock is read only where a timer is armed; where it returns an error, no time is told.
    pub(crate) fn begin_wait<R: Wait + Clock>(
        &self,
        ms: i32,
        buffer: &mut [EpollEvent],
        rt: &R,
    ) -> Begun
        ensures { Begins ms buffer.old result.front result.limit buffer.new }
    {
        let mut state = self.state.lock(rt);
        if state.timers.next_due().is_none() {
            // Under the same lock: an arming between this look and the sleep would find nobody asleep.
            return state.begin_wait(None, ms, buffer);
        }
        drop(state);
        let now = clock::now(rt).ok();
        self.state.lock(rt).begin_wait(now, ms, buffer)
    }

    pub(crate) fn end_sleep<R: Wait>(&self, rt: &R) {
        self.state.lock(rt).asleep = false;
    }

    /// Reports timers behind the poller below; where that has slept, those that are due by now too.
    pub(crate) fn report<R: Wait + Clock>(
        &self,
        has_slept: bool,
        buffer: &mut [EpollEvent],
        rt: &R,
    ) -> usize
        ensures { Reports buffer.old result buffer.new }
    {
        let is_armed = has_slept && self.state.lock(rt).timers.next_due().is_some();
        let now = if is_armed { clock::now(rt).ok() } else { None };
        self.state.lock(rt).report(now, buffer)
    }

    pub(crate) fn ctl<R: Wait>(
        &self,
        op: ControlOperation,
        fd: RawFd,
        event: EpollEvent,
        rt: &R,
    ) -> Option<Result<(), Errno>>
        ensures { AnswersOfTimer op fd event result }
    {
        self.state.lock(rt).ctl(op, fd, event)
    }
}

impl<C: Counter> Shared<C> {
    /// Arms the timer, and ends a sleep that would outlast its due time.
    pub(crate) fn arm<R: Wait + Clock>(
        &self,
        index: usize,
        due: u64,
        interval: u64,
        rt: &R,
    ) -> Result<(), Errno> {
        let ends_a_sleep = self.state.lock(rt).arm(index, due, interval);
        if !ends_a_sleep {
            return Ok(());
        }
        match self.counter.ring(rt) {
            // It is full, so the sleep ends all the same.
            Err(Errno::EAGAIN) => Ok(()),
            answer => answer,
        }
    }
}
