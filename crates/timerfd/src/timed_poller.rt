//! A poller with timers beside it.

ghost use Rattle.std.specs.Prelude.{◌≡◌, ◌≤◌, ◌⊎◌, IfOk, length, take};
ghost use Rattle.vmm_sys.specs.Poller.{reported};
ghost use Rattle.timerfd.specs.TimedPoller.{is_refused, others_of, timed_code, with_poller, IsMadeOf, FromBelow, FromTimers, TimersFirst, OthersFirst, MayCtl, MayWait};

use crate::shared::{Begun, Shared, new_timers};
use std::alloc::Global;
use std::marker::Model;
use std::sync::{Arc, Wait};
use std::time::Clock;
use vmm_sys::counter::Counter;
use vmm_sys::epoll::{ControlOperation, EpollEvent, EventSet, RawFd};
use vmm_sys::errno::Errno;
use vmm_sys::eventfd::EventFd;
use vmm_sys::poller::Poller;

/// The word of the event of the timers' own counter.
const ALARM: u64 = u64::MAX;

/// A poller of any type with timers beside it, each a descriptor, a [`TimerFd`](crate::TimerFd): they count down from 2147483647,
/// and the descriptors of the poller below are the others. A wait reads the clock where a timer is armed, else not at all.
/// Timers come first, and the poller below has the room that is left; where timers fill the room, the poller below comes first in
/// the next wait, and they have the room that it leaves:
/// [`timers_and_others_take_turns`](crate::laws::timers_and_others_take_turns). Among ready timers the one that was reported last
/// comes last, as in a [`Table`](vmm_sys::table::Table).
///
/// Where no timer is ready, the poller below is waited for until the first is due, at most. Behind that wait, where nothing else is
/// reported or the poller below came first, the clock is read again, and timers that are due by then are reported. The wait returns
/// 0 sooner where another thread has armed a timer that is due before all others.
pub struct TimedPoller<P, R, C = EventFd> {
    pub(crate) timers: Arc<Shared<C>>,
    poller: P,
    counter: RawFd,
    // Whether the poller below comes first in the next wait.
    others_first: bool,
    rt: R,
}

impl<P: Drop, R: Drop, C: Drop> Drop for TimedPoller<P, R, C> {
    fn drop(self) {
        let TimedPoller {
            timers: _,
            poller: _,
            counter: _,
            others_first: _,
            rt: _,
        } = self;
    }
}

impl<P, R, C> Model for TimedPoller<P, R, C> {
    ghost use Rattle.timerfd.specs.TimedPoller.{Timed};

    ghost Value = { Timed P };

    ghost view = { λ t. record { poller = t.poller; counter = t.counter; others_first = t.others_first } };
}

impl<P: Poller, R: Wait + Clock + Drop, C: Counter + Drop> TimedPoller<P, R, C> {
    /// This poller, without a timer. It watches `counter`, an [`EventFd`] of its table or a counter of your own, which is rung,
    /// cleared and never reported; nobody else adds its descriptor. The clock is that of `rt`. `ENOMEM`: memory was refused. Else
    /// refused as the poller refuses to add the counter. Then poller and counter are dropped.
    pub fn new(poller: P, counter: C, rt: R, alloc: Global) -> Result<Self, Errno>
        ensures { IsMadeOf P.meaning P.may_ctl poller (C.descriptor counter) result }
    {
        let mut poller = poller;
        let timers = new_timers(counter, alloc)?;
        let counter = timers.counter.as_raw_fd();
        let event = EpollEvent::new(EventSet::IN, ALARM);
        poller.ctl(ControlOperation::Add, counter, event)?;
        Ok(TimedPoller {
            timers,
            poller,
            counter,
            others_first: false,
            rt,
        })
    }

    /// The poller below.
    pub fn poller(&self) -> &P
        ensures { result.now ≡ self.now.poller }
    {
        &self.poller
    }

    fn is_refused(&self, op: ControlOperation, fd: RawFd, event: EpollEvent) -> bool
        ensures { result ≡ is_refused self.now.counter op fd event }
    {
        fd == self.counter || (op != ControlOperation::Delete && event.data() == ALARM)
    }

    fn wait_timers_first(&mut self, ms: i32, buffer: &mut [EpollEvent]) -> Result<usize, Errno>
        ensures fits { IfOk result (λ n. n ≤ length buffer.old) }
        ensures waited { let t = with_poller self.old (P.meaning self.old.poller) in let after = timed_code.code (with_poller self.new (P.meaning self.new.poller)) in
            FromTimers t (length buffer.old) result (reported result buffer.new) after ⊎ TimersFirst P.may_wait t ms (length buffer.old) result (reported result buffer.new) after }
    {
        let Begun { front, limit } = self.timers.begin_wait(ms, buffer, &self.rt);
        self.others_first = front == buffer.len();
        if self.others_first {
            return Ok(front);
        }
        let below = self.wait_below(limit, &mut buffer[front..])?;
        if front + below == 0 && limit != 0 {
            return Ok(self.timers.report(true, buffer, &self.rt));
        }
        Ok(front + below)
    }

    fn wait_others_first(&mut self, ms: i32, buffer: &mut [EpollEvent]) -> Result<usize, Errno>
        ensures fits { IfOk result (λ n. n ≤ length buffer.old) }
        ensures waited { let t = with_poller self.old (P.meaning self.old.poller) in let after = timed_code.code (with_poller self.new (P.meaning self.new.poller)) in
            OthersFirst P.may_wait t ms (length buffer.old) result (reported result buffer.new) after }
    {
        let Begun { limit, .. } = self.timers.begin_wait(ms, &mut [], &self.rt);
        self.others_first = false;
        let count = self.wait_below(limit, buffer)?;
        let behind = self
            .timers
            .report(limit != 0, &mut buffer[count..], &self.rt);
        Ok(count + behind)
    }

    // Waits for the poller below, and leaves the entry of the timers' own counter out.
    fn wait_below(&mut self, limit: i32, buffer: &mut [EpollEvent]) -> Result<usize, Errno>
        ensures room { length buffer.new ≡ length buffer.old }
        ensures fits { IfOk result (λ n. n ≤ length buffer.old) }
        ensures below { FromBelow P.may_wait (P.meaning self.old.poller) limit (length buffer.old) result (reported result buffer.new) (P.meaning self.new.poller) }
        ensures others { self.new ≡ with_poller self.old self.new.poller }
    {
        let answer = self.poller.wait(limit, buffer);
        if limit != 0 {
            self.timers.end_sleep(&self.rt);
        }
        let count = answer?;
        let kept = leave_alarm_out(buffer, count);
        if kept < count {
            let _ = self.timers.counter.clear(&self.rt);
        }
        Ok(kept)
    }
}

impl<P: Poller, R: Wait + Clock + Drop, C: Counter + Drop> Poller for TimedPoller<P, R, C> {
    ghost meaning = { λ t. timed_code.code (with_poller t (P.meaning t.poller)) };

    ghost may_ctl = { MayCtl P.may_ctl };

    ghost may_wait = { MayWait P.may_wait };

    /// As [`Table::ctl`](vmm_sys::table::Table::ctl) where `fd` is a timer's, else as the poller below. `EINVAL`, before that: `fd`
    /// is the timers' own counter, or the event to add or modify has the word 18446744073709551615.
    fn ctl(&mut self, op: ControlOperation, fd: RawFd, event: EpollEvent) -> Result<(), Errno> {
        if self.is_refused(op, fd, event) {
            return Err(Errno::EINVAL);
        }
        match self.timers.ctl(op, fd, event, &self.rt) {
            Some(answer) => answer,
            None => self.poller.ctl(op, fd, event),
        }
    }

    /// Reports ready timers and what the poller below reports. `EINVAL`: the buffer is empty. Else an error is that of the poller
    /// below; the next wait then reports ready timers. Where the clock fails no time is told, and the wait may outlast a due time.
    fn wait(&mut self, ms: i32, buffer: &mut [EpollEvent]) -> Result<usize, Errno> {
        if buffer.is_empty() {
            return Err(Errno::EINVAL);
        }
        if self.others_first {
            self.wait_others_first(ms, buffer)
        } else {
            self.wait_timers_first(ms, buffer)
        }
    }
}

fn leave_alarm_out(buffer: &mut [EpollEvent], count: usize) -> usize
    requires { count ≤ length buffer.old }
    ensures room { length buffer.new ≡ length buffer.old }
    ensures count { result ≡ length (others_of (take count buffer.old)) }
    ensures others { take result buffer.new ≡ others_of (take count buffer.old) }
{
    let mut kept = 0;
    for at in 0..count {
        let entry = buffer[at];
        if entry.data() != ALARM {
            buffer[kept] = entry;
            kept += 1;
        }
    }
    kept
}
