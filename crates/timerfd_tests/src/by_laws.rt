//! What laws say of a program's own timers.

ghost use Rattle.std.specs.Prelude.{◌≡◌, ◌<◌, ◌≤◌, ◌+◌, ◌-◌, ◌*◌, ◌^◌, ◌↔◌, ℕ, length, max, false, IfOk, MatchBool};
ghost use Rattle.std.specs.List.{Contains, fold};
ghost use Rattle.timerfd.specs.Dues.{is_due, dues};
ghost use Rattle.timerfd.specs.Timers.{timer_at, told};
ghost use Rattle.timerfd.specs.Turns.{AsksBelow, LetsTimersComeFirst};
ghost use Rattle.timerfd_tests.specs.Waits.{OneIs};

use std::alloc::{AllocError, Global};
use std::sync::Wait;
use std::time::Clock;
use timerfd::laws::{
    an_interval_is_counted_from_the_due_time, each_time_up_to_now_counts,
    each_timer_expires_in_time, nothing_happens_before_the_next_due_time,
    only_the_latest_time_counts, timers_and_others_take_turns, without_an_interval_it_expires_once,
};
use timerfd::{TimedPoller, Timers};
use vmm_sys::counter::Counter;
use vmm_sys::epoll::EpollEvent;
use vmm_sys::errno::Errno;
use vmm_sys::poller::Poller;

/// Tells these times in turn: the timers are then as if the latest of them alone had been told.
pub fn tell_all(timers: &mut Timers, first: u64, more: &[u64])
    ensures { timers.new ≡ told (fold (λ latest time. max latest time) first more.now) timers.old }
{
    only_the_latest_time_counts();
    timers.set_time(first);
    for time in more {
        timers.set_time(*time);
    }
}

/// Tells the time. A timer that isn't due up to it is as it was, and none is due up to it any more.
pub fn tell(timers: &mut Timers, now: u64)
    ensures early { (index : ℕ) → is_due now (timer_at timers.old.timers index).due ≡ false → timer_at timers.new.timers index ≡ timer_at timers.old.timers index }
    ensures late { timers.old.time ≤ now → (index : ℕ) → is_due now (timer_at timers.new.timers index).due ≡ false }
{
    each_timer_expires_in_time();
    timers.set_time(now);
}

/// Tells the time, unless a timer is due up to it; the answer is whether none is. Then each timer is as it was.
pub fn tell_early(timers: &mut Timers, now: u64) -> bool
    ensures { MatchBool result (timers.new ≡ record timers.old { time = max now timers.old.time })
        ((timers.new ≡ timers.old) × ((due : ℕ) × Contains (dues timers.old.timers) (Some due) × (due ≤ now))) }
{
    nothing_happens_before_the_next_due_time();
    if let Some(due) = timers.next_due() {
        if due <= now {
            return false;
        }
    }
    timers.set_time(now);
    true
}

/// Arms a new timer, tells the time, and takes its expirations: how many there are, and when it is due next. With an interval they
/// are its times up to now, and it is due next at the first of them above now; without one it expires once.
pub fn count_ticks(
    alloc: Global,
    due: u64,
    interval: u64,
    now: u64,
) -> Result<(u64, Option<u64>), AllocError>
    ensures counted { 0 < interval → IfOk result (λ ticks. ticks.0 < 2 ^ 64 - 1 → (k : ℕ) → (k < ticks.0) ↔ (due + k * interval ≤ now)) }
    ensures next { 0 < interval → due ≤ now → IfOk result (λ ticks. (next : ℕ) → ticks.1 ≡ Some next → (now < next) × (next ≤ now + interval) × ((k : ℕ) × (next ≡ due + k * interval))) }
    ensures once { interval ≡ 0 → due ≤ now → IfOk result (λ ticks. ticks ≡ (1, None)) }
{
    each_time_up_to_now_counts();
    an_interval_is_counted_from_the_due_time();
    without_an_interval_it_expires_once();
    let mut timers = Timers::new(alloc);
    let timer = timers.add()?;
    timers.arm(timer, due, interval);
    timers.set_time(now);
    let next = timers.timer(timer).due;
    Ok((timers.take_expirations(timer).unwrap_or(0), next))
}

/// Waits twice, for 0 milliseconds. One of the waits asks the poller below, and in one what timers report comes first.
pub fn wait_twice<P: Poller, R: Wait + Clock + Drop, C: Counter + Drop>(
    timed: &mut TimedPoller<P, R, C>,
    first: &mut [EpollEvent],
    second: &mut [EpollEvent],
) -> (Result<usize, Errno>, Result<usize, Errno>)
    requires first_room { 0 < length first.old }
    requires second_room { 0 < length second.old }
    ensures others { let meaning = ⟦<TimedPoller<P, R, C> as Poller>⟧.meaning in OneIs (AsksBelow P.may_wait) (meaning timed.old) first.new result.0 second.new result.1 (meaning timed.new) }
    ensures timers { let meaning = ⟦<TimedPoller<P, R, C> as Poller>⟧.meaning in OneIs (LetsTimersComeFirst P.may_wait) (meaning timed.old) first.new result.0 second.new result.1 (meaning timed.new) }
{
    timers_and_others_take_turns::<P>();
    let answer = timed.wait(0, first);
    let next_answer = timed.wait(0, second);
    (answer, next_answer)
}
