//! Timers by index.

ghost use Rattle.std.specs.Prelude.{◌≡◌, ◌<◌, ◌==◌, [], ◌∷◌, ◌++◌, ◌-◌, length, take, is_ok, is_some, map, IfOk, MatchOption, if◌then◌else◌};
ghost use Rattle.timerfd.specs.Timer.{disarmed, closed, armed, stopped, expired};
ghost use Rattle.timerfd.specs.Dues.{IsFirstOf, dues};
ghost use Rattle.timerfd.specs.Timers.{timer_at, with_timer, told, NoneIsDue, HasExpired};

use crate::due_tree::DueTree;
use crate::timer::Timer;
use std::alloc::{AllocError, Global};
use std::marker::Model;

/// Timers, each named by its index, and the time that they were told last. Times are in nanoseconds. The due times are in a tree,
/// whose room is made by [`Timers::add`]: nothing else takes memory.
#[derive(Drop)]
pub struct Timers {
    timers: Vec<Timer>,
    dues: DueTree,
    time: u64,
}

impl Model for Timers {
    ghost use Rattle.std.specs.Prelude.{◌≡◌, ◌≤◌, ℕ, None, length, slice_index_or};
    ghost use Rattle.timerfd.specs.Timers.{TimersAt, timer_at};

    ghost Value = { TimersAt };

    ghost view = { λ t. record { time = t.time; timers = t.timers.items } };

    ghost invariant = { λ t. (length t.timers.items ≤ length t.dues) × ((index : ℕ) → slice_index_or t.dues index None ≡ (timer_at t.timers.items index).due) };
}

impl Timers {
    /// No timers yet, at time 0.
    pub fn new(alloc: Global) -> Self
        ensures { result ≡ record { time = 0; timers = [] } }
    {
        Timers {
            timers: Vec::new(alloc),
            dues: DueTree::new(alloc),
            time: 0,
        }
    }

    /// Adds a disarmed timer and returns its index: the number of timers before. Refused where memory is; then nothing changes.
    pub fn add(&mut self) -> Result<usize, AllocError>
        ensures index { IfOk result (λ index. index ≡ length self.old.timers) }
        ensures timers { self.new ≡ if is_ok result then record self.old { timers = self.old.timers ++ disarmed ∷ [] } else self.old }
    {
        let index = self.timers.len();
        if index == self.dues.len() {
            self.dues.grow()?;
        }
        self.timers.push(Timer::DISARMED)?;
        Ok(index)
    }

    /// Removes the last timer; where there is none, nothing changes.
    pub fn remove_last(&mut self)
        ensures { self.new ≡ record self.old { timers = take (length self.old.timers - 1) self.old.timers } }
    {
        if let Some(last) = self.timers.len().checked_sub(1) {
            self.dues.set(last, None);
            self.timers.truncate(last);
        }
    }

    /// The number of timers, closed ones included.
    pub fn len(&self) -> usize
        ensures { result ≡ length self.now.timers }
    {
        self.timers.len()
    }

    /// The time that was told last; 0 where none was.
    pub fn time(&self) -> u64
        ensures { result ≡ self.now.time }
    {
        self.time
    }

    /// The timer of this index; a disarmed one where there is none.
    pub fn timer(&self, index: usize) -> Timer
        ensures { result ≡ timer_at self.now.timers index }
    {
        if index < self.timers.len() {
            self.timers[index]
        } else {
            Timer::DISARMED
        }
    }

    /// Whether the timer is due at some time; false where there is no such timer.
    pub fn is_armed(&self, index: usize) -> bool
        ensures { result ≡ is_some (timer_at self.now.timers index).due }
    {
        self.timer(index).due.is_some()
    }

    /// Arms the timer, in time logarithmic in their number: due at `due`, and then after each interval, or once where that is 0. If
    /// `due` is past, it expires once a time is told. Its expirations are dropped. A timer that isn't open stays as it is.
    pub fn arm(&mut self, index: usize, due: u64, interval: u64)
        ensures { self.new ≡ with_timer self.old index (armed due interval (timer_at self.old.timers index)) }
    {
        let timer = self.timer(index).armed(due, interval);
        self.replace(index, timer);
    }

    /// Disarms the timer, in logarithmic time. Its expirations are dropped. Nothing changes where no timer of this index is open.
    pub fn disarm(&mut self, index: usize)
        ensures { self.new ≡ with_timer self.old index (stopped (timer_at self.old.timers index)) }
    {
        let timer = self.timer(index).stopped();
        self.replace(index, timer);
    }

    /// Opens the timer of this index, disarmed; where there is none, nothing changes.
    pub fn open(&mut self, index: usize)
        ensures { self.new ≡ with_timer self.old index disarmed }
    {
        self.replace(index, Timer::DISARMED);
    }

    /// Closes the timer of this index; where there is none, nothing changes.
    pub fn close(&mut self, index: usize)
        ensures { self.new ≡ with_timer self.old index closed }
    {
        self.replace(index, Timer::CLOSED);
    }

    /// Takes the number of expirations since they were last taken, or it was armed or disarmed; `None` where it hasn't expired, or
    /// there is no such timer. It stays armed, or disarmed. 18446744073709551615 stands for more, too.
    pub fn take_expirations(&mut self, index: usize) -> Option<u64>
        ensures expirations { let t = timer_at self.old.timers index in result ≡ if t.expirations == 0 then None else Some t.expirations }
        ensures timers { let t = timer_at self.old.timers index in self.new ≡ with_timer self.old index (record t { expirations = 0 }) }
    {
        let timer = self.timer(index);
        self.replace(
            index,
            Timer {
                due: timer.due,
                interval: timer.interval,
                expirations: 0,
                is_open: timer.is_open,
            },
        );
        if timer.expirations == 0 {
            None
        } else {
            Some(timer.expirations)
        }
    }

    /// When the first of the timers is due, in constant time; `None` where none is armed.
    pub fn next_due(&self) -> Option<u64>
        ensures { IsFirstOf (dues self.now.timers) result }
    {
        self.dues.first()
    }

    /// Tells the time: each timer that is due up to now has expired, the others are as they were. A time before the last one told
    /// changes nothing. Each timer that is due takes time logarithmic in the number of timers, the others none.
    pub fn set_time(&mut self, now: u64)
        ensures { self.new ≡ told now self.old }
    {
        if now >= self.time {
            self.expire_all(now);
            self.time = now;
        }
    }

    fn expire_all(&mut self, now: u64)
        ensures { self.new ≡ record self.old { timers = map (expired now) self.old.timers } }
    {
        while let Some(_index) = self.expire_next(now) {}
    }

    /// Lets one of the timers due up to now expire, in logarithmic time, and returns its index; `None` where none is due.
    pub fn expire_next(&mut self, now: u64) -> Option<usize>
        ensures { MatchOption result (NoneIsDue now self.old self.new) (λ index. HasExpired now self.old index self.new) }
    {
        let index = self.dues.due_by(now)?;
        let timer = self.timer(index).expire(now);
        self.replace(index, timer);
        Some(index)
    }

    fn replace(&mut self, index: usize, timer: Timer)
        ensures { self.new ≡ with_timer self.old index timer }
    {
        if index < self.timers.len() {
            self.dues.set(index, timer.due);
            self.timers[index] = timer;
        }
    }
}
