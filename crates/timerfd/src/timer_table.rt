//! Timers with a list of interests in them.

ghost use Rattle.std.specs.Prelude.{◌≡◌, ◌==◌, ◌<◌, ◌≤◌, ◌^◌, [], pos, is_some, find, length, IfOk, IfErr, MatchOption, if◌then◌else◌};
ghost use Rattle.vmm_sys.specs.Table.{ctl_of, close_of, wait_of, filled, first_closed, reported_entries, is_ready};
ghost use Rattle.timerfd.specs.Dues.{IsFirstOf, dues};
ghost use Rattle.timerfd.specs.Timer.{armed, stopped};
ghost use Rattle.timerfd.specs.Timers.{timer_at, with_timer, told, NoneIsDue, HasExpired};
ghost use Rattle.timerfd.specs.TimerTable.{line, table_of, with_line, with_told, reported_by, AreLines, AreReached, Changes, Closes, IsOpened, IsOpeningError};

use crate::timers::Timers;
use std::alloc::Global;
use std::marker::Model;
use vmm_sys::epoll::{ControlOperation, EpollEvent, EventSet, RawFd};
use vmm_sys::errno::Errno;
use vmm_sys::table::Table;

/// Timers by index, and interests in them. A timer is ready while it has expirations to take: for `IN`, and nothing else.
#[derive(Drop)]
pub struct TimerTable {
    timers: Timers,
    table: Table,
}

impl Model for TimerTable {
    ghost use Rattle.timerfd.specs.TimerTable.{TimerTableState, IsTableOf};

    ghost Value = { TimerTableState };

    ghost view = { λ t. record { told = t.timers; interests = t.table.interests } };

    ghost invariant = { λ t. IsTableOf t.timers t.table };
}

impl TimerTable {
    /// A table without timers, at time 0.
    pub fn new(alloc: Global) -> Self
        ensures { result ≡ record { told = record { time = 0; timers = [] }; interests = [] } }
    {
        TimerTable {
            timers: Timers::new(alloc),
            table: Table::new(alloc),
        }
    }

    /// Opens a timer, disarmed and without an interest, and returns its index: the lowest of a closed one, else the number of
    /// timers before. `EMFILE`: 2147483648 are open. `ENOMEM`: memory was refused. Then the timers are as they were.
    pub fn add(&mut self) -> Result<usize, Errno>
        ensures added { IfOk result (λ index. IsOpened (first_closed (table_of self.old)) self.old.told index self.new.told × (self.new ≡ with_told self.old self.new.told)) }
        ensures few { IfOk result (λ index. index < 2 ^ 31) }
        ensures refused { IfErr result (λ e. IsOpeningError self.old e × (self.new ≡ self.old)) }
    {
        let Ok(last) = self.timers.add() else {
            return Err(Errno::ENOMEM);
        };
        match self.table.add_line() {
            Ok(number) => {
                let index = number as usize;
                if index != last {
                    // The index of a closed timer is given again.
                    self.timers.remove_last();
                    self.timers.open(index);
                }
                Ok(index)
            }
            Err(errno) => {
                self.timers.remove_last();
                Err(errno)
            }
        }
    }

    /// Closes the timer of this index, with its interest. Its index is given again. No memory is requested. `EBADF`: none is open.
    pub fn close(&mut self, index: usize) -> Result<(), Errno>
        ensures { Closes (close_of (table_of self.old) (pos index)) index self.old result self.new }
    {
        match RawFd::try_from(index) {
            Ok(number) => self.table.close(number)?,
            // No line has such a number.
            Err(_) => return Err(Errno::EBADF),
        }
        self.timers.close(index);
        Ok(())
    }

    /// The number of timers, closed ones included.
    pub fn len(&self) -> usize
        ensures { result ≡ length self.now.told.timers }
    {
        self.timers.len()
    }

    /// The time that was told last; 0 where none was.
    pub fn time(&self) -> u64
        ensures { result ≡ self.now.told.time }
    {
        self.timers.time()
    }

    /// Whether the timer is due at some time; false where there is no such timer.
    pub fn is_armed(&self, index: usize) -> bool
        ensures { result ≡ is_some (timer_at self.now.told.timers index).due }
    {
        self.timers.is_armed(index)
    }

    /// Changes the interest in the timer of this index, as [`Table::ctl`] does that in a descriptor. `EBADF`: there is none.
    pub fn ctl(
        &mut self,
        op: ControlOperation,
        index: usize,
        event: EpollEvent,
    ) -> Result<(), Errno>
        ensures changed { Changes (ctl_of (table_of self.old) op (pos index) event) self.old result self.new }
        ensures reached { AreReached self.old }
    {
        match RawFd::try_from(index) {
            Ok(number) => self.table.ctl(op, number, event),
            Err(_) => self.table.ctl(op, -1, event),
        }
    }

    /// As [`Timers::arm`].
    pub fn arm(&mut self, index: usize, due: u64, interval: u64)
        ensures { self.new ≡ with_told self.old (with_timer self.old.told index (armed due interval (timer_at self.old.told.timers index))) }
    {
        self.timers.arm(index, due, interval);
        set_ready(&mut self.table, index, false);
    }

    /// As [`Timers::disarm`].
    pub fn disarm(&mut self, index: usize)
        ensures { self.new ≡ with_told self.old (with_timer self.old.told index (stopped (timer_at self.old.told.timers index))) }
    {
        self.timers.disarm(index);
        set_ready(&mut self.table, index, false);
    }

    /// As [`Timers::take_expirations`].
    pub fn take_expirations(&mut self, index: usize) -> Option<u64>
        ensures expirations { let t = timer_at self.old.told.timers index in result ≡ if t.expirations == 0 then None else Some t.expirations }
        ensures timers { let t = timer_at self.old.told.timers index in self.new ≡ with_told self.old (with_timer self.old.told index (record t { expirations = 0 })) }
    {
        let expirations = self.timers.take_expirations(index);
        set_ready(&mut self.table, index, false);
        expirations
    }

    /// When the first of the timers is due, in constant time; `None` where none is armed.
    pub fn next_due(&self) -> Option<u64>
        ensures { IsFirstOf (dues self.now.told.timers) result }
    {
        self.timers.next_due()
    }

    /// Tells the time, as [`Timers::set_time`].
    pub fn set_time(&mut self, now: u64)
        ensures { self.new ≡ with_told self.old (told now self.old.told) }
    {
        if now >= self.timers.time() {
            while let Some(_index) = self.expire_next(now) {}
            self.timers.set_time(now);
        }
    }

    fn expire_next(&mut self, now: u64) -> Option<usize>
        ensures interests { self.new.interests ≡ self.old.interests }
        ensures expired { MatchOption result (NoneIsDue now self.old.told self.new.told) (λ index. HasExpired now self.old.told index self.new.told) }
    {
        let index = self.timers.expire_next(now)?;
        set_ready(&mut self.table, index, true);
        Some(index)
    }

    /// Whether a timer is ready for what is wanted of it.
    pub fn has_ready(&self) -> bool
        ensures { result ≡ is_some (find (is_ready (table_of self.now).sources) self.now.interests) }
    {
        self.table.has_ready()
    }

    /// Reports ready timers as [`Table::wait`] does, and returns their number; 0 where the buffer is empty.
    pub fn report(&mut self, buffer: &mut [EpollEvent]) -> usize
        ensures count { result ≡ length (reported_entries (wait_of (table_of self.old) (length buffer.old))) }
        ensures entries { buffer.new ≡ filled (wait_of (table_of self.old) (length buffer.old)) buffer.old }
        ensures moved { self.new ≡ reported_by self.old (length buffer.old) }
        ensures reached { AreReached self.old }
    {
        self.table.wait(buffer).unwrap_or(0)
    }
}

fn set_ready(table: &mut Table, index: usize, ready: bool)
    requires lines { AreLines table.old.sources }
    requires few { length table.old.sources ≤ 2 ^ 31 }
    ensures { table.new ≡ record table.old { sources = with_line table.old.sources index (line ready) } }
{
    let set = if ready {
        EventSet::IN
    } else {
        EventSet::empty()
    };
    if let Ok(number) = RawFd::try_from(index) {
        let _ = table.set_line(number, set);
    }
}
