//! A table that threads share: each call is one step under its lock.

ghost use Rattle.std.specs.Prelude.{◌≡◌, ◌≤◌, ◌<◌, ◌≤ℤ◌, pos, length, IfOk, IsOkUnless};
ghost use Rattle.vmm_sys.specs.Poller.{reported};
ghost use Rattle.vmm_sys.specs.Table.{write_of, read_of, set_line_of, add_counter_of, add_line_of, close_of};
ghost use Rattle.vmm_sys.specs.SharedTable.{AnswersOfSome, AnswersOfSomeWithMemory, Changed, Waited};

use crate::descriptors::RawFd;
use crate::entries::{ControlOperation, EpollEvent};
use crate::errno::Errno;
use crate::event_set::EventSet;
use crate::table::Table;
use std::alloc::Global;
use std::sync::{Arc, Condvar, CondvarTimeouts, Mutex, Wait};
use std::time::{Clock, Duration};

pub(crate) struct SharedTable {
    table: Mutex<Table>,
    changed: Condvar,
    pub(crate) alloc: Global,
}

// Not derived, as that of `Table`.
impl Drop for SharedTable {
    fn drop(self) {
        let SharedTable {
            table: _,
            changed: _,
            alloc: _,
        } = self;
    }
}

pub(crate) type TableOwner = Arc<SharedTable, Global>;

pub(crate) fn new_table(alloc: Global) -> Result<TableOwner, Errno>
    ensures { IsOkUnless result Errno.ENOMEM }
{
    let shared = SharedTable {
        table: Mutex::new(Table::new(alloc)),
        changed: Condvar::new(),
        alloc,
    };
    Arc::new(alloc, shared).map_err(|_| Errno::ENOMEM)
}

impl SharedTable {
    // Wakes all waiters after a call that succeeded, as it may have made something ready.
    fn tell<A>(&self, answer: &Result<A, Errno>) {
        if answer.is_ok() {
            self.changed.notify_all();
        }
    }

    pub(crate) fn add_counter<R: Wait>(&self, value: u64, rt: &R) -> Result<RawFd, Errno>
        ensures answer { AnswersOfSomeWithMemory (λ t. add_counter_of t value) result }
        ensures from_0_up { IfOk result (λ fd. pos 0 ≤ℤ fd) }
    {
        let answer = self.table.lock(rt).add_counter(value);
        self.tell(&answer);
        answer
    }

    pub(crate) fn add_line<R: Wait>(&self, rt: &R) -> Result<RawFd, Errno>
        ensures answer { AnswersOfSomeWithMemory add_line_of result }
        ensures from_0_up { IfOk result (λ fd. pos 0 ≤ℤ fd) }
    {
        let answer = self.table.lock(rt).add_line();
        self.tell(&answer);
        answer
    }

    pub(crate) fn close<R: Wait>(&self, fd: RawFd, rt: &R) -> Result<(), Errno>
        ensures { AnswersOfSome (λ t. close_of t fd) result }
    {
        self.table.lock(rt).close(fd)
    }

    pub(crate) fn ctl<R: Wait>(
        &self,
        op: ControlOperation,
        fd: RawFd,
        event: EpollEvent,
        rt: &R,
    ) -> Result<(), Errno>
        ensures { Changed op fd event result }
    {
        let answer = self.table.lock(rt).ctl(op, fd, event);
        self.tell(&answer);
        answer
    }

    pub(crate) fn write<R: Wait>(&self, fd: RawFd, value: u64, rt: &R) -> Result<(), Errno>
        ensures { AnswersOfSome (λ t. write_of t fd value) result }
    {
        let answer = self.table.lock(rt).write(fd, value);
        self.tell(&answer);
        answer
    }

    pub(crate) fn read<R: Wait>(&self, fd: RawFd, rt: &R) -> Result<u64, Errno>
        ensures { AnswersOfSome (λ t. read_of t fd) result }
    {
        let answer = self.table.lock(rt).read(fd);
        self.tell(&answer);
        answer
    }

    pub(crate) fn set_line<R: Wait>(&self, fd: RawFd, set: EventSet, rt: &R) -> Result<(), Errno>
        ensures { AnswersOfSome (λ t. set_line_of t fd set) result }
    {
        let answer = self.table.lock(rt).set_line(fd, set);
        self.tell(&answer);
        answer
    }

    /// Tries until something is ready, and between tries sleeps until the table has changed.
    pub(crate) fn wait_until_ready<R: Wait>(
        &self,
        buffer: &mut [EpollEvent],
        rt: &R,
    ) -> Result<usize, Errno>
        ensures waited { Waited (length buffer.old) result (reported result buffer.new) }
        ensures some { IfOk result (λ count. 0 < count) }
        ensures count_fits { IfOk result (λ count. count ≤ length buffer.old) }
    {
        let mut table = self.table.lock(rt);
        for _ in rt.forever() {
            let count = table.wait(buffer)?;
            if count > 0 {
                return Ok(count);
            }
            table = self.changed.wait(rt, table);
        }
        unreachable!()
    }

    /// Tries once; where nothing is ready and `limit` is above 0, sleeps once, until a change or the end of the time, and retries.
    pub(crate) fn wait_at_most<R: Wait + Clock>(
        &self,
        limit: Duration,
        buffer: &mut [EpollEvent],
        rt: &R,
    ) -> Result<usize, Errno>
        ensures waited { Waited (length buffer.old) result (reported result buffer.new) }
        ensures count_fits { IfOk result (λ count. count ≤ length buffer.old) }
    {
        let mut table = self.table.lock(rt);
        let count = table.wait(buffer)?;
        if count > 0 || limit.is_zero() {
            return Ok(count);
        }
        let (mut table, _) = self.changed.wait_timeout(rt, table, limit);
        table.wait(buffer)
    }
}
