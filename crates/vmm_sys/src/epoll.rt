//! The poller over a shared table. It re-exports what a poller takes and reports, as `vmm-sys-util` does.

ghost use Rattle.std.specs.Prelude.{◌≡◌, ◌↔◌, ◌<ℤ◌, ◌*ℤ◌, pos, IsNone, IfSome, IsOkUnless};
ghost use Rattle.std.specs.Duration.{as_nanos};
ghost use base.Stored.{gnil};
ghost use Rattle.vmm_sys.specs.SharedTable.{MayCtl, MayWait};

pub use crate::descriptors::{AsRawFd, RawFd};
pub use crate::entries::{ControlOperation, EpollEvent};
use crate::errno::Errno;
pub use crate::event_set::EventSet;
pub use crate::fd::Fd;
use crate::poller::Poller;
use crate::shared_table::{TableOwner, new_table};
use std::alloc::Global;
use std::sync::{Arc, Wait};
use std::time::{Clock, Duration};

/// A poller over a [`Table`](crate::table::Table) that others share: other `Epoll`s, [`EventFd`](crate::eventfd::EventFd)s and
/// [`Line`](crate::line::Line)s, on this thread and on others. It keeps the handle `rt` it was made with, as its calls may wait for
/// the table's lock. Each call is one step of the table, with the table's refusals; a wait is one or more.
#[derive(Drop)]
pub struct Epoll<R> {
    pub(crate) table: TableOwner,
    rt: R,
}

impl<R: Wait + Clock + Clone + Send + Drop> Epoll<R> {
    /// A poller over a new table without descriptors. `ENOMEM`: memory was refused.
    pub fn new(rt: R, alloc: Global) -> Result<Epoll<R>, Errno>
        ensures { IsOkUnless result Errno.ENOMEM }
    {
        let table = new_table(alloc)?;
        Ok(Epoll { table, rt })
    }

    /// Another poller over the same table and interest list. `ENOMEM`: one more owner of the table, or a copy of `rt`, was refused.
    pub fn try_clone(&self) -> Result<Epoll<R>, Errno>
        ensures { IsOkUnless result Errno.ENOMEM }
    {
        let table = Arc::try_clone(&self.table)?;
        let rt = self.rt.clone()?;
        Ok(Epoll { table, rt })
    }
}

fn limit_of(ms: i32) -> Option<Duration>
    ensures for_ever { IsNone result ↔ ms <ℤ pos 0 }
    ensures time { IfSome result (λ limit. pos (as_nanos limit) ≡ ms *ℤ pos 1_000_000) }
{
    if ms < 0 {
        return None;
    }
    Some(Duration::from_millis(ms as u64))
}

impl<R: Wait + Clock + Clone + Send + Drop> Poller for Epoll<R> {
    // Others change the table at any time, so a state of this poller says nothing.
    ghost meaning = { λ _. gnil };

    ghost may_ctl = { MayCtl };

    ghost may_wait = { MayWait };

    /// As [`Table::ctl`](crate::table::Table::ctl).
    fn ctl(&mut self, op: ControlOperation, fd: RawFd, event: EpollEvent) -> Result<(), Errno> {
        self.table.ctl(op, fd, event, &self.rt)
    }

    /// As [`Table::wait`](crate::table::Table::wait), tried until something is ready where `ms` is negative, and once where it is
    /// 0. Otherwise it is tried once, and where nothing is ready once more: after `ms` milliseconds, or once it is notified of a
    /// change or interrupted by a signal, so it may return 0 early. `EINVAL`, at once: the buffer has no room.
    fn wait(&mut self, ms: i32, buffer: &mut [EpollEvent]) -> Result<usize, Errno> {
        match limit_of(ms) {
            Some(limit) => self.table.wait_at_most(limit, buffer, &self.rt),
            None => self.table.wait_until_ready(buffer, &self.rt),
        }
    }
}
