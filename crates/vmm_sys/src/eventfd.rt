//! A counter of a shared table.

ghost use Rattle.std.specs.Prelude.{◌≡◌, IsErr, IfErr, IfOk};

use crate::description::{self, Handle, first_handle};
use crate::descriptors::{AsRawFd, RawFd};
use crate::epoll::Epoll;
use crate::errno::Errno;
use std::sync::{Arc, Wait};

/// A counter in the table of an [`Epoll`], with values from 0 to 18446744073709551614. It stands in for Linux's `eventfd`, and
/// never waits for its value. Each call is one step of the table, under its lock.
///
/// Its descriptor is a number of this table: a poller over another table takes it for its own descriptor of that number. It is
/// closed when the last of its handles, copies included, ends by [`close`](EventFd::close). Where that one is only dropped it stays
/// open: if it is registered it is still reported, and its number and its memory never come back.
#[derive(Drop)]
pub struct EventFd {
    handle: Handle,
}

impl EventFd {
    ghost use Rattle.vmm_sys.specs.SharedTable.{AnswersOfSome};
    ghost use Rattle.vmm_sys.specs.Table.{write_of, read_of};
    ghost use Rattle.vmm_sys.specs.EventFd.{descriptor_of, IsOpeningError};

    /// Opens a counter of this value: a number, not flags as in `vmm-sys-util`. A refused call opens nothing.
    ///
    /// `ENOMEM`: one more owner of the table, which is asked for first, or memory was refused. `EINVAL`: the value is
    /// 18446744073709551615. `EMFILE`: 2147483648 are open in the table.
    pub fn new<R: Wait>(epoll: &Epoll<R>, value: u64, rt: &R) -> Result<EventFd, Errno>
        ensures too_high { value ≡ 18446744073709551615 → IsErr result }
        ensures errors { IfErr result (IsOpeningError value) }
    {
        let table = Arc::try_clone(&epoll.table)?;
        let fd = table.add_counter(value, rt)?;
        let handle = first_handle(table, fd, rt)?;
        Ok(EventFd { handle })
    }

    /// Another handle on the same counter. `ENOMEM`: the `Arc` refused a copy; then nothing changed.
    pub fn try_clone(&self) -> Result<EventFd, Errno>
        ensures same_descriptor { IfOk result (λ other. descriptor_of other ≡ descriptor_of self.now) }
        ensures errors { IfErr result (λ e. e ≡ Errno.ENOMEM) }
    {
        let handle = Arc::try_clone(&self.handle)?;
        Ok(EventFd { handle })
    }

    /// Gives this handle up. A counter's last handle closes its descriptor, as [`Table::close`](crate::table::Table::close) does:
    /// its interest is gone, and what is opened next may get its number. So remove a counter from a manager before you close it.
    pub fn close<R: Wait>(self, rt: &R) {
        description::close(self.handle, rt);
    }

    /// Takes the value, which is then 0. `EAGAIN`: it is 0.
    pub fn read<R: Wait>(&self, rt: &R) -> Result<u64, Errno>
        ensures { AnswersOfSome (λ t. read_of t (descriptor_of self.now)) result }
    {
        self.handle.table.read(self.handle.fd, rt)
    }

    /// Adds to the value; `value` may be 0, and a refusal adds nothing. `EINVAL`: `value` is 18446744073709551615. `EAGAIN`: the
    /// sum is above 18446744073709551614.
    pub fn write<R: Wait>(&self, value: u64, rt: &R) -> Result<(), Errno>
        ensures { AnswersOfSome (λ t. write_of t (descriptor_of self.now) value) result }
    {
        self.handle.table.write(self.handle.fd, value, rt)
    }
}

impl AsRawFd for EventFd {
    ghost use Rattle.vmm_sys.specs.EventFd.{descriptor_of};

    ghost descriptor = { descriptor_of };

    fn as_raw_fd(&self) -> RawFd {
        self.handle.fd
    }
}
