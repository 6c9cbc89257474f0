//! A line of a shared table.

ghost use Rattle.std.specs.Prelude.{◌≡◌, IfErr, IfOk};

use crate::description::{self, Handle, first_handle};
use crate::descriptors::{AsRawFd, RawFd};
use crate::epoll::Epoll;
use crate::errno::Errno;
use crate::event_set::EventSet;
use std::sync::{Arc, Wait};

/// A descriptor in the table of an [`Epoll`] whose state is set; it stands in for a socket or a pipe. Each call is one step of the
/// table, under its lock. Its descriptor, its close and its drop are as those of an [`EventFd`](crate::eventfd::EventFd).
#[derive(Drop)]
pub struct Line {
    handle: Handle,
}

impl Line {
    ghost use Rattle.vmm_sys.specs.SharedTable.{AnswersOfSome};
    ghost use Rattle.vmm_sys.specs.Table.{set_line_of};
    ghost use Rattle.vmm_sys.specs.Line.{descriptor_of, IsOpeningError};

    /// Opens a line with the empty set. Refused as [`EventFd::new`](crate::eventfd::EventFd::new), but never with `EINVAL`.
    pub fn new<R: Wait>(epoll: &Epoll<R>, rt: &R) -> Result<Line, Errno>
        ensures { IfErr result IsOpeningError }
    {
        let table = Arc::try_clone(&epoll.table)?;
        let fd = table.add_line(rt)?;
        let handle = first_handle(table, fd, rt)?;
        Ok(Line { handle })
    }

    /// Another handle on the same line. `ENOMEM`: the `Arc` refused a copy; then nothing changed.
    pub fn try_clone(&self) -> Result<Line, Errno>
        ensures same_descriptor { IfOk result (λ other. descriptor_of other ≡ descriptor_of self.now) }
        ensures errors { IfErr result (λ e. e ≡ Errno.ENOMEM) }
    {
        let handle = Arc::try_clone(&self.handle)?;
        Ok(Line { handle })
    }

    /// Sets the state. The table refuses what is no open line with `EBADF`; the descriptor of a `Line` always is one.
    pub fn set<R: Wait>(&self, set: EventSet, rt: &R) -> Result<(), Errno>
        ensures { AnswersOfSome (λ t. set_line_of t (descriptor_of self.now) set) result }
    {
        self.handle.table.set_line(self.handle.fd, set, rt)
    }

    /// As [`EventFd::close`](crate::eventfd::EventFd::close).
    pub fn close<R: Wait>(self, rt: &R) {
        description::close(self.handle, rt);
    }
}

impl AsRawFd for Line {
    ghost use Rattle.vmm_sys.specs.Line.{descriptor_of};

    ghost descriptor = { descriptor_of };

    fn as_raw_fd(&self) -> RawFd {
        self.handle.fd
    }
}
