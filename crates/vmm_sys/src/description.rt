//! What the handles of a descriptor share. Like an open file description of Linux it lasts until the last handle is closed.

ghost use Rattle.std.specs.Prelude.{◌≡◌, ◌≤ℤ◌, pos, IfOk, IsOkUnless};
ghost use Rattle.std.specs.Arc.{arc_value};

use crate::descriptors::RawFd;
use crate::errno::Errno;
use crate::shared_table::TableOwner;
use std::alloc::Global;
use std::sync::{Arc, Wait};

#[derive(Drop)]
pub(crate) struct Description {
    pub(crate) table: TableOwner,
    pub(crate) fd: RawFd,
    ghost from_0_up: { pos 0 ≤ℤ fd },
}

pub(crate) type Handle = Arc<Description, Global>;

/// The first handle on what was opened, which is closed where memory is refused.
pub(crate) fn first_handle<R: Wait>(table: TableOwner, fd: RawFd, rt: &R) -> Result<Handle, Errno>
    requires { pos 0 ≤ℤ fd }
    ensures descriptor { IfOk result (λ handle. (arc_value handle).fd ≡ fd) }
    ensures errors { IsOkUnless result Errno.ENOMEM }
{
    let alloc = table.alloc;
    match Arc::new(alloc, Description { table, fd }) {
        Ok(handle) => Ok(handle),
        Err(refused) => {
            refused.value.close(rt);
            Err(Errno::ENOMEM)
        }
    }
}

/// Gives a handle up; with the last one the descriptor is closed.
pub(crate) fn close<R: Wait>(handle: Handle, rt: &R) {
    if let Some(last) = Arc::into_inner(handle) {
        last.close(rt);
    }
}

impl Description {
    fn close<R: Wait>(self, rt: &R) {
        // Only a description closes its number, and once.
        let _ = self.table.close(self.fd, rt);
    }
}
