//! What closes by its drop.

ghost use Rattle.std.specs.Prelude.{◌≡◌};

use crate::close::Close;
use vmm_sys::epoll::{AsRawFd, RawFd};

/// Closes what it holds when it is dropped, with a handle of its own: so a `?` on the way to a close leaves nothing open. The drop
/// waits for the locks that the close takes, so it may not run where one of them is held.
pub struct Closing<E: Close<R>, R> {
    /// What is closed.
    pub end: E,
    rt: R,
}

impl<E: Close<R>, R> Closing<E, R> {
    /// Closes this when it is dropped, with this handle.
    pub fn new(end: E, rt: R) -> Self
        ensures { result.end ≡ end }
    {
        Closing { end, rt }
    }

    /// What is held, to be closed by the caller.
    pub fn into_inner(self) -> E
    where
        R: Drop,
        ensures { result ≡ self.end }
    {
        let Closing { end, rt: _ } = self;
        end
    }
}

impl<E: Close<R>, R: Drop> Drop for Closing<E, R> {
    fn drop(self) {
        let Closing { end, rt } = self;
        end.close(&rt);
    }
}

impl<E: Close<R> + AsRawFd, R> AsRawFd for Closing<E, R> {
    ghost descriptor = { λ it. E.descriptor it.end };

    fn as_raw_fd(&self) -> RawFd {
        self.end.as_raw_fd()
    }
}
