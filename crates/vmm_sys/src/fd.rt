//! A descriptor by its number alone.

ghost use Rattle.std.specs.Prelude.{◌≡◌, ◌≤ℤ◌, ◌↔◌, pos, IsOk, IfOk, IfErr, IfSome};

use crate::descriptors::{AsRawFd, RawFd};
use crate::errno::Errno;

/// The number of a descriptor that somebody else keeps open: of a socket or a pipe of std's, or of what a system call gave.
#[derive(Clone, Copy, PartialEq, Eq, Debug)]
pub struct Fd {
    fd: RawFd,
    ghost from_0_up: { pos 0 ≤ℤ fd },
}

impl Fd {
    ghost use Rattle.vmm_sys.specs.Fd.{fd_of};

    /// A descriptor by this number. `EBADF`: it is negative.
    pub fn new(fd: RawFd) -> Result<Fd, Errno>
        ensures agreed { IsOk result ↔ pos 0 ≤ℤ fd }
        ensures number { IfOk result (λ it. fd_of it ≡ fd) }
        ensures errors { IfErr result (λ e. e ≡ Errno.EBADF) }
    {
        if fd < 0 {
            return Err(Errno::EBADF);
        }
        Ok(Fd { fd })
    }

    /// The descriptor of something of std's, such as a `TcpStream` or a `PipeReader`. `EBADF`: its number is negative.
    pub fn of<T: std::os::fd::AsRawFd>(source: &T) -> Result<Fd, Errno>
        ensures agreed { IfSome (T.raw_fd source.now) (λ fd. IsOk result ↔ pos 0 ≤ℤ fd) }
        ensures number { IfOk result (λ it. IfSome (T.raw_fd source.now) (λ fd. fd_of it ≡ fd)) }
        ensures errors { IfErr result (λ e. e ≡ Errno.EBADF) }
    {
        Fd::new(source.as_raw_fd())
    }
}

impl AsRawFd for Fd {
    ghost use Rattle.vmm_sys.specs.Fd.{fd_of};

    ghost descriptor = { fd_of };

    fn as_raw_fd(&self) -> RawFd {
        self.fd
    }
}
