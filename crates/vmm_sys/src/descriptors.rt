//! Descriptors, and what has one; [`epoll`](crate::epoll) re-exports them.

ghost use Rattle.std.specs.Prelude.{◌≡◌, ◌≤ℤ◌, pos, ℤ};
ghost use Rattle.std.specs.Arc.{arc_value};
ghost use Rattle.vmm_sys.specs.Descriptors.{number_of};

use std::fs::File;
use std::io::Stdin;
use std::os::fd::OwnedFd;
use std::rc::Rc;
use std::sync::Arc;

/// A file descriptor. Numbers from 0 up stand for descriptors, others for none.
pub type RawFd = i32;

/// What has a file descriptor.
pub trait AsRawFd {
    /// The descriptor of a value.
    ghost descriptor: { Self → ℤ };

    /// Its descriptor, from 0 up.
    fn as_raw_fd(&self) -> RawFd
        ensures descriptor { result ≡ descriptor self.now }
        ensures from_0_up { pos 0 ≤ℤ result };
}

impl<T: AsRawFd> AsRawFd for &T {
    ghost descriptor = { λ v. T.descriptor v.now };

    fn as_raw_fd(&self) -> RawFd {
        (**self).as_raw_fd()
    }
}

impl<T: AsRawFd> AsRawFd for Arc<T> {
    ghost descriptor = { λ v. T.descriptor (arc_value v) };

    fn as_raw_fd(&self) -> RawFd {
        (**self).as_raw_fd()
    }
}

impl<T: AsRawFd> AsRawFd for Rc<T> {
    ghost descriptor = { λ v. T.descriptor v.value };

    fn as_raw_fd(&self) -> RawFd {
        (**self).as_raw_fd()
    }
}

impl<T: AsRawFd> AsRawFd for Box<T> {
    ghost descriptor = { λ v. T.descriptor v.value };

    fn as_raw_fd(&self) -> RawFd {
        (**self).as_raw_fd()
    }
}

// The number, or, where it is negative, 2147483647: no process has that many descriptors open.
fn from_0_up(fd: RawFd) -> RawFd
    ensures number { result ≡ number_of fd }
    ensures from_0_up { pos 0 ≤ℤ result }
{
    if fd < 0 { RawFd::MAX } else { fd }
}

/// A negative number, which only `unsafe` code can make, shows as 2147483647, which a poller refuses.
impl AsRawFd for OwnedFd {
    ghost use Rattle.std.specs.Fd.{owned_raw_fd};

    ghost descriptor = { λ v. number_of (owned_raw_fd v) };

    fn as_raw_fd(&self) -> RawFd {
        from_0_up(std::os::fd::AsRawFd::as_raw_fd(self))
    }
}

/// As of [`OwnedFd`]. Linux's epoll refuses a plain file with `EPERM`.
impl AsRawFd for File {
    ghost use Rattle.std.specs.Fd.{file_raw_fd};

    ghost descriptor = { λ v. number_of (file_raw_fd v) };

    fn as_raw_fd(&self) -> RawFd {
        from_0_up(std::os::fd::AsRawFd::as_raw_fd(self))
    }
}

impl AsRawFd for Stdin {
    ghost descriptor = { λ _. pos 0 };

    fn as_raw_fd(&self) -> RawFd {
        0
    }
}
