//! Error numbers of Linux.

ghost use Rattle.std.specs.Prelude.{◌≡◌, Some, codes, ◌++◌};
ghost use Rattle.std.specs.Fmt.{signed_decimal};

use std::alloc::AllocError;
use std::fmt;

/// An error number of Linux. Prints as `os error N`, N in decimal, with a `-` below 0. A caller's own poller may return any number.
#[derive(Clone, Copy, PartialEq, Eq, Debug)]
pub struct Errno(pub i32);

impl Errno {
    /// The descriptor has no interest.
    pub const ENOENT: Errno = Errno(2);

    /// The wait was interrupted.
    pub const EINTR: Errno = Errno(4);

    /// A call isn't the one that a record has next.
    pub const EIO: Errno = Errno(5);

    /// The descriptor isn't open, or isn't of the kind that the call is for.
    pub const EBADF: Errno = Errno(9);

    /// The call would have to wait.
    pub const EAGAIN: Errno = Errno(11);

    /// Memory was refused.
    pub const ENOMEM: Errno = Errno(12);

    /// The descriptor has an interest already.
    pub const EEXIST: Errno = Errno(17);

    /// An argument is not allowed.
    pub const EINVAL: Errno = Errno(22);

    /// All descriptors are in use.
    pub const EMFILE: Errno = Errno(24);
}

impl fmt::Display for Errno {
    ghost output = { λ e. Some (codes "os error " ++ signed_decimal e.0) };

    fn fmt<W: fmt::Write>(&self, f: &mut fmt::Formatter<W>) -> fmt::Result {
        let number = self.0;
        write!(f, "os error {number}")
    }
}

impl std::error::Error for Errno {}

/// `ENOMEM`.
impl From<AllocError> for Errno {
    ghost use Rattle.vmm_sys.specs.declared.errno.TheConstants.Errno.{ENOMEM};

    ghost from_gives = { λ _ result. result ≡ ENOMEM };

    fn from(_error: AllocError) -> Errno {
        Errno::ENOMEM
    }
}
