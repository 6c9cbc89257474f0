//! The errors of the crate.

ghost use Rattle.std.specs.Prelude.{◌≡◌, Some};
ghost use Rattle.event_loop.specs.ErrorText.{error_text};
ghost use Rattle.event_loop.specs.declared.error.Error.TheVariants as error;

use std::alloc::{AllocError, AllocFailed};
use std::fmt;
use vmm_sys::errno::Errno;

/// Why a call was refused. The first seven are event-manager's, the last three aren't. `ChannelSend`, `ChannelRecv`, `EventFd` and
/// `TicketsUsedUp` are those of jobs and their endpoint. A refused call leaves registrations, owners, pending events and the queue
/// of jobs as they were; but `ChannelRecv` says that the manager was closed, which dropped the job.
#[derive(Clone, Copy, PartialEq, Eq, Debug)]
pub enum Error {
    /// A job can't be sent to the loop: it is closed.
    ChannelSend,
    /// The loop was closed before a job's reply came.
    ChannelRecv,
    /// The event counter of the endpoint answered this number.
    EventFd(Errno),
    /// The poller's number, or the manager's own: `EEXIST` for the endpoint's descriptor, `ENOENT` for one not the caller's.
    Epoll(Errno),
    /// A subscriber, the caller included, owns the descriptor.
    FdAlreadyRegistered,
    /// No subscriber has the id.
    InvalidId,
    /// The capacity is above `MAX_READY_EVENTS_CAPACITY`.
    InvalidCapacity,
    /// A request for memory was refused.
    OutOfMemory,
    /// No id is left.
    IdsUsedUp,
    /// No job ticket is left.
    TicketsUsedUp,
}

/// What calls of this crate return.
pub type Result<T> = std::result::Result<T, Error>;

impl fmt::Display for Error {
    ghost output = { λ e. Some (error_text e) };

    fn fmt<W: fmt::Write>(&self, f: &mut fmt::Formatter<W>) -> fmt::Result {
        match self {
            Error::ChannelSend => write!(
                f,
                "event_manager: failed to send message to remote endpoint"
            ),
            Error::ChannelRecv => write!(
                f,
                "event_manager: failed to receive message from remote endpoint"
            ),
            Error::EventFd(e) => write!(
                f,
                "event_manager: failed to manage EventFd file descriptor: {e}"
            ),
            Error::Epoll(e) => write!(
                f,
                "event_manager: failed to manage epoll file descriptor: {e}"
            ),
            Error::FdAlreadyRegistered => write!(
                f,
                "event_manager: file descriptor has already been registered"
            ),
            Error::InvalidId => write!(f, "event_manager: invalid subscriber Id"),
            Error::InvalidCapacity => write!(f, "event_manager: invalid ready_list capacity"),
            Error::OutOfMemory => write!(f, "event_manager: out of memory"),
            Error::IdsUsedUp => write!(f, "event_manager: subscriber ids used up"),
            Error::TicketsUsedUp => write!(f, "event_manager: job tickets used up"),
        }
    }
}

impl std::error::Error for Error {}

impl From<AllocError> for Error {
    ghost from_gives = { λ _ result. result ≡ error.OutOfMemory };

    fn from(_error: AllocError) -> Error {
        Error::OutOfMemory
    }
}

/// [`OutOfMemory`](Error::OutOfMemory); what found no room is dropped.
impl<T: Drop> From<AllocFailed<T>> for Error {
    ghost from_gives = { λ _ result. result ≡ error.OutOfMemory };

    fn from(_error: AllocFailed<T>) -> Error {
        Error::OutOfMemory
    }
}
