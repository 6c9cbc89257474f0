//! What a record of a poller's calls consists of.

use vmm_sys::epoll::{ControlOperation, EpollEvent, RawFd};
use vmm_sys::errno::Errno;

/// An entry of a record: a call of a poller with its answer, or an event that the wait before it reported.
#[derive(Clone, Copy, PartialEq, Eq, Debug)]
pub enum RecordEntry {
    /// A call of `ctl`.
    Control {
        op: ControlOperation,
        fd: RawFd,
        event: EpollEvent,
        answer: Result<(), Errno>,
    },
    /// A call of `wait`. If it answered a number, that many events follow, in the order of the report.
    Wait {
        /// The limit in milliseconds, as it was given.
        ms: i32,
        /// The length of the buffer.
        room: usize,
        answer: Result<usize, Errno>,
    },
    /// An event of a report.
    Reported(EpollEvent),
}
