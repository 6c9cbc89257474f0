//! Why the program ends with a failure.

use std::io;
use thiserror::Error;
use vmm_sys::errno::Errno;

/// Its text is what the program prints on standard error after `device_loop: `.
#[derive(Clone, Copy, Debug, Error)]
pub enum Fault {
    /// The loop, or what was asked of it, was refused.
    #[error(transparent)]
    Manager(#[from] event_manager::Error),

    /// A descriptor of a device could not be opened or used.
    #[error("a descriptor of a device: {0}")]
    Descriptor(#[from] Errno),

    /// The loop replied to another request.
    #[error("the reply to another request")]
    Reply,

    /// What was replied could not be written.
    #[error("cannot write: {0}")]
    Output(io::ErrorKind),
}

impl From<io::Error> for Fault {
    fn from(error: io::Error) -> Fault {
        Fault::Output(error.kind())
    }
}
