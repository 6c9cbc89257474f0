//! Why the program ends with a failure.

use channels::{Refusal, SendError};
use std::alloc::{AllocError, AllocFailed};
use std::io;
use thiserror::Error;
use vmm_sys::errno::Errno;

/// Its text is what the program prints on standard error after `several_loops: `.
#[derive(Clone, Copy, Debug, Error)]
pub enum Fault {
    /// A loop, or what was asked of it, was refused.
    #[error(transparent)]
    Loop(#[from] event_manager::Error),

    /// A descriptor could not be opened or used.
    #[error("a descriptor: {0}")]
    Descriptor(#[from] Errno),

    /// A message was refused.
    #[error(transparent)]
    Message(Refusal),

    /// What came of it could not be written.
    #[error("cannot write: {0}")]
    Output(io::ErrorKind),
}

impl From<AllocError> for Fault {
    fn from(refused: AllocError) -> Fault {
        Fault::Loop(refused.into())
    }
}

impl<T: Drop> From<AllocFailed<T>> for Fault {
    fn from(refused: AllocFailed<T>) -> Fault {
        Fault::Loop(refused.into())
    }
}

impl<M: Drop> From<SendError<M>> for Fault {
    fn from(refused: SendError<M>) -> Fault {
        Fault::Message(refused.why)
    }
}

impl From<io::Error> for Fault {
    fn from(error: io::Error) -> Fault {
        Fault::Output(error.kind())
    }
}
