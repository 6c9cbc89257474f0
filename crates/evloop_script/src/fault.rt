//! Why the program ends with a failure.

ghost use Rattle.std.specs.Prelude.{◌≡◌};
ghost use Rattle.evloop_script.specs.FaultOf.{fault_of};
ghost use Rattle.evloop_script.specs.declared.fault.Fault.TheVariants as fault;

use std::alloc::{AllocError, AllocFailed};
use thiserror::Error;

/// Why a script was not run to its end. Its text is what the program prints on standard error after
/// `evloop: `.
#[derive(Clone, Copy, Debug, PartialEq, Error)]
pub enum Fault {
    /// The first bad line of the script, counted from 1. Nothing was run.
    #[error("line {0}: bad script")]
    BadScript(usize),

    /// The script could not be read to its end, or is not UTF-8. Nothing was run.
    #[error("cannot read the script")]
    CannotRead,

    /// A line of the program's own could not be written.
    #[error("cannot write")]
    CannotWrite,

    /// A request for memory was refused.
    #[error("out of memory")]
    OutOfMemory,

    /// The manager could not be made, for another reason than memory.
    #[error(transparent)]
    Manager(event_loop::Error),
}

impl From<event_loop::Error> for Fault {
    ghost from_gives = { λ error result. result ≡ fault_of error };

    fn from(error: event_loop::Error) -> Fault {
        match error {
            event_loop::Error::OutOfMemory => Fault::OutOfMemory,
            _ => Fault::Manager(error),
        }
    }
}

impl<T: Drop> From<AllocFailed<T>> for Fault {
    ghost from_gives = { λ error result. result ≡ fault.OutOfMemory };

    fn from(_error: AllocFailed<T>) -> Fault {
        Fault::OutOfMemory
    }
}

impl From<AllocError> for Fault {
    ghost from_gives = { λ error result. result ≡ fault.OutOfMemory };

    fn from(_error: AllocError) -> Fault {
        Fault::OutOfMemory
    }
}
