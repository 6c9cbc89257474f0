//! Why a text isn't read.

ghost use Rattle.std.specs.Prelude.{◌≡◌};
ghost use Rattle.poller_records.specs.declared.fault.RecordFault.TheVariants as fault;

use std::alloc::AllocError;
use thiserror::Error;

/// Why a text isn't read as a record.
#[derive(Clone, Copy, Debug, PartialEq, Eq, Error)]
pub enum RecordFault {
    /// A line isn't that of an entry: the first such, counted from 1.
    #[error("line {number}: {fault}")]
    BadLine { number: usize, fault: LineFault },

    /// Memory was refused.
    #[error("out of memory")]
    OutOfMemory,
}

impl From<AllocError> for RecordFault {
    ghost from_gives = { λ error result. result ≡ fault.OutOfMemory };

    fn from(_error: AllocError) -> RecordFault {
        RecordFault::OutOfMemory
    }
}

/// What is wrong with a line.
#[derive(Clone, Copy, Debug, PartialEq, Eq, Error)]
pub enum LineFault {
    /// Its first field is none of `add`, `modify`, `delete`, `wait` and `event`.
    #[error("unknown entry")]
    UnknownEntry,

    /// It has too few fields in front of its answer, or is an event with too few or too many.
    #[error("wrong number of fields")]
    WrongFields,

    /// A field is not a number, is out of its range, or is not written in the one way.
    #[error("bad number")]
    BadNumber,

    /// Its answer is none that the call can have.
    #[error("bad answer")]
    BadAnswer,

    /// It has no `\n`.
    #[error("no end of line")]
    NoEnd,
}
