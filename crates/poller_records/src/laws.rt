//! What holds of records and their texts.

ghost use Rattle.std.specs.Prelude.{◌≡◌, ℕ, List, All, MatchResult};
ghost use Rattle.poller_records.specs.BadLine.{IsFirstBad};
ghost use Rattle.poller_records.specs.Held.{IsEntry};
ghost use Rattle.poller_records.specs.declared.fault.RecordFault.TheVariants.{OutOfMemory};

use crate::fault::RecordFault;
use crate::record::RecordEntry;
use crate::text::{read_record, write_record};
use std::alloc::Global;

/// The numbers of an entry are in the ranges of their types.
pub fn entry_is_held(entry: RecordEntry)
    ensures { IsEntry entry }
{
    let _entry = entry;
}

/// The numbers of each entry of a list are in the ranges of their types.
pub fn entries_are_held(entries: &[RecordEntry])
    ensures { All IsEntry entries.now }
{
    for entry in entries {
        entry_is_held(*entry);
    }
}

/// A text has one first bad line at most: the number that `read_record` names is the only one that it may name.
pub fn one_line_is_the_first_bad()
    ensures { (text : List ℕ) (one other : ℕ) → IsFirstBad text one → IsFirstBad text other → one ≡ other }
{}

/// What is written is read: the same entries come back, or memory was refused.
pub fn what_is_written_is_read(
    alloc: Global,
    entries: &[RecordEntry],
) -> Result<Vec<RecordEntry>, RecordFault>
    ensures { MatchResult result (λ read. read.items ≡ entries.now) (λ fault. fault ≡ OutOfMemory) }
{
    entries_are_held(entries);
    let text = write_record(alloc, entries)?;
    read_record(alloc, text.as_str())
}
