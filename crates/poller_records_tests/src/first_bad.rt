//! What a law says of a text that is read.

ghost use Rattle.std.specs.Prelude.{◌≡◌, ℕ, List, IfOk, IfSome, IfNone};
ghost use Rattle.poller_records.specs.BadLine.{IsFirstBad};
ghost use Rattle.poller_records.specs.Lines.{text_of};
ghost use Rattle.poller_records.specs.declared.record.RecordEntry.{RecordEntry};

use poller_records::fault::RecordFault;
use poller_records::laws::one_line_is_the_first_bad;
use poller_records::text::read_record;
use std::alloc::{AllocError, Global};

/// The number of the first bad line of a text, of which it has no other; without one the text is that of a record.
pub fn first_bad_line(alloc: Global, text: &str) -> Result<Option<usize>, AllocError>
    ensures bad { IfOk result (λ found. IfSome found (λ number. IsFirstBad text.now number)) }
    ensures alone { IfOk result (λ found. IfSome found (λ number. (line : ℕ) → IsFirstBad text.now line → line ≡ number)) }
    ensures none { IfOk result (λ found. IfNone found ((entries : List RecordEntry) × (text.now ≡ text_of entries))) }
{
    one_line_is_the_first_bad();
    match read_record(alloc, text) {
        Ok(_entries) => Ok(None),
        Err(RecordFault::BadLine { number, fault: _ }) => Ok(Some(number)),
        Err(RecordFault::OutOfMemory) => Err(AllocError),
    }
}
