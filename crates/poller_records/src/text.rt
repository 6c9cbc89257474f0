//! The text of a record: written, and read.

ghost use Rattle.std.specs.Prelude.{◌≡◌, ◌==◌, Some, IfOk, IfErr, IfSome, List, MatchResult, All, string_bytes};
ghost use Rattle.std.specs.List.{slice_split};
ghost use Rattle.poller_records.specs.BadLine.{bad_line, IsFirstBad};
ghost use Rattle.poller_records.specs.Held.{IsEntry};
ghost use Rattle.poller_records.specs.Lines.{contents, line_of, operation_word, text_of};
ghost use Rattle.poller_records.specs.declared.fault.RecordFault.TheVariants.{OutOfMemory};
ghost use Rattle.poller_records.specs.declared.record.RecordEntry.{RecordEntry};

use crate::entries::entry;
use crate::fault::{LineFault, RecordFault};
use crate::record::RecordEntry;
use std::alloc::{AllocError, Global};
use std::fmt;
use vmm_sys::epoll::ControlOperation;

/// An entry that prints as its line, without the `\n`.
#[derive(Clone, Copy)]
pub struct Line(pub RecordEntry);

fn operation_word(op: ControlOperation) -> &'static str
    ensures { result.now ≡ operation_word op }
{
    match op {
        ControlOperation::Add => "add",
        ControlOperation::Modify => "modify",
        ControlOperation::Delete => "delete",
    }
}

impl fmt::Display for Line {
    ghost output = { λ line. Some (line_of line.0) };

    fn fmt<W: fmt::Write>(&self, f: &mut fmt::Formatter<W>) -> fmt::Result {
        match self.0 {
            RecordEntry::Control {
                op,
                fd,
                event,
                answer: Ok(()),
            } => write!(
                f,
                "{} {fd} {} {} ok",
                operation_word(op),
                event.events(),
                event.data()
            ),
            RecordEntry::Control {
                op,
                fd,
                event,
                answer: Err(error),
            } => write!(
                f,
                "{} {fd} {} {} error {}",
                operation_word(op),
                event.events(),
                event.data(),
                error.0
            ),
            RecordEntry::Wait {
                ms,
                room,
                answer: Ok(count),
            } => write!(f, "wait {ms} {room} ok {count}"),
            RecordEntry::Wait {
                ms,
                room,
                answer: Err(error),
            } => write!(f, "wait {ms} {room} error {}", error.0),
            RecordEntry::Reported(event) => write!(f, "event {} {}", event.events(), event.data()),
        }
    }
}

/// The text of a record. `AllocError` if memory is refused.
pub fn write_record(alloc: Global, entries: &[RecordEntry]) -> Result<String, AllocError>
    ensures { IfOk result (λ text. string_bytes text ≡ text_of entries.now) }
{
    let mut text = String::new(alloc);
    for entry in entries {
        writeln!(text, "{}", Line(*entry))?;
    }
    Ok(text)
}

fn split_fields(alloc: Global, line: &str) -> Result<Vec<&str>, AllocError>
    ensures { IfOk result (λ fields. contents fields.items ≡ slice_split (λ byte. byte == 32) line.now) }
{
    line.split(' ').collect(alloc)
}

fn read_line(alloc: Global, number: usize, line: &str) -> Result<RecordEntry, RecordFault>
    ensures held { IfOk result (λ entry. IsEntry entry) }
    ensures read { IfOk result (λ entry. line.now ≡ line_of entry) }
    ensures written { (entry : RecordEntry) → IsEntry entry → line.now ≡ line_of entry →
        MatchResult result (λ read. read ≡ entry) (λ fault. fault ≡ OutOfMemory) }
    ensures number { IfErr result (λ fault. IfSome (bad_line fault) (λ bad. bad ≡ number)) }
{
    let fields = split_fields(alloc, line)?;
    match entry(&fields) {
        Ok(entry) => Ok(entry),
        Err(fault) => Err(RecordFault::BadLine { number, fault }),
    }
}

/// Reads the text of a record. Memory is requested for the list of entries, and for the fields of one line at a time. `BadLine` for
/// the first line that isn't an entry's, `OutOfMemory`.
pub fn read_record(alloc: Global, text: &str) -> Result<Vec<RecordEntry>, RecordFault>
    ensures read { IfOk result (λ entries. text.now ≡ text_of entries.items) }
    ensures written { (entries : List RecordEntry) → All IsEntry entries → text.now ≡ text_of entries →
        MatchResult result (λ read. read.items ≡ entries) (λ fault. fault ≡ OutOfMemory) }
    ensures bad { IfErr result (λ fault. IfSome (bad_line fault) (λ number. IsFirstBad text.now number)) }
{
    let mut entries = Vec::new(alloc);
    let mut rest = text;
    while !rest.is_empty() {
        let number = entries.len() + 1;
        let Some((line, behind)) = rest.split_once('\n') else {
            return Err(RecordFault::BadLine {
                number,
                fault: LineFault::NoEnd,
            });
        };
        let read = read_line(alloc, number, line)?;
        entries.reserve(1)?;
        entries.push_reserved(read);
        rest = behind;
    }
    Ok(entries)
}
