//! The calls of a record, and how each is shown.

use anyhow::{Result, bail};
use evloop_script::names::SetNames;
use poller_records::record::RecordEntry;
use std::fmt;
use vmm_sys::epoll::{ControlOperation, EpollEvent, EventSet};
use vmm_sys::errno::Errno;

/// A call with the entries behind it up to the next call, which prints as its line.
#[derive(Clone, Copy)]
pub struct ShownCall<'a> {
    call: RecordEntry,
    report: &'a [RecordEntry],
}

impl<'a> ShownCall<'a> {
    /// The call with the events that stand behind it. `None` where the call reports another number of them.
    fn new(call: RecordEntry, behind: &'a [RecordEntry]) -> Option<ShownCall<'a>> {
        let end = behind.iter().position(|entry| !is_reported(entry));
        let report = behind.get(..end.unwrap_or(behind.len())).unwrap_or(behind);
        let counted = match call {
            RecordEntry::Wait {
                answer: Ok(count),
                ..
            } => count,
            _ => 0,
        };
        if report.len() == counted {
            Some(ShownCall { call, report })
        } else {
            None
        }
    }
}

/// The call at this index of a record; `None` where an event stands there.
///
/// # Errors
///
/// The line has behind it another number of events than its call reported, or is the first and an event.
pub fn call_at(record: &[RecordEntry], index: usize) -> Result<Option<ShownCall<'_>>> {
    let number = index.saturating_add(1);
    match record.get(index) {
        Some(entry) if !is_reported(entry) => {
            match ShownCall::new(*entry, record.get(number..).unwrap_or(&[])) {
                Some(call) => Ok(Some(call)),
                None => bail!("line {number}: another number of events"),
            }
        }
        Some(_) if index == 0 => bail!("line 1: an event of no wait"),
        _ => Ok(None),
    }
}

/// Whether the entry is an event of a report.
fn is_reported(entry: &RecordEntry) -> bool {
    matches!(entry, RecordEntry::Reported(_))
}

/// The word of a call, as a script has it.
pub fn operation_word(op: ControlOperation) -> &'static str {
    match op {
        ControlOperation::Add => "add",
        ControlOperation::Modify => "modify",
        ControlOperation::Delete => "delete",
    }
}

/// Prints the names of a set; its number, where it has a bit without a name.
#[derive(Clone, Copy)]
pub struct Set(pub EventSet);

impl fmt::Display for Set {
    fn fmt<W: fmt::Write>(&self, f: &mut fmt::Formatter<W>) -> fmt::Result {
        if EventSet::all().contains(self.0) {
            SetNames(self.0).fmt(f)
        } else {
            let bits = self.0.bits();
            write!(f, "{bits}")
        }
    }
}

// Prints the answer of a call of `ctl`.
#[derive(Clone, Copy)]
struct Answer(Result<(), Errno>);

impl fmt::Display for Answer {
    fn fmt<W: fmt::Write>(&self, f: &mut fmt::Formatter<W>) -> fmt::Result {
        match self.0 {
            Ok(()) => f.write_str("ok"),
            Err(error) => error.fmt(f),
        }
    }
}

// Prints a wait with this answer and report.
fn write_wait<W: fmt::Write>(
    answer: Result<usize, Errno>,
    report: &[RecordEntry],
    f: &mut fmt::Formatter<W>,
) -> fmt::Result {
    match answer {
        Ok(_) => f.write_str("batch")?,
        Err(Errno::EINTR) => f.write_str("intr")?,
        Err(error) => write!(f, "wait: {error}")?,
    }
    for entry in report {
        if let RecordEntry::Reported(event) = entry {
            let (fd, set, data) = (event.fd(), Set(event.event_set()), event.high_half());
            write!(f, " {fd}:{set}:{data}")?;
        }
    }
    Ok(())
}

impl fmt::Display for ShownCall<'_> {
    fn fmt<W: fmt::Write>(&self, f: &mut fmt::Formatter<W>) -> fmt::Result {
        match self.call {
            RecordEntry::Control {
                op: ControlOperation::Delete,
                fd,
                event: _,
                answer,
            } => write!(f, "delete {fd}: {}", Answer(answer)),
            RecordEntry::Control {
                op,
                fd,
                event,
                answer,
            } => {
                let (word, set, data) = (
                    operation_word(op),
                    Set(event.event_set()),
                    event.high_half(),
                );
                write!(f, "{word} {fd} {set} {data}: {}", Answer(answer))
            }
            RecordEntry::Wait { answer, .. } => write_wait(answer, self.report, f),
            RecordEntry::Reported(_) => Ok(()),
        }
    }
}
