//! The steps of a record.

ghost use Rattle.std.specs.Prelude.{◌≡◌, IfOk, map};
ghost use Rattle.show_record.specs.Picture.{form_of};

use crate::picture::{Form, INTERRUPTED, Lane, Step, Tone, count_text};
use crate::shown::{Set, ShownCall, call_at, operation_word};
use anyhow::Result;
use poller_records::record::RecordEntry;
use std::alloc::{AllocError, Global};
use vmm_sys::epoll::{ControlOperation, EpollEvent};
use vmm_sys::errno::Errno;

/// What the entry is in a picture.
fn form(entry: &RecordEntry) -> Form
    ensures { result ≡ form_of entry.now }
{
    match entry {
        RecordEntry::Control { fd, .. } => Form::Call(Lane::Descriptor(*fd)),
        RecordEntry::Wait { .. } => Form::Wait,
        RecordEntry::Reported(event) => Form::Event(Lane::Descriptor(event.fd())),
    }
}

// The two lines of a call of `ctl`, and its colour.
fn control_texts(
    alloc: Global,
    op: ControlOperation,
    event: &EpollEvent,
    answer: Result<(), Errno>,
) -> Result<(Tone, String, String), AllocError> {
    let first = String::from_str(alloc, operation_word(op))?;
    let (tone, second) = match (answer, op) {
        (Err(error), _) => (Tone::Refused, error.to_string(alloc)?),
        (Ok(()), ControlOperation::Delete) => (Tone::Plain, String::new(alloc)),
        (Ok(()), _) => (Tone::Plain, Set(event.event_set()).to_string(alloc)?),
    };
    Ok((tone, first, second))
}

/// The two lines of the wait of this number, from 1, and its colour.
fn wait_texts(
    alloc: Global,
    number: usize,
    answer: Result<usize, Errno>,
) -> Result<(Tone, String, String), AllocError> {
    let first = format!(in alloc; "wait {number}")?;
    let (tone, second) = match answer {
        Ok(count) => (Tone::Plain, count_text(alloc, count)?),
        Err(Errno::EINTR) => (Tone::Plain, String::from_str(alloc, INTERRUPTED)?),
        Err(error) => (Tone::Refused, error.to_string(alloc)?),
    };
    Ok((tone, first, second))
}

/// The step of an entry: of an event, or of the call that shows itself so; waits have this number, from 1.
fn step(
    alloc: Global,
    entry: &RecordEntry,
    call: Option<ShownCall<'_>>,
    number: usize,
) -> Result<Step, AllocError>
    ensures { IfOk result (λ step. step.form ≡ form_of entry.now) }
{
    let (tone, first, second) = match entry {
        RecordEntry::Control {
            op,
            event,
            answer,
            ..
        } => control_texts(alloc, *op, event, *answer)?,
        RecordEntry::Wait { answer, .. } => wait_texts(alloc, number, *answer)?,
        RecordEntry::Reported(event) => {
            let first = Set(event.event_set()).to_string(alloc)?;
            (
                Tone::Plain,
                first,
                format!(in alloc; "data {}", event.high_half())?,
            )
        }
    };
    let told = match call {
        Some(call) => call.to_string(alloc)?,
        None => String::new(alloc),
    };
    Ok(Step {
        form: form(entry),
        tone,
        first,
        second,
        told,
    })
}

/// The steps of a record, one for each entry: of its kind, and in the lane of its descriptor.
///
/// # Errors
///
/// Those of [`call_at`]; a request for memory was refused.
pub fn steps(alloc: Global, entries: &[RecordEntry]) -> Result<Vec<Step>>
    ensures { IfOk result (λ steps. map (λ step. step.form) steps.items ≡ map form_of entries.now) }
{
    let mut steps = Vec::new(alloc);
    let mut waits = 0usize;
    for (index, entry) in entries.iter().enumerate() {
        let call = call_at(entries, index)?;
        if let RecordEntry::Wait { .. } = entry {
            waits = waits.saturating_add(1);
        }
        steps.push(step(alloc, entry, call, waits)?)?;
    }
    Ok(steps)
}
