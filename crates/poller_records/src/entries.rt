//! The fields of an entry. They are refused with `UnknownEntry`, `WrongFields`, `BadNumber` or `BadAnswer`.

ghost use Rattle.std.specs.Prelude.{◌≡◌, ◌∷◌, Ok, IfOk, codes};
ghost use Rattle.poller_records.specs.Held.{IsEntry, IsEvent};
ghost use Rattle.poller_records.specs.Lines.{contents, event_fields, fields_of, operation_word};
ghost use Rattle.vmm_sys.specs.declared.entries.EpollEvent.{EpollEvent};
ghost use Rattle.poller_records.specs.declared.record.RecordEntry.{RecordEntry};

use crate::answers::{control_answer, wait_answer};
use crate::fault::LineFault;
use crate::numbers::{integer, natural, natural_32};
use crate::record::RecordEntry;
use vmm_sys::epoll::{ControlOperation, EpollEvent, EventSet};

fn event(fields: &[&str]) -> Result<EpollEvent, LineFault>
    ensures read { IfOk result (λ event. contents fields.now ≡ event_fields event) }
    ensures written { (event : EpollEvent) → IsEvent event → contents fields.now ≡ event_fields event → result ≡ Ok event }
{
    match fields {
        [set, word] => {
            let set = EventSet::from_bits_retain(natural_32(set)?);
            Ok(EpollEvent::new(set, natural(word)?))
        }
        _ => Err(LineFault::WrongFields),
    }
}

/// The call of `ctl` that the fields behind its first state.
fn control(op: ControlOperation, fields: &[&str]) -> Result<RecordEntry, LineFault>
    ensures read { IfOk result (λ entry. operation_word op ∷ contents fields.now ≡ fields_of entry) }
    ensures written { (entry : RecordEntry) → IsEntry entry → operation_word op ∷ contents fields.now ≡ fields_of entry → result ≡ Ok entry }
{
    match fields {
        [fd, set, word, answer @ ..] => Ok(RecordEntry::Control {
            op,
            fd: integer(fd)?,
            event: event(&[set, word])?,
            answer: control_answer(answer)?,
        }),
        _ => Err(LineFault::WrongFields),
    }
}

/// The call of `wait` that the fields behind its first state.
fn wait(fields: &[&str]) -> Result<RecordEntry, LineFault>
    ensures read { IfOk result (λ entry. codes "wait" ∷ contents fields.now ≡ fields_of entry) }
    ensures written { (entry : RecordEntry) → IsEntry entry → codes "wait" ∷ contents fields.now ≡ fields_of entry → result ≡ Ok entry }
{
    match fields {
        [ms, room, answer @ ..] => Ok(RecordEntry::Wait {
            ms: integer(ms)?,
            room: natural(room)? as usize,
            answer: wait_answer(answer)?,
        }),
        _ => Err(LineFault::WrongFields),
    }
}

pub(crate) fn entry(fields: &[&str]) -> Result<RecordEntry, LineFault>
    ensures read { IfOk result (λ entry. contents fields.now ≡ fields_of entry) }
    ensures written { (entry : RecordEntry) → IsEntry entry → contents fields.now ≡ fields_of entry → result ≡ Ok entry }
{
    match fields {
        ["add", fields @ ..] => control(ControlOperation::Add, fields),
        ["modify", fields @ ..] => control(ControlOperation::Modify, fields),
        ["delete", fields @ ..] => control(ControlOperation::Delete, fields),
        ["wait", fields @ ..] => wait(fields),
        ["event", fields @ ..] => Ok(RecordEntry::Reported(event(fields)?)),
        _ => Err(LineFault::UnknownEntry),
    }
}
