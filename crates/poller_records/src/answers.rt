//! The fields of an answer.

ghost use Rattle.std.specs.Prelude.{◌≡◌, ◌<◌, ◌^◌, ℕ, Ok, Result, IfOk};
ghost use Rattle.poller_records.specs.Held.{HasErrno};
ghost use Rattle.poller_records.specs.Lines.{contents, control_answer, wait_answer};
ghost use Rattle.vmm_sys.specs.declared.errno.Errno.{Errno};

use crate::fault::LineFault;
use crate::numbers::{integer, natural};
use vmm_sys::errno::Errno;

/// The answer of a call of `ctl`. `BadAnswer`, `BadNumber`.
pub(crate) fn control_answer(fields: &[&str]) -> Result<Result<(), Errno>, LineFault>
    ensures read { IfOk result (λ answer. contents fields.now ≡ control_answer answer) }
    ensures written { (answer : Result (Unit {0}) Errno) → HasErrno answer → contents fields.now ≡ control_answer answer → result ≡ Ok answer }
{
    match fields {
        ["ok"] => Ok(Ok(())),
        ["error", number] => Ok(Err(Errno(integer(number)?))),
        _ => Err(LineFault::BadAnswer),
    }
}

/// The answer of a call of `wait`. `BadAnswer`, `BadNumber`.
pub(crate) fn wait_answer(fields: &[&str]) -> Result<Result<usize, Errno>, LineFault>
    ensures read { IfOk result (λ answer. contents fields.now ≡ wait_answer answer) }
    ensures written { (answer : Result ℕ Errno) → IfOk answer (λ count. count < 2 ^ 64) → HasErrno answer →
        contents fields.now ≡ wait_answer answer → result ≡ Ok answer }
{
    match fields {
        ["ok", count] => Ok(Ok(natural(count)? as usize)),
        ["error", number] => Ok(Err(Errno(integer(number)?))),
        _ => Err(LineFault::BadAnswer),
    }
}
