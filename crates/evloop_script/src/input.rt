//! The text of a script, from a reader.

ghost use Rattle.std.specs.Prelude.{◌≡◌, ◌≢◌, IfSome, IfOk, string_bytes, IsUtf8};

use crate::fault::Fault;
use std::alloc::Global;
use std::io::{ErrorKind, Read};

/// Reads all of `input`, to its end.
///
/// # Errors
///
/// `CannotRead` where a read fails, or where what was read is not UTF-8; `OutOfMemory`.
pub fn read_text<I: Read>(alloc: Global, input: &mut I) -> Result<String, Fault>
    ensures { IfOk result (λ text. IfSome (I.remaining input.old) (λ bytes. string_bytes text ≡ bytes)) }
{
    let mut bytes = Vec::new(alloc);
    match input.read_to_end(&mut bytes) {
        Ok(_) => {}
        Err(error) if error.kind() == ErrorKind::OutOfMemory => return Err(Fault::OutOfMemory),
        Err(_) => return Err(Fault::CannotRead),
    }
    String::from_utf8(bytes).map_err(|_| Fault::CannotRead)
}
