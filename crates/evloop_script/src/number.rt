//! Numbers of a script: decimal digits, with any count of leading zeros.

ghost use Rattle.std.specs.Prelude.{◌≡◌, ◌≤◌, ◌<◌, ◌^◌, pos, MatchOption};
ghost use Rattle.event_loop.specs.Priority.{number_of};
ghost use Rattle.std.specs.Option.{SomeIff};
ghost use Rattle.std.specs.Str.Parse.{IsNumeral, digits_value, starts_with_minus, signed_digits_value};
ghost use Rattle.evloop_script.specs.Number.{without_leading_minus, IsReported};

use event_loop::Priority;
use vmm_sys::epoll::RawFd;
use vmm_sys::errno::Errno;

/// The number that the digits of `word` write; `None` where `word` is not one digit or more and
/// nothing else, or where the number is above `limit`, however long it is.
pub fn number(word: &str, limit: u32) -> Option<u32>
    ensures { SomeIff result (IsNumeral 10 word.now × (digits_value 10 word.now ≤ limit)) (digits_value 10 word.now) }
{
    if word.starts_with('+') {
        return None;
    }
    match word.parse::<u32>() {
        Ok(value) if value <= limit => Some(value),
        _ => None,
    }
}

/// A descriptor: a number from 0 to 2147483647.
pub fn descriptor(word: &str) -> Option<RawFd>
    ensures { SomeIff result (IsNumeral 10 word.now × (digits_value 10 word.now < 2 ^ 31)) (pos (digits_value 10 word.now)) }
{
    match number(word, i32::MAX as u32) {
        Some(value) => Some(value as i32),
        None => None,
    }
}

/// A descriptor of a report: a number from 0 to 2147483647, or one from 1 to 2147483648 behind a `-`.
pub fn signed_descriptor(word: &str) -> Option<RawFd>
    ensures { SomeIff result (IsNumeral 10 (without_leading_minus word.now) × IsReported (starts_with_minus word.now) (signed_digits_value 10 word.now)) (signed_digits_value 10 word.now) }
{
    if word.starts_with('+') {
        return None;
    }
    match word.parse::<i32>() {
        Ok(0) if word.starts_with('-') => None,
        Ok(fd) => Some(fd),
        Err(_) => None,
    }
}

/// The data of a registration or of an event: a number from 0 to 4294967295.
pub fn payload(word: &str) -> Option<u32>
    ensures { SomeIff result (IsNumeral 10 word.now × (digits_value 10 word.now < 2 ^ 32)) (digits_value 10 word.now) }
{
    number(word, u32::MAX)
}

/// A priority: a number from 0 to 3.
pub fn priority(word: &str) -> Option<Priority>
    ensures { MatchOption result (¬ (IsNumeral 10 word.now × (digits_value 10 word.now ≤ 3))) (λ priority. IsNumeral 10 word.now × (number_of priority ≡ digits_value 10 word.now)) }
{
    match number(word, 3) {
        Some(value) => Priority::new(value as u8),
        None => None,
    }
}

/// An error number: from 1 to 4095.
pub fn errno(word: &str) -> Option<Errno>
    ensures { SomeIff result (IsNumeral 10 word.now × (0 < digits_value 10 word.now) × (digits_value 10 word.now ≤ 4095)) (record { 0 = pos (digits_value 10 word.now) }) }
{
    match number(word, 4095) {
        Some(value) if value > 0 => Some(Errno(value as i32)),
        _ => None,
    }
}
