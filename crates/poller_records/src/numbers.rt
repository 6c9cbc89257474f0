//! Decimal numbers, each written in one way: any other field is a `BadNumber`.

ghost use Rattle.std.specs.Prelude.{◌≡◌, ◌<◌, ◌^◌, ◌∷◌, ℕ, ℤ, Ok, IfOk, FitsSigned, pos, negsuc, suc};
ghost use Rattle.std.specs.Fmt.{decimal, signed_decimal};
ghost use Rattle.std.specs.Int.{w32};

use crate::fault::LineFault;

pub(crate) fn natural(field: &str) -> Result<u64, LineFault>
    ensures read { IfOk result (λ number. field.now ≡ decimal number) }
    ensures written { (number : ℕ) → number < 2 ^ 64 → field.now ≡ decimal number → result ≡ Ok number }
{
    if field.starts_with('+') {
        return Err(LineFault::BadNumber);
    }
    if field.starts_with('0') && field.len() > 1 {
        return Err(LineFault::BadNumber);
    }
    match field.parse() {
        Ok(number) => Ok(number),
        Err(_) => Err(LineFault::BadNumber),
    }
}

pub(crate) fn natural_32(field: &str) -> Result<u32, LineFault>
    ensures read { IfOk result (λ number. field.now ≡ decimal number) }
    ensures written { (number : ℕ) → number < 2 ^ 32 → field.now ≡ decimal number → result ≡ Ok number }
{
    u32::try_from(natural(field)?).map_err(|_| LineFault::BadNumber)
}

fn nonnegative(field: &str) -> Result<i32, LineFault>
    ensures read { IfOk result (λ number. field.now ≡ signed_decimal number) }
    ensures written { (number : ℕ) → number < 2 ^ 31 → field.now ≡ decimal number → result ≡ Ok (pos number) }
{
    i32::try_from(natural(field)?).map_err(|_| LineFault::BadNumber)
}

/// The number below 0 that has these digits behind its `-`.
fn negative(digits: &str) -> Result<i32, LineFault>
    ensures read { IfOk result (λ number. 45 ∷ digits.now ≡ signed_decimal number) }
    ensures written { (n : ℕ) → n < 2 ^ 31 → digits.now ≡ decimal (suc n) → result ≡ Ok (negsuc n) }
{
    match 0i32.checked_sub_unsigned(natural_32(digits)?) {
        Some(number) if number < 0 => Ok(number),
        _ => Err(LineFault::BadNumber),
    }
}

pub(crate) fn integer(field: &str) -> Result<i32, LineFault>
    ensures read { IfOk result (λ number. field.now ≡ signed_decimal number) }
    ensures written { (number : ℤ) → FitsSigned w32 number → field.now ≡ signed_decimal number → result ≡ Ok number }
{
    match field.strip_prefix('-') {
        Some(digits) => negative(digits),
        None => nonnegative(field),
    }
}
