ghost use Rattle.std.specs.Prelude.{◌≡◌, length, pos};
ghost use Rattle.daq_text.specs.Numbers.{ended, mapped};
ghost use Rattle.odb_value.specs.Forms.{negative, signed_form, truth_form};
ghost use Rattle.odb_value.specs.Sized.{in_signed_64_bits};

use daq_text::{digits, ended, unsigned};

/// This number, where 64 bits hold it with a sign.
fn positive(number: u64) -> Option<i64>
    ensures { result ≡ in_signed_64_bits (pos number) }
{
    if number <= i64::MAX as u64 {
        Some(number as i64)
    } else {
        None
    }
}

/// The negative of this number, where 64 bits hold it with a sign.
fn negative(number: u64) -> Option<i64>
    ensures { result ≡ in_signed_64_bits (negative number) }
{
    if number == 0 {
        Some(0)
    } else if number - 1 <= i64::MAX as u64 {
        Some(-((number - 1) as i64) - 1)
    } else {
        None
    }
}

/// A number that may have a sign, and blanks behind it.
pub fn signed(text: &[u8]) -> Result<Option<i64>, usize>
    ensures { result ≡ mapped in_signed_64_bits (signed_form text.now) }
{
    if text.starts_with(b"-") {
        let (_, text) = text.split_at(1);
        let number = digits(text, 10, u64::MAX)?;
        Ok(number.and_then(negative))
    } else {
        let number = unsigned(text, u64::MAX)?;
        Ok(number.and_then(positive))
    }
}

/// A truth value, and blanks behind it.
pub fn truth(text: &[u8]) -> Result<bool, usize>
    ensures { result ≡ truth_form text.now }
{
    match text.split_first() {
        None => Err(0),
        Some((b'y' | b'Y' | b'1', rest)) => ended(true, rest),
        Some((b'n' | b'N' | b'0', rest)) => ended(false, rest),
        Some(_) => Err(text.len()),
    }
}
