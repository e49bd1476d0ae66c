ghost use Rattle.std.specs.Prelude.{◌≡◌, ◌≤◌, IfSome, IfOk};
ghost use Rattle.std.specs.Char.{digit_value};
ghost use Rattle.std.specs.List.{list_all};
ghost use Rattle.std.specs.Str.Parse.{digits_value};
ghost use Rattle.daq_text.specs.Numbers.{behind, digits_form, ended, is_blank, is_digit_in, mapped, whole_number, numeral, unsigned_form, up_to};

/// Whether the byte is a blank, a space or a tab.
pub fn is_blank(byte: u8) -> bool
    ensures { result ≡ is_blank byte }
{
    byte == b' ' || byte == b'\t'
}

/// What stands behind the blanks in front.
pub fn behind_blanks(text: &[u8]) -> &[u8]
    ensures { result.now ≡ behind is_blank text.now }
{
    let mut rest = text;
    while let Some((byte, others)) = rest.split_first() {
        if !is_blank(*byte) {
            break;
        }
        rest = others;
    }
    rest
}

/// What was spelled, where only blanks are left behind it; else how many bytes are left behind the blanks.
pub fn ended<T: Drop>(value: T, rest: &[u8]) -> Result<T, usize>
    ensures { result ≡ ended value rest.now }
{
    let left = behind_blanks(rest).len();
    if left == 0 { Ok(value) } else { Err(left) }
}

/// The value of a digit or a letter, 0 to 35, or 36 where the byte is neither.
fn digit_of(byte: u8) -> u8
    ensures { result ≡ digit_value byte }
{
    match byte {
        b'0'..=b'9' => byte - b'0',
        b'A'..=b'Z' => byte - b'A' + 10,
        b'a'..=b'z' => byte - b'a' + 10,
        _ => 36,
    }
}

/// What stands behind the digits of this base in front.
fn behind_digits(text: &[u8], base: u8) -> &[u8]
    ensures { result.now ≡ behind (is_digit_in base) text.now }
{
    let mut rest = text;
    while let Some((byte, others)) = rest.split_first() {
        if digit_of(*byte) >= base {
            break;
        }
        rest = others;
    }
    rest
}

/// The number that these digits of this base spell, where it is at most `most`.
fn value_of(digits: &[u8], base: u8, most: u64) -> Option<u64>
    requires { 1 ≤ base }
    ensures value { result ≡ up_to most (digits_value base digits.now) }
    ensures bound { IfSome result (λ n. n ≤ most) }
{
    let mut value = 0u64;
    for byte in digits {
        let front = value.checked_mul(base as u64)?;
        value = front.checked_add(digit_of(*byte) as u64)?;
    }
    if value <= most { Some(value) } else { None }
}

/// Digits of this base, and blanks behind them: the number, where it is at most `most`.
pub fn digits(text: &[u8], base: u8, most: u64) -> Result<Option<u64>, usize>
    requires { 1 ≤ base }
    ensures read { result ≡ mapped (up_to most) (digits_form base text.now) }
    ensures bound { IfOk result (λ found. IfSome found (λ n. n ≤ most)) }
{
    let rest = behind_digits(text, base);
    let (digits, rest) = text.split_at(text.len() - rest.len());
    if digits.is_empty() {
        return Err(text.len());
    }
    ended(value_of(digits, base, most), rest)
}

/// A number without a sign, and blanks behind it: the number, where it is at most `most`.
pub fn unsigned(text: &[u8], most: u64) -> Result<Option<u64>, usize>
    ensures read { result ≡ mapped (up_to most) (unsigned_form text.now) }
    ensures bound { IfOk result (λ found. IfSome found (λ n. n ≤ most)) }
{
    if text.starts_with(b"0x") {
        let (_, text) = text.split_at(2);
        digits(text, 16, most)
    } else {
        digits(text, 10, most)
    }
}

/// Whether all bytes are digits of this base.
fn are_digits(text: &[u8], base: u8) -> bool
    ensures { result ≡ list_all (is_digit_in base) text.now }
{
    text.iter().all(|byte| digit_of(*byte) < base)
}

/// What digits of this base spell, where they are digits, at least one, and their number is at most `most`.
fn whole_digits(text: &[u8], base: u8, most: u64) -> Option<u64>
    requires { 1 ≤ base }
    ensures value { result ≡ numeral most base text.now }
    ensures bound { IfSome result (λ n. n ≤ most) }
{
    if text.is_empty() {
        return None;
    }
    if !are_digits(text, base) {
        return None;
    }
    value_of(text, base, most)
}

/// The number that the whole text is: decimal digits, or `0x` and hexadecimal digits, of at most `most`.
#[tactic(auto, unfolding(crate::specs::Numbers::whole_number))]
pub fn number(text: &[u8], most: u64) -> Option<u64>
    ensures value { result ≡ whole_number most text.now }
    ensures bound { IfSome result (λ n. n ≤ most) }
{
    if text.starts_with(b"0x".as_slice()) {
        let (_, digits) = text.split_at(2);
        return whole_digits(digits, 16, most);
    }
    whole_digits(text, 10, most)
}
