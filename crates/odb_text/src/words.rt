ghost use Rattle.std.specs.Prelude.{◌≡◌, ◌↔◌, ◌<◌, ◌∷◌, ◌++◌, ℕ, List, IsTrue, IfSome, IfNone};
ghost use Rattle.std.specs.Char.{digit_value};
ghost use Rattle.std.specs.Str.Parse.{IsNumeral, digits_value};
ghost use Rattle.daq_text.specs.Numbers.{up_to};
ghost use Rattle.odb_text.specs.LineForms.{AreBlanks, HasNo, IsBracketed, behind_blank};

use daq_text::{behind_blanks, digits};

/// Whether there are blanks alone.
pub(crate) fn are_blanks(bytes: &[u8]) -> bool
    ensures { IsTrue result ↔ AreBlanks bytes.now }
{
    behind_blanks(bytes).is_empty()
}

/// Whether the byte is a decimal digit.
fn is_digit(byte: u8) -> bool
    ensures { IsTrue result ↔ (digit_value byte < 10) }
{
    if byte < b'0' {
        return false;
    }
    byte <= b'9'
}

/// Whether there are decimal digits alone, and at least one.
fn is_numeral(text: &[u8]) -> bool
    ensures { IsTrue result ↔ IsNumeral 10 text.now }
{
    for byte in text {
        if !is_digit(*byte) {
            return false;
        }
    }
    !text.is_empty()
}

/// What stands before and behind the first byte of this value, where there is one.
pub fn split_once(text: &[u8], at: u8) -> Option<(&[u8], &[u8])>
    ensures some { IfSome result (λ parts. text.now ≡ parts.0.now ++ at ∷ parts.1.now) }
    ensures first { IfSome result (λ parts. HasNo at parts.0.now) }
    ensures none { IfNone result (HasNo at text.now) }
{
    for place in 0..text.len() {
        if text[place] == at {
            let (before, _) = text.split_at(place);
            let (_, behind) = text.split_at(place + 1);
            return Some((before, behind));
        }
    }
    None
}

/// What stands in the brackets with which a line begins, and what stands behind them; None exactly where the line does
/// not begin so.
pub(crate) fn in_brackets(line: &[u8]) -> Option<(&[u8], &[u8])>
    ensures some { IfSome result (λ parts. line.now ≡ 91 ∷ (parts.0.now ++ 93 ∷ parts.1.now)) }
    ensures first { IfSome result (λ parts. HasNo 93 parts.0.now) }
    ensures none { IfNone result ((inside : List ℕ) (rest : List ℕ) → HasNo 93 inside
        → line.now ≡ 91 ∷ (inside ++ 93 ∷ rest) → ⊥) }
{
    let (first, inside) = line.split_first()?;
    if *first != b'[' {
        return None;
    }
    split_once(inside, b']')
}

/// The digits in the brackets with which a line begins, and what stands behind the brackets; None exactly where the
/// line does not begin so.
pub fn bracketed(line: &[u8]) -> Option<(&[u8], &[u8])>
    ensures some { IfSome result (λ parts. IsBracketed line.now parts.0.now parts.1.now) }
    ensures none { IfNone result ((digits : List ℕ) (rest : List ℕ)
        → IsBracketed line.now digits rest → ⊥) }
{
    let (digits, rest) = in_brackets(line)?;
    if !is_numeral(digits) {
        return None;
    }
    Some((digits, rest))
}

/// What stands behind one blank, where there is one.
pub fn behind_blank(text: &[u8]) -> &[u8]
    ensures { result.now ≡ behind_blank text.now }
{
    match text.split_first() {
        Some((b' ' | b'\t', rest)) => rest,
        _ => text,
    }
}

/// The number that these decimal digits spell, where it is at most `most`.
pub fn spelled(numeral: &[u8], most: u64) -> Option<u64>
    requires { IsNumeral 10 numeral.now }
    ensures { result ≡ up_to most (digits_value 10 numeral.now) }
{
    match digits(numeral, 10, most) {
        Ok(number) => number,
        Err(_) => None,
    }
}
