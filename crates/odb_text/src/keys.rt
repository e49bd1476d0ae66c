ghost use Rattle.std.specs.Prelude.{◌≡◌, ◌≤◌, ℕ, List, reverse, IfSome, IfNone};
ghost use Rattle.std.specs.Str.Parse.{IsNumeral, digits_value};
ghost use Rattle.daq_types.specs.declared.types.Tid.{Tid};
ghost use Rattle.daq_types.specs.Names.{IsName};
ghost use Rattle.daq_types.specs.Tids.{IsNamed};
ghost use Rattle.daq_text.specs.Numbers.{front, behind, is_blank, up_to};
ghost use Rattle.odb_value.specs.Values.{items_limit};
ghost use Rattle.odb_text.specs.LineForms.{AreBlanks, without_blanks, is_of_word, IsKeyLine, IsSingle, IsArray};

use crate::words::{are_blanks, bracketed, spelled, split_once};
use daq_text::{behind_blanks, is_blank};
use daq_types::{Name, Tid};

/// The most items of a key.
const MAX_ITEMS: u64 = 65536;

/// The text without the blanks behind it.
fn before_blanks(text: &[u8]) -> &[u8]
    ensures { result.now ≡ reverse (behind is_blank (reverse text.now)) }
{
    let mut rest = text;
    while let Some((last, others)) = rest.split_last() {
        if !is_blank(*last) {
            break;
        }
        rest = others;
    }
    rest
}

/// The text without the blanks at its ends.
fn without_blanks(text: &[u8]) -> &[u8]
    ensures { result.now ≡ without_blanks text.now }
{
    behind_blanks(before_blanks(text))
}

/// Whether the byte may stand in the name of a type.
fn is_of_word(byte: u8) -> bool
    ensures { result ≡ is_of_word byte }
{
    !(is_blank(byte) || byte == b':' || byte == b'[')
}

/// The name of a type with which the text begins, and what stands behind it.
fn split_word(text: &[u8]) -> (&[u8], &[u8])
    ensures word { result.0.now ≡ front is_of_word text.now }
    ensures rest { result.1.now ≡ behind is_of_word text.now }
{
    for place in 0..text.len() {
        if !is_of_word(text[place]) {
            return text.split_at(place);
        }
    }
    text.split_at(text.len())
}

/// The name of this text, where it is one.
fn name_of(text: &[u8]) -> Option<Name>
    ensures some { IfSome result (λ name. (name ≡ text.now) × IsName text.now) }
    ensures none { IfNone result (IsName text.now → ⊥) }
{
    match Name::new(text) {
        Ok(name) => Some(name),
        Err(_) => None,
    }
}

/// The type that a text names with its first word, and what stands behind that; None exactly where it names none.
fn typed(text: &[u8]) -> Option<(Tid, &[u8])>
    ensures some { IfSome result (λ typed. IsNamed (front is_of_word text.now) typed.0) }
    ensures rest { IfSome result (λ typed. typed.1.now ≡ behind is_of_word text.now) }
    ensures none { IfNone result ((type : Tid) → IsNamed (front is_of_word text.now) type → ⊥) }
{
    let (word, rest) = split_word(text);
    match Tid::from_name(word) {
        None => None,
        Some(tid) => Some((tid, rest)),
    }
}

/// The key of this name.
fn named_key(name: Name, after: &[u8]) -> Option<(Name, Tid, &[u8])>
    ensures name { IfSome result (λ key. key.0 ≡ name) }
    ensures named { IfSome result (λ key.
        IsNamed (front is_of_word (behind is_blank after.now)) key.1) }
    ensures rest { IfSome result (λ key.
        key.2.now ≡ behind is_of_word (behind is_blank after.now)) }
    ensures none { IfNone result ((type : Tid)
        → IsNamed (front is_of_word (behind is_blank after.now)) type → ⊥) }
{
    match typed(behind_blanks(after)) {
        None => None,
        Some((tid, rest)) => Some((name, tid, rest)),
    }
}

/// The name and the type of the line of a key, and what stands behind the type; None exactly where the line is none of
/// a key.
pub fn key_line(line: &[u8]) -> Option<(Name, Tid, &[u8])>
    ensures some { IfSome result (λ key. IsKeyLine line.now key.0 key.1 key.2.now) }
    ensures none { IfNone result ((name : List ℕ) (type : Tid) (rest : List ℕ)
        → IsKeyLine line.now name type rest → ⊥) }
{
    match split_once(line, b'=') {
        None => None,
        Some((before, after)) => match name_of(without_blanks(before)) {
            None => None,
            Some(name) => named_key(name, after),
        },
    }
}

/// What stands behind the colon of a key of one item; None exactly where no colon stands behind the blanks.
pub fn single(rest: &[u8]) -> Option<&[u8]>
    ensures some { IfSome result (λ text. IsSingle rest.now text.now) }
    ensures none { IfNone result ((text : List ℕ) → IsSingle rest.now text → ⊥) }
{
    match behind_blanks(rest).split_first() {
        Some((b':', text)) => Some(text),
        _ => None,
    }
}

/// The number of items that a numeral spells, where blanks alone stand behind the colon; None exactly where others do,
/// and for 0.
fn counted(numeral: &[u8], blanks: &[u8]) -> Option<Option<u64>>
    requires { IsNumeral 10 numeral.now }
    ensures some { IfSome result (λ count.
        count ≡ up_to items_limit (digits_value 10 numeral.now)) }
    ensures right { IfSome result (λ _. AreBlanks blanks.now × (1 ≤ digits_value 10 numeral.now)) }
    ensures none { IfNone result (AreBlanks blanks.now → 1 ≤ digits_value 10 numeral.now → ⊥) }
{
    if !are_blanks(blanks) {
        return None;
    }
    match spelled(numeral, MAX_ITEMS) {
        None => Some(None),
        Some(count) => { if count == 0 { None } else { Some(Some(count)) } }
    }
}

/// How many items an array has, or None within the Some where these are more than 65,536; None exactly where the text
/// is not what stands behind the type of an array.
pub fn array(rest: &[u8]) -> Option<Option<u64>>
    ensures some { IfSome result (λ count. (n : ℕ) × (IsArray rest.now n
        × (count ≡ up_to items_limit n))) }
    ensures none { IfNone result ((n : ℕ) → IsArray rest.now n → ⊥) }
{
    match bracketed(behind_blanks(rest)) {
        None => None,
        Some((numeral, behind)) => match single(behind) {
            None => None,
            Some(blanks) => counted(numeral, blanks),
        },
    }
}
