//! The words of a line, each as the piece that a form has there.
ghost use Rattle.std.specs.Prelude.{◌≡◌, ◌≤◌, IfOk, IfSome, OnOk};
ghost use Rattle.daq_text.specs.Numbers.{whole_number};
ghost use Rattle.odb_script.specs.Numbers.{most_small};
ghost use Rattle.odb_script.specs.TypeNames.{is_text, type_named, kind_named};
ghost use Rattle.odb_script.specs.Forms.{next_text, words_behind, line_end, read_number_at, next_number as number_next, read_kind_at, next_kind as kind_next, number_at_end as number_last, only_text as text_alone, only_number as number_alone};

use crate::line_text::LineText;
use crate::refusals::LineRefusal;
use crate::words::{NextWord, WordReader};
use daq_text::number;
use daq_types::{Kind, Tid};

/// The type that a word names, with its own name or its older one.
pub(crate) fn type_of(name: &[u8]) -> Option<Tid>
    ensures { result ≡ type_named name.now }
{
    Tid::from_name(name)
}

/// Whether the word is this name.
pub(crate) fn is_name(word: &[u8], name: &str) -> bool
    ensures { result ≡ is_text word.now name.now }
{
    word == name.as_bytes()
}

/// The kind of request that a word names.
#[tactic(auto, unfolding(crate::specs::TypeNames::kind_named))]
pub(crate) fn kind_of(name: &[u8]) -> Option<Kind>
    ensures { result ≡ kind_named name.now }
{
    if is_name(name, "all") {
        return Some(Kind::All);
    }
    if is_name(name, "some") {
        return Some(Kind::NonBlocking);
    }
    None
}

/// The kind that a word at this place names.
pub(crate) fn kind_there(at: u32, kind: Option<Kind>) -> Result<Kind, LineRefusal>
    ensures { result ≡ read_kind_at at kind }
{
    match kind {
        None => Err(LineRefusal::BadCommand { at }),
        Some(kind) => Ok(kind),
    }
}

/// The number of at most `most` that a word is.
pub(crate) fn word_number(text: &LineText<'_>, most: u32) -> Option<u32>
    ensures value { result ≡ whole_number most text.now }
    ensures bound { IfSome result (λ n. n ≤ most) }
{
    match number(text.as_slice(), most as u64) {
        None => None,
        Some(number) => Some(number as u32),
    }
}

/// The number of at most `most` that a word at this place is.
pub(crate) fn number_there(at: u32, text: &LineText<'_>, most: u32) -> Result<u32, LineRefusal>
    ensures value { result ≡ read_number_at at (whole_number most text.now) }
    ensures bound { IfOk result (λ n. n ≤ most) }
{
    match word_number(text, most) {
        None => Err(LineRefusal::BadCommand { at }),
        Some(number) => Ok(number),
    }
}

/// The next word, which has to be there.
pub(crate) fn text<'a>(words: &mut WordReader<'a>) -> Result<LineText<'a>, LineRefusal>
    ensures text { result ≡ next_text words.old }
    ensures behind { OnOk result (words.new ≡ words_behind words.old) }
{
    match words.next() {
        NextWord::Word { text, .. } => Ok(text),
        NextWord::End { at } | NextWord::Faulty { at } => Err(LineRefusal::BadCommand { at }),
    }
}

/// Nothing more stands in the line.
pub(crate) fn end(words: &mut WordReader<'_>) -> Result<(), LineRefusal>
    ensures { result ≡ line_end words.old }
{
    match words.next() {
        NextWord::End { .. } => Ok(()),
        NextWord::Word { at, .. } | NextWord::Faulty { at } => Err(LineRefusal::BadCommand { at }),
    }
}

/// The next word, which has to be a number of at most `most`.
pub(crate) fn next_number(words: &mut WordReader<'_>, most: u32) -> Result<u32, LineRefusal>
    ensures number { result ≡ number_next most words.old }
    ensures bound { IfOk result (λ n. n ≤ most) }
    ensures behind { OnOk result (words.new ≡ words_behind words.old) }
{
    match words.next() {
        NextWord::Word { at, text } => number_there(at, &text, most),
        NextWord::End { at } | NextWord::Faulty { at } => Err(LineRefusal::BadCommand { at }),
    }
}

/// The next word, which has to be a number of at most 65,535.
pub(crate) fn next_small(words: &mut WordReader<'_>) -> Result<u16, LineRefusal>
    ensures number { result ≡ number_next most_small words.old }
    ensures behind { OnOk result (words.new ≡ words_behind words.old) }
{
    let number = next_number(words, u16::MAX as u32)?;
    Ok(number as u16)
}

/// The next word, which has to name a kind of request.
pub(crate) fn next_kind(words: &mut WordReader<'_>) -> Result<Kind, LineRefusal>
    ensures kind { result ≡ kind_next words.old }
    ensures behind { OnOk result (words.new ≡ words_behind words.old) }
{
    match words.next() {
        NextWord::Word { at, text } => kind_there(at, kind_of(text.as_slice())),
        NextWord::End { at } | NextWord::Faulty { at } => Err(LineRefusal::BadCommand { at }),
    }
}

/// A number at the line's end, which may be left out.
pub(crate) fn last_number(words: &mut WordReader<'_>) -> Result<Option<u32>, LineRefusal>
    ensures { result ≡ number_last words.old }
{
    match words.next() {
        NextWord::Word { at, text } => {
            let number = number_there(at, &text, u32::MAX)?;
            end(words)?;
            Ok(Some(number))
        }
        NextWord::End { .. } => Ok(None),
        NextWord::Faulty { at } => Err(LineRefusal::BadCommand { at }),
    }
}

/// The last word, which has to be there.
pub(crate) fn only_text<'a>(words: &mut WordReader<'a>) -> Result<LineText<'a>, LineRefusal>
    ensures { result ≡ text_alone words.old }
{
    let text = text(words)?;
    end(words)?;
    Ok(text)
}

/// The last word, which has to be a number.
pub(crate) fn only_number(words: &mut WordReader<'_>) -> Result<u32, LineRefusal>
    ensures { result ≡ number_alone words.old }
{
    let number = next_number(words, u32::MAX)?;
    end(words)?;
    Ok(number)
}
