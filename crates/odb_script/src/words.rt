ghost use Rattle.std.specs.Prelude.{◌≡◌, ◌+◌, ◌≤◌, ◌++◌, [], All, true, length};
ghost use Rattle.odb_script.specs.LineWords.{between, inside, quoted, words_from, line_words, closed};
ghost use Rattle.odb_script.specs.NextWords.{IsNextWord, belongs, is_gap, IsBehind};

use crate::line_text::LineText;
use daq_text::is_blank;
use std::marker::Model;

/// What a line has next.
#[derive(Drop)]
pub enum NextWord<'a> {
    /// A word, and the place of its first byte; the place of a word in quotes is that of its quote.
    Word { at: u32, text: LineText<'a> },
    /// Nothing more: the place is the line's length.
    End { at: u32 },
    /// What is no word, and the place at which it is refused: that of its first byte, or the line's length where a
    /// quote is not closed.
    Faulty { at: u32 },
}

/// Which bytes of a line stand together.
#[derive(Clone, Copy)]
enum Part {
    /// Blanks: spaces and tabs.
    Blanks,
    /// A word outside quotes: no blank and no quote.
    Plain,
    /// A word in quotes: no quote.
    Quoted,
}

/// Reads a line word by word.
#[derive(Drop)]
pub struct WordReader<'a> {
    at: u32,
    rest: &'a [u8],
}

impl<'a> Model for WordReader<'a> {
    ghost use Rattle.std.specs.Prelude.{◌+◌, ◌≤◌, length};
    ghost use Rattle.odb_script.specs.LineWords.{LineWords, between, words_from};
    ghost use Rattle.odb_script.specs.WordsStored.{words_code};

    ghost Value = { LineWords };

    ghost coded = { words_code };

    ghost view = { λ r. words_from between r.at r.rest.now };

    ghost invariant = { λ r. r.at + length r.rest.now ≤ 4096 };
}

/// Whether this byte may stand in this part.
fn belongs_to(part: Part, byte: u8) -> bool
    ensures { result ≡ belongs part byte }
{
    let blank = is_blank(byte);
    let quote = byte == b'"';
    match part {
        Part::Blanks => blank,
        Part::Plain => !(blank || quote),
        Part::Quoted => !quote,
    }
}

/// The bytes of this part in front, and what stands behind them.
fn split_part<'a>(part: Part, bytes: &'a [u8]) -> (&'a [u8], &'a [u8])
    ensures whole { bytes.now ≡ result.0.now ++ result.1.now }
    ensures front { All (λ b. belongs part b ≡ true) result.0.now }
    ensures behind { IsBehind part result.1.now }
{
    for (place, byte) in bytes.iter().enumerate() {
        if !belongs_to(part, *byte) {
            return bytes.split_at(place);
        }
    }
    bytes.split_at(bytes.len())
}

/// Whether a word may end in front of these bytes: there are none, or the first is a blank.
fn ends_word(bytes: &[u8]) -> bool
    ensures { result ≡ is_gap bytes.now }
{
    match bytes.split_first() {
        None => true,
        Some((byte, _)) => belongs_to(Part::Blanks, *byte),
    }
}

/// A word with this text, at this place.
fn word<'a>(at: u32, text: &'a [u8]) -> NextWord<'a>
    ensures { result ≡ NextWord.Word at text.now }
{
    NextWord::Word {
        at,
        text: LineText::of(text),
    }
}

/// The word outside quotes that begins here, of which the first byte is no blank and no quote.
fn plain_word<'a>(at: u32, bytes: &'a [u8]) -> (NextWord<'a>, WordReader<'a>)
    requires { at + length bytes.now ≤ 4096 }
    ensures { IsNextWord result.0 (words_from (inside at []) at bytes.now) result.1 }
{
    let (text, rest) = split_part(Part::Plain, bytes);
    let reader = WordReader {
        at: at + text.len() as u32,
        rest,
    };
    if ends_word(rest) {
        (word(at, text), reader)
    } else {
        (NextWord::Faulty { at }, reader)
    }
}

/// The word in quotes of which this text stands between the quotes, and what stands behind the closing one.
fn closed_word<'a>(
    at: u32,
    text: &'a [u8],
    behind: u32,
    rest: &'a [u8],
) -> (NextWord<'a>, WordReader<'a>)
    requires { behind + length rest.now ≤ 4096 }
    ensures { IsNextWord result.0 (words_from (closed at text.now) behind rest.now) result.1 }
{
    let reader = WordReader { at: behind, rest };
    if ends_word(rest) {
        (word(at, text), reader)
    } else {
        (NextWord::Faulty { at }, reader)
    }
}

/// The word in quotes of which the first quote stands at this place, with these bytes behind it.
fn quoted_word<'a>(at: u32, bytes: &'a [u8]) -> (NextWord<'a>, WordReader<'a>)
    requires { at + 1 + length bytes.now ≤ 4096 }
    ensures { IsNextWord result.0 (words_from (quoted at []) (at + 1) bytes.now) result.1 }
{
    let (text, rest) = split_part(Part::Quoted, bytes);
    let close = at + 1 + text.len() as u32;
    match rest.split_first() {
        None => (
            NextWord::Faulty { at: close },
            WordReader { at: close, rest },
        ),
        Some((_, behind)) => closed_word(at, text, close + 1, behind),
    }
}

/// The next word of these bytes, which begin at this place.
fn first_word<'a>(at: u32, bytes: &'a [u8]) -> (NextWord<'a>, WordReader<'a>)
    requires { at + length bytes.now ≤ 4096 }
    ensures { IsNextWord result.0 (words_from between at bytes.now) result.1 }
{
    let (blanks, rest) = split_part(Part::Blanks, bytes);
    let at = at + blanks.len() as u32;
    match rest.split_first() {
        None => (NextWord::End { at }, WordReader { at, rest }),
        Some((byte, behind)) => {
            if *byte == b'"' {
                quoted_word(at, behind)
            } else {
                plain_word(at, rest)
            }
        }
    }
}

impl<'a> WordReader<'a> {
    /// A reader of a line, which has at most 4,096 bytes.
    #[tactic(auto, unfolding(crate::specs::LineWords::line_words))]
    pub fn new(line: &'a [u8]) -> WordReader<'a>
        requires { length line.now ≤ 4096 }
        ensures { result ≡ line_words line.now }
    {
        WordReader { at: 0, rest: line }
    }

    /// The next word.
    pub fn next(&mut self) -> NextWord<'a>
        ensures { IsNextWord result self.old self.new }
    {
        let (word, reader) = first_word(self.at, self.rest);
        *self = reader;
        word
    }
}
