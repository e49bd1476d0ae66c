ghost use Rattle.std.specs.Prelude.{◌≡◌, ◌≤◌, ◌+◌, ◌-◌, ◌++◌, ◌↔◌, IsOk, IfOk, OnOk, IsSome, IfSome, IsTrue, IsFalse, length, replicate};
ghost use Rattle.std.specs.Fmt.{decimal};
ghost use Rattle.daq_types.specs.Names.{IsFileName};
ghost use Rattle.sub_files.specs.Patterns.{HasNoPercent, IsFirstPercent, IsSplit, HasSign, IsPattern, IsPatternText, IsTextOf, IsPatternBehind, HasPattern, plain_parts, numbered_parts, piece_name_by};

use arrayvec::ArrayVec;
use daq_types::{BadFileName, FileName};
use itoa::Buffer;
use std::marker::Model;

/// The bytes of a file's name.
type NameBytes = ArrayVec<u8, 255>;

/// A pattern for the names of a channel's run files: a text with `%05d` in it, where the run number stands in at least
/// five digits with zeros in front, and behind that perhaps with `%04d`, where the file's number stands so in four. With ten
/// digits and four there it is the name of a file, and it has no other `%`.
#[derive(Drop)]
pub struct Pattern {
    front: NameBytes,
    middle: NameBytes,
    back: Option<NameBytes>,
}

/// The text is no pattern.
#[derive(Clone, Copy, Debug, PartialEq, Eq)]
pub struct BadPattern;

impl Model for Pattern {
    ghost use Rattle.std.specs.Option.{option_map};
    ghost use Rattle.sub_files.specs.Patterns.{NamePattern, IsPattern, parts_of};

    ghost Value = { NamePattern };

    ghost view = { λ p. parts_of p.front.items p.middle.items (option_map (λ b. b.items) p.back) };

    ghost invariant = { λ p. IsPattern
        (parts_of p.front.items p.middle.items (option_map (λ b. b.items) p.back)) };
}

/// The place of the first `%`; the length where there is none.
fn first_percent(text: &[u8]) -> usize
    ensures { IsFirstPercent text.now result }
{
    for (place, byte) in text.iter().enumerate() {
        if *byte == b'%' {
            return place;
        }
    }
    text.len()
}

/// Appends the bytes, exactly where they fit into a name.
fn extend_name(name: &mut NameBytes, bytes: &[u8]) -> Result<(), BadFileName>
    ensures fits { IsOk result ↔ (length name.old.items + length bytes.now ≤ 255) }
    ensures items { OnOk result (name.new.items ≡ name.old.items ++ bytes.now) }
{
    match name.try_extend_from_slice(bytes) {
        Ok(()) => Ok(()),
        Err(_) => Err(BadFileName),
    }
}

/// The name of a file that has these three parts, exactly where that is one.
fn plain_name(front: &[u8], run: &[u8], middle: &[u8]) -> Result<FileName, BadFileName>
    ensures exact { IsOk result ↔ IsFileName (front.now ++ (run.now ++ middle.now)) }
    ensures name { IfOk result (λ name. name ≡ front.now ++ (run.now ++ middle.now)) }
{
    let mut name = ArrayVec::new();
    extend_name(&mut name, front)?;
    extend_name(&mut name, run)?;
    extend_name(&mut name, middle)?;
    FileName::from_bytes(name.as_slice())
}

/// The name of a file that has these five parts, exactly where that is one.
fn numbered_name(
    front: &[u8],
    run: &[u8],
    middle: &[u8],
    number: &[u8],
    back: &[u8],
) -> Result<FileName, BadFileName>
    ensures exact { IsOk result ↔ IsFileName
        (front.now ++ (run.now ++ (middle.now ++ (number.now ++ back.now)))) }
    ensures name { IfOk result (λ name. name
        ≡ front.now ++ (run.now ++ (middle.now ++ (number.now ++ back.now)))) }
{
    let mut name = ArrayVec::new();
    extend_name(&mut name, front)?;
    extend_name(&mut name, run)?;
    extend_name(&mut name, middle)?;
    extend_name(&mut name, number)?;
    extend_name(&mut name, back)?;
    FileName::from_bytes(name.as_slice())
}

/// The parts of a text in front of its first percent sign and behind the sign for a number that stands there, exactly where
/// one with this digit does.
fn split_sign(text: &[u8], digit: u8) -> Option<(&[u8], &[u8])>
    ensures exact { IsSome result ↔ HasSign text.now digit }
    ensures parts { IfSome result
        (λ parts. IsSplit text.now digit parts.0.now parts.1.now) }
{
    let (front, rest) = text.split_at(first_percent(text));
    let sign = [b'%', b'0', digit, b'd'];
    match rest.strip_prefix(sign.as_slice()) {
        Some(back) => Some((front, back)),
        None => None,
    }
}

/// Whether a percent sign stands in the text.
fn has_percent(text: &[u8]) -> bool
    ensures found { IsTrue result → ¬ HasNoPercent text.now }
    ensures none { IsFalse result → HasNoPercent text.now }
{
    first_percent(text) < text.len()
}

/// The pattern with these two parts and no place for a file's number, exactly where that is one.
fn plain_pattern(front: &[u8], middle: &[u8]) -> Result<Pattern, BadPattern>
    requires free { HasNoPercent front.now }
    ensures exact { IsOk result ↔ IsPattern (plain_parts front.now middle.now) }
    ensures parts { IfOk result (λ pattern. pattern ≡ plain_parts front.now middle.now) }
{
    if has_percent(middle) {
        return Err(BadPattern);
    }
    match plain_name(front, b"0000000000", middle) {
        Ok(_) => Ok(Pattern::with_parts(front, middle)),
        Err(_) => Err(BadPattern),
    }
}

/// The pattern with these three parts, with a place for the file's number behind the second, exactly where that is one.
fn numbered_pattern(front: &[u8], middle: &[u8], back: &[u8]) -> Result<Pattern, BadPattern>
    requires front { HasNoPercent front.now }
    requires middle { HasNoPercent middle.now }
    ensures exact { IsOk result ↔ IsPattern (numbered_parts front.now middle.now back.now) }
    ensures parts { IfOk result
        (λ pattern. pattern ≡ numbered_parts front.now middle.now back.now) }
{
    if has_percent(back) {
        return Err(BadPattern);
    }
    match numbered_name(front, b"0000000000", middle, b"0000", back) {
        Ok(_) => Ok(Pattern {
            front: held(front),
            middle: held(middle),
            back: Some(held(back)),
        }),
        Err(_) => Err(BadPattern),
    }
}

/// The pattern that has this in front of the run number and whose text has this rest behind it, exactly where there is one.
fn pattern_behind(front: &[u8], rest: &[u8], limited: bool) -> Result<Pattern, BadPattern>
    requires free { HasNoPercent front.now }
    ensures exact { IsOk result ↔ HasPattern front.now rest.now limited }
    ensures pattern { IfOk result
        (λ pattern. IsPatternBehind front.now rest.now limited pattern) }
{
    if !limited {
        return plain_pattern(front, rest);
    }
    match split_sign(rest, b'4') {
        Some((middle, back)) => numbered_pattern(front, middle, back),
        None => Err(BadPattern),
    }
}

/// The bytes, held in place.
fn held(bytes: &[u8]) -> NameBytes
    requires { length bytes.now ≤ 255 }
    ensures { result.items ≡ bytes.now }
{
    let mut held = ArrayVec::new();
    let _ = held.try_extend_from_slice(bytes);
    held
}

impl Pattern {
    /// The pattern with this text, exactly where the text is one: with a place for the file's number where `limited` holds, and
    /// without one where it does not.
    pub fn new(text: &str, limited: bool) -> Result<Pattern, BadPattern>
        ensures exact { IsOk result ↔ IsPatternText text.now limited }
        ensures pattern { IfOk result (λ pattern. IsTextOf text.now limited pattern) }
    {
        Pattern::from_bytes(text.as_bytes(), limited)
    }

    /// The pattern with these bytes, exactly where they are the text of one.
    pub fn from_bytes(text: &[u8], limited: bool) -> Result<Pattern, BadPattern>
        ensures exact { IsOk result ↔ IsPatternText text.now limited }
        ensures pattern { IfOk result (λ pattern. IsTextOf text.now limited pattern) }
    {
        match split_sign(text, b'5') {
            Some((front, rest)) => pattern_behind(front, rest, limited),
            None => Err(BadPattern),
        }
    }

    /// The pattern with these bytes in front of the run number and these behind it, and no place for the file's number.
    pub fn with_parts(front: &[u8], middle: &[u8]) -> Pattern
        requires { IsPattern (plain_parts front.now middle.now) }
        ensures { result ≡ plain_parts front.now middle.now }
    {
        Pattern {
            front: held(front),
            middle: held(middle),
            back: None,
        }
    }

    /// The same pattern again. Takes no memory.
    pub fn copy(&self) -> Pattern
        ensures { result ≡ self.now }
    {
        Pattern {
            front: held(self.front.as_slice()),
            middle: held(self.middle.as_slice()),
            back: match &self.back {
                Some(back) => Some(held(back.as_slice())),
                None => None,
            },
        }
    }

    /// The name of the file of this number in the run of this number. A pattern without a place for the file's number gives
    /// each file of a run the same name.
    pub fn name(&self, run: u32, sub: u32) -> FileName
        requires { sub ≤ 9999 }
        ensures { result ≡ piece_name_by self.now run sub }
    {
        let front = self.front.as_slice();
        let middle = self.middle.as_slice();
        let digits = digits_of(run, 5);
        match &self.back {
            None => match plain_name(front, digits.as_slice(), middle) {
                Ok(name) => name,
                Err(_) => unreachable!(),
            },
            Some(back) => {
                let number = digits_of(sub, 4);
                match numbered_name(
                    front,
                    digits.as_slice(),
                    middle,
                    number.as_slice(),
                    back.as_slice(),
                ) {
                    Ok(name) => name,
                    Err(_) => unreachable!(),
                }
            }
        }
    }
}

/// The number in decimal digits, with zeros in front where there are fewer than these.
fn digits_of(number: u32, least: usize) -> ArrayVec<u8, 40>
    requires { least ≤ 5 }
    ensures { result.items ≡ replicate (least - length (decimal number)) 48 ++ decimal number }
{
    let mut buffer = Buffer::new();
    let text = buffer.format(number).as_bytes();
    let mut digits = ArrayVec::new();
    let _ = digits.try_extend_from_slice(&b"00000"[..least.saturating_sub(text.len())]);
    let _ = digits.try_extend_from_slice(text);
    digits
}
