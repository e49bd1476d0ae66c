ghost use Rattle.std.specs.Prelude.{◌≡◌, ◌≤◌, ◌+◌, ◌-◌, ◌++◌, ◌∷◌, [], drop, length};
ghost use Rattle.midas_tools.specs.Printing.{line_room};
ghost use Rattle.midas_tools.specs.Texts.{number_text, type_text};

use daq_types::Tid;
use itoa::write_digits;
use std::marker::Model;

/// The most bytes that a line has: that of an event, with five numbers of at most 20 digits, has 111.
pub const LINE_BYTES: usize = 128;

/// A line, which is made from its end to its front: its end stands first, and each part is put in front of what stands.
/// Takes no memory.
#[derive(Drop)]
pub struct Line {
    bytes: [u8; LINE_BYTES],
    start: usize,
}

impl Model for Line {
    ghost use Rattle.std.specs.Prelude.{◌≤◌, ℕ, List, drop};
    ghost use Rattle.midas_tools.specs.Printing.{line_room};

    ghost Value = { List ℕ };

    ghost view = { λ l. drop l.start l.bytes };

    ghost invariant = { λ l. l.start ≤ line_room };
}

/// Writes a text so that it ends at this place.
fn write_before(bytes: &mut [u8], end: usize, text: &[u8])
    requires room { length text.now ≤ end }
    requires inside { end ≤ length bytes.old }
    ensures { drop (end - length text.now) bytes.new ≡ text.now ++ drop end bytes.old }
{
    let (front, _) = bytes.split_at_mut(end);
    let (_, place) = front.split_at_mut(end - text.len());
    place.copy_from_slice(text);
}

/// Writes a blank and a number so that they end at this place, and answers where they begin.
fn write_number(bytes: &mut [u8], end: usize, number: u64) -> usize
    requires room { 21 ≤ end }
    requires inside { end ≤ length bytes.old }
    ensures written { drop result bytes.new ≡ number_text number ++ drop end bytes.old }
    ensures below { result ≤ end }
    ensures short { end ≤ result + 21 }
{
    let start = write_digits(number, bytes, end) - 1;
    bytes[start] = b' ';
    start
}

impl Line {
    /// The end of a line.
    pub fn new() -> Line
        ensures { result ≡ 10 ∷ [] }
    {
        Line {
            bytes: [b'\n'; LINE_BYTES],
            start: LINE_BYTES - 1,
        }
    }

    /// Nothing: what is made of it ends as it is put.
    pub fn empty() -> Line
        ensures { result ≡ [] }
    {
        Line {
            bytes: [b'\n'; LINE_BYTES],
            start: LINE_BYTES,
        }
    }

    /// The line as far as it is made.
    pub fn as_slice(&self) -> &[u8]
        ensures made { result.now ≡ self.now }
        ensures short { length result.now ≤ line_room }
    {
        let (_, made) = self.bytes.split_at(self.start);
        made
    }

    /// Puts these bytes in front.
    pub fn put(&mut self, text: &[u8])
        requires { length text.now + length self.old ≤ line_room }
        ensures { self.new ≡ text.now ++ self.old }
    {
        write_before(&mut self.bytes, self.start, text);
        self.start -= text.len();
    }

    /// Puts a blank and a number in front.
    #[inline(always)]
    pub fn blank_number(&mut self, number: u64)
        requires { length self.old + 21 ≤ line_room }
        ensures added { self.new ≡ number_text number ++ self.old }
        ensures short { length self.new ≤ length self.old + 21 }
    {
        self.start = write_number(&mut self.bytes, self.start, number);
    }

    /// Puts a name, a blank and a number in front.
    pub fn named(&mut self, name: &[u8], number: u64)
        requires { length name.now + length self.old + 21 ≤ line_room }
        ensures added { self.new ≡ (name.now ++ number_text number) ++ self.old }
        ensures short { length self.new ≤ length name.now + length self.old + 21 }
    {
        self.blank_number(number);
        self.put(name);
    }

    /// Puts a blank and a type's name in front, or a blank and its number where it has no name.
    pub fn blank_type(&mut self, code: u32)
        requires { length self.old + 21 ≤ line_room }
        ensures added { self.new ≡ (32 ∷ type_text code) ++ self.old }
        ensures short { length self.new ≤ length self.old + 21 }
    {
        match Tid::from_code(code) {
            Some(tid) => {
                self.put(tid.name().as_bytes());
                self.put(b" ");
            }
            None => self.blank_number(code as u64),
        }
    }
}
