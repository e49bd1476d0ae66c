ghost use Rattle.std.specs.Prelude.{◌≡◌, ◌∷◌, ◌++◌, [], take, OnOk, OnErr};
ghost use Rattle.std.specs.Fmt.{decimal, signed_decimal};

use daq_types::NoMemory;
use itoa::Buffer;
use std::alloc::Global;
use std::marker::Model;

/// A text that grows at its end, before it is written. One that is used again takes no memory for as much text as it
/// had before.
#[derive(Drop)]
pub struct TextBuffer {
    bytes: Vec<u8>,
}

impl Model for TextBuffer {
    ghost use Rattle.std.specs.Prelude.{List, ℕ};

    ghost Value = { List ℕ };

    ghost view = { λ t. t.bytes.items };
}

impl TextBuffer {
    /// An empty text. Takes no memory.
    pub fn new(alloc: Global) -> TextBuffer
        ensures { result ≡ [] }
    {
        TextBuffer {
            bytes: Vec::new(alloc),
        }
    }

    /// The bytes of the text.
    pub fn as_slice(&self) -> &[u8]
        ensures { result.now ≡ self.now }
    {
        self.bytes.as_slice()
    }

    /// The bytes of the text, for themselves. Takes no memory.
    pub fn into_vec(self) -> Vec<u8>
        ensures { result.items ≡ self }
    {
        let TextBuffer { bytes } = self;
        bytes
    }

    /// Begins anew.
    pub fn clear(&mut self)
        ensures { self.new ≡ [] }
    {
        self.bytes.clear();
    }

    /// Takes away all but so many bytes in front. A text that is no longer stays as it is.
    pub fn truncate(&mut self, len: usize)
        ensures { self.new ≡ take len self.old }
    {
        self.bytes.truncate(len);
    }

    /// These bytes more.
    pub fn text(&mut self, bytes: &[u8]) -> Result<(), NoMemory>
        ensures added { OnOk result (self.new ≡ self.old ++ bytes.now) }
        ensures kept { OnErr result (self.new ≡ self.old) }
    {
        self.bytes.extend_from_slice(bytes)?;
        Ok(())
    }

    /// This number more, in decimal digits.
    pub fn number(&mut self, number: u64) -> Result<(), NoMemory>
        ensures added { OnOk result (self.new ≡ self.old ++ decimal number) }
        ensures kept { OnErr result (self.new ≡ self.old) }
    {
        let mut digits = Buffer::new();
        self.text(digits.format(number).as_bytes())
    }

    /// This number more, in decimal digits, with a minus in front where it is below 0.
    pub fn signed(&mut self, value: i128) -> Result<(), NoMemory>
        ensures added { OnOk result (self.new ≡ self.old ++ signed_decimal value) }
        ensures kept { OnErr result (self.new ≡ self.old) }
    {
        let mut digits = Buffer::new();
        self.text(digits.format(value).as_bytes())
    }

    /// A blank and this number more. Without memory the blank may be there already.
    pub fn blank_number(&mut self, number: u64) -> Result<(), NoMemory>
        ensures { OnOk result (self.new ≡ self.old ++ 32 ∷ decimal number) }
    {
        self.text(b" ")?;
        self.number(number)
    }

    /// The end of a line.
    pub fn end_line(&mut self) -> Result<(), NoMemory>
        ensures added { OnOk result (self.new ≡ self.old ++ 10 ∷ []) }
        ensures kept { OnErr result (self.new ≡ self.old) }
    {
        self.text(b"\n")
    }
}
