ghost use Rattle.std.specs.Prelude.{◌≡◌, ◌↔◌, [], IsTrue, IsSome, IfSome, IfNone, IfOk, not, position};
ghost use Rattle.odb_value.specs.ItemBytes.{is_char_byte, is_text_byte, IsText};

use daq_types::{Bytes, NoMemory};
use std::alloc::Global;
use std::marker::Model;

/// The byte of a CHAR: 0 for none, or 0x20 to 0x7E.
#[derive(Clone, Copy, Debug)]
pub struct CharByte {
    byte: u8,
}

impl Model for CharByte {
    ghost use Rattle.std.specs.Prelude.{ℕ, IsTrue};
    ghost use Rattle.odb_value.specs.ItemBytes.{is_char_byte};

    ghost Value = { ℕ };

    ghost view = { λ c. c.byte };

    ghost invariant = { λ c. IsTrue (is_char_byte c.byte) };

    ghost inverse = { λ n. record { byte = n } };
}

impl CharByte {
    /// The CHAR with this byte; None exactly where the byte is none of a CHAR.
    pub fn new(byte: u8) -> Option<CharByte>
        ensures exact { IsSome result ↔ IsTrue (is_char_byte byte) }
        ensures byte { IfSome result (λ c. c ≡ byte) }
    {
        if byte == 0 || 32 <= byte && byte <= 126 {
            Some(CharByte { byte })
        } else {
            None
        }
    }

    /// The CHAR of no byte, which is 0.
    pub fn none() -> CharByte
        ensures { result ≡ 0 }
    {
        CharByte { byte: 0 }
    }

    /// The byte.
    pub fn get(&self) -> u8
        ensures byte { result ≡ self.now }
        ensures is_char { IsTrue (is_char_byte self.now) }
    {
        self.byte
    }
}

/// The bytes of a STRING's text: tabs, 0x20 to 0x7E and 0x80 to 0xFF.
#[derive(Drop)]
pub struct TextBytes {
    bytes: Bytes,
}

impl Model for TextBytes {
    ghost use Rattle.std.specs.Prelude.{List, ℕ};
    ghost use Rattle.odb_value.specs.ItemBytes.{IsText};

    ghost Value = { List ℕ };

    ghost view = { λ t. t.bytes };

    ghost invariant = { λ t. IsText t.bytes };
}

impl TextBytes {
    /// The text with these bytes. Takes no memory.
    pub fn of(bytes: Vec<u8>) -> TextBytes
        requires { IsText bytes.items }
        ensures { result ≡ bytes.items }
    {
        TextBytes {
            bytes: Bytes::of(bytes),
        }
    }

    /// The place of the first byte that no text has; None exactly for the bytes of a text.
    pub fn bad_place(bytes: &[u8]) -> Option<usize>
        ensures place { result ≡ position (λ b. not (is_text_byte b)) bytes.now }
        ensures none { IfNone result (IsText bytes.now) }
    {
        bytes.iter().position(|byte| !(*byte == 9 || 32 <= *byte && *byte <= 126 || 128 <= *byte))
    }

    /// The empty text. Takes no memory.
    pub fn empty(alloc: Global) -> TextBytes
        ensures { result ≡ [] }
    {
        TextBytes::of(Vec::new(alloc))
    }

    /// The bytes.
    pub fn as_slice(&self) -> &[u8]
        ensures bytes { result.now ≡ self.now }
        ensures is_text { IsText self.now }
    {
        self.bytes.as_slice()
    }

    /// The same text once more.
    pub fn try_clone(&self, alloc: Global) -> Result<TextBytes, NoMemory>
        ensures { IfOk result (λ text. text ≡ self.now) }
    {
        let bytes = self.bytes.as_slice().to_vec(alloc)?;
        Ok(TextBytes::of(bytes))
    }
}
