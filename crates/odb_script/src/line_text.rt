ghost use Rattle.std.specs.Prelude.{◌≡◌};

use std::marker::Model;

/// A word of a script's line, without quotes. It borrows the line.
#[derive(Drop)]
pub struct LineText<'a> {
    bytes: &'a [u8],
}

impl<'a> Model for LineText<'a> {
    ghost use Rattle.std.specs.Prelude.{List, ℕ};

    ghost Value = { List ℕ };

    ghost view = { λ t. t.bytes.now };
}

impl<'a> LineText<'a> {
    /// These bytes of a line.
    pub fn of(bytes: &'a [u8]) -> LineText<'a>
        ensures { result ≡ bytes.now }
    {
        LineText { bytes }
    }

    /// The bytes of the word.
    pub fn as_slice(&self) -> &'a [u8]
        ensures { result.now ≡ self.now }
    {
        self.bytes
    }
}
