ghost use Rattle.std.specs.Prelude.{◌↔◌, IsTrue};
ghost use Rattle.odb_text.specs.LineForms.{IsPassed};

use crate::words::are_blanks;

/// Whether the line is passed over: it is empty, has blanks alone, or begins with a semicolon.
pub fn is_passed(line: &[u8]) -> bool
    ensures { IsTrue result ↔ IsPassed line.now }
{
    match line {
        [b';', ..] => true,
        line => are_blanks(line),
    }
}
