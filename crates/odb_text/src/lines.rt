ghost use Rattle.std.specs.Prelude.{◌≡◌, ◌<◌, ◌∷◌, [], length, IfSome, IfNone};
ghost use Rattle.std.specs.Str.Lines.{lines, strip_carriage_return};

use crate::words::split_once;

/// The line without the carriage return at its end, if there is one.
fn without_return(line: &[u8]) -> &[u8]
    ensures { result.now ≡ strip_carriage_return line.now }
{
    match line.split_last() {
        Some((b'\r', others)) => others,
        _ => line,
    }
}

/// The first line of a text, without its end, and the text behind it; None exactly for a text without lines. A line
/// ends with 0x0A, or 0x0D and 0x0A; the last one may have no end.
pub fn split_line(text: &[u8]) -> Option<(&[u8], &[u8])>
    ensures some { IfSome result (λ parts. lines text.now ≡ parts.0.now ∷ lines parts.1.now) }
    ensures shorter { IfSome result (λ parts. length parts.1.now < length text.now) }
    ensures none { IfNone result (lines text.now ≡ []) }
{
    if text.is_empty() {
        return None;
    }
    match split_once(text, b'\n') {
        None => Some(text.split_at(text.len())),
        Some((line, rest)) => Some((without_return(line), rest)),
    }
}
