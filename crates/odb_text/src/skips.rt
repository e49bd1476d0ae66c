ghost use Rattle.std.specs.Prelude.{◌+◌, ◌≤◌, ◌<◌, length, IfSome, IfNone, IfOk, IfErr};
ghost use Rattle.std.specs.Str.Lines.{lines};
ghost use Rattle.odb_text.specs.Grammar.{BeginsBracketed};
ghost use Rattle.odb_text.specs.TextFaults.{NextIsNot};
ghost use Rattle.odb_text.specs.Blocks.{AreSkipped, SkipsLine, SkipsOnlyTo};

use crate::{bracketed, split_line};

/// The text behind its first line, where that begins with a number in brackets.
fn behind_bracketed(text: &[u8]) -> Option<&[u8]>
    ensures some { IfSome result (λ rest. SkipsLine (lines text.now) (lines rest.now)) }
    ensures shorter { IfSome result (λ rest. length rest.now < length text.now) }
    ensures none { IfNone result (NextIsNot BeginsBracketed (lines text.now)) }
{
    match split_line(text) {
        None => None,
        Some((line, rest)) => match bracketed(line) {
            None => None,
            Some(_) => Some(rest),
        },
    }
}

/// The text behind so many lines, each of which begins with a number in brackets; else the place of the first that does
/// not, or is not there.
pub fn skip_items(count: u32, text: &[u8]) -> Result<&[u8], u32>
    ensures skipped { IfOk result (λ rest. AreSkipped (lines text.now) count (lines rest.now)) }
    ensures shorter { IfOk result (λ rest. length rest.now + count ≤ length text.now) }
    ensures fault { IfErr result (SkipsOnlyTo (lines text.now) count) }
{
    let mut rest = text;
    for index in 0..count {
        match behind_bracketed(rest) {
            None => return Err(index),
            Some(behind) => rest = behind,
        }
    }
    Ok(rest)
}
