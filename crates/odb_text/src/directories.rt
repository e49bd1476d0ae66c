ghost use Rattle.std.specs.Prelude.{◌≡◌, ◌≢◌, ℕ, List, OnOk, OnErr, IfOk, IfSome, IfNone};
ghost use Rattle.odb_text.specs.LineForms.{IsDirLine};

use crate::words::{are_blanks, in_brackets};
use daq_types::NoMemory;
use odb_value::{Path, PathRefusal};
use std::alloc::Global;

/// That a refused path's text has a fault, or that memory was wanting.
fn has_fault(refusal: PathRefusal) -> Result<(), NoMemory>
    ensures fault { OnOk result (refusal ≢ PathRefusal.NoMemory) }
    ensures memory { OnErr result (refusal ≡ PathRefusal.NoMemory) }
{
    match refusal {
        PathRefusal::NoMemory => Err(NoMemory),
        _ => Ok(()),
    }
}

/// The path of the line of a directory, `[PATH]` with blanks behind it; None exactly where the line is none.
pub fn read_dir_line(alloc: Global, line: &[u8]) -> Result<Option<Path>, NoMemory>
    ensures some { IfOk result (λ found. IfSome found (IsDirLine line.now)) }
    ensures none { IfOk result (λ found. IfNone found ((p : List (List ℕ))
        → IsDirLine line.now p → ⊥)) }
    ensures memory { OnErr result ((p : List (List ℕ)) × IsDirLine line.now p) }
{
    let Some((text, behind)) = in_brackets(line) else {
        return Ok(None);
    };
    if !are_blanks(behind) {
        return Ok(None);
    }
    match Path::read(alloc, text) {
        Ok(path) => Ok(Some(path)),
        Err(refusal) => {
            has_fault(refusal)?;
            Ok(None)
        }
    }
}
