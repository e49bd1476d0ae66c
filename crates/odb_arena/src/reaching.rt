ghost use Rattle.std.specs.Prelude.{◌≡◌, ◌↔◌, IsTrue};
ghost use Rattle.odb_arena.specs.Reaching.{obstacle_met};

use daq_types::Name;
use odb_tree::OdbRefusal;

/// How far directories lead along some names.
#[derive(Clone, Copy, Debug)]
pub struct Reached {
    /// The number of the directory that they lead to; the root has 0.
    pub at: u32,
    /// So many names were passed.
    pub depth: usize,
    /// Whether a key has the next name. Where there is a next name and none blocks it, nothing has it.
    pub blocked: bool,
}

impl Reached {
    /// The obstacle on the way along so many names; `missing` where a directory is missing.
    pub fn obstacle(&self, len: usize, missing: Option<OdbRefusal>) -> Option<OdbRefusal>
        ensures { result ≡ obstacle_met self.now len missing }
    {
        if self.depth == len {
            return None;
        }
        if self.blocked {
            Some(OdbRefusal::NotDir)
        } else {
            missing
        }
    }
}

/// Whether two paths have the same names, as they are spelled.
pub fn is_spelled(a: &[Name], b: &[Name]) -> bool
    ensures { IsTrue result ↔ (a.now ≡ b.now) }
{
    if a.len() != b.len() {
        return false;
    }
    for i in 0..a.len() {
        if a[i].as_slice() != b[i].as_slice() {
            return false;
        }
    }
    true
}
