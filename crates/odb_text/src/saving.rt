ghost use Rattle.std.specs.Prelude.{◌≡◌, ◌≤◌, ◌++◌, IfOk, OnOk, length};
ghost use Rattle.odb_tree.specs.Databases.{IsDatabase};
ghost use Rattle.odb_text.specs.Dumps.{dump_text, dump_limit};

use crate::dump::{add_dirs, add_root};
use daq_text::TextBuffer;
use daq_types::{Bytes, NoMemory};
use odb_tree::Database;
use odb_value::{MAX_DEPTH, Path};
use std::alloc::Global;

/// Adds the text of a database.
fn add_database<D: Database>(
    alloc: Global,
    database: &D,
    text: &mut TextBuffer,
) -> Result<(), NoMemory>
    ensures added { OnOk result (text.new ≡ text.old ++ dump_text (D.rows database.now)) }
    ensures database { OnOk result (IsDatabase (D.rows database.now)) }
{
    add_root(alloc, database, text)?;
    add_dirs(alloc, database, &Path::root(alloc), MAX_DEPTH as u32, text)
}

/// The text of a database: for each directory, from the root down, its line, the lines of its keys and an empty line,
/// and then the directories in it. The root has a line only where keys stand in it.
/// It has at most 268,435,456 bytes.
#[tactic(auto, using(crate::proofs::Sizes::dump_small))]
pub fn save<D: Database>(alloc: Global, database: &D) -> Result<Bytes, NoMemory>
    ensures text { IfOk result (λ bytes. bytes ≡ dump_text (D.rows database.now)) }
    ensures small { IfOk result (λ bytes. length bytes ≤ dump_limit) }
{
    let mut text = TextBuffer::new(alloc);
    add_database(alloc, database, &mut text)?;
    Ok(Bytes::of(text.into_vec()))
}
