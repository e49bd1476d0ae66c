ghost use Rattle.std.specs.Prelude.{◌≡◌, Err, IfOk, IsOk, IsSome, OnErr, codes, length, slice_get};
ghost use Rattle.odb_value.specs.Paths.{same_name};
ghost use Rattle.odb_value.specs.PathText.{path_reply};
ghost use Rattle.odb_tree.specs.declared.refusals.OdbRefusal.TheVariants.{NoMemory as no_memory};
ghost use Rattle.odb_watch.specs.DatabasePorts.{IsSettled};
ghost use Rattle.odb_commands.specs.Answers.{is_protected, item_for, one_or};

use crate::replies::{CommandRefusal, CommandReply};
use daq_types::{Name, NoMemory};
use odb_tree::OdbRefusal;
use odb_value::{Item, ItemRefusal, Path, PathRefusal, Value, parse_item};
use std::alloc::Global;

/// What the database answered, where memory was not wanting.
pub fn settled<T: Drop>(reply: Result<T, OdbRefusal>) -> Result<Result<T, OdbRefusal>, NoMemory>
    ensures same { IfOk result (λ settled. settled ≡ reply) }
    ensures wanted { IfOk result (λ settled. IsSettled settled) }
    ensures memory { OnErr result (reply ≡ Err no_memory) }
{
    match reply {
        Ok(value) => Ok(Ok(value)),
        Err(OdbRefusal::NoMemory) => Err(NoMemory),
        Err(refusal) => Ok(Err(refusal)),
    }
}

/// The path of a text, or why it is none. Memory is wanting only where it is one.
pub fn read_path(alloc: Global, text: &[u8]) -> Result<Result<Path, PathRefusal>, NoMemory>
    ensures path { IfOk result (λ path. path ≡ path_reply text.now) }
    ensures memory { OnErr result (IsOk (path_reply text.now)) }
{
    match Path::read(alloc, text) {
        Ok(path) => Ok(Ok(path)),
        Err(PathRefusal::NoMemory) => Err(NoMemory),
        Err(why) => Ok(Err(why)),
    }
}

/// The item that a text gives a key with this value, at this index, or why it gives none. Memory is wanting only where it
/// gives one.
pub(crate) fn item_for(
    alloc: Global,
    value: &Value,
    index: u32,
    text: &[u8],
) -> Result<Result<Item, CommandRefusal>, NoMemory>
    ensures item { IfOk result (λ item. item ≡ item_for value.now index text.now) }
    ensures memory { OnErr result (IsOk (item_for value.now index text.now)) }
{
    let len = value.items().len();
    if index as usize >= len {
        let why = OdbRefusal::BadIndex { len: len as u32 };
        return Ok(Err(CommandRefusal::Database { why }));
    }
    match parse_item(alloc, value.tid(), text) {
        Ok(item) => Ok(Ok(item)),
        Err(ItemRefusal::NoMemory) => Err(NoMemory),
        Err(why) => Ok(Err(CommandRefusal::Item { why })),
    }
}

/// The reply with one item of this value.
pub(crate) fn one_of(alloc: Global, value: &Value, index: u32) -> Result<CommandReply, NoMemory>
    ensures reply { IfOk result (λ reply. reply ≡ one_or (length value.now.items)
        (slice_get value.now.items index)) }
    ensures memory { OnErr result (IsSome (slice_get value.now.items index)) }
{
    let items = value.items();
    match items.get(index as usize) {
        Some(item) => {
            let item = item.try_clone(alloc)?;
            Ok(CommandReply::One { item })
        }
        None => {
            let why = OdbRefusal::BadIndex {
                len: items.len() as u32,
            };
            let why = CommandRefusal::Database { why };
            Ok(CommandReply::Refused { why })
        }
    }
}

/// Whether this is the name of the directory of the run's parameters.
fn is_runinfo(name: &Name) -> bool
    ensures { result ≡ same_name name.now (codes "Runinfo") }
{
    name.as_slice().eq_ignore_ascii_case(b"Runinfo".as_slice())
}

/// Whether the row at a path is not to be removed: the root, `/Runinfo`, and all below it.
pub(crate) fn is_protected(names: &[Name]) -> bool
    ensures { result ≡ is_protected names.now }
{
    match names {
        [] => true,
        [name, ..] => is_runinfo(name),
    }
}
