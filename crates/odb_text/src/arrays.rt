ghost use Rattle.std.specs.Prelude.{◌≡◌, ◌+◌, ◌≤◌, ◌<◌, length, IfErr, IfOk, OnOk};
ghost use Rattle.std.specs.Str.Lines.{lines};
ghost use Rattle.odb_value.specs.Items.{tid_of};
ghost use Rattle.odb_value.specs.Values.{items_limit, size_limit, IsShorter};
ghost use Rattle.odb_value.specs.ValueChanges.{size_with_item};
ghost use Rattle.odb_text.specs.Blocks.{AreRead, ReadsItem, TakesItem, IsTakeFault, IsItemFault, StopsAtItem};

use crate::faults::ItemsFault;
use crate::{ReadItem, item_line, split_line};
use daq_types::Tid;
use odb_value::Item;
use std::alloc::Global;

/// Items of an array, read so far.
#[derive(Drop)]
pub struct ItemsSoFar<'a> {
    pub items: Vec<Item>,
    /// The greatest of the sizes given, and of the lengths of the texts plus 1.
    pub size: u64,
    /// The text behind their lines.
    pub rest: &'a [u8],
}

/// The item size that an item wants for which this size is given.
fn wanted_size(given: u64, item: &Item) -> u64
    requires { IsShorter size_limit item.now }
    ensures { result ≡ size_with_item given item.now }
{
    match item {
        Item::Text(text) => given.max(text.as_slice().len() as u64 + 1),
        _ => given,
    }
}

/// Adds an item whose line stands in front of this text.
pub fn take_item<'a>(
    tid: Tid,
    read: ReadItem,
    behind: &'a [u8],
    so_far: &mut ItemsSoFar<'a>,
) -> Result<(), ItemsFault>
    requires of_type { tid_of read.item ≡ tid }
    requires short { IsShorter size_limit read.item }
    ensures taken { OnOk result
        (TakesItem tid read.size read.item so_far.old.items.items so_far.old.size
        so_far.new.items.items so_far.new.size) }
    ensures rest { OnOk result (so_far.new.rest.now ≡ behind.now) }
    ensures fault { IfErr result (IsTakeFault read.size) }
{
    let _ = read.item.tid();
    match read.size {
        None => Err(ItemsFault::WideItem),
        Some(given) => {
            so_far.size = so_far.size.max(wanted_size(given, &read.item));
            so_far.items.push(read.item)?;
            so_far.rest = behind;
            Ok(())
        }
    }
}

/// Reads the line of the next item, which has this index.
fn read_next<'a>(
    alloc: Global,
    tid: Tid,
    index: u32,
    so_far: &mut ItemsSoFar<'a>,
) -> Result<(), ItemsFault>
    requires { index < items_limit }
    ensures read { OnOk result
        (ReadsItem tid index (lines so_far.old.rest.now) so_far.old.items.items
        so_far.old.size (lines so_far.new.rest.now) so_far.new.items.items so_far.new.size) }
    ensures shorter { OnOk result (length so_far.new.rest.now < length so_far.old.rest.now) }
    ensures fault { IfErr result (λ fault. IsItemFault tid index (lines so_far.old.rest.now)
        fault) }
{
    match split_line(so_far.rest) {
        None => Err(ItemsFault::BadItem { at: index + 1 }),
        Some((line, behind)) => match item_line(alloc, tid, index as u64, line) {
            Err(_) => Err(ItemsFault::NoMemory),
            Ok(None) => Err(ItemsFault::BadItem { at: index + 1 }),
            Ok(Some(read)) => take_item(tid, read, behind, so_far),
        },
    }
}

/// Reads the lines of so many items, with which the text begins.
pub fn read_items<'a>(
    alloc: Global,
    tid: Tid,
    count: u32,
    text: &'a [u8],
) -> Result<ItemsSoFar<'a>, ItemsFault>
    requires { count ≤ items_limit }
    ensures read { IfOk result
        (λ read. AreRead tid (lines text.now) count read.items.items read.size
        (lines read.rest.now)) }
    ensures shorter { IfOk result (λ read. length read.rest.now + count ≤ length text.now) }
    ensures fault { IfErr result (StopsAtItem tid (lines text.now) count) }
{
    let mut so_far = ItemsSoFar {
        items: Vec::new(alloc),
        size: 0,
        rest: text,
    };
    for index in 0..count {
        read_next(alloc, tid, index, &mut so_far)?;
    }
    Ok(so_far)
}
