ghost use Rattle.std.specs.Prelude.{◌≡◌, IfOk};

use daq_types::NoMemory;
use odb_tree::{Note, Notes, Watch};
use std::alloc::Global;

/// The same notes once more.
fn copy_notes(alloc: Global, notes: &[Note]) -> Result<Notes, NoMemory>
    ensures { IfOk result (λ copy. copy ≡ notes.now) }
{
    let mut copy = Notes::new(alloc)?;
    for note in notes {
        copy.try_push(*note)?;
    }
    Ok(copy)
}

/// The same watch once more, if there is one.
fn copy_slot(alloc: Global, slot: &Option<Watch>) -> Result<Option<Watch>, NoMemory>
    ensures { IfOk result (λ copy. copy ≡ slot.now) }
{
    match slot {
        None => Ok(None),
        Some(watch) => Ok(Some(Watch {
            row: watch.row,
            notes: copy_notes(alloc, watch.notes.as_slice())?,
            lost: watch.lost,
        })),
    }
}

/// The same watches once more.
pub fn copy_slots(alloc: Global, slots: &[Option<Watch>]) -> Result<Vec<Option<Watch>>, NoMemory>
    ensures { IfOk result (λ copy. copy.items ≡ slots.now) }
{
    let mut copy = Vec::with_capacity(alloc, slots.len())?;
    for slot in slots {
        copy.push(copy_slot(alloc, slot)?)?;
    }
    Ok(copy)
}
