ghost use Rattle.std.specs.Prelude.{◌≡◌, ◌≤◌, length, OnErr};
ghost use Rattle.odb_watch.specs.Slots.{free_watch, GivesUnwatch, GivesWatch, GivesNotes, GivesTaken, after_watch, after_notes, after_unwatch, emptied_slot};

use crate::notes::{NoWatch, WatchRefusal};
use odb_tree::{Note, Notes, Watch};
use std::alloc::Global;
use std::mem::swap;

/// How many watches live at most.
const WATCHES: usize = 64;

/// The place of the first slot with no watch, or else the place behind the last.
fn free_slot(slots: &[Option<Watch>]) -> usize
    ensures free { result ≡ free_watch slots.now }
    ensures within { result ≤ length slots.now }
{
    for i in 0..slots.len() {
        if slots[i].is_none() {
            return i;
        }
    }
    slots.len()
}

/// Begins a watch, as `Watches::watch`.
pub fn begin(alloc: Global, slots: &mut Vec<Option<Watch>>, row: u32) -> Result<u32, WatchRefusal>
    ensures reply { GivesWatch slots.old.items result }
    ensures slots { slots.new.items ≡ after_watch slots.old.items row result }
{
    let free = free_slot(slots.as_slice());
    if free >= WATCHES {
        return Err(WatchRefusal::NoWatchSlot);
    }
    let notes = Notes::new(alloc)?;
    let watch = Watch {
        row,
        notes,
        lost: 0,
    };
    if free < slots.len() {
        slots[free] = Some(watch);
        return Ok(free as u32);
    }
    slots.push(Some(watch))?;
    Ok(free as u32)
}

/// Moves the notes of the watch in a slot out, and answers how many were lost.
fn take_from(slot: &mut Option<Watch>, into: &mut Notes) -> Result<u64, NoWatch>
    ensures reply { GivesTaken slot.old into.old into.new result }
    ensures kept { OnErr result (into.new ≡ into.old) }
    ensures slot { slot.new ≡ emptied_slot slot.old }
{
    match slot {
        None => Err(NoWatch),
        Some(watch) => {
            into.clear();
            swap(&mut watch.notes, into);
            let lost = watch.lost;
            watch.lost = 0;
            Ok(lost)
        }
    }
}

/// Moves the notes of a watch out, as `Watches::notes`.
pub fn take_notes(
    slots: &mut Vec<Option<Watch>>,
    watch: u32,
    into: &mut Notes,
) -> Result<u64, NoWatch>
    ensures reply { GivesNotes slots.old.items watch into.old into.new result }
    ensures kept { OnErr result (into.new ≡ into.old) }
    ensures slots { slots.new.items ≡ after_notes slots.old.items watch result }
{
    let place = watch as usize;
    if place >= slots.len() {
        return Err(NoWatch);
    }
    take_from(&mut slots[place], into)
}

/// Ends a watch, as `Watches::unwatch`.
pub fn end(slots: &mut Vec<Option<Watch>>, watch: u32) -> Result<(), NoWatch>
    ensures reply { GivesUnwatch slots.old.items watch result }
    ensures slots { slots.new.items ≡ after_unwatch slots.old.items watch result }
{
    let place = watch as usize;
    if place >= slots.len() || slots[place].is_none() {
        return Err(NoWatch);
    }
    slots[place] = None;
    Ok(())
}
