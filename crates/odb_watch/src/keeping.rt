ghost use Rattle.std.specs.Prelude.{◌≡◌, ◌+◌, ◌≤◌, ◌^◌};
ghost use Rattle.std.specs.Option.{option_map};
ghost use Rattle.odb_tree.specs.declared.notes.Watch.{Watch as a_watch};
ghost use Rattle.odb_tree.specs.Noting.{changes_from, changes_for, with_note, noted_all, all_noted};
ghost use Rattle.odb_watch.specs.Keeping.{with_notes};
ghost use Rattle.odb_watch.specs.Slots.{AreFew};

use odb_tree::{Database, Note, OdbRefusal, Watch};

/// How many notes a watch keeps.
const NOTES: usize = 256;

/// Keeps the note, or counts it as lost where 256 are kept.
fn keep(watch: &mut Watch, note: Note)
    ensures { watch.new ≡ with_note watch.old note }
{
    if watch.notes.len() < NOTES {
        watch.notes.push(note);
    } else {
        watch.lost = watch.lost.saturating_add(1);
    }
}

/// Keeps a note of each of so many items, from this one on.
fn keep_items(watch: &mut Watch, row: u32, first: u32, count: u32)
    requires { first + count ≤ 2 ^ 32 }
    ensures { watch.new ≡ with_notes watch.old row first count }
{
    for i in 0..count {
        let index = first + i;
        keep(watch, Note { row, index });
    }
}

/// The watch in a slot, if any, notes that so many items were written, from this one on, where the row is the one that
/// it watches or lies below that.
fn note_in<D: Database>(database: &D, slot: &mut Option<Watch>, row: u32, first: u32, count: u32)
    requires { first + count ≤ 2 ^ 32 }
    ensures { slot.new ≡ option_map (λ (watch : a_watch). noted_all watch
        (changes_from (D.rows database.now) row first count)) slot.old }
{
    if let Some(watch) = slot {
        if database.is_below(row, watch.row) {
            keep_items(watch, row, first, count);
        }
    }
}

/// Each watch notes that so many items of a row were written, from this one on. Takes no memory.
fn note_items<D: Database>(
    database: &D,
    slots: &mut Vec<Option<Watch>>,
    row: u32,
    first: u32,
    count: u32,
)
    requires { first + count ≤ 2 ^ 32 }
    ensures { slots.new.items ≡ all_noted (changes_from (D.rows database.now) row first count)
        slots.old.items }
{
    for i in 0..slots.len() {
        note_in(database, &mut slots[i], row, first, count);
    }
}

/// Each watch notes what a call wrote that answered so: where it was accepted, so many items, from this one on.
pub fn note_reply<D: Database>(
    database: &D,
    slots: &mut Vec<Option<Watch>>,
    reply: Result<u32, OdbRefusal>,
    first: u32,
    count: u32,
)
    requires { first + count ≤ 2 ^ 32 }
    ensures noted { slots.new.items ≡ all_noted (changes_for (D.rows database.now) reply first
        count) slots.old.items }
    ensures few { AreFew slots.old.items → AreFew slots.new.items }
{
    if let Ok(row) = reply {
        note_items(database, slots, row, first, count);
    }
}
