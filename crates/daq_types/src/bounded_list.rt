ghost use Rattle.std.specs.Prelude.{◌≡◌, ◌≤◌, ◌<◌, ◌++◌, ◌∷◌, [], length, take, drop, slice_get, slice_set, vec_capacity, IsSome, ◌↔◌, IfOk, IfNone, OnOk, OnErr};
ghost use Rattle.std.specs.List.{IsItemAtMut};
ghost use Rattle.std.specs.Borrow.{sem};
ghost use Rattle.std.specs.Option.{option_to_list, option_copied};

use crate::memory::NoMemory;
use std::alloc::Global;
use std::marker::Model;

/// A list in room that was taken once: `ROOM` entries never want memory. Contracts see the entries, so two lists are
/// equal where their entries are.
#[derive(Drop)]
pub struct BoundedList<T, const ROOM: usize> {
    entries: Vec<T>,
}

/// A list that owes no room: what was read off an object, or the calls on it with their replies.
pub type Journal<T> = BoundedList<T, 0>;

impl<T, const ROOM: usize> Model for BoundedList<T, ROOM> {
    ghost use Rattle.std.specs.Prelude.{List, ◌≡◌, ◌≤◌, length, vec_len, vec_capacity};

    ghost Value = { List T };

    ghost view = { λ l. l.entries.items };

    ghost invariant = { λ l. (vec_len l.entries ≡ length l.entries.items)
        × (ROOM ≤ vec_capacity l.entries) };
}

impl<T, const ROOM: usize> BoundedList<T, ROOM> {
    ghost use Rattle.daq_types.specs.Lends.{lends_entry};

    /// No entries, and room for `ROOM`.
    pub fn new(alloc: Global) -> Result<BoundedList<T, ROOM>, NoMemory>
        ensures { IfOk result (λ list. list ≡ []) }
    {
        let entries = Vec::with_capacity(alloc, ROOM)?;
        Ok(BoundedList { entries })
    }

    /// These entries, in their room. Takes no memory.
    pub fn of(entries: Vec<T>) -> BoundedList<T, ROOM>
        requires { ROOM ≤ vec_capacity entries }
        ensures { result ≡ entries.items }
    {
        BoundedList { entries }
    }

    /// One more entry behind the others, in the room there is. Takes no memory.
    pub fn push(&mut self, entry: T)
        requires { length self.old < ROOM }
        ensures { self.new ≡ self.old ++ entry ∷ [] }
    {
        self.entries.push_reserved(entry);
    }

    /// One more entry behind the others, where memory can be had if there is no room.
    pub fn try_push(&mut self, entry: T) -> Result<(), NoMemory>
    where
        T: Drop,
        ensures pushed { OnOk result (self.new ≡ self.old ++ entry ∷ []) }
        ensures kept { OnErr result (self.new ≡ self.old) }
    {
        self.entries.push(entry)?;
        Ok(())
    }

    /// The last entry, which is then gone.
    pub fn pop(&mut self) -> Option<T>
        ensures last { self.old ≡ self.new ++ option_to_list result }
        ensures none { IfNone result (self.old ≡ []) }
    {
        self.entries.pop()
    }

    /// The first entry, which is then gone. It moves those behind it, so it is for short lists.
    pub fn take_first(&mut self) -> Option<T>
        ensures first { result ≡ slice_get self.old 0 }
        ensures rest { self.new ≡ drop 1 self.old }
    {
        if self.entries.is_empty() {
            return None;
        }
        Some(self.entries.remove(0))
    }

    /// Those entries behind these, where memory can be had if there is no room.
    pub fn append<const OTHER: usize>(
        &mut self,
        more: BoundedList<T, OTHER>,
    ) -> Result<(), NoMemory>
    where
        T: Drop,
        ensures appended { OnOk result (self.new ≡ self.old ++ more) }
        ensures kept { OnErr result (self.new ≡ self.old) }
    {
        let mut more = more.into_vec();
        self.entries.append(&mut more)?;
        Ok(())
    }

    /// Only the first entries.
    pub fn truncate(&mut self, len: usize)
    where
        T: Drop,
        ensures { self.new ≡ take len self.old }
    {
        self.entries.truncate(len);
    }

    /// No entries any more.
    pub fn clear(&mut self)
    where
        T: Drop,
        ensures { self.new ≡ [] }
    {
        self.entries.clear();
    }

    /// How many entries there are.
    pub fn len(&self) -> usize
        ensures { result ≡ length self.now }
    {
        self.entries.len()
    }

    /// The entry at this place.
    pub fn get(&self, place: usize) -> Option<&T>
        ensures { option_copied result ≡ slice_get self.now place }
    {
        self.entries.get(place)
    }

    /// The entry at this place, to be changed.
    pub fn get_mut(&mut self, place: usize) -> Option<&mut T>
        ensures* writes_back { sem 𝓛 (lends_entry T.row ROOM.row self.entry place result) }
        ensures variant { IsSome result ↔ (place < length self.old) }
        ensures entry { IsItemAtMut self.old place result }
    {
        self.entries.get_mut(place)
    }

    /// Another entry at this place. Takes no memory.
    pub fn set(&mut self, place: usize, entry: T)
    where
        T: Drop,
        requires { place < length self.old }
        ensures { self.new ≡ slice_set self.old place entry }
    {
        self.entries[place] = entry;
    }

    /// The entries.
    pub fn as_slice(&self) -> &[T]
        ensures { result.now ≡ self.now }
    {
        self.entries.as_slice()
    }

    /// The entries, for themselves.
    pub fn into_vec(self) -> Vec<T>
        ensures { result.items ≡ self }
    {
        let BoundedList { entries } = self;
        entries
    }
}
