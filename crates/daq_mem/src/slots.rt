ghost use Rattle.std.specs.Prelude.{◌≡◌, ◌≢◌, ◌+◌, ◌<◌, ◌≤◌, ◌++◌, ◌↔◌, ◌⊎◌, ℕ, List, [], Some, None, All, IsTrue, IsFalse, IfOk, IfSome, IfNone, HoldsAt, is_some, if◌then◌else◌, length, not};
ghost use Rattle.std.specs.Bool.{OnTrue, OnFalse};
ghost use Rattle.daq_io.specs.Seen.{stored_as, stored_open};
ghost use Rattle.daq_mem.specs.FilesSeen.{is_behind_room};
ghost use Rattle.daq_mem.specs.MemSeen.{has_name, file_in, stored_in, free_slots, named_count, IsFirstNamed, ChangesOnly, ChangesNothing};

use daq_io::{ByteRoom, FileState};
use daq_types::{FileName, NoMemory};
use std::alloc::Global;

/// Room for one file, and the file in it if it has a name.
#[derive(Drop)]
pub struct Slot {
    pub name: Option<FileName>,
    pub bytes: ByteRoom,
    pub state: FileState,
}

/// Files in memory, each in a slot of its own. No two have one name.
#[derive(Drop)]
pub struct Slots {
    pub slots: Vec<Slot>,
    pub room: usize,
    ghost sized: { All (λ slot. slot.bytes.room ≡ room) slots.items },
    ghost distinct: { (name : List ℕ) → named_count name slots.items ≤ 1 },
}

impl Slot {
    /// Whether the file in this slot has this name.
    pub fn has_name(&self, name: &FileName) -> bool
        ensures { result ≡ has_name name.now self.now.name }
    {
        match &self.name {
            Some(own) => own.as_slice() == name.as_slice(),
            None => false,
        }
    }
}

impl Slots {
    /// Room for so many files of so many bytes each.
    pub fn new(alloc: Global, files: u32, room: usize) -> Result<Slots, NoMemory>
        ensures none { IfOk result (λ made. (name : List ℕ) → stored_in made.slots.items name
            ≡ None) }
        ensures free { IfOk result (λ made. free_slots made.slots.items ≡ files) }
        ensures room { IfOk result (λ made. made.room ≡ room) }
    {
        let mut slots = Vec::new(alloc);
        for _ in 0..files {
            slots.push(Slot {
                name: None,
                bytes: ByteRoom::new(alloc, room)?,
                state: FileState::Open,
            })?;
        }
        Ok(Slots { slots, room })
    }

    /// The slot of the file of this name.
    pub fn file(&self, name: &FileName) -> Option<&Slot>
        ensures found { IfSome result (λ slot. stored_in self.now.slots.items name.now
            ≡ Some (file_in slot.now)) }
        ensures none { IfNone result (stored_in self.now.slots.items name.now ≡ None) }
        ensures sized { IfSome result (λ slot. slot.now.bytes.room ≡ self.now.room) }
    {
        match self.place_of(name) {
            Some(place) => Some(&self.slots[place]),
            None => None,
        }
    }

    /// The place of the slot of the file of this name.
    fn place_of(&self, name: &FileName) -> Option<usize>
        ensures found { IfSome result (IsFirstNamed self.now.slots.items name.now) }
        ensures none { IfNone result (stored_in self.now.slots.items name.now ≡ None) }
    {
        for (place, slot) in self.slots.iter().enumerate() {
            if slot.has_name(name) {
                return Some(place);
            }
        }
        None
    }

    /// A slot that has no file.
    fn free_place(&self) -> Option<usize>
        ensures inside { IfSome result (λ place. place < length self.now.slots.items) }
        ensures free { IfSome result (HoldsAt (λ slot. slot.name ≡ None) self.now.slots.items) }
        ensures none { IfNone result (free_slots self.now.slots.items ≡ 0) }
    {
        for (place, slot) in self.slots.iter().enumerate() {
            if slot.name.is_none() {
                return Some(place);
            }
        }
        None
    }

    /// Stores a file of this name, where there is room, and answers whether there was.
    pub fn store(&mut self, name: &FileName, bytes: &[u8], state: FileState) -> bool
        requires { stored_in self.old.slots.items name.now ≡ None }
        ensures others { ChangesOnly self.old.slots.items self.new.slots.items name.now }
        ensures stored { OnTrue result (stored_in self.new.slots.items name.now
            ≡ Some (stored_as state bytes.now)) }
        ensures kept { OnFalse result (ChangesNothing self.old.slots.items self.new.slots.items) }
        ensures fits { OnTrue result (length bytes.now ≤ self.old.room) }
        ensures full { OnFalse result (free_slots self.old.slots.items ≡ 0 ⊎ self.old.room
            < length bytes.now) }
        ensures taken { OnTrue result (free_slots self.new.slots.items + 1
            ≡ free_slots self.old.slots.items) }
        ensures not_taken { OnFalse result (free_slots self.new.slots.items
            ≡ free_slots self.old.slots.items) }
        ensures room { self.new.room ≡ self.old.room }
    {
        match self.free_place() {
            None => false,
            Some(place) => {
                let slot = &mut self.slots[place];
                slot.bytes.clear();
                if slot.bytes.put(bytes) {
                    slot.name = Some(*name);
                    slot.state = state;
                    return true;
                }
                false
            }
        }
    }

    /// Appends the bytes to the file of this name, where they fit, and answers whether they did. Where there is no
    /// such file any more, they go nowhere.
    pub fn append(&mut self, name: &FileName, bytes: &[u8]) -> bool
        ensures others { ChangesOnly self.old.slots.items self.new.slots.items name.now }
        ensures written { OnTrue result ((so_far : List ℕ)
            → stored_in self.old.slots.items name.now ≡ Some (stored_open so_far)
            → stored_in self.new.slots.items name.now ≡ Some (stored_open (so_far ++ bytes.now))) }
        ensures kept { OnFalse result (ChangesNothing self.old.slots.items self.new.slots.items) }
        ensures fits { result ≡ not (is_behind_room self.old.room
            (stored_in self.old.slots.items name.now) (length bytes.now)) }
        ensures free { free_slots self.new.slots.items ≡ free_slots self.old.slots.items }
        ensures room { self.new.room ≡ self.old.room }
    {
        match self.place_of(name) {
            None => true,
            Some(place) => {
                let slot = &mut self.slots[place];
                slot.bytes.put(bytes)
            }
        }
    }

    /// Leaves the file of this name so.
    pub fn leave(&mut self, name: &FileName, state: FileState)
        ensures others { ChangesOnly self.old.slots.items self.new.slots.items name.now }
        ensures left { (so_far : List ℕ) → stored_in self.old.slots.items name.now
            ≡ Some (stored_open so_far) → stored_in self.new.slots.items name.now
            ≡ Some (stored_as state so_far) }
        ensures free { free_slots self.new.slots.items ≡ free_slots self.old.slots.items }
        ensures room { self.new.room ≡ self.old.room }
    {
        match self.place_of(name) {
            None => (),
            Some(place) => {
                let slot = &mut self.slots[place];
                slot.state = state;
            }
        }
    }

    /// Removes the file of this name.
    pub fn remove(&mut self, name: &FileName)
        ensures others { ChangesOnly self.old.slots.items self.new.slots.items name.now }
        ensures gone { stored_in self.new.slots.items name.now ≡ None }
        ensures free { free_slots self.new.slots.items
            ≡ free_slots self.old.slots.items + (if is_some
            (stored_in self.old.slots.items name.now) then 1 else 0) }
        ensures room { self.new.room ≡ self.old.room }
    {
        match self.place_of(name) {
            None => (),
            Some(place) => {
                let slot = &mut self.slots[place];
                slot.name = None;
            }
        }
    }
}
