ghost use Rattle.std.specs.Prelude.{◌≡◌, ◌≤◌, ◌<◌, ◌+◌, ◌++◌, ◌∷◌, [], length, max, slice_get, IsSome, ◌↔◌, IfOk, IfNone, OnOk};
ghost use Rattle.std.specs.List.{IsItemAtMut};
ghost use Rattle.std.specs.Borrow.{sem};
ghost use Rattle.std.specs.Option.{option_copied, option_to_list};

use crate::dump_replies::FileReply;
use daq_types::NoMemory;
use std::alloc::Global;
use std::marker::Model;

/// For how many entries room is taken, at least, where there is none.
const LEAST_ROOM: usize = 4;

/// What came of the lines of a script that called the database files, in order: each one's number, and its reply. Room
/// for a line's entry is taken before the line's first call.
#[derive(Drop)]
pub struct FileReplies {
    entries: Vec<(u64, FileReply)>,
}

impl Model for FileReplies {
    ghost use Rattle.std.specs.Prelude.{◌-◌, vec_len, vec_capacity};
    ghost use Rattle.odb_commands.specs.NotedReplies.{NotedReplies};

    ghost Value = { NotedReplies };

    ghost view = { λ r. record {
      replies = r.entries.items;
      room = vec_capacity r.entries - vec_len r.entries;
    } };
}

impl FileReplies {
    ghost use Rattle.odb_commands.specs.LentReplies.{lends_reply};

    /// No entries and no room. Takes no memory.
    pub fn empty(alloc: Global) -> FileReplies
        ensures empty { result.replies ≡ [] }
        ensures room { result.room ≡ 0 }
    {
        FileReplies {
            entries: Vec::new(alloc),
        }
    }

    /// No entries, and room for so many.
    pub fn new(alloc: Global, room: u32) -> Result<FileReplies, NoMemory>
        ensures empty { IfOk result (λ made. made.replies ≡ []) }
        ensures room { IfOk result (λ made. made.room ≡ room) }
    {
        let entries = Vec::with_capacity(alloc, room as usize)?;
        Ok(FileReplies { entries })
    }

    /// Room for so many entries more. Where there is less, it is taken for so many, for as many as there are or for four,
    /// whichever is the most.
    pub fn reserve(&mut self, more: u32) -> Result<(), NoMemory>
        ensures same { self.new.replies ≡ self.old.replies }
        ensures room { OnOk result (more ≤ self.new.room) }
        ensures kept { self.old.room ≤ self.new.room }
        ensures bounded { self.new.room
            ≤ max self.old.room (max more (max (length self.old.replies) 4)) }
    {
        let count = self.entries.len();
        if more as usize <= self.entries.capacity() - count {
            return Ok(());
        }
        self.entries
            .reserve_exact(count.max(LEAST_ROOM).max(more as usize))?;
        Ok(())
    }

    /// The reply to the line of this number, behind the others, in the room there is. Takes no memory.
    pub fn push(&mut self, line: u64, reply: FileReply)
        requires { 1 ≤ self.old.room }
        ensures noted { self.new.replies ≡ self.old.replies ++ (line, reply) ∷ [] }
        ensures room { self.new.room + 1 ≡ self.old.room }
    {
        self.entries.push_reserved((line, reply));
    }

    /// The last entry, which is then gone, and leaves its room.
    pub fn pop(&mut self) -> Option<(u64, FileReply)>
        ensures last { self.old.replies ≡ self.new.replies ++ option_to_list result }
        ensures none { IfNone result (self.old.replies ≡ []) }
        ensures room { self.new.room ≡ self.old.room + length (option_to_list result) }
    {
        self.entries.pop()
    }

    /// How many entries there are.
    pub fn len(&self) -> usize
        ensures { result ≡ length self.now.replies }
    {
        self.entries.len()
    }

    /// The entry at this place.
    pub fn get(&self, place: usize) -> Option<&(u64, FileReply)>
        ensures { option_copied result ≡ slice_get self.now.replies place }
    {
        self.entries.get(place)
    }

    /// The entry at this place, to be changed.
    pub fn get_mut(&mut self, place: usize) -> Option<&mut (u64, FileReply)>
        ensures* writes_back { sem 𝓛 (lends_reply self.entry place result) }
        ensures variant { IsSome result ↔ (place < length self.old.replies) }
        ensures entry { IsItemAtMut self.old.replies place result }
    {
        self.entries.get_mut(place)
    }

    /// The entries.
    pub fn as_slice(&self) -> &[(u64, FileReply)]
        ensures { result.now ≡ self.now.replies }
    {
        self.entries.as_slice()
    }
}
