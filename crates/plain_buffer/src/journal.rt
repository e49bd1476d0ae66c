ghost use Rattle.std.specs.Prelude.{◌≡◌, ◌+◌, ◌≤◌, ◌<◌, ◌++◌, ◌∷◌, [], length, OnOk};
ghost use Rattle.plain_buffer.specs.Journals.{entry_with, IsApart, IsEntryAt};

use buffer_core::BufferEntry;
use daq_types::{Caller, NoMemory};
use event::append_within;
use std::alloc::Global;
use std::marker::Model;

/// A call in a journal. Where it sends an event, the event's data stand among the bytes of the journal.
#[derive(Drop)]
pub struct Line {
    caller: Caller,
    entry: BufferEntry,
    /// How many bytes of data the calls before it handed over together.
    from: usize,
    /// How many bytes of data the call handed over.
    size: usize,
}

/// A call that was noted, as it is read.
#[derive(Clone, Copy)]
pub struct NotedCall<'a> {
    pub caller: Caller,
    /// The call with its reply. An event that it sends stands here without its data.
    pub entry: &'a BufferEntry,
    /// The data of the event that it sends; none, if it sends no event.
    pub body: &'a [u8],
}

/// The calls on a buffer with their replies, each with the number of its caller, in order. The data of all events that
/// were sent stand in one piece of memory, so that room for many calls is taken at once.
#[derive(Drop)]
pub struct BufferJournal {
    lines: Vec<Line>,
    bytes: Vec<u8>,
}

impl Model for BufferJournal {
    ghost use Rattle.plain_buffer.specs.Journals.{Journaled};

    ghost Value = { Journaled };

    ghost use Rattle.plain_buffer.specs.JournalViews.{journal_of, IsJournal};

    ghost view = { journal_of };

    ghost invariant = { IsJournal };
}

impl BufferJournal {
    /// No entries, and room for none. Takes no memory.
    pub fn new(alloc: Global) -> BufferJournal
        ensures { result.entries ≡ [] }
    {
        BufferJournal {
            lines: Vec::new(alloc),
            bytes: Vec::new(alloc),
        }
    }

    /// Room for so many entries more, which hand over so many bytes of data together.
    pub fn reserve(&mut self, calls: u64, bytes: u64) -> Result<(), NoMemory>
        ensures same { self.new.entries ≡ self.old.entries }
        ensures room { OnOk result (calls ≤ self.new.room) }
        ensures bytes { OnOk result (bytes ≤ self.new.bytes) }
        ensures keeps_room { self.old.room ≤ self.new.room }
        ensures keeps_bytes { self.old.bytes ≤ self.new.bytes }
    {
        self.lines.reserve(calls as usize)?;
        self.bytes.reserve(bytes as usize)?;
        Ok(())
    }

    /// One entry more, behind the others. It stands without the data of its event, which are given
    /// beside it; there are none for a call that sends no event.
    pub fn push(&mut self, caller: Caller, entry: BufferEntry, body: &[u8])
        requires room { 1 ≤ self.old.room }
        requires bytes { length body.now ≤ self.old.bytes }
        requires apart { IsApart entry body.now }
        ensures entries { self.new.entries ≡ self.old.entries
            ++ (caller, entry_with body.now entry) ∷ [] }
        ensures room { self.old.room ≤ self.new.room + 1 }
        ensures bytes { self.old.bytes ≤ self.new.bytes + length body.now }
    {
        self.lines.push_reserved(Line {
            caller,
            entry,
            from: self.bytes.len(),
            size: body.len(),
        });
        append_within(&mut self.bytes, body);
    }

    /// How many entries there are.
    pub fn len(&self) -> usize
        ensures { result ≡ length self.now.entries }
    {
        self.lines.len()
    }

    /// The entry of this number, counted from 0.
    pub fn get(&self, number: usize) -> NotedCall<'_>
        requires { number < length self.now.entries }
        ensures is { IsEntryAt self.now.entries number result.caller result.entry.now
            result.body.now }
        ensures apart { IsApart result.entry.now result.body.now }
    {
        let line = &self.lines[number];
        let (_, behind) = self.bytes.as_slice().split_at(line.from);
        let (body, _) = behind.split_at(line.size);
        NotedCall {
            caller: line.caller,
            entry: &line.entry,
            body,
        }
    }
}
