//! Traces: what happened, which only contracts read. They have no bytes of their own, and grow at no cost.
ghost use Rattle.std.specs.Prelude.{◌≡◌, ◌<◌, ◌++◌, ◌∷◌, [], ℕ, IfOk, length, take};
ghost use Rattle.daq_io.specs.Seen.{stored_as, was_left, was_removed};
ghost use Rattle.daq_io.specs.Traces.{trace_at, ChangesTrace};

use crate::folder::FileState;
use daq_types::{FileName, NoMemory};
use std::alloc::Global;
use std::marker::Model;
use std::mem::replace;
use std::snapshot::Snapshot;

const _: () = prove!(size_of::<ByteTrace>() == 0);

const _: () = prove!(size_of::<FileTrace>() == 0);

/// The type of what a log notes: in clauses a list of bytes.
#[derive(Drop)]
struct Bytes {}

impl Model for Bytes {
    ghost use Rattle.std.specs.Prelude.{List, ℕ, []};

    ghost Value = { List ℕ };

    ghost view = { λ _. [] };
}

/// The first `count` of these bytes are noted.
fn note(log: &mut Snapshot<Bytes>, _bytes: &[u8], _count: usize)
    ensures { log.new.value ≡ log.old.value ++ take _count _bytes.now }
{}

/// Bytes that were read, written or handed on, one behind the other. Who adds to it does so next to the call that it tells of.
#[derive(Drop)]
pub struct ByteTrace {
    log: Snapshot<Bytes>,
}

impl Model for ByteTrace {
    ghost use Rattle.std.specs.Prelude.{List, ℕ};

    ghost Value = { List ℕ };

    ghost view = { λ n. n.log.value };
}

impl ByteTrace {
    /// No byte.
    pub fn new() -> ByteTrace
        ensures { result ≡ [] }
    {
        ByteTrace {
            log: Snapshot::of(&Bytes {}),
        }
    }

    /// The first `count` of these bytes more.
    pub fn more(&mut self, bytes: &[u8], count: usize)
        ensures { self.new ≡ self.old ++ take count bytes.now }
    {
        note(&mut self.log, bytes, count);
    }
}

/// One file that was left or removed.
#[derive(Drop)]
pub struct FileEntry {
    name: FileName,
    left: Option<FileState>,
    bytes: ByteTrace,
}

impl Model for FileEntry {
    ghost use Rattle.std.specs.Prelude.{option_map};
    ghost use Rattle.daq_io.specs.Seen.{FileDone, stored_as};

    ghost Value = { FileDone };

    ghost view = { λ e. record { name = e.name; left = option_map (λ s. stored_as s e.bytes) e.left } };
}

/// The type of what a log of files notes: in clauses a list of those that were left or removed.
#[derive(Drop)]
struct Entries {}

impl Model for Entries {
    ghost use Rattle.std.specs.Prelude.{List, []};
    ghost use Rattle.daq_io.specs.Seen.{FileDone};

    ghost Value = { List FileDone };

    ghost view = { λ _. [] };
}

/// This file is noted.
fn note_entry(log: &mut Snapshot<Entries>, _entry: &FileEntry)
    ensures { log.new.value ≡ log.old.value ++ _entry.now ∷ [] }
{}

/// What an object did with files, one behind the other.
#[derive(Drop)]
pub struct FileTrace {
    log: Snapshot<Entries>,
}

impl Model for FileTrace {
    ghost use Rattle.std.specs.Prelude.{List};
    ghost use Rattle.daq_io.specs.Seen.{FileDone};

    ghost Value = { List FileDone };

    ghost view = { λ n. n.log.value };
}

impl FileTrace {
    /// Nothing.
    pub fn new() -> FileTrace
        ensures { result ≡ [] }
    {
        FileTrace {
            log: Snapshot::of(&Entries {}),
        }
    }

    /// A file of this name was left so, with these bytes.
    pub fn left(&mut self, name: &FileName, bytes: ByteTrace, state: FileState)
        ensures { self.new ≡ self.old ++ was_left name.now (stored_as state bytes) ∷ [] }
    {
        let entry = FileEntry {
            name: *name,
            left: Some(state),
            bytes,
        };
        note_entry(&mut self.log, &entry);
    }

    /// The file of this name was removed.
    pub fn removed(&mut self, name: &FileName)
        ensures { self.new ≡ self.old ++ was_removed name.now ∷ [] }
    {
        let entry = FileEntry {
            name: *name,
            left: None,
            bytes: ByteTrace::new(),
        };
        note_entry(&mut self.log, &entry);
    }
}

/// Bytes by number.
#[derive(Drop)]
pub struct ByteTraces {
    traces: Vec<ByteTrace>,
}

impl Model for ByteTraces {
    ghost use Rattle.std.specs.Prelude.{List, ℕ};

    ghost Value = { List (List ℕ) };

    ghost view = { λ t. t.traces.items };
}

impl ByteTraces {
    /// So many, with no byte yet.
    pub fn new(alloc: Global, count: u32) -> Result<ByteTraces, NoMemory>
        ensures count { IfOk result (λ made. length made ≡ count) }
        ensures empty { IfOk result (λ made. (number : ℕ) → trace_at made number ≡ []) }
    {
        let mut traces = Vec::new(alloc);
        for _ in 0..count {
            traces.push(ByteTrace::new())?;
        }
        Ok(ByteTraces { traces })
    }

    /// This number has no byte from here on.
    pub fn begin(&mut self, number: u32)
        requires { number < length self.old }
        ensures { ChangesTrace self.old self.new number [] }
    {
        self.traces[number as usize] = ByteTrace::new();
    }

    /// The first `count` of these bytes more, for this number.
    pub fn more(&mut self, number: u32, bytes: &[u8], count: usize)
        requires { number < length self.old }
        ensures { ChangesTrace self.old self.new number (trace_at self.old number ++ take count bytes.now) }
    {
        self.traces[number as usize].more(bytes, count);
    }

    /// The bytes of this number, which has none from here on.
    pub fn take(&mut self, number: u32) -> ByteTrace
        requires { number < length self.old }
        ensures taken { result ≡ trace_at self.old number }
        ensures changed { ChangesTrace self.old self.new number [] }
    {
        replace(&mut self.traces[number as usize], ByteTrace::new())
    }
}
