ghost use Rattle.std.specs.Prelude.{◌≡◌, ◌+◌, ◌≤◌, ◌↔◌, [], ◌++◌, length, IfOk, IsTrue};
ghost use Rattle.std.specs.Bool.{OnTrue, OnFalse};

use daq_types::NoMemory;
use std::alloc::Global;
use std::marker::Model;

/// Room for bytes that is taken once.
#[derive(Drop)]
pub struct ByteRoom {
    bytes: Vec<u8>,
    room: usize,
}

impl Model for ByteRoom {
    ghost use Rattle.std.specs.Prelude.{◌≤◌, length, vec_capacity};
    ghost use Rattle.daq_io.specs.Rooms.{Roomed};

    ghost Value = { Roomed };

    ghost view = { λ r. record { bytes = r.bytes.items; room = r.room } };

    ghost invariant = { λ r. (length r.bytes.items ≤ r.room) × (r.room ≤ vec_capacity r.bytes) };
}

impl ByteRoom {
    /// Room for so many bytes, with none in it.
    pub fn new(alloc: Global, room: usize) -> Result<ByteRoom, NoMemory>
        ensures empty { IfOk result (λ made. made.bytes ≡ []) }
        ensures room { IfOk result (λ made. made.room ≡ room) }
    {
        let bytes = Vec::with_capacity(alloc, room)?;
        Ok(ByteRoom { bytes, room })
    }

    /// The bytes in it.
    pub fn as_slice(&self) -> &[u8]
        ensures value { result.now ≡ self.now.bytes }
        ensures fits { length result.now ≤ self.now.room }
    {
        self.bytes.as_slice()
    }

    /// Takes all bytes out.
    pub fn clear(&mut self)
        ensures { self.new ≡ record self.old { bytes = [] } }
    {
        self.bytes.clear();
    }

    /// Appends the bytes exactly where they all fit, and answers whether they did.
    pub fn put(&mut self, bytes: &[u8]) -> bool
        ensures fits { IsTrue result ↔ (length self.old.bytes + length bytes.now ≤ self.old.room) }
        ensures put { OnTrue result (self.new ≡ record self.old
            { bytes = self.old.bytes ++ bytes.now }) }
        ensures kept { OnFalse result (self.new ≡ self.old) }
        ensures room { self.new.room ≡ self.old.room }
    {
        if self.room - self.bytes.as_slice().len() < bytes.len() {
            return false;
        }
        self.bytes.extend_from_slice(bytes).is_ok()
    }
}
