ghost use Rattle.std.specs.Prelude.{◌≡◌, ◌+◌, ◌%◌, ◌^◌, ◌<◌, ◌≤◌, ◌++◌, IfOk, length, take, drop, replicate};
ghost use Rattle.event.specs.Headers.{event_of};
ghost use Rattle.ring_buffer.specs.Rings.{never_read, bytes_at, KeepsOtherOffsets, most_bytes};

use daq_types::NoMemory;
use event::{DataWriter, EventBuf, Header};
use std::alloc::Global;
use std::marker::Model;

/// A ring of bytes that counts how often it is read, and how many bytes these reads take together. Both counts begin
/// anew at 2^64, and no call sets them. Only `new` takes memory.
#[derive(Drop)]
pub struct Ring {
    bytes: Vec<u8>,
    reads: u64,
    bytes_read: u64,
}

impl Model for Ring {
    ghost use Rattle.ring_buffer.specs.Rings.{CountedBytes};

    ghost Value = { CountedBytes };

    ghost use Rattle.ring_buffer.specs.Views.{counted_bytes, IsRing};

    ghost view = { counted_bytes };

    ghost invariant = { IsRing };
}

/// Writes the part into the bytes from this place on.
fn write_part(bytes: &mut [u8], start: usize, part: &[u8])
    requires { start + length part.now ≤ length bytes.old }
    ensures { bytes.new ≡ take start bytes.old ++ (part.now ++ drop (start + length part.now)
        bytes.old) }
{
    bytes[start..start + part.len()].copy_from_slice(part);
}

/// Writes the part into a ring of these bytes, from the offset on.
fn put_bytes(bytes: &mut [u8], off: u64, part: &[u8])
    requires some { 0 < length bytes.old }
    requires fits { length part.now ≤ length bytes.old }
    ensures written { bytes_at bytes.new off (length part.now) ≡ part.now }
    ensures others { KeepsOtherOffsets bytes.old bytes.new off (length part.now) }
    ensures size { length bytes.new ≡ length bytes.old }
{
    let size = bytes.len();
    let start = (off % size as u64) as usize;
    if part.len() <= size - start {
        write_part(bytes, start, part);
        return;
    }
    let (front, back) = part.split_at(size - start);
    write_part(bytes, start, front);
    write_part(bytes, 0, back);
}

/// Reads from a ring of these bytes, from the offset on.
fn get_bytes(bytes: &[u8], off: u64, into: &mut [u8])
    requires some { 0 < length bytes.now }
    requires fits { length into.old ≤ length bytes.now }
    ensures { into.new ≡ bytes_at bytes.now off (length into.old) }
{
    let size = bytes.len();
    let start = (off % size as u64) as usize;
    if into.len() <= size - start {
        into.copy_from_slice(&bytes[start..start + into.len()]);
        return;
    }
    let first = size - start;
    let (front, back) = into.split_at_mut(first);
    front.copy_from_slice(&bytes[start..start + first]);
    back.copy_from_slice(&bytes[..back.len()]);
}

/// So many bytes of a ring of these, from this offset on.
#[derive(Drop)]
struct Part<'a> {
    bytes: &'a [u8],
    off: u64,
    count: u32,
    ghost some: { 0 < length bytes.now },
    ghost fits: { count ≤ length bytes.now },
}

impl DataWriter<()> for Part<'_> {
    ghost use Rattle.std.specs.Prelude.{⊤};
    ghost use Rattle.ring_buffer.specs.Rings.{bytes_at};

    ghost gives = { λ part. bytes_at part.bytes.now part.off part.count };

    ghost leads = { λ before after. ⊤ };

    fn write(&self, into: &mut [u8], _state: &mut ()) {
        get_bytes(self.bytes, self.off, into);
    }
}

impl Ring {
    /// A ring of so many zeros, which was never read.
    pub fn new(alloc: Global, size: u32) -> Result<Ring, NoMemory>
        requires least { 1 ≤ size }
        requires most { size ≤ most_bytes }
        ensures { IfOk result (λ ring. ring ≡ never_read (replicate size 0)) }
    {
        let bytes = vec![in alloc; 0; size as usize]?;
        Ok(Ring {
            bytes,
            reads: 0,
            bytes_read: 0,
        })
    }

    /// How many bytes there are.
    pub fn size(&self) -> u32
        ensures size { result ≡ length self.now.bytes }
        ensures some { 1 ≤ result }
        ensures most { result ≤ most_bytes }
    {
        self.bytes.len() as u32
    }

    /// How often the ring was read, modulo 2^64.
    pub fn reads(&self) -> u64
        ensures { result ≡ self.now.reads }
    {
        self.reads
    }

    /// How many bytes all reads took together, modulo 2^64.
    pub fn bytes_read(&self) -> u64
        ensures { result ≡ self.now.bytes_read }
    {
        self.bytes_read
    }

    /// Writes the bytes from this offset on. The others stay.
    pub fn put_at(&mut self, off: u64, bytes: &[u8])
        requires { length bytes.now ≤ length self.old.bytes }
        ensures written { bytes_at self.new.bytes off (length bytes.now) ≡ bytes.now }
        ensures others { KeepsOtherOffsets self.old.bytes self.new.bytes off (length bytes.now) }
        ensures size { length self.new.bytes ≡ length self.old.bytes }
        ensures reads { self.new.reads ≡ self.old.reads }
        ensures bytes_read { self.new.bytes_read ≡ self.old.bytes_read }
    {
        put_bytes(self.bytes.as_mut_slice(), off, bytes);
    }

    /// Counts a read of so many bytes.
    fn count_read(&mut self, bytes: u64)
        ensures same { self.new.bytes ≡ self.old.bytes }
        ensures reads { self.new.reads ≡ (self.old.reads + 1) % 2 ^ 64 }
        ensures bytes_read { self.new.bytes_read ≡ (self.old.bytes_read + bytes) % 2 ^ 64 }
    {
        self.reads = self.reads.wrapping_add(1);
        self.bytes_read = self.bytes_read.wrapping_add(bytes);
    }

    /// Reads bytes from this offset on, as many as there is place for, and counts one read of so many. No call but this
    /// one and `get_data` reads the ring.
    pub fn get_at(&mut self, off: u64, into: &mut [u8])
        requires { length into.old ≤ length self.old.bytes }
        ensures read { into.new ≡ bytes_at self.old.bytes off (length into.old) }
        ensures same { self.new.bytes ≡ self.old.bytes }
        ensures reads { self.new.reads ≡ (self.old.reads + 1) % 2 ^ 64 }
        ensures bytes_read { self.new.bytes_read ≡ (self.old.bytes_read + length into.old) % 2 ^ 64 }
    {
        get_bytes(self.bytes.as_slice(), off, into);
        self.count_read(into.len() as u64);
    }

    /// Fills the room with the event of this header, whose data are read from this offset on, straight into it, and
    /// counts one read of so many bytes.
    pub fn get_data(&mut self, off: u64, header: &Header, into: &mut EventBuf)
        requires fits { header.now.data_size ≤ length self.old.bytes }
        requires enough { header.now.data_size ≤ into.old.room }
        ensures event { into.new.event ≡ event_of header.now
            (bytes_at self.old.bytes off header.now.data_size) }
        ensures room { into.new.room ≡ into.old.room }
        ensures same { self.new.bytes ≡ self.old.bytes }
        ensures reads { self.new.reads ≡ (self.old.reads + 1) % 2 ^ 64 }
        ensures bytes_read { self.new.bytes_read
            ≡ (self.old.bytes_read + header.now.data_size) % 2 ^ 64 }
    {
        let part = Part {
            bytes: self.bytes.as_slice(),
            off,
            count: header.data_size,
        };
        into.fill_with(header, &part, &mut ());
        self.count_read(u64::from(header.data_size));
    }
}
