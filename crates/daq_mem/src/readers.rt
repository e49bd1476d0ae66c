ghost use Rattle.std.specs.Prelude.{◌≡◌, ◌≤◌, ◌<◌, ◌++◌, ◌↔◌, All, IfOk, IsTrue, ℕ, length, take, min};
ghost use Rattle.std.specs.Bool.{OnTrue};

use daq_io::{ByteRoom, copy_front};
use daq_types::NoMemory;
use std::alloc::Global;

/// The bytes of a file that is read, and how many of them have been read.
#[derive(Drop)]
pub struct Reader {
    pub bytes: ByteRoom,
    pub at: usize,
    ghost inside: { at ≤ length bytes.bytes },
}

/// Room for the bytes that are read under each number.
#[derive(Drop)]
pub struct Readers {
    pub readers: Vec<Reader>,
    pub room: usize,
    ghost sized: { All (λ reader. reader.bytes.room ≡ room) readers.items },
}

impl Readers {
    ghost use Rattle.daq_mem.specs.MemSeen.{left_at, ChangesLeft};

    /// Room for so many numbers and so many bytes each.
    pub fn new(alloc: Global, count: u32, room: usize) -> Result<Readers, NoMemory>
        ensures count { IfOk result (λ made. length made.readers.items ≡ count) }
        ensures room { IfOk result (λ made. made.room ≡ room) }
    {
        let mut readers = Vec::new(alloc);
        for _ in 0..count {
            readers.push(Reader {
                bytes: ByteRoom::new(alloc, room)?,
                at: 0,
            })?;
        }
        Ok(Readers { readers, room })
    }

    /// Lets these bytes be read under this number, where there is such a number and they fit, and answers whether that is so.
    pub fn open(&mut self, number: u32, bytes: &[u8]) -> bool
        ensures fits { number < length self.old.readers.items → length bytes.now ≤ self.old.room
            → IsTrue result }
        ensures others { ChangesLeft self.old.readers.items self.new.readers.items number }
        ensures left { OnTrue result (left_at self.new.readers.items number ≡ bytes.now) }
        ensures count { length self.new.readers.items ≡ length self.old.readers.items }
        ensures room { self.new.room ≡ self.old.room }
    {
        if number as usize >= self.readers.as_slice().len() {
            return false;
        }
        let reader = &mut self.readers[number as usize];
        reader.at = 0;
        reader.bytes.clear();
        reader.bytes.put(bytes)
    }

    /// Moves the front of the bytes left under this number to the front of `into`, and answers how many bytes.
    pub fn read(&mut self, number: u32, into: &mut [u8]) -> usize
        ensures count { result ≡ min (length (left_at self.old.readers.items number))
            (length into.old) }
        ensures moved { left_at self.old.readers.items number
            ≡ take result into.new ++ left_at self.new.readers.items number }
        ensures others { ChangesLeft self.old.readers.items self.new.readers.items number }
        ensures numbers { length self.new.readers.items ≡ length self.old.readers.items }
        ensures room { self.new.room ≡ self.old.room }
    {
        if number as usize >= self.readers.as_slice().len() {
            return 0;
        }
        let reader = &mut self.readers[number as usize];
        let (_, rest) = reader.bytes.as_slice().split_at(reader.at);
        let count = copy_front(rest, into);
        reader.at += count;
        count
    }
}
