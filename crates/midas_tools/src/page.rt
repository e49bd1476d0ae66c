ghost use Rattle.std.specs.Prelude.{◌≡◌, ◌≤◌, ◌+◌, ◌↔◌, ◌++◌, [], length, take, IfOk, OnOk, OnErr, IsTrue};
ghost use Rattle.std.specs.Bool.{OnTrue, OnFalse};
ghost use Rattle.std.specs.Io.KnownBytes.{Appends};
ghost use Rattle.daq_io.specs.Counts.{CountsFault};
ghost use Rattle.daq_io.specs.Streams.{AppendsPart};
ghost use Rattle.midas_tools.specs.Printing.{PassesText, page_room};

use crate::line::Line;
use daq_io::{Failed, Sink, write_all};
use daq_types::NoMemory;
use std::alloc::Global;
use std::marker::Model;

/// How many bytes are written at a time, at most.
const PAGE_BYTES: usize = 65536;

/// Lines on their way to a sink, in room that is taken once. Each line fits on an empty page.
#[derive(Drop)]
pub struct Page {
    bytes: Vec<u8>,
    len: usize,
}

impl Model for Page {
    ghost use Rattle.std.specs.Prelude.{◌≡◌, ◌≤◌, ℕ, List, length, take};
    ghost use Rattle.midas_tools.specs.Printing.{page_room};

    ghost Value = { List ℕ };

    ghost view = { λ p. take p.len p.bytes.items };

    ghost invariant = { λ p. (length p.bytes.items ≡ page_room) × (p.len ≤ page_room) };
}

/// Writes a text at this place.
fn write_at(bytes: &mut [u8], at: usize, text: &[u8])
    requires { at + length text.now ≤ length bytes.old }
    ensures written { take (at + length text.now) bytes.new ≡ take at bytes.old ++ text.now }
    ensures len { length bytes.new ≡ length bytes.old }
{
    let (_, free) = bytes.split_at_mut(at);
    let (place, _) = free.split_at_mut(text.len());
    place.copy_from_slice(text);
}

impl Page {
    /// A page with nothing on it.
    pub fn new(alloc: Global) -> Result<Page, NoMemory>
        ensures { IfOk result (λ page. page ≡ []) }
    {
        let mut bytes = Vec::with_capacity(alloc, PAGE_BYTES)?;
        bytes.resize(PAGE_BYTES, 0)?;
        Ok(Page { bytes, len: 0 })
    }

    /// Writes the page and begins it anew.
    pub fn flush<O: Sink>(&mut self, out: &mut O) -> Result<(), Failed>
        ensures all { OnOk result (Appends (O.told out.old).written (O.told out.new).written self.old) }
        ensures part { OnErr result (AppendsPart (O.told out.old).written (O.told out.new).written self.old) }
        ensures faults { CountsFault (O.told out.old).faults (O.told out.new).faults result }
        ensures empty { OnOk result (self.new ≡ []) }
    {
        let (filled, _) = self.bytes.as_slice().split_at(self.len);
        write_all(out, filled)?;
        self.len = 0;
        Ok(())
    }

    /// Puts a text on the page exactly where there is room for it, and answers whether there was.
    fn put(&mut self, text: &[u8]) -> bool
        ensures fits { IsTrue result ↔ (length self.old + length text.now ≤ page_room) }
        ensures put { OnTrue result (self.new ≡ self.old ++ text.now) }
        ensures kept { OnFalse result (self.new ≡ self.old) }
    {
        if PAGE_BYTES - self.len < text.len() {
            return false;
        }
        write_at(self.bytes.as_mut_slice(), self.len, text);
        self.len += text.len();
        true
    }

    /// Puts a line on the page, which is written before where the line does not fit.
    pub fn print<O: Sink>(&mut self, line: &Line, out: &mut O) -> Result<(), Failed>
        ensures passes { PassesText (O.told out.old).written (O.told out.new).written self.old self.new
            line.now result }
        ensures fits { OnOk result (length self.new ≤ page_room) }
        ensures faults { CountsFault (O.told out.old).faults (O.told out.new).faults result }
    {
        if self.put(line.as_slice()) {
            return Ok(());
        }
        self.flush(out)?;
        let _fits = self.put(line.as_slice());
        Ok(())
    }
}
