ghost use Rattle.std.specs.Prelude.{◌≡◌, ◌≤◌, ◌<◌, ◌++◌, OnErr, IfOk, [], length, take, vec_capacity, true, false};
ghost use Rattle.std.specs.Io.KnownBytes.{Keeps};
ghost use Rattle.std.specs.Str.Lines.{strip_carriage_return};
ghost use Rattle.odb_script.specs.Lines.{Reading, no_line_read, script_limit};
ghost use Rattle.daq_io.specs.Counts.{CountsFault};
ghost use Rattle.odb_script.specs.Advances.{IsFaultBy, Advances, IsFilledAgain, IsLinePart, IsRefilled, IsScanned};

use daq_io::{Failed, Source};
use daq_types::NoMemory;
use std::alloc::Global;
use std::marker::Model;

/// The most bytes that a script has.
pub const SCRIPT_BYTES: u32 = 16_777_216;

/// How many bytes of a line are kept while it is read: its end's first byte may stand behind the longest line that is
/// told from a longer one.
const PART_BYTES: usize = 4098;

/// How many bytes of a line are kept once it was read.
const KEPT_BYTES: usize = 4097;

/// How many bytes are asked of the source at once.
const BLOCK_BYTES: usize = 65_536;

/// Reads the lines of a script one at a time, so that each command runs before the next is there. Takes no memory
/// after `new`.
#[derive(Drop)]
pub struct LineReader {
    block: Vec<u8>,
    at: usize,
    filled: usize,
    line: Vec<u8>,
    taken: u32,
}

/// What comes next in a script.
#[derive(Clone, Copy, Debug, PartialEq, Eq)]
pub enum NextLine {
    /// A line with its end, 0x0A or 0x0D and 0x0A.
    Line,
    /// The last line, which has no end.
    Last,
    /// Nothing more.
    End,
    /// More bytes than a script may have. The line that they cut is none.
    TooLong,
    /// The source failed. The line that it cut is none.
    Fault,
}

impl Model for LineReader {
    ghost use Rattle.std.specs.Prelude.{take};
    ghost use Rattle.odb_script.specs.Lines.{Reading};

    ghost Value = { Reading };

    ghost use Rattle.odb_script.specs.Inside.{reading_of, IsLineReader};

    ghost view = { reading_of };

    ghost invariant = { IsLineReader };
}

/// The line's part so far grows by these bytes, as far as it is kept.
fn keep(line: &mut Vec<u8>, part: &[u8])
    requires short { length line.old.items ≤ PART_BYTES }
    requires room { PART_BYTES ≤ vec_capacity line.old }
    ensures line { line.new.items ≡ take PART_BYTES (line.old.items ++ part.now) }
    ensures room { PART_BYTES ≤ vec_capacity line.new }
{
    let room = PART_BYTES - line.as_slice().len();
    let (front, _) = part.split_at(part.len().min(room));
    let _ = line.extend_from_slice(front);
}

/// How many bytes stand before the end of the line, how many with that end, and whether it is there.
fn line_part(bytes: &[u8]) -> (usize, usize, bool)
    ensures { IsLinePart bytes.now result.0 result.1 result.2 }
{
    for (len, byte) in bytes.iter().enumerate() {
        if *byte == b'\n' {
            return (len, len + 1, true);
        }
    }
    (bytes.len(), bytes.len(), false)
}

/// Takes the carriage return off the end, and what is no longer kept.
fn finish(line: &mut Vec<u8>)
    requires room { PART_BYTES ≤ vec_capacity line.old }
    ensures line { line.new.items ≡ take KEPT_BYTES (strip_carriage_return line.old.items) }
    ensures room { PART_BYTES ≤ vec_capacity line.new }
{
    if line.as_slice().last() == Some(&b'\r') {
        line.truncate(line.as_slice().len() - 1);
    }
    line.truncate(KEPT_BYTES);
}

impl LineReader {
    /// A reader that has read nothing.
    pub fn new(alloc: Global) -> Result<LineReader, NoMemory>
        ensures { IfOk result (λ reader. reader ≡ no_line_read) }
    {
        let block = vec![in alloc; 0; BLOCK_BYTES]?;
        let line = Vec::with_capacity(alloc, PART_BYTES)?;
        Ok(LineReader {
            block,
            at: 0,
            filled: 0,
            line,
            taken: 0,
        })
    }

    /// The line that was read, without its end, as far as it is kept: its first 4,097 bytes.
    pub fn line(&self) -> &[u8]
        ensures { result.now ≡ self.now.line }
    {
        self.line.as_slice()
    }

    /// Takes a block from the source, where none is left of the last.
    fn fill<S: Source>(&mut self, source: &mut S) -> Result<usize, Failed>
        requires { self.old.pending ≡ [] }
        ensures filled { IfOk result (IsFilledAgain self.old self.new (S.told source.old)
            (S.told source.new)) }
        ensures same { OnErr result (self.new ≡ self.old) }
        ensures kept { OnErr result (Keeps (S.told source.old).left (S.told source.new).left) }
        ensures gave { OnErr result ((S.told source.new).gave ≡ (S.told source.old).gave) }
        ensures faults { CountsFault (S.told source.old).faults (S.told source.new).faults result }
    {
        self.at = 0;
        self.filled = 0;
        let count = source.read(self.block.as_mut_slice())?;
        self.filled = count;
        Ok(count)
    }

    /// Whether no byte is pending.
    fn is_drained(&self) -> bool
        ensures drained { result ≡ true → self.now.pending ≡ [] }
        ensures pending { result ≡ false → 0 < length self.now.pending }
    {
        self.at == self.filled
    }

    /// Sees to it that bytes are pending, and tells whether there are any.
    fn refill<S: Source>(&mut self, source: &mut S) -> Result<bool, Failed>
        ensures refilled { IfOk result (IsRefilled (S.told source.old) (S.told source.new)
            self.old self.new) }
        ensures same { OnErr result (self.new ≡ self.old) }
        ensures drained { OnErr result (self.old.pending ≡ []) }
        ensures kept { OnErr result (Keeps (S.told source.old).left (S.told source.new).left) }
        ensures gave { OnErr result ((S.told source.new).gave ≡ (S.told source.old).gave) }
        ensures faults { CountsFault (S.told source.old).faults (S.told source.new).faults result }
    {
        if !self.is_drained() {
            return Ok(true);
        }
        let count = self.fill(source)?;
        Ok(count > 0)
    }

    /// Passes the rest of the line, and its end if that is there.
    fn scan(&mut self) -> bool
        requires some { 0 < length self.old.pending }
        requires within { self.old.taken < script_limit }
        ensures { IsScanned result self.old self.new }
    {
        let most = (SCRIPT_BYTES - self.taken) as usize;
        let (_, rest) = self.block.as_slice().split_at(self.at);
        let (rest, _) = rest.split_at((self.filled - self.at).min(most));
        let (len, passed, ended) = line_part(rest);
        let (part, _) = rest.split_at(len);
        keep(&mut self.line, part);
        self.at += passed;
        self.taken += passed as u32;
        ended
    }

    /// Begins a line.
    fn begin_line(&mut self)
        ensures line { self.new ≡ record self.old { line = [] } }
        ensures within { self.old.taken ≤ script_limit }
    {
        self.line.clear();
    }

    /// Whether as many bytes were passed as a script may have.
    fn is_full(&self) -> bool
        ensures full { result ≡ true → self.now.taken ≡ script_limit }
        ensures within { result ≡ false → self.now.taken < script_limit }
    {
        self.taken == SCRIPT_BYTES
    }

    /// Keeps of the line what stands before its end.
    fn end_line(&mut self)
        ensures { self.new ≡ record self.old {
          line = take KEPT_BYTES
              (strip_carriage_return self.old.line);
        } }
    {
        finish(&mut self.line);
    }

    /// Keeps the last line, which has no end, and tells whether there is one.
    fn end_last(&mut self) -> bool
        ensures line { self.new ≡ record self.old { line = take KEPT_BYTES self.old.line } }
        ensures none { result ≡ false → self.old.line ≡ [] }
        ensures some { result ≡ true → 0 < length self.old.line }
    {
        self.line.truncate(KEPT_BYTES);
        !self.line.as_slice().is_empty()
    }

    /// Reads the next line.
    pub fn advance<S: Source>(&mut self, source: &mut S) -> NextLine
        ensures advances { Advances result self.old self.new (S.told source.old) (S.told source.new) }
        // Only `Fault` is a failure of the source, which counts it.
        ensures faults { IsFaultBy result (S.told source.old).faults (S.told source.new).faults }
    {
        self.begin_line();
        'line: loop {
            match self.refill(source) {
                Err(_) => return NextLine::Fault,
                Ok(more) => {
                    if !more {
                        return if self.end_last() {
                            NextLine::Last
                        } else {
                            NextLine::End
                        };
                    }
                }
            }
            if self.is_full() {
                return NextLine::TooLong;
            }
            if self.scan() {
                self.end_line();
                return NextLine::Line;
            }
        }
    }
}
