//! The lines of a script, read from a source.
ghost use Rattle.std.specs.Prelude.{[], None};

use daq_io::{ByteTrace, Failed, Source};
use daq_mem::MemSource;
use daq_types::NoMemory;
use odb_script::{LineReader, NextLine};
use std::alloc::Global;
use std::process::Abort;
use std::test::Fail;

/// What each reading of the script answers, and the line that it leaves.
const LINES: &[(NextLine, &str)] = &[
    (NextLine::Line, "events 3"),
    (NextLine::Line, ""),
    (NextLine::Line, "start"),
    (NextLine::Last, "stop"),
    (NextLine::End, ""),
];

/// Reads the script, and compares its lines.
fn read_lines<S: Source + Drop>(rt: &impl Abort, mut source: S, reader: &mut LineReader) {
    for (next, line) in LINES {
        assert!(rt; reader.advance(&mut source) == *next, "{line}");
        assert!(rt; reader.line() == line.as_bytes(), "{line}");
    }
}

#[test]
fn lines_of_a_script(rt: HostRuntime) -> Result<(), Fail> {
    let alloc = rt.alloc();
    let script = b"events 3\r\n\nstart\nstop".to_vec(alloc)?;
    let mut reader = LineReader::new(alloc)?;
    read_lines(&rt, MemSource::new(script, Vec::new(alloc)), &mut reader);
    Ok(())
}

/// What the next line of a source is.
fn next_of<S: Source + Drop>(mut source: S, reader: &mut LineReader) -> NextLine {
    reader.advance(&mut source)
}

#[test]
fn a_line_cut_by_a_fault(rt: HostRuntime) -> Result<(), Fail> {
    let alloc = rt.alloc();
    let mut reader = LineReader::new(alloc)?;
    let fails = vec![in alloc; 1]?;
    let source = MemSource::new(b"start".to_vec(alloc)?, fails);
    assert!(rt; next_of(source, &mut reader) == NextLine::Fault);
    Ok(())
}

/// A script of one long line of blanks, and behind it of line ends without end. It does not tell which bytes are left.
#[derive(Drop)]
struct LongScript {
    /// How many blanks are to come.
    blanks: usize,
    gave: ByteTrace,
}

impl Source for LongScript {
    ghost told = { λ s. record { left = None; gave = s.gave; faults = 0; at_hand = []; origin = None } };

    fn read(&mut self, into: &mut [u8]) -> Result<usize, Failed> {
        let count = into.len();
        let blanks = count.min(self.blanks);
        let (line, ends) = into.split_at_mut(blanks);
        line.fill(b' ');
        ends.fill(b'\n');
        self.blanks -= blanks;
        self.gave.more(into, count);
        Ok(count)
    }
}

/// What the next four lines of a source are.
fn next_four<S: Source>(source: &mut S, reader: &mut LineReader) -> [NextLine; 4] {
    [
        reader.advance(source),
        reader.advance(source),
        reader.advance(source),
        reader.advance(source),
    ]
}

/// What a new reader answers to a line of so many blanks, and line ends behind it.
fn read_blanks(alloc: Global, blanks: usize) -> Result<[NextLine; 4], NoMemory> {
    let mut reader = LineReader::new(alloc)?;
    let gave = ByteTrace::new();
    Ok(next_four(&mut LongScript { blanks, gave }, &mut reader))
}

/// The third line ends with the last byte that a script may have.
#[test]
fn a_script_that_is_too_long(rt: HostRuntime) -> Result<(), Fail> {
    let answers = read_blanks(rt.alloc(), 16_777_216 - 3)?;
    let [first, second, third, behind] = answers;
    assert!(rt; [first, second, third] == [NextLine::Line; 3]);
    assert!(rt; behind == NextLine::TooLong);
    Ok(())
}
