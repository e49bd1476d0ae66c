ghost use Rattle.std.specs.Prelude.{◌≡◌, ◌<◌, [], IfOk, None, Some, length};
ghost use Rattle.std.specs.Io.{WritesAtMost};
ghost use Rattle.std.specs.Io.Buffered.{reader_remaining};
ghost use Rattle.std.specs.Io.KnownBytes.{WriteAppends};
ghost use Rattle.daq_io.specs.Counts.{CountsFault};

use crate::again::{read_once, write_once};
use crate::faults::FaultCount;
use crate::system::TakingWriter;
use daq_io::{ByteTrace, Failed, Sink, Source};
use daq_types::NoMemory;
use std::alloc::Global;
use std::io::{BufReader, Read, Write};

/// How many bytes are read ahead at a time.
const AHEAD_BYTES: usize = 8192;

/// A source over a reader, such as standard input, which is read in blocks. It tells the bytes that it gave, and those that are
/// left of a reader that tells them; standard input tells none.
#[derive(Drop)]
pub struct StdSource<R: Read + Drop> {
    reader: BufReader<R>,
    gave: ByteTrace,
    faults: FaultCount,
}

impl<R: Read + Drop> StdSource<R> {
    /// A source over this reader.
    pub fn new(alloc: Global, reader: R) -> Result<StdSource<R>, NoMemory>
        ensures left { IfOk result (λ made. (⟦<StdSource<R> as Source>⟧.told made).left
            ≡ R.remaining reader) }
        ensures gave { IfOk result (λ made. (⟦<StdSource<R> as Source>⟧.told made).gave ≡ []) }
        ensures faults { IfOk result (λ made. (⟦<StdSource<R> as Source>⟧.told made).faults ≡ 0) }
        ensures origin { IfOk result (λ made. (⟦<StdSource<R> as Source>⟧.told made).origin ≡ None) }
    {
        match BufReader::with_capacity(alloc, AHEAD_BYTES, reader) {
            Ok(reader) => Ok(StdSource {
                reader,
                gave: ByteTrace::new(),
                faults: FaultCount::new(),
            }),
            Err(_) => Err(NoMemory),
        }
    }
}

impl<R: Read + Drop> Source for StdSource<R> {
    ghost use Rattle.std.specs.Prelude.{[], None};

    ghost told = { λ s. record {
      left = reader_remaining R.remaining s.reader;
      gave = s.gave;
      faults = s.faults;
      at_hand = [];
      origin = None;
    } };

    fn read(&mut self, into: &mut [u8]) -> Result<usize, Failed> {
        match read_once(&mut self.reader, into) {
            Ok(count) => {
                self.gave.more(into, count);
                Ok(count)
            }
            Err(fault) => Err(self.faults.failed(fault)),
        }
    }
}

/// A sink over a writer, such as standard output, to which each byte goes at once. It tells the bytes that the writer took, in
/// order; a writer that tells what it has grows by the same.
#[derive(Drop)]
pub struct StdSink<W: Write + Drop> {
    writer: TakingWriter<W>,
    faults: FaultCount,
}

impl<W: Write + Drop> StdSink<W> {
    /// A sink over this writer.
    pub fn new(writer: W) -> StdSink<W>
        ensures written { (⟦<StdSink<W> as Sink>⟧.told result).written ≡ Some [] }
        ensures contents { W.contents result.writer.writer ≡ W.contents writer }
        ensures faults { (⟦<StdSink<W> as Sink>⟧.told result).faults ≡ 0 }
    {
        StdSink {
            writer: TakingWriter::new(writer),
            faults: FaultCount::new(),
        }
    }
}

impl<W: Write + Drop> Sink for StdSink<W> {
    ghost use Rattle.std.specs.Prelude.{Some};

    ghost told = { λ s. record { written = Some s.writer.taken; faults = s.faults } };

    fn write(&mut self, bytes: &[u8]) -> Result<usize, Failed>
        ensures within { WritesAtMost result bytes.now }
        ensures some { IfOk result (λ count. 0 < length bytes.now → 0 < count) }
        ensures bytes { WriteAppends (⟦<StdSink<W> as Sink>⟧.told self.old).written
            (⟦<StdSink<W> as Sink>⟧.told self.new).written result bytes.now }
        // A writer that tells what it has grows by the same bytes.
        ensures contents { WriteAppends (W.contents self.old.writer.writer)
            (W.contents self.new.writer.writer) result bytes.now }
        ensures faults { CountsFault (⟦<StdSink<W> as Sink>⟧.told self.old).faults
            (⟦<StdSink<W> as Sink>⟧.told self.new).faults result }
    {
        match write_once(&mut self.writer, bytes) {
            Ok(count) => Ok(count),
            Err(fault) => Err(self.faults.failed(fault)),
        }
    }
}
