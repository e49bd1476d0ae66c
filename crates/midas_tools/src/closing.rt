ghost use Rattle.std.specs.Prelude.{IsTrue};
ghost use Rattle.daq_io.specs.FileLeft.{ReadsFirst};
ghost use Rattle.daq_io.specs.Seen.{Ends};
ghost use Rattle.midas_tools.specs.Findings.{ClosedAs, Printed, SaysWhy};

use crate::ends::{InputFault, ToolEnd};
use crate::opening::{Refused, close};
use daq_io::{FileSource, Files, Sink, write_all};

/// Writes a text, and answers the end that it tells of, or that the sink failed.
pub fn print<O: Sink>(end: ToolEnd, text: &[u8], out: &mut O) -> ToolEnd
    ensures { Printed text.now (O.told out.old).written (O.told out.new).written (O.told out.old).faults
        (O.told out.new).faults end result }
{
    match write_all(out, text) {
        Ok(()) => end,
        Err(_) => ToolEnd::SinkFault,
    }
}

/// Writes why a file was not opened, unless a call on the files failed.
pub fn refuse<O: Sink>(refused: Refused, out: &mut O) -> ToolEnd
    ensures { SaysWhy refused (O.told out.old).written (O.told out.new).written (O.told out.old).faults
        (O.told out.new).faults result }
{
    match refused {
        Refused::NameCompressed => {
            let end = ToolEnd::Input(InputFault::Compressed);
            print(end, b"bad Compressed\n", out)
        }
        Refused::NameMissing => {
            let end = ToolEnd::Input(InputFault::Missing);
            print(end, b"bad Missing\n", out)
        }
        Refused::OpenFailed => ToolEnd::FileFault,
    }
}

/// Closes the file, whose reading came to this end. A close that fails is the end only where nothing else failed.
pub fn close_file<F: Files>(end: ToolEnd, source: FileSource<F>) -> (ToolEnd, F)
    ensures closed { ClosedAs end (F.told source.files).faults (F.told result.1).faults result.0 }
    ensures front { IsTrue (F.told source.first).seen.names → ReadsFirst (F.told source.first).seen
        (F.told source.files).seen source.number (F.told source.first).bytes_read (F.told result.1).bytes_read }
    ensures ended { Ends (F.told source.first).seen (F.told result.1).seen source.number }
{
    let (closed, files) = close(source);
    match (end, closed) {
        (ToolEnd::Done | ToolEnd::Input(_), Err(_)) => (ToolEnd::FileFault, files),
        _ => (end, files),
    }
}
