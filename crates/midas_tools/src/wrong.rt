ghost use Rattle.std.specs.Prelude.{◌≡◌, OnErr, OnOk};
ghost use Rattle.std.specs.Io.KnownBytes.{Appends};
ghost use Rattle.daq_io.specs.Counts.{CountsFault};
ghost use Rattle.daq_io.specs.Streams.{AppendsPart};
ghost use Rattle.midas_tools.specs.Findings.{Printed};
ghost use Rattle.midas_tools.specs.Gathering.{EndsRefused, SaysStop};
ghost use Rattle.midas_tools.specs.Texts.{bad_file_line};

use crate::ends::{InputFault, ToolEnd};
use crate::lines::{bad_front, bad_line};
use crate::opening::Refused;
use daq_io::{Failed, Sink, write_all};
use daq_types::FileName;

/// Writes what is wrong with a file, and which it is where several were named. Takes no memory.
fn write_wrong<O: Sink>(
    fault: InputFault,
    name: &FileName,
    several: bool,
    out: &mut O,
) -> Result<(), Failed>
    ensures all { OnOk result (Appends (O.told out.old).written (O.told out.new).written
        (bad_file_line several name.now fault)) }
    ensures part { OnErr result (AppendsPart (O.told out.old).written (O.told out.new).written
        (bad_file_line several name.now fault)) }
    ensures faults { CountsFault (O.told out.old).faults (O.told out.new).faults result }
{
    if !several {
        return write_all(out, bad_line(fault).as_slice());
    }
    write_all(out, bad_front(fault).as_slice())?;
    write_all(out, name.as_slice())?;
    write_all(out, b"\n")
}

/// Writes what is wrong with a file, and answers the end that it tells of, or that the sink failed.
fn say_wrong<O: Sink>(fault: InputFault, name: &FileName, several: bool, out: &mut O) -> ToolEnd
    ensures { Printed (bad_file_line several name.now fault) (O.told out.old).written
        (O.told out.new).written (O.told out.old).faults (O.told out.new).faults (ToolEnd.Input fault) result }
{
    match write_wrong(fault, name, several, out) {
        Ok(()) => ToolEnd::Input(fault),
        Err(_) => ToolEnd::SinkFault,
    }
}

/// Writes what is wrong with the file of this name, where the reading of files stopped at it for that, and answers the end.
pub fn say_stop<O: Sink>(end: ToolEnd, name: &FileName, several: bool, out: &mut O) -> ToolEnd
    ensures { SaysStop several name.now (O.told out.old).written (O.told out.new).written (O.told out.old).faults
        (O.told out.new).faults end result }
{
    match end {
        ToolEnd::Input(fault) => say_wrong(fault, name, several, out),
        end => end,
    }
}

/// The end where a file was not opened.
pub fn end_refused(refused: Refused) -> ToolEnd
    ensures { EndsRefused refused result }
{
    match refused {
        Refused::NameCompressed => ToolEnd::Input(InputFault::Compressed),
        Refused::NameMissing => ToolEnd::Input(InputFault::Missing),
        Refused::OpenFailed => ToolEnd::FileFault,
    }
}
