ghost use Rattle.console.specs.Halts.{CountsSink};
ghost use Rattle.console.specs.Playing.{Prints};
ghost use Rattle.console.specs.Console.{text_of};

use crate::Reply;
use crate::halts::Halt;
use daq_io::{Sink, write_all};
use daq_text::TextBuffer;

/// Writes what the script's line of this number prints for this reply.
pub fn print_reply<O: Sink>(
    text: &mut TextBuffer,
    line: u64,
    reply: &Reply,
    out: &mut O,
) -> Result<(), Halt>
    ensures wrote { Prints (O.told out.old).written (O.told out.new).written (text_of line reply.now) result }
    ensures sink { CountsSink (O.told out.old).faults (O.told out.new).faults result }
{
    text.clear();
    if reply.print(line, text).is_err() {
        return Err(Halt::NoMemory);
    }
    match write_all(out, text.as_slice()) {
        Ok(()) => Ok(()),
        Err(_) => Err(Halt::SinkFault),
    }
}
