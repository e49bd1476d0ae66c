ghost use Rattle.std.specs.Prelude.{◌≡◌, [], None};
ghost use Rattle.midas_cli.specs.Generating.{Generates};
ghost use Rattle.midas_cli.specs.Outcomes.{status_of};

use crate::causes::Cause;
use crate::outcome::Outcome;
use daq_io::{Outside, Sink};
use midas_tools::{Unwritten, write_script};
use std::alloc::Global;

/// Writes the script of a number, and answers why that ended.
fn write_generated<O: Sink>(alloc: Global, number: u32, out: &mut O) -> Cause
    ensures { Generates number (O.told out.old).written (O.told out.new).written (O.told out.old).faults
        (O.told out.new).faults result }
{
    match write_script(alloc, number, out) {
        Ok(()) => Cause::Done,
        Err(Unwritten::SinkFault) => Cause::SinkFault,
        Err(Unwritten::NoMemory) => Cause::NoMemory,
    }
}

/// Writes the script of a number.
pub fn generate<S, O: Sink, F, E, C, K>(
    alloc: Global,
    number: u32,
    mut outside: Outside<S, O, F, E, C, K>,
) -> (Outcome, Outside<S, O, F, E, C, K>)
    ensures status { result.0.status ≡ status_of result.0.cause }
    ensures generates { Generates number (O.told outside.out).written (O.told result.1.out).written
        (O.told outside.out).faults (O.told result.1.out).faults result.0.cause }
    ensures session { result.0.session ≡ None }
    ensures file_replies { result.0.file_replies.replies ≡ [] }
    ensures source { result.1.src ≡ outside.src }
    ensures files { result.1.run_files ≡ outside.run_files }
    ensures database_files { result.1.odb_files ≡ outside.odb_files }
    ensures clock { result.1.clock ≡ outside.clock }
    ensures picks { result.1.pick ≡ outside.pick }
{
    let cause = write_generated(alloc, number, &mut outside.out);
    (Outcome::without_script(alloc, cause), outside)
}
