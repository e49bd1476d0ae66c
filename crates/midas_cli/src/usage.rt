ghost use Rattle.std.specs.Prelude.{◌≡◌, [], None};
ghost use Rattle.std.specs.Io.KnownBytes.{Appends};
ghost use Rattle.daq_io.specs.Counts.{Rose};
ghost use Rattle.daq_io.specs.Streams.{AppendsPart};
ghost use Rattle.midas_cli.specs.Usages.{usage_line};

use crate::causes::Cause;
use crate::outcome::Outcome;
use daq_io::{Outside, Sink, write_all};
use std::alloc::Global;

/// The line that is written where the words have no form.
const USAGE: &str =
    "usage: midas run [--cooperative] | check FILE.. | dump FILE | analyze FILE.. | gen N\n";

/// Writes the line that tells which forms the words may have.
fn write_usage<O: Sink>(out: &mut O)
    ensures line { ¬ Rose (O.told out.old).faults (O.told out.new).faults
        → Appends (O.told out.old).written (O.told out.new).written usage_line }
    ensures part { AppendsPart (O.told out.old).written (O.told out.new).written usage_line }
{
    let _ = write_all(out, USAGE.as_bytes());
}

/// What becomes of words that have no form.
pub fn refuse_words<S, O: Sink, F, E, C, K>(
    alloc: Global,
    mut outside: Outside<S, O, F, E, C, K>,
) -> (Outcome, Outside<S, O, F, E, C, K>)
    ensures status { result.0.status ≡ 2 }
    ensures cause { result.0.cause ≡ Cause.Usage }
    ensures session { result.0.session ≡ None }
    ensures file_replies { result.0.file_replies.replies ≡ [] }
    ensures line { ¬ Rose (O.told outside.out).faults (O.told result.1.out).faults
        → Appends (O.told outside.out).written (O.told result.1.out).written usage_line }
    ensures part { AppendsPart (O.told outside.out).written (O.told result.1.out).written usage_line }
    ensures source { result.1.src ≡ outside.src }
    ensures files { result.1.run_files ≡ outside.run_files }
    ensures database_files { result.1.odb_files ≡ outside.odb_files }
    ensures clock { result.1.clock ≡ outside.clock }
    ensures picks { result.1.pick ≡ outside.pick }
{
    write_usage(&mut outside.out);
    (Outcome::without_script(alloc, Cause::Usage), outside)
}
