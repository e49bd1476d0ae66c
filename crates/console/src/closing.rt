ghost use Rattle.std.specs.Prelude.{◌≡◌, ℕ, List, Option};
ghost use Rattle.daq_io.specs.Told.{SourceTold};
ghost use Rattle.console.specs.LineLoops.{CanPlayOut};
ghost use Rattle.console.specs.Playing.{HasLine};
ghost use Rattle.console.specs.Closing.{EndCounts, Finished, Finishes, MayFail, SinkBehind};

use crate::answerer::Answerer;
use crate::console::print_reply;
use crate::endings::Ending;
use crate::halts::Halt;
use crate::line_loop::LineLoop;
use crate::play_end::PlayEnd;
use crate::playing::play_on;
use daq_io::{Sink, Source};
use std::alloc::Global;
use std::sync::Wait;

/// Ends what is still on behind lines that ended so, and writes what that prints, unless the sink failed or there was no memory.
/// Answers what failed in that.
pub fn close_lines<R: Wait, A: Answerer, O: Sink>(
    rt: &R,
    alloc: Global,
    line_loop: &mut LineLoop,
    ending: Ending,
    answerer: &mut A,
    out: &mut O,
) -> Option<Halt>
    ensures finishes { Finishes A.does A.breaks A.withdraws A.closes A.gives_up ending result
        (O.told out.old).written (O.told out.new).written (A.stage answerer.old) (A.stage answerer.new)
        line_loop.old.refusals }
    ensures refusals { line_loop.new.refusals ≡ line_loop.old.refusals }
    ensures may { MayFail ending result }
    ensures sink { SinkBehind result (O.told out.old).faults (O.told out.new).faults }
    ensures stays { A.stays answerer.old answerer.new }
{
    match answerer.close(rt, alloc) {
        Err(_) => Some(Halt::NoMemory),
        Ok(None) => None,
        Ok(Some(reply)) => {
            if !ending.prints() {
                return None;
            }
            match print_reply(&mut line_loop.text, 0, &reply, out) {
                Ok(()) => None,
                Err(halt) => Some(halt),
            }
        }
    }
}

/// Answers the line that was read and all lines behind it, and ends then what is still on. Answers how the lines ended, and what
/// failed behind them.
pub fn play_out<R: Wait, A: Answerer, S: Source, O: Sink>(
    rt: &R,
    alloc: Global,
    line_loop: &mut LineLoop,
    answerer: &mut A,
    source: &mut S,
    out: &mut O,
) -> (Ending, Option<Halt>)
    requires ready { CanPlayOut A.leaves line_loop.old }
    ensures finished { (first : A.Stage) (source_first : SourceTold) (told_first : Option (List ℕ))
        → HasLine A.does A.breaks first source_first (S.told source.old) told_first
        (O.told out.old).written line_loop.old.reader line_loop.old.last (A.stage answerer.old)
        line_loop.old.refusals line_loop.old.number
        → Finished A.does A.breaks A.withdraws A.closes A.gives_up first result.0 result.1 source_first
        (S.told source.new) told_first (O.told out.new).written (A.stage answerer.new)
        line_loop.new.refusals }
    ensures counts { EndCounts result.0 result.1 (S.told source.old).faults (S.told source.new).faults
        (O.told out.old).faults (O.told out.new).faults }
    ensures stays { A.stays answerer.old answerer.new }
{
    match play_on(rt, alloc, line_loop, answerer, source, out) {
        PlayEnd::Opens => unreachable!(),
        PlayEnd::Ended { ending } => {
            let closing = close_lines(rt, alloc, line_loop, ending, answerer, out);
            (ending, closing)
        }
    }
}
