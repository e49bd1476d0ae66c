ghost use Rattle.std.specs.Prelude.{◌≡◌, ◌≤◌, ◌+◌, ℕ, List, Option};
ghost use Rattle.console.specs.LineLoops.{EndsLines, IsUnreadScript};
ghost use Rattle.console.specs.Playing.{PlaysOn, PlaysTo};

use crate::answerer::Answerer;
use crate::endings::Ending;
use crate::going::Going;
use crate::line_loop::LineLoop;
use crate::play_end::PlayEnd;
use daq_io::{Sink, Source};
use std::alloc::Global;
use std::sync::Wait;

/// No script has more lines: each has at least a byte.
const SCRIPT_LINES: u32 = 16_777_217;

/// Answers the line that was read and the lines behind it, as they come.
pub fn play_on<R: Wait, A: Answerer, S: Source, O: Sink>(
    rt: &R,
    alloc: Global,
    line_loop: &mut LineLoop,
    answerer: &mut A,
    source: &mut S,
    out: &mut O,
) -> PlayEnd
    requires fits { line_loop.old.number + 1 ≤ line_loop.old.reader.taken }
    ensures did { PlaysOn A.does A.breaks A.withdraws A.leaves result (S.told source.old) (S.told source.new)
        (O.told out.old).written (O.told out.new).written line_loop.old.reader line_loop.new.reader line_loop.old.last
        line_loop.new.last (A.stage answerer.old) (A.stage answerer.new) line_loop.old.refusals
        line_loop.new.refusals line_loop.old.number line_loop.new.number }
    ensures ends { EndsLines A.leaves result line_loop.new (S.told source.old) (S.told source.new)
        (O.told out.old) (O.told out.new) }
    ensures stays { A.stays answerer.old answerer.new }
{
    for line in 0..SCRIPT_LINES {
        match line_loop.handle(rt, alloc, answerer, out) {
            Err(halt) => {
                return PlayEnd::Ended {
                    ending: Ending::Halted { halt },
                };
            }
            Ok(Going::Opens) => return PlayEnd::Opens,
            Ok(Going::End) => {
                return PlayEnd::Ended {
                    ending: Ending::End,
                };
            }
            Ok(Going::On) => match line_loop.next_line(source) {
                Some(ending) => return PlayEnd::Ended { ending },
                None => {}
            },
        }
    }
    unreachable!()
}

/// Answers the lines of a script, from the first one on, as they come.
pub fn play_script<R: Wait, A: Answerer, S: Source, O: Sink>(
    rt: &R,
    alloc: Global,
    line_loop: &mut LineLoop,
    answerer: &mut A,
    source: &mut S,
    out: &mut O,
) -> PlayEnd
    requires unread { IsUnreadScript line_loop.old }
    ensures did { PlaysTo A.does A.breaks A.withdraws A.leaves (A.stage answerer.old) (S.told source.old)
        (O.told out.old).written result (S.told source.new) (O.told out.new).written line_loop.new.reader
        line_loop.new.last (A.stage answerer.new) line_loop.new.refusals line_loop.new.number }
    ensures ends { EndsLines A.leaves result line_loop.new (S.told source.old) (S.told source.new)
        (O.told out.old) (O.told out.new) }
    ensures stays { A.stays answerer.old answerer.new }
{
    match line_loop.next_line(source) {
        Some(ending) => PlayEnd::Ended { ending },
        None => play_on(rt, alloc, line_loop, answerer, source, out),
    }
}
