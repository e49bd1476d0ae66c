// The lines of a script before a first start.
ghost use Rattle.odb_watch.specs.DatabasePorts.{IsSamePort};
ghost use Rattle.console.specs.LineLoops.{EndsLines, IsUnreadScript};
ghost use Rattle.session_commands.specs.ScriptLines.{opens_session};
ghost use Rattle.session_commands.specs.Finishing.{side_told};
ghost use Rattle.session_commands.specs.FirstLines.{PlaysFirst};

use crate::script::Script;
use crate::unopened::Unopened;
use console::{PlayEnd, play_script};
use daq_io::{Clock, Files, Sink, Source};
use odb_watch::WatchPort;
use std::alloc::Global;
use std::sync::Wait;

/// Plays the lines of a script up to its first start, or to its end.
pub fn play_first<R: Wait, D: WatchPort, S: Source, O: Sink, E: Files, C: Clock>(
    rt: &R,
    alloc: Global,
    unopened: &mut Unopened<D, E, C>,
    script: &mut Script<S, O>,
) -> PlayEnd
    requires unread { IsUnreadScript script.old.line_loop }
    ensures played { PlaysFirst
        (side_told D.access E.told C.told) S.told O.told
        unopened.old script.old result unopened.new script.new }
    ensures ends { EndsLines opens_session result script.new.line_loop
        (S.told script.old.src) (S.told script.new.src) (O.told script.old.out) (O.told script.new.out) }
    ensures same { IsSamePort (D.access unopened.old.side.database.access)
        (D.access unopened.new.side.database.access) }
{
    let Script {
        line_loop,
        src,
        out,
    } = script;
    play_script(rt, alloc, line_loop, unopened, src, out)
}
