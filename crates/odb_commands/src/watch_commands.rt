ghost use Rattle.std.specs.Prelude.{◌≡◌, ◌≤◌, IfOk, OnErr};
ghost use Rattle.daq_types.specs.Callers.{main_caller};
ghost use Rattle.daq_io.specs.Seen.{Same};
ghost use Rattle.odb_watch.specs.DatabasePorts.{IsSamePort};
ghost use Rattle.odb_commands.specs.WatchCalls.{ClashesIf, EndsWatchCommand, FaultsIf, NamesFaultIf};
ghost use Rattle.odb_commands.specs.WatchPerforms.{PerformsWatch, file_word};

use crate::dumps::{load, save};
use crate::watch_replies::WatchAnswer;
use crate::watches::{notes, unwatch, watch};
use daq_io::Files;
use daq_types::NoMemory;
use odb_script::WatchCommand;
use odb_watch::WatchPort;
use odb_watch::port_laws::entries_add_up;
use std::alloc::Global;
use std::sync::Wait;

/// Performs a command for watches or dumps, by the main thread: makes its calls on the database and on its files, each once
/// and in order, and gives the answer. Where memory ends, the first of its calls on the database were made, the last of them
/// maybe with that reply, and all of them only where its reply takes memory behind them; no file changed, and no call on the
/// files failed.
pub fn run_watch_command<R: Wait, P: WatchPort, E: Files>(
    rt: &R,
    alloc: Global,
    port: &mut P,
    files: &mut E,
    command: &WatchCommand<'_>,
) -> Result<WatchAnswer, NoMemory>
    requires main { (P.access port.old).caller ≡ main_caller }
    ensures ends { EndsWatchCommand (P.access port.old) (P.access port.new)
        (PerformsWatch command.now (E.told files.old).seen (E.told files.new).seen) result }
    ensures kept { OnErr result (Same (E.told files.old).seen (E.told files.new).seen) }
    ensures faults { IfOk result (λ answer. FaultsIf answer.file (E.told files.old).faults
        (E.told files.new).faults) }
    ensures clashes { IfOk result (λ answer. ClashesIf answer.file (E.told files.old).clashes
        (E.told files.new).clashes) }
    ensures first { IfOk result (λ answer. NamesFaultIf answer.file (file_word command.now)
        (E.told files.old).first (E.told files.new).first) }
    ensures later { (E.told files.old).faults ≤ (E.told files.new).faults }
    ensures faultless { OnErr result ((E.told files.new).faults ≡ (E.told files.old).faults) }
    ensures nameless { OnErr result ((E.told files.new).first ≡ (E.told files.old).first) }
    ensures unclashed { OnErr result ((E.told files.new).clashes ≡ (E.told files.old).clashes) }
    ensures same { IsSamePort (P.access port.old) (P.access port.new) }
{
    entries_add_up();
    match command {
        WatchCommand::Load { file } => load(rt, alloc, port, files, file.as_slice()),
        WatchCommand::Save { file } => save(rt, alloc, port, files, file.as_slice()),
        WatchCommand::Watch { path } => watch(rt, alloc, port, path.as_slice()),
        WatchCommand::Notes { watch } => notes(rt, alloc, port, *watch),
        WatchCommand::Unwatch { watch } => Ok(unwatch(rt, port, *watch)),
    }
}
