//! What the lines of a script say together. Each function does nothing, and its contract is the law.
ghost use Rattle.session_commands.specs.Finishing.{UnopenedFinish};
ghost use Rattle.session_commands.specs.FirstStarts.{CutFinish, ReadyFinish};
ghost use Rattle.session_commands.specs.KeptByScripts.{ScriptsKeep};

use crate::passed_over::PassedOver;
use crate::unopened::Unopened;
use console::script_laws::lines_end;
use daq_io::{Clock, Files};
use odb_commands::laws::calls_spare_runinfo;
use odb_commands::watch_laws::watch_commands_spare_runinfo;
use odb_lock::{SharedAccess, SharedOdb};
use odb_runinfo::laws::own_calls_spare;
use odb_tree::Database;
use odb_watch::WatchPort;
use odb_watch::port_laws::{calls_add_up, entries_add_up};
use session_runs::laws::{commands_fit, runs_fit};

/// What the first start does once its session is open it does from where the session was not open. Where there is no memory to
/// open it, the script ended there. And behind a script that opened no session nothing is done.
pub fn first_start_opens<'a, D: Database, E: Files, C: Clock>(_shared: &'a SharedOdb<D>)
    ensures ready { ReadyFinish }
    ensures cut { CutFinish }
    ensures unopened { UnopenedFinish }
{
    start_opens::<SharedAccess<'a, D>, E, C>();
}

/// The same of a session whose database is called by any port.
fn start_opens<D: WatchPort, E: Files, C: Clock>()
    ensures ready { ReadyFinish }
    ensures cut { CutFinish }
    ensures unopened { UnopenedFinish }
{
    lines_end::<Unopened<D, E, C>>();
}

/// What a script that was played to its end keeps of its session.
pub fn scripts_keep()
    ensures { ScriptsKeep }
{
    commands_fit::<PassedOver>();
    runs_fit();
    entries_add_up();
    calls_add_up();
    calls_spare_runinfo();
    watch_commands_spare_runinfo();
    own_calls_spare();
}
