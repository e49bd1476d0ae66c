// The keys in which the front-ends say how many events they sent.
ghost use Rattle.std.specs.Prelude.{◌≡◌, OnErr, OnOk};
ghost use Rattle.daq_types.specs.Callers.{main_caller};
ghost use Rattle.odb_watch.specs.DatabasePorts.{IsSamePort};
ghost use Rattle.session_commands.specs.RunLines.{CutsKeys, KeysMade};

use daq_types::{Name, NoMemory};
use odb_runinfo::open_front;
use odb_watch::DatabasePort;
use std::alloc::Global;
use std::sync::Wait;

/// Makes the keys of these front-ends, in order. Any refusal but want of memory is passed over.
pub fn make_keys<R: Wait, D: DatabasePort>(
    rt: &R,
    alloc: Global,
    access: &mut D,
    fronts: &[Name],
) -> Result<(), NoMemory>
    requires main { (D.access access.old).caller ≡ main_caller }
    ensures made { OnOk result (KeysMade fronts.now (D.access access.old)
        (D.access access.new)) }
    ensures cut { OnErr result (CutsKeys fronts.now (D.access access.old)
        (D.access access.new)) }
    ensures same { IsSamePort (D.access access.old) (D.access access.new) }
{
    for front in fronts {
        open_front(rt, alloc, access, *front)?;
    }
    Ok(())
}
