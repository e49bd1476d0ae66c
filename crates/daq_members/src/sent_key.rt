ghost use Rattle.std.specs.Prelude.{◌≡◌, IfOk};
ghost use Rattle.odb_watch.specs.DatabasePorts.{IsSamePort, own_watched};
ghost use Rattle.odb_runinfo.specs.RunKeys.{sent_path};

use daq_types::{Name, NoMemory};
use odb_runinfo::sent_path;
use odb_value::{Item, Path};
use odb_watch::WatchPort;
use odb_watch::port_laws::calls_add_up;
use std::alloc::Global;
use std::sync::Wait;

/// The key of the database in which the front-end of this name says how many events it sent. Only `new` takes memory.
#[derive(Drop)]
pub struct SentKey {
    pub name: Name,
    path: Path,
    alloc: Global,
    ghost path_is: { path ≡ sent_path name },
}

impl SentKey {
    ghost use Rattle.daq_members.specs.SentSets.{AddsNumberIf};
    ghost use Rattle.daq_members.specs.FrontTaken.{SetsSent};

    /// The key of the front-end of this name.
    pub fn new(alloc: Global, name: Name) -> Result<SentKey, NoMemory>
        ensures { IfOk result (λ key. key.name ≡ name) }
    {
        let path = sent_path(alloc, name)?;
        Ok(SentKey { name, path, alloc })
    }

    /// Sets the number in the key, if there is one. A refusal is passed over.
    pub fn set<R: Wait, D: WatchPort>(&self, rt: &R, port: &mut D, number: Option<u64>)
        ensures sets { SetsSent self.now.name number (D.access port.old)
            (D.access port.new) }
        ensures own { AddsNumberIf self.now.name number (own_watched (D.access port.old))
            (own_watched (D.access port.new)) }
        ensures same { IsSamePort (D.access port.old) (D.access port.new) }
    {
        calls_add_up();
        let Some(sent) = number else {
            return;
        };
        let _ = port.set_lent(rt, self.alloc, &self.path, 0, &Item::UInt64(sent));
    }
}
