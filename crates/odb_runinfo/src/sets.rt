ghost use Rattle.std.specs.Prelude.{◌≡◌, ◌≤◌, ◌+◌, ◌<◌, ◌^◌, Err, IfOk, OnErr, OnOk};
ghost use Rattle.daq_types.specs.Callers.{main_caller};
ghost use Rattle.odb_tree.specs.declared.refusals.OdbRefusal.TheVariants.{NoMemory as no_memory};
ghost use Rattle.odb_watch.specs.DatabasePorts.{IsSamePort, MayAdd};
ghost use Rattle.odb_runinfo.specs.RunSets.{AsksKey, GetsNumber, number_asked, number_in, next_run, sent_key_made};

use crate::keys::{RunKey, sent_path};
use daq_types::{Name, NoMemory, Tid};
use odb_tree::{NewKey, OdbRefusal};
use odb_value::{Item, Value};
use odb_watch::DatabasePort;
use std::alloc::Global;
use std::sync::Wait;

/// The database's run number has no next one: it is below 0, or is 2,147,483,647.
#[derive(Clone, Copy, Debug, PartialEq, Eq)]
pub struct RunNumber {
    pub have: i32,
}

/// The number in item 0, where there is one.
fn number_in(value: &Value) -> i32
    ensures { result ≡ number_in value.now.items }
{
    match value.items() {
        [Item::Int32(number), ..] => *number,
        _ => 0,
    }
}

/// The number of the run after this one.
fn after_run(have: i32) -> Result<u32, RunNumber>
    ensures run { result ≡ next_run have }
    ensures small { IfOk result (λ run. run < 2 ^ 31) }
    ensures least { IfOk result (λ run. 1 ≤ run) }
{
    if have < 0 || have == i32::MAX {
        return Err(RunNumber { have });
    }
    Ok(have as u32 + 1)
}

/// The number of the next run, by one `get`.
pub fn next_run<R: Wait, P: DatabasePort>(
    rt: &R,
    alloc: Global,
    port: &mut P,
) -> Result<Result<u32, RunNumber>, NoMemory>
    ensures run { IfOk result (λ run. GetsNumber (P.access port.old) (P.access port.new) run) }
    ensures small { IfOk result (λ run. IfOk run (λ number. number < 2 ^ 31)) }
    ensures least { IfOk result (λ run. IfOk run (λ number. 1 ≤ number)) }
    ensures interrupted { OnErr result (MayAdd (P.access port.old) (P.access port.new)
        (number_asked (Err no_memory))) }
    ensures same { IsSamePort (P.access port.old) (P.access port.new) }
{
    let path = RunKey::RunNumber.path(alloc)?;
    match port.get(rt, alloc, path) {
        Ok(value) => Ok(after_run(number_in(&value))),
        Err(OdbRefusal::NoMemory) => Err(NoMemory),
        Err(_) => Ok(after_run(0)),
    }
}

/// Makes the key in which the front-end of this name says how many events it sent, by the main thread. A refusal, as
/// where the key is there already, changes nothing.
pub fn open_front<R: Wait, P: DatabasePort>(
    rt: &R,
    alloc: Global,
    port: &mut P,
    front: Name,
) -> Result<(), NoMemory>
    requires main { (P.access port.old).caller ≡ main_caller }
    ensures asked { OnOk result (AsksKey (P.access port.old) (P.access port.new) front) }
    ensures interrupted { OnErr result (MayAdd (P.access port.old) (P.access port.new)
        (sent_key_made front (Err no_memory))) }
    ensures same { IsSamePort (P.access port.old) (P.access port.new) }
{
    let path = sent_path(alloc, front)?;
    let kind = NewKey::Keys {
        tid: Tid::UInt64,
        len: 1,
    };
    match port.create(rt, alloc, path, kind) {
        Ok(_) => Ok(()),
        Err(OdbRefusal::NoMemory) => Err(NoMemory),
        Err(_) => Ok(()),
    }
}
