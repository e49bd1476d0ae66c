ghost use Rattle.std.specs.Prelude.{◌≡◌, true, IfOk, OnOk, IsTrue, None, Ok};
ghost use Rattle.odb_value.specs.Items.{is_kept, tid_of};
ghost use Rattle.odb_value.specs.Values.{IsShorter, size_limit};
ghost use Rattle.odb_tree.specs.Rows.{no_rows};
ghost use Rattle.odb_tree.specs.Links.{resolved};
ghost use Rattle.odb_tree.specs.Calls.{after_set_all, set_all_fault};
ghost use Rattle.odb_runinfo.specs.RunKeys.{key_path, value_of_one, with_key, opened_rows};

use crate::keys::RunKey;
use daq_types::NoMemory;
use odb_tree::{Database, OdbRefusal};
use odb_value::{Item, Path, Value};
use std::alloc::Global;

/// The value with this one item.
fn value_of_one(alloc: Global, item: Item) -> Result<Value, NoMemory>
    requires kept { IsTrue (is_kept (tid_of item)) }
    requires short { IsShorter size_limit item }
    ensures { IfOk result (λ value. value ≡ value_of_one item) }
{
    let mut value = Value::new(alloc, item.tid(), 1)?;
    value.put(0, item);
    Ok(value)
}

/// Sets the value of the key at this path, on which no link is met, where nothing refuses it.
fn set_key<D: Database>(
    alloc: Global,
    database: &mut D,
    path: &Path,
    value: &Value,
) -> Result<(), NoMemory>
    requires way { resolved (D.rows database.old) path.now true ≡ Ok path.now }
    requires free { set_all_fault (D.rows database.old) path.now value.now ≡ None }
    ensures { OnOk result (D.rows database.new ≡ after_set_all (D.rows database.old) path.now value.now) }
{
    match database.set_all(alloc, path, value) {
        Ok(_) => Ok(()),
        Err(OdbRefusal::NoMemory) => Err(NoMemory),
        Err(_) => unreachable!(),
    }
}

/// Makes the key with this one item, where nothing refuses it and no link is met.
fn add_key<D: Database>(
    alloc: Global,
    database: &mut D,
    key: RunKey,
    item: Item,
) -> Result<(), NoMemory>
    requires kept { IsTrue (is_kept (tid_of item)) }
    requires short { IsShorter size_limit item }
    requires way { resolved (D.rows database.old) (key_path key) true ≡ Ok (key_path key) }
    requires free { set_all_fault (D.rows database.old) (key_path key) (value_of_one item) ≡ None }
    ensures { OnOk result (D.rows database.new ≡ with_key (D.rows database.old) key item) }
{
    let path = key.path(alloc)?;
    let value = value_of_one(alloc, item)?;
    set_key(alloc, database, &path, &value)
}

/// Makes the keys of `/Runinfo` in a new database, which may have some of them where memory is wanting.
pub fn open<D: Database>(alloc: Global, database: &mut D) -> Result<(), NoMemory>
    requires { D.rows database.old ≡ record no_rows { links = (D.rows database.old).links } }
    ensures { OnOk result (D.rows database.new ≡ opened_rows (D.rows database.old).links) }
{
    add_key(alloc, database, RunKey::State, Item::Int32(1))?;
    add_key(alloc, database, RunKey::RunNumber, Item::Int32(0))?;
    add_key(alloc, database, RunKey::StartTime, Item::UInt32(0))?;
    add_key(alloc, database, RunKey::StopTime, Item::UInt32(0))
}
