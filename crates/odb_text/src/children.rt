ghost use Rattle.std.specs.Prelude.{◌≡◌, ◌++◌, ◌∷◌, [], IfOk, All};
ghost use Rattle.odb_tree.specs.Trees.{IsDir};
ghost use Rattle.odb_tree.specs.Databases.{IsDatabase};
ghost use Rattle.odb_tree.specs.Calls.{children_of};
ghost use Rattle.odb_text.specs.Standing.{IsChildIn};

use daq_types::NoMemory;
use odb_tree::{Child, Children, Database};
use odb_value::Path;
use std::alloc::Global;

/// What stands in a directory.
pub fn children_of<D: Database>(
    alloc: Global,
    database: &D,
    path: &Path,
) -> Result<Children, NoMemory>
    requires { IsDir (D.rows database.now).rows path.now }
    ensures children { IfOk result (λ children. children
        ≡ children_of (D.rows database.now).rows path.now) }
    ensures database { IfOk result (λ _. IsDatabase (D.rows database.now)) }
    ensures stand { IfOk result (All (IsChildIn (D.rows database.now) path.now)) }
{
    match database.list(alloc, path) {
        Ok(children) => Ok(children),
        Err(_) => Err(NoMemory),
    }
}

/// The path of what stands in a directory. The database stands for the contract alone.
pub fn path_of_child<D: Database>(
    alloc: Global,
    _database: &D,
    path: &Path,
    child: &Child,
) -> Result<Path, NoMemory>
    requires { IsChildIn (D.rows _database.now) path.now child.now }
    ensures { IfOk result (λ own. own ≡ path.now ++ child.now.name ∷ []) }
{
    let mut own = path.try_clone(alloc)?;
    own.push(child.name)?;
    Ok(own)
}
