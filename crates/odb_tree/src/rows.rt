ghost use Rattle.std.specs.Prelude.{◌≡◌, IfSome};
ghost use Rattle.odb_tree.specs.declared.rows.NewKey.TheVariants.{Link};
ghost use Rattle.odb_tree.specs.Databases.{IsSoundKey};

use daq_types::{Name, Tid};
use odb_value::{Path, Value};

/// A row of the database: a key with its value, or a directory.
#[derive(Drop)]
pub struct Row {
    /// From 1 on in order of making. The root has number 0 and is no row.
    pub number: u32,
    /// The path as it is spelled in the database.
    pub path: Path,
    /// None for a directory.
    pub value: Option<Value>,
}

/// What `create` makes.
#[derive(Drop)]
pub enum NewKey {
    /// A directory.
    Dir,
    /// A key of so many items of this type: 0, n or empty texts, with the item size 32.
    Keys { tid: Tid, len: u32 },
    /// A link to this path: a key of type LINK with the path's text.
    Link { target: Path },
}

impl NewKey {
    /// The names of the path to which a new link goes; None for anything else.
    pub fn target(&self) -> Option<&[Name]>
        ensures sound { IsSoundKey self.now }
        ensures link { IfSome result (λ names. self.now ≡ Link names.now) }
    {
        match self {
            NewKey::Link { target } => Some(target.names()),
            NewKey::Dir | NewKey::Keys { .. } => None,
        }
    }
}
