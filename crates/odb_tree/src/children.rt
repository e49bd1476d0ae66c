use daq_types::{BoundedList, Name};

/// What stands in a directory under one name.
#[derive(Clone, Copy, Debug)]
pub struct Child {
    pub name: Name,
    pub is_dir: bool,
    /// The number of its row.
    pub row: u32,
}

/// What stands in a directory: its keys, and then its directories, each in order of making.
pub type Children = BoundedList<Child, 0>;
