use daq_types::BoundedList;

/// An item of a key was written: the number of the key's row, and the index of the item.
#[derive(Clone, Copy, Debug, PartialEq, Eq)]
pub struct Note {
    pub row: u32,
    pub index: u32,
}

/// The notes that a watch keeps, with room for 256.
pub type Notes = BoundedList<Note, 256>;

/// A watch: the number of the row that is watched, 0 for the root; the notes kept since they were last taken; and how
/// many others there were.
#[derive(Drop)]
pub struct Watch {
    pub row: u32,
    pub notes: Notes,
    pub lost: u64,
}
