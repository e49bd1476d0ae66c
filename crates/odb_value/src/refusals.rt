use daq_types::{NoMemory, Tid};

/// Why a text is no item of a type.
#[derive(Clone, Copy, Debug, PartialEq, Eq)]
pub enum ItemRefusal {
    /// The text is not in the form of the type; `at` is the place of the first byte where the form cannot go on, or
    /// the text's length where it ends too early.
    BadText { at: u64 },
    /// A number outside its type's range, or a text of more than 1,023 bytes.
    OutOfRange,
    /// The database keeps no values of this type.
    NotKept { tid: Tid },
    /// There was no memory for a text.
    NoMemory,
}

impl From<NoMemory> for ItemRefusal {
    ghost use Rattle.std.specs.Prelude.{◌≡◌};
    ghost use Rattle.odb_value.specs.declared.refusals.ItemRefusal.TheVariants.{NoMemory};

    ghost from_gives = { λ _ e. e ≡ NoMemory };

    fn from(_e: NoMemory) -> ItemRefusal {
        ItemRefusal::NoMemory
    }
}
