ghost use Rattle.std.specs.Prelude.{◌≡◌};
ghost use Rattle.event_report.specs.Tallies.{order_number};

use crate::integers::IntegerType;

/// The rows that a report has for ids, and those that it has for banks.
pub const ROW_LIMIT: usize = 256;

/// What a report says of some integers, of which there is at least one.
#[derive(Clone, Copy, Debug, PartialEq, Eq)]
pub struct Figures {
    /// How many there are.
    pub count: u64,
    /// Their sum.
    pub sum: i128,
    /// The least.
    pub least: i128,
    /// The greatest.
    pub greatest: i128,
}

/// How many events have an id.
#[derive(Clone, Copy, Debug, PartialEq, Eq)]
pub struct IdRow {
    /// The id.
    pub id: u16,
    /// The events.
    pub count: u64,
}

/// What the banks of a name and type held.
#[derive(Clone, Copy, Debug, PartialEq, Eq)]
pub struct BankRow {
    /// The banks' name, any four bytes.
    pub name: [u8; 4],
    /// Their type.
    pub kind: IntegerType,
    /// All of their items.
    pub figures: Figures,
}

/// The number by which names and types are told apart and put in order: the bytes of the name, the first one weighing
/// most, and then the type.
pub fn order_number(name: [u8; 4], kind: IntegerType) -> u64
    ensures { result ≡ order_number name kind }
{
    u32::from_be_bytes(name) as u64 * 256 + kind.tid().code() as u64
}
