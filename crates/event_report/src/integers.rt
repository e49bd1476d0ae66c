ghost use Rattle.std.specs.Prelude.{◌≡◌, ◌≤◌, ◌^◌, IsTrue, length, pos, neg_ℤ, ◌≤ℤ◌};
ghost use Rattle.std.specs.Int.{from_le_bytes, w16, w32, w64};
ghost use Rattle.event_report.specs.Integers.{integer_tid, integer_type, is_narrow, item_size, first_item};

use daq_types::Tid;

/// A type of banks whose items are integers.
#[derive(Clone, Copy, Debug, PartialEq, Eq)]
pub enum IntegerType {
    UInt8,
    Int8,
    UInt16,
    Int16,
    UInt32,
    Int32,
    Int64,
    UInt64,
}

impl IntegerType {
    /// The integer type with this number; `None` exactly where the number is that of no integer type.
    pub fn from_code(code: u32) -> Option<IntegerType>
        ensures { result ≡ integer_type code }
    {
        match code {
            1 => Some(IntegerType::UInt8),
            2 => Some(IntegerType::Int8),
            4 => Some(IntegerType::UInt16),
            5 => Some(IntegerType::Int16),
            6 => Some(IntegerType::UInt32),
            7 => Some(IntegerType::Int32),
            17 => Some(IntegerType::Int64),
            18 => Some(IntegerType::UInt64),
            _ => None,
        }
    }

    /// The type among all types of banks and keys.
    pub fn tid(self) -> Tid
        ensures { result ≡ integer_tid self }
    {
        match self {
            IntegerType::UInt8 => Tid::UInt8,
            IntegerType::Int8 => Tid::Int8,
            IntegerType::UInt16 => Tid::UInt16,
            IntegerType::Int16 => Tid::Int16,
            IntegerType::UInt32 => Tid::UInt32,
            IntegerType::Int32 => Tid::Int32,
            IntegerType::Int64 => Tid::Int64,
            IntegerType::UInt64 => Tid::UInt64,
        }
    }

    /// The bytes of one item.
    #[inline(always)]
    pub fn size(self) -> usize
        ensures { result ≡ item_size self }
    {
        match self {
            IntegerType::UInt8 | IntegerType::Int8 => 1,
            IntegerType::UInt16 | IntegerType::Int16 => 2,
            IntegerType::UInt32 | IntegerType::Int32 => 4,
            IntegerType::Int64 | IntegerType::UInt64 => 8,
        }
    }

    /// The item at the front of the bytes, its low byte first.
    #[inline(always)]
    pub fn first_item(self, bytes: &[u8]) -> i128
        requires { item_size self ≤ length bytes.now }
        ensures item { result ≡ first_item self bytes.now }
        ensures low { neg_ℤ (pos (2 ^ 64)) ≤ℤ result }
        ensures high { result ≤ℤ pos (2 ^ 64) }
    {
        match self {
            IntegerType::UInt64 => read_u64(bytes) as i128,
            narrow => narrow.narrow_item(bytes) as i128,
        }
    }

    /// The same, of a type whose items fit in 64 bits with a sign.
    #[inline(always)]
    pub fn narrow_item(self, bytes: &[u8]) -> i64
        requires narrow { IsTrue (is_narrow self) }
        requires whole { item_size self ≤ length bytes.now }
        ensures { result ≡ first_item self bytes.now }
    {
        match self {
            IntegerType::UInt8 => bytes[0] as i64,
            IntegerType::Int8 => bytes[0].cast_signed() as i64,
            IntegerType::UInt16 => read_u16(bytes) as i64,
            IntegerType::Int16 => read_u16(bytes).cast_signed() as i64,
            IntegerType::UInt32 => read_u32(bytes) as i64,
            IntegerType::Int32 => read_u32(bytes).cast_signed() as i64,
            IntegerType::Int64 => read_u64(bytes).cast_signed(),
            IntegerType::UInt64 => unreachable!(),
        }
    }
}

/// The number in the first 2 bytes, the low byte first.
fn read_u16(bytes: &[u8]) -> u16
    requires { 2 ≤ length bytes.now }
    ensures { result ≡ from_le_bytes w16 bytes.now }
{
    u16::from_le_bytes([bytes[0], bytes[1]])
}

/// The number in the first 4 bytes, the low byte first.
fn read_u32(bytes: &[u8]) -> u32
    requires { 4 ≤ length bytes.now }
    ensures { result ≡ from_le_bytes w32 bytes.now }
{
    u32::from_le_bytes([bytes[0], bytes[1], bytes[2], bytes[3]])
}

/// The number in the first 8 bytes, the low byte first.
fn read_u64(bytes: &[u8]) -> u64
    requires { 8 ≤ length bytes.now }
    ensures { result ≡ from_le_bytes w64 bytes.now }
{
    u64::from_le_bytes([
        bytes[0], bytes[1], bytes[2], bytes[3], bytes[4], bytes[5], bytes[6], bytes[7],
    ])
}
