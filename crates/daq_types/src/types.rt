ghost use Rattle.std.specs.Prelude.{◌≡◌, ◌≢◌, ◌↔◌, IsTrue, IfSome, IfNone};
ghost use Rattle.daq_types.specs.declared.types.Tid.{Tid};
ghost use Rattle.daq_types.specs.Tids.{tid_code, tid_name, tid_older_name, tid_size, IsNamed};

/// The type of a bank's items or of a key of the online database, with the numbers and names that MIDAS gives them.
#[derive(Clone, Copy, Debug, PartialEq, Eq)]
pub enum Tid {
    UInt8 = 1,
    Int8 = 2,
    Char = 3,
    UInt16 = 4,
    Int16 = 5,
    UInt32 = 6,
    Int32 = 7,
    Bool = 8,
    Float = 9,
    Double = 10,
    BitField = 11,
    Text = 12,
    Array = 13,
    Struct = 14,
    Key = 15,
    Link = 16,
    Int64 = 17,
    UInt64 = 18,
}

impl Tid {
    /// The type's number, 1 to 18.
    pub fn code(&self) -> u32
        ensures { result ≡ tid_code self.now }
    {
        *self as u32
    }

    /// The bytes of one item; 0 where the type has no size of its own.
    pub fn size(&self) -> u32
        ensures { result ≡ tid_size self.now }
    {
        match self {
            Tid::Double | Tid::Int64 | Tid::UInt64 => 8,
            Tid::UInt32 | Tid::Int32 | Tid::Bool | Tid::Float | Tid::BitField => 4,
            Tid::UInt16 | Tid::Int16 => 2,
            Tid::UInt8 | Tid::Int8 | Tid::Char => 1,
            Tid::Text | Tid::Array | Tid::Struct | Tid::Key | Tid::Link => 0,
        }
    }

    /// The type's name, in capital letters.
    pub fn name(&self) -> &'static str
        ensures { result.now ≡ tid_name self.now }
    {
        match self {
            Tid::UInt8 => "UINT8",
            Tid::Int8 => "INT8",
            Tid::Char => "CHAR",
            Tid::UInt16 => "UINT16",
            Tid::Int16 => "INT16",
            Tid::UInt32 => "UINT32",
            Tid::Int32 => "INT32",
            Tid::Bool => "BOOL",
            Tid::Float => "FLOAT",
            Tid::Double => "DOUBLE",
            Tid::BitField => "BITFIELD",
            Tid::Text => "STRING",
            Tid::Array => "ARRAY",
            Tid::Struct => "STRUCT",
            Tid::Key => "KEY",
            Tid::Link => "LINK",
            Tid::Int64 => "INT64",
            Tid::UInt64 => "UINT64",
        }
    }

    /// The type with this number.
    pub fn from_code(code: u32) -> Option<Tid>
        ensures found { IfSome result (λ tid. tid_code tid ≡ code) }
        ensures none { IfNone result ((tid : Tid) → tid_code tid ≢ code) }
    {
        match code {
            1 => Some(Tid::UInt8),
            2 => Some(Tid::Int8),
            3 => Some(Tid::Char),
            4 => Some(Tid::UInt16),
            5 => Some(Tid::Int16),
            6 => Some(Tid::UInt32),
            7 => Some(Tid::Int32),
            8 => Some(Tid::Bool),
            9 => Some(Tid::Float),
            10 => Some(Tid::Double),
            11 => Some(Tid::BitField),
            12 => Some(Tid::Text),
            13 => Some(Tid::Array),
            14 => Some(Tid::Struct),
            15 => Some(Tid::Key),
            16 => Some(Tid::Link),
            17 => Some(Tid::Int64),
            18 => Some(Tid::UInt64),
            _ => None,
        }
    }

    /// The type with this name, in capital letters, or with this older name.
    pub fn from_name(name: &[u8]) -> Option<Tid>
        ensures found { IfSome result (IsNamed name.now) }
        ensures none { IfNone result ((tid : Tid) → ¬ (IsNamed name.now tid)) }
    {
        TYPES.iter().copied().find(|tid| tid.is_named(name))
    }

    /// The name that older programs give the type.
    fn older_name(&self) -> Option<&'static [u8]>
        ensures given { IfSome result (λ older. tid_older_name self.now ≡ Some older.now) }
        ensures none { IfNone result (tid_older_name self.now ≡ None) }
    {
        match self {
            Tid::UInt8 => Some(b"BYTE"),
            Tid::Int8 => Some(b"SBYTE"),
            Tid::UInt16 => Some(b"WORD"),
            Tid::Int16 => Some(b"SHORT"),
            Tid::UInt32 => Some(b"DWORD"),
            Tid::Int32 => Some(b"INT"),
            _ => None,
        }
    }

    /// Whether the type has this name, or older programs give it this name.
    fn is_named(&self, name: &[u8]) -> bool
        ensures { IsTrue result ↔ IsNamed name.now self.now }
    {
        self.name().as_bytes() == name || self.older_name() == Some(name)
    }
}

/// All types.
const TYPES: [Tid; 18] = [
    Tid::UInt8,
    Tid::Int8,
    Tid::Char,
    Tid::UInt16,
    Tid::Int16,
    Tid::UInt32,
    Tid::Int32,
    Tid::Bool,
    Tid::Float,
    Tid::Double,
    Tid::BitField,
    Tid::Text,
    Tid::Array,
    Tid::Struct,
    Tid::Key,
    Tid::Link,
    Tid::Int64,
    Tid::UInt64,
];
