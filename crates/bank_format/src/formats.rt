ghost use Rattle.std.specs.Prelude.{◌≡◌};
ghost use Rattle.bank_format.specs.Formats.{flags_of, format_with, header_len};

/// One of the three formats of a bank area.
#[derive(Clone, Copy, Debug, PartialEq, Eq)]
pub enum Format {
    /// Type and size of a bank have 16 bits.
    Bank16,
    /// Type and size of a bank have 32 bits.
    Bank32,
    /// As `Bank32`, with a reserved word that makes a bank's header a multiple of 8 bytes.
    Bank32A,
}

impl Format {
    /// The number that names the format in front of an area.
    pub fn flags(self) -> u32
        ensures { result ≡ flags_of self }
    {
        match self {
            Format::Bank16 => 0x01,
            Format::Bank32 => 0x11,
            Format::Bank32A => 0x31,
        }
    }

    /// The format that a number names in front of an area.
    pub fn from_flags(flags: u32) -> Option<Format>
        ensures { result ≡ format_with flags }
    {
        match flags {
            0x01 => Some(Format::Bank16),
            0x11 => Some(Format::Bank32),
            0x31 => Some(Format::Bank32A),
            _ => None,
        }
    }

    /// The bytes of a bank's header.
    pub fn header_len(self) -> usize
        ensures { result ≡ header_len self }
    {
        match self {
            Format::Bank16 => 8,
            Format::Bank32 => 12,
            Format::Bank32A => 16,
        }
    }
}
