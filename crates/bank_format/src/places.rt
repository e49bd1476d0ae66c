ghost use Rattle.std.specs.Prelude.{◌≡◌, ◌≤◌, length};
ghost use Rattle.bank_format.specs.Formats.{header_len, padded};
ghost use Rattle.bank_format.specs.Places.{stated_length, stated_flags, stated_name, stated_tid, stated_size};

use crate::formats::Format;

/// The length that stands in front of an area.
#[tactic(auto, unfolding(crate::specs::Places::stated_length))]
pub fn read_length(bytes: &[u8]) -> u32
    requires { 8 ≤ length bytes.now }
    ensures { result ≡ stated_length bytes.now }
{
    u32::from_le_bytes([bytes[0], bytes[1], bytes[2], bytes[3]])
}

/// The flags that stand in front of an area.
#[tactic(auto, unfolding(crate::specs::Places::stated_flags))]
pub fn read_flags(bytes: &[u8]) -> u32
    requires { 8 ≤ length bytes.now }
    ensures { result ≡ stated_flags bytes.now }
{
    u32::from_le_bytes([bytes[4], bytes[5], bytes[6], bytes[7]])
}

/// The name of the bank at the front.
#[tactic(auto, unfolding(crate::specs::Places::stated_name))]
pub fn read_name(bytes: &[u8]) -> [u8; 4]
    requires { 8 ≤ length bytes.now }
    ensures { result ≡ stated_name bytes.now }
{
    [bytes[0], bytes[1], bytes[2], bytes[3]]
}

/// The type of the bank at the front.
#[tactic(auto, unfolding(crate::specs::Places::stated_tid))]
pub fn read_tid(format: Format, bytes: &[u8]) -> u32
    requires { header_len format ≤ length bytes.now }
    ensures { result ≡ stated_tid format bytes.now }
{
    match format {
        Format::Bank16 => u16::from_le_bytes([bytes[4], bytes[5]]) as u32,
        Format::Bank32 | Format::Bank32A => {
            u32::from_le_bytes([bytes[4], bytes[5], bytes[6], bytes[7]])
        }
    }
}

/// The size of the bank at the front, without padding.
#[tactic(auto, unfolding(crate::specs::Places::stated_size))]
pub fn read_size(format: Format, bytes: &[u8]) -> u32
    requires { header_len format ≤ length bytes.now }
    ensures { result ≡ stated_size format bytes.now }
{
    match format {
        Format::Bank16 => u16::from_le_bytes([bytes[6], bytes[7]]) as u32,
        Format::Bank32 | Format::Bank32A => {
            u32::from_le_bytes([bytes[8], bytes[9], bytes[10], bytes[11]])
        }
    }
}

/// A size up to a multiple of 8.
pub fn padded_len(size: u32) -> usize
    ensures { result ≡ padded size }
{
    (size as usize).div_ceil(8) * 8
}
