ghost use Rattle.std.specs.Prelude.{◌≡◌, ◌≤◌, ◌<◌, length, drop, None, Some, IfOk, IfErr, OnOk, []};
ghost use Rattle.bank_format.specs.Formats.{format_with};
ghost use Rattle.bank_format.specs.Places.{stated_flags, HasBank, behind_bank};
ghost use Rattle.bank_format.specs.Faults.{front_fault, bank_fault, PassesBanks, BreaksOff};

use crate::faults::BankFault;
use crate::formats::Format;
use crate::places::{padded_len, read_flags, read_length, read_size};

/// The format and the area that the first 8 bytes announce.
#[tactic(auto, unfolding(crate::specs::Faults::front_fault))]
pub fn split_front(bytes: &[u8]) -> Result<(Format, &[u8]), BankFault>
    ensures right { OnOk result (front_fault bytes.now ≡ None) }
    ensures named { IfOk result (λ front. format_with (stated_flags bytes.now) ≡ Some front.0) }
    ensures area { IfOk result (λ front. front.1.now ≡ drop 8 bytes.now) }
    ensures fault { IfErr result (λ fault. front_fault bytes.now ≡ Some fault) }
{
    let total = bytes.len() as u64;
    if total < 8 {
        return Err(BankFault::Short { at: total });
    }
    let found = read_flags(bytes);
    let Some(format) = Format::from_flags(found) else {
        return Err(BankFault::BadFlags { found });
    };
    let stated = 8 + read_length(bytes) as u64;
    if total < stated {
        return Err(BankFault::Short { at: total });
    }
    if stated < total {
        return Err(BankFault::BadSize { at: 0 });
    }
    let (_, area) = bytes.split_at(8);
    Ok((format, area))
}

/// What stands behind the bank at the front, where `total` bytes make the whole.
#[tactic(auto, unfolding(crate::specs::Faults::bank_fault))]
fn skip_bank(format: Format, total: u64, left: &[u8]) -> Result<&[u8], BankFault>
    requires some { 0 < length left.now }
    requires within { length left.now ≤ total }
    ensures whole { OnOk result (HasBank format left.now) }
    ensures rest { IfOk result (λ rest. rest.now ≡ behind_bank format left.now) }
    ensures fault { IfErr result (λ fault. bank_fault format total left.now ≡ Some fault) }
{
    let header_len = format.header_len();
    if left.len() < header_len {
        return Err(BankFault::Short { at: total });
    }
    let padded = padded_len(read_size(format, left));
    if left.len() < header_len + padded {
        return Err(BankFault::BadSize {
            at: total - left.len() as u64,
        });
    }
    let (_, data) = left.split_at(header_len);
    let (_, rest) = data.split_at(padded);
    Ok(rest)
}

/// Goes over the banks of an area, where `total` bytes make the whole.
pub fn check_area(format: Format, total: u64, area: &[u8]) -> Result<(), BankFault>
    requires { length area.now ≤ total }
    ensures whole { OnOk result (PassesBanks format area.now []) }
    ensures fault { IfErr result (λ fault. BreaksOff format total area.now fault) }
{
    let mut left = area;
    while !left.is_empty() {
        left = skip_bank(format, total, left)?;
    }
    Ok(())
}
