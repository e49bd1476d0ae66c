ghost use Rattle.std.specs.Prelude.{◌≡◌, ◌≤◌, ◌^◌};
ghost use Rattle.mid_format.specs.Faults.{size_fault, header_fault, nothing_left};

use crate::records::{BEGIN_ID, END_ID, MAX_DUMP, RECORD_MASK};
use event::{HEADER_BYTES, Header, MAX_DATA};

/// The most bytes that a run file has, 2^62.
const MAX_PLACE: u64 = 1 << 62;

/// Why bytes are no run file. Of several faults, the first in the file; at one header, the first of this order: nothing
/// left, a cut header, a wrong record, too much data, cut data. Places count the bytes in front.
#[derive(Clone, Copy, Debug, PartialEq, Eq)]
pub enum MidFault {
    /// The bytes end within a header or its data. The place is their end.
    Truncated { at: u64 },
    /// The first header is none of a begin record, or there is none.
    NoBegin { at: u64 },
    /// The bytes end behind an event, without an end record.
    NoEnd { at: u64 },
    /// A byte follows the end record.
    AfterEnd { at: u64 },
    /// The header at this place states more data than an event or a record may have.
    TooBig { at: u64, size: u32 },
    /// The source failed.
    ReadFault,
    /// A second begin record, or an end record whose mask is wrong or whose run number is not the begin record's.
    BadRecord { at: u64 },
    /// The data of the header at this place would end behind byte 2^62.
    TooLong { at: u64 },
}

/// The fault of a header that states too much data.
fn size_fault(at: u64, limit: u32, header: &Header) -> Option<MidFault>
    requires { at ≤ 2 ^ 62 }
    ensures { result ≡ size_fault at limit header.now }
{
    let size = header.data_size;
    if size > limit {
        return Some(MidFault::TooBig { at, size });
    }
    if at + HEADER_BYTES as u64 + size as u64 > MAX_PLACE {
        return Some(MidFault::TooLong { at });
    }
    None
}

/// The fault of a header at this place, in the file of a run or at its begin.
pub fn header_fault(run: Option<u32>, at: u64, header: &Header) -> Option<MidFault>
    requires { at ≤ 2 ^ 62 }
    ensures { result ≡ header_fault run at header.now }
{
    let Some(run) = run else {
        if header.event_id != BEGIN_ID || header.trigger_mask != RECORD_MASK {
            return Some(MidFault::NoBegin { at });
        }
        return size_fault(at, MAX_DUMP, header);
    };
    if header.event_id == BEGIN_ID {
        return Some(MidFault::BadRecord { at });
    }
    if header.event_id != END_ID {
        return size_fault(at, MAX_DATA, header);
    }
    if header.trigger_mask != RECORD_MASK || header.serial_number != run {
        return Some(MidFault::BadRecord { at });
    }
    size_fault(at, MAX_DUMP, header)
}

/// The fault where the bytes end in place of a header.
pub fn nothing_left(run: Option<u32>, at: u64) -> MidFault
    ensures { result ≡ nothing_left run at }
{
    match run {
        None => MidFault::NoBegin { at },
        Some(_) => MidFault::NoEnd { at },
    }
}
