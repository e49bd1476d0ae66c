ghost use Rattle.std.specs.Prelude.{◌≡◌, ◌≤◌, ◌+◌, ◌^◌, false, length, IfOk, IfErr, OnOk, Err};
ghost use Rattle.event.specs.Events.{slot_size, is_reserved, event_limit};
ghost use Rattle.event.specs.Headers.{event_of};
ghost use Rattle.buffer_core.specs.Window.{Window};
ghost use Rattle.buffer_core.specs.Calls.{send_reply};

use crate::replies::SendRefusal;
use event::{Header, MAX_DATA, slot_len};

/// The most bytes that all events of a buffer take together, whether still kept or not.
const MAX_TOTAL: u64 = 1 << 62;

/// Whether the id is one that no front-end may send: that of a run record or of a fragment.
fn is_id_reserved(id: u16) -> bool
    ensures { result ≡ is_reserved id }
{
    id == 0x8000 || id == 0x8001 || id / 4096 == 12 || id / 4096 == 13
}

/// The room that the event takes in a buffer of this size, in which all events took so much together; or why no such
/// buffer takes it, whichever events and clients it has.
pub fn slot_for(header: &Header, body: &[u8], size: u32, total: u64) -> Result<u32, SendRefusal>
    ensures slot { IfOk result (λ slot. slot ≡ slot_size (event_of header.now body.now)) }
    ensures stated { OnOk result (header.now.data_size ≡ length body.now) }
    ensures small { OnOk result (length body.now ≤ event_limit) }
    ensures free { OnOk result (is_reserved header.now.event_id ≡ false) }
    ensures fits { OnOk result (slot_size (event_of header.now body.now) ≤ size) }
    ensures spent { OnOk result (total + slot_size (event_of header.now body.now) ≤ 2 ^ 62) }
    ensures refused { IfErr result (λ refusal. (w : Window) → w.size ≡ size → w.total ≡ total →
        send_reply w header.now.data_size (event_of header.now body.now) ≡ Err refusal) }
{
    if header.data_size as usize != body.len() || header.data_size > MAX_DATA {
        return Err(SendRefusal::BadSize {
            stated: header.data_size,
            given: body.len() as u64,
        });
    }
    if is_id_reserved(header.event_id) {
        return Err(SendRefusal::ReservedId {
            id: header.event_id,
        });
    }
    let slot = slot_len(header.data_size);
    if slot > size {
        return Err(SendRefusal::TooLarge { slot, size });
    }
    if total > MAX_TOTAL - u64::from(slot) {
        return Err(SendRefusal::Spent { total });
    }
    Ok(slot)
}
