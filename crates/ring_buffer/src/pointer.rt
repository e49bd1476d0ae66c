ghost use Rattle.std.specs.Prelude.{◌≡◌};
ghost use Rattle.std.specs.Option.{option_map};
ghost use Rattle.ring_buffer.specs.Pointers.{moved, raised};

use buffer_core::Client;

/// A client, and the offset of the place that it goes on from.
#[derive(Clone, Copy, Debug)]
pub struct Pointer {
    pub client: Client,
    pub off: u64,
}

/// The client of this slot, if there is one, goes on from this place, which has this offset.
pub fn move_slot(slot: &mut Option<Pointer>, off: u64, place: u64)
    ensures { slot.new ≡ option_map (moved off place) slot.old }
{
    if let Some(pointer) = slot {
        pointer.client.next = place;
        pointer.off = off;
    }
}

/// And so it does if it is behind.
pub fn raise_slot(slot: &mut Option<Pointer>, off: u64, place: u64)
    ensures { slot.new ≡ option_map (raised off place) slot.old }
{
    if let Some(pointer) = slot {
        if pointer.client.next < place {
            pointer.client.next = place;
            pointer.off = off;
        }
    }
}
