ghost use Rattle.std.specs.Prelude.{◌≡◌, ◌≤◌, ◌+◌, ◌-◌, ◌^◌, [], length, Some, IfOk, IfErr, IfSome, IfNone};
ghost use Rattle.event.specs.Headers.{event_of};
ghost use Rattle.buffer_core.specs.declared.client.Client.{Client};
ghost use Rattle.buffer_core.specs.Slots.{slot_at};
ghost use Rattle.buffer_core.specs.Window.{wants};
ghost use Rattle.ring_buffer.specs.Pointers.{clients_of};
ghost use Rattle.ring_buffer.specs.Reads.{ReadsFronts};
ghost use Rattle.ring_buffer.specs.Walks.{IsWalk, IsWay, in_the_way, IsFoundFor, FindsNothing};

use crate::slot::read_front;
use crate::walk::{Found, Owed, Position};
use crate::{Pointers, Ring};
use event::{Header, slot_len};

/// How far the events have to go so that one of this slot fits before the end, or the first of them that is owed to a
/// client, with the least such client.
pub fn find_way(
    ring: &mut Ring,
    clients: &Pointers,
    from: Position,
    end: Position,
    slot: u64,
) -> Result<Position, Owed>
    requires least { 24 ≤ length ring.old.bytes }
    requires walk { IsWalk ring.old.bytes from end }
    requires slot { slot ≤ length ring.old.bytes }
    requires small { end.off ≤ 2 ^ 62 }
    requires short { length ring.old.bytes ≤ 2 ^ 32 }
    ensures way { IfOk result (λ at. IsWay ring.old.bytes (clients_of clients.now) from at end slot) }
    ensures owed { IfErr result (λ owed. in_the_way ring.old.bytes (clients_of clients.now) from end
        slot ≡ Some (owed.client, owed.place)) }
    ensures same { ring.new.bytes ≡ ring.old.bytes }
    ensures read { IfOk result (λ at. ReadsFronts ring.old ring.new (at.place - from.place)) }
    ensures owed_read { IfErr result (λ owed. ReadsFronts ring.old ring.new
        (owed.place - from.place + 1)) }
{
    let size = u64::from(ring.size());
    let mut off = from.off;
    for place in from.place..end.place {
        if end.off - off + slot <= size {
            return Ok(Position { off, place });
        }
        let front = read_front(ring, off);
        match clients.owed(place, &front.header) {
            Some(client) => return Err(Owed { client, place }),
            None => off += u64::from(slot_len(front.header.data_size)),
        }
    }
    Ok(Position {
        off,
        place: end.place,
    })
}

/// Whether the client, which is attached, has yet to be given the event of this header and place.
fn is_wanted(clients: &Pointers, client: u32, place: u64, header: &Header) -> bool
    ensures { (c : Client) → slot_at (clients_of clients.now) client ≡ Some c → result
        ≡ wants place (event_of header.now []) c }
{
    match clients.wanted(client, place, header) {
        Some(wanted) => wanted,
        None => false,
    }
}

/// The first event that the client has yet to be given.
pub fn find_wanted(
    ring: &mut Ring,
    clients: &Pointers,
    client: u32,
    from: Position,
    end: Position,
) -> Option<Found>
    requires least { 24 ≤ length ring.old.bytes }
    requires walk { IsWalk ring.old.bytes from end }
    requires small { end.off ≤ 2 ^ 62 }
    ensures found { IfSome result (λ found. IsFoundFor ring.old.bytes (clients_of clients.now) client
        from end found) }
    ensures nothing { IfNone result (FindsNothing ring.old.bytes (clients_of clients.now) client from
        end) }
    ensures same { ring.new.bytes ≡ ring.old.bytes }
    ensures read { IfSome result (λ found. ReadsFronts ring.old ring.new
        (found.at.place - from.place + 1)) }
    ensures all_read { IfNone result (ReadsFronts ring.old ring.new (end.place - from.place)) }
{
    let mut off = from.off;
    for place in from.place..end.place {
        let front = read_front(ring, off);
        if is_wanted(clients, client, place, &front.header) {
            return Some(Found {
                front,
                at: Position { off, place },
            });
        }
        off += u64::from(slot_len(front.header.data_size));
    }
    None
}
