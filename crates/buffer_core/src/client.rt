ghost use Rattle.std.specs.Prelude.{◌≡◌, ◌<◌, ◌^◌, [], length, IfSome};
ghost use Rattle.event.specs.Headers.{event_of};
ghost use Rattle.buffer_core.specs.Slots.{slot_at, free_slot, some_slot};
ghost use Rattle.buffer_core.specs.Window.{covers, holds_back, wants, owes};
ghost use Rattle.buffer_core.specs.Calls.{with_request, going_on};

use daq_types::{Kind, Name};
use event::{Header, matches};

/// How many clients a buffer has room for.
pub const CLIENTS: usize = 64;

/// How many requests a client has room for.
pub const REQUESTS: usize = 10;

/// An event request: which events a client wants, from which place on.
#[derive(Clone, Copy, Debug, PartialEq, Eq)]
pub struct Request {
    /// The event id, or 0xFFFF for all.
    pub id: u16,
    /// A trigger mask of which the event has a bit, or 0xFFFF for all events.
    pub mask: u16,
    /// Whether the events have to be kept until the client got them.
    pub kind: Kind,
    /// The place of the first event that was sent after the request.
    pub since: u64,
}

/// A client of a buffer. The number of a client is its place among the 64, that of a request its place among the
/// client's ten.
#[derive(Clone, Copy, Debug)]
pub struct Client {
    pub name: Name,
    /// All events below this place were got, passed over or dropped.
    pub next: u64,
    pub requests: [Option<Request>; 10],
}

impl Client {
    /// The client with this request, or none, under this number.
    pub fn with_request(self, number: u32, request: Option<Request>) -> Client
        ensures { result ≡ with_request number request self }
    {
        let mut requests = self.requests;
        if (number as usize) < REQUESTS {
            requests[number as usize] = request;
        }
        Client { requests, ..self }
    }

    /// The client, which goes on from this place.
    pub fn going_on(self, next: u64) -> Client
        ensures { result ≡ going_on next self }
    {
        Client { next, ..self }
    }

    /// The client's request of this number.
    pub fn request_at(&self, number: u32) -> Option<Request>
        ensures { result ≡ slot_at self.now.requests number }
    {
        if number as usize >= REQUESTS {
            return None;
        }
        self.requests[number as usize]
    }
}

/// The least free number.
pub fn free_number<T>(slots: &[Option<T>]) -> Option<u32>
    requires { length slots.now < 2 ^ 32 }
    ensures { result ≡ free_slot slots.now }
{
    match free_place(slots) {
        Some(place) => Some(place as u32),
        None => None,
    }
}

fn free_place<T>(slots: &[Option<T>]) -> Option<usize>
    ensures first { result ≡ free_slot slots.now }
    ensures within { IfSome result (λ place. place < length slots.now) }
{
    slots.iter().position(|slot| slot.is_none())
}

impl Request {
    /// Whether the request wants the event of this header and place.
    pub fn covers(&self, place: u64, header: &Header) -> bool
        ensures { result ≡ covers place (event_of header.now []) self.now }
    {
        self.since <= place && matches(self.id, self.mask, header.event_id, header.trigger_mask)
    }

    /// Whether the event of this header and place has to be kept for the request.
    pub fn holds_back(&self, place: u64, header: &Header) -> bool
        ensures { result ≡ holds_back place (event_of header.now []) self.now }
    {
        matches!(self.kind, Kind::All) && self.covers(place, header)
    }
}

impl Client {
    /// Whether the client has yet to be given the event of this header and place.
    pub fn wants(&self, place: u64, header: &Header) -> bool
        ensures { result ≡ wants place (event_of header.now []) self.now }
    {
        self.next <= place && self.has_cover(place, header)
    }

    fn has_cover(&self, place: u64, header: &Header) -> bool
        ensures { result ≡ some_slot (covers place (event_of header.now [])) self.now.requests }
    {
        self.requests.iter().any(|slot| match slot {
            Some(request) => request.covers(place, header),
            None => false,
        })
    }

    /// Whether the client has yet to get the event of this header and place before it may go.
    pub fn owes(&self, place: u64, header: &Header) -> bool
        ensures { result ≡ owes place (event_of header.now []) self.now }
    {
        self.next <= place && self.is_held_back(place, header)
    }

    fn is_held_back(&self, place: u64, header: &Header) -> bool
        ensures { result ≡ some_slot (holds_back place (event_of header.now [])) self.now.requests }
    {
        self.requests.iter().any(|slot| match slot {
            Some(request) => request.holds_back(place, header),
            None => false,
        })
    }
}
