ghost use Rattle.std.specs.Prelude.{◌≡◌, ◌<◌, ◌≤◌, [], length, IfOk, IfSome, OnOk, OnErr, Some, None, slice_set};
ghost use Rattle.std.specs.Option.{ok_or, option_map};
ghost use Rattle.event.specs.Headers.{event_of};
ghost use Rattle.buffer_core.specs.Slots.{slot_at, free_slot, first_slot, change_slot, change_all};
ghost use Rattle.buffer_core.specs.Window.{wants, owes};
ghost use Rattle.buffer_core.specs.Calls.{no_slot, joined, with_request, detach_reply_to, request_reply_to, cancel_reply_to};
ghost use Rattle.ring_buffer.specs.Pointers.{AreFreeFrom, no_pointers, clients_of, changed, moved, raised, position_of};

use crate::pointer::{Pointer, move_slot, raise_slot};
use buffer_core::{Client, NoClient, NoSlot, Request, RequestRefusal, free_number};
use daq_types::{Kind, Name};
use event::Header;
use std::marker::Model;

/// The clients by number, each with the offset that it goes on from. No call takes memory.
#[derive(Drop)]
pub struct Pointers {
    slots: [Option<Pointer>; 64],
    /// The numbers below this one were given at some time. No other is looked at.
    given: usize,
}

impl Model for Pointers {
    ghost use Rattle.std.specs.Prelude.{◌≤◌, List, Option};
    ghost use Rattle.ring_buffer.specs.Pointers.{AreFreeFrom};
    ghost use Rattle.ring_buffer.specs.declared.pointer.Pointer.{Pointer};

    ghost Value = { List (Option Pointer) };

    ghost view = { λ p. p.slots };

    ghost invariant = { λ p. (p.given ≤ 64) × AreFreeFrom p.given p.slots };
}

/// The client of this number, and where it goes on.
fn find(slots: &[Option<Pointer>], given: usize, client: u32) -> Option<Pointer>
    requires within { given ≤ length slots.now }
    requires free { AreFreeFrom given slots.now }
    ensures value { result ≡ slot_at slots.now client }
    ensures given { IfSome result (λ _. client < given) }
{
    if client as usize >= given {
        return None;
    }
    slots[client as usize]
}

fn is_wanted(slots: &[Option<Pointer>], client: u32, place: u64, header: &Header) -> Option<bool>
    ensures { result ≡ option_map (λ pointer. wants place (event_of header.now []) pointer.client)
        (slot_at slots.now client) }
{
    if client as usize >= slots.len() {
        return None;
    }
    match &slots[client as usize] {
        Some(pointer) => Some(pointer.client.wants(place, header)),
        None => None,
    }
}

/// The least number of a client that has yet to get the event of this header and place.
fn first_owed(slots: &[Option<Pointer>], place: u64, header: &Header) -> Option<usize>
    ensures value { result ≡ first_slot (λ pointer. owes place (event_of header.now [])
        pointer.client) slots.now }
    ensures within { IfSome result (λ number. number < length slots.now) }
{
    slots.iter().position(|slot| match slot {
        Some(pointer) => pointer.client.owes(place, header),
        None => false,
    })
}

/// All clients that are behind this place, which has this offset, go on from there.
fn raise_all(slots: &mut [Option<Pointer>], given: usize, off: u64, place: u64)
    requires within { given ≤ length slots.old }
    requires free { AreFreeFrom given slots.old }
    ensures { slots.new ≡ change_all (raised off place) slots.old }
{
    for number in 0..given {
        raise_slot(&mut slots[number], off, place);
    }
}

impl Pointers {
    /// Nobody is attached.
    #[tactic(auto, unfolding(crate::specs::Pointers::no_pointers))]
    pub fn new() -> Pointers
        ensures { result ≡ no_pointers }
    {
        Pointers {
            slots: [None; 64],
            given: 0,
        }
    }

    /// Attaches a client that begins at this place, which has this offset.
    #[tactic(auto, unfolding(buffer_core::specs::Window::no_requests))]
    pub fn attach(&mut self, name: Name, off: u64, place: u64) -> Result<u32, NoSlot>
        ensures reply { result ≡ ok_or (free_slot self.old) no_slot }
        ensures ok { IfOk result (λ n. self.new ≡ slice_set self.old n
            (Some (record { client = joined name place; off = off }))) }
        ensures err { OnErr result (self.new ≡ self.old) }
    {
        match free_number(&self.slots) {
            Some(number) => {
                let client = Client {
                    name,
                    next: place,
                    requests: [None; 10],
                };
                self.slots[number as usize] = Some(Pointer { client, off });
                self.given = self.given.max(number as usize + 1);
                Ok(number)
            }
            None => Err(NoSlot),
        }
    }

    /// Detaches a client, with all its requests.
    pub fn detach(&mut self, client: u32) -> Result<(), NoClient>
        ensures reply { result ≡ detach_reply_to (slot_at (clients_of self.old) client) }
        ensures ok { OnOk result (self.new ≡ slice_set self.old client None) }
        ensures err { OnErr result (self.new ≡ self.old) }
    {
        match find(&self.slots, self.given, client) {
            Some(_) => {
                self.slots[client as usize] = None;
                Ok(())
            }
            None => Err(NoClient),
        }
    }

    /// Requests the events of this id and mask from a place on, and answers the request's number.
    pub fn request(
        &mut self,
        client: u32,
        id: u16,
        mask: u16,
        kind: Kind,
        since: u64,
    ) -> Result<u32, RequestRefusal>
        ensures reply { result ≡ request_reply_to (slot_at (clients_of self.old) client) }
        ensures ok { IfOk result (λ n. self.new ≡ change_slot
            (changed (with_request n (Some (record
            { id = id; mask = mask; kind = kind; since = since })))) self.old client) }
        ensures err { OnErr result (self.new ≡ self.old) }
    {
        let Some(pointer) = find(&self.slots, self.given, client) else {
            return Err(RequestRefusal::NoClient);
        };
        match free_number(&pointer.client.requests) {
            Some(number) => {
                let request = Request {
                    id,
                    mask,
                    kind,
                    since,
                };
                self.slots[client as usize] = Some(Pointer {
                    client: pointer.client.with_request(number, Some(request)),
                    ..pointer
                });
                Ok(number)
            }
            None => Err(RequestRefusal::NoRequestSlot),
        }
    }

    /// Takes back a request.
    pub fn cancel(&mut self, client: u32, request: u32) -> Result<(), RequestRefusal>
        ensures reply { result ≡ cancel_reply_to request (slot_at (clients_of self.old) client) }
        ensures ok { OnOk result (self.new ≡ change_slot (changed (with_request request None))
            self.old client) }
        ensures err { OnErr result (self.new ≡ self.old) }
    {
        let Some(pointer) = find(&self.slots, self.given, client) else {
            return Err(RequestRefusal::NoClient);
        };
        match pointer.client.request_at(request) {
            Some(_) => {
                self.slots[client as usize] = Some(Pointer {
                    client: pointer.client.with_request(request, None),
                    ..pointer
                });
                Ok(())
            }
            None => Err(RequestRefusal::NoRequest),
        }
    }

    /// The least client that has yet to get the event of this header and place.
    pub fn owed(&self, place: u64, header: &Header) -> Option<u32>
        ensures { result ≡ first_slot (owes place (event_of header.now [])) (clients_of self.now) }
    {
        match first_owed(&self.slots[..self.given], place, header) {
            Some(number) => Some(number as u32),
            None => None,
        }
    }

    /// Whether the client, if it is attached, has yet to be given the event of this header and place.
    pub fn wanted(&self, client: u32, place: u64, header: &Header) -> Option<bool>
        ensures { result ≡ option_map (wants place (event_of header.now []))
            (slot_at (clients_of self.now) client) }
    {
        is_wanted(&self.slots, client, place, header)
    }

    /// The offset and the place that the client, if it is attached, goes on from.
    pub fn at(&self, client: u32) -> Option<(u64, u64)>
        ensures { result ≡ option_map position_of (slot_at self.now client) }
    {
        if client as usize >= self.given {
            return None;
        }
        match &self.slots[client as usize] {
            Some(pointer) => Some((pointer.off, pointer.client.next)),
            None => None,
        }
    }

    /// The client goes on from this place, which has this offset.
    pub fn advance(&mut self, client: u32, off: u64, place: u64) -> Result<(), NoClient>
        ensures reply { result ≡ detach_reply_to (slot_at (clients_of self.old) client) }
        ensures ok { OnOk result (self.new ≡ change_slot (moved off place) self.old client) }
        ensures err { OnErr result (self.new ≡ self.old) }
    {
        if self.at(client).is_none() {
            return Err(NoClient);
        }
        move_slot(&mut self.slots[client as usize], off, place);
        Ok(())
    }

    /// All clients that are behind this place, which has this offset, go on from there.
    pub fn push(&mut self, off: u64, place: u64)
        ensures { self.new ≡ change_all (raised off place) self.old }
    {
        raise_all(&mut self.slots, self.given, off, place);
    }
}
