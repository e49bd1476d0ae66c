ghost use Rattle.std.specs.Prelude.{◌≡◌, ◌<◌, [], length, IfOk, IfSome, OnErr, Some, slice_set};
ghost use Rattle.std.specs.Option.{ok_or, option_map};
ghost use Rattle.event.specs.Headers.{event_of};
ghost use Rattle.buffer_core.specs.Slots.{slot_at, free_slot, first_slot, change_all};
ghost use Rattle.buffer_core.specs.Window.{no_clients, owes};
ghost use Rattle.buffer_core.specs.Calls.{no_slot, joined, pushed};

use buffer_core::{CLIENTS, Client, NoSlot, free_number};
use daq_types::{Name, NoMemory};
use event::Header;
use std::alloc::Global;
use std::marker::Model;

/// The clients of a buffer by number. Only `new` takes memory.
#[derive(Drop)]
pub struct Clients {
    slots: Vec<Option<Client>>,
}

impl Model for Clients {
    ghost use Rattle.std.specs.Prelude.{◌≡◌, List, Option, length};
    ghost use Rattle.buffer_core.specs.declared.client.Client.{Client};

    ghost Value = { List (Option Client) };

    ghost view = { λ c. c.slots.items };

    ghost invariant = { λ c. length c.slots.items ≡ 64 };
}

fn owed_place(slots: &[Option<Client>], place: u64, header: &Header) -> Option<usize>
    ensures first { result ≡ first_slot (owes place (event_of header.now [])) slots.now }
    ensures within { IfSome result (λ number. number < length slots.now) }
{
    slots.iter().position(|slot| match slot {
        Some(client) => client.owes(place, header),
        None => false,
    })
}

fn pushed_slot(slot: Option<Client>, first: u64) -> Option<Client>
    ensures { result ≡ option_map (pushed first) slot }
{
    match slot {
        Some(client) => Some(Client {
            next: client.next.max(first),
            ..client
        }),
        None => None,
    }
}

impl Clients {
    /// Room for 64 clients.
    #[tactic(auto, unfolding(buffer_core::specs::Window::no_clients))]
    pub fn new(alloc: Global) -> Result<Clients, NoMemory>
        ensures { IfOk result (λ clients. clients ≡ no_clients) }
    {
        let mut slots = Vec::with_capacity(alloc, CLIENTS)?;
        for number in 0..CLIENTS {
            slots.push(None)?;
        }
        Ok(Clients { slots })
    }

    /// Attaches a client that begins at this place.
    #[tactic(auto, unfolding(buffer_core::specs::Window::no_requests))]
    pub fn attach(&mut self, name: Name, next: u64) -> Result<u32, NoSlot>
        ensures reply { result ≡ ok_or (free_slot self.old) no_slot }
        ensures ok { IfOk result (λ n. self.new ≡ slice_set self.old n (Some (joined name next))) }
        ensures err { OnErr result (self.new ≡ self.old) }
    {
        match free_number(self.slots.as_slice()) {
            Some(number) => {
                self.slots[number as usize] = Some(Client {
                    name,
                    next,
                    requests: [None; 10],
                });
                Ok(number)
            }
            None => Err(NoSlot),
        }
    }

    /// The client of this number.
    pub fn get(&self, client: u32) -> Option<Client>
        ensures { result ≡ slot_at self.now client }
    {
        if client as usize >= self.slots.as_slice().len() {
            return None;
        }
        self.slots[client as usize]
    }

    /// Puts a client that was changed in the place of the one of this number.
    pub fn set(&mut self, client: u32, changed: Option<Client>)
        ensures { self.new ≡ slice_set self.old client changed }
    {
        if (client as usize) < self.slots.as_slice().len() {
            self.slots[client as usize] = changed;
        }
    }

    /// The least client that has yet to get the event of this header and place.
    pub fn owed(&self, place: u64, header: &Header) -> Option<u32>
        ensures { result ≡ first_slot (owes place (event_of header.now [])) self.now }
    {
        match owed_place(self.slots.as_slice(), place, header) {
            Some(number) => Some(number as u32),
            None => None,
        }
    }

    /// All clients go on from this place at least.
    pub fn push(&mut self, first: u64)
        ensures { self.new ≡ change_all (pushed first) self.old }
    {
        for slot in self.slots.iter_mut() {
            *slot = pushed_slot(*slot, first);
        }
    }
}
