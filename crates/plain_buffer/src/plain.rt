ghost use Rattle.std.specs.Prelude.{◌≡◌, ◌≤◌, ◌+◌, ◌^◌, ◌%◌, length, IfOk, IfErr, OnOk, OnErr, Ok, Err, false};
ghost use Rattle.event.specs.Events.{slot_size, is_reserved, event_limit};
ghost use Rattle.event.specs.Headers.{event_of};
ghost use Rattle.buffer_core.specs.Window.{opening, accepted_of};
ghost use Rattle.buffer_core.specs.Calls.{send_reply, after_send, gone_of};

use crate::clients::Clients;
use crate::rows::{Row, count_to_drop, data_len, drop_front, first_owed, first_wanted, slots_len};
use buffer_core::{
    EventBuffer, MarkRefusal, NoClient, NoSlot, Received, Request, RequestRefusal, RunGate,
    SendRefusal, free_number, slot_for,
};
use daq_types::{Kind, Name, NoMemory};
use event::{EventBuf, Header, append_within, slot_len};
use std::alloc::Global;
use std::marker::Model;

/// An event buffer over rows and their data, in room that `new` takes. Where kept events are dropped, the others are
/// moved down.
#[derive(Drop)]
pub struct PlainBuffer {
    size: u32,
    first: u64,
    rows: Vec<Row>,
    bytes: Vec<u8>,
    level: u64,
    clients: Clients,
    gate: RunGate,
    last: u32,
    total: u64,
}

impl Model for PlainBuffer {
    ghost use Rattle.buffer_core.specs.Window.{Window};

    ghost Value = { Window };

    ghost use Rattle.plain_buffer.specs.Plain.{plain_window, IsPlain};

    ghost view = { plain_window };

    ghost invariant = { IsPlain };
}

impl PlainBuffer {
    /// A buffer of this size in bytes, with no event and no client.
    pub fn new(alloc: Global, size: u32) -> Result<PlainBuffer, NoMemory>
        requires least { 256 ≤ size }
        requires most { size ≤ 268435456 }
        requires whole { size % 8 ≡ 0 }
        ensures { IfOk result (λ buffer. buffer ≡ opening size) }
    {
        let rows = Vec::with_capacity(alloc, size as usize / 24 + 1)?;
        let bytes = Vec::with_capacity(alloc, size as usize)?;
        let clients = Clients::new(alloc)?;
        Ok(PlainBuffer {
            size,
            first: 0,
            rows,
            bytes,
            level: 0,
            clients,
            gate: RunGate::Shut,
            last: 0,
            total: 0,
        })
    }

    /// How many events have to go for this one, or why it is not taken.
    fn room_for(&self, header: &Header, body: &[u8]) -> Result<usize, SendRefusal>
        ensures taken { OnOk result (send_reply self.now header.now.data_size
            (event_of header.now body.now) ≡ Ok (accepted_of self.now)) }
        ensures gone { IfOk result (λ gone. gone ≡ gone_of self.now
            (event_of header.now body.now)) }
        ensures stated { OnOk result (header.now.data_size ≡ length body.now) }
        ensures small { OnOk result (length body.now ≤ event_limit) }
        ensures free { OnOk result (is_reserved header.now.event_id ≡ false) }
        ensures fits { OnOk result (slot_size (event_of header.now body.now) ≤ self.now.size) }
        ensures spent { OnOk result (self.now.total + slot_size (event_of header.now body.now)
            ≤ 2 ^ 62) }
        ensures refused { IfErr result (λ refusal. send_reply self.now header.now.data_size
            (event_of header.now body.now) ≡ Err refusal) }
    {
        let slot = slot_for(header, body, self.size, self.total)?;
        let rows = self.rows.as_slice();
        let gone = count_to_drop(rows, self.level, u64::from(slot), u64::from(self.size));
        let (front, _) = rows.split_at(gone);
        match first_owed(front, self.first, &self.clients) {
            Some((client, place)) => Err(SendRefusal::Full { client, place }),
            None => Ok(gone),
        }
    }

    /// Drops so many events off the front and takes this one, of the run with this start number.
    fn admit(&mut self, gone: usize, start: u32, header: &Header, body: &[u8])
        requires gone { gone ≡ gone_of self.old (event_of header.now body.now) }
        requires stated { header.now.data_size ≡ length body.now }
        requires small { length body.now ≤ event_limit }
        requires free { is_reserved header.now.event_id ≡ false }
        requires early { start ≤ self.old.last }
        requires fits { slot_size (event_of header.now body.now) ≤ self.old.size }
        requires spent { self.old.total + slot_size (event_of header.now body.now) ≤ 2 ^ 62 }
        ensures { self.new ≡ after_send self.old start (event_of header.now body.now) }
    {
        let slot = u64::from(slot_len(header.data_size));
        let (front, _) = self.rows.as_slice().split_at(gone);
        let data = data_len(front);
        let slots = slots_len(front);
        drop_front(&mut self.rows, gone);
        drop_front(&mut self.bytes, data as usize);
        self.rows.push_reserved(Row {
            header: *header,
            start,
        });
        append_within(&mut self.bytes, body);
        self.first += gone as u64;
        self.level = self.level - slots + slot;
        self.total += slot;
        self.clients.push(self.first);
    }

    /// Takes the event, of the run with this start number, where there is room for it.
    fn put(&mut self, start: u32, header: &Header, body: &[u8]) -> Result<u64, SendRefusal>
        requires { start ≤ self.old.last }
        ensures reply { result ≡ send_reply self.old header.now.data_size
            (event_of header.now body.now) }
        ensures ok { OnOk result (self.new ≡ after_send self.old start
            (event_of header.now body.now)) }
        ensures err { OnErr result (self.new ≡ self.old) }
    {
        let gone = self.room_for(header, body)?;
        let place = self.accepted();
        self.admit(gone, start, header, body);
        Ok(place)
    }
}

impl EventBuffer for PlainBuffer {
    ghost window = { λ w. w };

    fn attach(&mut self, name: Name) -> Result<u32, NoSlot> {
        let next = self.accepted();
        self.clients.attach(name, next)
    }

    fn detach(&mut self, client: u32) -> Result<(), NoClient> {
        match self.clients.get(client) {
            Some(_) => {
                self.clients.set(client, None);
                Ok(())
            }
            None => Err(NoClient),
        }
    }

    fn request(
        &mut self,
        client: u32,
        id: u16,
        mask: u16,
        kind: Kind,
    ) -> Result<u32, RequestRefusal> {
        let since = self.accepted();
        let Some(reader) = self.clients.get(client) else {
            return Err(RequestRefusal::NoClient);
        };
        match free_number(&reader.requests) {
            Some(number) => {
                let request = Request {
                    id,
                    mask,
                    kind,
                    since,
                };
                self.clients
                    .set(client, Some(reader.with_request(number, Some(request))));
                Ok(number)
            }
            None => Err(RequestRefusal::NoRequestSlot),
        }
    }

    fn cancel(&mut self, client: u32, request: u32) -> Result<(), RequestRefusal> {
        let Some(reader) = self.clients.get(client) else {
            return Err(RequestRefusal::NoClient);
        };
        match reader.request_at(request) {
            Some(_) => {
                self.clients
                    .set(client, Some(reader.with_request(request, None)));
                Ok(())
            }
            None => Err(RequestRefusal::NoRequest),
        }
    }

    fn send(&mut self, header: &Header, body: &[u8]) -> Result<u64, SendRefusal> {
        self.put(0, header, body)
    }

    fn send_in_run(
        &mut self,
        start: u32,
        header: &Header,
        body: &[u8],
    ) -> Result<u64, SendRefusal> {
        if !self.gate.is_running(start) {
            return Err(SendRefusal::NotRunning { gate: self.gate });
        }
        self.put(start, header, body)
    }

    fn receive(&mut self, client: u32, into: &mut EventBuf) -> Received {
        let accepted = self.accepted();
        let Some(reader) = self.clients.get(client) else {
            return Received::NoClient;
        };
        match first_wanted(
            self.rows.as_slice(),
            self.bytes.as_slice(),
            self.first,
            &reader,
        ) {
            Some(found) => {
                let header = found.row.header;
                let Ok(()) = into.fill(&header, found.body) else {
                    return Received::SmallBuf {
                        need: header.data_size,
                    };
                };
                self.clients
                    .set(client, Some(reader.going_on(found.place + 1)));
                Received::Got {
                    place: found.place,
                    start: found.row.start,
                }
            }
            None => {
                self.clients.set(client, Some(reader.going_on(accepted)));
                Received::Empty {
                    gate: self.gate,
                    last: self.last,
                }
            }
        }
    }

    fn begin(&mut self, start: u32) -> Result<u64, MarkRefusal> {
        self.gate = self.gate.begun(self.last, start)?;
        self.last = start;
        Ok(self.accepted())
    }

    fn pause(&mut self, start: u32) -> Result<u64, MarkRefusal> {
        self.gate = self.gate.paused(start)?;
        Ok(self.accepted())
    }

    fn resume(&mut self, start: u32) -> Result<u64, MarkRefusal> {
        self.gate = self.gate.resumed(start)?;
        Ok(self.accepted())
    }

    fn end(&mut self, start: u32) -> Result<u64, MarkRefusal> {
        self.gate = self.gate.ended(start)?;
        Ok(self.accepted())
    }

    fn level(&self) -> u64 {
        self.level
    }

    fn accepted(&self) -> u64 {
        self.first + self.rows.len() as u64
    }
}
