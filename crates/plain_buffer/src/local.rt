ghost use Rattle.std.specs.Prelude.{◌≡◌, ◌≤◌, [], length, OnOk};
ghost use Rattle.daq_types.specs.Callers.{main_caller};
ghost use Rattle.event.specs.Headers.{event_of};
ghost use Rattle.buffer_core.specs.declared.entry.BufferEntry.TheVariants.{Attach, Detach, Request, Cancel, Send, SendInRun, Receive, Begin, Pause, Resume, End, Level, Accepted};
ghost use Rattle.buffer_core.specs.Calls.{event_after};
ghost use Rattle.buffer_core.specs.Histories.{IsLegal, replay};
ghost use Rattle.plain_buffer.specs.Ported.{IsPorted, AppendsCall, KeepsPort};

use crate::journal::BufferJournal;
use buffer_core::{
    BufferEntry, EventBuffer, MarkRefusal, NoClient, NoSlot, Received, RequestRefusal, SendRefusal,
};
use daq_types::{Bytes, Caller, Event, Kind, Name, NoMemory};
use event::{EventBuf, Header};
use std::alloc::Global;
use std::marker::Model;
use std::snapshot::Snapshot;

/// A buffer of one thread with the journal of its calls, by whichever caller. Each call is that of the buffer, and is
/// noted with its reply.
#[derive(Drop)]
pub struct LocalPort<B: EventBuffer> {
    start: Snapshot<B>,
    buffer: B,
    journal: BufferJournal,
    caller: Caller,
    alloc: Global,
}

impl<B: EventBuffer> Model for LocalPort<B> {
    ghost use Rattle.plain_buffer.specs.Ported.{Ported, IsPorted};

    ghost Value = { Ported };

    ghost view = { λ p. record {
      start = B.window p.start.value;
      window = B.window p.buffer;
      history = p.journal.entries;
      caller = p.caller;
      calls = p.journal.room;
      bytes = p.journal.bytes;
    } };

    ghost invariant = { λ p. IsPorted (record {
      start = B.window p.start.value;
      window = B.window p.buffer;
      history = p.journal.entries;
      caller = p.caller;
      calls = p.journal.room;
      bytes = p.journal.bytes;
    }) };
}

/// The event of a header, without data. Takes no memory.
fn without_data(alloc: Global, header: &Header) -> Event
    ensures { result ≡ event_of header.now [] }
{
    Event {
        id: header.event_id,
        mask: header.trigger_mask,
        serial: header.serial_number,
        time: header.time_stamp,
        body: Bytes::of(Vec::new(alloc)),
    }
}

impl<B: EventBuffer> LocalPort<B> {
    /// A port to this buffer, with no call noted and no room. The calls of the main thread come next. Takes no memory.
    pub fn new(alloc: Global, buffer: B) -> LocalPort<B>
        ensures start { result.start ≡ B.window buffer }
        ensures window { result.window ≡ B.window buffer }
        ensures history { result.history ≡ [] }
        ensures caller { result.caller ≡ main_caller }
    {
        let _ = buffer.accepted();
        let start = Snapshot::of(&buffer);
        LocalPort {
            start,
            buffer,
            journal: BufferJournal::new(alloc),
            caller: Caller::MAIN,
            alloc,
        }
    }

    /// Says whose calls come next.
    pub fn set_caller(&mut self, caller: Caller)
        ensures { self.new ≡ record self.old { caller = caller } }
    {
        self.caller = caller;
    }

    /// Room for so many calls more, which hand over so many bytes of data together.
    pub fn reserve(&mut self, calls: u64, bytes: u64) -> Result<(), NoMemory>
        ensures same { KeepsPort self.old self.new }
        ensures calls { OnOk result (calls ≤ self.new.calls) }
        ensures bytes { OnOk result (bytes ≤ self.new.bytes) }
    {
        self.journal.reserve(calls, bytes)
    }

    /// The buffer, and the journal of its calls.
    pub fn into_parts(self) -> (B, BufferJournal)
        ensures window { B.window result.0 ≡ self.window }
        ensures history { result.1.entries ≡ self.history }
        ensures legal { IsLegal self.start self.history }
        ensures replayed { self.window ≡ replay self.start self.history }
    {
        let LocalPort {
            start,
            buffer,
            journal,
            caller: _,
            alloc: _,
        } = self;
        drop(start);
        (buffer, journal)
    }

    /// As `EventBuffer::attach`.
    pub fn attach(&mut self, name: Name) -> Result<u32, NoSlot>
        requires room { 1 ≤ self.old.calls }
        ensures did { AppendsCall self.old self.new (Attach name result) }
    {
        let reply = self.buffer.attach(name);
        let entry = BufferEntry::Attach { name, reply };
        self.journal.push(self.caller, entry, &[]);
        reply
    }

    /// As `EventBuffer::detach`.
    pub fn detach(&mut self, client: u32) -> Result<(), NoClient>
        requires room { 1 ≤ self.old.calls }
        ensures did { AppendsCall self.old self.new (Detach client result) }
    {
        let reply = self.buffer.detach(client);
        let entry = BufferEntry::Detach { client, reply };
        self.journal.push(self.caller, entry, &[]);
        reply
    }

    /// As `EventBuffer::request`.
    pub fn request(
        &mut self,
        client: u32,
        id: u16,
        mask: u16,
        kind: Kind,
    ) -> Result<u32, RequestRefusal>
        requires room { 1 ≤ self.old.calls }
        ensures did { AppendsCall self.old self.new (Request client id mask kind result) }
    {
        let reply = self.buffer.request(client, id, mask, kind);
        let entry = BufferEntry::Request {
            client,
            id,
            mask,
            kind,
            reply,
        };
        self.journal.push(self.caller, entry, &[]);
        reply
    }

    /// As `EventBuffer::cancel`.
    pub fn cancel(&mut self, client: u32, request: u32) -> Result<(), RequestRefusal>
        requires room { 1 ≤ self.old.calls }
        ensures did { AppendsCall self.old self.new (Cancel client request result) }
    {
        let reply = self.buffer.cancel(client, request);
        let entry = BufferEntry::Cancel {
            client,
            request,
            reply,
        };
        self.journal.push(self.caller, entry, &[]);
        reply
    }

    /// As `EventBuffer::send`.
    pub fn send(&mut self, header: &Header, body: &[u8]) -> Result<u64, SendRefusal>
        requires room { 1 ≤ self.old.calls }
        requires bytes { length body.now ≤ self.old.bytes }
        ensures did { AppendsCall self.old self.new (Send header.now.data_size
            (event_of header.now body.now) result) }
    {
        let reply = self.buffer.send(header, body);
        let entry = BufferEntry::Send {
            stated: header.data_size,
            event: without_data(self.alloc, header),
            reply,
        };
        self.journal.push(self.caller, entry, body);
        reply
    }

    /// As `EventBuffer::send_in_run`.
    pub fn send_in_run(
        &mut self,
        start: u32,
        header: &Header,
        body: &[u8],
    ) -> Result<u64, SendRefusal>
        requires room { 1 ≤ self.old.calls }
        requires bytes { length body.now ≤ self.old.bytes }
        ensures did { AppendsCall self.old self.new (SendInRun start header.now.data_size
            (event_of header.now body.now) result) }
    {
        let reply = self.buffer.send_in_run(start, header, body);
        let entry = BufferEntry::SendInRun {
            start,
            stated: header.data_size,
            event: without_data(self.alloc, header),
            reply,
        };
        self.journal.push(self.caller, entry, body);
        reply
    }

    /// As `EventBuffer::receive`.
    pub fn receive(&mut self, client: u32, into: &mut EventBuf) -> Received
        requires room { 1 ≤ self.old.calls }
        ensures did { AppendsCall self.old self.new (Receive client into.old.room result) }
        ensures event { into.new.event ≡ event_after into.old.event self.old.window result }
        ensures room { into.new.room ≡ into.old.room }
    {
        let room = into.room();
        let reply = self.buffer.receive(client, into);
        let entry = BufferEntry::Receive {
            client,
            room,
            reply,
        };
        self.journal.push(self.caller, entry, &[]);
        reply
    }

    /// As `EventBuffer::begin`.
    pub fn begin(&mut self, start: u32) -> Result<u64, MarkRefusal>
        requires room { 1 ≤ self.old.calls }
        ensures did { AppendsCall self.old self.new (Begin start result) }
    {
        let reply = self.buffer.begin(start);
        let entry = BufferEntry::Begin { start, reply };
        self.journal.push(self.caller, entry, &[]);
        reply
    }

    /// As `EventBuffer::pause`.
    pub fn pause(&mut self, start: u32) -> Result<u64, MarkRefusal>
        requires room { 1 ≤ self.old.calls }
        ensures did { AppendsCall self.old self.new (Pause start result) }
    {
        let reply = self.buffer.pause(start);
        let entry = BufferEntry::Pause { start, reply };
        self.journal.push(self.caller, entry, &[]);
        reply
    }

    /// As `EventBuffer::resume`.
    pub fn resume(&mut self, start: u32) -> Result<u64, MarkRefusal>
        requires room { 1 ≤ self.old.calls }
        ensures did { AppendsCall self.old self.new (Resume start result) }
    {
        let reply = self.buffer.resume(start);
        let entry = BufferEntry::Resume { start, reply };
        self.journal.push(self.caller, entry, &[]);
        reply
    }

    /// As `EventBuffer::end`.
    pub fn end(&mut self, start: u32) -> Result<u64, MarkRefusal>
        requires room { 1 ≤ self.old.calls }
        ensures did { AppendsCall self.old self.new (End start result) }
    {
        let reply = self.buffer.end(start);
        let entry = BufferEntry::End { start, reply };
        self.journal.push(self.caller, entry, &[]);
        reply
    }

    /// As `EventBuffer::level`.
    pub fn level(&mut self) -> u64
        requires room { 1 ≤ self.old.calls }
        ensures did { AppendsCall self.old self.new (Level result) }
    {
        let reply = self.buffer.level();
        let entry = BufferEntry::Level { reply };
        self.journal.push(self.caller, entry, &[]);
        reply
    }

    /// As `EventBuffer::accepted`.
    pub fn accepted(&mut self) -> u64
        requires room { 1 ≤ self.old.calls }
        ensures did { AppendsCall self.old self.new (Accepted result) }
    {
        let reply = self.buffer.accepted();
        let entry = BufferEntry::Accepted { reply };
        self.journal.push(self.caller, entry, &[]);
        reply
    }
}
