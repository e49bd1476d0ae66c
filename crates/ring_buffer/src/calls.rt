ghost use Rattle.std.specs.Prelude.{◌≡◌};
ghost use Rattle.event.specs.Headers.{event_of};
ghost use Rattle.buffer_core.specs.declared.entry.BufferEntry.TheVariants.{Attach, Detach, Request, Cancel, Send, SendInRun, Receive, Begin, Pause, Resume, End};
ghost use Rattle.buffer_core.specs.Calls.{IsReply, window_after, event_after};
ghost use Rattle.ring_buffer.specs.LifeReads.{ReadsFew};

use crate::ring_buffer::RingBuffer;
use crate::search::find_wanted;
use crate::slot::FRONT;
use crate::walk::Position;
use buffer_core::{
    EventBuffer, MarkRefusal, NoClient, NoSlot, Received, RequestRefusal, SendRefusal,
};
use daq_types::{Kind, Name};
use event::{EventBuf, Header, slot_len};

// Each call that changes the buffer says, besides what the trait says of it, how much it reads of the ring. Those that
// only look take the buffer by `&`, through which no ring is read.
impl EventBuffer for RingBuffer {
    ghost window = { λ buffer. buffer.window };

    fn attach(&mut self, name: Name) -> Result<u32, NoSlot>
        ensures reply { IsReply self.old.window (Attach name result) }
        ensures after { self.new.window ≡ window_after self.old.window (Attach name result) }
        ensures reads { ReadsFew self.old self.new (Attach name result) }
    {
        self.clients.attach(name, self.total, self.count)
    }

    fn detach(&mut self, client: u32) -> Result<(), NoClient>
        ensures reply { IsReply self.old.window (Detach client result) }
        ensures after { self.new.window ≡ window_after self.old.window (Detach client result) }
        ensures reads { ReadsFew self.old self.new (Detach client result) }
    {
        self.clients.detach(client)
    }

    fn request(
        &mut self,
        client: u32,
        id: u16,
        mask: u16,
        kind: Kind,
    ) -> Result<u32, RequestRefusal>
        ensures reply { IsReply self.old.window (Request client id mask kind result) }
        ensures after { self.new.window ≡ window_after self.old.window
            (Request client id mask kind result) }
        ensures reads { ReadsFew self.old self.new (Request client id mask kind result) }
    {
        self.clients.request(client, id, mask, kind, self.count)
    }

    fn cancel(&mut self, client: u32, request: u32) -> Result<(), RequestRefusal>
        ensures reply { IsReply self.old.window (Cancel client request result) }
        ensures after { self.new.window ≡ window_after self.old.window
            (Cancel client request result) }
        ensures reads { ReadsFew self.old self.new (Cancel client request result) }
    {
        self.clients.cancel(client, request)
    }

    fn send(&mut self, header: &Header, body: &[u8]) -> Result<u64, SendRefusal>
        ensures reply { IsReply self.old.window (Send header.now.data_size
            (event_of header.now body.now) result) }
        ensures after { self.new.window ≡ window_after self.old.window
            (Send header.now.data_size (event_of header.now body.now) result) }
        ensures reads { ReadsFew self.old self.new (Send header.now.data_size
            (event_of header.now body.now) result) }
    {
        self.put(0, header, body)
    }

    fn send_in_run(&mut self, start: u32, header: &Header, body: &[u8]) -> Result<u64, SendRefusal>
        ensures reply { IsReply self.old.window (SendInRun start header.now.data_size
            (event_of header.now body.now) result) }
        ensures after { self.new.window ≡ window_after self.old.window
            (SendInRun start header.now.data_size (event_of header.now body.now) result) }
        ensures reads { ReadsFew self.old self.new (SendInRun start header.now.data_size
            (event_of header.now body.now) result) }
    {
        if !self.gate.is_running(start) {
            return Err(SendRefusal::NotRunning { gate: self.gate });
        }
        self.put(start, header, body)
    }

    fn receive(&mut self, client: u32, into: &mut EventBuf) -> Received
        ensures reply { IsReply self.old.window (Receive client into.old.room result) }
        ensures after { self.new.window ≡ window_after self.old.window
            (Receive client into.old.room result) }
        ensures event { into.new.event ≡ event_after into.old.event self.old.window result }
        ensures room { into.new.room ≡ into.old.room }
        ensures reads { ReadsFew self.old self.new (Receive client into.old.room result) }
    {
        let Some(position) = self.clients.at(client) else {
            return Received::NoClient;
        };
        let from = Position {
            off: position.0,
            place: position.1,
        };
        let end = Position {
            off: self.total,
            place: self.count,
        };
        let Some(found) = find_wanted(&mut self.ring, &self.clients, client, from, end) else {
            let _ = self.clients.advance(client, self.total, self.count);
            return Received::Empty {
                gate: self.gate,
                last: self.last,
            };
        };
        let header = found.front.header;
        if header.data_size > into.room() {
            return Received::SmallBuf {
                need: header.data_size,
            };
        }
        self.ring
            .get_data(found.at.off + FRONT as u64, &header, into);
        let behind = found.at.off + u64::from(slot_len(header.data_size));
        let _ = self.clients.advance(client, behind, found.at.place + 1);
        Received::Got {
            place: found.at.place,
            start: found.front.start,
        }
    }

    fn begin(&mut self, start: u32) -> Result<u64, MarkRefusal>
        ensures reply { IsReply self.old.window (Begin start result) }
        ensures after { self.new.window ≡ window_after self.old.window (Begin start result) }
        ensures reads { ReadsFew self.old self.new (Begin start result) }
    {
        self.gate = self.gate.begun(self.last, start)?;
        self.last = start;
        Ok(self.accepted())
    }

    fn pause(&mut self, start: u32) -> Result<u64, MarkRefusal>
        ensures reply { IsReply self.old.window (Pause start result) }
        ensures after { self.new.window ≡ window_after self.old.window (Pause start result) }
        ensures reads { ReadsFew self.old self.new (Pause start result) }
    {
        self.gate = self.gate.paused(start)?;
        Ok(self.accepted())
    }

    fn resume(&mut self, start: u32) -> Result<u64, MarkRefusal>
        ensures reply { IsReply self.old.window (Resume start result) }
        ensures after { self.new.window ≡ window_after self.old.window (Resume start result) }
        ensures reads { ReadsFew self.old self.new (Resume start result) }
    {
        self.gate = self.gate.resumed(start)?;
        Ok(self.accepted())
    }

    fn end(&mut self, start: u32) -> Result<u64, MarkRefusal>
        ensures reply { IsReply self.old.window (End start result) }
        ensures after { self.new.window ≡ window_after self.old.window (End start result) }
        ensures reads { ReadsFew self.old self.new (End start result) }
    {
        self.gate = self.gate.ended(start)?;
        Ok(self.accepted())
    }

    fn level(&self) -> u64 {
        self.total - self.off
    }

    fn accepted(&self) -> u64 {
        self.count
    }
}
