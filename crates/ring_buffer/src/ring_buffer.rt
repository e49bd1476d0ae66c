ghost use Rattle.std.specs.Prelude.{◌≡◌, ◌≤◌, ◌+◌, ◌^◌, ℕ, length, IfOk, IfErr, OnOk, OnErr, Ok, Err, Some};
ghost use Rattle.event.specs.Events.{slot_size, event_limit};
ghost use Rattle.event.specs.Headers.{event_of};
ghost use Rattle.buffer_core.specs.Slots.{slot_at, change_all};
ghost use Rattle.buffer_core.specs.Window.{opening, accepted_of, IsWindow};
ghost use Rattle.buffer_core.specs.Calls.{after_send};
ghost use Rattle.ring_buffer.specs.Pointers.{clients_of, raised, AreAtOffsets};
ghost use Rattle.ring_buffer.specs.RingHolds.{RingHolds};
ghost use Rattle.ring_buffer.specs.declared.pointer.Pointer.{Pointer};
ghost use Rattle.ring_buffer.specs.LifeReads.{ReadsFew};
ghost use Rattle.ring_buffer.specs.Sends.{send_entry, reply_to_sent, gone_for, level_left};

use crate::search::find_way;
use crate::slot::{FRONT, front_bytes_of};
use crate::walk::{Owed, Position};
use crate::{Pointers, Ring};
use buffer_core::{RunGate, SendRefusal, slot_for};
use event::{Header, slot_len};
use std::marker::Model;

/// An event buffer over the bytes of a ring, which counts its reads. No call takes memory, so that the kept events have
/// no other room.
#[derive(Drop)]
pub struct RingBuffer {
    pub(crate) ring: Ring,
    /// The place of the first kept event.
    pub(crate) first: u64,
    /// The offset of that.
    pub(crate) off: u64,
    /// How many events were ever accepted.
    pub(crate) count: u64,
    /// The offset of the next event.
    pub(crate) total: u64,
    pub(crate) clients: Pointers,
    pub(crate) gate: RunGate,
    pub(crate) last: u32,
}

impl Model for RingBuffer {
    ghost use Rattle.ring_buffer.specs.CountedWindows.{CountedWindow};

    ghost Value = { CountedWindow };

    ghost use Rattle.ring_buffer.specs.RingViews.{counted_of, IsRingBuffer};

    ghost view = { counted_of };

    ghost invariant = { IsRingBuffer };
}

/// All clients that are behind this position go on from there. None is behind the first kept event, so that nobody is
/// looked at where no event is dropped.
fn raise_behind(clients: &mut Pointers, first: u64, way: Position)
    requires { (n : ℕ) (p : Pointer) → slot_at clients.old n ≡ Some p → first ≤ p.client.next }
    ensures { clients.new ≡ change_all (raised way.off way.place) clients.old }
{
    if way.place != first {
        clients.push(way.off, way.place);
    }
}

impl RingBuffer {
    /// A buffer over this ring, of its size, with no event and no client.
    pub fn over(ring: Ring) -> RingBuffer
        requires { 256 ≤ length ring.bytes }
        ensures window { result.window ≡ opening (length ring.bytes) }
        ensures reads { result.reads ≡ ring.reads }
        ensures bytes_read { result.bytes_read ≡ ring.bytes_read }
    {
        RingBuffer {
            ring,
            first: 0,
            off: 0,
            count: 0,
            total: 0,
            clients: Pointers::new(),
            gate: RunGate::Shut,
            last: 0,
        }
    }

    /// How often the ring was read, modulo 2^64: once for what is in front of an event's data, and once for the data.
    pub fn reads(&self) -> u64
        ensures { result ≡ self.now.reads }
    {
        self.ring.reads()
    }

    /// How many bytes of the ring all its reads took together, modulo 2^64.
    pub fn bytes_read(&self) -> u64
        ensures { result ≡ self.now.bytes_read }
    {
        self.ring.bytes_read()
    }

    /// The clients, each at the offset of its next place.
    pub fn pointers(&self) -> &Pointers
        ensures clients { clients_of result.now ≡ self.now.window.clients }
        ensures placed { AreAtOffsets self.now.window result.now }
    {
        &self.clients
    }

    /// Ends the buffer, and gives its ring back: the kept events stand in it, each in its slot.
    pub fn into_ring(self) -> Ring
        ensures holds { RingHolds self.window result.bytes }
        ensures reads { result.reads ≡ self.reads }
        ensures bytes_read { result.bytes_read ≡ self.bytes_read }
    {
        self.ring
    }

    /// Where the kept events begin once there is room for this one, or why it is not taken.
    fn way_for(&mut self, header: &Header, body: &[u8]) -> Result<Position, SendRefusal>
        ensures window { self.new.window ≡ self.old.window }
        ensures taken { OnOk result (reply_to_sent self.old.window header.now body.now
            ≡ Ok (accepted_of self.old.window)) }
        ensures refused { IfErr result (λ refusal. reply_to_sent self.old.window header.now body.now
            ≡ Err refusal) }
        ensures place { IfOk result (λ way. way.place ≡ self.old.window.first
            + gone_for self.old.window header.now body.now) }
        ensures level { IfOk result (λ way. way.off + level_left self.old.window header.now body.now
            ≡ self.old.window.total) }
        ensures stated { OnOk result (header.now.data_size ≡ length body.now) }
        ensures small { OnOk result (length body.now ≤ event_limit) }
        ensures fits { OnOk result (slot_size (event_of header.now body.now)
            ≤ self.old.window.size) }
        ensures spent { OnOk result (self.old.window.total
            + slot_size (event_of header.now body.now) ≤ 2 ^ 62) }
        ensures reads { (n : ℕ) → OnOk result (ReadsFew self.old self.new
            (send_entry header.now body.now (Ok n))) }
        ensures refused_reads { IfErr result (λ refusal. ReadsFew self.old self.new
            (send_entry header.now body.now (Err refusal))) }
    {
        let slot = slot_for(header, body, self.ring.size(), self.total)?;
        let from = Position {
            off: self.off,
            place: self.first,
        };
        let end = Position {
            off: self.total,
            place: self.count,
        };
        let way = match find_way(&mut self.ring, &self.clients, from, end, u64::from(slot)) {
            Ok(way) => way,
            Err(Owed { client, place }) => return Err(SendRefusal::Full { client, place }),
        };
        Ok(way)
    }

    /// Drops the events in front of this position and takes this one, of the run with this start number.
    fn admit(&mut self, way: Position, start: u32, header: &Header, body: &[u8])
        requires place { way.place ≡ self.old.window.first
            + gone_for self.old.window header.now body.now }
        requires level { way.off + level_left self.old.window header.now body.now
            ≡ self.old.window.total }
        requires stated { header.now.data_size ≡ length body.now }
        requires small { length body.now ≤ event_limit }
        requires fits { slot_size (event_of header.now body.now) ≤ self.old.window.size }
        requires spent { self.old.window.total + slot_size (event_of header.now body.now)
            ≤ 2 ^ 62 }
        requires window { IsWindow self.old.window → IsWindow (after_send self.old.window start
            (event_of header.now body.now)) }
        ensures after { self.new.window ≡ after_send self.old.window start
            (event_of header.now body.now) }
        ensures reads { self.new.reads ≡ self.old.reads }
        ensures bytes_read { self.new.bytes_read ≡ self.old.bytes_read }
    {
        let front = front_bytes_of(start, header);
        self.ring.put_at(self.total, &front);
        self.ring.put_at(self.total + FRONT as u64, body);
        raise_behind(&mut self.clients, self.first, way);
        self.first = way.place;
        self.off = way.off;
        self.count += 1;
        self.total += u64::from(slot_len(header.data_size));
    }

    /// Takes the event, of the run with this start number, where there is room for it.
    pub(crate) fn put(
        &mut self,
        start: u32,
        header: &Header,
        body: &[u8],
    ) -> Result<u64, SendRefusal>
        requires window { IsWindow self.old.window → (n : ℕ) →
            reply_to_sent self.old.window header.now body.now ≡ Ok n →
            IsWindow (after_send self.old.window start (event_of header.now body.now)) }
        ensures reply { result ≡ reply_to_sent self.old.window header.now body.now }
        ensures ok { OnOk result (self.new.window ≡ after_send self.old.window start
            (event_of header.now body.now)) }
        ensures err { OnErr result (self.new.window ≡ self.old.window) }
        ensures reads { ReadsFew self.old self.new (send_entry header.now body.now result) }
    {
        let place = self.count;
        let way = self.way_for(header, body)?;
        self.admit(way, start, header, body);
        Ok(place)
    }
}
