ghost use Rattle.std.specs.Prelude.{◌≡◌, ◌<◌, ◌≤◌, ◌↔◌, ℕ, List, IsErr, IfErr, IfOk, OnOk, OnErr, length};
ghost use Rattle.event.specs.Events.{encoding};
ghost use Rattle.daq_io.specs.Counts.{CountsFault};
ghost use Rattle.event.specs.Headers.{event_of, fields_of};
ghost use Rattle.event.specs.Held.{empty_buf};
ghost use Rattle.event.specs.Pieces.{FailsBehind, GathersBody};

use crate::head::{HEADER_BYTES, Header, write_header};
use crate::pieces::read_full;
use crate::room::{append_within, write_head};
use crate::writer::DataWriter;
use daq_io::{Failed, Source};
use daq_types::NoMemory;
use std::alloc::Global;
use std::marker::Model;

/// Room for one event, with its header. Only `new` takes memory.
#[derive(Drop)]
pub struct EventBuf {
    header: Header,
    bytes: Vec<u8>,
    room: u32,
}

/// The data is longer than the room.
#[derive(Clone, Copy, Debug, PartialEq, Eq)]
pub struct TooSmall {
    /// The room for data, in bytes.
    pub room: u32,
}

impl Model for EventBuf {
    ghost use Rattle.event.specs.Held.{HeldEvent};

    ghost Value = { HeldEvent };

    ghost use Rattle.event.specs.Filled.{held_event, IsFilled};

    ghost view = { held_event };

    ghost invariant = { IsFilled };
}

impl EventBuf {
    /// Room for an event with at most so many bytes of data. It holds an event without data, whose header has zeros.
    #[tactic(auto, unfolding(crate::specs::Events::header_bytes))]
    pub fn new(alloc: Global, room: u32) -> Result<EventBuf, NoMemory>
        ensures { IfOk result (λ buf. buf ≡ empty_buf room) }
    {
        let mut bytes = Vec::with_capacity(alloc, HEADER_BYTES + room as usize)?;
        bytes.extend_from_slice(&[0; 16])?;
        Ok(EventBuf {
            header: Header {
                event_id: 0,
                trigger_mask: 0,
                serial_number: 0,
                time_stamp: 0,
                data_size: 0,
            },
            bytes,
            room,
        })
    }

    /// The bytes of data that fit.
    pub fn room(&self) -> u32
        ensures { result ≡ self.now.room }
    {
        self.room
    }

    /// Takes the event with this header and this data, in place of the one that it holds.
    pub fn fill(&mut self, header: &Header, body: &[u8]) -> Result<(), TooSmall>
        requires { header.now.data_size ≡ length body.now }
        ensures small { IsErr result ↔ (self.old.room < length body.now) }
        ensures room { IfErr result (λ small. small.room ≡ self.old.room) }
        ensures ok { OnOk result (self.new ≡ record self.old
            { event = event_of header.now body.now }) }
        ensures err { OnErr result (self.new ≡ self.old) }
    {
        if body.len() > self.room as usize {
            return Err(TooSmall { room: self.room });
        }
        let mut head = [0; 16];
        write_header(header, &mut head);
        self.header = *header;
        self.bytes.clear();
        append_within(&mut self.bytes, &head);
        append_within(&mut self.bytes, body);
        Ok(())
    }

    /// Takes this header, and data of the right length that are still to be written.
    fn prepare(&mut self, header: Header)
        requires { header.data_size ≤ self.old.room }
        ensures { (body : List ℕ) × (length body ≡ header.data_size)
            × (self.new ≡ record self.old { event = event_of header body }) }
    {
        self.header = header;
        write_head(&mut self.bytes, &header);
    }

    /// Takes the event with this header, in place of the one that it holds, and reads its data from a source, which
    /// may give them in any pieces. Answers how many bytes of data there were: fewer than the header states only where
    /// the source has no more. Where the source fails, the room holds some event, of no meaning.
    pub fn fill_from<S: Source>(&mut self, header: &Header, source: &mut S) -> Result<usize, Failed>
        requires { header.now.data_size ≤ self.old.room }
        ensures gathers { IfOk result (GathersBody (S.told source.old).left (S.told source.new).left
            header.now self.new) }
        ensures fails { OnErr result (FailsBehind (S.told source.old).left (S.told source.new).left
            (S.told source.new).at_hand header.now.data_size) }
        ensures room { self.new.room ≡ self.old.room }
        ensures faults { CountsFault (S.told source.old).faults (S.told source.new).faults result }
        ensures origin { (S.told source.new).origin ≡ (S.told source.old).origin }
    {
        self.prepare(*header);
        let (_, body) = self.bytes.as_mut_slice().split_at_mut(HEADER_BYTES);
        read_full(source, body)
    }

    /// Takes the event with this header, in place of the one that it holds, and has its data written.
    pub fn fill_with<S, W: DataWriter<S>>(&mut self, header: &Header, writer: &W, state: &mut S)
        requires room { header.now.data_size ≤ self.old.room }
        requires whole { length (W.gives writer.now) ≡ header.now.data_size }
        ensures event { self.new ≡ record self.old {
          event = event_of header.now
              (W.gives writer.now);
        } }
        ensures led { W.leads state.old state.new }
    {
        let given = *header;
        self.header = given;
        write_head(&mut self.bytes, header);
        let (_, data) = self.bytes.as_mut_slice().split_at_mut(HEADER_BYTES);
        writer.write(data, state);
    }

    /// The header of the event.
    pub fn header(&self) -> Header
        ensures { result ≡ fields_of self.now.event }
    {
        self.header
    }

    /// The data of the event.
    pub fn body(&self) -> &[u8]
        ensures { result.now ≡ self.now.event.body }
    {
        let (_, body) = self.bytes.as_slice().split_at(HEADER_BYTES);
        body
    }

    /// The event as it stands in a file: header and data together.
    pub fn bytes(&self) -> &[u8]
        ensures { result.now ≡ encoding self.now.event }
    {
        self.bytes.as_slice()
    }
}
