ghost use Rattle.std.specs.Prelude.{◌≡◌, ◌≤◌, ◌<◌, ◌^◌, ◌↔◌, ◌++◌, ℕ, List, [], Option, Some, None, Ok, Err, IfSome, IfOk, IfErr, IsSome, IsNone, take, drop};
ghost use Rattle.event.specs.Events.{event_limit};
ghost use Rattle.daq_types.specs.declared.events.Event.{Event};
ghost use Rattle.mid_format.specs.AtHand.{StandsWhole, TakesNext, TakesSoFar, event_at_front};
ghost use Rattle.mid_format.specs.Faults.{OfSource};
ghost use Rattle.mid_format.specs.HasRead.{HasRead, begins_at, nothing_read};
ghost use Rattle.mid_format.specs.Opened.{ReadsOn, CountsNext, fault_of, run_number_of};

use crate::blocks::Ahead;
use crate::faults::MidFault;
use crate::progress::Progress;
use crate::steps::step;
use crate::taker::EventTaker;
use crate::whole::{find_whole, give_whole, pass_whole};
use daq_io::Source;
use event::{EventBuf, HEADER_BYTES, Header};
use std::marker::Model;

/// Reads the events of a run file, one at a time, from any source, which may give its bytes in any pieces. Each byte is
/// read once. Takes no memory.
#[derive(Drop)]
pub struct MidReader<S> {
    source: S,
    progress: Progress,
}

impl<S> Model for MidReader<S> {
    ghost use Rattle.std.specs.Prelude.{◌≤◌, ◌^◌};
    ghost use Rattle.mid_format.specs.Opened.{OpenedReader};

    ghost Value = { OpenedReader S };

    ghost view = { λ r. record { source = r.source; progress = r.progress } };

    ghost invariant = { λ r. r.progress.at ≤ 2 ^ 62 };
}

impl<S> MidReader<S> {
    /// A reader of the source's bytes, which has read nothing.
    pub fn new(source: S) -> MidReader<S>
        ensures { result ≡ record { source = source; progress = nothing_read } }
    {
        MidReader::behind(source, 0)
    }

    /// A reader of the source's bytes, which has read nothing. They stand behind so many bytes of other files of the run,
    /// which count in each place and for the most bytes that there may be.
    pub fn behind(source: S, start: u64) -> MidReader<S>
        requires { start ≤ 2 ^ 62 }
        ensures { result ≡ record { source = source; progress = begins_at start } }
    {
        MidReader {
            source,
            progress: Progress {
                begin: None,
                last: None,
                at: start,
                fault: None,
            },
        }
    }

    /// The source, with what it has left.
    pub fn into_source(self) -> S
        ensures { result ≡ self.source }
    {
        let MidReader {
            source,
            progress: _,
        } = self;
        source
    }

    /// The number of the run, once the begin record was read.
    pub fn run(&self) -> Option<u32>
        ensures { result ≡ run_number_of self.now.progress.begin }
    {
        match self.progress.begin {
            None => None,
            Some(begin) => Some(begin.serial_number),
        }
    }

    /// The header of the begin record, once that was read.
    pub fn begin(&self) -> Option<Header>
        ensures { result ≡ self.now.progress.begin }
    {
        self.progress.begin
    }

    /// How many bytes the records and events have that were read, with those of the files before.
    pub fn place(&self) -> u64
        ensures { result ≡ self.now.progress.at }
    {
        self.progress.at
    }

    /// The header of the end record, once that was read.
    pub fn last(&self) -> Option<Header>
        ensures { result ≡ self.now.progress.last }
    {
        self.progress.last
    }
}

impl<S: Source> MidReader<S> {
    /// Reads the next event into `into`. `None` where the file has no more: its end record was read, and its source has
    /// ended. An error is the first fault of the bytes, or `ReadFault` where the source failed; every later call answers
    /// it again. After an error `into` holds an event of which only a part was read, or the one from before.
    pub fn next(&mut self, into: &mut EventBuf) -> Result<Option<()>, MidFault>
        requires { event_limit ≤ into.old.room }
        // What was read is the bytes of the records and of the events that were given, and the fault is theirs.
        ensures reads { ReadsOn (S.told self.old.source).left (S.told self.new.source).left
            self.old.progress self.new.progress result into.new.event }
        ensures fault { self.new.progress.fault ≡ fault_of result }
        ensures end { IfOk result (λ given. IsNone given ↔ IsSome self.new.progress.last) }
        // The begin record is read once.
        ensures begun { IsSome self.old.progress.begin → self.new.progress.begin
            ≡ self.old.progress.begin }
        // A fault, and the end, are answered again, and the source is left alone.
        ensures again { IfSome self.old.progress.fault (λ fault. result ≡ Err fault) }
        ensures still { self.old.progress.fault ≡ None → IsSome self.old.progress.last → result
            ≡ Ok None }
        ensures alone { IsSome self.old.progress.fault → self.new ≡ self.old }
        ensures alone_at_end { IsSome self.old.progress.last → self.new ≡ self.old }
        // Each event has some bytes, and what was read ends in front of byte 2^62: so a loop over the events ends.
        ensures onward { IfOk result (λ given. IsSome given → self.old.progress.at
            < self.new.progress.at) }
        ensures limit { self.new.progress.at ≤ 2 ^ 62 }
        ensures counted { CountsNext self.old.progress.fault (S.told self.old.source).faults
            (S.told self.new.source).faults result }
        // Where the source fails, nothing lies at hand any more.
        ensures at_hand { self.old.progress.fault ≡ None → IfErr result (λ fault. OfSource fault
            ((S.told self.new.source).at_hand ≡ [])) }
        // `into` stays at the end, and where a fault is answered again.
        ensures into_at_end { IfOk result (λ given. IsNone given → into.new ≡ into.old) }
        ensures into_again { IsSome self.old.progress.fault → into.new ≡ into.old }
        ensures room { into.new.room ≡ into.old.room }
        ensures origin { (S.told self.new.source).origin ≡ (S.told self.old.source).origin }
    {
        if let Some(fault) = self.progress.fault {
            return Err(fault);
        }
        if self.progress.last.is_some() {
            return Ok(None);
        }
        match step(&mut self.source, &mut self.progress, into) {
            Ok(given) => Ok(given),
            Err(fault) => {
                self.progress.fault = Some(fault);
                Err(fault)
            }
        }
    }
}

impl<S: Ahead> MidReader<S> {
    /// The next event's header and data, where they lie whole at hand and nothing is wrong with them. `None` tells
    /// nothing: `next` reads on.
    pub fn whole_event(&self) -> Option<(Header, &[u8])>
        ensures whole { IfSome result (λ event. StandsWhole self.now.progress
            (S.told self.now.source).at_hand event.0) }
        ensures data { IfSome result (λ event. event.1.now
            ≡ take event.0.data_size (drop 16 (S.told self.now.source).at_hand)) }
    {
        let bytes = self.source.peek();
        let header = find_whole(&self.progress, bytes)?;
        let (_, behind) = bytes.split_at(HEADER_BYTES);
        let (data, _) = behind.split_at(header.data_size as usize);
        Some((header, data))
    }

    /// Reads on behind the event with this header, which lies whole at hand.
    pub fn pass_event(&mut self, header: &Header)
        requires { StandsWhole self.old.progress (S.told self.old.source).at_hand header.now }
        ensures reads { ReadsOn (S.told self.old.source).left (S.told self.new.source).left
            self.old.progress self.new.progress (Ok (Some tt))
            (event_at_front header.now (S.told self.old.source).at_hand) }
        ensures fault { self.new.progress.fault ≡ None }
        ensures end { self.new.progress.last ≡ None }
        ensures begun { self.new.progress.begin ≡ self.old.progress.begin }
        ensures onward { self.old.progress.at < self.new.progress.at }
        ensures limit { self.new.progress.at ≤ 2 ^ 62 }
        ensures faults { (S.told self.new.source).faults ≡ (S.told self.old.source).faults }
        ensures origin { (S.told self.new.source).origin ≡ (S.told self.old.source).origin }
    {
        pass_whole(&mut self.source, &mut self.progress, header);
    }

    /// Reads the next event as `next` does, and gives it to a taker: where it lies, if it lies whole at hand; else by way of
    /// `room`, in which something else may stand afterwards.
    pub fn give_next<T: EventTaker>(
        &mut self,
        room: &mut EventBuf,
        taker: &mut T,
    ) -> Result<Option<()>, MidFault>
        requires so_far { TakesSoFar (T.has_taken taker.old) (S.told self.old.source).left
            self.old.progress }
        requires room { event_limit ≤ room.old.room }
        // The taker has one event more, the one that was read, or no more at the end and at a fault.
        ensures gives { (start : ℕ) → (first : Option (List ℕ)) → (before events : List Event)
            → HasRead start first (S.told self.old.source).left self.old.progress events
            → T.has_taken taker.old (before ++ events) → TakesNext (T.has_taken taker.new) start
            first (S.told self.new.source).left self.new.progress before events result }
        ensures fault { self.new.progress.fault ≡ fault_of result }
        ensures end { IfOk result (λ given. IsNone given ↔ IsSome self.new.progress.last) }
        ensures begun { IsSome self.old.progress.begin → self.new.progress.begin
            ≡ self.old.progress.begin }
        ensures onward { IfOk result (λ given. IsSome given → self.old.progress.at
            < self.new.progress.at) }
        ensures limit { self.new.progress.at ≤ 2 ^ 62 }
        ensures counted { CountsNext self.old.progress.fault (S.told self.old.source).faults
            (S.told self.new.source).faults result }
        ensures room { room.new.room ≡ room.old.room }
        ensures origin { (S.told self.new.source).origin ≡ (S.told self.old.source).origin }
    {
        let Some(header) = find_whole(&self.progress, self.source.peek()) else {
            return self.give_read(room, taker);
        };
        give_whole(&mut self.source, &mut self.progress, &header, taker);
        Ok(Some(()))
    }

    /// Reads the next event into `room` and gives it to a taker.
    fn give_read<T: EventTaker>(
        &mut self,
        room: &mut EventBuf,
        taker: &mut T,
    ) -> Result<Option<()>, MidFault>
        requires so_far { TakesSoFar (T.has_taken taker.old) (S.told self.old.source).left
            self.old.progress }
        requires room { event_limit ≤ room.old.room }
        ensures gives { (start : ℕ) → (first : Option (List ℕ)) → (before events : List Event)
            → HasRead start first (S.told self.old.source).left self.old.progress events
            → T.has_taken taker.old (before ++ events) → TakesNext (T.has_taken taker.new) start
            first (S.told self.new.source).left self.new.progress before events result }
        ensures fault { self.new.progress.fault ≡ fault_of result }
        ensures end { IfOk result (λ given. IsNone given ↔ IsSome self.new.progress.last) }
        ensures begun { IsSome self.old.progress.begin → self.new.progress.begin
            ≡ self.old.progress.begin }
        ensures onward { IfOk result (λ given. IsSome given → self.old.progress.at
            < self.new.progress.at) }
        ensures limit { self.new.progress.at ≤ 2 ^ 62 }
        ensures counted { CountsNext self.old.progress.fault (S.told self.old.source).faults
            (S.told self.new.source).faults result }
        ensures room { room.new.room ≡ room.old.room }
        ensures origin { (S.told self.new.source).origin ≡ (S.told self.old.source).origin }
    {
        match self.next(room) {
            Ok(Some(())) => {
                taker.take(&room.header(), room.body());
                Ok(Some(()))
            }
            Ok(None) => Ok(None),
            Err(fault) => Err(fault),
        }
    }
}
