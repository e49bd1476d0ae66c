ghost use Rattle.std.specs.Prelude.{◌≡◌, ◌≤◌, ◌+◌, ◌^◌, ℕ, IfOk, IfNone, OnErr, OnOk};
ghost use Rattle.odb_script.specs.Lines.{no_line_read, script_limit};
ghost use Rattle.console.specs.Playing.{GoesBehind};

use crate::Refusals;
use crate::answerer::Answerer;
use crate::console::print_reply;
use crate::endings::Ending;
use crate::going::Going;
use crate::halts::Halt;
use daq_io::{Sink, Source};
use daq_text::TextBuffer;
use daq_types::NoMemory;
use odb_script::{Command, LineReader, LineRefusal, NextLine};
use std::alloc::Global;
use std::sync::Wait;

/// Where a script is read, and its replies are written.
#[derive(Drop)]
pub struct LineLoop {
    /// The reader, which has the line that was read last.
    pub reader: LineReader,
    /// The text of one reply.
    pub text: TextBuffer,
    /// The lines that were refused so far.
    pub refusals: Refusals,
    /// How many lines were answered.
    pub number: u64,
    /// Whether the line that was read is the last, without an end.
    pub last: bool,
    ghost counted: { refusals.count ≤ number },
    // Each line that was answered took a byte.
    ghost taken: { number ≤ reader.taken },
    ghost within: { reader.taken ≤ script_limit },
}

/// Whether the script goes on behind this command.
fn going_behind(command: &Result<Command<'_>, LineRefusal>, last: bool) -> Going
    ensures { GoesBehind result last command.now }
{
    match command {
        Ok(Command::Exit) => Going::End,
        _ => { if last { Going::End } else { Going::On } }
    }
}

impl LineLoop {
    ghost use Rattle.console.specs.Halts.{CountsSink};
    ghost use Rattle.console.specs.Reading.{ReadsLineOrEnd, SourceBy};
    ghost use Rattle.console.specs.Playing.{DoesLine, number_behind};

    /// A loop before the first line.
    pub fn new(alloc: Global) -> Result<LineLoop, NoMemory>
        ensures reader { IfOk result (λ d. d.reader ≡ no_line_read) }
        ensures refusals { IfOk result (λ d. d.refusals ≡ record { count = 0; first = 0 }) }
        ensures number { IfOk result (λ d. d.number ≡ 0) }
    {
        let reader = LineReader::new(alloc)?;
        Ok(LineLoop {
            reader,
            text: TextBuffer::new(alloc),
            refusals: Refusals::NONE,
            number: 0,
            last: false,
        })
    }

    /// Reads the next line. None where there is one; else how the lines ended.
    pub fn next_line<S: Source>(&mut self, source: &mut S) -> Option<Ending>
        ensures read { ReadsLineOrEnd result self.new.last self.old.reader self.new.reader
            (S.told source.old) (S.told source.new) }
        ensures number { self.new.number ≡ self.old.number }
        ensures refusals { self.new.refusals ≡ self.old.refusals }
        ensures fits { IfNone result (self.new.number + 1 ≤ self.new.reader.taken) }
        ensures faults { SourceBy result (S.told source.old).faults (S.told source.new).faults }
    {
        let next = self.reader.advance(source);
        match next {
            NextLine::Line => {
                self.last = false;
                None
            }
            NextLine::Last => {
                self.last = true;
                None
            }
            NextLine::End => Some(Ending::End),
            NextLine::TooLong => Some(Ending::TooLong),
            NextLine::Fault => Some(Ending::SourceFault),
        }
    }

    /// Answers the line that was read, and writes what it prints. Where there is no memory for that, nothing is noted of the line.
    pub fn handle<R: Wait, A: Answerer, O: Sink>(
        &mut self,
        rt: &R,
        alloc: Global,
        answerer: &mut A,
        out: &mut O,
    ) -> Result<Going, Halt>
        requires fits { self.old.number + 1 ≤ self.old.reader.taken }
        ensures did { DoesLine A.does A.breaks A.withdraws A.leaves self.old.reader.line (self.old.number + 1)
            self.old.last (A.stage answerer.old) (A.stage answerer.new) (O.told out.old).written
            (O.told out.new).written self.old.refusals self.new.refusals result }
        ensures reader { self.new.reader ≡ self.old.reader }
        ensures last { self.new.last ≡ self.old.last }
        ensures number { IfOk result (λ going. self.new.number
            ≡ number_behind going self.old.number) }
        ensures sink { CountsSink (O.told out.old).faults (O.told out.new).faults result }
        ensures stays { A.stays answerer.old answerer.new }
    {
        let command = Command::read(self.reader.line());
        if answerer.is_left(&command) {
            return Ok(Going::Opens);
        }
        let going = going_behind(&command, self.last);
        let number = self.number + 1;
        let reply = answerer.answer(rt, alloc, number, command)?;
        self.refusals.note(number, &reply);
        self.number = number;
        match print_reply(&mut self.text, number, &reply, out) {
            Ok(()) => Ok(going),
            Err(Halt::SinkFault) => Err(Halt::SinkFault),
            Err(Halt::NoMemory) => {
                answerer.withdraw(number);
                Err(Halt::NoMemory)
            }
        }
    }
}
