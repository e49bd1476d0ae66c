ghost use Rattle.std.specs.Prelude.{◌≡◌, ◌+◌, ◌≤◌, ◌^◌, ◌∷◌, ◌++◌, [], List, length, IfOk, OnOk, OnErr};
ghost use Rattle.daq_types.specs.declared.events.Event.{Event};
ghost use Rattle.event.specs.Headers.{event_of};
ghost use Rattle.event_report.specs.Reports.{report_of};
ghost use Rattle.event_report.specs.Texts.{HasInFront, events_text, line, report_text, rest_text};

use crate::banks::BankTable;
use crate::ids::IdTable;
use crate::texts::{append_banks, append_ids, append_named};
use bank_format::Banks;
use daq_text::TextBuffer;
use daq_types::NoMemory;
use event::{HEADER_BYTES, Header};
use std::alloc::Global;
use std::marker::Model;
use transitions::ClientReport;

/// What is counted of events that come one at a time. Only `new`, `copied` and `print` take memory.
#[derive(Drop)]
pub struct Report {
    bytes: u64,
    events: u64,
    ids: IdTable,
    banks: BankTable,
    bad: u64,
}

impl Model for Report {
    ghost use Rattle.event_report.specs.Reports.{Totals};

    ghost Value = { Totals };

    ghost use Rattle.event_report.specs.Held.{IsWithinBytes};

    ghost view = { λ r. record {
      bytes = r.bytes;
      events = r.events;
      ids = r.ids;
      banks = r.banks;
      bad = r.bad;
    } };

    ghost invariant = { λ r. IsWithinBytes r.bytes r.events r.ids r.banks r.bad };
}

/// What a client counts of the events of a run, and tells with its answer to the stop.
impl ClientReport for Report {
    ghost use Rattle.event_report.specs.Reports.{IsBlank};

    ghost is_blank = { IsBlank };
}

impl Report {
    /// The report of no events, with all the room that it will need.
    #[tactic(auto, unfolding(crate::specs::Reports::report_of))]
    pub fn new(alloc: Global) -> Result<Report, NoMemory>
        ensures report { IfOk result (λ report. report ≡ report_of []) }
        ensures bytes { IfOk result (λ report. report.bytes ≡ 0) }
    {
        Ok(Report {
            bytes: 0,
            events: 0,
            ids: IdTable::new(alloc)?,
            banks: BankTable::new(alloc)?,
            bad: 0,
        })
    }

    /// The same report once more, in room of its own.
    pub fn copied(&self, alloc: Global) -> Result<Report, NoMemory>
        ensures { IfOk result (λ copied. copied ≡ self.now) }
    {
        Ok(Report {
            bytes: self.bytes,
            events: self.events,
            ids: self.ids.copied(alloc)?,
            banks: self.banks.copied(alloc)?,
            bad: self.bad,
        })
    }

    /// Counts one more event. The events so far and this one may have 2^62 bytes together, each with 16 for its header.
    pub fn fold(&mut self, header: &Header, body: &[u8])
        requires { self.old.bytes + 16 + length body.now ≤ 2 ^ 62 }
        // Whatever events it is the report of, it becomes the report of these and this one.
        ensures report { (events : List Event) → self.old ≡ report_of events → self.new
            ≡ report_of (events ++ event_of header.now body.now ∷ []) }
        ensures bytes { self.new.bytes ≡ self.old.bytes + 16 + length body.now }
    {
        self.bytes += HEADER_BYTES as u64 + body.len() as u64;
        self.events += 1;
        self.ids.count(header.event_id);
        match Banks::read(body) {
            Ok(banks) => self.banks.count_all(banks),
            Err(_) => self.bad += 1,
        }
    }

    /// Appends the text of the report, each line with `start` before it. Without memory enough for it nothing is
    /// appended.
    pub fn print(&self, start: &[u8], out: &mut TextBuffer) -> Result<(), NoMemory>
        ensures printed { OnOk result (out.new ≡ out.old ++ report_text start.now self.now) }
        ensures kept { OnErr result (out.new ≡ out.old) }
    {
        let len = out.as_slice().len();
        let printed = self.append(start, out);
        if printed.is_err() {
            out.truncate(len);
        }
        printed
    }

    /// Appends the line of the events.
    fn append_events(&self, start: &[u8], out: &mut TextBuffer) -> Result<(), NoMemory>
        ensures added { OnOk result (out.new ≡ out.old ++ line start.now (events_text self.now)) }
        ensures begins { OnErr result (HasInFront out.old out.new) }
    {
        out.text(start)?;
        append_named(b"events ", self.events, out)?;
        out.end_line()
    }

    /// Appends the line of what has no row.
    fn append_rest(&self, start: &[u8], out: &mut TextBuffer) -> Result<(), NoMemory>
        ensures added { OnOk result (out.new ≡ out.old ++ line start.now (rest_text self.now)) }
        ensures begins { OnErr result (HasInFront out.old out.new) }
    {
        out.text(start)?;
        append_named(b"rest ids ", self.ids.rest(), out)?;
        append_named(b" banks ", self.banks.rest(), out)?;
        append_named(b" bad ", self.bad, out)?;
        out.end_line()
    }

    /// Appends the text, each line with `start` before it, or some of it.
    #[tactic(auto, unfolding(crate::specs::Texts::report_text))]
    fn append(&self, start: &[u8], out: &mut TextBuffer) -> Result<(), NoMemory>
        ensures added { OnOk result (out.new ≡ out.old ++ report_text start.now self.now) }
        ensures begins { OnErr result (HasInFront out.old out.new) }
    {
        self.append_events(start, out)?;
        append_ids(self.ids.rows(), start, out)?;
        append_banks(self.banks.rows(), start, out)?;
        self.append_rest(start, out)
    }
}
