ghost use Rattle.std.specs.Prelude.{◌≡◌, ◌≤◌, ◌<◌, ◌∷◌, ℕ, List, [], Option, IfOk, OnOk, OnErr, vec_len};
ghost use Rattle.std.specs.Io.KnownBytes.{Appends};
ghost use Rattle.daq_io.specs.Counts.{CountsFault};
ghost use Rattle.daq_io.specs.Seen.{Same};
ghost use Rattle.daq_io.specs.Streams.{AppendsPart};
ghost use Rattle.event.specs.Events.{event_limit};
ghost use Rattle.mid_format.specs.HasRead.{nothing_read};
ghost use Rattle.midas_tools.specs.Dumps.{DumpsTo, EndsText, HandEnds, HandHalts, ListsTo, Printing, PrintsOn, ReadCounts, SinkHalts, SourceHalts, WritesOn, end_lines, tool_end, ended_text, fault_lines, new_begin};
ghost use Rattle.midas_tools.specs.Findings.{SinkByEnd, call_counts};
ghost use Rattle.midas_tools.specs.Printing.{PassesText};
ghost use Rattle.midas_tools.specs.Together.{EndsBy};

use crate::areas::print_event;
use crate::blocks::new_block;
use crate::closing::{close_file, refuse};
use crate::ends::{InputFault, ToolEnd};
use crate::halts::Halt;
use crate::lines::{bad_line, record_line};
use crate::opening::{Refused, open};
use crate::page::Page;
use daq_io::{Failed, Files, Sink, Source};
use daq_types::{FileName, NoMemory};
use event::{EventBuf, Header, MAX_DATA};
use mid_format::{Ahead, BlockSource, MidFault, MidReader};
use std::alloc::Global;

/// The memory of a call, which is taken before the file is opened.
#[derive(Drop)]
struct DumpRoom {
    block: Vec<u8>,
    event: EventBuf,
    page: Page,
}

impl DumpRoom {
    /// Room with nothing in it.
    fn new(alloc: Global) -> Result<DumpRoom, NoMemory>
        ensures block { IfOk result (λ room. 0 < vec_len room.block) }
        ensures event { IfOk result (λ room. event_limit ≤ room.event.room) }
        ensures page { IfOk result (λ room. room.page ≡ []) }
    {
        Ok(DumpRoom {
            block: new_block(alloc)?,
            event: EventBuf::new(alloc, MAX_DATA)?,
            page: Page::new(alloc)?,
        })
    }
}

/// Prints the line of the begin record, where it was read just now.
fn print_begin<O: Sink>(
    page: &mut Page,
    begun: bool,
    begin: Option<Header>,
    out: &mut O,
) -> Result<(), Failed>
    ensures passes { PassesText (O.told out.old).written (O.told out.new).written page.old page.new
        (new_begin begun begin) result }
    ensures faults { CountsFault (O.told out.old).faults (O.told out.new).faults result }
{
    if begun {
        return Ok(());
    }
    match begin {
        Some(begin) => page.print(&record_line(b"begin", &begin), out),
        None => Ok(()),
    }
}

/// Prints the line of the end record, where it was read.
fn print_end<O: Sink>(page: &mut Page, last: Option<Header>, out: &mut O) -> Result<(), Failed>
    ensures passes { PassesText (O.told out.old).written (O.told out.new).written page.old page.new
        (end_lines last) result }
    ensures faults { CountsFault (O.told out.old).faults (O.told out.new).faults result }
{
    match last {
        Some(last) => page.print(&record_line(b"end", &last), out),
        None => Ok(()),
    }
}

/// Prints the line of a fault, unless it is the source's.
fn print_fault<O: Sink>(page: &mut Page, fault: Option<MidFault>, out: &mut O) -> Result<(), Failed>
    ensures passes { PassesText (O.told out.old).written (O.told out.new).written page.old page.new
        (fault_lines fault) result }
    ensures faults { CountsFault (O.told out.old).faults (O.told out.new).faults result }
{
    match fault {
        None => Ok(()),
        Some(fault) => match fault {
            MidFault::ReadFault => Ok(()),
            fault => page.print(&bad_line(InputFault::Mid(fault)), out),
        },
    }
}

/// Prints the events that lie whole at hand, from where they lie.
fn print_at_hand<S: Ahead, O: Sink>(
    reader: &mut MidReader<S>,
    page: &mut Page,
    out: &mut O,
) -> Result<(), Failed>
    ensures prints { (first told_first : Option (List ℕ))
        → Printing first (S.told reader.old.source).left reader.old.progress told_first
        (O.told out.old).written page.old
        → PrintsOn first (S.told reader.new.source).left reader.new.progress told_first
        (O.told out.new).written page.new result }
    ensures source { (S.told reader.new.source).faults ≡ (S.told reader.old.source).faults }
    ensures sink { CountsFault (O.told out.old).faults (O.told out.new).faults result }
    ensures origin { (S.told reader.new.source).origin ≡ (S.told reader.old.source).origin }
    ensures onward { reader.old.progress.at ≤ reader.new.progress.at }
{
    while let Some((header, body)) = reader.whole_event() {
        let printed = print_event(page, &header, body, out);
        reader.pass_event(&header);
        printed?;
    }
    Ok(())
}

/// Prints the begin record and the events, as they are read.
fn print_events<S: Ahead, O: Sink>(
    reader: &mut MidReader<S>,
    event: &mut EventBuf,
    page: &mut Page,
    out: &mut O,
) -> Result<(), Halt>
    requires new { reader.old.progress ≡ nothing_read }
    requires room { event_limit ≤ event.old.room }
    requires blank { page.old ≡ [] }
    ensures lists { ListsTo (S.told reader.old.source).left (S.told reader.new.source).left
        reader.new.progress (O.told out.old).written (O.told out.new).written page.new result }
    ensures source { SourceHalts result (S.told reader.old.source).faults (S.told reader.new.source).faults }
    ensures at_hand { HandHalts result (S.told reader.new.source).at_hand }
    ensures sink { SinkHalts result (O.told out.old).faults (O.told out.new).faults }
    ensures origin { (S.told reader.new.source).origin ≡ (S.told reader.old.source).origin }
{
    'events: loop {
        let begun = reader.begin().is_some();
        let given = reader.next(event);
        print_begin(page, begun, reader.begin(), out)?;
        match given {
            Ok(Some(())) => {
                print_event(page, &event.header(), event.body(), out)?;
                print_at_hand(reader, page, out)?;
            }
            Ok(None) => return Ok(()),
            Err(fault) => return Err(Halt::Bad { fault }),
        }
    }
}

/// Writes what is on the page, and the lines of the end record and of the fault where there are such.
fn print_last<O: Sink>(
    last: Option<Header>,
    fault: Option<MidFault>,
    page: &mut Page,
    out: &mut O,
) -> Result<(), Failed>
    ensures all { OnOk result (Appends (O.told out.old).written (O.told out.new).written
        (ended_text page.old last fault)) }
    ensures part { OnErr result (AppendsPart (O.told out.old).written (O.told out.new).written
        (ended_text page.old last fault)) }
    ensures faults { CountsFault (O.told out.old).faults (O.told out.new).faults result }
{
    print_end(page, last, out)?;
    print_fault(page, fault, out)?;
    page.flush(out)
}

/// The end of a call that read a file to its end, or to this fault.
fn tool_end(fault: Option<MidFault>) -> ToolEnd
    ensures { result ≡ tool_end fault }
{
    match fault {
        None => ToolEnd::Done,
        Some(MidFault::ReadFault) => ToolEnd::FileFault,
        Some(fault) => ToolEnd::Input(InputFault::Mid(fault)),
    }
}

/// Writes the last lines, and answers the end.
fn end_dump<O: Sink>(
    last: Option<Header>,
    fault: Option<MidFault>,
    page: &mut Page,
    out: &mut O,
) -> ToolEnd
    ensures text { EndsText fault (O.told out.old).written (O.told out.new).written
        (ended_text page.old last fault) result }
    ensures sink { SinkByEnd result (O.told out.old).faults (O.told out.new).faults }
{
    match print_last(last, fault, page, out) {
        Ok(()) => tool_end(fault),
        Err(_) => ToolEnd::SinkFault,
    }
}

/// Reads a file and prints what `dump` prints of it.
fn read_and_dump<S: Ahead, O: Sink>(
    reader: &mut MidReader<S>,
    event: &mut EventBuf,
    page: &mut Page,
    out: &mut O,
) -> ToolEnd
    requires new { reader.old.progress ≡ nothing_read }
    requires room { event_limit ≤ event.old.room }
    requires blank { page.old ≡ [] }
    ensures dumps { DumpsTo (S.told reader.old.source).left (S.told reader.new.source).left
        (O.told out.old).written (O.told out.new).written result }
    ensures source { ReadCounts result (S.told reader.old.source).faults (S.told reader.new.source).faults }
    ensures at_hand { HandEnds result (S.told reader.new.source).at_hand }
    ensures sink { SinkByEnd result (O.told out.old).faults (O.told out.new).faults }
    ensures origin { (S.told reader.new.source).origin ≡ (S.told reader.old.source).origin }
{
    match print_events(reader, event, page, out) {
        Ok(()) => end_dump(reader.last(), None, page, out),
        Err(Halt::Bad { fault }) => end_dump(reader.last(), Some(fault), page, out),
        Err(Halt::SinkFailed) => ToolEnd::SinkFault,
    }
}

/// Reads a source in blocks, as `read_and_dump`, and gives it back.
fn dump_source<S: Source, O: Sink>(source: S, room: DumpRoom, out: &mut O) -> (ToolEnd, S)
    requires block { 0 < vec_len room.block }
    requires event { event_limit ≤ room.event.room }
    requires page { room.page ≡ [] }
    ensures dumps { DumpsTo (S.told source).left (S.told result.1).left (O.told out.old).written
        (O.told out.new).written result.0 }
    ensures source { ReadCounts result.0 (S.told source).faults (S.told result.1).faults }
    ensures sink { SinkByEnd result.0 (O.told out.old).faults (O.told out.new).faults }
    ensures origin { (S.told result.1).origin ≡ (S.told source).origin }
{
    let DumpRoom {
        block,
        mut event,
        mut page,
    } = room;
    let blocks = BlockSource::new(source, block);
    let mut reader = MidReader::new(blocks);
    let end = read_and_dump(&mut reader, &mut event, &mut page, out);
    let blocks = reader.into_source();
    (end, blocks.into_source())
}

/// Reads the file of this name and prints its records and events, with the banks of each, as they are read, and what is
/// wrong with it where it is no run file. Hands the files back, in which every name and every byte is as it was.
pub fn dump_file<F: Files, O: Sink>(
    alloc: Global,
    files: F,
    name: &FileName,
    out: &mut O,
) -> (ToolEnd, F)
    // What was found, and what was written of it.
    ensures writes { WritesOn (F.told files).seen name.now (F.told files).bytes_read
        (F.told result.1).bytes_read (O.told out.old).written (O.told out.new).written result.0 }
    // A fault of the sink or of the files is the end exactly where its count rose and no earlier cause holds. Unless a call
    // failed or there was no memory, a run file leads to the end `Done`, and another to what is wrong with it.
    ensures ends { EndsBy result.0 (F.told files).seen (name.now ∷ [])
        (call_counts O.told F.told out.old out.new files result.1) }
    // Where memory is wanting the files were not called.
    ensures uncalled { result.0 ≡ ToolEnd.NoMemory → result.1 ≡ files }
    ensures same { Same (F.told files).seen (F.told result.1).seen }
{
    if name.compressed() {
        return (refuse(Refused::NameCompressed, out), files);
    }
    let Ok(room) = DumpRoom::new(alloc) else {
        return (ToolEnd::NoMemory, files);
    };
    match open(files, name) {
        Ok(source) => {
            let (end, source) = dump_source(source, room, out);
            close_file(end, source)
        }
        Err((refused, files)) => (refuse(refused, out), files),
    }
}
