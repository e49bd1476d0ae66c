//! The files of a run, read in order into one summary.
ghost use Rattle.std.specs.Prelude.{◌≡◌, ◌≤◌, ◌<◌, ◌^◌, List, [], IfOk, IfSome, length};
ghost use Rattle.daq_io.specs.Seen.{Same};
ghost use Rattle.daq_types.specs.declared.events.Event.{Event};
ghost use Rattle.event.specs.Events.{all_encoded, event_limit};
ghost use Rattle.mid_format.specs.HasRead.{begins_at};
ghost use Rattle.midas_tools.specs.Findings.{ClashCounts, FilesByEnd, SourceByEnd};
ghost use Rattle.midas_tools.specs.Gathering.{EndsAtFault, GathersTo, HasGathered, IsOther, ReadsName, ReadsPiece, extent_behind, no_extent};
ghost use Rattle.midas_tools.specs.Pieces.{in_file};

use crate::blocks::new_block;
use crate::closing::close_file;
use crate::ends::{InputFault, ToolEnd};
use crate::extents::Extent;
use crate::opening::open;
use crate::summary::Summary;
use crate::wrong::end_refused;
use daq_io::{Files, Source};
use daq_types::{FileName, NoMemory};
use event::{EventBuf, MAX_DATA};
use mid_format::{Ahead, BlockSource, MidFault, MidReader};
use std::alloc::Global;

/// What was read of the files of a run: the summary of their events, with room for one, and how far they were read.
#[derive(Drop)]
pub struct Gathered<T> {
    pub summary: T,
    pub room: EventBuf,
    pub extent: Extent,
}

impl<T: Summary> Gathered<T> {
    /// Nothing was read.
    pub fn new(alloc: Global) -> Result<Gathered<T>, NoMemory>
        ensures summary { IfOk result (λ gathered. T.has_taken gathered.summary []) }
        ensures room { IfOk result (λ gathered. event_limit ≤ gathered.room.room) }
        ensures extent { IfOk result (λ gathered. gathered.extent ≡ no_extent) }
    {
        Ok(Gathered {
            summary: T::empty(alloc)?,
            room: EventBuf::new(alloc, MAX_DATA)?,
            extent: Extent {
                files: 0,
                run: None,
                bytes: 0,
            },
        })
    }
}

/// The run of a file, where it is another than that of the files before.
fn other_run(before: Option<u32>, found: Option<u32>) -> Option<u32>
    ensures { IsOther before found result }
{
    let before = before?;
    let found = found?;
    if found == before {
        return None;
    }
    Some(found)
}

/// The place of a fault in its file, which was counted from the first file on.
fn in_file(before: u64, fault: MidFault) -> MidFault
    ensures { result ≡ in_file before fault }
{
    match fault {
        MidFault::Truncated { at } => MidFault::Truncated {
            at: at.saturating_sub(before),
        },
        MidFault::NoBegin { at } => MidFault::NoBegin {
            at: at.saturating_sub(before),
        },
        MidFault::NoEnd { at } => MidFault::NoEnd {
            at: at.saturating_sub(before),
        },
        MidFault::AfterEnd { at } => MidFault::AfterEnd {
            at: at.saturating_sub(before),
        },
        MidFault::TooBig { at, size } => MidFault::TooBig {
            at: at.saturating_sub(before),
            size,
        },
        MidFault::ReadFault => MidFault::ReadFault,
        MidFault::BadRecord { at } => MidFault::BadRecord {
            at: at.saturating_sub(before),
        },
        MidFault::TooLong { at } => MidFault::TooLong {
            at: at.saturating_sub(before),
        },
    }
}

/// The end where a file is of this other run than those before it.
fn end_other(before: Extent, run: u32) -> ToolEnd
    ensures { result ≡ ToolEnd.Input (InputFault.OtherRun before.files run) }
{
    ToolEnd::Input(InputFault::OtherRun {
        file: before.files,
        run,
    })
}

/// The end at this fault of a file, whose begin record, where it was read, is of this run. One of another run is told first.
fn end_fault(before: Extent, run: Option<u32>, fault: MidFault) -> ToolEnd
    ensures { EndsAtFault before run fault result }
{
    match fault {
        MidFault::ReadFault => ToolEnd::FileFault,
        fault => match other_run(before.run, run) {
            Some(run) => end_other(before, run),
            None => ToolEnd::Input(InputFault::Mid(in_file(before.bytes, fault))),
        },
    }
}

/// Reads all events of a file into the summary, behind those of the files before, and answers the end that this leads to.
fn sum_piece<S: Ahead, T: Summary>(
    reader: &mut MidReader<S>,
    room: &mut EventBuf,
    summary: &mut T,
    before: Extent,
) -> ToolEnd
    requires new { reader.old.progress ≡ begins_at before.bytes }
    requires room { event_limit ≤ room.old.room }
    requires some { HasGathered (T.has_taken summary.old) before }
    ensures piece { (events : List Event) → T.has_taken summary.old events
        → length (all_encoded events) ≤ before.bytes → ReadsPiece (T.has_taken summary.new) events
        before (extent_behind before reader.new.progress) (IfSome (S.told reader.old.source).left)
        result }
    ensures limit { reader.new.progress.at ≤ 2 ^ 62 }
    ensures room { room.new.room ≡ room.old.room }
    ensures faults { SourceByEnd result (S.told reader.old.source).faults (S.told reader.new.source).faults }
    ensures origin { (S.told reader.new.source).origin ≡ (S.told reader.old.source).origin }
{
    'events: loop {
        match reader.give_next(room, summary) {
            Ok(given) => {
                if let Some(run) = other_run(before.run, reader.run()) {
                    return end_other(before, run);
                }
                if given.is_none() {
                    return ToolEnd::Done;
                }
            }
            Err(fault) => return end_fault(before, reader.run(), fault),
        }
    }
}

/// Reads a source in blocks, as `sum_piece`, and gives it back.
fn gather_source<S: Source, T: Summary>(
    alloc: Global,
    source: S,
    gathered: &mut Gathered<T>,
) -> (ToolEnd, S)
    requires some { HasGathered (T.has_taken gathered.old.summary) gathered.old.extent }
    requires room { event_limit ≤ gathered.old.room.room }
    requires few { gathered.old.extent.files < 10000 }
    ensures piece { (events : List Event) → T.has_taken gathered.old.summary events
        → length (all_encoded events) ≤ gathered.old.extent.bytes
        → ReadsPiece (T.has_taken gathered.new.summary) events gathered.old.extent
        gathered.new.extent (IfSome (S.told source).left) result.0 }
    ensures room { gathered.new.room.room ≡ gathered.old.room.room }
    ensures faults { SourceByEnd result.0 (S.told source).faults (S.told result.1).faults }
    ensures origin { (S.told result.1).origin ≡ (S.told source).origin }
{
    let Ok(block) = new_block(alloc) else {
        return (ToolEnd::NoMemory, source);
    };
    let before = gathered.extent;
    let blocks = BlockSource::new(source, block);
    let mut reader = MidReader::behind(blocks, before.bytes);
    let end = sum_piece(
        &mut reader,
        &mut gathered.room,
        &mut gathered.summary,
        before,
    );
    gathered.extent = Extent {
        files: before.files + 1,
        run: reader.run(),
        bytes: reader.place(),
    };
    let blocks = reader.into_source();
    (end, blocks.into_source())
}

/// Reads the file of this name behind those before, and closes it. Hands the files back.
fn gather_name<F: Files, T: Summary>(
    alloc: Global,
    files: F,
    name: &FileName,
    gathered: &mut Gathered<T>,
) -> (ToolEnd, F)
    requires some { HasGathered (T.has_taken gathered.old.summary) gathered.old.extent }
    requires room { event_limit ≤ gathered.old.room.room }
    requires few { gathered.old.extent.files < 10000 }
    ensures reads { (events : List Event) → T.has_taken gathered.old.summary events
        → length (all_encoded events) ≤ gathered.old.extent.bytes
        → ReadsName (T.has_taken gathered.new.summary) events gathered.old.extent
        gathered.new.extent (F.told files).seen name.now result.0 }
    ensures room { gathered.new.room.room ≡ gathered.old.room.room }
    ensures faults { FilesByEnd result.0 (F.told files).faults (F.told result.1).faults }
    ensures clashes { ClashCounts result.0 (F.told files).clashes (F.told result.1).clashes }
    ensures same { Same (F.told files).seen (F.told result.1).seen }
{
    match open(files, name) {
        Ok(source) => {
            let (end, source) = gather_source(alloc, source, gathered);
            close_file(end, source)
        }
        Err((refused, files)) => (end_refused(refused), files),
    }
}

/// How far the reading of the files of some names went.
pub struct Gathering<F> {
    /// The end that it leads to.
    pub end: ToolEnd,
    /// The place of the name where it stopped.
    pub at: usize,
    /// The files.
    pub files: F,
}

/// Reads the files of these names in order.
pub fn gather_all<F: Files, T: Summary>(
    alloc: Global,
    mut files: F,
    names: &[FileName],
    gathered: &mut Gathered<T>,
) -> Gathering<F>
    requires few { length names.now ≤ 10000 }
    requires none { T.has_taken gathered.old.summary [] }
    requires new { gathered.old.extent ≡ no_extent }
    requires room { event_limit ≤ gathered.old.room.room }
    ensures gathers { GathersTo (T.has_taken gathered.new.summary) (F.told files).seen names.now
        gathered.new.extent result.at result.end }
    ensures inside { 0 < length names.now → result.at < length names.now }
    ensures faults { FilesByEnd result.end (F.told files).faults (F.told result.files).faults }
    ensures clashes { length names.now ≡ 1 → ClashCounts result.end (F.told files).clashes
        (F.told result.files).clashes }
    ensures same { Same (F.told files).seen (F.told result.files).seen }
{
    for at in 0..names.len() {
        let (end, behind) = gather_name(alloc, files, &names[at], gathered);
        files = behind;
        match end {
            ToolEnd::Done => {}
            end => return Gathering { end, at, files },
        }
    }
    Gathering {
        end: ToolEnd::Done,
        at: 0,
        files,
    }
}
