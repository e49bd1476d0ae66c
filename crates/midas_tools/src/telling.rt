ghost use Rattle.std.specs.Prelude.{◌≡◌, ◌≤◌, ◌<◌, length};
ghost use Rattle.daq_io.specs.Seen.{Same};
ghost use Rattle.midas_tools.specs.Findings.{ClashCounts, FilesByEnd, call_counts};
ghost use Rattle.midas_tools.specs.Gathering.{LooksFor, TellsEnd};
ghost use Rattle.midas_tools.specs.Together.{EndsBy, WritesTogether};

use crate::closing::{close_file, print};
use crate::ends::ToolEnd;
use crate::gathering::{Gathered, Gathering, gather_all};
use crate::opening::open;
use crate::summary::Summary;
use crate::wrong::{end_refused, say_stop};
use daq_io::{Files, Sink};
use daq_text::TextBuffer;
use daq_types::FileName;
use std::alloc::Global;

/// Writes what is told of the events together.
fn tell_run<O: Sink, T: Summary>(alloc: Global, gathered: &Gathered<T>, out: &mut O) -> ToolEnd
    ensures { TellsEnd T.text (T.has_taken gathered.now.summary) gathered.now.extent
        (O.told out.old).written (O.told out.new).written (O.told out.old).faults (O.told out.new).faults result }
{
    let mut page = TextBuffer::new(alloc);
    let run = gathered.extent.run.unwrap_or(0);
    if gathered
        .summary
        .tell(run, gathered.extent.bytes, &mut page)
        .is_err()
    {
        return ToolEnd::NoMemory;
    }
    print(ToolEnd::Done, page.as_slice(), out)
}

/// Looks for a file that there is no memory to read, and answers the end: what is wrong with its name is told all the same.
fn look_for<F: Files>(files: F, name: &FileName) -> (ToolEnd, F)
    ensures looks { LooksFor (F.told files).seen name.now result.0 }
    ensures faults { FilesByEnd result.0 (F.told files).faults (F.told result.1).faults }
    ensures clashes { ClashCounts result.0 (F.told files).clashes (F.told result.1).clashes }
    ensures same { Same (F.told files).seen (F.told result.1).seen }
{
    match open(files, name) {
        Ok(source) => close_file(ToolEnd::NoMemory, source),
        Err((refused, files)) => (end_refused(refused), files),
    }
}

/// Reads the files of these names in order as those of one run, and prints what is told of their events together, or what is
/// wrong with the first of them that is none of that run. Hands the files back, in which every name and every byte is as it
/// was.
pub fn tell_files<F: Files, O: Sink, T: Summary>(
    alloc: Global,
    files: F,
    names: &[FileName],
    out: &mut O,
) -> (ToolEnd, F)
    requires some { 0 < length names.now }
    requires few { length names.now ≤ 10000 }
    ensures writes { WritesTogether T.text (F.told files).seen names.now (O.told out.old).written
        (O.told out.new).written result.0 }
    ensures ends { EndsBy result.0 (F.told files).seen names.now
        (call_counts O.told F.told out.old out.new files result.1) }
    ensures same { Same (F.told files).seen (F.told result.1).seen }
{
    let several = names.len() > 1;
    let Ok(mut gathered) = Gathered::<T>::new(alloc) else {
        let (end, files) = look_for(files, &names[0]);
        return (say_stop(end, &names[0], several, out), files);
    };
    let Gathering { end, at, files } = gather_all(alloc, files, names, &mut gathered);
    match end {
        ToolEnd::Done => (tell_run(alloc, &gathered, out), files),
        end => (say_stop(end, &names[at], several, out), files),
    }
}
