ghost use Rattle.std.specs.Prelude.{◌≡◌, ◌≤◌, ◌<◌, length};
ghost use Rattle.daq_io.specs.Seen.{Same};
ghost use Rattle.midas_tools.specs.Checks.{check_text};
ghost use Rattle.midas_tools.specs.Findings.{call_counts};
ghost use Rattle.midas_tools.specs.Together.{EndsBy, WritesTogether};

use crate::ends::ToolEnd;
use crate::lines::add_ok;
use crate::summary::Summary;
use crate::telling::tell_files;
use daq_io::{Files, Sink};
use daq_text::TextBuffer;
use daq_types::{FileName, NoMemory};
use event::Header;
use mid_format::EventTaker;
use std::alloc::Global;

/// How many events there are.
#[derive(Drop)]
struct EventCount {
    events: u64,
}

impl EventTaker for EventCount {
    ghost has_taken = { λ count events. count.events ≡ length events };

    fn take(&mut self, header: &Header, body: &[u8]) {
        self.events += 1;
    }
}

impl Summary for EventCount {
    ghost text = { check_text };

    fn empty(alloc: Global) -> Result<EventCount, NoMemory> {
        Ok(EventCount { events: 0 })
    }

    fn tell(&self, run: u32, bytes: u64, page: &mut TextBuffer) -> Result<(), NoMemory> {
        add_ok(page, run, self.events, bytes)
    }
}

/// Reads the files of these names in order and prints whether they are those of one run: its number, their events and their
/// bytes together, or what is wrong with the first that is not, and, of several, its name. Hands the files back, in which every
/// name and every byte is as it was.
pub fn check_file<F: Files, O: Sink>(
    alloc: Global,
    files: F,
    names: &[FileName],
    out: &mut O,
) -> (ToolEnd, F)
    requires some { 0 < length names.now }
    requires few { length names.now ≤ 10000 }
    // What was found, and what was written of it.
    ensures writes { WritesTogether check_text (F.told files).seen names.now (O.told out.old).written
        (O.told out.new).written result.0 }
    // A fault of the sink or of the files is the end exactly where its count rose and no earlier cause holds. Unless a call
    // failed or there was no memory, the files of one run lead to the end `Done`, and others to what is first wrong.
    ensures ends { EndsBy result.0 (F.told files).seen names.now
        (call_counts O.told F.told out.old out.new files result.1) }
    ensures same { Same (F.told files).seen (F.told result.1).seen }
{
    tell_files::<_, _, EventCount>(alloc, files, names, out)
}
