ghost use Rattle.std.specs.Prelude.{◌≡◌, ◌++◌, ℕ, List, [], IfOk, OnOk};
ghost use Rattle.daq_types.specs.declared.events.Event.{Event};

use daq_text::TextBuffer;
use daq_types::NoMemory;
use mid_format::EventTaker;
use std::alloc::Global;

/// What a tool tells of the events of a run file together, made up from the events that it took.
pub trait Summary: EventTaker + Drop {
    /// What is printed of a run file, by the number of its run, its events, and how many bytes it has.
    ghost text: { ℕ → List Event → ℕ → List ℕ };

    /// The summary of no events.
    fn empty(alloc: Global) -> Result<Self, NoMemory>
        ensures { IfOk result (λ summary. Self.has_taken summary []) };

    /// Adds to the page what is printed of a run file with these events.
    fn tell(&self, run: u32, bytes: u64, page: &mut TextBuffer) -> Result<(), NoMemory>
        ensures { (events : List Event) → Self.has_taken self.now events
            → OnOk result (page.new ≡ page.old ++ text run events bytes) };
}
