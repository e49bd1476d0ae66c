//! Laws of what the tools print: each function does nothing, and its contract is the law.

ghost use Rattle.std.specs.Prelude.{◌≡◌, ◌<◌, ◌^◌, ℕ, List, length, All};
ghost use Rattle.daq_io.specs.Seen.{Seen};
ghost use Rattle.daq_types.specs.declared.events.Event.{Event};
ghost use Rattle.midas_tools.specs.Analyses.{analysis_text};
ghost use Rattle.midas_tools.specs.Pieces.{AreRunFilesWith, total_bytes};
ghost use Rattle.midas_tools.specs.Together.{HaveBytes, TellsRun};

use mid_format::laws as run_files;

/// What `analyze` prints of the run files of some events, which it reads one behind the other, is the number of their run and
/// the report over just these events, whatever masks, serial numbers and times they have: a report counts nothing of these.
pub fn analysis_printed()
    ensures { (seen : Seen) → (names files : List (List ℕ)) → (run : ℕ) → (events : List Event)
        → (text : List ℕ) → HaveBytes seen names files → 0 < length files
        → AreRunFilesWith run files events → run < 2 ^ 32 → All (λ e. e.id < 2 ^ 16) events
        → TellsRun analysis_text seen names text → text ≡ analysis_text run events (total_bytes files) }
{
    run_files::one_reading();
}
