//! What the definitions of a played script say together. Each function does nothing, and its contract is the law.
ghost use Rattle.std.specs.Prelude.{◌≡◌, ◌≢◌, ℕ, ◌+◌, Bool, List, Option, None};
ghost use Rattle.std.specs.Io.KnownBytes.{Appends};
ghost use Rattle.daq_io.specs.Counts.{Rose};
ghost use Rattle.daq_io.specs.Streams.{AppendsPart};
ghost use Rattle.daq_io.specs.Told.{SourceTold};
ghost use Rattle.odb_script.specs.Forms.{command_of};
ghost use Rattle.odb_script.specs.Lines.{Reading};
ghost use Rattle.console.specs.declared.replies.Reply.{Reply};
ghost use Rattle.console.specs.declared.refusals.Refusals.{Refusals as Refused};
ghost use Rattle.console.specs.declared.endings.Ending.{Ending};
ghost use Rattle.console.specs.declared.endings.Ending.TheVariants.{Halted};
ghost use Rattle.console.specs.declared.halts.Halt.{Halt};
ghost use Rattle.console.specs.declared.halts.Halt.TheVariants.{NoMemory as no_memory};
ghost use Rattle.console.specs.Endings.{SinkByEnding};
ghost use Rattle.console.specs.Playing.{HasLine, Played, Wrote};
ghost use Rattle.console.specs.Closing.{Finished, MayFail, SinkBehind, WroteBehind, ended_by, script_text};

use crate::answerer::Answerer;

/// Where the line that was read finds no memory, and so much was done of it, the lines ended there. And lines behind which nothing
/// is done that prints are a whole script.
pub fn lines_end<A: Answerer>()
    ensures broken { (first now new : A.Stage) (source left : SourceTold) (told_first told : Option (List ℕ))
        (reading : Reading) (last : Bool) (refusals : Refused) (number : ℕ)
        → (has : HasLine A.does A.breaks first source left told_first told reading last now
        refusals number) → A.breaks (number + 1) (command_of has.line) now new
        → Played A.does A.breaks A.withdraws first (Halted no_memory) source left told_first told new refusals }
    ensures quiet { (first now new : A.Stage) (ending : Ending)
        (source left : SourceTold) (told_first told : Option (List ℕ)) (refusals : Refused)
        → Played A.does A.breaks A.withdraws first ending source left told_first told now refusals
        → A.closes now None new
        → Finished A.does A.breaks A.withdraws A.closes A.gives_up first ending None source left told_first
        told new refusals }
{}

/// What was written is a first part of the text of a script's replies; and where the sink did not fail and memory was not wanting,
/// it is all of it.
pub fn texts_are_written<A: Answerer>()
    ensures part { (ending : Ending) (closing : Option Halt) (first told now : Option (List ℕ))
        (replies behind : List Reply) (stood noted : A.Stage)
        → Wrote A.withdraws ending first told replies stood noted
        → WroteBehind ending closing told now behind
        → AppendsPart first now (script_text replies behind) }
    ensures whole { (ending : Ending) (closing : Option Halt) (first told now : Option (List ℕ))
        (replies behind : List Reply) (old lines new : ℕ) (stood noted : A.Stage)
        → MayFail ending closing
        → ended_by ending closing ≢ Halted no_memory → ¬ Rose old new
        → SinkByEnding ending old lines → SinkBehind closing lines new
        → Wrote A.withdraws ending first told replies stood noted
        → WroteBehind ending closing told now behind
        → Appends first now (script_text replies behind) }
{}
