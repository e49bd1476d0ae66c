ghost use Rattle.std.specs.Prelude.{◌≡◌, ℕ, Bool, Option, false, IfOk, OnErr};
ghost use Rattle.odb_script.specs.declared.commands.Command.{Command};
ghost use Rattle.odb_script.specs.Forms.{Read};
ghost use Rattle.console.specs.declared.replies.Reply.{Reply};

use crate::Reply;
use daq_types::NoMemory;
use odb_script::{Command, LineRefusal};
use std::alloc::Global;
use std::sync::Wait;

/// What answers the lines of a script.
pub trait Answerer {
    // Where it stands between two lines.
    ghost Stage: { Type 0 };

    ghost stage: { Self → Stage };

    // The lines that it leaves to another.
    ghost leaves: { Read Command → Bool };

    // What the line of this number does, with its reply; and what is done of it where there was no memory.
    ghost does: { ℕ → Read Command → Stage → Reply → Stage → Type 0 };

    ghost breaks: { ℕ → Read Command → Stage → Stage → Type 0 };

    // What was noted of the line of this number is taken out again.
    ghost withdraws: { ℕ → Stage → Stage → Type 0 };

    // What is done behind all lines, with the reply of that, if anything is; and what of that where there was no memory.
    ghost closes: { Stage → Option Reply → Stage → Type 0 };

    ghost gives_up: { Stage → Stage → Type 0 };

    // What stays, whatever lines are answered.
    ghost stays: { Self → Self → Type 0 };

    /// Whether this line is left to another.
    fn is_left(&self, line: &Result<Command<'_>, LineRefusal>) -> bool
        ensures { result ≡ leaves line.now };

    /// Answers the line of this number.
    fn answer<R: Wait>(
        &mut self,
        rt: &R,
        alloc: Global,
        number: u64,
        line: Result<Command<'_>, LineRefusal>,
    ) -> Result<Reply, NoMemory>
        requires own { leaves line ≡ false }
        ensures did { IfOk result (λ reply. does number line.entry (stage self.old) reply
            (stage self.new)) }
        ensures broke { OnErr result (breaks number line.entry (stage self.old)
            (stage self.new)) }
        ensures stays { stays self.old self.new };

    /// Takes out again what was noted of the line of this number, the last that was answered, where there was no memory for its
    /// text. Takes no memory.
    fn withdraw(&mut self, number: u64)
        ensures withdrew { withdraws number (stage self.old) (stage self.new) }
        ensures stays { stays self.old self.new };

    /// Ends what the lines left on, behind all of them.
    fn close<R: Wait>(&mut self, rt: &R, alloc: Global) -> Result<Option<Reply>, NoMemory>
        ensures closed { IfOk result (λ reply. closes (stage self.old) reply (stage self.new)) }
        ensures gave_up { OnErr result (gives_up (stage self.old) (stage self.new)) }
        ensures stays { stays self.old self.new };

    ghost stays_so: { (a : Self) → stays a a };

    ghost stays_on: { (a b c : Self) → stays a b → stays b c → stays a c };
}
