//! A line is a command by its words, and is refused by one table of the forms.
ghost use Rattle.std.specs.Prelude.{◌≡◌, ℕ, ◌<◌, ◌≤◌, nat_eq, ◌↔◌, false, true, List, length, Ok, Err, codes};
ghost use Rattle.std.specs.List.{starts_with};
ghost use Rattle.odb_script.specs.LineWords.{line_words};
ghost use Rattle.odb_script.specs.Forms.{command_of};
ghost use Rattle.odb_script.specs.Spelled.{Spelled};
ghost use Rattle.odb_script.specs.FormTable.{forms, first_misfit, place_of};
ghost use Rattle.odb_script.specs.declared.commands.Command.{Command};
ghost use Rattle.odb_script.specs.declared.commands.Command.TheVariants.{Nothing};
ghost use Rattle.odb_script.specs.declared.refusals.LineRefusal.TheVariants.{BadCommand};

/// A line of at most 4,096 bytes that is no comment is refused exactly at the first word with which no form of the
/// table goes on: at the line's end where every form wants one more word, and where a quote is misplaced or not closed.
/// It is a command where the words are those of a form. A longer line is refused at 4096, and a comment is passed over.
pub fn first_misfit_refused()
    ensures refused { (line : List ℕ) → length line ≤ 4096 → starts_with nat_eq line (codes "#")
        ≡ false → place_of (command_of line) ≡ first_misfit forms (line_words line) }
    ensures long { (line : List ℕ) → 4096 < length line → command_of line ≡ Err (BadCommand 4096) }
    ensures comment { (line : List ℕ) → length line ≤ 4096 → starts_with nat_eq line (codes "#")
        ≡ true → command_of line ≡ Ok Nothing }
{}

/// A line of at most 4,096 bytes that is no comment is a command exactly where its words are those of the command, and
/// nothing else stands in it.
pub fn command_spelled()
    ensures { (line : List ℕ) (command : Command) → length line ≤ 4096
        → starts_with nat_eq line (codes "#") ≡ false → (command_of line ≡ Ok command)
        ↔ Spelled (line_words line) command }
{}
