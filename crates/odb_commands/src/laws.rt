//! What the database's commands leave alone.
ghost use Rattle.odb_tree.specs.Rows.{Rows};
ghost use Rattle.odb_script.specs.declared.commands.RowCommand.{RowCommand};
ghost use Rattle.std.specs.Prelude.{List, ℕ};
ghost use Rattle.daq_types.specs.Callers.{entries_by, main_caller};
ghost use Rattle.odb_tree.specs.Histories.{IsLegalRows};
ghost use Rattle.odb_watch.specs.DatabasePorts.{calls_by};
ghost use Rattle.odb_tree.specs.declared.entry.DatabaseEntry.{DatabaseEntry};
ghost use Rattle.odb_commands.specs.declared.replies.CommandReply.{CommandReply};
ghost use Rattle.odb_commands.specs.Answers.{answer_of};
ghost use Rattle.odb_commands.specs.CommandCalls.{Performs, IsAnswered, OthersLeave};
ghost use Rattle.odb_commands.specs.CommandCallLaws.{Spares};

/// With the replies that the rows give, no command removes anything of `/Runinfo`.
pub fn runinfo_stays()
    ensures { (s : Rows) (command : RowCommand) → Spares (answer_of s command).calls }
{}

/// With the replies that the rows give, a command makes the calls of its answer and is answered so.
pub fn answered_by_rows()
    ensures { (s : Rows) (command : RowCommand) → Performs command (answer_of s command).calls
        (answer_of s command).reply }
{}

/// No command removes anything of `/Runinfo`, whatever its calls are answered.
pub fn calls_spare_runinfo()
    ensures { (command : RowCommand) (calls : List DatabaseEntry) (reply : CommandReply)
        → Performs command calls reply → Spares calls }
{}

/// Where a command's calls are legal from some rows, they and its reply are those that these rows give.
pub fn answers_are_legal()
    ensures { (s : Rows) (command : RowCommand) (calls : List DatabaseEntry) (reply : CommandReply)
        → Performs command calls reply → IsLegalRows s (calls_by main_caller calls)
        → IsAnswered (answer_of s command) calls reply }
{}

/// So too where others call between them, in a legal history, as long as these calls leave the rows as they are.
pub fn answers_among_others()
    ensures { (s : Rows) (history : List (ℕ × DatabaseEntry)) (command : RowCommand)
        (reply : CommandReply) → Performs command (entries_by main_caller history) reply
        → IsLegalRows s history → OthersLeave s history
        → IsAnswered (answer_of s command) (entries_by main_caller history) reply }
{}

/// Some calls and a reply do what a command of the database asks for.
pub fn commands_are_answered()
    ensures { (command : RowCommand) → (calls : List DatabaseEntry) × (reply : CommandReply)
        × Performs command calls reply }
{}
