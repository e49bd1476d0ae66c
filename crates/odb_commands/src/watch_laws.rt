//! What a command for watches or dumps tells by its answer.
ghost use Rattle.std.specs.Prelude.{◌≡◌, ◌≢◌, ◌<◌, ℕ, List, [], ◌∷◌, length, IsTrue, IsSome, Some, None, Ok};
ghost use Rattle.std.specs.List.{AllByRecursion};
ghost use Rattle.daq_types.specs.Names.{IsFileName};
ghost use Rattle.daq_io.specs.Seen.{Seen, Stored, Same, Stores};
ghost use Rattle.odb_watch.specs.declared.entry.WatchEntry.{WatchEntry};
ghost use Rattle.odb_watch.specs.declared.entry.WatchEntry.TheVariants.{Save as save_of};
ghost use Rattle.odb_watch.specs.Steps.{LeadsDatabase};
ghost use Rattle.odb_tree.specs.Noting.{Watched};
ghost use Rattle.odb_runinfo.specs.RunNumberKept.{HasRunNumber};
ghost use Rattle.odb_script.specs.declared.commands.WatchCommand.{WatchCommand};
ghost use Rattle.odb_script.specs.declared.commands.WatchCommand.TheVariants.{Load, Save};
ghost use Rattle.odb_commands.specs.declared.dump_replies.FileReply.TheVariants.{Done, Clash, TooLong};
ghost use Rattle.odb_commands.specs.WholeFiles.{file_limit};
ghost use Rattle.odb_commands.specs.declared.watch_replies.WatchAnswer.{WatchAnswer};
ghost use Rattle.odb_commands.specs.WatchPerforms.{PerformsWatch, LoadsTextOf};
ghost use Rattle.odb_commands.specs.WatchSpares.{SparesWatched, AllSpareWatched};

use odb_runinfo::laws::run_number_stays;
use odb_text::laws::texts_are_sound;

/// Some calls and an answer do what a command for watches or dumps asks for, whatever the files tell.
pub fn watch_commands_are_answered()
    ensures { (command : WatchCommand) (seen : Seen) → (calls : List WatchEntry)
        × (answer : WatchAnswer) × PerformsWatch command seen seen calls answer }
{}

/// What a `load` did, by what its calls on the files came to. Where they are done, the file was read to its end, and its text
/// is the one that the database loaded; else the database was not called. None were made exactly for a text that is no name
/// of a file. No file changed.
pub fn loads_by_file_reply()
    ensures done { (name : List ℕ) (old new : Seen) (calls : List WatchEntry) (answer : WatchAnswer)
        → PerformsWatch (Load name) old new calls answer → answer.file ≡ Some Done
        → LoadsTextOf old new name calls }
    ensures uncalled { (name : List ℕ) (old new : Seen) (calls : List WatchEntry)
        (answer : WatchAnswer) → PerformsWatch (Load name) old new calls answer
        → answer.file ≢ Some Done → calls ≡ [] }
    ensures none { (name : List ℕ) (old new : Seen) (calls : List WatchEntry)
        (answer : WatchAnswer) → PerformsWatch (Load name) old new calls answer
        → answer.file ≡ None → ¬ IsFileName name }
    ensures clash { (name : List ℕ) (old new : Seen) (calls : List WatchEntry)
        (answer : WatchAnswer) → PerformsWatch (Load name) old new calls answer
        → answer.file ≡ Some Clash → IsTrue old.names → old.at name ≡ None }
    ensures long { (name : List ℕ) (old new : Seen) (calls : List WatchEntry)
        (answer : WatchAnswer) → PerformsWatch (Load name) old new calls answer
        → answer.file ≡ Some TooLong → IsTrue old.names → (stored : Stored)
        × (old.at name ≡ Some stored) × (file_limit < length stored.bytes) }
{}

/// What a `save` did, by what its calls on the files came to. Where they are done, there is a new file of this name, closed,
/// with the text that the database saved; where the name was there, nothing changed.
pub fn saves_by_file_reply()
    ensures done { (name : List ℕ) (old new : Seen) (calls : List WatchEntry) (answer : WatchAnswer)
        → PerformsWatch (Save name) old new calls answer → answer.file ≡ Some Done
        → (text : List ℕ) × (calls ≡ save_of (Ok text) ∷ []) × Stores old new name text }
    ensures clash { (name : List ℕ) (old new : Seen) (calls : List WatchEntry)
        (answer : WatchAnswer) → PerformsWatch (Save name) old new calls answer
        → answer.file ≡ Some Clash → Same old new × (IsTrue old.names → IsSome (old.at name)) }
    ensures short { (name : List ℕ) (old new : Seen) (calls : List WatchEntry)
        (answer : WatchAnswer) → PerformsWatch (Save name) old new calls answer
        → answer.file ≢ Some TooLong }
{}

/// The run number is there, an INT32 with an item 0, after every legal history of a watched database in which no call removes
/// anything below `/Runinfo`, texts that are loaded not excepted.
pub fn run_number_stays_watched()
    ensures { (first : Watched) (h : List (ℕ × WatchEntry)) (last : Watched)
        → LeadsDatabase first h last → AllSpareWatched h
        → HasRunNumber first.rows.rows → HasRunNumber last.rows.rows }
{
    run_number_stays();
    texts_are_sound();
}

/// No command for watches or dumps removes anything below `/Runinfo`, whatever its calls are answered.
pub fn watch_commands_spare_runinfo()
    ensures { (command : WatchCommand) (old new : Seen) (calls : List WatchEntry) (answer : WatchAnswer)
        → PerformsWatch command old new calls answer → AllByRecursion SparesWatched calls }
{}
