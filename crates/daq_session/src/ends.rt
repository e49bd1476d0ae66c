// Why a script ended.
ghost use Rattle.std.specs.Prelude.{◌≡◌, ℕ, true, None};
ghost use Rattle.std.specs.List.{list_any};
ghost use Rattle.session_commands.specs.Endings.{asks_files, is_fault};
ghost use Rattle.daq_session.specs.Endings.{script_end};
ghost use Rattle.daq_session.specs.LinesEnded.{HasCause, HasEnd, NamesFaulted};

use crate::played::LinesEnd;
use console::{Ending, Halt, Refusals};
use daq_io::Files;
use daq_types::FileName;
use odb_commands::FileReply;

/// Why a script ended.
#[derive(Clone, Copy, Debug, PartialEq, Eq)]
pub enum ScriptEnd {
    /// Nothing else holds.
    Done,
    /// At least one line of the script was refused: how many, and the number of the first.
    CommandRefused { count: u64, first: u64 },
    /// The script has more than 16,777,216 bytes.
    TooLong,
    /// A call on the source failed.
    SourceFault,
    /// A call on the sink failed.
    SinkFault,
    /// A call on files failed; the name is that of the file of the first fault, of the run files where one of theirs failed, else of
    /// the files of the database.
    FileFault { name: FileName },
    /// There was no memory.
    NoMemory,
}

/// Whether this entry tells of a fault.
fn is_fault(entry: &(u64, FileReply)) -> bool
    ensures { result ≡ is_fault entry.now }
{
    match entry.1 {
        FileReply::Fault => true,
        FileReply::Done | FileReply::Clash | FileReply::TooLong => false,
    }
}

/// Whether a line that called the files of the database came upon a fault.
fn any_fault(replies: &[(u64, FileReply)]) -> bool
    ensures { result ≡ list_any is_fault replies.now }
{
    replies.iter().any(|entry| is_fault(entry))
}

/// The name of the file of the first fault: of the run files where a call on them failed, else of the files of the database where
/// one of theirs failed, by what came of the lines that called them.
fn faulted_name<F: Files, E: Files>(
    failed: bool,
    run_files: &F,
    replies: &[(u64, FileReply)],
    odb_files: &E,
) -> Option<FileName>
    ensures { NamesFaulted failed replies.now (F.told run_files.now) (E.told odb_files.now) result }
{
    if failed {
        return run_files.first_fault();
    }
    if any_fault(replies) {
        return odb_files.first_fault();
    }
    None
}

/// The cause where nothing failed but the script may be too long, or had lines that were refused.
fn end_by_lines(ending: Ending, refusals: &Refusals) -> ScriptEnd
    requires { asks_files ending ≡ true }
    ensures { result ≡ script_end ending None refusals.now }
{
    if let Ending::TooLong = ending {
        return ScriptEnd::TooLong;
    }
    if refusals.count == 0 {
        ScriptEnd::Done
    } else {
        ScriptEnd::CommandRefused {
            count: refusals.count,
            first: refusals.first,
        }
    }
}

/// Why a script ended that ended so, with these lines refused.
fn end_by<F: Files, E: Files>(
    ending: Ending,
    refusals: &Refusals,
    failed: bool,
    run_files: &F,
    replies: &[(u64, FileReply)],
    odb_files: &E,
) -> ScriptEnd
    ensures { HasCause failed replies.now (F.told run_files.now) (E.told odb_files.now) ending refusals.now result }
{
    match ending {
        Ending::Halted {
            halt: Halt::NoMemory,
        } => ScriptEnd::NoMemory,
        Ending::Halted {
            halt: Halt::SinkFault,
        } => ScriptEnd::SinkFault,
        Ending::SourceFault => ScriptEnd::SourceFault,
        Ending::End | Ending::TooLong => {
            match faulted_name(failed, run_files, replies, odb_files) {
                Some(name) => ScriptEnd::FileFault { name },
                None => end_by_lines(ending, refusals),
            }
        }
    }
}

/// Why a script ended whose lines came to this.
pub fn end_of<S, O, E: Files, C, F: Files, K>(lines: &LinesEnd<S, O, E, C, F, K>) -> ScriptEnd
    ensures { HasEnd F.told E.told lines.now result }
{
    end_by(
        lines.ending.with_closing(lines.closing),
        &lines.script.line_loop.refusals,
        lines.failed,
        &lines.run_files,
        lines.replies.as_slice(),
        &lines.odb_files,
    )
}
