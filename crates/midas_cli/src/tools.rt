ghost use Rattle.std.specs.Prelude.{◌≡◌, ◌≢◌, ◌≤◌, ◌<◌, ◌⊎◌, ℕ, List, [], None, length};
ghost use Rattle.command_words.specs.CommandLine.{IsOnFiles, IsToolCall, most_files};
ghost use Rattle.daq_io.specs.Seen.{Same};
ghost use Rattle.midas_cli.specs.Outcomes.{status_of};
ghost use Rattle.midas_cli.specs.Tools.{IsCauseOf, ToolRan, ToolWrites};
ghost use Rattle.midas_tools.specs.Findings.{call_counts};
ghost use Rattle.midas_tools.specs.Together.{EndsBy};

use crate::causes::Cause;
use crate::outcome::Outcome;
use command_words::{Tool, file_names, laws};
use daq_io::{Files, Outside, Sink};
use daq_types::{FileName, NoMemory, Words};
use midas_tools::{ToolEnd, analyze_file, check_file, dump_file};
use std::alloc::Global;

/// The cause of a tool's end.
fn cause_of<F: Files>(end: ToolEnd, files: &F) -> Cause
    requires { end ≡ ToolEnd.FileFault → (F.told files.now).faults ≢ 0 }
    ensures { IsCauseOf end (F.told files.now).first result }
{
    match end {
        ToolEnd::Done => Cause::Done,
        ToolEnd::Input(fault) => Cause::BadInput(fault),
        ToolEnd::FileFault => match files.first_fault() {
            Some(name) => Cause::FileFault { name },
            None => unreachable!(),
        },
        ToolEnd::SinkFault => Cause::SinkFault,
        ToolEnd::NoMemory => Cause::NoMemory,
    }
}

/// Calls a tool on the files of these names.
fn call_tool<F: Files, O: Sink>(
    alloc: Global,
    tool: Tool,
    files: F,
    names: &[FileName],
    out: &mut O,
) -> (ToolEnd, F)
    requires some { 0 < length names.now }
    requires few { length names.now ≤ most_files tool }
    ensures writes { ToolWrites tool (F.told files).seen names.now
        (call_counts O.told F.told out.old out.new files result.1)
        (O.told out.old).written (O.told out.new).written result.0 }
    ensures ends { EndsBy result.0 (F.told files).seen names.now
        (call_counts O.told F.told out.old out.new files result.1) }
    ensures same { Same (F.told files).seen (F.told result.1).seen }
{
    match tool {
        Tool::Check => check_file(alloc, files, names, out),
        Tool::Dump => dump_file(alloc, files, &names[0], out),
        Tool::Analyze => analyze_file(alloc, files, names, out),
    }
}

/// Runs a tool on the files of these names.
fn run_on<S, O: Sink, F: Files, E, C, K>(
    alloc: Global,
    tool: Tool,
    names: &[FileName],
    outside: Outside<S, O, F, E, C, K>,
) -> (Outcome, Outside<S, O, F, E, C, K>)
    requires some { 0 < length names.now }
    requires few { length names.now ≤ most_files tool }
    ensures status { result.0.status ≡ status_of result.0.cause }
    ensures ran { ToolRan tool (F.told outside.run_files).seen names.now
        (O.told outside.out).written (O.told result.1.out).written
        (call_counts O.told F.told outside.out result.1.out outside.run_files result.1.run_files)
        (F.told result.1.run_files).first result.0.cause }
    ensures same { Same (F.told outside.run_files).seen (F.told result.1.run_files).seen }
    ensures session { result.0.session ≡ None }
    ensures file_replies { result.0.file_replies.replies ≡ [] }
    ensures source { result.1.src ≡ outside.src }
    ensures clock { result.1.clock ≡ outside.clock }
    ensures database_files { result.1.odb_files ≡ outside.odb_files }
    ensures picks { result.1.pick ≡ outside.pick }
{
    let Outside {
        src,
        mut out,
        run_files,
        odb_files,
        clock,
        pick,
    } = outside;
    let (end, run_files) = call_tool(alloc, tool, run_files, names, &mut out);
    let outcome = Outcome::without_script(alloc, cause_of(end, &run_files));
    let outside = Outside {
        src,
        out,
        run_files,
        odb_files,
        clock,
        pick,
    };
    (outcome, outside)
}

/// Runs a tool on the files that the words behind its own name. Where there is no memory for their names nothing is done.
pub fn run_tool<S, O: Sink, F: Files, E, C, K>(
    alloc: Global,
    tool: Tool,
    words: &Words,
    outside: Outside<S, O, F, E, C, K>,
) -> (Outcome, Outside<S, O, F, E, C, K>)
    requires { IsToolCall tool words.now }
    ensures status { result.0.status ≡ status_of result.0.cause }
    ensures ran { (called : _) → (names : List (List ℕ)) → IsOnFiles called names words.now
        → ToolRan called (F.told outside.run_files).seen names
        (O.told outside.out).written (O.told result.1.out).written
        (call_counts O.told F.told outside.out result.1.out outside.run_files result.1.run_files)
        (F.told result.1.run_files).first result.0.cause
        ⊎ ((result.0.cause ≡ Cause.NoMemory) × (result.1 ≡ outside)) }
    ensures same { Same (F.told outside.run_files).seen (F.told result.1.run_files).seen }
    ensures session { result.0.session ≡ None }
    ensures file_replies { result.0.file_replies.replies ≡ [] }
    ensures source { result.1.src ≡ outside.src }
    ensures clock { result.1.clock ≡ outside.clock }
    ensures database_files { result.1.odb_files ≡ outside.odb_files }
    ensures picks { result.1.pick ≡ outside.pick }
{
    laws::one_form();
    match file_names(alloc, words) {
        Ok(names) => run_on(alloc, tool, names.as_slice(), outside),
        Err(NoMemory) => (Outcome::without_script(alloc, Cause::NoMemory), outside),
    }
}
