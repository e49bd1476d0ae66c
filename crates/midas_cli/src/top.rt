ghost use Rattle.std.specs.Prelude.{◌≡◌, ◌≢◌, ◌↔◌, ◌⊎◌, ℕ, List, [], None, IfSome};
ghost use Rattle.std.specs.Io.KnownBytes.{Appends};
ghost use Rattle.daq_io.specs.Counts.{Rose};
ghost use Rattle.daq_io.specs.Seen.{Same};
ghost use Rattle.daq_io.specs.Streams.{AppendsPart};
ghost use Rattle.command_words.specs.CommandLine.{HasForm, IsGenerate, IsOnFiles, IsRunWords};
ghost use Rattle.command_words.specs.declared.forms.Tool.{Tool};
ghost use Rattle.daq_session.specs.DeclaredLines.{ForSession};
ghost use Rattle.daq_session.specs.Environments.{environment, outside_told};
ghost use Rattle.daq_session.specs.Promises.{AnswerOnce, DeliverOwed, EndAll, EndsWell, FitCalls, FrontEndsSend, HasOneDatabase, HaveOneHistory, HaveReports, HaveRunFiles, NothingFailed, OthersStay, WroteReplies};
ghost use Rattle.daq_session.specs.Sessions.{RunsScript};
ghost use Rattle.daq_session.specs.declared.ends.ScriptEnd.{ScriptEnd};
ghost use Rattle.midas_cli.specs.Generating.{Generates};
ghost use Rattle.midas_cli.specs.Outcomes.{script_cause, status_of};
ghost use Rattle.midas_cli.specs.Tools.{ToolRan};
ghost use Rattle.midas_cli.specs.Usages.{usage_line};
ghost use Rattle.midas_tools.specs.Findings.{call_counts};

use crate::causes::Cause;
use crate::generating::generate;
use crate::outcome::{Outcome, status};
use crate::tools::run_tool;
use crate::usage::refuse_words;
use command_words::{Form, form_of};
use daq_io::{Clock, Files, Gate, Outside, Pick, Sink, Source};
use daq_session::run_script;
use daq_types::{NoMemory, Words};
use std::alloc::Global;
use std::sync::Wait;
use std::thread::Threads;

/// The program, over all that it touches outside itself, which it hands back.
pub fn midas<
    R: Threads + Wait + Sync,
    S: Source + Drop,
    O: Sink + Drop,
    F: Files + Drop + Send,
    E: Files + Drop,
    C: Clock + Drop,
    K: Pick + Drop,
    G: Gate + Sync,
>(
    rt: &R,
    alloc: Global,
    words: &Words,
    outside: Outside<S, O, F, E, C, K>,
    gate: &G,
) -> (Outcome, Outside<S, O, F, E, C, K>)
    ensures status { result.0.status ≡ status_of result.0.cause }
    // The words are refused exactly where they have no form. Then only the usage line is written.
    ensures usage { (result.0.cause ≡ Cause.Usage) ↔ ¬ HasForm words.now }
    ensures usage_line { ¬ HasForm words.now → ¬ Rose (O.told outside.out).faults
        (O.told result.1.out).faults → Appends (O.told outside.out).written (O.told result.1.out).written
        usage_line }
    ensures usage_part { ¬ HasForm words.now → AppendsPart (O.told outside.out).written
        (O.told result.1.out).written usage_line }
    ensures usage_files { ¬ HasForm words.now → result.1.run_files ≡ outside.run_files }
    // The words of a tool: what it found under the names behind its own and wrote, and why it ended; or nothing was done where
    // the words or the names found no memory.
    // Every name and byte of the run files stays.
    ensures tool { (tool : Tool) → (names : List (List ℕ)) → IsOnFiles tool names words.now
        → ToolRan tool (F.told outside.run_files).seen names
        (O.told outside.out).written (O.told result.1.out).written
        (call_counts O.told F.told outside.out result.1.out outside.run_files result.1.run_files)
        (F.told result.1.run_files).first result.0.cause
        ⊎ ((result.0.cause ≡ Cause.NoMemory) × (result.1 ≡ outside)) }
    // The words `gen N`: the script of N is written.
    ensures generated { (number : ℕ) → IsGenerate number words.now → Generates number
        (O.told outside.out).written (O.told result.1.out).written (O.told outside.out).faults
        (O.told result.1.out).faults result.0.cause }
    ensures generated_files { (number : ℕ) → IsGenerate number words.now
        → result.1.run_files ≡ outside.run_files }
    // Words that run no session: no script is read, and the outside but for the output stays.
    ensures files { ¬ IsRunWords words.now → Same (F.told outside.run_files).seen
        (F.told result.1.run_files).seen }
    ensures database_files { ¬ IsRunWords words.now → result.1.odb_files ≡ outside.odb_files }
    ensures source { ¬ IsRunWords words.now → result.1.src ≡ outside.src }
    ensures clock { ¬ IsRunWords words.now → result.1.clock ≡ outside.clock }
    ensures picks { ¬ IsRunWords words.now → result.1.pick ≡ outside.pick }
    ensures session { ¬ IsRunWords words.now → result.0.session ≡ None }
    ensures file_replies { ¬ IsRunWords words.now → result.0.file_replies.replies ≡ [] }
    // Of the session of the outcome, if a start opened one: each promise by itself, for what its script declared. Of some of
    // them `ran` says more: of one_history who called; of front_end_sends what each set in the database; of run_files how a
    // channel's limit cuts them, and that its client got these events alone; of records and database which line made a call; of
    // one_answer that no fault is counted without one.
    ensures one_history { IfSome result.0.session (λ session. HaveOneHistory session) }
    ensures delivery { IfSome result.0.session (λ session. DeliverOwed session) }
    ensures front_end_sends { ForSession result.0.session (S.told outside.src)
        (S.told result.1.src) (λ declared session. FrontEndsSend declared session) }
    ensures run_files { ForSession result.0.session (S.told outside.src) (S.told result.1.src)
        (λ declared session. HaveRunFiles (F.told result.1.run_files).seen declared session) }
    ensures reports { ForSession result.0.session (S.told outside.src) (S.told result.1.src)
        (λ declared session. HaveReports declared session) }
    ensures records { ForSession result.0.session (S.told outside.src) (S.told result.1.src)
        (λ declared session. FitCalls declared session) }
    ensures database { ForSession result.0.session (S.told outside.src) (S.told result.1.src)
        (λ declared session. HasOneDatabase declared session) }
    ensures other_files { ForSession result.0.session (S.told outside.src) (S.told result.1.src)
        (λ declared session. OthersStay (F.told outside.run_files) (F.told result.1.run_files)
        declared session) }
    ensures one_answer { IfSome result.0.session (λ session. AnswerOnce
        (F.told outside.run_files) (F.told result.1.run_files) session) }
    // And where memory was not wanting and no fault was counted, each channel ended. When a start is completed, `ran` says.
    ensures completeness { result.0.cause ≢ Cause.NoMemory → IfSome result.0.session
        (λ session. EndAll (F.told outside.run_files) (F.told result.1.run_files) session) }
    // The words of a session: what was written, and that all ends well where nothing failed. Which reply a line has, `ran` says.
    ensures console { IsRunWords words.now → ((end : ScriptEnd) × (result.0.cause ≡ script_cause end)
        × WroteReplies (environment (outside_told S.told O.told F.told E.told C.told) outside)
        (environment (outside_told S.told O.told F.told E.told C.told) result.1) end)
        ⊎ ((result.0.cause ≡ Cause.NoMemory) × (result.1 ≡ outside)) }
    ensures ends_well { IsRunWords words.now → result.0.cause ≢ Cause.NoMemory → NothingFailed
        (environment (outside_told S.told O.told F.told E.told C.told) outside)
        (environment (outside_told S.told O.told F.told E.told C.told) result.1)
        → (end : ScriptEnd) × (result.0.cause ≡ script_cause end) × EndsWell end }
    // The words of a session: how the script ended, what it did, and what the record of its session tells of the histories, of
    // the runs and of their files; or nothing was done where the words found no memory.
    ensures ran { IsRunWords words.now → ((end : ScriptEnd) × (result.0.cause ≡ script_cause end)
        × RunsScript (outside_told S.told O.told F.told E.told C.told) outside result.1
        end result.0.file_replies.replies result.0.session)
        ⊎ ((result.0.cause ≡ Cause.NoMemory) × (result.0.session ≡ None)
        × (result.0.file_replies.replies ≡ []) × (result.1 ≡ outside)) }
{
    match form_of(alloc, words) {
        Err(NoMemory) => (Outcome::without_script(alloc, Cause::NoMemory), outside),
        Ok(None) => refuse_words(alloc, outside),
        Ok(Some(Form::OnFiles { tool })) => run_tool(alloc, tool, words, outside),
        Ok(Some(Form::Generate { number })) => generate(alloc, number, outside),
        Ok(Some(Form::Run { cooperative })) => {
            let (end, session, file_replies, outside) = run_script(
                rt,
                alloc,
                cooperative,
                outside,
                gate,
            );
            let cause = Cause::from(end);
            let outcome = Outcome {
                status: status(&cause),
                cause,
                session,
                file_replies,
            };
            (outcome, outside)
        }
    }
}
