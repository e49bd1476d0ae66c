ghost use Rattle.std.specs.Prelude.{◌≡◌, ◌≤◌, IfErr, IfOk, string_bytes};
ghost use Rattle.std.specs.Process.{exit_status};
ghost use Rattle.std.specs.Vec.Iter.{into_iter_steps};
ghost use Rattle.daq_session.specs.Environments.{outside_told};
ghost use Rattle.midas_cli.specs.Programs.{AreWordsOf, IsUntouched, MidasRan, status_uncalled};

use crate::causes::Cause;
use crate::outcome::{Outcome, status};
use crate::top::midas;
use daq_io::{Clock, Files, Outside, Sink, Source};
use daq_std::{
    NoGate, RoundPick, StandardTaken, StdClock, StdFiles, StdSink, StdSource, given_words,
};
use daq_types::{NoMemory, Words};
use std::alloc::Global;
use std::env::Args;
use std::io::{self, Stdin, Stdout};
use std::process::ExitCode;
use std::snapshot::Snapshot;
use std::sync::Wait;
use std::thread::Threads;

/// How many run files are in use at a time, at most: each channel writes one, and one of them at a time makes its next file
/// before it closes the last one.
const RUN_FILES: u32 = 17;

/// How many files of the database are in use at a time, at most.
const DATABASE_FILES: u32 = 1;

/// The real objects: standard input and output, files of the folder in which the program runs, and the system's clock.
type RealOutside = Outside<
    StdSource<Stdin>,
    StdSink<Stdout>,
    StdFiles<HostRuntime>,
    StdFiles<HostRuntime>,
    StdClock<HostRuntime>,
    RoundPick,
>;

/// The real objects.
fn real_outside(rt: HostRuntime, taken: &StandardTaken) -> Result<RealOutside, NoMemory>
    ensures { IfOk result (IsUntouched (outside_told
        ⟦<StdSource<Stdin> as Source>⟧.told ⟦<StdSink<Stdout> as Sink>⟧.told
        ⟦<StdFiles<HostRuntime> as Files>⟧.told ⟦<StdFiles<HostRuntime> as Files>⟧.told
        ⟦<StdClock<HostRuntime> as Clock>⟧.told)) }
{
    Ok(Outside {
        src: StdSource::new(rt.alloc(), rt.stdin())?,
        out: StdSink::new(rt.stdout()),
        run_files: StdFiles::new(rt.alloc(), rt, taken, ".", RUN_FILES)?,
        odb_files: StdFiles::new(rt.alloc(), rt, taken, ".", DATABASE_FILES)?,
        clock: StdClock::new(rt),
        pick: RoundPick::new(),
    })
}

/// Why the program was not called. Nothing was done then.
#[derive(Clone, Copy, Debug, PartialEq, Eq)]
pub enum NotCalled {
    /// The system did not let the numbers of the standard streams be taken.
    StreamsNotTaken,
    /// There was no memory for the words or the objects.
    NoMemory,
}

impl From<NoMemory> for NotCalled {
    ghost use Rattle.midas_cli.specs.declared.real.NotCalled.TheVariants as uncalled;

    ghost from_gives = { λ _ why. why ≡ uncalled.NoMemory };

    fn from(_: NoMemory) -> NotCalled {
        NotCalled::NoMemory
    }
}

/// The program was called: its words, the objects before and behind the call, what it came to, and its status. All but the status
/// is there for clauses alone; the objects are let go.
#[derive(Drop)]
pub struct Called {
    pub words: Snapshot<Words>,
    pub before: Snapshot<RealOutside>,
    pub after: Snapshot<RealOutside>,
    pub outcome: Snapshot<Outcome>,
    pub status: u8,
}

/// Calls the program with the words that the system gave and the real objects, and answers what that came to: all that `midas`
/// says of it. Where a word is no UTF-8 the program is called with none, so that the line has no form; where the system gave none
/// for another reason, it is not called.
fn call_given<R: Threads + Wait + Sync>(
    threads: &R,
    rt: HostRuntime,
    taken: &StandardTaken,
    given: io::Result<Args>,
) -> Result<Called, NotCalled>
    ensures words { IfOk result (λ made. AreWordsOf into_iter_steps string_bytes given
        made.words.value) }
    ensures before { IfOk result (λ made. IsUntouched (outside_told
        ⟦<StdSource<Stdin> as Source>⟧.told ⟦<StdSink<Stdout> as Sink>⟧.told
        ⟦<StdFiles<HostRuntime> as Files>⟧.told ⟦<StdFiles<HostRuntime> as Files>⟧.told
        ⟦<StdClock<HostRuntime> as Clock>⟧.told) made.before.value) }
    ensures ran { IfOk result (λ made. MidasRan (outside_told
        ⟦<StdSource<Stdin> as Source>⟧.told ⟦<StdSink<Stdout> as Sink>⟧.told
        ⟦<StdFiles<HostRuntime> as Files>⟧.told ⟦<StdFiles<HostRuntime> as Files>⟧.told
        ⟦<StdClock<HostRuntime> as Clock>⟧.told) made.words.value
        made.before.value made.after.value made.outcome.value) }
    ensures status { IfOk result (λ made. made.status ≡ made.outcome.value.status) }
{
    let words = given_words(rt.alloc(), given)?;
    let outside = real_outside(rt, taken)?;
    let before = Snapshot::of(&outside);
    let (outcome, outside) = midas(threads, rt.alloc(), &words, outside, &NoGate);
    let after = Snapshot::of(&outside);
    let end = Snapshot::of(&outcome);
    let called = Snapshot::of(&words);
    Ok(Called {
        words: called,
        before,
        after,
        outcome: end,
        status: outcome.status,
    })
}

/// Takes the numbers of the standard streams, and calls the program.
fn call_program<R: Threads + Wait + Sync>(
    threads: &R,
    rt: HostRuntime,
    given: io::Result<Args>,
) -> Result<Called, NotCalled>
    ensures words { IfOk result (λ made. AreWordsOf into_iter_steps string_bytes given
        made.words.value) }
    ensures before { IfOk result (λ made. IsUntouched (outside_told
        ⟦<StdSource<Stdin> as Source>⟧.told ⟦<StdSink<Stdout> as Sink>⟧.told
        ⟦<StdFiles<HostRuntime> as Files>⟧.told ⟦<StdFiles<HostRuntime> as Files>⟧.told
        ⟦<StdClock<HostRuntime> as Clock>⟧.told) made.before.value) }
    ensures ran { IfOk result (λ made. MidasRan (outside_told
        ⟦<StdSource<Stdin> as Source>⟧.told ⟦<StdSink<Stdout> as Sink>⟧.told
        ⟦<StdFiles<HostRuntime> as Files>⟧.told ⟦<StdFiles<HostRuntime> as Files>⟧.told
        ⟦<StdClock<HostRuntime> as Clock>⟧.told) made.words.value
        made.before.value made.after.value made.outcome.value) }
    ensures status { IfOk result (λ made. made.status ≡ made.outcome.value.status) }
{
    match StandardTaken::take(&rt) {
        None => Err(NotCalled::StreamsNotTaken),
        Some(taken) => call_given(threads, rt, &taken, given),
    }
}

/// The status with which the program ends: that of its outcome, and where it was not called, that of want of memory or of a fault of
/// a stream.
fn exit_code(called: &Result<Called, NotCalled>) -> ExitCode
    ensures called { IfOk called.now (λ made. exit_status result ≡ made.status) }
    ensures not_called { IfErr called.now (λ why. exit_status result ≡ status_uncalled why) }
{
    match called {
        Ok(made) => ExitCode::from(made.status),
        Err(NotCalled::StreamsNotTaken) => ExitCode::from(status(&Cause::SinkFault)),
        Err(NotCalled::NoMemory) => ExitCode::from(status(&Cause::NoMemory)),
    }
}

/// The whole program: it gives the words of the command line and the real objects to `midas`, and its status is that of
/// the outcome, 0 to 5. Where there is no memory for the words or the objects it is 5, and where the system does not let
/// the numbers of the standard streams be taken it is 4; then nothing was done. Where the program was called, what comes back beside
/// the status tells of the call: the words are those that the system gave, the objects were unused, and all holds of the words, of the
/// objects and of the outcome that `midas` says. That just this was done and no more, no contract can say.
pub fn run_program<R: Threads + Wait + Sync>(
    threads: &R,
    rt: HostRuntime,
    given: io::Result<Args>,
) -> (Result<Called, NotCalled>, ExitCode)
    // The words are those that the system gave, without the program's name. None where one was no text.
    ensures words { IfOk result.0 (λ made. AreWordsOf into_iter_steps string_bytes given
        made.words.value) }
    // The objects are as they were made: nothing given, written or done yet.
    ensures before { IfOk result.0 (λ made. IsUntouched (outside_told
        ⟦<StdSource<Stdin> as Source>⟧.told ⟦<StdSink<Stdout> as Sink>⟧.told
        ⟦<StdFiles<HostRuntime> as Files>⟧.told ⟦<StdFiles<HostRuntime> as Files>⟧.told
        ⟦<StdClock<HostRuntime> as Clock>⟧.told) made.before.value) }
    // Of these words and objects, and of what the call left and came to, all holds that `midas` says.
    ensures ran { IfOk result.0 (λ made. MidasRan (outside_told
        ⟦<StdSource<Stdin> as Source>⟧.told ⟦<StdSink<Stdout> as Sink>⟧.told
        ⟦<StdFiles<HostRuntime> as Files>⟧.told ⟦<StdFiles<HostRuntime> as Files>⟧.told
        ⟦<StdClock<HostRuntime> as Clock>⟧.told) made.words.value
        made.before.value made.after.value made.outcome.value) }
    // The program ends with the status of that outcome.
    ensures status { IfOk result.0 (λ made. exit_status result.1 ≡ made.outcome.value.status) }
    ensures not_called { IfErr result.0 (λ why. exit_status result.1 ≡ status_uncalled why) }
    ensures at_most { exit_status result.1 ≤ 5 }
{
    let called = call_program(threads, rt, given);
    let code = exit_code(&called);
    (called, code)
}
