ghost use Rattle.std.specs.Prelude.{◌≡◌, ◌≤◌, [], Err, IfOk, OnOk, OnErr, length};
ghost use Rattle.odb_value.specs.PathText.{path_reply};
ghost use Rattle.odb_tree.specs.Noting.{notes_limit};
ghost use Rattle.odb_watch.specs.declared.notes.WatchRefusal.TheVariants.{NoMemory as no_memory};
ghost use Rattle.odb_watch.specs.Steps.{moved_out};
ghost use Rattle.odb_commands.specs.WatchAnswers.{said as reply_said, refused_for as refusal_for, watching_or as watching_of, ended_or as ended_of};
ghost use Rattle.odb_commands.specs.WatchCalls.{AnswersWatch, EndsWatchCommand, OnPath, IsWatchSettled, WatchesRow, WatchesFound, WatchesPath, TellsNotes, TellsTaken, TakesNotes, EndsWatch};

use crate::reading::{read_path, settled};
use crate::watch_replies::{ToldNote, ToldNotes, WatchAnswer, WatchCommandRefusal, WatchReply};
use daq_types::NoMemory;
use odb_tree::{Note, Notes, OdbRefusal};
use odb_value::Path;
use odb_watch::{NoWatch, WatchPort, WatchRefusal};
use std::alloc::Global;
use std::sync::Wait;

/// The answer with this reply, where no file was called.
pub(crate) fn said(reply: WatchReply) -> WatchAnswer
    ensures { result ≡ reply_said reply }
{
    WatchAnswer { reply, file: None }
}

/// The answer of a command that was refused so, where no file was called.
pub(crate) fn refused_for(why: WatchCommandRefusal) -> WatchAnswer
    ensures { result ≡ refusal_for why }
{
    said(WatchReply::Refused { why })
}

/// What was answered to a watch, where memory was not wanting.
fn watch_settled(reply: Result<u32, WatchRefusal>) -> Result<Result<u32, WatchRefusal>, NoMemory>
    ensures same { IfOk result (λ settled. settled ≡ reply) }
    ensures wanted { IfOk result (λ settled. IsWatchSettled settled) }
    ensures memory { OnErr result (reply ≡ Err no_memory) }
{
    match reply {
        Ok(watch) => Ok(Ok(watch)),
        Err(WatchRefusal::NoMemory) => Err(NoMemory),
        Err(refusal) => Ok(Err(refusal)),
    }
}

/// The answer with the number of a watch.
fn watching_or(reply: Result<u32, WatchRefusal>) -> WatchAnswer
    ensures { result ≡ watching_of reply }
{
    match reply {
        Ok(watch) => said(WatchReply::Watching { watch }),
        Err(why) => refused_for(WatchCommandRefusal::Watch { why }),
    }
}

/// Begins to watch this row.
fn watch_row<R: Wait, P: WatchPort>(
    rt: &R,
    alloc: Global,
    port: &mut P,
    row: u32,
) -> Result<WatchAnswer, NoMemory>
    ensures { EndsWatchCommand (P.access port.old) (P.access port.new)
        (WatchesRow row) result }
{
    let reply = watch_settled(port.watch(rt, alloc, row))?;
    Ok(watching_or(reply))
}

/// Begins to watch the row that was found.
fn watch_found<R: Wait, P: WatchPort>(
    rt: &R,
    alloc: Global,
    port: &mut P,
    found: Result<u32, OdbRefusal>,
) -> Result<WatchAnswer, NoMemory>
    ensures { EndsWatchCommand (P.access port.old) (P.access port.new)
        (WatchesFound found) result }
{
    match found {
        Err(why) => Ok(refused_for(WatchCommandRefusal::Database { why })),
        Ok(row) => watch_row(rt, alloc, port, row),
    }
}

/// The command at this path.
fn watch_at<R: Wait, P: WatchPort>(
    rt: &R,
    alloc: Global,
    port: &mut P,
    path: Path,
) -> Result<WatchAnswer, NoMemory>
    ensures { EndsWatchCommand (P.access port.old) (P.access port.new)
        (WatchesPath path) result }
{
    let found = settled(port.find(rt, alloc, path))?;
    watch_found(rt, alloc, port, found)
}

/// The command `watch`: begins to watch the row at the path of this text and what is below it.
pub(crate) fn watch<R: Wait, P: WatchPort>(
    rt: &R,
    alloc: Global,
    port: &mut P,
    path: &[u8],
) -> Result<WatchAnswer, NoMemory>
    ensures { EndsWatchCommand (P.access port.old) (P.access port.new)
        (OnPath (path_reply path.now) WatchesPath) result }
{
    match read_path(alloc, path)? {
        Err(why) => Ok(refused_for(WatchCommandRefusal::Path { why })),
        Ok(path) => watch_at(rt, alloc, port, path),
    }
}

/// Tells these notes, and how many others were lost: asks for the path of each note's row.
fn tell_notes<R: Wait, P: WatchPort>(
    rt: &R,
    alloc: Global,
    port: &mut P,
    notes: &[Note],
    lost: u64,
    mut told: ToldNotes,
) -> Result<WatchAnswer, NoMemory>
    requires empty { told ≡ [] }
    requires few { length notes.now ≤ notes_limit }
    ensures { EndsWatchCommand (P.access port.old) (P.access port.new)
        (TellsNotes notes.now lost) result }
{
    for note in notes {
        let path = port.path_of(rt, alloc, note.row)?;
        told.push(ToldNote { note: *note, path });
    }
    Ok(said(WatchReply::Told { notes: told, lost }))
}

/// Tells the notes that were taken, if the watch lives.
fn tell_taken<R: Wait, P: WatchPort>(
    rt: &R,
    alloc: Global,
    port: &mut P,
    taken: Result<u64, NoWatch>,
    notes: &[Note],
    told: ToldNotes,
) -> Result<WatchAnswer, NoMemory>
    requires empty { told ≡ [] }
    requires few { OnOk taken (length notes.now ≤ notes_limit) }
    ensures { EndsWatchCommand (P.access port.old) (P.access port.new)
        (TellsTaken (moved_out notes.now taken)) result }
{
    match taken {
        Err(_) => Ok(refused_for(WatchCommandRefusal::NoWatch)),
        Ok(lost) => tell_notes(rt, alloc, port, notes, lost, told),
    }
}

/// The command `notes`: takes the notes that the watch of this number has kept, and asks for the path of each note's row.
pub(crate) fn notes<R: Wait, P: WatchPort>(
    rt: &R,
    alloc: Global,
    port: &mut P,
    watch: u32,
) -> Result<WatchAnswer, NoMemory>
    ensures { EndsWatchCommand (P.access port.old) (P.access port.new)
        (TakesNotes watch) result }
{
    let mut notes = Notes::new(alloc)?;
    let told = ToldNotes::new(alloc)?;
    let taken = port.notes(rt, watch, &mut notes);
    tell_taken(rt, alloc, port, taken, notes.as_slice(), told)
}

/// The answer to the end of a watch.
fn ended_or(reply: Result<(), NoWatch>) -> WatchAnswer
    ensures { result ≡ ended_of reply }
{
    match reply {
        Ok(()) => said(WatchReply::Ended),
        Err(_) => refused_for(WatchCommandRefusal::NoWatch),
    }
}

/// The command `unwatch`: ends the watch of this number.
pub(crate) fn unwatch<R: Wait, P: WatchPort>(rt: &R, port: &mut P, watch: u32) -> WatchAnswer
    ensures { AnswersWatch (P.access port.old) (P.access port.new) (EndsWatch watch) result }
{
    ended_or(port.unwatch(rt, watch))
}
