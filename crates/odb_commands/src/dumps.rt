ghost use Rattle.std.specs.Prelude.{◌≡◌, ◌≤◌, Some, Err, IfOk, OnErr, length};
ghost use Rattle.daq_types.specs.Callers.{main_caller};
ghost use Rattle.daq_io.specs.Seen.{Same};
ghost use Rattle.odb_text.specs.declared.acts.LoadRefusal.TheVariants.{NoMemory as no_memory};
ghost use Rattle.odb_text.specs.Dumps.{dump_limit};
ghost use Rattle.odb_commands.specs.FileReplies.{reply_of};
ghost use Rattle.odb_commands.specs.WatchAnswers.{said_with as reply_said_with, loaded_or as loaded_of, saved_or as saved_of};
ghost use Rattle.odb_commands.specs.WatchCalls.{EndsWatchCommand, OnFileName, IsLoadSettled, IsLoadable, LoadsWhole, LoadsRead, LoadsFile, SavesFile, FaultsIf, ClashesIf, NamesFaultIf};

use crate::watch_replies::{WatchAnswer, WatchCommandRefusal, WatchReply};
use crate::watches::refused_for;
use crate::{FileRead, FileReply, read_file, write_file};
use daq_io::Files;
use daq_types::{FileName, NoMemory};
use odb_text::{LoadRefusal, Loaded};
use odb_watch::WatchPort;
use std::alloc::Global;
use std::sync::Wait;

/// The answer with this reply, where the calls on the files came to this.
fn said_with(came: FileReply, reply: WatchReply) -> WatchAnswer
    ensures { result ≡ reply_said_with came reply }
{
    WatchAnswer {
        reply,
        file: Some(came),
    }
}

/// The answer of a command that was refused so, where the calls on the files came to this.
fn refused_with(came: FileReply, why: WatchCommandRefusal) -> WatchAnswer
    ensures { result ≡ reply_said_with came (WatchReply.Refused why) }
{
    said_with(came, WatchReply::Refused { why })
}

/// What was answered to a text, where memory was not wanting.
fn load_settled(reply: Result<Loaded, LoadRefusal>) -> Result<Result<Loaded, LoadRefusal>, NoMemory>
    ensures same { IfOk result (λ settled. settled ≡ reply) }
    ensures wanted { IfOk result (λ settled. IsLoadSettled settled) }
    ensures memory { OnErr result (reply ≡ Err no_memory) }
{
    match reply {
        Ok(loaded) => Ok(Ok(loaded)),
        Err(LoadRefusal::NoMemory) => Err(NoMemory),
        Err(refusal) => Ok(Err(refusal)),
    }
}

/// The answer with how many keys were loaded.
fn loaded_or(reply: Result<Loaded, LoadRefusal>) -> WatchAnswer
    ensures answer { result ≡ loaded_of reply }
    ensures file { result.file ≡ Some FileReply.Done }
{
    match reply {
        Ok(loaded) => said_with(FileReply::Done, WatchReply::Loaded { loaded }),
        Err(why) => refused_with(FileReply::Done, WatchCommandRefusal::Load { why }),
    }
}

/// Loads the text of a file that was read whole.
fn load_whole<R: Wait, P: WatchPort>(
    rt: &R,
    alloc: Global,
    port: &mut P,
    text: &[u8],
) -> Result<WatchAnswer, NoMemory>
    requires main { (P.access port.old).caller ≡ main_caller }
    requires small { length text.now ≤ dump_limit }
    ensures ends { EndsWatchCommand (P.access port.old) (P.access port.new)
        (LoadsWhole text.now) result }
    ensures file { IfOk result (λ answer. answer.file ≡ Some FileReply.Done) }
{
    let reply = load_settled(port.load(rt, alloc, text))?;
    Ok(loaded_or(reply))
}

/// Loads what was read of a file, if that is all of it.
fn load_read<R: Wait, P: WatchPort>(
    rt: &R,
    alloc: Global,
    port: &mut P,
    read: FileRead,
) -> Result<WatchAnswer, NoMemory>
    requires main { (P.access port.old).caller ≡ main_caller }
    requires small { IsLoadable read }
    ensures ends { EndsWatchCommand (P.access port.old) (P.access port.new)
        (LoadsRead read) result }
    ensures file { IfOk result (λ answer. answer.file ≡ Some (reply_of read)) }
    ensures whole { OnErr result (reply_of read ≡ FileReply.Done) }
{
    let came = read.reply();
    match read {
        FileRead::Whole { text } => load_whole(rt, alloc, port, text.as_slice()),
        FileRead::Missing => Ok(refused_with(came, WatchCommandRefusal::Missing)),
        FileRead::Fault => Ok(refused_with(came, WatchCommandRefusal::FileFault)),
        FileRead::TooLong => Ok(refused_with(came, WatchCommandRefusal::TooLong)),
    }
}

/// The command for the file of this name.
fn load_at<R: Wait, P: WatchPort, E: Files>(
    rt: &R,
    alloc: Global,
    port: &mut P,
    files: &mut E,
    name: &FileName,
) -> Result<WatchAnswer, NoMemory>
    requires { (P.access port.old).caller ≡ main_caller }
    ensures ends { EndsWatchCommand (P.access port.old) (P.access port.new)
        (LoadsFile (E.told files.old).seen (E.told files.new).seen name.now) result }
    ensures kept { Same (E.told files.old).seen (E.told files.new).seen }
    ensures faults { IfOk result (λ answer. FaultsIf answer.file (E.told files.old).faults
        (E.told files.new).faults) }
    ensures clashes { IfOk result (λ answer. ClashesIf answer.file (E.told files.old).clashes
        (E.told files.new).clashes) }
    ensures first { IfOk result (λ answer. NamesFaultIf answer.file name.now (E.told files.old).first
        (E.told files.new).first) }
    ensures later { (E.told files.old).faults ≤ (E.told files.new).faults }
    ensures faultless { OnErr result ((E.told files.new).faults ≡ (E.told files.old).faults) }
    ensures nameless { OnErr result ((E.told files.new).first ≡ (E.told files.old).first) }
    ensures unclashed { OnErr result ((E.told files.new).clashes ≡ (E.told files.old).clashes) }
{
    let read = read_file(alloc, files, name)?;
    load_read(rt, alloc, port, read)
}

/// The command `load`, by the main thread: reads the file of this name and loads the dump in it. Changes no file.
pub(crate) fn load<R: Wait, P: WatchPort, E: Files>(
    rt: &R,
    alloc: Global,
    port: &mut P,
    files: &mut E,
    file: &[u8],
) -> Result<WatchAnswer, NoMemory>
    requires { (P.access port.old).caller ≡ main_caller }
    ensures ends { EndsWatchCommand (P.access port.old) (P.access port.new)
        (OnFileName file.now (E.told files.old).seen (E.told files.new).seen
        (LoadsFile (E.told files.old).seen (E.told files.new).seen)) result }
    ensures kept { Same (E.told files.old).seen (E.told files.new).seen }
    ensures faults { IfOk result (λ answer. FaultsIf answer.file (E.told files.old).faults
        (E.told files.new).faults) }
    ensures clashes { IfOk result (λ answer. ClashesIf answer.file (E.told files.old).clashes
        (E.told files.new).clashes) }
    ensures first { IfOk result (λ answer. NamesFaultIf answer.file file.now (E.told files.old).first
        (E.told files.new).first) }
    ensures later { (E.told files.old).faults ≤ (E.told files.new).faults }
    ensures faultless { OnErr result ((E.told files.new).faults ≡ (E.told files.old).faults) }
    ensures nameless { OnErr result ((E.told files.new).first ≡ (E.told files.old).first) }
    ensures unclashed { OnErr result ((E.told files.new).clashes ≡ (E.told files.old).clashes) }
{
    match FileName::from_bytes(file) {
        Err(_) => Ok(refused_for(WatchCommandRefusal::BadFileName)),
        Ok(name) => load_at(rt, alloc, port, files, &name),
    }
}

/// The answer with how many bytes were saved.
fn saved_or(bytes: u64, came: FileReply) -> WatchAnswer
    ensures answer { result ≡ saved_of bytes came }
    ensures file { result.file ≡ Some came }
{
    match came {
        FileReply::Done => said_with(came, WatchReply::Saved { bytes }),
        FileReply::Clash => refused_with(came, WatchCommandRefusal::Exists),
        FileReply::Fault => refused_with(came, WatchCommandRefusal::FileFault),
        FileReply::TooLong => refused_with(came, WatchCommandRefusal::TooLong),
    }
}

/// The command for the file of this name.
fn save_at<R: Wait, P: WatchPort, E: Files>(
    rt: &R,
    alloc: Global,
    port: &mut P,
    files: &mut E,
    name: &FileName,
) -> Result<WatchAnswer, NoMemory>
    ensures ends { EndsWatchCommand (P.access port.old) (P.access port.new)
        (SavesFile (E.told files.old).seen (E.told files.new).seen name.now) result }
    ensures kept { OnErr result (Same (E.told files.old).seen (E.told files.new).seen) }
    ensures faults { IfOk result (λ answer. FaultsIf answer.file (E.told files.old).faults
        (E.told files.new).faults) }
    ensures clashes { IfOk result (λ answer. ClashesIf answer.file (E.told files.old).clashes
        (E.told files.new).clashes) }
    ensures first { IfOk result (λ answer. NamesFaultIf answer.file name.now (E.told files.old).first
        (E.told files.new).first) }
    ensures later { (E.told files.old).faults ≤ (E.told files.new).faults }
    ensures faultless { OnErr result ((E.told files.new).faults ≡ (E.told files.old).faults) }
    ensures nameless { OnErr result ((E.told files.new).first ≡ (E.told files.old).first) }
    ensures unclashed { OnErr result ((E.told files.new).clashes ≡ (E.told files.old).clashes) }
{
    let dump = port.save(rt, alloc)?;
    let text = dump.as_slice();
    let came = write_file(files, name, text);
    Ok(saved_or(text.len() as u64, came))
}

/// The command `save`: writes a dump of the database to a new file of this name. Where it cannot be written whole, the file
/// is left closed with a first part of it. A file that is there stays as it is.
pub(crate) fn save<R: Wait, P: WatchPort, E: Files>(
    rt: &R,
    alloc: Global,
    port: &mut P,
    files: &mut E,
    file: &[u8],
) -> Result<WatchAnswer, NoMemory>
    ensures ends { EndsWatchCommand (P.access port.old) (P.access port.new)
        (OnFileName file.now (E.told files.old).seen (E.told files.new).seen
        (SavesFile (E.told files.old).seen (E.told files.new).seen)) result }
    ensures kept { OnErr result (Same (E.told files.old).seen (E.told files.new).seen) }
    ensures faults { IfOk result (λ answer. FaultsIf answer.file (E.told files.old).faults
        (E.told files.new).faults) }
    ensures clashes { IfOk result (λ answer. ClashesIf answer.file (E.told files.old).clashes
        (E.told files.new).clashes) }
    ensures first { IfOk result (λ answer. NamesFaultIf answer.file file.now (E.told files.old).first
        (E.told files.new).first) }
    ensures later { (E.told files.old).faults ≤ (E.told files.new).faults }
    ensures faultless { OnErr result ((E.told files.new).faults ≡ (E.told files.old).faults) }
    ensures nameless { OnErr result ((E.told files.new).first ≡ (E.told files.old).first) }
    ensures unclashed { OnErr result ((E.told files.new).clashes ≡ (E.told files.old).clashes) }
{
    match FileName::from_bytes(file) {
        Err(_) => Ok(refused_for(WatchCommandRefusal::BadFileName)),
        Ok(name) => save_at(rt, alloc, port, files, &name),
    }
}
