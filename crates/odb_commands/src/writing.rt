ghost use Rattle.std.specs.Prelude.{◌≡◌, ◌≤◌, IsTrue, OnOk, OnErr};
ghost use Rattle.daq_io.specs.Counts.{CountsFault, NamesFirst};
ghost use Rattle.daq_io.specs.declared.folder.FileState.TheVariants.{Closed};
ghost use Rattle.daq_io.specs.Seen.{Closes};
ghost use Rattle.odb_commands.specs.FileReplies.{FaultsOf, ClashesOf, NamesFault};
ghost use Rattle.odb_commands.specs.WholeFiles.{ClosesFirstPart, WritesFile};

use crate::dump_replies::FileReply;
use daq_io::{Failed, Files, NameRefused};
use daq_types::FileName;

/// Writes this text to the file of this number, which is new, and closes it, also where the write fails.
fn write_and_close<E: Files>(files: &mut E, file: u32, text: &[u8]) -> Result<(), Failed>
    requires { IsTrue ((E.told files.old).seen.writes file) }
    ensures written { OnOk result
        (Closes (E.told files.old).seen (E.told files.new).seen file Closed text.now) }
    ensures part { OnErr result
        (ClosesFirstPart (E.told files.old).seen (E.told files.new).seen file text.now) }
    ensures faults { CountsFault (E.told files.old).faults (E.told files.new).faults result }
    ensures clashes { (E.told files.new).clashes ≡ (E.told files.old).clashes }
    ensures first { NamesFirst ((E.told files.old).seen.name_of file) (E.told files.old).first
        (E.told files.new).first result }
{
    let appended = files.append(file, text);
    let closed = files.close(file);
    match appended {
        Ok(()) => closed,
        Err(_) => Err(Failed),
    }
}

/// Makes a file of this name, writes the text to it and closes it. A file that is there stays as it is. One that was made
/// and not written whole stays too, closed, with a first part of the text.
pub fn write_file<E: Files>(files: &mut E, name: &FileName, text: &[u8]) -> FileReply
    ensures written { WritesFile (E.told files.old).seen (E.told files.new).seen name.now text.now result }
    ensures faults { FaultsOf result (E.told files.old).faults (E.told files.new).faults }
    ensures later { (E.told files.old).faults ≤ (E.told files.new).faults }
    ensures clashes { ClashesOf result (E.told files.old).clashes (E.told files.new).clashes }
    ensures first { NamesFault result name.now (E.told files.old).first (E.told files.new).first }
{
    match files.create(name) {
        Ok(file) => match write_and_close(files, file, text) {
            Ok(()) => FileReply::Done,
            Err(_) => FileReply::Fault,
        },
        Err(NameRefused::Exists) => FileReply::Clash,
        Err(NameRefused::Missing) => unreachable!(),
        Err(NameRefused::Failed) => FileReply::Fault,
    }
}
