ghost use Rattle.std.specs.Prelude.{◌≡◌, ◌≤◌, ◌↔◌, [], IsTrue, IsSome, IsErrOf, OnOk, OnErr, IfOk, IfErr, length};
ghost use Rattle.event.specs.Events.{encoding, record_limit};
ghost use Rattle.event.specs.RunFile.{begun_file, begin_record as begin_event, end_record as end_event};
ghost use Rattle.daq_io.specs.Counts.{CountsFault, CountsNamed, CountsClash, NamesFirst, NamesFirstOf};
ghost use Rattle.daq_io.specs.declared.folder.FileState.TheVariants.{Closed};
ghost use Rattle.daq_io.specs.Seen.{Same, Creates, Extends, ExtendsPart, Closes, Touches};
ghost use Rattle.event.specs.Headers.{event_of};
ghost use Rattle.sub_files.specs.RecordFiles.{ClosesPart, DropsFile, IsUndone, UndoesFile, RoseTwice};

use daq_io::{Failed, Files, NameRefused};
use daq_types::FileName;
use event::{Header, write_header};
use mid_format::{begin_record, end_record};

/// Appends a record of a run file: its header, and then the dump that is its data.
pub fn append_record<F: Files>(
    files: &mut F,
    file: u32,
    header: &Header,
    dump: &[u8],
) -> Result<(), Failed>
    requires writes { IsTrue ((F.told files.old).seen.writes file) }
    requires stated { header.now.data_size ≡ length dump.now }
    ensures whole { OnOk result (Extends (F.told files.old).seen (F.told files.new).seen file
        (encoding (event_of header.now dump.now))) }
    ensures part { OnErr result (ExtendsPart (F.told files.old).seen (F.told files.new).seen file
        (encoding (event_of header.now dump.now))) }
    ensures faults { CountsFault (F.told files.old).faults (F.told files.new).faults result }
    ensures clashes { (F.told files.new).clashes ≡ (F.told files.old).clashes }
    ensures first { NamesFirst ((F.told files.old).seen.name_of file) (F.told files.old).first
        (F.told files.new).first result }
{
    let mut head = [0; 16];
    write_header(header, &mut head);
    match files.append(file, &head) {
        Ok(()) => files.append(file, dump),
        Err(failed) => Err(failed),
    }
}

/// Closes a file that is written and removes it. It is removed also where the close fails.
pub fn drop_file<F: Files>(files: &mut F, file: u32, name: &FileName) -> Result<(), Failed>
    requires writes { IsTrue ((F.told files.old).seen.writes file) }
    requires named { (F.told files.old).seen.name_of file ≡ name.now }
    ensures drops { DropsFile (F.told files.old).seen (F.told files.new).seen file name.now }
    ensures gone { OnOk result (IsUndone (F.told files.old).seen (F.told files.new).seen name.now) }
    ensures faults { CountsFault (F.told files.old).faults (F.told files.new).faults result }
    ensures clashes { (F.told files.new).clashes ≡ (F.told files.old).clashes }
    ensures first { NamesFirst name.now (F.told files.old).first (F.told files.new).first result }
{
    let closed = files.close(file);
    let removed = files.remove(name);
    match closed {
        Ok(()) => removed,
        Err(failed) => Err(failed),
    }
}

/// Makes a run's file and writes its begin record; answers the number under which it is written. Where that fails, no file
/// of this name is left, unless the removing fails too.
pub fn begin_file<F: Files>(
    files: &mut F,
    name: &FileName,
    run: u32,
    time: u32,
    dump: &[u8],
) -> Result<u32, NameRefused>
    requires small { length dump.now ≤ record_limit }
    ensures begun { IfOk result (λ file. Creates (F.told files.old).seen (F.told files.new).seen name.now file
        (begun_file run time dump.now [])) }
    ensures exists { IsTrue (F.told files.old).seen.names → (IsErrOf result NameRefused.Exists
        ↔ IsSome ((F.told files.old).seen.at name.now)) }
    ensures not_missing { ¬ IsErrOf result NameRefused.Missing }
    ensures kept { IsErrOf result NameRefused.Exists → Same (F.told files.old).seen (F.told files.new).seen }
    ensures undone { IsErrOf result NameRefused.Failed → UndoesFile RoseTwice
        (F.told files.old).seen (F.told files.new).seen name.now (F.told files.old).faults (F.told files.new).faults }
    ensures faults { CountsNamed (F.told files.old).faults (F.told files.new).faults result }
    ensures clashes { CountsClash (F.told files.old).clashes (F.told files.new).clashes result }
    ensures first { NamesFirstOf name.now (F.told files.old).first (F.told files.new).first result }
{
    let file = match files.create(name) {
        Ok(file) => file,
        Err(why) => return Err(why),
    };
    let header = begin_record(run, time, dump.len() as u32);
    match append_record(files, file, &header, dump) {
        Ok(()) => Ok(file),
        Err(Failed) => {
            let _ = drop_file(files, file, name);
            Err(NameRefused::Failed)
        }
    }
}

/// Ends a run's file: it gets its end record and is closed. It is closed also where a call on it fails.
pub fn end_file<F: Files>(
    files: &mut F,
    file: u32,
    run: u32,
    time: u32,
    dump: &[u8],
) -> Result<(), Failed>
    requires writes { IsTrue ((F.told files.old).seen.writes file) }
    requires small { length dump.now ≤ record_limit }
    ensures whole { OnOk result (Closes (F.told files.old).seen (F.told files.new).seen file Closed
        (encoding (end_event run time dump.now))) }
    ensures part { OnErr result (ClosesPart (F.told files.old).seen (F.told files.new).seen file
        (encoding (end_event run time dump.now))) }
    ensures faults { CountsFault (F.told files.old).faults (F.told files.new).faults result }
    ensures clashes { (F.told files.new).clashes ≡ (F.told files.old).clashes }
    ensures first { NamesFirst ((F.told files.old).seen.name_of file) (F.told files.old).first
        (F.told files.new).first result }
{
    let header = end_record(run, time, dump.len() as u32);
    match append_record(files, file, &header, dump) {
        Ok(()) => files.close(file),
        Err(failed) => {
            let _ = files.close(file);
            Err(failed)
        }
    }
}
