ghost use Rattle.std.specs.Prelude.{◌≡◌, ◌≤◌, ◌<◌, ◌++◌, [], IsTrue, IsSome, IfOk, OnOk, OnErr, length};
ghost use Rattle.daq_io.specs.Counts.{CountsFault, NamesFirst};
ghost use Rattle.daq_io.specs.Seen.{Ends, Same};
ghost use Rattle.odb_commands.specs.FileReplies.{reply_of, FaultsOf, ClashesOf, NamesFault};
ghost use Rattle.odb_commands.specs.WholeFiles.{closed_body, GaveBytes, GivesBody, GivesRead, ReadsFile, SomeRead};

use crate::dump_replies::FileRead;
use daq_io::{Failed, Files, NameRefused};
use daq_types::{Bytes, FileName, NoMemory};
use std::alloc::Global;

/// The most bytes of a file that is read.
const FILE_BYTES: usize = 268_435_456;

/// How many bytes are read at a time.
const BLOCK_BYTES: usize = 65_536;

/// How the reading of a file ended.
#[derive(Clone, Copy)]
enum ReadEnd {
    /// At the end of the file.
    Whole,
    /// Behind more bytes than a file may have.
    TooLong,
    /// At want of memory.
    NoMemory,
}

/// What was read under a number.
#[derive(Drop)]
enum Body {
    /// All bytes.
    Whole { text: Bytes },
    /// More than a file may have.
    TooLong,
    /// There was no memory for them.
    NoMemory,
}

/// Adds bytes to a text.
fn add(text: &mut Vec<u8>, bytes: &[u8]) -> Result<(), NoMemory>
    ensures { OnOk result (text.new.items ≡ text.old.items ++ bytes.now) }
{
    text.extend_from_slice(bytes)?;
    Ok(())
}

/// Room for the bytes of one read.
fn new_block(alloc: Global) -> Result<Vec<u8>, NoMemory>
    ensures { IfOk result (λ block. 0 < length block.items) }
{
    let block = vec![in alloc; 0; BLOCK_BYTES]?;
    Ok(block)
}

/// Reads what is left of the file of this number into a text without bytes, as far as a file may go.
fn read_on<E: Files>(
    files: &mut E,
    file: u32,
    block: &mut [u8],
    text: &mut Vec<u8>,
) -> Result<ReadEnd, Failed>
    requires reads { IsTrue ((E.told files.old).seen.reads file) }
    requires room { 0 < length block.old }
    requires empty { text.old.items ≡ [] }
    ensures read { IfOk result (GaveBytes (E.told files.old).seen (E.told files.new).seen file
        text.new.items) }
    ensures part { OnErr result (SomeRead (E.told files.old).seen (E.told files.new).seen file) }
    ensures faults { CountsFault (E.told files.old).faults (E.told files.new).faults result }
    ensures clashes { (E.told files.new).clashes ≡ (E.told files.old).clashes }
    ensures first { NamesFirst ((E.told files.old).seen.name_of file) (E.told files.old).first
        (E.told files.new).first result }
{
    while text.as_slice().len() <= FILE_BYTES {
        let count = files.read(file, block)?;
        if count == 0 {
            return Ok(ReadEnd::Whole);
        }
        let (front, _) = block.split_at(count);
        if add(text, front).is_err() {
            return Ok(ReadEnd::NoMemory);
        }
    }
    Ok(ReadEnd::TooLong)
}

/// Reads what is left of the file of this number.
fn read_body<E: Files>(alloc: Global, files: &mut E, file: u32) -> Result<Body, Failed>
    requires { IsTrue ((E.told files.old).seen.reads file) }
    ensures read { IfOk result (GivesBody (E.told files.old).seen (E.told files.new).seen file) }
    ensures part { OnErr result (SomeRead (E.told files.old).seen (E.told files.new).seen file) }
    ensures faults { CountsFault (E.told files.old).faults (E.told files.new).faults result }
    ensures clashes { (E.told files.new).clashes ≡ (E.told files.old).clashes }
    ensures first { NamesFirst ((E.told files.old).seen.name_of file) (E.told files.old).first
        (E.told files.new).first result }
{
    let Ok(mut block) = new_block(alloc) else {
        return Ok(Body::NoMemory);
    };
    let mut text = Vec::new(alloc);
    match read_on(files, file, block.as_mut_slice(), &mut text)? {
        ReadEnd::Whole => Ok(Body::Whole {
            text: Bytes::of(text),
        }),
        ReadEnd::TooLong => Ok(Body::TooLong),
        ReadEnd::NoMemory => Ok(Body::NoMemory),
    }
}

/// What was read, where the file was closed so.
fn closed_behind(body: Body, closed: Result<(), Failed>) -> Result<FileRead, NoMemory>
    ensures { result ≡ closed_body body closed }
{
    match (body, closed) {
        (Body::Whole { text }, Ok(())) => Ok(FileRead::Whole { text }),
        (Body::TooLong, Ok(())) => Ok(FileRead::TooLong),
        (Body::NoMemory, Ok(())) => Err(NoMemory),
        (_, Err(_)) => Ok(FileRead::Fault),
    }
}

/// Reads what is left of the file of this number, and closes it. A close that fails is told before want of memory.
fn read_and_close<E: Files>(alloc: Global, files: &mut E, file: u32) -> Result<FileRead, NoMemory>
    requires { IsTrue ((E.told files.old).seen.reads file) }
    ensures read { IfOk result (GivesRead (E.told files.old).seen file) }
    ensures ended { Ends (E.told files.old).seen (E.told files.new).seen file }
    ensures faults { IfOk result (λ read. FaultsOf (reply_of read) (E.told files.old).faults
        (E.told files.new).faults) }
    ensures faultless { OnErr result ((E.told files.new).faults ≡ (E.told files.old).faults) }
    ensures later { (E.told files.old).faults ≤ (E.told files.new).faults }
    ensures clashes { (E.told files.new).clashes ≡ (E.told files.old).clashes }
    ensures first { IfOk result (λ read. NamesFault (reply_of read)
        ((E.told files.old).seen.name_of file) (E.told files.old).first (E.told files.new).first) }
    ensures nameless { OnErr result ((E.told files.new).first ≡ (E.told files.old).first) }
{
    let body = read_body(alloc, files, file);
    let closed = files.close(file);
    match body {
        Ok(body) => closed_behind(body, closed),
        Err(_) => Ok(FileRead::Fault),
    }
}

/// Reads the file of this name to its end and closes it. Changes no name and no byte, whatever comes of it. Memory is wanting
/// only for a file that is there, and only where no call failed.
pub fn read_file<E: Files>(
    alloc: Global,
    files: &mut E,
    name: &FileName,
) -> Result<FileRead, NoMemory>
    ensures read { IfOk result (ReadsFile (E.told files.old).seen name.now) }
    ensures same { Same (E.told files.old).seen (E.told files.new).seen }
    ensures faults { IfOk result (λ read. FaultsOf (reply_of read) (E.told files.old).faults
        (E.told files.new).faults) }
    ensures clashes { IfOk result (λ read. ClashesOf (reply_of read) (E.told files.old).clashes
        (E.told files.new).clashes) }
    ensures first { IfOk result (λ read. NamesFault (reply_of read) name.now (E.told files.old).first
        (E.told files.new).first) }
    ensures later { (E.told files.old).faults ≤ (E.told files.new).faults }
    ensures faultless { OnErr result ((E.told files.new).faults ≡ (E.told files.old).faults) }
    ensures nameless { OnErr result ((E.told files.new).first ≡ (E.told files.old).first) }
    ensures unclashed { OnErr result ((E.told files.new).clashes ≡ (E.told files.old).clashes) }
    ensures there { OnErr result (IsTrue (E.told files.old).seen.names
        → IsSome ((E.told files.old).seen.at name.now)) }
{
    match files.open_read(name) {
        Ok(file) => read_and_close(alloc, files, file),
        Err(NameRefused::Missing) => Ok(FileRead::Missing),
        Err(NameRefused::Exists) => unreachable!(),
        Err(NameRefused::Failed) => Ok(FileRead::Fault),
    }
}
