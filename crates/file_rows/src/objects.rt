//! Calls on any of the objects of the outside.
ghost use Rattle.std.specs.Prelude.{IsTrue};

use daq_io::{Clock, Failed, FileSource, Files, NameRefused, Pick, Sink, Source, write_all};
use daq_types::FileName;

/// Makes a file of these bytes, reads it back into `into`, and answers how many bytes came.
pub fn write_and_read<F: Files>(
    files: &mut F,
    name: &FileName,
    bytes: &[u8],
    into: &mut [u8],
) -> Result<usize, NameRefused> {
    let number = files.create(name)?;
    files.append(number, bytes)?;
    files.close(number)?;
    let number = files.open_read(name)?;
    let count = files.read(number, into)?;
    files.close(number)?;
    Ok(count)
}

/// Makes a file of five bytes and reads it back, and answers whether the bytes came.
pub fn is_written_and_read<F: Files>(files: &mut F, name: &FileName) -> bool {
    let mut into = [0; 8];
    let count = write_and_read(files, name, b"MIDAS", &mut into);
    count == Ok(5) && into == *b"MIDAS\0\0\0"
}

/// What a file's creation, opening and removal answer, in this order, and the first fault behind them.
pub fn made_opened_and_removed<F: Files + Drop>(
    mut files: F,
    name: &FileName,
) -> (
    Result<u32, NameRefused>,
    Result<u32, NameRefused>,
    Result<(), Failed>,
    Option<FileName>,
) {
    (
        files.create(name),
        files.open_read(name),
        files.remove(name),
        files.first_fault(),
    )
}

/// Makes a file that is there, removes it, opens it and removes it once more. Answers whether a clash of names is told, and
/// no fault.
pub fn is_there_and_removed<F: Files>(files: &mut F, name: &FileName) -> bool {
    let made = files.create(name);
    let removed = files.remove(name);
    let opened = files.open_read(name);
    let again = files.remove(name);
    made == Err(NameRefused::Exists)
        && (removed, again) == (Ok(()), Ok(()))
        && opened == Err(NameRefused::Missing)
        && files.first_fault().is_none()
}

/// Opens a file that is not there, and removes it. Answers whether it is missing, and the removal does nothing.
pub fn is_missing<F: Files>(files: &mut F, name: &FileName) -> bool {
    let opened = files.open_read(name);
    (opened, files.remove(name)) == (Err(NameRefused::Missing), Ok(()))
}

/// Appends to a file, and answers whether it took the bytes. It is still being written.
fn is_appended<F: Files>(files: &mut F, file: u32, bytes: &[u8]) -> bool
    requires { IsTrue ((F.told files.old).seen.writes file) }
    ensures { IsTrue ((F.told files.new).seen.writes file) }
{
    match files.append(file, bytes) {
        Ok(()) => true,
        Err(Failed) => false,
    }
}

/// Makes a file, and answers whether it took a byte.
pub fn is_made_and_appended<F: Files>(files: &mut F, name: &FileName) -> bool {
    match files.create(name) {
        Ok(number) => is_appended(files, number, b"M"),
        Err(_) => false,
    }
}

/// Makes a file, appends twice to it and closes it, and answers whether it took the bytes each time, and was closed well;
/// and the first fault behind that.
pub fn append_twice_and_close<F: Files + Drop>(
    mut files: F,
    name: &FileName,
    first: &[u8],
    second: &[u8],
) -> Result<([bool; 3], Option<FileName>), NameRefused> {
    let number = files.create(name)?;
    let is_first_taken = is_appended(&mut files, number, first);
    let is_second_taken = is_appended(&mut files, number, second);
    let is_closed_well = files.close(number).is_ok();
    let all = [is_first_taken, is_second_taken, is_closed_well];
    Ok((all, files.first_fault()))
}

/// Reads a file of five bytes as a source, and answers what two readings do, the bytes of the first, and whether the file
/// was closed well.
pub fn read_as_source<F: Files + Drop>(
    mut files: F,
    name: &FileName,
) -> Result<([Result<usize, Failed>; 2], [u8; 8], bool), NameRefused> {
    let number = files.open_read(name)?;
    let mut source = FileSource::new(files, number);
    let mut into = [0; 8];
    let counts = [source.read(&mut into), source.read(&mut [0; 8])];
    let number = source.file();
    Ok((counts, into, source.into_files().close(number).is_ok()))
}

/// Copies the source to the sink, in pieces of three bytes, and answers how many bytes that were.
pub fn copy<S: Source, O: Sink>(source: &mut S, sink: &mut O) -> Result<u64, Failed> {
    let mut piece = [0; 3];
    let mut copied: u64 = 0;
    for _ in 0..u64::MAX {
        let count = source.read(&mut piece)?;
        if count == 0 {
            break;
        }
        write_all(sink, &piece[..count])?;
        copied = copied.saturating_add(count as u64);
    }
    Ok(copied)
}

/// Copies all of a source.
pub fn copy_all<S: Source + Drop, O: Sink>(mut source: S, sink: &mut O) -> Result<u64, Failed> {
    copy(&mut source, sink)
}

/// What three readings of a clock answer.
pub fn next_three<C: Clock + Drop>(mut clock: C) -> [u32; 3] {
    [clock.now(), clock.now(), clock.now()]
}

/// The members, of so many, that three choices take for the first turn of a round; 0 each time where there is none.
pub fn first_three<K: Pick + Drop>(mut pick: K, members: u32) -> [u32; 3] {
    if members == 0 {
        return [0; 3];
    }
    [
        pick.first(members),
        pick.first(members),
        pick.first(members),
    ]
}

/// What crosses threads.
pub fn is_send<T: Send>(_value: &T) {}
