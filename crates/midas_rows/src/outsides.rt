use crate::rows::{Repeated, Row};
use daq_io::Outside;
use daq_mem::{FileFail, MemClock, MemFiles, MemPick, MemSink, MemSource};
use daq_types::{FileName, NoMemory};
use std::alloc::Global;

/// The outside in memory.
pub type MemOutside = Outside<MemSource, MemSink, MemFiles, MemFiles, MemClock, MemPick>;

/// How many files there may be.
const FILES: u32 = 8;

/// How many bytes the console takes.
const TEXT: usize = 10_000;

/// Adds a file with this name and the bytes of these parts.
fn add_file(
    alloc: Global,
    files: &mut MemFiles,
    name: &str,
    parts: &[&[u8]],
) -> Result<(), NoMemory> {
    let Ok(name) = FileName::new(name) else {
        return Ok(());
    };
    let mut bytes = Vec::new(alloc);
    for part in parts {
        bytes.extend_from_slice(part)?;
    }
    files.add(name, bytes)
}

/// Files of at most so many bytes, of which these calls fail.
fn files_of(alloc: Global, room: u64, fails: &[FileFail]) -> Result<MemFiles, NoMemory> {
    MemFiles::new(alloc, FILES, room, fails.to_vec(alloc)?)
}

/// The run files of a row.
fn run_files_of(alloc: Global, row: &Row) -> Result<MemFiles, NoMemory> {
    let mut files = files_of(alloc, row.room, row.run_fails)?;
    for (name, parts) in row.old_files {
        add_file(alloc, &mut files, name, parts)?;
    }
    Ok(files)
}

/// The files of the database of a row.
fn dumps_of(alloc: Global, row: &Row) -> Result<MemFiles, NoMemory> {
    let mut files = files_of(alloc, row.room, row.dump_fails)?;
    if let Some((name, text)) = row.dump {
        add_file(alloc, &mut files, name, &[text.as_bytes()])?;
    }
    Ok(files)
}

/// An empty console, of which these calls fail.
pub fn console(alloc: Global, fails: &[u64]) -> Result<MemSink, NoMemory> {
    MemSink::new(alloc, TEXT, fails.to_vec(alloc)?)
}

/// The bytes of the script of a row.
fn script_bytes(alloc: Global, row: &Row) -> Result<Vec<u8>, NoMemory> {
    let mut script = row.script.as_bytes().to_vec(alloc)?;
    if let Some(
        Repeated {
            line,
            times,
            behind,
        },
    ) = row.repeated
    {
        for _ in 0..times {
            script.extend_from_slice(line.as_bytes())?;
        }
        script.extend_from_slice(behind.as_bytes())?;
    }
    Ok(script)
}

/// The script of a row, of which the calls that it lists fail.
fn script_of(alloc: Global, row: &Row) -> Result<MemSource, NoMemory> {
    let fails = row.source_fails.to_vec(alloc)?;
    let script = script_bytes(alloc, row)?;
    Ok(MemSource::new(script, fails))
}

/// The script of a row, and the console.
fn streams_of(alloc: Global, row: &Row) -> Result<(MemSource, MemSink), NoMemory> {
    let src = script_of(alloc, row)?;
    let out = console(alloc, row.sink_fails)?;
    Ok((src, out))
}

/// The clock, and which members are first.
fn choices_of(alloc: Global, picks: &[u32]) -> Result<(MemClock, MemPick), NoMemory> {
    let clock = MemClock::new([1000, 1010, 1020, 1030].to_vec(alloc)?);
    let pick = MemPick::new(picks.to_vec(alloc)?);
    Ok((clock, pick))
}

/// The outside that the script of a row meets. Each of the picks names the member whose turn is first in a round; the last of them
/// names it in all further rounds, and where there is none it is the first member.
pub fn outside_of(alloc: Global, row: &Row, picks: &[u32]) -> Result<MemOutside, NoMemory> {
    let (src, out) = streams_of(alloc, row)?;
    let run_files = run_files_of(alloc, row)?;
    let odb_files = dumps_of(alloc, row)?;
    let (clock, pick) = choices_of(alloc, picks)?;
    Ok(Outside {
        src,
        out,
        run_files,
        odb_files,
        clock,
        pick,
    })
}
