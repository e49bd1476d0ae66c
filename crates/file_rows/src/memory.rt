//! Worked rows of the objects in memory.
use crate::objects::{
    copy_all, first_three, is_missing, is_send, is_there_and_removed, is_written_and_read,
    next_three, read_as_source, write_and_read,
};
use daq_io::{Failed, Files, Gate, NameRefused, Point, Sink, Source, write_all};
use daq_mem::{FileFail, FileOp, MemClock, MemFiles, MemPick, MemSink, MemSource};
use daq_std::NoGate;
use daq_types::{FileName, NoMemory};
use std::alloc::Global;
use std::test::Fail;

fn pass<G: Gate + Sync>(gate: &G) {
    gate.at(0, Point::BeforeSend);
}

/// What copying a text answers to a sink that has room for no more, and writing a line end behind it; and whether the sink
/// has that text then.
fn copy_and_write(
    alloc: Global,
    text: &[u8],
) -> Result<(Result<u64, Failed>, Result<usize, Failed>, bool), NoMemory> {
    let source = MemSource::new(text.to_vec(alloc)?, Vec::new(alloc));
    let mut sink = MemSink::new(alloc, 8, Vec::new(alloc))?;
    let copied = copy_all(source, &mut sink);
    let behind = sink.write(b"\n");
    Ok((copied, behind, sink.bytes() == text))
}

#[test]
fn source_and_sink_in_memory(rt: HostRuntime) -> Result<(), Fail> {
    let (copied, behind, has_text) = copy_and_write(rt.alloc(), b"events 3")?;
    assert!(rt; copied == Ok(8));
    assert!(rt; behind == Err(Failed), "no room is left");
    assert!(rt; has_text);
    Ok(())
}

/// What four readings of up to four bytes answer.
fn four_readings(mut source: MemSource) -> [Result<usize, Failed>; 4] {
    let mut piece = [0; 4];
    [
        source.read(&mut piece),
        source.read(&mut piece),
        source.read(&mut piece),
        source.read(&mut piece),
    ]
}

#[test]
fn a_listed_reading_fails_and_takes_nothing(rt: HostRuntime) -> Result<(), Fail> {
    let alloc = rt.alloc();
    let fails = vec![in alloc; 1]?;
    let source = MemSource::new(b"start".to_vec(alloc)?, fails);
    assert!(rt; four_readings(source) == [Ok(4), Err(Failed), Ok(1), Ok(0)]);
    Ok(())
}

/// What the writing of these three texts answers.
fn three_writings(sink: &mut MemSink) -> [Result<(), Failed>; 3] {
    [
        write_all(sink, b"a"),
        write_all(sink, b"bc"),
        write_all(sink, b"d"),
    ]
}

#[test]
fn listed_writings_fail(rt: HostRuntime) -> Result<(), Fail> {
    let alloc = rt.alloc();
    let mut sink = MemSink::new(alloc, 8, vec![in alloc; 0, 2]?)?;
    assert!(rt; three_writings(&mut sink) == [Err(Failed), Ok(()), Err(Failed)]);
    assert!(rt; sink.bytes() == b"bc".as_slice());
    Ok(())
}

#[test]
fn files_in_memory(rt: HostRuntime) -> Result<(), Fail> {
    let run = FileName::new("run00001.mid")?;
    let mut files = MemFiles::new(rt.alloc(), 2, 8, Vec::new(rt.alloc()))?;
    is_send(&files);
    assert!(rt; is_written_and_read(&mut files, &run));
    assert!(rt; (files.find(&run), files.is_closed(&run)) == (Some(b"MIDAS".as_slice()), true));
    assert!(rt; is_there_and_removed(&mut files, &run));
    assert!(rt; files.find(&run).is_none());
    Ok(())
}

/// Room for so many files, with one of this name and these bytes.
fn files_with(
    alloc: Global,
    count: u32,
    name: FileName,
    bytes: &[u8],
) -> Result<MemFiles, NoMemory> {
    let bytes = bytes.to_vec(alloc)?;
    let mut files = MemFiles::new(alloc, count, 8, Vec::new(alloc))?;
    files.add(name, bytes)?;
    Ok(files)
}

#[test]
fn a_file_that_is_there_from_the_first(rt: HostRuntime) -> Result<(), Fail> {
    let dump = FileName::new("all.odb")?;
    let other = FileName::new("run00001.mid")?;
    let mut files = files_with(rt.alloc(), 2, dump, b"[/]")?;
    assert!(rt; is_missing(&mut files, &other));
    assert!(rt; files.find(&dump) == Some(b"[/]".as_slice()));
    Ok(())
}

/// Makes a file of three bytes: what appending two more answers, for which there is no room, and what making a second
/// file answers.
fn overfill<F: Files>(
    files: &mut F,
    first: &FileName,
    second: &FileName,
) -> Result<(Result<(), Failed>, Result<u32, NameRefused>), NameRefused> {
    let number = files.create(first)?;
    files.append(number, b"abc")?;
    let appended = files.append(number, b"de");
    files.close(number)?;
    Ok((appended, files.create(second)))
}

/// What came of files that have room for one file of four bytes.
#[derive(Drop)]
struct Overfilled {
    answers: Result<(Result<(), Failed>, Result<u32, NameRefused>), NameRefused>,
    /// Whether the first file has its first three bytes alone.
    has_first_bytes: bool,
    first_fault: Option<FileName>,
}

/// Puts more into new files than they have room for.
fn overfill_new(
    alloc: Global,
    first: &FileName,
    second: &FileName,
) -> Result<Overfilled, NoMemory> {
    let mut files = MemFiles::new(alloc, 1, 4, Vec::new(alloc))?;
    let answers = overfill(&mut files, first, second);
    Ok(Overfilled {
        answers,
        has_first_bytes: files.find(first) == Some(b"abc".as_slice()),
        first_fault: files.first_fault(),
    })
}

#[test]
fn what_does_not_fit_is_a_fault(rt: HostRuntime) -> Result<(), Fail> {
    let first = FileName::new("run00001.mid")?;
    let second = FileName::new("run00002.mid")?;
    let came = overfill_new(rt.alloc(), &first, &second)?;
    assert!(rt; came.answers == Ok((Err(Failed), Err(NameRefused::Failed))));
    assert!(rt; came.has_first_bytes, "nothing of the new bytes");
    assert!(rt; came.first_fault == Some(first));
    Ok(())
}

/// What making a file of three bytes and reading it answer, and the first fault behind that.
fn tried<F: Files + Drop>(
    mut files: F,
    name: &FileName,
) -> (Result<usize, NameRefused>, Option<FileName>) {
    let answer = write_and_read(&mut files, name, b"abc", &mut [0; 4]);
    (answer, files.first_fault())
}

#[test]
fn listed_calls_on_files_fail(rt: HostRuntime) -> Result<(), Fail> {
    let alloc = rt.alloc();
    let run = FileName::new("run00001.mid")?;
    for op in &[
        FileOp::Create,
        FileOp::Append,
        FileOp::Close,
        FileOp::OpenRead,
        FileOp::Read,
    ] {
        let fails = vec![in alloc; FileFail { op: *op, call: 0 }]?;
        let told = tried(MemFiles::new(alloc, 1, 4, fails)?, &run);
        assert!(rt; told == (Err(NameRefused::Failed), Some(run)), "{op:?}");
    }
    Ok(())
}

#[test]
fn choices_in_memory(rt: HostRuntime) -> Result<(), Fail> {
    let alloc = rt.alloc();
    let times = next_three(MemClock::new(vec![in alloc; 1000, 1010]?));
    assert!(rt; times == [1000, 1010, 1010]);
    assert!(rt; next_three(MemClock::new(Vec::new(alloc))) == [0, 0, 0]);
    let picks = first_three(MemPick::new(vec![in alloc; 7, 2]?), 3);
    assert!(rt; picks == [1, 2, 2]);
    pass(&NoGate);
    Ok(())
}

#[test]
fn one_file_as_a_source(rt: HostRuntime) -> Result<(), Fail> {
    let run = FileName::new("run00001.mid")?;
    let files = files_with(rt.alloc(), 1, run, b"MIDAS")?;
    let answers = read_as_source(files, &run);
    assert!(rt; answers == Ok(([Ok(5), Ok(0)], *b"MIDAS\0\0\0", true)));
    Ok(())
}
