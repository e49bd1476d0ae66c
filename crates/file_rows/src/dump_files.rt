//! Files of the online database that are written and read back, and the reply where a call fails or a name clashes.
use daq_io::Files;
use daq_mem::{FileFail, FileOp, MemFiles};
use daq_types::{FileName, NoMemory};
use odb_commands::{FileRead, FileReplies, FileReply, read_file, write_file};
use std::alloc::Global;
use std::test::Fail;

/// The name of the file.
fn dump_name() -> FileName {
    match FileName::new("a.odb") {
        Ok(name) => name,
        Err(_) => unreachable!(),
    }
}

/// Whether the file of this name is read with this reply, and where it is, with these bytes.
fn reads<E: Files>(
    alloc: Global,
    files: &mut E,
    wanted: FileReply,
    bytes: &[u8],
) -> Result<bool, NoMemory> {
    let read = read_file(alloc, files, &dump_name())?;
    let same = match &read {
        FileRead::Whole { text } => text.as_slice() == bytes,
        FileRead::Missing | FileRead::Fault | FileRead::TooLong => true,
    };
    Ok(same && read.reply() == wanted)
}

/// What the writing of these bytes answers, and whether the file then is that of one empty directory.
fn write_and_read<E: Files>(
    alloc: Global,
    files: &mut E,
    bytes: &[u8],
) -> Result<(FileReply, bool), NoMemory> {
    let reply = write_file(files, &dump_name(), bytes);
    Ok((reply, reads(alloc, files, FileReply::Done, b"[/A]\n\n")?))
}

/// Whether no file is there, and then what two writings answer.
type WrittenTwice = (bool, (FileReply, bool), (FileReply, bool));

/// Looks for the file, and writes it twice.
fn read_and_write_twice<E: Files>(alloc: Global, files: &mut E) -> Result<WrittenTwice, NoMemory> {
    let found = reads(alloc, files, FileReply::Clash, b"")?;
    let written = write_and_read(alloc, files, b"[/A]\n\n")?;
    let again = write_and_read(alloc, files, b"x")?;
    Ok((found, written, again))
}

/// The same in new files, and whether the file is closed behind that.
fn write_twice_and_close(alloc: Global) -> Result<(WrittenTwice, bool), NoMemory> {
    let mut files = MemFiles::new(alloc, 2, 1000, Vec::new(alloc))?;
    let answers = read_and_write_twice(alloc, &mut files)?;
    Ok((answers, files.is_closed(&dump_name())))
}

#[test]
fn written_and_read_back(rt: HostRuntime) -> Result<(), Fail> {
    let ((found, written, again), is_closed) = write_twice_and_close(rt.alloc())?;
    assert!(rt; found, "no file is there");
    assert!(rt; written == (FileReply::Done, true));
    assert!(rt; again == (FileReply::Clash, true));
    assert!(rt; is_closed);
    Ok(())
}

/// What the writing of a file and its reading answer.
fn written_and_read<E: Files + Drop>(
    alloc: Global,
    mut files: E,
) -> Result<(FileReply, FileReply), NoMemory> {
    let written = write_file(&mut files, &dump_name(), b"text");
    let read = read_file(alloc, &mut files, &dump_name())?;
    Ok((written, read.reply()))
}

#[test]
fn each_call_fails_once(rt: HostRuntime) -> Result<(), Fail> {
    let alloc = rt.alloc();
    for (op, written, read) in &[
        (FileOp::Create, FileReply::Fault, FileReply::Clash),
        (FileOp::Append, FileReply::Fault, FileReply::Done),
        (FileOp::Close, FileReply::Fault, FileReply::Done),
        (FileOp::OpenRead, FileReply::Done, FileReply::Fault),
        (FileOp::Read, FileReply::Done, FileReply::Fault),
    ] {
        let fails = vec![in alloc; FileFail { op: *op, call: 0 }]?;
        let answers = written_and_read(alloc, MemFiles::new(alloc, 2, 1000, fails)?)?;
        assert!(rt; answers == (*written, *read), "{op:?}");
    }
    Ok(())
}

#[test]
fn replies_by_line(rt: HostRuntime) -> Result<(), Fail> {
    let mut replies = FileReplies::new(rt.alloc(), 1)?;
    replies.push(3, FileReply::Done);
    replies.reserve(2)?;
    replies.push(7, FileReply::Clash);
    let two = [(3, FileReply::Done), (7, FileReply::Clash)];
    assert!(rt; (replies.len(), replies.get(0)) == (2, Some(&two[0])));
    assert!(rt; replies.as_slice() == two.as_slice());
    assert!(rt; replies.pop() == Some(two[1]));
    assert!(rt; replies.as_slice() == &two[..1]);
    assert!(rt; FileReplies::empty(rt.alloc()).pop().is_none());
    Ok(())
}

#[test]
fn a_reply_is_changed_in_its_place(rt: HostRuntime) -> Result<(), Fail> {
    let mut replies = FileReplies::new(rt.alloc(), 1)?;
    replies.push(3, FileReply::Done);
    if let Some(entry) = replies.get_mut(0) {
        *entry = (4, FileReply::Clash);
    }
    assert!(rt; replies.as_slice() == [(4, FileReply::Clash)].as_slice());
    assert!(rt; replies.get_mut(1).is_none());
    Ok(())
}
