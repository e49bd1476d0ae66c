//! Rows of each real object.
use crate::failing_disk::{FailingDisk, FailingStep, Interrupted};
use crate::objects::{
    append_twice_and_close, copy_all, first_three, is_made_and_appended, is_missing, is_send,
    is_there_and_removed, is_written_and_read, made_opened_and_removed, next_three,
};
use daq_io::{Failed, Files, NameRefused, write_all};
use daq_std::{RoundPick, StandardTaken, StdClock, StdFiles, StdSink, StdSource};
use daq_types::{FileName, NoMemory};
use std::alloc::Global;
use std::fs::Files as _;
use std::io::ErrorKind;
use std::os::fd::AsRawFd;
use std::test::Fail;
use std::{fs, rt};

/// Whether a file of the system has these bytes.
fn lies_there<R: AllocGlobal + rt::Files>(system: &R, path: &str, bytes: &[u8]) -> bool {
    match fs::read(system, path) {
        Ok(lies) => lies.as_slice() == bytes,
        Err(_) => false,
    }
}

/// The files of a folder, of which so many are in use at a time, at most.
fn files_in<R: rt::Files + Drop>(
    rt: HostRuntime,
    system: R,
    folder: &str,
    numbers: u32,
) -> Result<StdFiles<R>, Fail> {
    let taken = StandardTaken::take(&rt).ok_or(NoMemory)?;
    Ok(StdFiles::new(rt.alloc(), system, &taken, folder, numbers)?)
}

#[test]
fn files_of_a_folder(rt: HostRuntime) -> Result<(), Fail> {
    let folder = "files_of_a_folder";
    fs::create_dir(&rt, folder)?;
    let run = FileName::new("run00001.mid")?;
    let mut files = files_in(rt, rt, folder, 1)?;
    is_send(&files);
    assert!(rt; is_written_and_read(&mut files, &run));
    assert!(rt; lies_there(&rt, "files_of_a_folder/run00001.mid", b"MIDAS"));
    assert!(rt; is_there_and_removed(&mut files, &run));
    fs::remove_dir(&rt, folder)?;
    Ok(())
}

/// What making a file answers, and what opening it does.
fn made_and_opened<F: Files + Drop>(
    mut files: F,
    name: &FileName,
) -> (Result<u32, NameRefused>, Result<u32, NameRefused>) {
    (files.create(name), files.open_read(name))
}

#[test]
fn a_name_from_the_root(rt: HostRuntime) -> Result<(), Fail> {
    let folder = "a_name_from_the_root";
    fs::create_dir(&rt, folder)?;
    let device = FileName::new("/dev/null")?;
    let answers = made_and_opened(files_in(rt, rt, folder, 1)?, &device);
    assert!(rt;
        answers == (Err(NameRefused::Exists), Err(NameRefused::Failed)),
        "it is there, and no file"
    );
    let run = FileName::new("/proc/self/cwd/a_name_from_the_root/run00001.mid")?;
    let mut files = files_in(rt, rt, "/dev", 1)?;
    assert!(rt; is_written_and_read(&mut files, &run));
    assert!(rt; lies_there(&rt, "a_name_from_the_root/run00001.mid", b"MIDAS"));
    fs::remove_dir_all(&rt, folder)?;
    Ok(())
}

#[test]
fn a_pipe_is_no_file(rt: HostRuntime) -> Result<(), Fail> {
    let (reader, _writer) = rt.pipe()?;
    let number = reader.as_raw_fd();
    let path = format!(in rt.alloc(); "/proc/self/fd/{number}")?;
    let name = FileName::new(path.as_str())?;
    let answers = made_opened_and_removed(files_in(rt, rt, ".", 1)?, &name);
    assert!(rt;
        answers
            == (
                Err(NameRefused::Exists),
                Err(NameRefused::Failed),
                Err(Failed),
                Some(name),
            )
    );
    Ok(())
}

#[test]
fn a_folder_is_no_file(rt: HostRuntime) -> Result<(), Fail> {
    let folder = "a_folder_is_no_file";
    fs::create_dir(&rt, folder)?;
    fs::create_dir(&rt, "a_folder_is_no_file/part")?;
    let part = FileName::new("part")?;
    let answers = made_opened_and_removed(files_in(rt, rt, folder, 1)?, &part);
    assert!(rt;
        answers
            == (
                Err(NameRefused::Exists),
                Err(NameRefused::Failed),
                Err(Failed),
                Some(part),
            )
    );
    fs::remove_dir_all(&rt, folder)?;
    Ok(())
}

/// Whether a file is missing, which is no fault.
fn is_missing_without_fault<F: Files + Drop>(mut files: F, name: &FileName) -> bool {
    is_missing(&mut files, name) && files.first_fault().is_none()
}

#[test]
fn a_name_below_no_folder_is_missing(rt: HostRuntime) -> Result<(), Fail> {
    let folder = "a_name_below_no_folder_is_missing";
    fs::create_dir(&rt, folder)?;
    let name = FileName::new("no/run00001.mid")?;
    let files = files_in(rt, rt, folder, 1)?;
    assert!(rt; is_missing_without_fault(files, &name));
    fs::remove_dir(&rt, folder)?;
    Ok(())
}

/// Names in a folder with one file, and what a file's creation, opening and removal answer for each.
const REFUSED_NAMES: &[(&str, NameRefused, NameRefused, Result<(), Failed>)] = &[
    (
        "no/run00001.mid",
        NameRefused::Failed,
        NameRefused::Missing,
        Ok(()),
    ),
    (
        "run00001.mid/x",
        NameRefused::Failed,
        NameRefused::Failed,
        Err(Failed),
    ),
    (
        "/dev/null/x",
        NameRefused::Failed,
        NameRefused::Failed,
        Err(Failed),
    ),
];

#[test]
fn names_that_the_system_refuses(rt: HostRuntime) -> Result<(), Fail> {
    let folder = "names_that_the_system_refuses";
    fs::create_dir(&rt, folder)?;
    fs::create(&rt, "names_that_the_system_refuses/run00001.mid")?;
    for (text, created, opened, removed) in REFUSED_NAMES {
        let name = FileName::new(text)?;
        let files = files_in(rt, rt, folder, 1)?;
        let answers = made_opened_and_removed(files, &name);
        assert!(rt;
            answers == (Err(*created), Err(*opened), *removed, Some(name)),
            "{text}"
        );
    }
    fs::remove_dir_all(&rt, folder)?;
    Ok(())
}

/// A reason of the system, and what a file's creation, opening and removal answer for it.
type Reason = (ErrorKind, NameRefused, NameRefused, Result<(), Failed>);

const REASONS: &[Reason] = &[
    (
        ErrorKind::AlreadyExists,
        NameRefused::Exists,
        NameRefused::Failed,
        Err(Failed),
    ),
    (
        ErrorKind::NotFound,
        NameRefused::Failed,
        NameRefused::Missing,
        Ok(()),
    ),
    (
        ErrorKind::PermissionDenied,
        NameRefused::Failed,
        NameRefused::Failed,
        Err(Failed),
    ),
];

#[test]
fn reasons_of_the_system(rt: HostRuntime) -> Result<(), Fail> {
    let run = FileName::new("run00001.mid")?;
    for (kind, created, opened, removed) in REASONS {
        let step = FailingStep::Path(*kind);
        let files = files_in(rt, FailingDisk { step }, "runs", 1)?;
        let answers = made_opened_and_removed(files, &run);
        assert!(rt;
            answers == (Err(*created), Err(*opened), *removed, Some(run)),
            "{kind:?}"
        );
    }
    Ok(())
}

/// What fails, the step, the length of a second append, and which of two appends and a close answer that all went well.
const STEPS: &[(&str, FailingStep, usize, [bool; 3])] = &[
    ("nothing", FailingStep::Nothing, 65537, [true, true, true]),
    ("sync", FailingStep::Sync, 0, [true, true, false]),
    (
        "sync of the folder",
        FailingStep::FolderSync(ErrorKind::StorageFull),
        0,
        [true, true, false],
    ),
    (
        "sync of a folder, which that system does not have",
        FailingStep::FolderSync(ErrorKind::InvalidInput),
        0,
        [true, true, true],
    ),
    (
        "opening of the folder",
        FailingStep::Folder(ErrorKind::PermissionDenied),
        0,
        [true, true, false],
    ),
    ("write", FailingStep::SecondWrite, 0, [true, true, true]),
    (
        "write",
        FailingStep::SecondWrite,
        65536,
        [true, true, false],
    ),
    (
        "write",
        FailingStep::SecondWrite,
        65537,
        [true, false, false],
    ),
];

#[test]
fn steps_that_fail(rt: HostRuntime) -> Result<(), Fail> {
    let run = FileName::new("run00001.mid")?;
    let bytes = vec![in rt.alloc(); 0; 65537]?;
    for (fails, step, count, expected) in STEPS {
        let (second, _) = bytes.split_at(bytes.len().min(*count));
        let files = files_in(rt, FailingDisk { step: *step }, "runs", 1)?;
        let answer = append_twice_and_close(files, &run, b"MIDAS", second)?;
        let first_fault = if *expected == [true; 3] {
            None
        } else {
            Some(run)
        };
        assert!(rt; answer == (*expected, first_fault), "{fails} {count}");
    }
    Ok(())
}

#[test]
fn source_and_sink_of_the_system(rt: HostRuntime) -> Result<(), Fail> {
    let path = "source_and_sink_of_the_system";
    let source = StdSource::new(rt.alloc(), b"ok run 1\n".as_slice())?;
    let copied = copy_all(source, &mut StdSink::new(fs::create(&rt, path)?));
    assert!(rt; copied == Ok(9));
    assert!(rt; lies_there(&rt, path, b"ok run 1\n"));
    fs::remove_file(&rt, path)?;
    Ok(())
}

#[test]
fn choices_of_the_system(rt: HostRuntime) -> Result<(), Fail> {
    let [first, second, third] = next_three(StdClock::new(rt));
    assert!(rt; first > 1_700_000_000 && first <= second && second <= third);
    assert!(rt; first_three(RoundPick::new(), 2) == [0, 1, 0]);
    Ok(())
}

/// Makes a file for each number from 0 on, below so many, and appends a byte to it. Answers how many took the byte, and what
/// one file more answers.
fn many_at_once(
    alloc: Global,
    mut files: StdFiles<HostRuntime>,
    count: u32,
) -> Result<(u32, Result<u32, NameRefused>), Fail> {
    let mut taken: u32 = 0;
    for place in 0..count {
        let text = format!(in alloc; "run{place:05}.mid")?;
        let name = FileName::new(text.as_str())?;
        if is_made_and_appended(&mut files, &name) {
            taken = taken.saturating_add(1);
        }
    }
    Ok((taken, files.create(&FileName::new("behind")?)))
}

#[test]
fn seventeen_files_at_once(rt: HostRuntime) -> Result<(), Fail> {
    let folder = "seventeen_files_at_once";
    fs::create_dir(&rt, folder)?;
    let answers = many_at_once(rt.alloc(), files_in(rt, rt, folder, 17)?, 17)?;
    assert!(rt; answers == (17, Err(NameRefused::Failed)));
    fs::remove_dir_all(&rt, folder)?;
    Ok(())
}

#[test]
fn a_name_of_255_bytes(rt: HostRuntime) -> Result<(), Fail> {
    let folder = "a_name_of_255_bytes";
    fs::create_dir(&rt, folder)?;
    let name = FileName::from_bytes(&[b'r'; 255])?;
    let mut files = files_in(rt, rt, folder, 1)?;
    assert!(rt; is_written_and_read(&mut files, &name));
    fs::remove_dir_all(&rt, folder)?;
    Ok(())
}

#[test]
fn an_append_of_two_mebibytes(rt: HostRuntime) -> Result<(), Fail> {
    let folder = "an_append_of_two_mebibytes";
    fs::create_dir(&rt, folder)?;
    let run = FileName::new("run00001.mid")?;
    let bytes = vec![in rt.alloc(); b'M'; 2_097_152]?;
    let files = files_in(rt, rt, folder, 1)?;
    let answer = append_twice_and_close(files, &run, bytes.as_slice(), b"")?;
    assert!(rt; answer == ([true; 3], None));
    assert!(rt;
        lies_there(
            &rt,
            "an_append_of_two_mebibytes/run00001.mid",
            bytes.as_slice()
        )
    );
    fs::remove_dir_all(&rt, folder)?;
    Ok(())
}

#[test]
fn a_text_of_100_kibibytes(rt: HostRuntime) -> Result<(), Fail> {
    let path = "a_text_of_100_kibibytes";
    let text = vec![in rt.alloc(); b'M'; 102_400]?;
    let mut sink = StdSink::new(fs::create(&rt, path)?);
    assert!(rt; write_all(&mut sink, text.as_slice()) == Ok(()));
    assert!(rt; lies_there(&rt, path, text.as_slice()));
    fs::remove_file(&rt, path)?;
    Ok(())
}

#[test]
fn a_signal_is_no_fault(rt: HostRuntime) -> Result<(), Fail> {
    let source = StdSource::new(rt.alloc(), Interrupted { calls: 0 })?;
    let copied = copy_all(source, &mut StdSink::new(Interrupted { calls: 0 }));
    assert!(rt; copied == Ok(1), "each call is interrupted once");
    Ok(())
}
