//! A system in memory whose calls on files fail at one step.
use std::alloc::Allocator;
use std::fs::{Metadata, OpenFile, OpenOptions};
use std::io;
use std::io::{Empty, Error, ErrorKind, Read, Seek, SeekFrom, Write};
use std::rt::Files;

/// The step that fails.
#[derive(Clone, Copy, Drop)]
pub enum FailingStep {
    /// Nothing fails.
    Nothing,
    /// Each call with a path fails for this reason.
    Path(ErrorKind),
    /// Each write to a file but its first.
    SecondWrite,
    /// Putting a file on the disk.
    Sync,
    /// Opening a folder fails for this reason.
    Folder(ErrorKind),
    /// Putting a folder on the disk fails for this reason.
    FolderSync(ErrorKind),
}

/// A system whose files take bytes and forget them.
#[derive(Drop)]
pub struct FailingDisk {
    pub step: FailingStep,
}

/// A file of such a system.
#[derive(Drop)]
pub struct FailingFile {
    step: FailingStep,
    is_folder: bool,
    was_written: bool,
}

/// A stream of which each call is interrupted once by a signal. It has one byte, and takes all bytes.
#[derive(Drop)]
pub struct Interrupted {
    pub calls: u32,
}

impl Interrupted {
    /// Whether this call is interrupted, and how many were not.
    fn next_call(&mut self) -> Option<u32> {
        let call = self.calls;
        self.calls = call.saturating_add(1);
        if call % 2 == 0 { None } else { Some(call / 2) }
    }
}

impl Read for Interrupted {
    fn read(&mut self, buf: &mut [u8]) -> io::Result<usize> {
        match self.next_call() {
            None => Err(Error::from(ErrorKind::Interrupted)),
            Some(0) if !buf.is_empty() => Ok(1),
            Some(_) => Ok(0),
        }
    }
}

impl Write for Interrupted {
    fn write(&mut self, buf: &[u8]) -> io::Result<usize> {
        match self.next_call() {
            None => Err(Error::from(ErrorKind::Interrupted)),
            Some(_) => Ok(buf.len()),
        }
    }

    fn flush(&mut self) -> io::Result<()> {
        Ok(())
    }
}

fn unsupported<T>() -> io::Result<T> {
    Err(Error::from(ErrorKind::Unsupported))
}

impl Read for FailingFile {
    fn read(&mut self, _buf: &mut [u8]) -> io::Result<usize> {
        Ok(0)
    }
}

impl Write for FailingFile {
    fn write(&mut self, buf: &[u8]) -> io::Result<usize> {
        if matches!(self.step, FailingStep::SecondWrite) && self.was_written {
            return Err(Error::from(ErrorKind::StorageFull));
        }
        self.was_written = true;
        Ok(buf.len())
    }

    fn flush(&mut self) -> io::Result<()> {
        Ok(())
    }
}

impl Seek for FailingFile {
    fn seek(&mut self, _to: SeekFrom) -> io::Result<u64> {
        unsupported()
    }
}

impl OpenFile for FailingFile {
    fn metadata(&self) -> io::Result<Metadata> {
        Ok(Metadata::of_file(0))
    }

    fn set_len(&self, _size: u64) -> io::Result<()> {
        unsupported()
    }

    fn sync_all(&self) -> io::Result<()> {
        match self.step {
            FailingStep::Sync => Err(Error::from(ErrorKind::StorageFull)),
            FailingStep::FolderSync(kind) if self.is_folder => Err(Error::from(kind)),
            _ => Ok(()),
        }
    }

    fn sync_data(&self) -> io::Result<()> {
        unsupported()
    }
}

impl Files for FailingDisk {
    type File = FailingFile;

    type Dir = Empty;

    fn open_file(&self, _how: &OpenOptions, path: &str) -> io::Result<FailingFile> {
        let is_folder = path.as_bytes().last() == Some(&b'/');
        match self.step {
            FailingStep::Path(kind) => Err(Error::from(kind)),
            FailingStep::Folder(kind) if is_folder => Err(Error::from(kind)),
            step => Ok(FailingFile {
                step,
                is_folder,
                was_written: false,
            }),
        }
    }

    fn open_dir(&self, _path: &str) -> io::Result<Empty> {
        unsupported()
    }

    fn metadata(&self, _path: &str) -> io::Result<Metadata> {
        match self.step {
            FailingStep::Path(kind) => Err(Error::from(kind)),
            _ => Ok(Metadata::of_file(0)),
        }
    }

    fn symlink_metadata(&self, _path: &str) -> io::Result<Metadata> {
        unsupported()
    }

    fn copy(&self, _from: &str, _to: &str) -> io::Result<u64> {
        unsupported()
    }

    fn rename(&self, _from: &str, _to: &str) -> io::Result<()> {
        unsupported()
    }

    fn remove_file(&self, _path: &str) -> io::Result<()> {
        match self.step {
            FailingStep::Path(kind) => Err(Error::from(kind)),
            _ => Ok(()),
        }
    }

    fn create_dir(&self, _path: &str) -> io::Result<()> {
        unsupported()
    }

    fn remove_dir(&self, _path: &str) -> io::Result<()> {
        unsupported()
    }

    fn remove_dir_all<B: Allocator>(&self, _alloc: B, _path: &str) -> io::Result<()> {
        unsupported()
    }
}
