ghost use Rattle.std.specs.Prelude.{◌≡◌, [], Some, IsTrue};
ghost use Rattle.daq_io.specs.Seen.{KeepsFiles, KeepsOthers};
ghost use Rattle.daq_io.specs.FileLeft.{ReadsFirst, told_left};

use crate::faults::Failed;
use crate::folder::Files;
use crate::streams::Source;
use crate::traces::ByteTrace;
use std::marker::Model;
use std::snapshot::Snapshot;

/// A source over one of several files. It owns them while it reads.
#[derive(Drop)]
pub struct FileSource<F: Files> {
    files: F,
    number: u32,
    first: Snapshot<F>,
    gave: ByteTrace,
}

impl<F: Files> Model for FileSource<F> {
    ghost use Rattle.daq_io.specs.FileLeft.{OneFile, IsOneRead};

    ghost Value = { OneFile F };

    ghost view = { λ s. record { files = s.files; number = s.number; first = s.first.value; gave = s.gave } };

    // What else the files tell is as it was when the source was made.
    ghost invariant = { λ s. IsOneRead (F.told s.first.value).seen (F.told s.files).seen s.number
        (F.told s.first.value).bytes_read (F.told s.files).bytes_read };
}

impl<F: Files> FileSource<F> {
    /// A source of the bytes left of this file, which is in use for reading.
    pub fn new(files: F, file: u32) -> FileSource<F>
        requires { IsTrue ((F.told files).seen.reads file) }
        ensures value { result ≡ record { files = files; number = file; first = files; gave = [] } }
        ensures left { (⟦<FileSource<F> as Source>⟧.told result).left ≡ told_left (F.told files).seen file }
        ensures gave { (⟦<FileSource<F> as Source>⟧.told result).gave ≡ [] }
        ensures faults { (⟦<FileSource<F> as Source>⟧.told result).faults ≡ (F.told files).faults }
        ensures origin { (⟦<FileSource<F> as Source>⟧.told result).origin
            ≡ Some (record
            { files = (F.told files).seen; bytes_read = (F.told files).bytes_read; number = file }) }
    {
        let first = Snapshot::of(&files);
        FileSource {
            files,
            number: file,
            first,
            gave: ByteTrace::new(),
        }
    }

    /// The number under which the file is read.
    pub fn file(&self) -> u32
        ensures { result ≡ self.now.number }
    {
        self.number
    }

    /// The files, with what is left of the one that was read. Nothing else of them has changed since the source was made.
    pub fn into_files(self) -> F
        ensures files { result ≡ self.files }
        ensures reading { IsTrue ((F.told result).seen.reads self.number) }
        ensures kept { KeepsFiles (F.told self.first).seen (F.told result).seen }
        ensures others { KeepsOthers (F.told self.first).seen (F.told result).seen self.number }
        ensures front { IsTrue (F.told self.first).seen.names → ReadsFirst (F.told self.first).seen
            (F.told result).seen self.number (F.told self.first).bytes_read (F.told result).bytes_read }
    {
        let FileSource {
            files,
            number: _,
            first: _,
            gave: _,
        } = self;
        files
    }
}

impl<F: Files> Source for FileSource<F> {
    ghost told = { λ s. record {
      left = told_left (F.told s.files).seen s.number;
      gave = s.gave;
      faults = (F.told s.files).faults;
      at_hand = [];
      origin = Some (record {
        files = (F.told s.first).seen;
        bytes_read = (F.told s.first).bytes_read;
        number = s.number;
      });
    } };

    fn read(&mut self, into: &mut [u8]) -> Result<usize, Failed> {
        let count = self.files.read(self.number, into)?;
        self.gave.more(into, count);
        Ok(count)
    }
}
