ghost use Rattle.std.specs.Prelude.{◌≡◌, IfOk, IfErr, IsTrue};
ghost use Rattle.daq_io.specs.Counts.{CountsFault};
ghost use Rattle.daq_io.specs.FileLeft.{ReadsFirst};
ghost use Rattle.daq_io.specs.Seen.{Ends, Same};
ghost use Rattle.midas_tools.specs.Findings.{IsFileOpened, RefusesFile};

use daq_io::{Failed, FileSource, Files, NameRefused};
use daq_types::FileName;

/// Why a file was not opened.
#[derive(Clone, Copy, Debug, PartialEq, Eq)]
pub enum Refused {
    /// Its name ends as those of compressed files do. It was not looked for.
    NameCompressed,
    /// There is no file of that name.
    NameMissing,
    /// The call on the files failed.
    OpenFailed,
}

/// Opens the file of this name. Hands the files back where it does not.
pub fn open<F: Files>(mut files: F, name: &FileName) -> Result<FileSource<F>, (Refused, F)>
    ensures opened { IfOk result (λ source. IsFileOpened (F.told files).seen (F.told source.files).seen
        name.now source.number) }
    ensures first { IfOk result (λ source. source.first ≡ source.files) }
    ensures faults { IfOk result (λ source. (F.told source.files).faults ≡ (F.told files).faults) }
    ensures bytes_read { IfOk result (λ source. (F.told source.files).bytes_read ≡ (F.told files).bytes_read) }
    ensures none_read { IfErr result (λ r. (F.told r.1).bytes_read ≡ (F.told files).bytes_read) }
    ensures refused { IfErr result (λ r. RefusesFile (F.told files).seen name.now (F.told files).faults
        (F.told r.1).faults (F.told files).clashes (F.told r.1).clashes r.0) }
    ensures same { IfErr result (λ r. Same (F.told files).seen (F.told r.1).seen) }
{
    if name.compressed() {
        return Err((Refused::NameCompressed, files));
    }
    match files.open_read(name) {
        Ok(number) => Ok(FileSource::new(files, number)),
        Err(NameRefused::Missing) => Err((Refused::NameMissing, files)),
        Err(NameRefused::Failed) => Err((Refused::OpenFailed, files)),
        Err(NameRefused::Exists) => unreachable!(),
    }
}

/// Closes the file that was read, and gives the files back.
pub fn close<F: Files>(source: FileSource<F>) -> (Result<(), Failed>, F)
    ensures ended { Ends (F.told source.first).seen (F.told result.1).seen source.number }
    ensures front { IsTrue (F.told source.first).seen.names → ReadsFirst (F.told source.first).seen
        (F.told source.files).seen source.number (F.told source.first).bytes_read (F.told result.1).bytes_read }
    ensures faults { CountsFault (F.told source.files).faults (F.told result.1).faults result.0 }
{
    let number = source.file();
    let mut files = source.into_files();
    let closed = files.close(number);
    (closed, files)
}
