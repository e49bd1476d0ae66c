ghost use Rattle.std.specs.Prelude.{◌≡◌, ◌<◌, ◌↔◌, [], Result, IsTrue, IsSome, IsNone, IfOk, OnOk, OnErr, IsOk, IsErrOf, length, take};
ghost use Rattle.std.specs.Io.{ReadsAtMost};
ghost use Rattle.daq_io.specs.Counts.{CountsFault, CountsNamed, CountsClash, NamesFirst, NamesFirstOf, RoseJustBy};
ghost use Rattle.daq_io.specs.Seen.{Same, Creates, Extends, ExtendsPart, Closes, Removes, Opens, Reads, Ends, InUse, close_state};
ghost use Rattle.daq_io.specs.Told.{FilesTold};

use crate::faults::Failed;
use daq_types::FileName;

/// Why a file was not created or opened.
#[derive(Clone, Copy, Debug, PartialEq, Eq)]
pub enum NameRefused {
    /// The name is taken. The count of clashes rose.
    Exists,
    /// There is no file of that name. The count of clashes rose.
    Missing,
    /// The call failed. The count of faults rose.
    Failed,
}

/// Where a file stands that is written.
#[derive(Clone, Copy, Debug, PartialEq, Eq)]
pub enum FileState {
    /// It is being written.
    Open,
    /// It was closed, and the outside answered that it has all of it.
    Closed,
    /// The call that closed it failed. What of it reached the outside is not known.
    InVain,
}

/// Files that are written once from front to back, or read so. A file in use goes by a number.
pub trait Files {
    /// What is told of names, bytes and numbers, and the counts of calls that failed or met a clash of names.
    ghost told: { Self → FilesTold };

    /// Makes a file and answers the number under which it is written. Never takes over a file that is there.
    fn create(&mut self, name: &FileName) -> Result<u32, NameRefused>
        ensures made { IfOk result (λ number. Creates (told self.old).seen (told self.new).seen name.now
            number []) }
        ensures kept { OnErr result (Same (told self.old).seen (told self.new).seen) }
        ensures exists { IsTrue (told self.old).seen.names → (IsErrOf result NameRefused.Exists
            ↔ IsSome ((told self.old).seen.at name.now)) }
        ensures not_missing { ¬ IsErrOf result NameRefused.Missing }
        ensures faults { CountsNamed (told self.old).faults (told self.new).faults result }
        ensures clashes { CountsClash (told self.old).clashes (told self.new).clashes result }
        ensures bytes_read { (told self.new).bytes_read ≡ (told self.old).bytes_read }
        ensures first { NamesFirstOf name.now (told self.old).first (told self.new).first result };

    /// Appends the bytes to the file of this number. A failed call may have appended the front of them.
    fn append(&mut self, file: u32, bytes: &[u8]) -> Result<(), Failed>
        requires { IsTrue ((told self.old).seen.writes file) }
        ensures written { OnOk result (Extends (told self.old).seen (told self.new).seen file bytes.now) }
        ensures part { OnErr result (ExtendsPart (told self.old).seen (told self.new).seen file bytes.now) }
        ensures faults { CountsFault (told self.old).faults (told self.new).faults result }
        ensures clashes { (told self.new).clashes ≡ (told self.old).clashes }
        ensures bytes_read { (told self.new).bytes_read ≡ (told self.old).bytes_read }
        ensures first { NamesFirst ((told self.old).seen.name_of file) (told self.old).first
            (told self.new).first result };

    /// Ends the use of this number, also where the call fails. A file that was written is then closed, whole or in vain.
    fn close(&mut self, file: u32) -> Result<(), Failed>
        requires { InUse (told self.old).seen file }
        ensures written { IsTrue ((told self.old).seen.writes file)
            → Closes (told self.old).seen (told self.new).seen file (close_state result) [] }
        ensures read { IsTrue ((told self.old).seen.reads file)
            → Ends (told self.old).seen (told self.new).seen file }
        ensures faults { CountsFault (told self.old).faults (told self.new).faults result }
        ensures clashes { (told self.new).clashes ≡ (told self.old).clashes }
        ensures bytes_read { (told self.new).bytes_read ≡ (told self.old).bytes_read }
        ensures first { NamesFirst ((told self.old).seen.name_of file) (told self.old).first
            (told self.new).first result };

    /// Removes the file of this name. Where there is none, nothing happens and the answer is Ok.
    fn remove(&mut self, name: &FileName) -> Result<(), Failed>
        ensures removed { OnOk result (Removes (told self.old).seen (told self.new).seen name.now) }
        ensures kept { OnErr result (Same (told self.old).seen (told self.new).seen) }
        ensures absent { IsTrue (told self.old).seen.names → IsNone ((told self.old).seen.at name.now)
            → IsOk result }
        ensures faults { CountsFault (told self.old).faults (told self.new).faults result }
        ensures clashes { (told self.new).clashes ≡ (told self.old).clashes }
        ensures bytes_read { (told self.new).bytes_read ≡ (told self.old).bytes_read }
        ensures first { NamesFirst name.now (told self.old).first (told self.new).first result };

    /// Opens a file and answers the number under which it is read, from its first byte on. The bytes are those that
    /// the file has now.
    fn open_read(&mut self, name: &FileName) -> Result<u32, NameRefused>
        ensures opened { IfOk result (λ number. Opens (told self.old).seen (told self.new).seen name.now
            number []) }
        ensures kept { OnErr result (Same (told self.old).seen (told self.new).seen) }
        ensures missing { IsTrue (told self.old).seen.names → (IsErrOf result NameRefused.Missing
            ↔ IsNone ((told self.old).seen.at name.now)) }
        ensures not_exists { ¬ IsErrOf result NameRefused.Exists }
        ensures faults { CountsNamed (told self.old).faults (told self.new).faults result }
        ensures clashes { CountsClash (told self.old).clashes (told self.new).clashes result }
        ensures bytes_read { (told self.new).bytes_read ≡ (told self.old).bytes_read }
        ensures first { NamesFirstOf name.now (told self.old).first (told self.new).first result };

    /// Reads into the front of `into` and answers how many bytes. No byte, where `into` has room, is the end of the
    /// file, and comes exactly there where the bytes are told.
    fn read(&mut self, file: u32, into: &mut [u8]) -> Result<usize, Failed>
        requires { IsTrue ((told self.old).seen.reads file) }
        ensures within { ReadsAtMost result into.new }
        ensures bytes { IfOk result (λ count. Reads (told self.old).seen (told self.new).seen file
            (take count into.new)) }
        ensures end { IfOk result (λ count. IsTrue (told self.old).seen.names → count ≡ 0 → 0
            < length into.new → (told self.new).seen.left file ≡ []) }
        ensures kept { OnErr result (Same (told self.old).seen (told self.new).seen) }
        ensures faults { CountsFault (told self.old).faults (told self.new).faults result }
        ensures clashes { (told self.new).clashes ≡ (told self.old).clashes }
        ensures bytes_read { IfOk result (λ count. IsTrue (told self.old).seen.names → RoseJustBy count
            (told self.old).bytes_read (told self.new).bytes_read) }
        ensures none_read { OnErr result ((told self.new).bytes_read ≡ (told self.old).bytes_read) }
        ensures first { NamesFirst ((told self.old).seen.name_of file) (told self.old).first
            (told self.new).first result };

    /// The name of the file of the first fault that this object counted.
    fn first_fault(&self) -> Option<FileName>
        ensures name { result ≡ (told self.now).first }
        ensures none { IsNone result ↔ ((told self.now).faults ≡ 0) };
}
