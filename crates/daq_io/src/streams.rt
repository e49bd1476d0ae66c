ghost use Rattle.std.specs.Prelude.{◌≡◌, ◌<◌, [], IfOk, OnOk, OnErr, length, min, take};
ghost use Rattle.std.specs.Io.{ReadsAtMost, WritesAtMost};
ghost use Rattle.std.specs.Io.KnownBytes.{Appends, ReadConsumes, WriteAppends};
ghost use Rattle.daq_io.specs.Counts.{CountsFault};
ghost use Rattle.daq_io.specs.Streams.{AppendsPart, GaveRead, LeavesOver};
ghost use Rattle.daq_io.specs.Told.{SinkTold, SourceTold};

use crate::faults::Failed;

/// Bytes to read, such as standard input.
pub trait Source {
    /// What is left, what the reads gave, what is at hand, where the bytes come from, and how many calls have failed.
    ghost told: { Self → SourceTold };

    /// Reads into the front of `into` and answers how many bytes. No byte, where `into` has room, is the end of the
    /// input, and comes exactly there where the bytes are told.
    fn read(&mut self, into: &mut [u8]) -> Result<usize, Failed>
        ensures within { ReadsAtMost result into.new }
        // The bytes read are the first of those left. None at all means the end, and a failure reads nothing.
        ensures bytes { ReadConsumes (told self.old).left (told self.new).left result into.new }
        ensures gave { GaveRead (told self.old).gave (told self.new).gave result into.new }
        ensures faults { CountsFault (told self.old).faults (told self.new).faults result }
        // Where bytes lie at hand, none have to be read to give them.
        ensures at_hand { OnErr result ((told self.new).at_hand ≡ []) }
        ensures origin { (told self.new).origin ≡ (told self.old).origin };
}

/// A place for bytes, such as standard output.
pub trait Sink {
    /// The bytes written, where the sink tells them, and how many calls have failed.
    ghost told: { Self → SinkTold };

    /// Writes the front of `bytes` and answers how many bytes, at least one where there is one.
    fn write(&mut self, bytes: &[u8]) -> Result<usize, Failed>
        ensures within { WritesAtMost result bytes.now }
        ensures some { IfOk result (λ count. 0 < length bytes.now → 0 < count) }
        // The bytes written are appended, and a failure writes nothing.
        ensures bytes { WriteAppends (told self.old).written (told self.new).written result bytes.now }
        ensures faults { CountsFault (told self.old).faults (told self.new).faults result };
}

/// Writes all of `bytes`. After a failure the front of them was written, and never all of them.
pub fn write_all<O: Sink>(out: &mut O, bytes: &[u8]) -> Result<(), Failed>
    ensures all { OnOk result (Appends (O.told out.old).written (O.told out.new).written bytes.now) }
    ensures part { OnErr result (AppendsPart (O.told out.old).written (O.told out.new).written bytes.now) }
    ensures short { OnErr result (LeavesOver (O.told out.old).written (O.told out.new).written bytes.now) }
    ensures faults { CountsFault (O.told out.old).faults (O.told out.new).faults result }
{
    let mut rest = bytes;
    while !rest.is_empty() {
        let count = out.write(rest)?;
        let (_, behind) = rest.split_at(count);
        rest = behind;
    }
    Ok(())
}

/// Copies the front of `from` to the front of `into`, as far as both go, and answers how many bytes that is.
pub fn copy_front(from: &[u8], into: &mut [u8]) -> usize
    ensures count { result ≡ min (length from.now) (length into.old) }
    ensures front { take result into.new ≡ take result from.now }
{
    let count = from.len().min(into.len());
    let (front, _) = into.split_at_mut(count);
    front.copy_from_slice(&from[..count]);
    count
}
