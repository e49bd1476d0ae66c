//! Reads and writes, which are made again where a signal interrupts them.
ghost use Rattle.std.specs.Prelude.{◌≡◌, ◌≢◌, ◌<◌, ◌++◌, IfErr, IfOk, OnErr, OnOk, length};
ghost use Rattle.std.specs.Io.{ReadsAtMost, WritesAtMost};
ghost use Rattle.std.specs.Io.KnownBytes.{Appends, ReadConsumes, WriteAppends};
ghost use Rattle.daq_std.specs.SystemCalls.{TookPart, TookWrite, reason_of};

use crate::system::{Fault, Interruptions, Reason, TakingWriter, read_from, write_to};
use std::io::{Read, Write};

/// Reads once, and again as often as a signal interrupts that.
pub fn read_once<R: Read>(reader: &mut R, into: &mut [u8]) -> Result<usize, Fault>
    ensures within { ReadsAtMost result into.new }
    ensures bytes { ReadConsumes (R.remaining reader.old) (R.remaining reader.new) result
        into.new }
    ensures again { IfErr result (λ fault. reason_of fault ≢ Reason.Interrupted) }
{
    let mut interruptions = Interruptions::new();
    loop {
        match read_from(reader, into) {
            Ok(count) => return Ok(count),
            Err(fault) => interruptions.count(fault)?,
        }
    }
}

/// Writes once, and again as often as a signal interrupts that. That no byte is taken, where there is one, is a fault.
pub fn write_once<W: Write>(to: &mut TakingWriter<W>, bytes: &[u8]) -> Result<usize, Fault>
    ensures within { WritesAtMost result bytes.now }
    ensures some { IfOk result (λ count. 0 < length bytes.now → 0 < count) }
    ensures bytes { WriteAppends (W.contents to.old.writer) (W.contents to.new.writer) result
        bytes.now }
    ensures taken { TookWrite to.old.taken to.new.taken result bytes.now }
    ensures again { IfErr result (λ fault. reason_of fault ≢ Reason.Interrupted) }
{
    let mut interruptions = Interruptions::new();
    loop {
        match write_to(to, bytes) {
            Ok(count) => return Ok(count),
            Err(fault) => interruptions.count(fault)?,
        }
    }
}

/// Writes all of the bytes. After a failure the front of them was taken.
pub fn write_whole<W: Write>(to: &mut TakingWriter<W>, bytes: &[u8]) -> Result<(), Fault>
    ensures bytes { OnOk result (Appends (W.contents to.old.writer) (W.contents to.new.writer)
        bytes.now) }
    ensures taken { OnOk result (to.new.taken ≡ to.old.taken ++ bytes.now) }
    ensures part { OnErr result (TookPart (W.contents to.old.writer)
        (W.contents to.new.writer) to.old.taken to.new.taken bytes.now) }
{
    let mut rest = bytes;
    while !rest.is_empty() {
        let count = write_once(to, rest)?;
        let (_, behind) = rest.split_at(count);
        rest = behind;
    }
    Ok(())
}
