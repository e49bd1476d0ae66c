ghost use Rattle.std.specs.Prelude.{◌≡◌, ◌≤◌, ◌+◌, ◌^◌, Some, IfSome, IfOk, IfErr, OnOk, OnErr};
ghost use Rattle.daq_io.specs.Counts.{CountsFault};
ghost use Rattle.event.specs.Pieces.{FailsBehind};
ghost use Rattle.mid_format.specs.Faults.{fault_at, OfBytes, OfSource};
ghost use Rattle.mid_format.specs.Parts.{ReadsHead, PassesOver, PassesAll, ReadsBody, LacksBytes, IsEnd, IsBehindEnd, CountsReads};

use crate::faults::{MidFault, header_fault, nothing_left};
use daq_io::{Failed, Source};
use event::{EventBuf, Header, read_full, read_header};

/// How many bytes are passed over at once.
const BLOCK_BYTES: u32 = 4096;

/// Reads the header at this place, in the file of a run or at its begin.
pub fn read_head<S: Source>(source: &mut S, run: Option<u32>, at: u64) -> Result<Header, MidFault>
    requires { at ≤ 2 ^ 62 }
    ensures head { IfOk result (ReadsHead (S.told source.old).left (S.told source.new).left run at) }
    ensures fault { IfErr result (λ fault. OfBytes fault
        (IfSome (S.told source.old).left (λ rest. fault_at run at rest ≡ Some fault))) }
    ensures fails { IfErr result (λ fault. OfSource fault (FailsBehind (S.told source.old).left
        (S.told source.new).left (S.told source.new).at_hand 16)) }
    ensures counted { CountsReads (S.told source.old).faults (S.told source.new).faults result }
    ensures origin { (S.told source.new).origin ≡ (S.told source.old).origin }
{
    let mut head = [0; 16];
    let Ok(count) = read_full(source, &mut head) else {
        return Err(MidFault::ReadFault);
    };
    if count == 0 {
        return Err(nothing_left(run, at));
    }
    let (front, _) = head.split_at(count);
    let Ok(header) = read_header(front) else {
        return Err(MidFault::Truncated {
            at: at + count as u64,
        });
    };
    match header_fault(run, at, &header) {
        Some(fault) => Err(fault),
        None => Ok(header),
    }
}

/// Passes over so many bytes, or as many as the source has, and answers how many.
fn pass<S: Source>(source: &mut S, size: u32) -> Result<u32, Failed>
    ensures passes { IfOk result (PassesOver (S.told source.old).left (S.told source.new).left size) }
    ensures fails { OnErr result (FailsBehind (S.told source.old).left (S.told source.new).left
        (S.told source.new).at_hand size) }
    ensures faults { CountsFault (S.told source.old).faults (S.told source.new).faults result }
    ensures origin { (S.told source.new).origin ≡ (S.told source.old).origin }
{
    let mut block = [0; 4096];
    let mut rest = size;
    while rest > 0 {
        let part = rest.min(BLOCK_BYTES);
        let (front, _) = block.split_at_mut(part as usize);
        let count = read_full(source, front)? as u32;
        rest -= count;
        if count < part {
            return Ok(size - rest);
        }
    }
    Ok(size)
}

/// Passes over the data at this place.
pub fn pass_data<S: Source>(source: &mut S, place: u64, size: u32) -> Result<(), MidFault>
    requires { place + size ≤ 2 ^ 62 }
    ensures passed { OnOk result (PassesAll (S.told source.old).left (S.told source.new).left size) }
    ensures cut { IfErr result (LacksBytes (S.told source.old).left place size) }
    ensures fails { IfErr result (λ fault. OfSource fault (FailsBehind (S.told source.old).left
        (S.told source.new).left (S.told source.new).at_hand size)) }
    ensures counted { CountsReads (S.told source.old).faults (S.told source.new).faults result }
    ensures origin { (S.told source.new).origin ≡ (S.told source.old).origin }
{
    let Ok(count) = pass(source, size) else {
        return Err(MidFault::ReadFault);
    };
    if count < size {
        return Err(MidFault::Truncated {
            at: place + count as u64,
        });
    }
    Ok(())
}

/// Reads the data of this header, which are at this place, and takes them with the header as an event.
pub fn read_data<S: Source>(
    source: &mut S,
    place: u64,
    header: &Header,
    into: &mut EventBuf,
) -> Result<(), MidFault>
    requires place { place + header.now.data_size ≤ 2 ^ 62 }
    requires room { header.now.data_size ≤ into.old.room }
    ensures read { OnOk result (ReadsBody (S.told source.old).left (S.told source.new).left header.now
        into.new) }
    ensures cut { IfErr result (LacksBytes (S.told source.old).left place header.now.data_size) }
    ensures fails { IfErr result (λ fault. OfSource fault (FailsBehind (S.told source.old).left
        (S.told source.new).left (S.told source.new).at_hand header.now.data_size)) }
    ensures room { into.new.room ≡ into.old.room }
    ensures counted { CountsReads (S.told source.old).faults (S.told source.new).faults result }
    ensures origin { (S.told source.new).origin ≡ (S.told source.old).origin }
{
    let Ok(count) = into.fill_from(header, source) else {
        return Err(MidFault::ReadFault);
    };
    if count < header.data_size as usize {
        return Err(MidFault::Truncated {
            at: place + count as u64,
        });
    }
    Ok(())
}

/// Sees to it that the source has no more bytes behind this place.
pub fn read_end<S: Source>(source: &mut S, at: u64) -> Result<(), MidFault>
    ensures end { OnOk result (IsEnd (S.told source.old).left (S.told source.new).left) }
    ensures more { IfErr result (IsBehindEnd (S.told source.old).left at) }
    ensures fails { IfErr result (λ fault. OfSource fault (FailsBehind (S.told source.old).left
        (S.told source.new).left (S.told source.new).at_hand 1)) }
    ensures counted { CountsReads (S.told source.old).faults (S.told source.new).faults result }
    ensures origin { (S.told source.new).origin ≡ (S.told source.old).origin }
{
    let mut byte = [0; 1];
    let Ok(count) = read_full(source, &mut byte) else {
        return Err(MidFault::ReadFault);
    };
    if count > 0 {
        return Err(MidFault::AfterEnd { at });
    }
    Ok(())
}
