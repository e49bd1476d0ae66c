ghost use Rattle.std.specs.Prelude.{◌≡◌, ◌≤◌, ◌<◌, ◌^◌, ◌+◌, ◌↔◌, [], Some, None, IfOk, IfErr, OnOk, IsSome, IsNone};
ghost use Rattle.event.specs.Events.{event_limit};
ghost use Rattle.mid_format.specs.Faults.{OfSource};
ghost use Rattle.mid_format.specs.Parts.{CountsReads, FailsInside};
ghost use Rattle.mid_format.specs.Steps.{BeginsReading, BeginStops, FinishesReading, FinishStops, IsGoing, StepReads, Stops};

use crate::faults::MidFault;
use crate::parts::{pass_data, read_data, read_end, read_head};
use crate::progress::Progress;
use crate::records::END_ID;
use daq_io::Source;
use event::{EventBuf, HEADER_BYTES, Header};

/// Reads the begin record where it was not read yet, and answers its header.
fn begin<S: Source>(source: &mut S, progress: &mut Progress) -> Result<Header, MidFault>
    requires { progress.old.at ≤ 2 ^ 62 }
    ensures begins { IfOk result (BeginsReading (S.told source.old).left (S.told source.new).left
        progress.old progress.new) }
    ensures stops { IfErr result (BeginStops (S.told source.old).left progress.old progress.new) }
    ensures fails { IfErr result (λ fault. OfSource fault (FailsInside (S.told source.old).left
        (S.told source.new).left (S.told source.new).at_hand)) }
    ensures counted { CountsReads (S.told source.old).faults (S.told source.new).faults result }
    ensures origin { (S.told source.new).origin ≡ (S.told source.old).origin }
{
    if let Some(begin) = progress.begin {
        return Ok(begin);
    }
    let header = read_head(source, None, progress.at)?;
    let place = progress.at + HEADER_BYTES as u64;
    pass_data(source, place, header.data_size)?;
    progress.begin = Some(header);
    progress.at = place + header.data_size as u64;
    Ok(header)
}

/// Passes over the data of the end record whose header was read at this place, and sees to it that nothing follows.
fn finish<S: Source>(
    source: &mut S,
    progress: &mut Progress,
    header: Header,
) -> Result<(), MidFault>
    requires { progress.old.at + 16 + header.data_size ≤ 2 ^ 62 }
    ensures finishes { OnOk result (FinishesReading (S.told source.old).left (S.told source.new).left
        progress.old progress.new header) }
    ensures stops { IfErr result (FinishStops (S.told source.old).left (S.told source.new).left
        (S.told source.new).at_hand progress.old progress.new header) }
    ensures counted { CountsReads (S.told source.old).faults (S.told source.new).faults result }
    ensures origin { (S.told source.new).origin ≡ (S.told source.old).origin }
{
    let place = progress.at + HEADER_BYTES as u64;
    pass_data(source, place, header.data_size)?;
    progress.last = Some(header);
    progress.at = place + header.data_size as u64;
    read_end(source, progress.at)
}

/// Reads the next event, or the end of the file.
pub fn step<S: Source>(
    source: &mut S,
    progress: &mut Progress,
    into: &mut EventBuf,
) -> Result<Option<()>, MidFault>
    requires room { event_limit ≤ into.old.room }
    requires place { progress.old.at ≤ 2 ^ 62 }
    requires going { IsGoing progress.old }
    ensures reads { IfOk result (λ given. StepReads (S.told source.old).left (S.told source.new).left
        progress.old progress.new given into.new.event) }
    ensures stops { IfErr result (Stops (S.told source.old).left (S.told source.new).left progress.old
        progress.new) }
    ensures at_hand { IfErr result (λ fault. OfSource fault ((S.told source.new).at_hand ≡ [])) }
    ensures place { progress.new.at ≤ 2 ^ 62 }
    ensures onward { IfOk result (λ given. IsSome given → progress.old.at < progress.new.at) }
    ensures begun { IsSome progress.old.begin → progress.new.begin ≡ progress.old.begin }
    ensures no_fault { progress.new.fault ≡ None }
    ensures last { IfOk result (λ given. IsNone given ↔ IsSome progress.new.last) }
    ensures kept { IfOk result (λ given. IsNone given → into.new ≡ into.old) }
    ensures room { into.new.room ≡ into.old.room }
    ensures counted { CountsReads (S.told source.old).faults (S.told source.new).faults result }
    ensures origin { (S.told source.new).origin ≡ (S.told source.old).origin }
{
    let begin = begin(source, progress)?;
    let header = read_head(source, Some(begin.serial_number), progress.at)?;
    if header.event_id == END_ID {
        finish(source, progress, header)?;
        return Ok(None);
    }
    let place = progress.at + HEADER_BYTES as u64;
    read_data(source, place, &header, into)?;
    progress.at = place + header.data_size as u64;
    Ok(Some(()))
}
