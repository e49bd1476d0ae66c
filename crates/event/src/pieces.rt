ghost use Rattle.std.specs.Prelude.{◌≡◌, IfOk, OnErr, length};
ghost use Rattle.daq_io.specs.Counts.{CountsFault};
ghost use Rattle.event.specs.Pieces.{FailsBehind, Gathers};

use daq_io::{Failed, Source};

/// Reads until `into` is full or the source has no more, and answers how many bytes. The source may give them in any
/// pieces.
pub fn read_full<S: Source>(source: &mut S, into: &mut [u8]) -> Result<usize, Failed>
    ensures gathers { IfOk result (λ count. Gathers (S.told source.old).left (S.told source.new).left
        into.new count) }
    ensures fails { OnErr result (FailsBehind (S.told source.old).left (S.told source.new).left
        (S.told source.new).at_hand (length into.old)) }
    ensures length { length into.new ≡ length into.old }
    ensures faults { CountsFault (S.told source.old).faults (S.told source.new).faults result }
    ensures origin { (S.told source.new).origin ≡ (S.told source.old).origin }
{
    let mut done = 0;
    while done < into.len() {
        let (_, rest) = into.split_at_mut(done);
        let count = source.read(rest)?;
        if count == 0 {
            return Ok(done);
        }
        done += count;
    }
    Ok(done)
}
