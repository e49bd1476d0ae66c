//! Events that lie whole at hand.

ghost use Rattle.std.specs.Prelude.{◌≡◌, ◌≤◌, ◌<◌, ◌^◌, ◌++◌, ℕ, List, Option, Some, None, Ok, IfSome};
ghost use Rattle.daq_types.specs.declared.events.Event.{Event};
ghost use Rattle.mid_format.specs.AtHand.{StandsWhole, TakesNext, TakesSoFar, event_at_front};
ghost use Rattle.mid_format.specs.HasRead.{HasRead};
ghost use Rattle.mid_format.specs.Steps.{StepReads};

use crate::blocks::Ahead;
use crate::faults::header_fault;
use crate::progress::Progress;
use crate::records::END_ID;
use crate::taker::EventTaker;
use event::{HEADER_BYTES, Header, read_header};

/// The header of the next event, where that stands whole at the front of these bytes and nothing is wrong with it.
pub fn find_whole(progress: &Progress, bytes: &[u8]) -> Option<Header>
    requires { progress.now.at ≤ 2 ^ 62 }
    ensures { IfSome result (StandsWhole progress.now bytes.now) }
{
    if progress.fault.is_some() || progress.last.is_some() {
        return None;
    }
    let begin = progress.begin?;
    let Ok(header) = read_header(bytes) else {
        return None;
    };
    if header.event_id == END_ID || bytes.len() - HEADER_BYTES < header.data_size as usize {
        return None;
    }
    match header_fault(Some(begin.serial_number), progress.at, &header) {
        Some(_) => None,
        None => Some(header),
    }
}

/// Passes over the event with this header, which stands whole at hand.
pub fn pass_whole<S: Ahead>(source: &mut S, progress: &mut Progress, header: &Header)
    requires { StandsWhole progress.old (S.told source.old).at_hand header.now }
    ensures reads { StepReads (S.told source.old).left (S.told source.new).left progress.old progress.new
        (Some tt) (event_at_front header.now (S.told source.old).at_hand) }
    ensures place { progress.new.at ≤ 2 ^ 62 }
    ensures onward { progress.old.at < progress.new.at }
    ensures begun { progress.new.begin ≡ progress.old.begin }
    ensures no_fault { progress.new.fault ≡ None }
    ensures no_end { progress.new.last ≡ None }
    ensures faults { (S.told source.new).faults ≡ (S.told source.old).faults }
    ensures origin { (S.told source.new).origin ≡ (S.told source.old).origin }
{
    let size = HEADER_BYTES + header.data_size as usize;
    source.pass(size);
    progress.at += size as u64;
}

/// Gives a taker the event with this header, which stands whole at hand.
pub fn give_whole<S: Ahead, T: EventTaker>(
    source: &mut S,
    progress: &mut Progress,
    header: &Header,
    taker: &mut T,
)
    requires so_far { TakesSoFar (T.has_taken taker.old) (S.told source.old).left progress.old }
    requires whole { StandsWhole progress.old (S.told source.old).at_hand header.now }
    ensures gives { (start : ℕ) → (first : Option (List ℕ)) → (before events : List Event)
        → HasRead start first (S.told source.old).left progress.old events
        → T.has_taken taker.old (before ++ events) → TakesNext (T.has_taken taker.new) start first
        (S.told source.new).left progress.new before events (Ok (Some tt)) }
    ensures place { progress.new.at ≤ 2 ^ 62 }
    ensures onward { progress.old.at < progress.new.at }
    ensures begun { progress.new.begin ≡ progress.old.begin }
    ensures no_fault { progress.new.fault ≡ None }
    ensures no_end { progress.new.last ≡ None }
    ensures faults { (S.told source.new).faults ≡ (S.told source.old).faults }
    ensures origin { (S.told source.new).origin ≡ (S.told source.old).origin }
{
    let (_, behind) = source.peek().split_at(HEADER_BYTES);
    let (body, _) = behind.split_at(header.data_size as usize);
    taker.take(header, body);
    pass_whole(source, progress, header);
}
