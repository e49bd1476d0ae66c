//! What the answers of a row tell.

use daq_types::{ChannelEnd, ChannelState, FileName, Why};
use member_model::{Answer, Tally};
use std::alloc::Global;

/// What an answer tells.
#[derive(Clone, Copy, PartialEq, Eq)]
pub enum Told {
    /// There is none yet.
    Waits,
    /// It accepts without more.
    Plain,
    /// The start is refused for a fault at this channel.
    Fault(u32),
    /// The start is refused since the name of this channel was taken.
    Taken(u32),
    /// So many channels ended, and so many broke off.
    Ended(usize, usize),
    Other,
}

/// How many channels ended in this state.
fn count_in(ends: &[ChannelEnd], state: ChannelState) -> usize {
    ends.iter().filter(|told| told.state == state).count()
}

/// What an answer tells that accepts.
fn read_tally(tally: &Tally) -> Told {
    match tally {
        Tally::Plain => Told::Plain,
        Tally::Channels(ends) => Told::Ended(
            count_in(ends.as_slice(), ChannelState::Ended),
            count_in(ends.as_slice(), ChannelState::Broken),
        ),
        _ => Told::Other,
    }
}

/// What an answer tells that refuses.
fn read_refusal(why: Why) -> Told {
    match why {
        Why::Fault { channel } => Told::Fault(channel),
        Why::Exists { channel } => Told::Taken(channel),
        _ => Told::Other,
    }
}

/// What the answer tells.
pub fn read_answer(answer: Option<Answer>) -> Told {
    match answer {
        None => Told::Waits,
        Some(Answer::Yes(tally)) => read_tally(&tally),
        Some(Answer::No(why)) => read_refusal(why),
    }
}

/// The name of the file of a channel in run 1; None without memory.
pub fn name_of(alloc: Global, channel: u32) -> Option<FileName> {
    let text = format!(in alloc; "ch{channel}run00001.mid").ok()?;
    FileName::new(text.as_str()).ok()
}

/// The name of the file of this number of a channel in run 1, where its files have a limit; None without memory.
pub fn piece_name_of(alloc: Global, channel: u32, number: u32) -> Option<FileName> {
    let text = format!(in alloc; "ch{channel}run00001-000{number}.mid").ok()?;
    FileName::new(text.as_str()).ok()
}
