// The channels of a session's logger, as the records of runs name their files.
ghost use Rattle.std.specs.Prelude.{◌≡◌, ◌≤◌, ◌<◌, ◌^◌, length, IfOk};
ghost use Rattle.session_runs.specs.KeptRuns.{channel_numbered, channels_of};

use daq_types::{BoundedList, NoMemory};
use mid_logger::{ChannelSpec, Pattern};
use std::alloc::Global;

/// The number that no channel has, which is above those of all.
const NUMBERS: u32 = 16;

/// A channel of the logger.
#[derive(Drop)]
pub struct RunChannel {
    /// Its number.
    pub number: u32,
    /// The names of its files.
    pub pattern: Pattern,
}

/// The channels in the order of their numbers.
pub type RunChannels = BoundedList<RunChannel, 16>;

/// The first of these channels that has this number.
fn channel_numbered(number: u32, specs: &[ChannelSpec]) -> Option<RunChannel>
    ensures { result ≡ channel_numbered number specs.now }
{
    for spec in specs {
        if spec.number == number {
            return Some(RunChannel {
                number,
                pattern: spec.pattern.copy(),
            });
        }
    }
    None
}

/// The channels, each once, in the order of their numbers.
pub(crate) fn channels_of(alloc: Global, specs: &[ChannelSpec]) -> Result<RunChannels, NoMemory>
    ensures channels { IfOk result (λ channels. channels ≡ channels_of specs.now) }
    ensures few { IfOk result (λ channels. length channels ≤ 16) }
{
    let mut channels = BoundedList::new(alloc)?;
    for number in 0..NUMBERS {
        if let Some(channel) = channel_numbered(number, specs) {
            channels.push(channel);
        }
    }
    Ok(channels)
}
