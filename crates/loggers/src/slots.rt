//! The logger's channels by their numbers, and its ports by the numbers of their buffers.

ghost use Rattle.std.specs.Prelude.{◌≡◌, length, replicate, IfOk, None};
ghost use Rattle.std.specs.List.{list_all};
ghost use Rattle.buffer_core.specs.Slots.{some_slot, passes};
ghost use Rattle.loggers.specs.Moments.{channel_limit};
ghost use Rattle.loggers.specs.Finishing.{is_settled_slot};
ghost use Rattle.loggers.specs.NewLoggers.{HaveNumbers, HasNewChannels, new_channel};

use daq_types::{BoundedList, NoMemory};
use event::EventBuf;
use mid_logger::{Channel, ChannelSpec, ChannelStage};
use std::alloc::Global;

/// Each channel at its number, which is below 16.
pub type Slots = BoundedList<Option<Channel>, 16>;

/// What the channels of a logger write, in any order.
pub type ChannelSpecs = BoundedList<ChannelSpec, 16>;

/// The ports of a member, each at the number of its buffer.
pub type Ports<P> = BoundedList<P, 8>;

/// Whether the channel, if there is one, has read its run or broke off.
fn is_settled(slot: &Option<Channel>) -> bool
    ensures { result ≡ is_settled_slot slot.now }
{
    match slot {
        None => true,
        Some(channel) => matches!(
            channel.stage,
            ChannelStage::Drained { .. } | ChannelStage::Broken { .. }
        ),
    }
}

/// Whether every channel has read its run or broke off.
pub(crate) fn are_settled(slots: &Slots) -> bool
    ensures { result ≡ list_all is_settled_slot slots.now }
{
    slots.as_slice().iter().all(|slot| is_settled(slot))
}

/// Whether a call on the files failed in a call of this channel, if there is one.
fn has_failed(slot: &Option<Channel>) -> bool
    ensures { result ≡ passes (λ c. c.failed) slot.now }
{
    match slot {
        None => false,
        Some(channel) => channel.failed,
    }
}

/// Whether a call on the files failed in a call of any channel.
pub(crate) fn any_failed(slots: &Slots) -> bool
    ensures { result ≡ some_slot (λ c. c.failed) slots.now }
{
    slots.as_slice().iter().any(|slot| has_failed(slot))
}

/// Sixteen numbers without a channel.
fn no_channels(alloc: Global) -> Result<Slots, NoMemory>
    ensures { IfOk result (λ slots. slots ≡ replicate channel_limit None) }
{
    let mut slots = Slots::new(alloc)?;
    for number in 0_usize..16 {
        slots.push(None);
    }
    Ok(slots)
}

/// A channel that has no client and writes no run.
fn channel_for(alloc: Global, spec: ChannelSpec, room: u32) -> Result<Channel, NoMemory>
    ensures { IfOk result (λ channel. channel ≡ new_channel spec room) }
{
    let event = EventBuf::new(alloc, room)?;
    Ok(Channel {
        spec,
        client: None,
        stage: ChannelStage::Idle,
        failed: false,
        event,
    })
}

/// A channel for each spec, with room for an event of so many bytes of data.
pub(crate) fn new_channels(
    alloc: Global,
    mut specs: ChannelSpecs,
    rooms: &[u32],
) -> Result<Slots, NoMemory>
    requires rooms { length rooms.now ≡ length specs }
    requires numbers { HaveNumbers specs }
    ensures { IfOk result (HasNewChannels specs rooms.now) }
{
    let mut slots = no_channels(alloc)?;
    for count in 0..rooms.len() {
        let Some(spec) = specs.pop() else {
            unreachable!()
        };
        let number = spec.number as usize;
        let channel = channel_for(alloc, spec, rooms[specs.len()])?;
        slots.set(number, Some(channel));
    }
    Ok(slots)
}
