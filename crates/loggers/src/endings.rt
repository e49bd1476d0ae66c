//! How the files of a run that was stopped are ended.

ghost use Rattle.std.specs.Prelude.{◌≡◌, ◌<◌, ◌≤◌, List, Option, Some, length, slice_set, IfSome};
ghost use Rattle.event.specs.Events.{record_limit};
ghost use Rattle.buffer_core.specs.Slots.{slot_at};
ghost use Rattle.mid_logger.specs.declared.channel.Channel.{Channel as a_channel};
ghost use Rattle.mid_logger.specs.Channels.{IsLastOpen, written_run};
ghost use Rattle.loggers.specs.Moments.{HaveFilesOpen};
ghost use Rattle.loggers.specs.Finishing.{EndsSlot, EndsSlotAt, EndsSlots, ending_of, ends_idle, waiting_stop};

use crate::logged_run::{LoggedRun, RunPart};
use crate::slots::Slots;
use daq_io::Files;
use daq_types::{Bytes, ChannelEnd, ChannelState};
use mid_logger::{Channel, laws as channel_laws};

/// What is told of the channels, each at its number.
pub type Ends = [ChannelEnd; 16];

/// The time of the stop that is not answered, if there is one.
pub fn stop_time(run: Option<LoggedRun>) -> Option<u32>
    ensures { result ≡ waiting_stop run }
{
    match run?.part {
        RunPart::Stopping { time } => Some(time),
        RunPart::Refused | RunPart::Started => None,
    }
}

/// Ends the files of this channel, where there is one, and tells what became of them at its number.
fn end_slot<F: Files>(
    slot: &mut Option<Channel>,
    files: &mut F,
    ends: &mut Ends,
    number: usize,
    time: u32,
    dump: &Option<Bytes>,
)
    requires number { number < 16 }
    requires file { (c : a_channel) → slot.old ≡ Some c →
        IsLastOpen (F.told files.old).seen c.spec (written_run c.stage) }
    requires small { IfSome dump.now (λ bytes. length bytes ≤ record_limit) }
    ensures ends { (slots : List (Option a_channel)) → slot_at slots number ≡ slot.old →
        EndsSlot time dump.now number slot.old (ending_of slots (F.told files.old) ends.old)
        (ending_of (slice_set slots number slot.new) (F.told files.new) ends.new) }
{
    if let Some(channel) = slot {
        ends[number] = channel.close(files, time, dump);
    }
}

/// Ends the files of the channel of this number, where there is one, and tells what became of them.
fn end_file_at<F: Files>(
    slots: &mut Slots,
    files: &mut F,
    ends: &mut Ends,
    number: usize,
    time: u32,
    dump: &Option<Bytes>,
)
    requires number { number < 16 }
    requires files { HaveFilesOpen slots.old (F.told files.old).seen }
    requires small { IfSome dump.now (λ bytes. length bytes ≤ record_limit) }
    ensures ends { EndsSlotAt time dump.now number (ending_of slots.old (F.told files.old) ends.old)
        (ending_of slots.new (F.told files.new) ends.new) }
    ensures files { HaveFilesOpen slots.new (F.told files.new).seen }
    ensures many { length slots.new ≡ length slots.old }
{
    channel_laws::closes_kept();
    if let Some(slot) = slots.get_mut(number) {
        end_slot(slot, files, ends, number, time, dump);
    }
}

/// Ends the files of each channel, in order of number, and answers what became of them.
pub fn end_files<F: Files>(
    slots: &mut Slots,
    files: &mut F,
    time: u32,
    dump: &Option<Bytes>,
) -> Ends
    requires many { length slots.old ≤ 16 }
    requires files { HaveFilesOpen slots.old (F.told files.old).seen }
    requires small { IfSome dump.now (λ bytes. length bytes ≤ record_limit) }
    ensures ends { EndsSlots time dump.now (ending_of slots.old (F.told files.old) ends_idle)
        (ending_of slots.new (F.told files.new) result) }
    ensures files { HaveFilesOpen slots.new (F.told files.new).seen }
{
    let mut ends = [ChannelEnd {
        state: ChannelState::Idle,
        files: 0,
        framed: 0,
    }; 16];
    for number in 0..slots.len() {
        end_file_at(slots, files, &mut ends, number, time, dump);
    }
    ends
}
