//! What one channel does, by its number: it opens a run, calls one off, or pulls.

ghost use Rattle.std.specs.Prelude.{◌≡◌, ◌≤◌, ◌<◌, ◌-◌, ℕ, suc, List, Option, length, map, min, slice_get, slice_set, OnOk, IfErr, Some, Ok, Err};
ghost use Rattle.event.specs.Events.{record_limit, event_limit};
ghost use Rattle.buffer_core.specs.Ports.{Access};
ghost use Rattle.buffer_core.specs.Slots.{slot_at};
ghost use Rattle.mid_logger.specs.declared.channel.Channel.{Channel as a_channel};
ghost use Rattle.mid_logger.specs.declared.stage.ChannelStage.TheVariants.{Idle};
ghost use Rattle.sub_files.specs.Cuts.{last_number};
ghost use Rattle.mid_logger.specs.Channels.{IsLastOpen, written_run, files_by as files_made};
ghost use Rattle.loggers.specs.Moments.{moment_of, StepsAt, StepsSlot, StepsChannel, IsLoggerReady, LeavesOthers};
ghost use Rattle.loggers.specs.ChannelSteps.{OpensChannel, AbortsChannel};
ghost use Rattle.loggers.specs.SlotPulls.{HasEventRoom, PullsSlot, PullsNumbered};

use crate::slots::{Ports, Slots};
use buffer_core::BufferPort;
use daq_io::Files;
use daq_types::{Order, Why};
use mid_logger::{Channel, Pulled, laws as channel_laws};
use std::sync::Wait;

/// Opens the run on this channel, where there is one.
fn open_slot<R: Wait, F: Files, P: BufferPort>(
    slot: &mut Option<Channel>,
    rt: &R,
    files: &mut F,
    ports: &mut Ports<P>,
    order: &Order,
    dump: &[u8],
) -> Result<(), Why>
    requires served { (c : a_channel) → slot.old ≡ Some c → c.spec.buffer < length ports.old }
    requires idle { (c : a_channel) → slot.old ≡ Some c → c.stage ≡ Idle }
    requires small { length dump.now ≤ record_limit }
    ensures opens { OnOk result ((slots : List (Option a_channel)) →
        (number : ℕ) → slot_at slots number ≡ slot.old →
        StepsSlot (OpensChannel order.now dump.now (Ok tt)) number slot.old
        (moment_of slots (map P.access ports.old) (F.told files.old))
        (moment_of (slice_set slots number slot.new) (map P.access ports.new) (F.told files.new))) }
    ensures refuses { IfErr result (λ why. (c : a_channel) × (slot.old ≡ Some c) ×
        ((slots : List (Option a_channel)) → (number : ℕ) → slot_at slots number ≡ slot.old →
        StepsChannel (OpensChannel order.now dump.now (Err why)) number c
        (moment_of slots (map P.access ports.old) (F.told files.old))
        (moment_of (slice_set slots number slot.new) (map P.access ports.new)
        (F.told files.new)))) }
    ensures count { length ports.new ≡ length ports.old }
{
    let Some(channel) = slot else {
        return Ok(());
    };
    let Some(port) = ports.get_mut(channel.spec.buffer as usize) else {
        unreachable!()
    };
    channel.open(rt, files, port, order, dump)
}

/// Opens the run on the channel of this number, where there is one. At a refusal no file of it is left, unless the
/// removing failed.
pub fn open_at<R: Wait, F: Files, P: BufferPort>(
    slots: &mut Slots,
    rt: &R,
    files: &mut F,
    ports: &mut Ports<P>,
    number: usize,
    order: &Order,
    dump: &[u8],
) -> Result<(), Why>
    requires ready { IsLoggerReady slots.old (map P.access ports.old) (F.told files.old).seen }
    requires idle { (c : a_channel) → slot_at slots.old number ≡ Some c → c.stage ≡ Idle }
    requires small { length dump.now ≤ record_limit }
    ensures opens { OnOk result (StepsAt (OpensChannel order.now dump.now (Ok tt)) number
        (moment_of slots.old (map P.access ports.old) (F.told files.old))
        (moment_of slots.new (map P.access ports.new) (F.told files.new))) }
    ensures refuses { IfErr result (λ why. (c : a_channel) ×
        (slot_at slots.old number ≡ Some c) ×
        StepsChannel (OpensChannel order.now dump.now (Err why)) number c
        (moment_of slots.old (map P.access ports.old) (F.told files.old))
        (moment_of slots.new (map P.access ports.new) (F.told files.new))) }
    ensures ready { IsLoggerReady slots.new (map P.access ports.new) (F.told files.new).seen }
    ensures others { LeavesOthers number slots.old slots.new }
    ensures count { length ports.new ≡ length ports.old }
{
    channel_laws::opens_kept();
    match slots.get_mut(number) {
        None => Ok(()),
        Some(slot) => open_slot(slot, rt, files, ports, order, dump),
    }
}

/// Calls off the run of this channel, where there is one.
fn abort_slot<R: Wait, F: Files, P: BufferPort>(
    slot: &mut Option<Channel>,
    rt: &R,
    files: &mut F,
    ports: &mut Ports<P>,
)
    requires few { (c : a_channel) → slot.old ≡ Some c → files_made c.stage ≤ suc last_number }
    requires served { (c : a_channel) → slot.old ≡ Some c → c.spec.buffer < length ports.old }
    requires file { (c : a_channel) → slot.old ≡ Some c →
        IsLastOpen (F.told files.old).seen c.spec (written_run c.stage) }
    ensures aborts { (slots : List (Option a_channel)) →
        (number : ℕ) → slot_at slots number ≡ slot.old →
        StepsSlot AbortsChannel number slot.old
        (moment_of slots (map P.access ports.old) (F.told files.old))
        (moment_of (slice_set slots number slot.new) (map P.access ports.new) (F.told files.new)) }
    ensures idle { (c : a_channel) → slot.new ≡ Some c → c.stage ≡ Idle }
    ensures count { length ports.new ≡ length ports.old }
{
    let Some(channel) = slot else {
        return;
    };
    let Some(port) = ports.get_mut(channel.spec.buffer as usize) else {
        unreachable!()
    };
    channel.abort(rt, files, port);
}

/// Calls off the run of the channel of this number, where there is one.
pub fn abort_at<R: Wait, F: Files, P: BufferPort>(
    slots: &mut Slots,
    rt: &R,
    files: &mut F,
    ports: &mut Ports<P>,
    number: usize,
)
    requires ready { IsLoggerReady slots.old (map P.access ports.old) (F.told files.old).seen }
    ensures aborts { StepsAt AbortsChannel number
        (moment_of slots.old (map P.access ports.old) (F.told files.old))
        (moment_of slots.new (map P.access ports.new) (F.told files.new)) }
    ensures idle { (c : a_channel) → slot_at slots.new number ≡ Some c → c.stage ≡ Idle }
    ensures ready { IsLoggerReady slots.new (map P.access ports.new) (F.told files.new).seen }
    ensures others { LeavesOthers number slots.old slots.new }
    ensures count { length ports.new ≡ length ports.old }
{
    channel_laws::aborts_kept();
    match slots.get_mut(number) {
        None => {}
        Some(slot) => abort_slot(slot, rt, files, ports),
    }
}

/// Pulls once on this channel, where there is one. The files of its run begin with this dump.
fn pull_slot<R: Wait, F: Files, P: BufferPort>(
    slot: &mut Option<Channel>,
    rt: &R,
    files: &mut F,
    ports: &mut Ports<P>,
    dump: &[u8],
) -> Pulled
    requires few { (c : a_channel) → slot.old ≡ Some c → files_made c.stage ≤ suc last_number }
    requires served { (c : a_channel) → slot.old ≡ Some c → c.spec.buffer < length ports.old }
    requires file { (c : a_channel) → slot.old ≡ Some c →
        IsLastOpen (F.told files.old).seen c.spec (written_run c.stage) }
    requires room { (c : a_channel) → (a : Access) → slot.old ≡ Some c →
        slice_get (map P.access ports.old) c.spec.buffer ≡ Some a →
        min event_limit (a.size - 24) ≤ c.event.room }
    requires small { length dump.now ≤ record_limit }
    ensures pulls { (slots : List (Option a_channel)) →
        (number : ℕ) → slot_at slots number ≡ slot.old →
        PullsSlot dump.now slot.old number result (moment_of slots (map P.access ports.old)
        (F.told files.old))
        (moment_of (slice_set slots number slot.new) (map P.access ports.new) (F.told files.new)) }
{
    let Some(channel) = slot else {
        return Pulled::NoChannel;
    };
    let Some(port) = ports.get_mut(channel.spec.buffer as usize) else {
        unreachable!()
    };
    channel.pull(rt, files, port, dump)
}

/// Pulls once on the channel of this number, where there is one. The files of its run begin with this dump.
pub fn pull_at<R: Wait, F: Files, P: BufferPort>(
    slots: &mut Slots,
    rt: &R,
    files: &mut F,
    ports: &mut Ports<P>,
    number: usize,
    dump: &[u8],
) -> Pulled
    requires ready { IsLoggerReady slots.old (map P.access ports.old) (F.told files.old).seen }
    requires room { HasEventRoom number slots.old (map P.access ports.old) }
    requires small { length dump.now ≤ record_limit }
    ensures pulls { PullsNumbered dump.now number result
        (moment_of slots.old (map P.access ports.old) (F.told files.old))
        (moment_of slots.new (map P.access ports.new) (F.told files.new)) }
    ensures ready { IsLoggerReady slots.new (map P.access ports.new) (F.told files.new).seen }
{
    channel_laws::pulls_kept();
    match slots.get_mut(number) {
        None => Pulled::NoChannel,
        Some(slot) => pull_slot(slot, rt, files, ports, dump),
    }
}
