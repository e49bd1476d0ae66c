//! Marks of a run in the buffers, and how the channels note them.

ghost use Rattle.std.specs.Prelude.{◌≡◌, ◌<◌, ◌≤◌, List, Option, length, map, OnOk, OnErr, IfErr};
ghost use Rattle.std.specs.Option.{option_map};
ghost use Rattle.daq_io.specs.Seen.{Seen};
ghost use Rattle.daq_io.specs.Told.{FilesTold};
ghost use Rattle.buffer_core.specs.Slots.{change_slot};
ghost use Rattle.mid_logger.specs.declared.channel.Channel.{Channel as a_channel};
ghost use Rattle.mid_logger.specs.Channels.{stage_begun, stage_ended};
ghost use Rattle.loggers.specs.Moments.{IsLoggerReady, InTurn, noted_channel};
ghost use Rattle.loggers.specs.Turning.{BeginsBuffer, RefusesBegin, EndsBuffer, PausesBuffer, ResumesBuffer, BeginsBelow, RefusesMark};

use crate::slots::{Ports, Slots};
use buffer_core::BufferPort;
use mid_logger::Channel;
use std::sync::Wait;

/// The channel, if there is one, notes that its run was begun in its buffer, where it reads this one.
fn note_begun_in(slot: &mut Option<Channel>, buffer: usize, place: u64)
    ensures { slot.new ≡ option_map (noted_channel (λ stage. stage_begun stage place) buffer)
        slot.old }
{
    if let Some(channel) = slot {
        if channel.spec.buffer as usize == buffer {
            channel.note_begun(place);
        }
    }
}

/// The channel of this number notes that its run was begun in its buffer, where it reads this one.
fn note_begun_at(slots: &mut Slots, number: usize, buffer: usize, place: u64)
    requires { number < length slots.old }
    ensures { slots.new ≡ change_slot (noted_channel (λ stage. stage_begun stage place) buffer)
        slots.old number }
{
    let Some(slot) = slots.get_mut(number) else {
        unreachable!()
    };
    note_begun_in(slot, buffer, place);
}

/// The channel, if there is one, notes that its run was ended in its buffer, or could not be, where it reads this one.
fn note_ended_in(slot: &mut Option<Channel>, buffer: usize, place: Option<u64>)
    ensures { slot.new ≡ option_map (noted_channel (λ stage. stage_ended stage place) buffer)
        slot.old }
{
    if let Some(channel) = slot {
        if channel.spec.buffer as usize == buffer {
            channel.note_ended(place);
        }
    }
}

/// The channel of this number notes that its run was ended in its buffer, or could not be, where it reads this one.
fn note_ended_at(slots: &mut Slots, number: usize, buffer: usize, place: Option<u64>)
    requires { number < length slots.old }
    ensures { slots.new ≡ change_slot (noted_channel (λ stage. stage_ended stage place) buffer)
        slots.old number }
{
    let Some(slot) = slots.get_mut(number) else {
        unreachable!()
    };
    note_ended_in(slot, buffer, place);
}

/// The channels of a buffer note that their run was begun in it.
fn note_begun(slots: &mut Slots, buffer: usize, place: u64)
    ensures { slots.new
        ≡ map (option_map (noted_channel (λ stage. stage_begun stage place) buffer)) slots.old }
{
    for number in 0..slots.len() {
        note_begun_at(slots, number, buffer, place);
    }
}

/// The channels of a buffer note that their run was ended in it, or could not be.
fn note_ended(slots: &mut Slots, buffer: usize, place: Option<u64>)
    ensures { slots.new
        ≡ map (option_map (noted_channel (λ stage. stage_ended stage place) buffer)) slots.old }
{
    for number in 0..slots.len() {
        note_ended_at(slots, number, buffer, place);
    }
}

/// The mark was refused.
#[derive(Clone, Copy, Debug, PartialEq, Eq)]
pub struct NotBegun;

/// Begins the run in one buffer.
fn begin_at<R: Wait, P: BufferPort>(
    slots: &mut Slots,
    rt: &R,
    ports: &mut Ports<P>,
    buffer: usize,
    start: u32,
) -> Result<(), NotBegun>
    requires within { buffer < length ports.old }
    ensures begins { OnOk result ((files : FilesTold) → BeginsBuffer start buffer
        (record { slots = slots.old; ports = map P.access ports.old; files = files })
        (record { slots = slots.new; ports = map P.access ports.new; files = files })) }
    ensures refuses { OnErr result ((files : FilesTold) → RefusesBegin start buffer
        (record { slots = slots.old; ports = map P.access ports.old; files = files })
        (record { slots = slots.new; ports = map P.access ports.new; files = files })) }
    ensures count { length ports.new ≡ length ports.old }
{
    let Some(port) = ports.get_mut(buffer) else {
        unreachable!()
    };
    match port.begin(rt, start) {
        Ok(place) => {
            note_begun(slots, buffer, place);
            Ok(())
        }
        Err(_) => Err(NotBegun),
    }
}

/// Ends the run in one buffer, where that is not refused.
fn end_at<R: Wait, P: BufferPort>(
    slots: &mut Slots,
    rt: &R,
    ports: &mut Ports<P>,
    buffer: usize,
    start: u32,
)
    requires within { buffer < length ports.old }
    ensures ends { (files : FilesTold) → EndsBuffer start buffer
        (record { slots = slots.old; ports = map P.access ports.old; files = files })
        (record { slots = slots.new; ports = map P.access ports.new; files = files }) }
    ensures count { length ports.new ≡ length ports.old }
{
    let Some(port) = ports.get_mut(buffer) else {
        unreachable!()
    };
    let place = port.end(rt, start).ok();
    note_ended(slots, buffer, place);
}

/// Pauses the run in one buffer, where that is not refused.
fn pause_at<R: Wait, P: BufferPort>(rt: &R, ports: &mut Ports<P>, buffer: usize, start: u32)
    requires within { buffer < length ports.old }
    ensures pauses { (slots : List (Option a_channel)) → (files : FilesTold)
        → PausesBuffer start buffer
        (record { slots = slots; ports = map P.access ports.old; files = files })
        (record { slots = slots; ports = map P.access ports.new; files = files }) }
    ensures count { length ports.new ≡ length ports.old }
{
    let Some(port) = ports.get_mut(buffer) else {
        unreachable!()
    };
    let _ = port.pause(rt, start);
}

/// Resumes the run in one buffer, where that is not refused.
fn resume_at<R: Wait, P: BufferPort>(rt: &R, ports: &mut Ports<P>, buffer: usize, start: u32)
    requires within { buffer < length ports.old }
    ensures resumes { (slots : List (Option a_channel)) → (files : FilesTold)
        → ResumesBuffer start buffer
        (record { slots = slots; ports = map P.access ports.old; files = files })
        (record { slots = slots; ports = map P.access ports.new; files = files }) }
    ensures count { length ports.new ≡ length ports.old }
{
    let Some(port) = ports.get_mut(buffer) else {
        unreachable!()
    };
    let _ = port.resume(rt, start);
}

/// Begins the run in every buffer, in order. At the first one that refuses it answers in how many it is begun.
pub fn begin_all<R: Wait, P: BufferPort>(
    slots: &mut Slots,
    rt: &R,
    ports: &mut Ports<P>,
    start: u32,
) -> Result<(), usize>
    ensures begins { OnOk result ((files : FilesTold) → BeginsBelow start (length ports.old)
        (record { slots = slots.old; ports = map P.access ports.old; files = files })
        (record { slots = slots.new; ports = map P.access ports.new; files = files })) }
    ensures refuses { IfErr result (λ count. (files : FilesTold) → RefusesMark start count
        (record { slots = slots.old; ports = map P.access ports.old; files = files })
        (record { slots = slots.new; ports = map P.access ports.new; files = files })) }
    ensures ready { (seen : Seen) → IsLoggerReady slots.old (map P.access ports.old) seen →
        IsLoggerReady slots.new (map P.access ports.new) seen }
    ensures count { length ports.new ≡ length ports.old }
{
    for buffer in 0..ports.len() {
        match begin_at(slots, rt, ports, buffer, start) {
            Ok(()) => {}
            Err(NotBegun) => return Err(buffer),
        }
    }
    Ok(())
}

/// Ends the run in the first buffers, so many, in order.
pub fn end_first<R: Wait, P: BufferPort>(
    slots: &mut Slots,
    rt: &R,
    ports: &mut Ports<P>,
    count: usize,
    start: u32,
)
    requires within { count ≤ length ports.old }
    ensures ends { (files : FilesTold) → InTurn (λ buffer. EndsBuffer start buffer) count
        (record { slots = slots.old; ports = map P.access ports.old; files = files })
        (record { slots = slots.new; ports = map P.access ports.new; files = files }) }
    ensures ready { (seen : Seen) → IsLoggerReady slots.old (map P.access ports.old) seen →
        IsLoggerReady slots.new (map P.access ports.new) seen }
    ensures count { length ports.new ≡ length ports.old }
{
    for buffer in 0..count {
        end_at(slots, rt, ports, buffer, start);
    }
}

/// Pauses the run in every buffer, in order.
pub fn pause_all<R: Wait, P: BufferPort>(rt: &R, ports: &mut Ports<P>, start: u32)
    ensures pauses { (slots : List (Option a_channel)) → (files : FilesTold) →
        InTurn (λ buffer. PausesBuffer start buffer) (length ports.old)
        (record { slots = slots; ports = map P.access ports.old; files = files })
        (record { slots = slots; ports = map P.access ports.new; files = files }) }
    ensures count { length ports.new ≡ length ports.old }
{
    for buffer in 0..ports.len() {
        pause_at(rt, ports, buffer, start);
    }
}

/// Resumes the run in every buffer, in order.
pub fn resume_all<R: Wait, P: BufferPort>(rt: &R, ports: &mut Ports<P>, start: u32)
    ensures resumes { (slots : List (Option a_channel)) → (files : FilesTold) →
        InTurn (λ buffer. ResumesBuffer start buffer) (length ports.old)
        (record { slots = slots; ports = map P.access ports.old; files = files })
        (record { slots = slots; ports = map P.access ports.new; files = files }) }
    ensures count { length ports.new ≡ length ports.old }
{
    for buffer in 0..ports.len() {
        resume_at(rt, ports, buffer, start);
    }
}
