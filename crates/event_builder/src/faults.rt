//! Faults of the events that a builder gets.

ghost use Rattle.std.specs.Prelude.{◌≡◌, ◌≤◌, ◌<◌, true, length, slice_get, IfNone, IfSome, Some};
ghost use Rattle.std.specs.List.{list_all};
ghost use Rattle.bank_format.specs.declared.formats.Format.TheVariants.{Bank32A};
ghost use Rattle.event_builder.specs.declared.inputs.BuilderInput.{BuilderInput as an_input};
ghost use Rattle.event_builder.specs.Joined.{CanJoin};
ghost use Rattle.event_builder.specs.Inputs.{is_held, is_of_run, last_events};
ghost use Rattle.event_builder.specs.Builders.{IsKthEvent, IsJoined};
ghost use Rattle.event_builder.specs.BuilderPulls.{IsFaultAlone, IsTooBig, MeetsFault, FaultsReply, HoldBanksBut};

use crate::build_run::BuildFault;
use crate::inputs::BuilderInput;
use crate::joining::{built_size, event_len, join};
use crate::receiving::is_own;
use bank_format::BankWriter;
use buffer_core::Received;
use event::EventBuf;

/// Whether each input holds an event.
pub fn are_held(inputs: &[BuilderInput]) -> bool
    ensures { result ≡ list_all is_held inputs.now }
{
    inputs.iter().all(|input| input.held)
}

/// The fault of this event as the k-th one of this input, by itself.
fn fault_alone(event: &EventBuf, input: u32, k: u64) -> Option<BuildFault>
    ensures none { IfNone result (IsKthEvent k event.now.event) }
    ensures fault { IfSome result (IsFaultAlone input k event.now.event) }
{
    let have = event.header().serial_number;
    if u64::from(have) != k {
        return Some(BuildFault::Serial { input, k, have });
    }
    match event_len(event) {
        Some(_) => None,
        None => Some(BuildFault::NotBanks { input, k }),
    }
}

/// Once each input holds an event, the data of the event built of them are written; or they would be too long.
fn join_held(
    inputs: &[BuilderInput],
    body: &mut BankWriter,
    limit: u32,
    k: u64,
) -> Option<BuildFault>
    requires few { length inputs.now ≤ 8 }
    requires format { body.old.format ≡ Bank32A }
    requires limit { body.old.limit ≡ limit }
    requires joins { list_all is_held inputs.now ≡ true → CanJoin (last_events inputs.now) }
    ensures none { IfNone result (list_all is_held inputs.now ≡ true →
        IsJoined inputs.now limit body.new) }
    ensures too_big { IfSome result (IsTooBig k limit inputs.now) }
    ensures format { body.new.format ≡ Bank32A }
    ensures limit { body.new.limit ≡ limit }
{
    if !are_held(inputs) {
        return None;
    }
    let size = built_size(inputs);
    if size > u64::from(limit) {
        return Some(BuildFault::TooBig { k, size });
    }
    join(inputs, body);
    None
}

/// The fault of the event that this input holds, as its k-th one. Where it has none and each input holds an event, the data
/// of the event built of them are written.
fn fault_held(
    inputs: &[BuilderInput],
    body: &mut BankWriter,
    input: u32,
    k: u64,
    limit: u32,
) -> Option<BuildFault>
    requires there { input < length inputs.now }
    requires few { length inputs.now ≤ 8 }
    requires format { body.old.format ≡ Bank32A }
    requires limit { body.old.limit ≡ limit }
    requires others { HoldBanksBut input inputs.now }
    ensures meets { MeetsFault input k limit inputs.now result }
    ensures joined { IfNone result (list_all is_held inputs.now ≡ true →
        IsJoined inputs.now limit body.new) }
    ensures format { body.new.format ≡ Bank32A }
    ensures limit { body.new.limit ≡ limit }
{
    let held = &inputs[input as usize];
    let fault = fault_alone(&held.event, input, k);
    if fault.is_some() {
        return fault;
    }
    join_held(inputs, body, limit, k)
}

/// The fault that a receive on this input gives by its reply, where the run with this start number is read and the next event
/// is the k-th one. Where it gives none and each input holds an event, the data of the event built of them are written.
pub fn fault_of(
    inputs: &[BuilderInput],
    body: &mut BankWriter,
    input: u32,
    k: u64,
    start: u32,
    reply: Received,
    limit: u32,
) -> Option<BuildFault>
    requires there { (x : an_input) × (slice_get inputs.now input ≡ Some x)
        × (x.held ≡ is_of_run start reply) }
    requires few { length inputs.now ≤ 8 }
    requires format { body.old.format ≡ Bank32A }
    requires limit { body.old.limit ≡ limit }
    requires others { HoldBanksBut input inputs.now }
    ensures faults { FaultsReply reply start input k limit inputs.now result }
    ensures joined { IfNone result (list_all is_held inputs.now ≡ true →
        IsJoined inputs.now limit body.new) }
    ensures format { body.new.format ≡ Bank32A }
    ensures limit { body.new.limit ≡ limit }
{
    if is_own(start, reply) {
        return fault_held(inputs, body, input, k, limit);
    }
    match reply {
        Received::SmallBuf { need } => Some(BuildFault::SmallRoom { input, need }),
        _ => None,
    }
}
