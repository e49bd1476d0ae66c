//! The banks of several events: how long they are written plainly, and their writing.

ghost use Rattle.std.specs.Prelude.{◌≡◌, ◌≤◌, ◌+◌, ◌^◌, ◌++◌, List, length, IfSome, IfNone};
ghost use Rattle.bank_format.specs.declared.formats.Format.TheVariants.{Bank32A};
ghost use Rattle.bank_format.specs.Formats.{padded};
ghost use Rattle.bank_format.specs.BankAreas.{BankValue, plain_area, plain_banks};
ghost use Rattle.bank_format.specs.Faults.{HoldsBanks};
ghost use Rattle.event_builder.specs.Joined.{JoinsBanks, JoinsWithin, CanJoin, IsBanksLen, IsBuiltSize};
ghost use Rattle.event_builder.specs.Inputs.{last_events};

use crate::inputs::BuilderInput;
use bank_format::{BankWriter, Banks};
use event::EventBuf;

/// How many bytes a bank of these data makes, written plainly with 32-bit sizes and an aligned header.
fn bank_len(body: &[u8]) -> u64
    ensures { result ≡ 16 + padded (length body.now) }
{
    16 + (body.len() as u64).div_ceil(8) * 8
}

/// How many bytes these banks make, written so.
fn banks_len(mut banks: Banks) -> u64
    requires { length (plain_area Bank32A banks.left) ≤ 2 ^ 34 }
    ensures { result ≡ length (plain_area Bank32A banks.entry.left) }
{
    let mut len = 0;
    while let Some(bank) = banks.next() {
        len += bank_len(bank.body);
    }
    len
}

/// How many bytes the banks of an event make, written so; None where its data are no bank area.
pub fn event_len(event: &EventBuf) -> Option<u64>
    ensures holds { IfSome result (λ len. (bs : List BankValue) × HoldsBanks bs event.now.event.body) }
    ensures len { IfSome result (IsBanksLen event.now.event.body) }
    ensures small { IfSome result (λ len. len ≤ 2 ^ 34) }
    ensures none { IfNone result ((bs : List BankValue) → HoldsBanks bs event.now.event.body → ⊥) }
{
    match Banks::read(event.body()) {
        Ok(banks) => Some(banks_len(banks)),
        Err(_) => None,
    }
}

/// How many bytes of data the event has that is built of those of these inputs.
pub fn built_size(inputs: &[BuilderInput]) -> u64
    requires few { length inputs.now ≤ 8 }
    requires joins { CanJoin (last_events inputs.now) }
    ensures { IsBuiltSize (last_events inputs.now) result }
{
    let mut size = 8;
    for input in inputs {
        let Some(len) = event_len(&input.event) else {
            unreachable!()
        };
        size += len;
    }
    size
}

/// Adds these banks to an area that has the room for them.
fn add_banks(body: &mut BankWriter, mut banks: Banks)
    requires format { body.old.format ≡ Bank32A }
    requires fits { length (plain_banks Bank32A (body.old.banks ++ banks.left)) ≤ body.old.limit }
    ensures banks { body.new.banks ≡ body.old.banks ++ banks.entry.left }
    ensures format { body.new.format ≡ Bank32A }
    ensures limit { body.new.limit ≡ body.old.limit }
{
    while let Some(bank) = banks.next() {
        let _ = body.add(bank.name, bank.tid, bank.body);
    }
}

/// Writes the data of the event that is built of those of these inputs.
pub fn join(inputs: &[BuilderInput], body: &mut BankWriter)
    requires format { body.old.format ≡ Bank32A }
    requires joins { JoinsWithin (last_events inputs.now) body.old.limit }
    ensures format { body.new.format ≡ Bank32A }
    ensures limit { body.new.limit ≡ body.old.limit }
    ensures joins { JoinsBanks (last_events inputs.now) body.new.banks }
    ensures fits { length (plain_banks Bank32A body.new.banks) ≤ body.old.limit }
{
    body.clear();
    for input in inputs {
        match Banks::read(input.event.body()) {
            Ok(banks) => add_banks(body, banks),
            Err(_) => unreachable!(),
        }
    }
}
