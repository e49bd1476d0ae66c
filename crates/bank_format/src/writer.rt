ghost use Rattle.std.specs.Prelude.{◌≡◌, ◌≤◌, IfOk, IfErr, OnOk, OnErr, Some, None};
ghost use Rattle.bank_format.specs.BankAreas.{IsBankArea, bank_value, plain_banks};
ghost use Rattle.bank_format.specs.Writing.{nothing_written, with_bank, refusal_of};

use crate::bytes::{append_bank, bank_len, is_past_16_bits, new_area, state_length};
use crate::faults::BankRefusal;
use crate::formats::Format;
use daq_types::NoMemory;
use std::alloc::Global;
use std::marker::Model;

/// A bank area that grows bank by bank, up to a limit. Only `new` takes memory.
#[derive(Drop)]
pub struct BankWriter {
    format: Format,
    limit: u32,
    bytes: Vec<u8>,
}

impl Model for BankWriter {
    ghost use Rattle.bank_format.specs.Writing.{Written};

    ghost Value = { Written };

    ghost use Rattle.std.specs.Prelude.{drop};
    ghost use Rattle.bank_format.specs.Places.{banks_in};
    ghost use Rattle.bank_format.specs.Held.{HasBankRoom};

    ghost view = { λ w. record {
      format = w.format;
      limit = w.limit;
      banks = banks_in w.format (drop 8 w.bytes.items);
    } };

    ghost invariant = { λ w. HasBankRoom w.format w.limit w.bytes };
}

/// The most bytes that an area may have: as many as an event's data.
pub const MAX_AREA: u32 = 4_194_304;

impl BankWriter {
    /// An empty area of a format, with room for `limit` bytes in all.
    pub fn new(alloc: Global, format: Format, limit: u32) -> Result<BankWriter, NoMemory>
        requires front { 8 ≤ limit }
        requires most { limit ≤ MAX_AREA }
        ensures { IfOk result (λ writer. writer ≡ nothing_written format limit) }
    {
        Ok(BankWriter {
            format,
            limit,
            bytes: new_area(alloc, format, limit)?,
        })
    }

    /// Adds a bank behind the others.
    pub fn add(&mut self, name: [u8; 4], tid: u32, body: &[u8]) -> Result<(), BankRefusal>
        ensures fits { OnOk result (refusal_of self.old (bank_value name tid body.now) ≡ None) }
        ensures added { OnOk result (self.new ≡ with_bank self.old (bank_value name tid body.now)) }
        ensures refused { IfErr result (λ refusal. refusal_of self.old
            (bank_value name tid body.now) ≡ Some refusal) }
        ensures same { OnErr result (self.new ≡ self.old) }
    {
        if is_past_16_bits(self.format, body.len() as u64) {
            return Err(BankRefusal::TooLong {
                len: body.len() as u64,
            });
        }
        if is_past_16_bits(self.format, tid as u64) {
            return Err(BankRefusal::BadTid { tid });
        }
        let need = self.bytes.len() as u64 + bank_len(self.format, body);
        if (self.limit as u64) < need {
            return Err(BankRefusal::NoRoom { need });
        }
        append_bank(self.format, &mut self.bytes, name, tid, body);
        state_length(&mut self.bytes);
        Ok(())
    }

    /// The bytes of the area, with zeros in each reserved word and padding.
    pub fn finish(&self) -> &[u8]
        ensures plain { result.now ≡ plain_banks self.now.format self.now.banks }
        // So these bytes are read back as just these banks.
        ensures area { IsBankArea self.now.format self.now.banks result.now }
    {
        self.bytes.as_slice()
    }

    /// Takes every bank out again.
    pub fn clear(&mut self)
        ensures { self.new ≡ nothing_written self.old.format self.old.limit }
    {
        self.bytes.truncate(8);
        state_length(&mut self.bytes);
    }
}
