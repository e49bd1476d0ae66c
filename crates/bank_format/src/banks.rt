ghost use Rattle.std.specs.Prelude.{◌≡◌, ◌∷◌, List, [], IfOk, IfErr, IsOkAnd, MatchOption, Some, None};
ghost use Rattle.bank_format.specs.BankAreas.{BankValue, bank_value, IsBankArea};
ghost use Rattle.bank_format.specs.Places.{HasBank, front_bank, behind_bank, unread, first_named};
ghost use Rattle.bank_format.specs.Faults.{HoldsBanks, IsFirstFault};
ghost use Rattle.bank_format.specs.declared.formats.Format.{Format};

use crate::area::{check_area, split_front};
use crate::faults::BankFault;
use crate::formats::Format;
use crate::places::{padded_len, read_name, read_size, read_tid};
use std::marker::Model;

/// A named array of an event.
#[derive(Clone, Copy, Debug, PartialEq, Eq)]
pub struct Bank<'a> {
    /// Any four bytes.
    pub name: [u8; 4],
    /// The type of the items: a code of `Tid`, or any other number.
    pub tid: u32,
    /// The data, without padding.
    pub body: &'a [u8],
}

/// The banks of an area, which it borrows.
#[derive(Drop)]
pub struct Banks<'a> {
    format: Format,
    area: &'a [u8],
    left: &'a [u8],
}

impl<'a> Model for Banks<'a> {
    ghost use Rattle.bank_format.specs.Places.{BankReading, banks_in};

    ghost Value = { BankReading };

    ghost use Rattle.std.specs.Prelude.{[]};
    ghost use Rattle.bank_format.specs.Whole.{IsWhole};

    ghost view = { λ b. record {
      all = banks_in b.format b.area.now;
      left = banks_in b.format b.left.now;
    } };

    ghost invariant = { λ b. IsWhole b.format b.area.now b.left.now };
}

/// The bank at the front, and what stands behind it.
fn split_bank<'a>(format: Format, bytes: &'a [u8]) -> (Bank<'a>, &'a [u8])
    requires { HasBank format bytes.now }
    ensures bank { bank_value result.0.name result.0.tid result.0.body.now
        ≡ front_bank format bytes.now }
    ensures rest { result.1.now ≡ behind_bank format bytes.now }
{
    let size = read_size(format, bytes);
    let name = read_name(bytes);
    let tid = read_tid(format, bytes);
    let (_, data) = bytes.split_at(format.header_len());
    let (body, _) = data.split_at(size as usize);
    let (_, rest) = data.split_at(padded_len(size));
    (Bank { name, tid, body }, rest)
}

impl<'a> Banks<'a> {
    /// The banks of these bytes, which are a bank area in one of the three formats; else the first fault.
    pub fn read(bytes: &'a [u8]) -> Result<Banks<'a>, BankFault>
        // What is read stands in the bytes, and nothing of it has been given yet.
        ensures found { IfOk result (λ banks. HoldsBanks banks.all bytes.now) }
        ensures unread { IfOk result (λ banks. banks ≡ unread banks.all) }
        // What stands in the bytes is read.
        ensures only { (f : Format) → (bs : List BankValue) → IsBankArea f bs bytes.now
            → IsOkAnd result (λ banks. banks ≡ unread bs) }
        ensures fault { IfErr result (λ fault. IsFirstFault bytes.now fault) }
    {
        let (format, area) = split_front(bytes)?;
        check_area(format, bytes.len() as u64, area)?;
        Ok(Banks {
            format,
            area,
            left: area,
        })
    }

    /// The next bank, in the order of the area; `None` exactly where each has been given.
    pub fn next(&mut self) -> Option<Bank<'a>>
        ensures bank { MatchOption result (self.old.left ≡ [])
            (λ bank. self.old.left ≡ bank_value bank.name bank.tid bank.body.now ∷ self.new.left) }
        ensures end { self.old.left ≡ [] → self.new.left ≡ [] }
        ensures all { self.new.all ≡ self.old.all }
    {
        if self.left.is_empty() {
            return None;
        }
        let (bank, rest) = split_bank(self.format, self.left);
        self.left = rest;
        Some(bank)
    }

    /// The first bank of this name, given already or not; `None` exactly where no bank of the area has it.
    pub fn find(&self, name: [u8; 4]) -> Option<Bank<'a>>
        ensures { MatchOption result (first_named name self.now.all ≡ None)
            (λ bank. first_named name self.now.all
            ≡ Some (bank_value bank.name bank.tid bank.body.now)) }
    {
        let mut left = self.area;
        while !left.is_empty() {
            let (bank, rest) = split_bank(self.format, left);
            if bank.name == name {
                return Some(bank);
            }
            left = rest;
        }
        None
    }
}
