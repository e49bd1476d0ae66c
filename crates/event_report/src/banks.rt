ghost use Rattle.std.specs.Prelude.{◌≡◌, ◌+◌, ◌-◌, ◌≤◌, ◌<◌, ◌^◌, ◌∷◌, ℕ, [], All, IfOk, MatchResult, length};
ghost use Rattle.std.specs.List.{filter_map};
ghost use Rattle.bank_format.specs.BankAreas.{bank_value};
ghost use Rattle.event_report.specs.EventBanks.{integer_bank};
ghost use Rattle.event_report.specs.Tallies.{bank_tally};
ghost use Rattle.event_report.specs.Steps.{takes, row_number, bank_rows_after, banks_after};
ghost use Rattle.event_report.specs.Held.{IsRising, IsTable, FiguresWithin, BanksWithin, weight};
ghost use Rattle.event_report.specs.Found.{IsRowAt, FitsAt};

use crate::figures::{join, read_figures};
use crate::integers::IntegerType;
use crate::rows::{BankRow, ROW_LIMIT, order_number};
use bank_format::{Bank, Banks};
use daq_types::NoMemory;
use std::alloc::Global;
use std::marker::Model;

/// The banks of integers of events, by rising name and type, in room that was taken once.
#[derive(Drop)]
pub struct BankTable {
    rows: Vec<BankRow>,
    rest: u64,
    last: usize,
}

impl Model for BankTable {
    ghost use Rattle.event_report.specs.Tallies.{BankTally};

    ghost Value = { BankTally };

    ghost use Rattle.event_report.specs.Steps.{row_number};
    ghost use Rattle.event_report.specs.Held.{IsTable};

    ghost view = { λ t. record { rows = t.rows.items; rest = t.rest } };

    ghost invariant = { λ t. IsTable row_number t.rows };
}

/// Where the row with this number stands, or where it would. The row at `last` is looked at first.
fn find_row(rows: &[BankRow], last: usize, number: u64) -> Result<usize, usize>
    requires { IsRising row_number rows.now }
    ensures { MatchResult result (IsRowAt row_number number rows.now)
        (FitsAt row_number number rows.now) }
{
    if last < rows.len() && order_number(rows[last].name, rows[last].kind) == number {
        return Ok(last);
    }
    rows.binary_search_by_key(&number, |row| order_number(row.name, row.kind))
}

/// Counts a bank by its name, type and figures, and answers whether there was a row or place for one.
fn count_row(rows: &mut Vec<BankRow>, last: &mut usize, bank: BankRow) -> bool
    requires table { IsTable row_number rows.old }
    requires sound { All (λ r. FiguresWithin r.figures.count r.figures) rows.old.items }
    requires bank { FiguresWithin bank.figures.count bank.figures }
    requires fits { All (λ r. r.figures.count + bank.figures.count ≤ 2 ^ 62) rows.old.items }
    ensures taken { result ≡ takes row_number (row_number bank) rows.old.items }
    ensures rows { rows.new.items ≡ bank_rows_after bank rows.old.items }
    ensures table { IsTable row_number rows.new }
    ensures within { (m : ℕ) → All (λ r. FiguresWithin m r.figures) rows.old.items
        → All (λ r. FiguresWithin (m + bank.figures.count) r.figures) rows.new.items }
{
    match find_row(rows, *last, order_number(bank.name, bank.kind)) {
        Ok(at) => {
            *last = at;
            let row = &mut rows[at];
            row.figures = join(&row.figures, &bank.figures);
            true
        }
        Err(at) => insert_row(rows, at, bank),
    }
}

/// Gives a bank that has no row a row at its place, where there is room for one.
fn insert_row(rows: &mut Vec<BankRow>, at: usize, bank: BankRow) -> bool
    requires table { IsTable row_number rows.old }
    requires bank { FiguresWithin bank.figures.count bank.figures }
    requires fits { FitsAt row_number (row_number bank) rows.old.items at }
    ensures taken { result ≡ takes row_number (row_number bank) rows.old.items }
    ensures rows { rows.new.items ≡ bank_rows_after bank rows.old.items }
    ensures table { IsTable row_number rows.new }
    ensures within { (m : ℕ) → All (λ r. FiguresWithin m r.figures) rows.old.items
        → All (λ r. FiguresWithin (m + bank.figures.count) r.figures) rows.new.items }
{
    if rows.len() >= ROW_LIMIT {
        return false;
    }
    let _ = rows.insert(at, bank);
    true
}

impl BankTable {
    /// A table without rows, and with room for all that there can be.
    pub fn new(alloc: Global) -> Result<BankTable, NoMemory>
        ensures { IfOk result (λ table. table ≡ bank_tally []) }
    {
        let rows = Vec::with_capacity(alloc, ROW_LIMIT)?;
        Ok(BankTable {
            rows,
            rest: 0,
            last: 0,
        })
    }

    /// The same table once more, in room of its own.
    pub fn copied(&self, alloc: Global) -> Result<BankTable, NoMemory>
        ensures { IfOk result (λ copied. copied ≡ self.now) }
    {
        let mut rows = Vec::with_capacity(alloc, ROW_LIMIT)?;
        rows.extend_from_slice(self.rows.as_slice())?;
        Ok(BankTable {
            rows,
            rest: self.rest,
            last: self.last,
        })
    }

    /// Counts a bank, if it is one of integers and has a whole item.
    fn count(&mut self, bank: &Bank)
        requires long { length bank.now.body.now < 2 ^ 62 }
        requires within { BanksWithin (2 ^ 62 - (1 + length bank.now.body.now)) self.old }
        ensures counted { self.new ≡ banks_after self.old
            (filter_map integer_bank (bank_value bank.now.name bank.now.tid bank.now.body.now
            ∷ [])) }
        ensures within { (m : ℕ) → BanksWithin m self.old
            → BanksWithin (m + (1 + length bank.now.body.now)) self.new }
    {
        let Some(kind) = IntegerType::from_code(bank.tid) else {
            return;
        };
        let Some(figures) = read_figures(kind, bank.body) else {
            return;
        };
        let row = BankRow {
            name: bank.name,
            kind,
            figures,
        };
        if !count_row(&mut self.rows, &mut self.last, row) {
            self.rest += 1;
        }
    }

    /// Counts those banks that are still to be read, in their order.
    pub fn count_all(&mut self, mut banks: Banks)
        requires long { weight banks.left ≤ 2 ^ 62 }
        requires within { BanksWithin (2 ^ 62 - weight banks.left) self.old }
        ensures counted { self.new ≡ banks_after self.old
            (filter_map integer_bank banks.entry.left) }
        ensures within { (m : ℕ) → BanksWithin m self.old
            → BanksWithin (m + weight banks.entry.left) self.new }
    {
        while let Some(bank) = banks.next() {
            self.count(&bank);
        }
    }

    /// The rows, by rising name and type.
    pub fn rows(&self) -> &[BankRow]
        ensures { result.now ≡ self.now.rows }
    {
        self.rows.as_slice()
    }

    /// How many banks have a name and type without a row.
    pub fn rest(&self) -> u64
        ensures { result ≡ self.now.rest }
    {
        self.rest
    }
}
