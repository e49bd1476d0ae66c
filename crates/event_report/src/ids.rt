ghost use Rattle.std.specs.Prelude.{◌≡◌, ◌+◌, ◌≤◌, ◌<◌, ◌^◌, ℕ, [], All, IfOk, MatchResult};
ghost use Rattle.event_report.specs.Tallies.{id_tally};
ghost use Rattle.event_report.specs.Steps.{takes, id_of, id_rows_after, id_tally_after};
ghost use Rattle.event_report.specs.Held.{IsRising, IsTable, IdsWithin};
ghost use Rattle.event_report.specs.Found.{IsRowAt, FitsAt};

use crate::rows::{IdRow, ROW_LIMIT};
use daq_types::NoMemory;
use std::alloc::Global;
use std::marker::Model;

/// The ids of events, by rising id, in room that was taken once.
#[derive(Drop)]
pub struct IdTable {
    rows: Vec<IdRow>,
    rest: u64,
    last: usize,
}

impl Model for IdTable {
    ghost use Rattle.event_report.specs.Tallies.{IdTally};

    ghost Value = { IdTally };

    ghost use Rattle.event_report.specs.Steps.{id_of};
    ghost use Rattle.event_report.specs.Held.{IsTable};

    ghost view = { λ t. record { rows = t.rows.items; rest = t.rest } };

    ghost invariant = { λ t. IsTable id_of t.rows };
}

/// Where the row of an id stands, or where it would. The row at `last` is looked at first.
fn find_id(rows: &[IdRow], last: usize, id: u16) -> Result<usize, usize>
    requires { IsRising id_of rows.now }
    ensures { MatchResult result (IsRowAt id_of id rows.now) (FitsAt id_of id rows.now) }
{
    if last < rows.len() && rows[last].id == id {
        return Ok(last);
    }
    rows.binary_search_by_key(&id, |row| row.id)
}

/// Counts an event with this id, and answers whether there was a row or place for one.
fn count_id(rows: &mut Vec<IdRow>, last: &mut usize, id: u16) -> bool
    requires table { IsTable id_of rows.old }
    requires small { All (λ r. r.count ≤ 2 ^ 62) rows.old.items }
    ensures taken { result ≡ takes id_of id rows.old.items }
    ensures rows { rows.new.items ≡ id_rows_after id rows.old.items }
    ensures table { IsTable id_of rows.new }
    ensures within { (m : ℕ) → All (λ r. r.count ≤ m) rows.old.items
        → All (λ r. r.count ≤ m + 1) rows.new.items }
{
    match find_id(rows, *last, id) {
        Ok(at) => {
            *last = at;
            rows[at].count += 1;
            true
        }
        Err(at) => insert_id(rows, at, id),
    }
}

/// Gives an id that has no row a row at its place, where there is room for one.
fn insert_id(rows: &mut Vec<IdRow>, at: usize, id: u16) -> bool
    requires table { IsTable id_of rows.old }
    requires fits { FitsAt id_of id rows.old.items at }
    ensures taken { result ≡ takes id_of id rows.old.items }
    ensures rows { rows.new.items ≡ id_rows_after id rows.old.items }
    ensures table { IsTable id_of rows.new }
    ensures within { (m : ℕ) → All (λ r. r.count ≤ m) rows.old.items
        → All (λ r. r.count ≤ m + 1) rows.new.items }
{
    if rows.len() >= ROW_LIMIT {
        return false;
    }
    let _ = rows.insert(at, IdRow { id, count: 1 });
    true
}

impl IdTable {
    /// A table without rows, and with room for all that there can be.
    pub fn new(alloc: Global) -> Result<IdTable, NoMemory>
        ensures { IfOk result (λ table. table ≡ id_tally []) }
    {
        let rows = Vec::with_capacity(alloc, ROW_LIMIT)?;
        Ok(IdTable {
            rows,
            rest: 0,
            last: 0,
        })
    }

    /// The same table once more, in room of its own.
    pub fn copied(&self, alloc: Global) -> Result<IdTable, NoMemory>
        ensures { IfOk result (λ copied. copied ≡ self.now) }
    {
        let mut rows = Vec::with_capacity(alloc, ROW_LIMIT)?;
        rows.extend_from_slice(self.rows.as_slice())?;
        Ok(IdTable {
            rows,
            rest: self.rest,
            last: self.last,
        })
    }

    /// Counts an event with this id.
    pub fn count(&mut self, id: u16)
        requires { IdsWithin (2 ^ 62) self.old }
        ensures counted { self.new ≡ id_tally_after id self.old }
        ensures within { (m : ℕ) → IdsWithin m self.old → IdsWithin (m + 1) self.new }
    {
        if !count_id(&mut self.rows, &mut self.last, id) {
            self.rest += 1;
        }
    }

    /// The rows, by rising id.
    pub fn rows(&self) -> &[IdRow]
        ensures { result.now ≡ self.now.rows }
    {
        self.rows.as_slice()
    }

    /// How many events have an id without a row.
    pub fn rest(&self) -> u64
        ensures { result ≡ self.now.rest }
    {
        self.rest
    }
}
