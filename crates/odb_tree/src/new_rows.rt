ghost use Rattle.std.specs.Prelude.{◌≡◌, ◌≢◌, ◌≤◌, ◌<◌, ◌^◌, ◌+◌, ◌++◌, ◌∷◌, [], length, IfOk, OnOk, OnErr, IsTrue, None};
ghost use Rattle.std.specs.Option.{option_copied};
ghost use Rattle.odb_value.specs.Paths.{depth_limit};
ghost use Rattle.odb_tree.specs.Rows.{no_rows};
ghost use Rattle.odb_tree.specs.Limits.{IsWithin};
ghost use Rattle.odb_tree.specs.Making.{no_way, further, go_on, missing_at, missing_from, way_to, new_row, created};

use crate::lookups::{parent, row_at};
use crate::rows::Row;
use daq_types::{Name, NoMemory};
use odb_value::{Path, Value};
use std::alloc::Global;
use std::marker::Model;

/// The way to a new row: the path of its directory as it is spelled, and the directories that are made.
#[derive(Drop)]
struct Way {
    path: Path,
    dirs: Vec<Row>,
}

impl Model for Way {
    ghost use Rattle.odb_tree.specs.Making.{Way};

    ghost Value = { Way };

    ghost use Rattle.odb_tree.specs.WayInside.{way_of};

    ghost view = { way_of };
}

/// How many directories are missing where this row was looked for.
fn missing_at(row: Option<&Row>) -> usize
    ensures missing { result ≡ missing_at (option_copied row.entry) }
    ensures one { result ≤ 1 }
{
    match row {
        Some(_) => 0,
        None => 1,
    }
}

/// How many of these directories are missing.
pub fn count_missing(rows: &[Row], names: &[Name]) -> usize
    ensures count { result ≡ missing_from rows.now [] names.now }
    ensures most { result ≤ length names.now }
{
    let mut count = 0;
    for i in 0..names.len() {
        count += missing_at(row_at(rows, &names[..i + 1]));
    }
    count
}

impl Way {
    /// The way from the root. Takes no memory.
    fn none(alloc: Global) -> Way
        ensures { result ≡ no_way }
    {
        Way {
            path: Path::root(alloc),
            dirs: Vec::new(alloc),
        }
    }

    /// Goes one directory further: the one that is there, or else a new one.
    fn further(
        &mut self,
        alloc: Global,
        next: u64,
        name: &Name,
        row: Option<&Row>,
    ) -> Result<(), NoMemory>
        requires depth { length self.old.path < depth_limit }
        requires fits { next + length self.old.dirs + missing_at (option_copied row) ≤ 2 ^ 32 }
        ensures { OnOk result (self.new ≡ further next name.now self.old
            (option_copied row.entry)) }
    {
        match row {
            Some(row) => {
                self.path = row.path.try_clone(alloc)?;
            }
            None => {
                self.path.push(*name)?;
                let path = self.path.try_clone(alloc)?;
                let number = (next + self.dirs.len() as u64) as u32;
                self.dirs.push(Row {
                    number,
                    path,
                    value: None,
                })?;
            }
        }
        Ok(())
    }

    /// The way through the directories with these names.
    fn to(alloc: Global, rows: &[Row], next: u64, names: &[Name]) -> Result<Way, NoMemory>
        requires depth { length names.now < depth_limit }
        requires fits { next + missing_from rows.now [] names.now ≤ 2 ^ 32 }
        ensures way { IfOk result (λ way. way ≡ go_on rows.now next [] names.now no_way) }
        ensures depth { IfOk result (λ way. length way.path ≡ length names.now) }
    {
        let mut way = Way::none(alloc);
        for i in 0..names.len() {
            way.further(alloc, next, &names[i], row_at(rows, &names[..i + 1]))?;
        }
        Ok(way)
    }

    /// The new directories, and behind them a row of this name.
    fn into_rows(self, next: u64, name: Name, value: Option<Value>) -> Result<Vec<Row>, NoMemory>
        requires depth { length self.path < depth_limit }
        requires fits { next + length self.dirs < 2 ^ 32 }
        ensures { IfOk result (λ rows. rows.items ≡ self.dirs ++ record
            { number = next + length self.dirs; path = self.path ++ name ∷ []; value = value }
            ∷ []) }
    {
        let mut path = self.path;
        let mut rows = self.dirs;
        path.push(name)?;
        let number = (next + rows.len() as u64) as u32;
        rows.push(Row {
            number,
            path,
            value,
        })?;
        Ok(rows)
    }
}

/// A new row of this path, and before it the missing directories.
pub fn new_rows(
    alloc: Global,
    rows: &[Row],
    next: u64,
    names: &[Name],
    value: Option<Value>,
) -> Result<Vec<Row>, NoMemory>
    requires named { 0 < length names.now }
    requires depth { length names.now ≤ depth_limit }
    requires within { IsWithin (created (record no_rows { rows = rows.now; next = next }) names.now value) }
    ensures { IfOk result (λ made. made.items
        ≡ (way_to (record no_rows { rows = rows.now; next = next }) names.now).dirs
        ++ new_row (record no_rows { rows = rows.now; next = next }) names.now value ∷ []) }
{
    let way = Way::to(alloc, rows, next, parent(names))?;
    way.into_rows(next, names[names.len() - 1], value)
}
