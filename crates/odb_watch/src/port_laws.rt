//! What the calls of a port tell together.
ghost use Rattle.std.specs.Prelude.{◌≡◌, ℕ, ◌+◌, ◌++◌, List};
ghost use Rattle.odb_tree.specs.declared.entry.DatabaseEntry.{DatabaseEntry};
ghost use Rattle.odb_watch.specs.declared.entry.WatchEntry.{WatchEntry};
ghost use Rattle.odb_watch.specs.Steps.{IsLegalDatabase};
ghost use Rattle.odb_watch.specs.DatabasePorts.{DatabaseAccess, AddsCalls, AddsEntries, IsSamePort, own_calls, own_watched, row_calls};

/// The database and the caller stay, and the caller's own calls are the new ones more. What it had seen begins what it has
/// seen then, and stays legal.
pub fn entries_add_up()
    ensures same { (a b : DatabaseAccess) (entries : List WatchEntry) → AddsEntries a b entries
        → IsSamePort a b }
    ensures own { (a b : DatabaseAccess) (entries : List WatchEntry) → AddsEntries a b entries
        → own_watched b ≡ own_watched a ++ entries }
    ensures begins { (a b : DatabaseAccess) (entries : List WatchEntry) → AddsEntries a b entries
        → (more : List (ℕ × WatchEntry)) × (b.seen ≡ a.seen ++ more) }
    ensures legal { (a b : DatabaseAccess) (entries : List WatchEntry) → AddsEntries a b entries
        → IsLegalDatabase a.database.opened a.seen → IsLegalDatabase b.database.opened b.seen }
{}

/// The same of calls on the rows.
pub fn calls_add_up()
    ensures are { (a b : DatabaseAccess) (calls : List DatabaseEntry) → AddsCalls a b calls
        → AddsEntries a b (row_calls calls) }
    ensures same { (a b : DatabaseAccess) (calls : List DatabaseEntry) → AddsCalls a b calls
        → IsSamePort a b }
    ensures watched { (a b : DatabaseAccess) (calls : List DatabaseEntry) → AddsCalls a b calls
        → own_watched b ≡ own_watched a ++ row_calls calls }
    ensures own { (a b : DatabaseAccess) (calls : List DatabaseEntry) → AddsCalls a b calls
        → own_calls b ≡ own_calls a ++ calls }
{}
