//! The run number is there throughout a session, and its database stays one.
ghost use Rattle.odb_tree.specs.Databases.{IsDatabase};
ghost use Rattle.std.specs.Prelude.{◌≡◌, ℕ, Bool, true, false, All, List, Ok, Result};
ghost use Rattle.odb_tree.specs.declared.entry.DatabaseEntry.{DatabaseEntry};
ghost use Rattle.odb_tree.specs.declared.refusals.OdbRefusal.{OdbRefusal};
ghost use Rattle.odb_value.specs.Values.{HeldValue};
ghost use Rattle.odb_watch.specs.DatabasePorts.{calls_by};
ghost use Rattle.odb_tree.specs.declared.rows.Row.{Row};
ghost use Rattle.odb_tree.specs.Rows.{Rows};
ghost use Rattle.odb_tree.specs.Histories.{IsLegalRows, rows_replay};
ghost use Rattle.odb_value.specs.LinkValues.{IsValueOrLink, is_link_type};
ghost use Rattle.odb_tree.specs.Links.{is_link, resolved, through};
ghost use Rattle.odb_tree.specs.Calls.{GivesTaking, get_reply, put_reply, after_put};
ghost use Rattle.odb_runinfo.specs.declared.keys.RunKey.TheVariants.{RunNumber};
ghost use Rattle.odb_runinfo.specs.RunKeys.{key_path, opened_rows};
ghost use Rattle.odb_runinfo.specs.RunNumberKept.{AllSpareRuninfo, HasRunNumber, SparesRuninfo};
ghost use Rattle.odb_runinfo.specs.RunSets.{AreNumbers, AreSets, Assignment, assignments, have_of, number_asked, sent_key_made};

/// After any legal calls that remove nothing below `/Runinfo`, the run number is there, an INT32 with an item 0. So it is
/// after a `put`.
pub fn run_number_stays()
    ensures calls { (s : Rows) (h : List (ℕ × DatabaseEntry)) → IsLegalRows s h → AllSpareRuninfo h
        → HasRunNumber s.rows → HasRunNumber (rows_replay s h).rows }
    ensures put { (s : Rows) (p : List (List ℕ)) (v : HeldValue) (reply : Result ℕ OdbRefusal)
        → IsValueOrLink v → GivesTaking (is_link_type v.tid) reply (put_reply s p v)
        → HasRunNumber s.rows → HasRunNumber (after_put s p v reply).rows }
{}

/// A session opens with the run number.
pub fn run_number_opens()
    ensures { (links : Bool) → HasRunNumber (opened_rows links).rows }
{}

/// Where the run number is there, no link is met on its path, a `get` of it gives its value, and a start takes the number in
/// its item 0.
pub fn run_number_given()
    ensures way { (s : Rows) (last : Bool) → HasRunNumber s.rows
        → resolved s (key_path RunNumber) last ≡ Ok (key_path RunNumber) }
    ensures read { (s : Rows) (has : HasRunNumber s.rows)
        → have_of (through (resolved s (key_path RunNumber) true) (λ q. get_reply s q)) ≡ has.number.first }
    ensures value { (s : Rows) (has : HasRunNumber s.rows)
        → through (resolved s (key_path RunNumber) true) (λ q. get_reply s q) ≡ Ok has.held }
{}

/// The rows with which a session opens are those of a database, and so are they after each legal history of calls.
pub fn database_opens()
    ensures opens { (links : Bool) → IsDatabase (opened_rows links) }
    ensures stays { (links : Bool) (history : List (ℕ × DatabaseEntry))
        → IsLegalRows (opened_rows links) history
        → IsDatabase (rows_replay (opened_rows links) history) }
{}

/// The session's own calls remove nothing below `/Runinfo`, whatever they are answered.
pub fn own_calls_spare()
    ensures sets { (caller : ℕ) (sets : List Assignment) (calls : List DatabaseEntry)
        → AreSets sets calls → AllSpareRuninfo (calls_by caller calls) }
    ensures front { (front : List ℕ) (reply : Result ℕ OdbRefusal)
        → SparesRuninfo (sent_key_made front reply) }
    ensures number { (got : Result HeldValue OdbRefusal) → SparesRuninfo (number_asked got) }
{}

/// Where the calls that set numbers are legal from some rows, none of which is a link, each has the reply that these rows
/// give at its point.
pub fn sets_are_legal()
    ensures { (s : Rows) (caller : ℕ) (sets : List Assignment) (calls : List DatabaseEntry)
        → All (λ (r : Row). is_link r ≡ false) s.rows → AreSets sets calls → AreNumbers sets
        → IsLegalRows s (calls_by caller calls)
        → calls ≡ assignments s sets }
{}
