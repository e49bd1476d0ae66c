//! Laws of the histories of a watched database: each function does nothing, and its contract is the law.

ghost use Rattle.std.specs.Prelude.{◌≡◌, ◌≢◌, ◌≤◌, ℕ, true, List, [], ◌∷◌, ◌++◌, length, Ok, Err};
ghost use Rattle.daq_types.specs.declared.types.Tid.{Tid};
ghost use Rattle.odb_value.specs.declared.items.Item.{Item};
ghost use Rattle.odb_value.specs.Items.{tid_of};
ghost use Rattle.odb_tree.specs.declared.notes.Note.{Note as a_note};
ghost use Rattle.odb_tree.specs.Rows.{Rows};
ghost use Rattle.odb_tree.specs.Noting.{Watched};
ghost use Rattle.odb_tree.specs.declared.refusals.OdbRefusal.TheVariants.{NoMemory as no_memory};
ghost use Rattle.odb_tree.specs.declared.entry.DatabaseEntry.TheVariants.{Set as set_of, Find as find_of};
ghost use Rattle.odb_tree.specs.Links.{meets_link};
ghost use Rattle.odb_tree.specs.Databases.{IsDatabase};
ghost use Rattle.odb_text.specs.Dumps.{dump_text, dump_limit};
ghost use Rattle.odb_watch.specs.declared.entry.WatchEntry.{WatchEntry};
ghost use Rattle.odb_watch.specs.declared.entry.WatchEntry.TheVariants.{Call as call_of, Notes as notes_of, Save as save_of};
ghost use Rattle.odb_watch.specs.Slots.{AreFew};
ghost use Rattle.odb_watch.specs.Steps.{LeadsDatabase, unwatched};
ghost use Rattle.odb_watch.specs.History.{AreDue, calls_made};

/// In every legal history of a watched database, from any rows and no watch on, of whatever callers and calls, with dumps
/// and texts that are loaded: what each `notes` answers, wherever it stands, is what the calls before it say. These are
/// the first 256 changes of the row and of what lay below it since the watch began or was last read, and how many others,
/// told as 2^64 - 1 where they are more.
pub fn notes_are_due()
    ensures { (rows : Rows) (h : List (ℕ × WatchEntry)) (caller : ℕ) (w : ℕ) (notes : List a_note)
        (lost : ℕ) (more : List (ℕ × WatchEntry)) (last : Watched)
        → LeadsDatabase (unwatched rows) (h ++ (caller, notes_of w (Ok (notes, lost))) ∷ more) last
        → AreDue rows (calls_made h) w notes lost }
{}

/// In every state that a legal history leads to, from any rows and no watch on, at most 64 watches live, and each keeps at
/// most 256 notes.
pub fn watches_are_few()
    ensures { (rows : Rows) (h : List (ℕ × WatchEntry)) (last : Watched)
        → LeadsDatabase (unwatched rows) h last → AreFew last.slots }
{}

/// From a database on, every legal history of a watched database leads to a database, texts that are loaded not excepted;
/// each dump that `save` answers in it, wherever it stands, is that of the rows at its point, and has at most 268,435,456
/// bytes.
pub fn watched_databases_stay()
    ensures stays { (first : Watched) (h : List (ℕ × WatchEntry)) (last : Watched)
        → IsDatabase first.rows → LeadsDatabase first h last → IsDatabase last.rows }
    ensures saved { (first : Watched) (h : List (ℕ × WatchEntry)) (caller : ℕ) (text : List ℕ)
        (more : List (ℕ × WatchEntry)) (last : Watched)
        → LeadsDatabase first (h ++ (caller, save_of (Ok text)) ∷ more) last
        → (at : Watched) × LeadsDatabase first h at × (text ≡ dump_text at.rows) }
    ensures small { (first : Watched) (h : List (ℕ × WatchEntry)) (caller : ℕ) (text : List ℕ)
        (more : List (ℕ × WatchEntry)) (last : Watched) → IsDatabase first.rows
        → LeadsDatabase first (h ++ (caller, save_of (Ok text)) ∷ more) last
        → length text ≤ dump_limit }
{}

/// In a legal history memory is wanted by the `set` of a number, and by a `find`, only where a link is met on its path at its
/// point.
pub fn links_alone_take_memory()
    ensures set { (first : Watched) (h : List (ℕ × WatchEntry)) (caller : ℕ) (p : List (List ℕ))
        (index : ℕ) (item : Item) (more : List (ℕ × WatchEntry)) (last : Watched)
        → LeadsDatabase first (h ++ (caller, call_of (set_of p index item (Err no_memory))) ∷ more) last
        → tid_of item ≢ Tid.Text
        → (at : Watched) × LeadsDatabase first h at × (meets_link at.rows p true ≡ true) }
    ensures find { (first : Watched) (h : List (ℕ × WatchEntry)) (caller : ℕ) (p : List (List ℕ))
        (more : List (ℕ × WatchEntry)) (last : Watched)
        → LeadsDatabase first (h ++ (caller, call_of (find_of p (Err no_memory))) ∷ more) last
        → (at : Watched) × LeadsDatabase first h at × (meets_link at.rows p true ≡ true) }
{}
