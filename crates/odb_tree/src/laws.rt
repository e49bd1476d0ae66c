//! Laws of the walk through the database, over its definitions alone.
ghost use Rattle.std.specs.Prelude.{◌≡◌, ◌≢◌, ℕ, Bool, Result, suc, None, IsOk, IsSome, List, [], ◌∷◌, ◌++◌, map, true, false, ◌≤◌, length, Some, Ok, Err, IsPermutation};
ghost use Rattle.daq_types.specs.declared.types.Tid.{Tid};
ghost use Rattle.daq_types.specs.declared.memory.NoMemory.{NoMemory};
ghost use Rattle.odb_value.specs.Items.{tid_of};
ghost use Rattle.odb_value.specs.LinkValues.{is_link_type};
ghost use Rattle.odb_value.specs.Paths.{is_front, depth_limit, IsPath};
ghost use Rattle.odb_tree.specs.declared.rows.Row.{Row};
ghost use Rattle.odb_tree.specs.declared.children.Child.{Child};
ghost use Rattle.odb_tree.specs.Trees.{IsTree, IsDir, with_rows};
ghost use Rattle.odb_tree.specs.declared.entry.DatabaseEntry.{DatabaseEntry};
ghost use Rattle.odb_tree.specs.declared.entry.DatabaseEntry.TheVariants.{Create, Set, SetAll, Get, Find, ListDir, Resize, PathOf};
ghost use Rattle.odb_tree.specs.declared.rows.NewKey.{NewKey};
ghost use Rattle.odb_tree.specs.Places.{AreInserted, made_for};
ghost use Rattle.odb_tree.specs.declared.refusals.OdbRefusal.{OdbRefusal};
ghost use Rattle.odb_tree.specs.declared.refusals.OdbRefusal.TheVariants.{NoMemory as no_memory};
ghost use Rattle.odb_tree.specs.Links.{is_link, links_limit, lead, first_link, resolved, meets_link};
ghost use Rattle.odb_tree.specs.Calls.{GivesTaking, makes_link, create_reply, set_reply, set_all_reply, resize_reply, get_reply, list_reply, path_with, put_reply, after_put, IsRowsReply, child_of, rows_after, after_delete, after_set, after_set_all, after_resize, after_create, new_value};
ghost use Rattle.odb_tree.specs.Databases.{IsHeld, IsDatabase, IsSoundCall};
ghost use Rattle.odb_tree.specs.Histories.{IsLegalRows, rows_replay};
ghost use Rattle.odb_tree.specs.Rows.{Rows, no_rows, is_listed, keys_in, dirs_in, rows_outside, change_at, row_at};
ghost use Rattle.odb_value.specs.declared.items.Item.{Item};
ghost use Rattle.odb_value.specs.Values.{HeldValue};
ghost use Rattle.odb_value.specs.ValueChanges.{put_in, resized};
ghost use Rattle.odb_tree.specs.Walks.{walk_below, walk, changed_at, directly_below};
ghost use Rattle.odb_tree.specs.WalkLaws.{NoneAbove, OneAt, below_dirs};

/// In a directory that is not above a new row the walk stays as it was.
pub fn walk_elsewhere()
    ensures { (depth : ℕ) (rows : List Row) (new : Row) (p : List (List ℕ)) → is_front p new.path
        ≡ false → walk_below depth (rows ++ new ∷ []) p ≡ walk_below depth rows p }
{}

/// A new key stands behind the keys of its directory.
pub fn new_key_behind_keys()
    ensures { (depth : ℕ) (rows : List Row) (new : Row) (p : List (List ℕ)) → is_listed true p new
        ≡ true → NoneAbove new.path (dirs_in rows p) → walk_below (suc depth) (rows ++ new ∷ []) p
        ≡ keys_in rows p ++ new ∷ below_dirs depth rows p }
{}

/// A new directory, with nothing below it, stands behind everything below its parent.
pub fn new_directory_last()
    ensures { (depth : ℕ) (rows : List Row) (new : Row) (p : List (List ℕ))
        → is_listed false p new ≡ true → NoneAbove new.path (dirs_in rows p)
        → walk_below depth (rows ++ new ∷ []) new.path ≡ []
        → walk_below (suc depth) (rows ++ new ∷ []) p ≡ walk_below (suc depth) rows p ++ new ∷ [] }
{}

/// Where rows are removed, those that stay keep their places.
pub fn removal_keeps_places()
    ensures { (depth : ℕ) (rows : List Row) (q : List (List ℕ)) (p : List (List ℕ))
        → walk_below depth (rows_outside rows q) p ≡ rows_outside (walk_below depth rows p) q }
{}

/// Where the value of a row is changed, that row and all others keep their places.
pub fn change_keeps_places()
    ensures { (depth : ℕ) (rows : List Row) (p : List (List ℕ)) (f : HeldValue → HeldValue)
        (q : List (List ℕ)) → OneAt p rows → walk_below depth (change_at rows p f) q
        ≡ map (changed_at p f) (walk_below depth rows q) }
{}

/// The new database is a tree, and each legal history keeps a tree.
pub fn trees_stay()
    ensures begins { IsTree no_rows }
    ensures after { (s : Rows) (entry : DatabaseEntry) → IsTree s → IsRowsReply s entry
        → IsTree (rows_after s entry) }
    ensures stays { (s : Rows) (history : List (ℕ × DatabaseEntry)) → IsTree s
        → IsLegalRows s history → IsTree (rows_replay s history) }
{}

/// After `delete` the walk is as it was, but without the row and what is below it.
pub fn walk_after_delete()
    ensures { (s : Rows) (p : List (List ℕ)) → walk (after_delete s p) ≡ rows_outside (walk s) p }
{}

/// After a change of values in a tree the walk is as it was, but for the value of the one row at the path.
pub fn walk_after_change()
    ensures apart { (s : Rows) (p : List (List ℕ)) → IsTree s → OneAt p s.rows }
    ensures set { (s : Rows) (p : List (List ℕ)) (index : ℕ) (item : Item) → IsTree s
        → walk (after_set s p index item) ≡ map (changed_at p (λ v. put_in v index item)) (walk s) }
    ensures set_all { (s : Rows) (p : List (List ℕ)) (v : HeldValue) → IsTree s → row_at s.rows p
        ≢ None → walk (after_set_all s p v) ≡ map (changed_at p (λ _. v)) (walk s) }
    ensures resize { (s : Rows) (p : List (List ℕ)) (len : ℕ) → IsTree s
        → walk (after_resize s p len) ≡ map (changed_at p (λ v. resized v len)) (walk s) }
{}

/// In a tree the rows that `create` makes at the path after its links, the missing directories from the top and then the
/// row, come into the walk one after the other: a key right behind the keys of its directory, a directory right behind
/// everything below its parent. All other rows keep their places. A path has at most 32 names.
pub fn walk_after_create()
    ensures inserted { (s : Rows) (p q : List (List ℕ)) (kind : NewKey) (number : ℕ) → IsTree s
        → length p ≤ depth_limit → resolved s p false ≡ Ok q
        → IsRowsReply s (Create p kind (Ok number)) → AreInserted s (made_for s q (new_value kind)) }
    ensures rows { (s : Rows) (p : List (List ℕ)) (kind : NewKey) → after_create s p kind
        ≡ with_rows s (made_for s p (new_value kind)) }
{}

/// In a tree the rows that `set_all` makes where there is no row come into the walk just like those of `create`.
pub fn walk_after_set_all()
    ensures inserted { (s : Rows) (p q : List (List ℕ)) (v : HeldValue) (number : ℕ) → IsTree s
        → length p ≤ depth_limit → resolved s p true ≡ Ok q
        → IsRowsReply s (SetAll p v (Ok number)) → row_at s.rows q ≡ None
        → AreInserted s (made_for s q (Some v)) }
    ensures rows { (s : Rows) (p : List (List ℕ)) (v : HeldValue) → row_at s.rows p ≡ None
        → after_set_all s p v ≡ with_rows s (made_for s p (Some v)) }
{}

/// The rows that `put` makes where there is no row come into the walk just like those of `create`, at the path as it is.
pub fn walk_after_put()
    ensures inserted { (s : Rows) (p : List (List ℕ)) (v : HeldValue) (number : ℕ) → IsTree s
        → length p ≤ depth_limit → put_reply s p v ≡ Ok number → row_at s.rows p ≡ None
        → AreInserted s (made_for s p (Some v)) }
    ensures rows { (s : Rows) (p : List (List ℕ)) (v : HeldValue) (number : ℕ)
        → row_at s.rows p ≡ None → after_put s p v (Ok number) ≡ with_rows s (made_for s p (Some v)) }
{}

/// The new database is one, and each legal history keeps a database.
pub fn databases_stay()
    ensures begins { IsDatabase no_rows }
    ensures after { (s : Rows) (entry : DatabaseEntry) → IsDatabase s → IsSoundCall entry
        → IsRowsReply s entry → IsDatabase (rows_after s entry) }
    ensures stays { (s : Rows) (history : List (ℕ × DatabaseEntry)) → IsDatabase s
        → IsLegalRows s history → IsDatabase (rows_replay s history) }
    ensures put { (s : Rows) (p : List (List ℕ)) (v : HeldValue) (reply : Result ℕ OdbRefusal)
        → IsDatabase s → IsPath p → IsHeld s.links v → GivesTaking (is_link_type v.tid) reply
        (put_reply s p v) → IsDatabase (after_put s p v reply) }
{}

/// A call, a `put` or a legal history leaves it as it is whether links are kept.
pub fn links_stay()
    ensures after { (s : Rows) (entry : DatabaseEntry) → IsRowsReply s entry
        → (rows_after s entry).links ≡ s.links }
    ensures stays { (s : Rows) (history : List (ℕ × DatabaseEntry)) → IsLegalRows s history
        → (rows_replay s history).links ≡ s.links }
    ensures put { (s : Rows) (p : List (List ℕ)) (v : HeldValue) (reply : Result ℕ OdbRefusal)
        → (after_put s p v reply).links ≡ s.links }
{}

/// What a path after its links is. Where no row is a link, or none is met on it, it is the path. It is a path again, on which no link is followed
/// any more.
pub fn paths_after_links()
    ensures same { (s : Rows) (p : List (List ℕ)) (last : Bool) → ((q : List (List ℕ)) (r : Row)
        → row_at s.rows q ≡ Some r → is_link r ≡ false) → resolved s p last ≡ Ok p }
    ensures unmet { (s : Rows) (p : List (List ℕ)) (last : Bool) → meets_link s p last ≡ false
        → resolved s p last ≡ Ok p }
    ensures ends { (s : Rows) (p q : List (List ℕ)) (last : Bool) → s.links ≡ true
        → resolved s p last ≡ Ok q → first_link s.rows last [] q ≡ None }
    ensures path { (s : Rows) (p q : List (List ℕ)) (last : Bool) → IsDatabase s → IsPath p
        → resolved s p last ≡ Ok q → IsPath q }
{}

/// A database that keeps no links has no row of type LINK, and so each path in it is itself after its links.
pub fn paths_without_links()
    ensures rows { (s : Rows) (p : List (List ℕ)) (r : Row) → IsDatabase s → s.links ≡ false
        → row_at s.rows p ≡ Some r → is_link r ≡ false }
    ensures paths { (s : Rows) (p : List (List ℕ)) (last : Bool) → IsDatabase s → s.links ≡ false
        → lead links_limit s.rows last 0 p ≡ Ok p }
{}

/// Memory is wanted by the `set` of a number, and by a `find`, only where a link is met on the path.
pub fn links_alone_take_memory()
    ensures set { (s : Rows) (p : List (List ℕ)) (index : ℕ) (item : Item) → tid_of item ≢ Tid.Text
        → IsRowsReply s (Set p index item (Err no_memory)) → meets_link s p true ≡ true }
    ensures find { (s : Rows) (p : List (List ℕ)) → IsRowsReply s (Find p (Err no_memory))
        → meets_link s p true ≡ true }
{}

/// Want of memory excuses no refusal: where no link is met, and none is made or put, a call that answers it is one that the
/// rows accept.
pub fn memory_excuses_no_refusal()
    ensures create { (s : Rows) (p : List (List ℕ)) (kind : NewKey) → makes_link kind ≡ false
        → meets_link s p false ≡ false → IsRowsReply s (Create p kind (Err no_memory))
        → IsOk (create_reply s p kind) }
    ensures set { (s : Rows) (p : List (List ℕ)) (index : ℕ) (item : Item)
        → meets_link s p true ≡ false → IsRowsReply s (Set p index item (Err no_memory))
        → IsOk (set_reply s p index item) }
    ensures set_all { (s : Rows) (p : List (List ℕ)) (v : HeldValue) → meets_link s p true ≡ false
        → IsRowsReply s (SetAll p v (Err no_memory)) → IsOk (set_all_reply s p v) }
    ensures put { (s : Rows) (p : List (List ℕ)) (v : HeldValue) → is_link_type v.tid ≡ false
        → GivesTaking (is_link_type v.tid) (Err no_memory) (put_reply s p v)
        → IsOk (put_reply s p v) }
    ensures resize { (s : Rows) (p : List (List ℕ)) (len : ℕ) → meets_link s p true ≡ false
        → IsRowsReply s (Resize p len (Err no_memory)) → IsOk (resize_reply s p len) }
    ensures get { (s : Rows) (p : List (List ℕ)) → meets_link s p true ≡ false
        → IsRowsReply s (Get p (Err no_memory)) → IsOk (get_reply s p) }
    ensures list { (s : Rows) (p : List (List ℕ)) → meets_link s p true ≡ false
        → IsRowsReply s (ListDir p (Err no_memory)) → IsOk (list_reply s p) }
    ensures path_of { (s : Rows) (row : ℕ) (why : NoMemory) → IsRowsReply s (PathOf row (Err why))
        → IsSome (path_with s.rows row) }
{}

/// The walk through a database has its rows, each once, and so at most one row at a path.
pub fn walk_has_all_rows()
    ensures rows { (s : Rows) → IsDatabase s → IsPermutation (walk s) s.rows }
    ensures one { (s : Rows) (p : List (List ℕ)) → IsDatabase s → OneAt p (walk s) }
{}

/// What `list` answers are the rows that the walk meets directly below the directory at the path after its links, in
/// order.
pub fn list_follows_walk()
    ensures { (s : Rows) (p q : List (List ℕ)) (children : List Child) → IsDatabase s
        → resolved s p true ≡ Ok q → IsRowsReply s (ListDir p (Ok children)) → children
        ≡ map child_of (directly_below q (walk s)) }
{}

/// Directly below a directory the walk meets its keys and then its directories, each kind in order of making.
pub fn walk_of_directory()
    ensures { (s : Rows) (p : List (List ℕ)) → IsDatabase s → IsDir s.rows p
        → directly_below p (walk s) ≡ keys_in s.rows p ++ dirs_in s.rows p }
{}
