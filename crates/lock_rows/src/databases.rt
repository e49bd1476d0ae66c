//! Calls on a shared database, by the main thread and by another.
ghost use Rattle.std.specs.Prelude.{◌≡◌, [], ◌∷◌, None, IfOk};
ghost use Rattle.daq_types.specs.Callers.{main_caller};
ghost use Rattle.turn_lock.specs.Passes.{passes_of, number_of, held_by, IsOf};
ghost use Rattle.turn_lock.specs.Roster.{items_of, numbers_of, ArePassesOf, AreFresh, IsFresh};
ghost use Rattle.odb_lock.specs.SharedAccesses.{odb_pass_of};
ghost use Rattle.odb_lock.specs.SharedOdbs.{odb_lock_of};

use daq_types::{NoMemory, Tid};
use odb_lock::{OdbClosed, OdbPass, OdbPasses, SharedAccess, SharedOdb, calls};
use odb_tree::{Database, NewKey, Notes, OdbRefusal, PlainTree};
use odb_value::{Item, Path};
use odb_watch::{DatabasePort, WatchPort};
use std::alloc::Global;
use std::sync::Wait;

/// Shares an empty database with two passes.
fn share(alloc: Global) -> Result<(SharedOdb<PlainTree>, OdbPasses<PlainTree>), NoMemory>
    ensures count { IfOk result (λ made. passes_of (odb_lock_of made.0) ≡ 2) }
    ensures own { IfOk result (λ made. ArePassesOf (odb_lock_of made.0) made.1) }
    ensures numbers { IfOk result (λ made. numbers_of made.1 ≡ 0 ∷ 1 ∷ []) }
    ensures fresh { IfOk result (λ made. AreFresh made.1) }
{
    SharedOdb::new(alloc, PlainTree::new(alloc), 2)
}

/// Takes both passes of a database with two out of the list, the main thread's first.
fn two_passes(
    _shared: &SharedOdb<PlainTree>,
    passes: &mut OdbPasses<PlainTree>,
) -> (OdbPass<PlainTree>, OdbPass<PlainTree>)
    requires own { ArePassesOf (odb_lock_of _shared.now) passes.old }
    requires fresh { AreFresh passes.old }
    requires numbers { numbers_of passes.old ≡ 0 ∷ 1 ∷ [] }
    ensures left { ArePassesOf (odb_lock_of _shared.now) passes.new × (items_of passes.new ≡ []) }
    ensures own { IsOf (odb_lock_of _shared.now) result.0
        × IsOf (odb_lock_of _shared.now) result.1 }
    ensures fresh { IsFresh result.0 × IsFresh result.1 }
    ensures numbers { (number_of result.0 ≡ 0) × (number_of result.1 ≡ 1) }
{
    let Some(other) = passes.pop() else {
        unreachable!()
    };
    let Some(main) = passes.pop() else {
        unreachable!()
    };
    (main, other)
}

/// Ends the sharing between two passes, which are all there are.
fn close_two(
    shared: SharedOdb<PlainTree>,
    mut passes: OdbPasses<PlainTree>,
    main: OdbPass<PlainTree>,
    other: OdbPass<PlainTree>,
) -> OdbClosed<PlainTree>
    requires two { passes_of (odb_lock_of shared) ≡ 2 }
    requires none { ArePassesOf (odb_lock_of shared) passes × (items_of passes ≡ []) }
    requires own { IsOf (odb_lock_of shared) main × IsOf (odb_lock_of shared) other }
    requires idle { (held_by main ≡ None) × (held_by other ≡ None) }
    requires numbers { (number_of main ≡ 0) × (number_of other ≡ 1) }
{
    passes.push(main);
    passes.push(other);
    match shared.close(passes) {
        Ok(closed) => closed,
        Err(_) => unreachable!(),
    }
}

/// Makes a key by the main thread, makes it longer, sets all of it and removes it.
fn make_rows<R: Wait>(
    shared: &SharedOdb<PlainTree>,
    rt: &R,
    main: &mut OdbPass<PlainTree>,
    alloc: Global,
    path: &Path,
) -> Result<[Result<u32, OdbRefusal>; 4], OdbRefusal>
    requires main { number_of main.old ≡ main_caller }
    requires own { IsOf (odb_lock_of shared.now) main.old }
    requires idle { held_by main.old ≡ None }
    ensures own { IsOf (odb_lock_of shared.now) main.new }
    ensures idle { held_by main.new ≡ None }
    ensures number { number_of main.new ≡ number_of main.old }
{
    let kind = &NewKey::Keys {
        tid: Tid::UInt8,
        len: 2,
    };
    let made = shared.call(rt, main, calls::Create { alloc, path, kind }, &mut ());
    let value = shared.call(rt, main, calls::Get { alloc, path }, &mut ())?;
    let len = 3;
    let resized = shared.call(rt, main, calls::Resize { alloc, path, len }, &mut ());
    let value = &value;
    let set = shared.call(rt, main, calls::SetAll { alloc, path, value }, &mut ());
    let deleted = shared.call(rt, main, calls::Delete { path }, &mut ());
    Ok([made, resized, set, deleted])
}

/// Shares a database, in which the main thread makes rows: the replies, and whether the key is gone in the end.
fn make_rows_and_close<R: Wait>(
    rt: &R,
    alloc: Global,
    path: &Path,
) -> Result<(Result<[Result<u32, OdbRefusal>; 4], OdbRefusal>, bool), NoMemory> {
    let (shared, mut passes) = share(alloc)?;
    let (mut main, other) = two_passes(&shared, &mut passes);
    let replies = make_rows(&shared, rt, &mut main, alloc, path);
    let closed = close_two(shared, passes, main, other);
    Ok((replies, closed.value.database.find(alloc, path).is_err()))
}

#[test]
fn the_main_thread_makes_rows(rt: HostRuntime) {
    let path = Path::read(rt.alloc(), b"/A/b").expect(&rt, "a path");
    let made = make_rows_and_close(&rt, rt.alloc(), &path);
    assert!(rt;
        made == Ok((Ok([Ok(2), Ok(2), Ok(2), Ok(1)]), true)),
        "each call, and the key is gone"
    );
}

/// Watches all by the other port, loads a text by the main thread's and sets an item by the other: the watch, whether the
/// text is loaded, and the item's key.
fn load_and_set<R: Wait>(
    rt: &R,
    alloc: Global,
    main: &mut SharedAccess<'_, PlainTree>,
    other: &mut SharedAccess<'_, PlainTree>,
    path: &Path,
) -> (Option<u32>, bool, Result<u32, OdbRefusal>)
    requires main { number_of (odb_pass_of main.old) ≡ main_caller }
{
    let watch = other.watch(rt, alloc, 0).ok();
    let text = b"[/A]\nb = UINT8[2] :\n[0] 7\n[1] 8\n\n";
    let is_loaded = main.load(rt, alloc, text).is_ok();
    let set = other.set_lent(rt, alloc, path, 1, &Item::UInt8(9));
    (watch, is_loaded, set)
}

/// How many notes the watch lost and how many it kept, and whether it ends.
fn take_notes<R: Wait>(
    rt: &R,
    alloc: Global,
    port: &mut SharedAccess<'_, PlainTree>,
) -> Result<(Option<u64>, usize, bool), NoMemory> {
    let mut notes = Notes::new(alloc)?;
    let lost = port.notes(rt, 0, &mut notes).ok();
    Ok((lost, notes.len(), port.unwatch(rt, 0).is_ok()))
}

/// Whether the text with the item that was set is saved.
fn is_set<R: Wait>(
    rt: &R,
    alloc: Global,
    port: &mut SharedAccess<'_, PlainTree>,
) -> Result<bool, NoMemory> {
    let dump = port.save(rt, alloc)?;
    Ok(dump.as_slice() == b"[/A]\nb = UINT8[2] :\n[0] 7\n[1] 9\n\n".as_slice())
}

/// Makes the calls by two ports: whether the item is set and noted, and whether it is saved, the key is found and the other
/// pass comes back.
fn call_by_ports<R: Wait>(
    rt: &R,
    alloc: Global,
    main: &mut SharedAccess<'_, PlainTree>,
    mut other: SharedAccess<'_, PlainTree>,
    path: Path,
) -> (bool, bool)
    requires main { number_of (odb_pass_of main.old) ≡ main_caller }
{
    let set = load_and_set(rt, alloc, main, &mut other, &path);
    let noted = take_notes(rt, alloc, &mut other);
    let saved = is_set(rt, alloc, main);
    let found = main.find(rt, alloc, path);
    (
        (set, noted) == ((Some(0), true, Ok(2)), Ok((Some(0), 3, true))),
        (saved, found, other.into_pass().number()) == (Ok(true), Ok(2), 1),
    )
}

/// Shares a database with two ports, by which the calls are made.
fn share_by_ports<R: Wait>(rt: &R, alloc: Global, path: Path) -> Result<(bool, bool), NoMemory> {
    let (shared, mut passes) = share(alloc)?;
    let (main, other) = two_passes(&shared, &mut passes);
    let mut main = SharedAccess::new(&shared, main);
    let other = SharedAccess::new(&shared, other);
    Ok(call_by_ports(rt, alloc, &mut main, other, path))
}

#[test]
fn ports_lead_to_one_database(rt: HostRuntime) {
    let path = Path::read(rt.alloc(), b"/A/b").expect(&rt, "a path");
    let (is_noted, is_saved) = share_by_ports(&rt, rt.alloc(), path).expect(&rt, "memory");
    assert!(rt; is_noted, "the item is set and noted");
    assert!(rt; is_saved, "it is saved, and the key is found");
}

/// The second pass has then seen what the first has.
fn meet_what_was_seen(
    shared: &SharedOdb<PlainTree>,
    first: &mut OdbPass<PlainTree>,
    second: &mut OdbPass<PlainTree>,
)
    requires first { IsOf (odb_lock_of shared.now) first.old }
    requires second { IsOf (odb_lock_of shared.now) second.old }
    requires idle { held_by second.old ≡ None }
    ensures second { IsOf (odb_lock_of shared.now) second.new }
    ensures idle { held_by second.new ≡ None }
{
    let note = shared.lock().note(first);
    shared.lock().meet(second, note);
}

/// A directory that the main thread makes, and what the other finds behind a meeting with what the main thread has seen.
fn make_meet_and_find<R: Wait>(
    rt: &R,
    alloc: Global,
    path: &Path,
) -> Result<[Result<u32, OdbRefusal>; 2], NoMemory> {
    let (shared, mut passes) = share(alloc)?;
    let (mut main, mut other) = two_passes(&shared, &mut passes);
    let kind = &NewKey::Dir;
    let made = shared.call(rt, &mut main, calls::Create { alloc, path, kind }, &mut ());
    meet_what_was_seen(&shared, &mut main, &mut other);
    let found = shared.call(rt, &mut other, calls::Find { alloc, path }, &mut ());
    Ok([made, found])
}

// What a pass has seen stands in contracts alone: the row shows that the two calls can be made.
#[test]
fn a_pass_meets_what_another_has_seen(rt: HostRuntime) {
    let path = Path::read(rt.alloc(), b"/A/b").expect(&rt, "a path");
    let found = make_meet_and_find(&rt, rt.alloc(), &path);
    assert!(rt;
        found == Ok([Ok(2); 2]),
        "the directory that was made is found"
    );
}
