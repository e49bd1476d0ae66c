ghost use Rattle.std.specs.Prelude.{◌≡◌, ◌≢◌, ◌≤◌, ◌<◌, ◌+◌, ◌∷◌, ◌++◌, [], ◌^◌, true, false, None, Some, length, IfOk, IfErr, OnOk, OnErr};
ghost use Rattle.std.specs.Str.Lines.{lines};
ghost use Rattle.odb_tree.specs.Rows.{Rows};
ghost use Rattle.odb_value.specs.Paths.{depth_limit};
ghost use Rattle.odb_tree.specs.Lookups.{seek_key};
ghost use Rattle.odb_tree.specs.Links.{resolved, through};
ghost use Rattle.odb_tree.specs.declared.refusals.OdbRefusal.TheVariants.{NoMemory as no_memory};
ghost use Rattle.odb_text.specs.LineForms.{IsPassed};
ghost use Rattle.odb_text.specs.Dumps.{dump_limit};
ghost use Rattle.odb_tree.specs.Noting.{all_noted};
ghost use Rattle.odb_text.specs.declared.acts.Act.TheVariants.{Make, Write};
ghost use Rattle.odb_text.specs.TextSteps.{is_exists, there_already, make_fault, after_make, rows_fault, after_act, changes_of_act, dir_after, written, skipped};
ghost use Rattle.odb_tree.specs.Calls.{put_fault, after_set_all};
ghost use Rattle.odb_text.specs.TextFaults.{IsTextFault};
ghost use Rattle.odb_text.specs.Standing.{IsLed, IsPlaceOf};
ghost use Rattle.odb_text.specs.Blocks.{IsBlock};
ghost use Rattle.odb_text.specs.Loads.{IsLoaded, watched_as, AdvancesText, IsTextFaultAt, counts_with, place_at, IsRoomy, IsNear, broken_at, refused_at};

use crate::acts::{Act, LoadRefusal, Loaded};
use crate::blocks::{Block, read_block};
use crate::faults::BlockFault;
use crate::{is_passed, split_line};
use daq_types::{Name, NoMemory};
use odb_tree::{Database, NewKey, OdbRefusal};
use odb_value::{Path, Value};
use std::alloc::Global;

/// Where a text is read, and what it had so far.
#[derive(Drop)]
pub struct Cursor<'a> {
    /// The text that is left.
    rest: &'a [u8],
    /// The number of its first line.
    line: u32,
    /// The directory of the keys that follow.
    dir: Path,
    loaded: Loaded,
}

/// That a refusal has its reason in the database, or that memory was wanting.
fn has_reason(refusal: OdbRefusal) -> Result<(), OdbRefusal>
    ensures reason { OnOk result (refusal ≢ no_memory) }
    ensures memory { IfErr result (λ why. why ≡ no_memory) }
{
    match refusal {
        OdbRefusal::NoMemory => Err(OdbRefusal::NoMemory),
        _ => Ok(()),
    }
}

/// Whether something is there already.
fn is_exists(refusal: OdbRefusal) -> bool
    ensures { result ≡ is_exists refusal }
{
    matches!(refusal, OdbRefusal::Exists)
}

/// The path at which something stands, with the names of its directory as they are spelled there and no link within it.
fn path_there<D: Database>(
    alloc: Global,
    database: &D,
    above: &Path,
    name: Name,
) -> Result<Path, NoMemory>
    requires short { length above.now < depth_limit }
    requires led { IsLed (D.rows database.now) (above.now ++ name ∷ []) }
    ensures { IfOk result (IsPlaceOf (D.rows database.now) (above.now ++ name ∷ [])) }
{
    let Ok(number) = database.find(alloc, above) else {
        return Err(NoMemory);
    };
    let Some(mut there) = database.path_of(alloc, number)? else {
        return Err(NoMemory);
    };
    there.push(name)?;
    Ok(there)
}

/// That a directory is at the path after its links, where something is there.
fn is_dir_there<D: Database>(alloc: Global, database: &D, path: &Path) -> Result<(), OdbRefusal>
    requires { IsLed (D.rows database.now) path.now }
    ensures dir { OnOk result
        (there_already (through (resolved (D.rows database.now) path.now false)
        (λ q. seek_key (D.rows database.now).rows q)) ≡ None) }
    ensures key { IfErr result (λ why. why ≢ no_memory
        → there_already (through (resolved (D.rows database.now) path.now false)
        (λ q. seek_key (D.rows database.now).rows q)) ≡ Some why) }
{
    let Some((name, above)) = path.names().split_last() else {
        return Ok(());
    };
    let above = Path::of(alloc, above)?;
    let there = path_there(alloc, database, &above, *name)?;
    let Err(refusal) = database.raw(alloc, &there) else {
        return Err(OdbRefusal::NotDir);
    };
    has_reason(refusal)
}

/// Makes a directory where it is missing.
fn make_dir<D: Database>(alloc: Global, database: &mut D, path: &Path) -> Result<(), OdbRefusal>
    ensures fine { OnOk result (make_fault (D.rows database.old) path.now ≡ None) }
    ensures made { OnOk result (D.rows database.new ≡ after_make (D.rows database.old) path.now) }
    ensures noted { OnOk result (D.watches database.new
        ≡ all_noted (changes_of_act (D.rows database.old) (Make path.now))
        (D.watches database.old)) }
    ensures refused { IfErr result (λ why. why ≢ no_memory
        → make_fault (D.rows database.old) path.now ≡ Some why) }
{
    match database.create(alloc, path, &NewKey::Dir) {
        Ok(_) => Ok(()),
        Err(refusal) => {
            if is_exists(refusal) {
                is_dir_there(alloc, database, path)
            } else {
                Err(refusal)
            }
        }
    }
}

/// Writes a key.
fn write_key<D: Database>(
    alloc: Global,
    database: &mut D,
    path: &Path,
    value: &Value,
) -> Result<(), OdbRefusal>
    ensures fine { OnOk result (put_fault (D.rows database.old) path.now value.now ≡ None) }
    ensures written { OnOk result (D.rows database.new
        ≡ after_set_all (D.rows database.old) path.now value.now) }
    ensures noted { OnOk result (D.watches database.new
        ≡ all_noted (changes_of_act (D.rows database.old) (Write path.now value.now))
        (D.watches database.old)) }
    ensures refused { IfErr result (λ why. why ≢ no_memory
        → put_fault (D.rows database.old) path.now value.now ≡ Some why) }
{
    match database.put(alloc, path, value) {
        Ok(_) => Ok(()),
        Err(refusal) => Err(refusal),
    }
}

/// Does what a step asks for.
fn do_act<D: Database>(alloc: Global, database: &mut D, act: &Act) -> Result<(), OdbRefusal>
    ensures fine { OnOk result (rows_fault (D.rows database.old) act.now ≡ None) }
    ensures done { OnOk result (D.rows database.new ≡ after_act (D.rows database.old) act.now) }
    ensures noted { OnOk result (D.watches database.new
        ≡ all_noted (changes_of_act (D.rows database.old) act.now) (D.watches database.old)) }
    ensures refused { IfErr result (λ why. why ≢ no_memory
        → rows_fault (D.rows database.old) act.now ≡ Some why) }
{
    match act {
        Act::Make { path } => make_dir(alloc, database, path),
        Act::Write { path, value } => write_key(alloc, database, path, value),
        Act::Skip { .. } => Ok(()),
    }
}

/// The refusal of a step that the database refuses.
fn refused_at(line: u32, why: OdbRefusal) -> LoadRefusal
    ensures { result ≡ refused_at line why }
{
    match why {
        OdbRefusal::NoMemory => LoadRefusal::NoMemory,
        _ => LoadRefusal::KeyRefused { line, why },
    }
}

/// The refusal of a text whose next lines are at fault.
fn broken_at(line: u32, fault: BlockFault) -> LoadRefusal
    requires { IsNear line fault }
    ensures { result ≡ broken_at line fault }
{
    match fault {
        BlockFault::Bad { at } => LoadRefusal::BadLine { line: line + at },
        BlockFault::Refused { why } => LoadRefusal::KeyRefused { line, why },
        BlockFault::NoMemory => LoadRefusal::NoMemory,
    }
}

/// How many keys a step writes.
fn written(act: &Act) -> u32
    ensures count { result ≡ written act.now }
    ensures small { result ≤ 1 }
{
    match act {
        Act::Make { .. } | Act::Skip { .. } => 0,
        Act::Write { .. } => 1,
    }
}

/// How many keys a step skips.
fn skipped(act: &Act) -> u32
    ensures count { result ≡ skipped act.now }
    ensures small { result ≤ 1 }
{
    match act {
        Act::Make { .. } | Act::Write { .. } => 0,
        Act::Skip { .. } => 1,
    }
}

/// The directory of the keys behind a step.
fn enter(dir: &mut Path, act: Act)
    ensures { dir.new ≡ dir_after dir.old act }
{
    match act {
        Act::Make { path } => *dir = path,
        Act::Write {
            path: _path,
            value: _value,
        } => (),
        Act::Skip { items: _items } => (),
    }
}

impl<'a> Cursor<'a> {
    /// Goes on behind the lines of a step.
    fn pass(&mut self, block: Block<'a>)
        requires line { self.old.line + block.lines < 2 ^ 32 }
        requires counts { self.old.loaded.keys + self.old.loaded.skipped + 1 < 2 ^ 32 }
        ensures dir { self.new.dir ≡ dir_after self.old.dir block.entry.act }
        ensures loaded { self.new.loaded ≡ counts_with self.old.loaded block.entry.act }
        ensures line { self.new.line ≡ self.old.line + block.entry.lines }
        ensures rest { self.new.rest.now ≡ block.entry.rest.now }
    {
        let Block { act, lines, rest } = block;
        self.loaded = Loaded {
            keys: self.loaded.keys + written(&act),
            skipped: self.loaded.skipped + skipped(&act),
        };
        self.line += lines;
        self.rest = rest;
        enter(&mut self.dir, act);
    }
}

/// Does the step of these lines, with which the text begins that is left, and goes on behind them.
/// Whether links are kept stands for the contract alone.
fn do_step<'a, D: Database>(
    alloc: Global,
    _links: bool,
    database: &mut D,
    at: &mut Cursor<'a>,
    block: Block<'a>,
) -> Result<(), LoadRefusal>
    requires block { IsBlock _links at.old.dir (lines at.old.rest.now) block.act (lines block.rest.now)
        block.lines }
    requires shorter { length block.rest.now + block.lines ≤ length at.old.rest.now }
    requires room { IsRoomy at.old.line (length at.old.rest.now) at.old.loaded }
    ensures on { OnOk result
        (AdvancesText _links (place_at at.old.rest.now at.old.line at.old.dir at.old.loaded)
        (place_at at.new.rest.now at.new.line at.new.dir at.new.loaded)
        (watched_as (D.rows database.old) (D.watches database.old))
        (watched_as (D.rows database.new) (D.watches database.new))) }
    ensures room { OnOk result (IsRoomy at.new.line (length at.new.rest.now) at.new.loaded) }
    ensures shorter { OnOk result (length at.new.rest.now < length at.old.rest.now) }
    ensures fault { IfErr result (IsTextFaultAt _links (place_at at.old.rest.now at.old.line at.old.dir
        at.old.loaded) (D.rows database.old)) }
{
    match do_act(alloc, database, &block.act) {
        Err(why) => Err(refused_at(at.line, why)),
        Ok(()) => {
            at.pass(block);
            Ok(())
        }
    }
}

/// Does the step that begins with this line.
fn do_block<'a, D: Database>(
    alloc: Global,
    links: bool,
    database: &mut D,
    at: &mut Cursor<'a>,
    line: &'a [u8],
    behind: &'a [u8],
) -> Result<(), LoadRefusal>
    requires first { lines at.old.rest.now ≡ line.now ∷ lines behind.now }
    requires less { length behind.now < length at.old.rest.now }
    requires read { IsPassed line.now → ⊥ }
    requires room { IsRoomy at.old.line (length at.old.rest.now) at.old.loaded }
    ensures on { OnOk result
        (AdvancesText links (place_at at.old.rest.now at.old.line at.old.dir at.old.loaded)
        (place_at at.new.rest.now at.new.line at.new.dir at.new.loaded)
        (watched_as (D.rows database.old) (D.watches database.old))
        (watched_as (D.rows database.new) (D.watches database.new))) }
    ensures room { OnOk result (IsRoomy at.new.line (length at.new.rest.now) at.new.loaded) }
    ensures shorter { OnOk result (length at.new.rest.now < length at.old.rest.now) }
    ensures fault { IfErr result (IsTextFaultAt links (place_at at.old.rest.now at.old.line at.old.dir
        at.old.loaded) (D.rows database.old)) }
{
    match read_block(alloc, links, &at.dir, line, behind) {
        Err(fault) => Err(broken_at(at.line, fault)),
        Ok(block) => do_step(alloc, links, database, at, block),
    }
}

/// Reads on from this line: passes it over, or does the step that begins with it.
fn read_on<'a, D: Database>(
    alloc: Global,
    links: bool,
    database: &mut D,
    at: &mut Cursor<'a>,
    line: &'a [u8],
    behind: &'a [u8],
) -> Result<(), LoadRefusal>
    requires first { lines at.old.rest.now ≡ line.now ∷ lines behind.now }
    requires less { length behind.now < length at.old.rest.now }
    requires room { IsRoomy at.old.line (length at.old.rest.now) at.old.loaded }
    ensures on { OnOk result
        (AdvancesText links (place_at at.old.rest.now at.old.line at.old.dir at.old.loaded)
        (place_at at.new.rest.now at.new.line at.new.dir at.new.loaded)
        (watched_as (D.rows database.old) (D.watches database.old))
        (watched_as (D.rows database.new) (D.watches database.new))) }
    ensures room { OnOk result (IsRoomy at.new.line (length at.new.rest.now) at.new.loaded) }
    ensures shorter { OnOk result (length at.new.rest.now < length at.old.rest.now) }
    ensures fault { IfErr result (IsTextFaultAt links (place_at at.old.rest.now at.old.line at.old.dir
        at.old.loaded) (D.rows database.old)) }
{
    if is_passed(line) {
        at.rest = behind;
        at.line += 1;
        return Ok(());
    }
    do_block(alloc, links, database, at, line, behind)
}

/// Does what a text asks for, up to the first fault.
fn load_into<D: Database>(
    alloc: Global,
    database: &mut D,
    text: &[u8],
) -> Result<Loaded, LoadRefusal>
    requires { length text.now ≤ dump_limit }
    ensures loaded { IfOk result (λ loaded. IsLoaded
        (watched_as (D.rows database.old) (D.watches database.old)) (lines text.now) loaded
        (watched_as (D.rows database.new) (D.watches database.new))) }
    ensures fault { IfErr result (IsTextFault (D.rows database.old) (lines text.now)) }
{
    let mut at = Cursor {
        rest: text,
        line: 1,
        dir: Path::root(alloc),
        loaded: Loaded {
            keys: 0,
            skipped: 0,
        },
    };
    let links = database.keeps_links();
    while let Some((line, behind)) = split_line(at.rest) {
        read_on(alloc, links, database, &mut at, line, behind)?;
    }
    Ok(at.loaded)
}

/// The refusal of the first step of a text, from this line on, where there was no memory for a copy of the database: a
/// fault of its lines, or want of memory.
fn refused_first<'a>(
    alloc: Global,
    links: bool,
    at: &Cursor<'a>,
    line: &'a [u8],
    behind: &'a [u8],
) -> LoadRefusal
    requires first { lines at.now.rest.now ≡ line.now ∷ lines behind.now }
    requires read { IsPassed line.now → ⊥ }
    requires room { IsRoomy at.now.line (length at.now.rest.now) at.now.loaded }
    ensures { (s : Rows) → IsTextFaultAt links (place_at at.now.rest.now at.now.line at.now.dir
        at.now.loaded) s result }
{
    match read_block(alloc, links, &at.dir, line, behind) {
        Err(fault) => broken_at(at.line, fault),
        Ok(_block) => LoadRefusal::NoMemory,
    }
}

/// What is told of a text where there was no memory for a copy of the database: one that asks for nothing is loaded, and
/// any other is refused at its first step.
fn load_uncopied<D: Database>(
    alloc: Global,
    database: &D,
    text: &[u8],
) -> Result<Loaded, LoadRefusal>
    requires { length text.now ≤ dump_limit }
    ensures loaded { IfOk result (λ loaded. IsLoaded
        (watched_as (D.rows database.now) (D.watches database.now)) (lines text.now) loaded
        (watched_as (D.rows database.now) (D.watches database.now))) }
    ensures fault { IfErr result (IsTextFault (D.rows database.now) (lines text.now)) }
{
    let mut at = Cursor {
        rest: text,
        line: 1,
        dir: Path::root(alloc),
        loaded: Loaded {
            keys: 0,
            skipped: 0,
        },
    };
    let links = database.keeps_links();
    while let Some((line, behind)) = split_line(at.rest) {
        if !is_passed(line) {
            return Err(refused_first(alloc, links, &at, line, behind));
        }
        at.rest = behind;
        at.line += 1;
    }
    Ok(at.loaded)
}

/// Loads a text of at most 268,435,456 bytes: makes the directories and writes the keys that it asks for, in its order.
/// Each directory is made at its path after its links, and each key is put at its path as it is. Keys of the types FLOAT,
/// DOUBLE and BITFIELD are skipped, and those of type LINK where the database keeps no links. The lines of a text that is
/// loaded are those of steps none of which is refused, and watches of the database note each key that is written, item by
/// item. Else a line at fault is told: the lines before it are those of steps none of which is refused, and there the text
/// leaves the grammar, or what it asks for is refused. Want of memory excuses no fault: it is told at a step before which
/// nothing is at fault, and whose own lines are in the grammar as far as they were read. The database and its watches are
/// then as they were.
#[tactic(auto, using(crate::proofs::Loads::loaded_from))]
pub fn load<D: Database>(
    alloc: Global,
    database: &mut D,
    text: &[u8],
) -> Result<Loaded, LoadRefusal>
    requires { length text.now ≤ dump_limit }
    ensures loaded { IfOk result (λ loaded. IsLoaded
        (watched_as (D.rows database.old) (D.watches database.old)) (lines text.now) loaded
        (watched_as (D.rows database.new) (D.watches database.new))) }
    ensures fault { IfErr result (IsTextFault (D.rows database.old) (lines text.now)) }
    ensures kept { OnErr result (D.rows database.new ≡ D.rows database.old) }
    ensures unnoted { OnErr result (D.watches database.new ≡ D.watches database.old) }
{
    let Ok(mut copy) = database.copy(alloc) else {
        return load_uncopied(alloc, database, text);
    };
    let loaded = load_into(alloc, &mut copy, text)?;
    *database = copy;
    Ok(loaded)
}
