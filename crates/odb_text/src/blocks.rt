ghost use Rattle.std.specs.Prelude.{◌≡◌, ◌≤◌, ◌<◌, ◌+◌, ◌∷◌, ◌++◌, [], ℕ, List, true, false, ◌&&◌, length, IfOk, IfErr};
ghost use Rattle.std.specs.Str.Lines.{lines};
ghost use Rattle.daq_types.specs.declared.types.Tid.{Tid};
ghost use Rattle.odb_value.specs.Paths.{depth_limit};
ghost use Rattle.odb_value.specs.Items.{is_kept};
ghost use Rattle.odb_value.specs.Values.{IsValue, items_limit, size_limit};
ghost use Rattle.odb_text.specs.LineForms.{IsPassed, IsDirLine, IsKeyLine, IsSingle, IsArray};
ghost use Rattle.odb_text.specs.ItemLines.{is_string};
ghost use Rattle.odb_text.specs.Grammar.{size_for, IsKeyIn, IsArrayHead, IsSkippedHead, is_skipped};
ghost use Rattle.odb_value.specs.LinkValues.{is_link_type};
ghost use Rattle.odb_text.specs.Blocks.{ReadsLink, IsBlock, IsBlockFault, block_fault, IsAloneRead, IsAloneFault};

use crate::acts::Act;
use crate::arrays::{ItemsSoFar, read_items, take_item};
use crate::faults::{BlockFault, ItemsFault};
use crate::links::{ReadLink, link_value, read_link};
use crate::skips::skip_items;
use crate::{array, is_string, item_alone, key_line, read_dir_line, single};
use daq_types::{Name, NoMemory, Tid};
use odb_tree::{OdbRefusal, What, is_kept};
use odb_value::{Item, Items, MAX_DEPTH, Path, Value};
use std::alloc::Global;

/// The lines of a step.
#[derive(Drop)]
pub struct Block<'a> {
    pub act: Act,
    /// How many lines these are.
    pub lines: u32,
    /// The text behind them.
    pub rest: &'a [u8],
}

/// The line of a key, and the text behind it.
#[derive(Drop)]
struct KeyHead<'a> {
    line: &'a [u8],
    name: Name,
    tid: Tid,
    /// What stands behind the type.
    rest: &'a [u8],
    behind: &'a [u8],
    /// Whether the database keeps links.
    links: bool,
}

/// Whether keys of this type are skipped, by a database that keeps links or none.
fn is_skipped(links: bool, tid: Tid) -> bool
    ensures { result ≡ is_skipped links tid }
{
    match tid {
        Tid::Float | Tid::Double | Tid::BitField => true,
        Tid::Link => !links,
        _ => false,
    }
}

/// Whether keys of this type are links, in a database that keeps links or none.
fn is_link(links: bool, tid: Tid) -> bool
    ensures { result ≡ (links && is_link_type tid) }
{
    links && matches!(tid, Tid::Link)
}

/// The path of a key in a directory.
fn path_in(alloc: Global, dir: &Path, name: Name) -> Result<Path, NoMemory>
    requires { length dir.now < depth_limit }
    ensures { IfOk result (λ path. path ≡ dir.now ++ name ∷ []) }
{
    let mut path = dir.try_clone(alloc)?;
    path.push(name)?;
    Ok(path)
}

/// The value of a key with these items, which want this size.
fn key_value(tid: Tid, size: u64, items: Vec<Item>) -> Value
    requires value { IsValue (record {
      tid = tid;
      size = size_for (is_string tid) tid size;
      items = items.items;
    }) }
    requires small { size ≤ size_limit }
    ensures { result ≡ record {
      tid = tid;
      size = size_for (is_string tid) tid size;
      items = items.items;
    } }
{
    let size = if is_string(tid) {
        size as u32
    } else {
        tid.size()
    };
    Value::of(tid, size, Items::of(items))
}

/// The fault of a key whose items are at fault.
fn items_fault(fault: ItemsFault) -> BlockFault
    ensures { result ≡ block_fault fault }
{
    match fault {
        ItemsFault::BadItem { at } => BlockFault::Bad { at },
        ItemsFault::WideItem => BlockFault::Refused {
            why: OdbRefusal::Limit { what: What::Size },
        },
        ItemsFault::NoMemory => BlockFault::NoMemory,
    }
}

/// Reads an array.
fn array_key<'a>(
    alloc: Global,
    dir: &Path,
    head: &KeyHead<'a>,
    count: u32,
) -> Result<Block<'a>, BlockFault>
    requires head { IsArrayHead dir.now head.now.line.now head.now.name head.now.tid count }
    requires many { count ≤ items_limit }
    ensures block { IfOk result
        (λ block. IsBlock head.now.links dir.now (head.now.line.now ∷ lines head.now.behind.now)
        block.act (lines block.rest.now) block.lines) }
    ensures shorter { IfOk result (λ block. length block.rest.now + block.lines
        ≤ length head.now.behind.now + 1) }
    ensures fault { IfErr result (IsBlockFault head.now.links dir.now (head.now.line.now
        ∷ lines head.now.behind.now)) }
{
    match read_items(alloc, head.tid, count, head.behind) {
        Err(fault) => Err(items_fault(fault)),
        Ok(read) => {
            let path = path_in(alloc, dir, head.name)?;
            let value = key_value(head.tid, read.size, read.items);
            Ok(Block {
                act: Act::Write { path, value },
                lines: count + 1,
                rest: read.rest,
            })
        }
    }
}

/// The one item of a key.
fn alone<'a>(
    alloc: Global,
    tid: Tid,
    text: &[u8],
    behind: &'a [u8],
) -> Result<ItemsSoFar<'a>, ItemsFault>
    ensures read { IfOk result (λ read. IsAloneRead tid text.now read.items.items read.size) }
    ensures rest { IfOk result (λ read. read.rest.now ≡ behind.now) }
    ensures fault { IfErr result (IsAloneFault tid text.now) }
{
    let mut so_far = ItemsSoFar {
        items: Vec::new(alloc),
        size: 0,
        rest: behind,
    };
    match item_alone(alloc, tid, text) {
        Err(_) => Err(ItemsFault::NoMemory),
        Ok(None) => Err(ItemsFault::BadItem { at: 0 }),
        Ok(Some(read)) => match take_item(tid, read, behind, &mut so_far) {
            Err(fault) => Err(fault),
            Ok(()) => Ok(so_far),
        },
    }
}

/// Reads a key of one item.
fn single_key<'a>(
    alloc: Global,
    dir: &Path,
    head: &KeyHead<'a>,
    text: &[u8],
) -> Result<Block<'a>, BlockFault>
    requires key { IsKeyIn dir.now head.now.line.now head.now.name head.now.tid head.now.rest.now }
    requires kept { is_kept head.now.tid ≡ true }
    requires single { IsSingle head.now.rest.now text.now }
    requires no_pass { IsPassed head.now.line.now → ⊥ }
    requires no_dir { (p : List (List ℕ)) → IsDirLine head.now.line.now p → ⊥ }
    ensures block { IfOk result
        (λ block. IsBlock head.now.links dir.now (head.now.line.now ∷ lines head.now.behind.now)
        block.act (lines block.rest.now) block.lines) }
    ensures shorter { IfOk result (λ block. length block.rest.now + block.lines
        ≤ length head.now.behind.now + 1) }
    ensures fault { IfErr result (IsBlockFault head.now.links dir.now (head.now.line.now
        ∷ lines head.now.behind.now)) }
{
    match alone(alloc, head.tid, text, head.behind) {
        Err(fault) => Err(items_fault(fault)),
        Ok(read) => {
            let path = path_in(alloc, dir, head.name)?;
            let value = key_value(head.tid, read.size, read.items);
            Ok(Block {
                act: Act::Write { path, value },
                lines: 1,
                rest: read.rest,
            })
        }
    }
}

/// Reads a key of a type of which the database keeps values.
fn kept_key<'a>(alloc: Global, dir: &Path, head: &KeyHead<'a>) -> Result<Block<'a>, BlockFault>
    requires key { IsKeyIn dir.now head.now.line.now head.now.name head.now.tid head.now.rest.now }
    requires kept { is_kept head.now.tid ≡ true }
    requires no_pass { IsPassed head.now.line.now → ⊥ }
    requires no_dir { (p : List (List ℕ)) → IsDirLine head.now.line.now p → ⊥ }
    ensures block { IfOk result
        (λ block. IsBlock head.now.links dir.now (head.now.line.now ∷ lines head.now.behind.now)
        block.act (lines block.rest.now) block.lines) }
    ensures shorter { IfOk result (λ block. length block.rest.now + block.lines
        ≤ length head.now.behind.now + 1) }
    ensures fault { IfErr result (IsBlockFault head.now.links dir.now (head.now.line.now
        ∷ lines head.now.behind.now)) }
{
    match single(head.rest) {
        Some(text) => single_key(alloc, dir, head, text),
        None => match array(head.rest) {
            None => Err(BlockFault::Bad { at: 0 }),
            Some(None) => Err(BlockFault::Refused {
                why: OdbRefusal::Limit { what: What::Items },
            }),
            Some(Some(count)) => array_key(alloc, dir, head, count as u32),
        },
    }
}

/// Reads an array that is skipped. The directory stands for the contract alone.
fn skipped_array<'a>(_dir: &Path, head: &KeyHead<'a>, count: u32) -> Result<Block<'a>, BlockFault>
    requires key { IsKeyIn _dir.now head.now.line.now head.now.name head.now.tid head.now.rest.now }
    requires skipped { is_skipped head.now.links head.now.tid ≡ true }
    requires array { IsArray head.now.rest.now count }
    requires many { count ≤ items_limit }
    ensures block { IfOk result
        (λ block. IsBlock head.now.links _dir.now (head.now.line.now ∷ lines head.now.behind.now)
        block.act (lines block.rest.now) block.lines) }
    ensures shorter { IfOk result (λ block. length block.rest.now + block.lines
        ≤ length head.now.behind.now + 1) }
    ensures fault { IfErr result (IsBlockFault head.now.links _dir.now (head.now.line.now
        ∷ lines head.now.behind.now)) }
{
    match skip_items(count, head.behind) {
        Err(at) => Err(BlockFault::Bad { at: at + 1 }),
        Ok(rest) => Ok(Block {
            act: Act::Skip {
                items: count as u64,
            },
            lines: count + 1,
            rest,
        }),
    }
}

/// Reads a key that is skipped.
fn skipped_key<'a>(dir: &Path, head: &KeyHead<'a>) -> Result<Block<'a>, BlockFault>
    requires key { IsKeyIn dir.now head.now.line.now head.now.name head.now.tid head.now.rest.now }
    requires skipped { is_skipped head.now.links head.now.tid ≡ true }
    requires no_pass { IsPassed head.now.line.now → ⊥ }
    requires no_dir { (p : List (List ℕ)) → IsDirLine head.now.line.now p → ⊥ }
    ensures block { IfOk result
        (λ block. IsBlock head.now.links dir.now (head.now.line.now ∷ lines head.now.behind.now)
        block.act (lines block.rest.now) block.lines) }
    ensures shorter { IfOk result (λ block. length block.rest.now + block.lines
        ≤ length head.now.behind.now + 1) }
    ensures fault { IfErr result (IsBlockFault head.now.links dir.now (head.now.line.now
        ∷ lines head.now.behind.now)) }
{
    match single(head.rest) {
        Some(_) => Ok(Block {
            act: Act::Skip { items: 0 },
            lines: 1,
            rest: head.behind,
        }),
        None => match array(head.rest) {
            None => Err(BlockFault::Bad { at: 0 }),
            Some(None) => Err(BlockFault::Refused {
                why: OdbRefusal::Limit { what: What::Items },
            }),
            Some(Some(count)) => skipped_array(dir, head, count as u32),
        },
    }
}

/// The step of a link that was read.
fn link_block<'a>(
    alloc: Global,
    dir: &Path,
    head: &KeyHead<'a>,
    link: ReadLink,
) -> Result<Block<'a>, BlockFault>
    requires read { ReadsLink dir.now head.now.line.now head.now.name link }
    requires kept { head.now.links ≡ true }
    ensures block { IfOk result
        (λ block. IsBlock head.now.links dir.now (head.now.line.now ∷ lines head.now.behind.now)
        block.act (lines block.rest.now) block.lines) }
    ensures shorter { IfOk result (λ block. length block.rest.now + block.lines
        ≤ length head.now.behind.now + 1) }
    ensures fault { IfErr result (IsBlockFault head.now.links dir.now (head.now.line.now
        ∷ lines head.now.behind.now)) }
{
    let ReadLink { size, text } = link;
    match size {
        None => Err(BlockFault::Refused {
            why: OdbRefusal::Limit { what: What::Size },
        }),
        Some(_) => {
            let path = path_in(alloc, dir, head.name)?;
            let value = link_value(alloc, text)?;
            Ok(Block {
                act: Act::Write { path, value },
                lines: 1,
                rest: head.behind,
            })
        }
    }
}

/// Reads a link.
fn link_key<'a>(alloc: Global, dir: &Path, head: &KeyHead<'a>) -> Result<Block<'a>, BlockFault>
    requires key { IsKeyIn dir.now head.now.line.now head.now.name head.now.tid head.now.rest.now }
    requires link { (head.now.links && is_link_type head.now.tid) ≡ true }
    requires no_pass { IsPassed head.now.line.now → ⊥ }
    requires no_dir { (p : List (List ℕ)) → IsDirLine head.now.line.now p → ⊥ }
    ensures block { IfOk result
        (λ block. IsBlock head.now.links dir.now (head.now.line.now ∷ lines head.now.behind.now)
        block.act (lines block.rest.now) block.lines) }
    ensures shorter { IfOk result (λ block. length block.rest.now + block.lines
        ≤ length head.now.behind.now + 1) }
    ensures fault { IfErr result (IsBlockFault head.now.links dir.now (head.now.line.now
        ∷ lines head.now.behind.now)) }
{
    match single(head.rest) {
        None => Err(BlockFault::Bad { at: 0 }),
        Some(text) => match read_link(alloc, text) {
            Err(_) => Err(BlockFault::NoMemory),
            Ok(None) => Err(BlockFault::Bad { at: 0 }),
            Ok(Some(link)) => link_block(alloc, dir, head, link),
        },
    }
}

/// Reads a key.
fn read_key<'a>(alloc: Global, dir: &Path, head: &KeyHead<'a>) -> Result<Block<'a>, BlockFault>
    requires key { IsKeyLine head.now.line.now head.now.name head.now.tid head.now.rest.now }
    requires no_pass { IsPassed head.now.line.now → ⊥ }
    requires no_dir { (p : List (List ℕ)) → IsDirLine head.now.line.now p → ⊥ }
    ensures block { IfOk result
        (λ block. IsBlock head.now.links dir.now (head.now.line.now ∷ lines head.now.behind.now)
        block.act (lines block.rest.now) block.lines) }
    ensures shorter { IfOk result (λ block. length block.rest.now + block.lines
        ≤ length head.now.behind.now + 1) }
    ensures fault { IfErr result (IsBlockFault head.now.links dir.now (head.now.line.now
        ∷ lines head.now.behind.now)) }
{
    if dir.names().len() >= MAX_DEPTH {
        return Err(BlockFault::Bad { at: 0 });
    }
    if is_kept(head.tid) {
        return kept_key(alloc, dir, head);
    }
    if is_skipped(head.links, head.tid) {
        return skipped_key(dir, head);
    }
    if is_link(head.links, head.tid) {
        return link_key(alloc, dir, head);
    }
    Err(BlockFault::Bad { at: 0 })
}

/// Reads the lines of one step, in this directory of a database that keeps links or none. The first of them is `line`,
/// which is not passed over, and `behind` is the text behind it.
pub fn read_block<'a>(
    alloc: Global,
    links: bool,
    dir: &Path,
    line: &'a [u8],
    behind: &'a [u8],
) -> Result<Block<'a>, BlockFault>
    requires { IsPassed line.now → ⊥ }
    ensures block { IfOk result (λ block. IsBlock links dir.now (line.now ∷ lines behind.now) block.act
        (lines block.rest.now) block.lines) }
    ensures shorter { IfOk result (λ block. length block.rest.now + block.lines
        ≤ length behind.now + 1) }
    ensures fault { IfErr result (IsBlockFault links dir.now (line.now ∷ lines behind.now)) }
{
    match read_dir_line(alloc, line) {
        Err(_) => Err(BlockFault::NoMemory),
        Ok(Some(path)) => Ok(Block {
            act: Act::Make { path },
            lines: 1,
            rest: behind,
        }),
        Ok(None) => match key_line(line) {
            None => Err(BlockFault::Bad { at: 0 }),
            Some((name, tid, rest)) => read_key(
                alloc,
                dir,
                &KeyHead {
                    line,
                    name,
                    tid,
                    rest,
                    behind,
                    links,
                },
            ),
        },
    }
}
