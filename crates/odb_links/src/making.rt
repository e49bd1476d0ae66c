ghost use Rattle.std.specs.Prelude.{◌≡◌, ◌<◌, ◌≤◌, ℕ, List, false, true, length, Ok, IfOk, IsOk, IsErr};
ghost use Rattle.std.specs.Option.{option_copied};
ghost use Rattle.daq_types.specs.declared.types.Tid.TheVariants as tid;
ghost use Rattle.odb_value.specs.Paths.{IsPath};
ghost use Rattle.odb_value.specs.PathText.{path_text, path_reply};
ghost use Rattle.odb_value.specs.ItemTexts.{text_limit};
ghost use Rattle.odb_value.specs.Values.{IsValue};
ghost use Rattle.odb_value.specs.LinkValues.{IsLink, IsValueOrLink, is_link_type};
ghost use Rattle.odb_tree.specs.declared.rows.NewKey.TheVariants.{Link as new_link};
ghost use Rattle.odb_tree.specs.declared.entry.DatabaseEntry.TheVariants.{Create};
ghost use Rattle.odb_tree.specs.Links.{target_of_items};
ghost use Rattle.odb_tree.specs.Calls.{Gives, GivesTaking, create_reply, rows_there, raw_reply, put_reply, after_put};
ghost use Rattle.odb_tree.specs.Noting.{changes_for, changes_of_put, all_noted};
ghost use Rattle.odb_links.specs.Seen.{AreLinks, seen, typed};
ghost use Rattle.odb_links.specs.declared.links.Link.{Link};
ghost use Rattle.odb_links.specs.Writing.{StandsThere, IsLinkAt, IsForLinks, as_size, text_held, IsTextTo, IsTextIn};

use crate::links::{Link, keep, target_of};
use daq_text::TextBuffer;
use daq_types::{NoMemory, Tid};
use odb_tree::{Database, NewKey, OdbRefusal, What};
use odb_value::{Item, Items, Path, TextBytes, Value, print_path};
use std::alloc::Global;

/// The most bytes of a text.
const TEXT_LIMIT: usize = 1023;

/// What stands at a path.
#[derive(Clone, Copy)]
pub enum Standing {
    Nothing,
    Linked,
    /// A key that is no link, a directory, or the root.
    Other,
}

/// What stands at the path as it is. Takes no memory.
fn stands_at<D: Database>(tree: &D, links: &[Link], alloc: Global, path: &Path) -> Standing
    requires { AreLinks links.now (D.rows tree.now) }
    ensures { StandsThere links.now (D.rows tree.now) path.now result }
{
    let _ = path.names();
    match tree.find(alloc, path) {
        Err(_) => Standing::Nothing,
        Ok(row) => match target_of(links, row) {
            Some(_) => Standing::Linked,
            None => Standing::Other,
        },
    }
}

/// Whether a link stands at the path as it is. Takes no memory.
fn is_link_at<D: Database>(tree: &D, links: &[Link], alloc: Global, path: &Path) -> bool
    requires { AreLinks links.now (D.rows tree.now) }
    ensures { IsLinkAt links.now (D.rows tree.now) path.now result }
{
    if links.is_empty() {
        return false;
    }
    match stands_at(tree, links, alloc, path) {
        Standing::Linked => true,
        Standing::Nothing | Standing::Other => false,
    }
}

/// The value as one of this type.
fn with_tid(value: Value, tid: Tid) -> Value
    requires { IsValueOrLink (typed tid value) }
    ensures { result ≡ typed tid value }
{
    let size = value.size();
    Value::of(tid, size, value.into_items())
}

/// Writes the text of a link, which goes to this path, where nothing stands or a link.
fn keep_link<D: Database>(
    tree: &mut D,
    links: &mut Vec<Link>,
    alloc: Global,
    path: &Path,
    text: &Value,
    target: Path,
) -> Result<u32, OdbRefusal>
    requires links { AreLinks links.old.items (D.rows tree.old) }
    requires free { IsForLinks links.old.items (D.rows tree.old) path.now }
    requires text { text.now.tid ≡ tid.Text }
    requires link { IsLink (typed tid.Link text.now) }
    requires goes { target_of_items text.now.items ≡ target }
    ensures reply { GivesTaking true result (put_reply (seen links.old.items (D.rows tree.old))
        path.now (typed tid.Link text.now)) }
    ensures links { AreLinks links.new.items (D.rows tree.new) }
    ensures after { seen links.new.items (D.rows tree.new) ≡ after_put
        (seen links.old.items (D.rows tree.old)) path.now (typed tid.Link text.now) result }
    ensures notes { D.watches tree.new ≡ all_noted (changes_of_put
        (seen links.old.items (D.rows tree.old)) path.now (typed tid.Link text.now) result)
        (D.watches tree.old) }
{
    let _ = path.names();
    let _ = text.tid();
    links.reserve(1)?;
    let row = tree.put(alloc, path, text)?;
    keep(links, row, target);
    Ok(row)
}

/// The value of a STRING key with this one text, as long as the text takes it.
fn text_value(alloc: Global, text: TextBytes) -> Result<Value, NoMemory>
    requires { length text ≤ text_limit }
    ensures { IfOk result (λ value. value ≡ text_held text) }
{
    let size = text.as_slice().len() as u32 + 1;
    let mut items = Vec::with_capacity(alloc, 1)?;
    items.push(Item::Text(text))?;
    Ok(Value::of(Tid::Text, size, Items::of(items)))
}

/// The text of a path as the value of a STRING key; None where it is too long for a text.
fn text_to(alloc: Global, target: &Path) -> Result<Option<Value>, NoMemory>
    ensures text { IfOk result (λ text. IsTextTo target.now text) }
    ensures path { IsPath target.now }
{
    let mut text = TextBuffer::new(alloc);
    print_path(target.names(), &mut text)?;
    if text.as_slice().len() > TEXT_LIMIT {
        return Ok(None);
    }
    let value = text_value(alloc, TextBytes::of(text.into_vec()))?;
    Ok(Some(value))
}

/// The refusal of a text that is too long, where the refusal of any other key's items is told.
fn as_size(refusal: OdbRefusal) -> OdbRefusal
    ensures { result ≡ as_size refusal }
{
    match refusal {
        OdbRefusal::Limit { what: What::Items } => OdbRefusal::Limit { what: What::Size },
        other => other,
    }
}

/// Why a link whose text is too long is not made here. What comes before is that of any key that is not made for its
/// items.
fn refuse_long<D: Database>(tree: &mut D, alloc: Global, path: &Path) -> Result<u32, OdbRefusal>
    requires { (D.rows tree.old).links ≡ false }
    ensures reply { (links : List Link) (target : List (List ℕ)) → AreLinks links (D.rows tree.old)
        → text_limit < length (path_text target)
        → GivesTaking true result (create_reply (seen links (D.rows tree.old)) path.now
        (new_link target)) }
    ensures refused { IsErr result }
    ensures rows { D.rows tree.new ≡ D.rows tree.old }
    ensures watches { D.watches tree.new ≡ D.watches tree.old }
{
    let kind = NewKey::Keys {
        tid: Tid::Text,
        len: 0,
    };
    match tree.create(alloc, path, &kind) {
        Ok(row) => Ok(row),
        Err(refusal) => Err(as_size(refusal)),
    }
}

/// Makes a link to this path, and the missing directories.
pub fn make_link<D: Database>(
    tree: &mut D,
    links: &mut Vec<Link>,
    alloc: Global,
    path: &Path,
    target: &Path,
) -> Result<u32, OdbRefusal>
    requires { AreLinks links.old.items (D.rows tree.old) }
    ensures reply { GivesTaking true result (create_reply (seen links.old.items (D.rows tree.old))
        path.now (new_link target.now)) }
    ensures links { AreLinks links.new.items (D.rows tree.new) }
    ensures after { seen links.new.items (D.rows tree.new) ≡ rows_there
        (seen links.old.items (D.rows tree.old)) (Create path.now (new_link target.now) result) }
    ensures notes { D.watches tree.new ≡ all_noted (changes_for (rows_there
        (seen links.old.items (D.rows tree.old)) (Create path.now (new_link target.now) result))
        result 0 1) (D.watches tree.old) }
{
    let Some(text) = text_to(alloc, target)? else {
        return refuse_long(tree, alloc, path);
    };
    match stands_at(tree, links.as_slice(), alloc, path) {
        Standing::Linked | Standing::Other => Err(OdbRefusal::Exists),
        Standing::Nothing => {
            let target = target.try_clone(alloc)?;
            keep_link(tree, links, alloc, path, &text, target)
        }
    }
}

/// The text of a link's value, which has one always.
fn text_of(value: &Value) -> Option<&TextBytes>
    requires { IsLink value.now }
    ensures { IsTextIn value.now (option_copied result) }
{
    match value.items().first() {
        Some(Item::Text(text)) => Some(text),
        _ => None,
    }
}

/// The path in a link's text. The text is a path's, so that memory alone can be wanting.
fn read_target(alloc: Global, text: &TextBytes) -> Result<Path, NoMemory>
    requires { IsOk (path_reply text.now) }
    ensures { IfOk result (λ path. path_reply text.now ≡ Ok path) }
{
    match Path::read(alloc, text.as_slice()) {
        Ok(path) => Ok(path),
        Err(_) => Err(NoMemory),
    }
}

/// Writes the value of a link.
fn put_link<D: Database>(
    tree: &mut D,
    links: &mut Vec<Link>,
    alloc: Global,
    path: &Path,
    value: &Value,
) -> Result<u32, OdbRefusal>
    requires links { AreLinks links.old.items (D.rows tree.old) }
    requires link { IsLink value.now }
    ensures reply { GivesTaking true result (put_reply (seen links.old.items (D.rows tree.old))
        path.now value.now) }
    ensures links { AreLinks links.new.items (D.rows tree.new) }
    ensures after { seen links.new.items (D.rows tree.new) ≡ after_put
        (seen links.old.items (D.rows tree.old)) path.now value.now result }
    ensures notes { D.watches tree.new ≡ all_noted (changes_of_put
        (seen links.old.items (D.rows tree.old)) path.now value.now result) (D.watches tree.old) }
{
    match stands_at(tree, links.as_slice(), alloc, path) {
        Standing::Other => match tree.get(alloc, path) {
            Ok(had) => Err(OdbRefusal::TypeMismatch { have: had.tid() }),
            Err(refusal) => Err(refusal),
        },
        Standing::Nothing | Standing::Linked => {
            let Some(text) = text_of(value) else {
                return Err(OdbRefusal::NoMemory);
            };
            let target = read_target(alloc, text)?;
            let text = text_value(alloc, text.try_clone(alloc)?)?;
            keep_link(tree, links, alloc, path, &text, target)
        }
    }
}

/// Writes a value that is no link's.
fn put_plain<D: Database>(
    tree: &mut D,
    links: &[Link],
    alloc: Global,
    path: &Path,
    value: &Value,
) -> Result<u32, OdbRefusal>
    requires links { AreLinks links.now (D.rows tree.old) }
    requires value { IsValue value.now }
    ensures reply { Gives result (put_reply (seen links.now (D.rows tree.old)) path.now value.now) }
    ensures links { AreLinks links.now (D.rows tree.new) }
    ensures after { seen links.now (D.rows tree.new) ≡ after_put (seen links.now (D.rows tree.old))
        path.now value.now result }
    ensures notes { D.watches tree.new ≡ all_noted (changes_of_put
        (seen links.now (D.rows tree.old)) path.now value.now result) (D.watches tree.old) }
{
    let _ = path.names();
    if is_link_at(tree, links, alloc, path) {
        return Err(OdbRefusal::TypeMismatch { have: Tid::Link });
    }
    tree.put(alloc, path, value)
}

/// Writes a value, which may be that of a link, at the path as it is.
pub fn put_value<D: Database>(
    tree: &mut D,
    links: &mut Vec<Link>,
    alloc: Global,
    path: &Path,
    value: &Value,
) -> Result<u32, OdbRefusal>
    requires { AreLinks links.old.items (D.rows tree.old) }
    ensures reply { GivesTaking (is_link_type value.now.tid) result
        (put_reply (seen links.old.items (D.rows tree.old)) path.now value.now) }
    ensures links { AreLinks links.new.items (D.rows tree.new) }
    ensures after { seen links.new.items (D.rows tree.new) ≡ after_put
        (seen links.old.items (D.rows tree.old)) path.now value.now result }
    ensures notes { D.watches tree.new ≡ all_noted (changes_of_put
        (seen links.old.items (D.rows tree.old)) path.now value.now result) (D.watches tree.old) }
{
    match value.tid() {
        Tid::Link => put_link(tree, links, alloc, path, value),
        _ => put_plain(tree, links.as_slice(), alloc, path, value),
    }
}

/// The value of a key at the path as it is: that of a link has the type LINK.
pub fn read_raw<D: Database>(
    tree: &D,
    links: &[Link],
    alloc: Global,
    path: &Path,
) -> Result<Value, OdbRefusal>
    requires { AreLinks links.now (D.rows tree.now) }
    ensures { Gives result (raw_reply (seen links.now (D.rows tree.now)) path.now) }
{
    let value = tree.get(alloc, path)?;
    if is_link_at(tree, links, alloc, path) {
        return Ok(with_tid(value, Tid::Link));
    }
    Ok(value)
}
