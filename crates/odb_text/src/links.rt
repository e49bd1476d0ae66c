ghost use Rattle.std.specs.Prelude.{◌≡◌, ◌↔◌, ℕ, List, IsTrue, OnErr, IfOk, IfSome, IfNone};
ghost use Rattle.daq_types.specs.declared.types.Tid.{Tid};
ghost use Rattle.daq_text.specs.Numbers.{up_to};
ghost use Rattle.odb_value.specs.declared.items.Item.TheVariants.{Text};
ghost use Rattle.odb_value.specs.Values.{size_limit};
ghost use Rattle.odb_value.specs.LinkValues.{IsLink};
ghost use Rattle.odb_text.specs.ItemLines.{IsItemAlone, IsPathText, IsLinkAlone};
ghost use Rattle.odb_text.specs.Grammar.{held_link};

use crate::words::{behind_blank, bracketed};
use crate::{ReadItem, item_alone};
use daq_types::{NoMemory, Tid};
use odb_value::{Item, Items, TextBytes, Value, path_fault};
use std::alloc::Global;

/// A link as it stands in a line.
#[derive(Drop)]
pub struct ReadLink {
    /// The item size that is given for it; None for one above 1,024.
    pub size: Option<u64>,
    /// The text of its path, as it stands there.
    pub text: TextBytes,
}

/// Whether the text is that of a path.
fn is_path(text: &[u8]) -> bool
    ensures { IsTrue result ↔ IsPathText text.now }
{
    path_fault(text).is_none()
}

/// Whether the text is that of a path which stands behind the size of a link.
fn has_path(text: &[u8]) -> bool
    ensures { (size : ℕ) (link : List ℕ) → IsItemAlone Tid.Text text.now size (Text link)
        → (IsTrue result ↔ IsPathText link) }
{
    match bracketed(behind_blank(text)) {
        None => false,
        Some((_, rest)) => is_path(behind_blank(rest)),
    }
}

/// The link with the text of an item that was read; None exactly where it is no text, or that of no path.
fn link_of(read: ReadItem) -> Option<ReadLink>
    ensures size { IfSome result (λ link. link.size ≡ read.size) }
    ensures text { IfSome result (λ link. read.item ≡ Text link.text) }
    ensures path { IfSome result (λ link. IsPathText link.text) }
    ensures none { IfNone result ((text : List ℕ) → read.item ≡ Text text → IsPathText text → ⊥) }
{
    let ReadItem { size, item } = read;
    let Item::Text(text) = item else {
        return None;
    };
    if is_path(text.as_slice()) {
        Some(ReadLink { size, text })
    } else {
        None
    }
}

/// The link that a text says which stands behind the colon of its key; None exactly where it says none.
pub fn read_link(alloc: Global, text: &[u8]) -> Result<Option<ReadLink>, NoMemory>
    ensures some { IfOk result (λ found. IfSome found (λ read. (size : ℕ)
        × (IsLinkAlone text.now size read.text × (read.size ≡ up_to size_limit size)))) }
    ensures none { IfOk result (λ found. IfNone found ((size : ℕ) (link : List ℕ)
        → IsLinkAlone text.now size link → ⊥)) }
    ensures memory { OnErr result ((size : ℕ) × (link : List ℕ) × IsLinkAlone text.now size link) }
{
    match item_alone(alloc, Tid::Text, text) {
        Err(error) => { if has_path(text) { Err(error) } else { Ok(None) } }
        Ok(None) => Ok(None),
        Ok(Some(read)) => Ok(link_of(read)),
    }
}

/// The value of a link with this text.
pub fn link_value(alloc: Global, text: TextBytes) -> Result<Value, NoMemory>
    requires { IsLink (held_link 0 text) }
    ensures { IfOk result (λ value. value ≡ held_link 0 text) }
{
    let size = text.as_slice().len() as u32 + 1;
    let mut items = Vec::new(alloc);
    items.push(Item::Text(text))?;
    Ok(Value::of(Tid::Link, size, Items::of(items)))
}
