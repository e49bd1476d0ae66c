ghost use Rattle.std.specs.Prelude.{◌≡◌, ◌≢◌, ◌↔◌, ℕ, Ok, IsOk, IsTrue, OnOk, OnErr, IfOk, IfSome, IfNone};
ghost use Rattle.std.specs.Fmt.{decimal};
ghost use Rattle.std.specs.Str.Parse.{IsNumeral};
ghost use Rattle.daq_text.specs.Numbers.{up_to};
ghost use Rattle.odb_value.specs.declared.items.Item.{Item};
ghost use Rattle.odb_value.specs.ItemTexts.{item_read};
ghost use Rattle.odb_value.specs.Values.{size_limit};
ghost use Rattle.odb_text.specs.LineForms.{behind_blank};
ghost use Rattle.odb_text.specs.ItemLines.{is_string, IsFrontNumber, IsItemLine, IsAloneText, IsItemAlone};
ghost use Rattle.odb_text.specs.TextFaults.{IsSomeItemLine};
ghost use Rattle.odb_text.specs.Blocks.{IsSomeAlone};

use crate::words::{behind_blank, bracketed, spelled};
use daq_types::{NoMemory, Tid};
use itoa::Buffer;
use odb_value::{Item, ItemRefusal, parse_item};
use std::alloc::Global;

/// The greatest item size of a STRING.
const MAX_SIZE: u64 = 1024;

/// An item as it stands in a line.
#[derive(Drop)]
pub struct ReadItem {
    /// The item size that is given for it: 0 where the key is no STRING, and None for one above 1,024.
    pub size: Option<u64>,
    pub item: Item,
}

/// That a refused item's text is at fault, or that memory was wanting.
fn is_at_fault(refusal: ItemRefusal) -> Result<(), NoMemory>
    ensures fault { OnOk result (refusal ≢ ItemRefusal.NoMemory) }
    ensures memory { OnErr result (refusal ≡ ItemRefusal.NoMemory) }
{
    match refusal {
        ItemRefusal::NoMemory => Err(NoMemory),
        _ => Ok(()),
    }
}

/// The item of this type that the text spells; None exactly where it spells none.
fn read_item(alloc: Global, tid: Tid, text: &[u8]) -> Result<Option<Item>, NoMemory>
    ensures some { IfOk result (λ found. IfSome found (λ item. item_read tid text.now ≡ Ok item)) }
    ensures none { IfOk result (λ found. IfNone found ((item : Item) → item_read tid text.now
        ≡ Ok item → ⊥)) }
    ensures memory { OnErr result (IsOk (item_read tid text.now)) }
{
    match parse_item(alloc, tid, text) {
        Ok(item) => Ok(Some(item)),
        Err(refusal) => {
            is_at_fault(refusal)?;
            Ok(None)
        }
    }
}

/// Whether the type is STRING.
pub fn is_string(tid: Tid) -> bool
    ensures { result ≡ is_string tid }
{
    matches!(tid, Tid::Text)
}

/// Whether these are the decimal digits of the number.
fn are_digits_of(number: u64, digits: &[u8]) -> bool
    ensures { IsTrue result ↔ (digits.now ≡ decimal number) }
{
    let mut buffer = Buffer::new();
    digits == buffer.format(number).as_bytes()
}

/// The size that the number in front of an item gives; None exactly where it is not the item's index, but for a STRING.
fn front_number(string: bool, index: u64, digits: &[u8]) -> Option<Option<u64>>
    requires { IsNumeral 10 digits.now }
    ensures some { IfSome result (λ given. (size : ℕ) × (IsFrontNumber string index digits.now size
        × (given ≡ up_to size_limit size))) }
    ensures none { IfNone result ((size : ℕ) → IsFrontNumber string index digits.now size → ⊥) }
{
    if string {
        return Some(spelled(digits, MAX_SIZE));
    }
    if are_digits_of(index, digits) {
        Some(Some(0))
    } else {
        None
    }
}

/// The item with this size.
fn sized(
    alloc: Global,
    tid: Tid,
    size: Option<u64>,
    text: &[u8],
) -> Result<Option<ReadItem>, NoMemory>
    ensures item { IfOk result (λ found. IfSome found (λ read. item_read tid text.now
        ≡ Ok read.item)) }
    ensures size { IfOk result (λ found. IfSome found (λ read. read.size ≡ size)) }
    ensures none { IfOk result (λ found. IfNone found ((item : Item) → item_read tid text.now
        ≡ Ok item → ⊥)) }
    ensures memory { OnErr result (IsOk (item_read tid text.now)) }
{
    match read_item(alloc, tid, text) {
        Ok(Some(item)) => Ok(Some(ReadItem { size, item })),
        Ok(None) => Ok(None),
        Err(error) => Err(error),
    }
}

/// What a line says that is the line of an item with this index in an array of this type; None exactly where it is none.
pub fn item_line(
    alloc: Global,
    tid: Tid,
    index: u64,
    line: &[u8],
) -> Result<Option<ReadItem>, NoMemory>
    ensures some { IfOk result (λ found. IfSome found (λ read. (size : ℕ)
        × (IsItemLine tid index line.now size read.item × (read.size ≡ up_to size_limit size)))) }
    ensures none { IfOk result (λ found. IfNone found ((size : ℕ) (item : Item)
        → IsItemLine tid index line.now size item → ⊥)) }
    ensures memory { OnErr result (IsSomeItemLine tid index line.now) }
{
    match bracketed(line) {
        None => Ok(None),
        Some((digits, rest)) => match front_number(is_string(tid), index, digits) {
            None => Ok(None),
            Some(size) => sized(alloc, tid, size, behind_blank(rest)),
        },
    }
}

/// What a text says that stands behind the colon of a key with one item; None exactly where it is none.
pub fn item_alone(alloc: Global, tid: Tid, text: &[u8]) -> Result<Option<ReadItem>, NoMemory>
    ensures some { IfOk result (λ found. IfSome found (λ read. (size : ℕ)
        × (IsItemAlone tid text.now size read.item × (read.size ≡ up_to size_limit size)))) }
    ensures none { IfOk result (λ found. IfNone found ((size : ℕ) (item : Item)
        → IsItemAlone tid text.now size item → ⊥)) }
    ensures memory { OnErr result (IsSomeAlone tid text.now) }
{
    if is_string(tid) {
        return item_line(alloc, tid, 0, behind_blank(text));
    }
    sized(alloc, tid, Some(0), behind_blank(text))
}
