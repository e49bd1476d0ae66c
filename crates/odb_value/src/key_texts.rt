ghost use Rattle.std.specs.Prelude.{◌≡◌, ◌++◌, ◌∷◌, OnOk, codes, length};
ghost use Rattle.std.specs.Fmt.{decimal};
ghost use Rattle.odb_value.specs.ItemTexts.{item_text};
ghost use Rattle.odb_value.specs.KeyTexts.{bracketed, front_number, item_alone, item_line, item_lines, items_text, key_text};

use crate::items::Item;
use crate::texts::print_item;
use crate::values::Value;
use daq_text::TextBuffer;
use daq_types::{NoMemory, Tid};

/// Adds a number in brackets and an item behind it.
fn add_bracketed(text: &mut TextBuffer, number: u64, item: &Item) -> Result<(), NoMemory>
    ensures { OnOk result (text.new ≡ text.old ++ bracketed number (item_text item.now)) }
{
    text.text(b"[")?;
    text.number(number)?;
    text.text(b"] ")?;
    print_item(item, text)
}

/// Adds the one item of a key.
fn add_alone(text: &mut TextBuffer, size: u32, item: &Item) -> Result<(), NoMemory>
    ensures { OnOk result (text.new ≡ text.old ++ item_alone size item.now) }
{
    match item.tid() {
        Tid::Text => add_bracketed(text, size as u64, item),
        _ => print_item(item, text),
    }
}

/// The number in front of an item of an array.
fn front_number(size: u32, index: u64, item: &Item) -> u64
    ensures { result ≡ front_number size index item.now }
{
    match item {
        Item::Text(_) => size as u64,
        _ => index,
    }
}

/// Adds the line of an item of an array.
fn add_item_line(text: &mut TextBuffer, size: u32, index: u64, item: &Item) -> Result<(), NoMemory>
    ensures { OnOk result (text.new ≡ text.old ++ item_line size index item.now) }
{
    let number = front_number(size, index, item);
    add_bracketed(text, number, item)?;
    text.text(b"\n")
}

/// Adds the lines of the items of an array.
fn add_item_lines(text: &mut TextBuffer, size: u32, items: &[Item]) -> Result<(), NoMemory>
    ensures { OnOk result (text.new ≡ text.old ++ item_lines size 0 items.now) }
{
    for (index, item) in items.iter().enumerate() {
        add_item_line(text, size, index as u64, item)?;
    }
    Ok(())
}

/// Adds an array: the number of its items, and their lines.
fn add_array(text: &mut TextBuffer, size: u32, items: &[Item]) -> Result<(), NoMemory>
    ensures { OnOk result (text.new ≡ text.old ++ (codes
        "[" ++ (decimal (length items.now) ++ (codes "] :"
        ++ (10 ∷ item_lines size 0 items.now))))) }
{
    text.text(b"[")?;
    text.number(items.len() as u64)?;
    text.text(b"] :\n")?;
    add_item_lines(text, size, items)
}

/// Adds what stands behind the type of a key.
fn add_items(text: &mut TextBuffer, size: u32, items: &[Item]) -> Result<(), NoMemory>
    ensures { OnOk result (text.new ≡ text.old ++ items_text size items.now) }
{
    match items {
        [item] => {
            text.text(b" : ")?;
            add_alone(text, size, item)?;
            text.text(b"\n")
        }
        items => add_array(text, size, items),
    }
}

/// Adds the line or the lines of a key of this name, as they stand in a dump of the database.
pub fn print_key(name: &[u8], value: &Value, text: &mut TextBuffer) -> Result<(), NoMemory>
    ensures { OnOk result (text.new ≡ text.old ++ key_text name.now value.now) }
{
    text.text(name)?;
    text.text(b" = ")?;
    text.text(value.tid().name().as_bytes())?;
    add_items(text, value.size(), value.items())
}
