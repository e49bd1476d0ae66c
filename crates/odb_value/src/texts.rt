ghost use Rattle.std.specs.Prelude.{◌≡◌, ◌≢◌, ◌≤◌, ◌-◌, ◌^◌, ◌++◌, IfOk, IfErr, OnOk, OnErr, IsOk, IsTrue};
ghost use Rattle.daq_types.specs.declared.types.Tid.{Tid};
ghost use Rattle.odb_value.specs.ItemTexts.{char_read, char_text, is_within, item_read, item_text, signed_read, stopped, text_read, truth_read, unsigned_read};

use crate::forms::{signed, truth};
use crate::items::Item;
use crate::parts::{CharByte, TextBytes};
use crate::refusals::ItemRefusal;
use daq_text::{TextBuffer, behind_blanks, unsigned};
use daq_types::{NoMemory, Tid};
use std::alloc::Global;

/// The longest text of a STRING, in bytes.
const TEXT_BYTES: usize = 1023;

/// The form of a text cannot go on, and so many bytes are left.
fn stopped(text: &[u8], left: usize) -> ItemRefusal
    ensures { result ≡ stopped text.now left }
{
    ItemRefusal::BadText {
        at: text.len().saturating_sub(left) as u64,
    }
}

/// The number without a sign, up to the greatest of its type.
fn unsigned_up_to(text: &[u8], most: u64) -> Result<u64, ItemRefusal>
    ensures read { result ≡ unsigned_read most text.now }
    ensures bound { IfOk result (λ n. n ≤ most) }
    ensures no_memory { IfErr result (λ refusal. refusal ≢ ItemRefusal.NoMemory) }
{
    match unsigned(behind_blanks(text), most) {
        Err(left) => Err(stopped(text, left)),
        Ok(None) => Err(ItemRefusal::OutOfRange),
        Ok(Some(number)) => Ok(number),
    }
}

/// Whether a number is at most this, and at least one below its negative.
fn is_within(most: u64, number: i64) -> bool
    ensures { result ≡ is_within most number }
{
    let size = if number < 0 { -(number + 1) } else { number };
    size as u64 <= most
}

/// The number with a sign, up to the greatest of its type.
fn signed_within(text: &[u8], most: u64) -> Result<i64, ItemRefusal>
    requires { most ≤ 2 ^ 63 - 1 }
    ensures read { result ≡ signed_read most text.now }
    ensures bound { IfOk result (λ z. IsTrue (is_within most z)) }
    ensures no_memory { IfErr result (λ refusal. refusal ≢ ItemRefusal.NoMemory) }
{
    match signed(behind_blanks(text)) {
        Err(left) => Err(stopped(text, left)),
        Ok(None) => Err(ItemRefusal::OutOfRange),
        Ok(Some(number)) => {
            if is_within(most, number) {
                Ok(number)
            } else {
                Err(ItemRefusal::OutOfRange)
            }
        }
    }
}

/// The truth value.
fn truth_value(text: &[u8]) -> Result<bool, ItemRefusal>
    ensures read { result ≡ truth_read text.now }
    ensures no_memory { IfErr result (λ refusal. refusal ≢ ItemRefusal.NoMemory) }
{
    match truth(behind_blanks(text)) {
        Err(left) => Err(stopped(text, left)),
        Ok(truth) => Ok(truth),
    }
}

/// The one byte of a CHAR, or none.
fn char_byte(text: &[u8]) -> Result<CharByte, ItemRefusal>
    ensures read { result ≡ char_read text.now }
    ensures no_memory { IfErr result (λ refusal. refusal ≢ ItemRefusal.NoMemory) }
{
    match text {
        [] => Ok(CharByte::none()),
        [byte, rest @ ..] => match CharByte::new(*byte) {
            Some(byte) if byte.get() != 0 => {
                if rest.is_empty() {
                    Ok(byte)
                } else {
                    Err(ItemRefusal::BadText { at: 1 })
                }
            }
            _ => Err(ItemRefusal::BadText { at: 0 }),
        },
    }
}

/// The text of a STRING, with memory of its own.
fn text_bytes(alloc: Global, text: &[u8]) -> Result<TextBytes, ItemRefusal>
    ensures read { IfOk result (λ bytes. text_read text.now ≡ Ok bytes) }
    ensures refused { IfErr result (λ refusal. refusal ≢ ItemRefusal.NoMemory → text_read text.now
        ≡ Err refusal) }
    ensures memory { IfErr result (λ refusal. refusal ≡ ItemRefusal.NoMemory
        → IsOk (text_read text.now)) }
{
    if let Some(at) = TextBytes::bad_place(text) {
        return Err(ItemRefusal::BadText { at: at as u64 });
    }
    if text.len() > TEXT_BYTES {
        return Err(ItemRefusal::OutOfRange);
    }
    let bytes = copied(alloc, text)?;
    Ok(TextBytes::of(bytes))
}

/// These bytes once more.
fn copied(alloc: Global, bytes: &[u8]) -> Result<Vec<u8>, NoMemory>
    ensures { IfOk result (λ copy. copy.items ≡ bytes.now) }
{
    let copy = bytes.to_vec(alloc)?;
    Ok(copy)
}

/// The item of this type that the text spells.
///
/// The refusals, in the order in which they are tested: `NotKept` for a type of which the database keeps no values,
/// `BadText` at the first byte where the form of the type cannot go on, or at the text's length where it ends too
/// early, and `OutOfRange` for a number outside its type's range and for a text of more than 1,023 bytes. `NoMemory`
/// comes for texts alone, and only where the text spells one.
pub fn parse_item(alloc: Global, tid: Tid, text: &[u8]) -> Result<Item, ItemRefusal>
    ensures item { IfOk result (λ item. item_read tid text.now ≡ Ok item) }
    ensures refused { IfErr result (λ refusal. refusal ≢ ItemRefusal.NoMemory
        → item_read tid text.now ≡ Err refusal) }
    ensures memory { IfErr result (λ refusal. refusal ≡ ItemRefusal.NoMemory → tid ≡ Tid.Text) }
    ensures spelled { IfErr result (λ refusal. refusal ≡ ItemRefusal.NoMemory
        → IsOk (item_read tid text.now)) }
{
    match tid {
        Tid::UInt8 => Ok(Item::UInt8(unsigned_up_to(text, u8::MAX as u64)? as u8)),
        Tid::Int8 => Ok(Item::Int8(signed_within(text, i8::MAX as u64)? as i8)),
        Tid::Char => Ok(Item::Char(char_byte(text)?)),
        Tid::UInt16 => Ok(Item::UInt16(unsigned_up_to(text, u16::MAX as u64)? as u16)),
        Tid::Int16 => Ok(Item::Int16(signed_within(text, i16::MAX as u64)? as i16)),
        Tid::UInt32 => Ok(Item::UInt32(unsigned_up_to(text, u32::MAX as u64)? as u32)),
        Tid::Int32 => Ok(Item::Int32(signed_within(text, i32::MAX as u64)? as i32)),
        Tid::Bool => Ok(Item::Bool(truth_value(text)?)),
        Tid::Text => Ok(Item::Text(text_bytes(alloc, text)?)),
        Tid::Int64 => Ok(Item::Int64(signed_within(text, i64::MAX as u64)?)),
        Tid::UInt64 => Ok(Item::UInt64(unsigned_up_to(text, u64::MAX)?)),
        Tid::Float
        | Tid::Double
        | Tid::BitField
        | Tid::Array
        | Tid::Struct
        | Tid::Key
        | Tid::Link => Err(ItemRefusal::NotKept { tid }),
    }
}

/// Adds the text of the item: a number in decimal digits, a truth value as `y` or `n`, a CHAR and a STRING as their
/// bytes, and nothing for the CHAR 0.
pub fn print_item(item: &Item, text: &mut TextBuffer) -> Result<(), NoMemory>
    ensures added { OnOk result (text.new ≡ text.old ++ item_text item.now) }
    ensures kept { OnErr result (text.new ≡ text.old) }
{
    match item {
        Item::UInt8(number) => text.number(*number as u64),
        Item::Int8(number) => text.signed(*number as i128),
        Item::Char(byte) => add_char(text, byte.get()),
        Item::UInt16(number) => text.number(*number as u64),
        Item::Int16(number) => text.signed(*number as i128),
        Item::UInt32(number) => text.number(*number as u64),
        Item::Int32(number) => text.signed(*number as i128),
        Item::Bool(true) => text.text(b"y"),
        Item::Bool(false) => text.text(b"n"),
        Item::Text(bytes) => text.text(bytes.as_slice()),
        Item::Int64(number) => text.signed(*number as i128),
        Item::UInt64(number) => text.number(*number),
    }
}

/// The byte of a CHAR more, and nothing for 0.
fn add_char(text: &mut TextBuffer, byte: u8) -> Result<(), NoMemory>
    ensures added { OnOk result (text.new ≡ text.old ++ char_text byte) }
    ensures kept { OnErr result (text.new ≡ text.old) }
{
    if byte == 0 {
        return Ok(());
    }
    text.text([byte].as_slice())
}
