//! Items of the online database, their texts, and values.
ghost use Rattle.std.specs.Prelude.{◌≡◌, ◌≤◌, IsTrue, IfOk, IfSome};
ghost use Rattle.daq_types.specs.declared.types.Tid.{Tid};
ghost use Rattle.odb_value.specs.Items.{is_kept};
ghost use Rattle.odb_value.specs.Values.{items_limit};

use daq_text::TextBuffer;
use daq_types::{NoMemory, Tid};
use odb_value::{
    CharByte, Item, ItemRefusal, Items, TextBytes, Value, parse_item, print_item, print_key,
};
use std::alloc::{AllocError, Global};

/// Texts that are items of a type, and how each is printed.
const ITEMS: &[(Tid, &[u8], &[u8])] = &[
    (Tid::UInt8, b"0", b"0"),
    (Tid::UInt8, b"255", b"255"),
    (Tid::Int8, b"-128", b"-128"),
    (Tid::Int8, b"127", b"127"),
    (Tid::UInt16, b"0", b"0"),
    (Tid::UInt16, b"65535", b"65535"),
    (Tid::Int16, b"-32768", b"-32768"),
    (Tid::Int16, b"32767", b"32767"),
    (Tid::UInt32, b"0", b"0"),
    (Tid::UInt32, b"4294967295", b"4294967295"),
    (Tid::Int32, b"-2147483648", b"-2147483648"),
    (Tid::Int32, b"2147483647", b"2147483647"),
    (Tid::Int64, b"-9223372036854775808", b"-9223372036854775808"),
    (Tid::Int64, b"9223372036854775807", b"9223372036854775807"),
    (Tid::UInt64, b"0", b"0"),
    (
        Tid::UInt64,
        b"18446744073709551615",
        b"18446744073709551615",
    ),
    (Tid::UInt8, b" \t0007 \t", b"7"),
    (Tid::UInt8, b"0x0fF", b"255"),
    (Tid::UInt32, b"0xdeadBEEF", b"3735928559"),
    (Tid::Int32, b"-0", b"0"),
    (Tid::Int32, b"  -0012\t", b"-12"),
    (Tid::Int16, b"0x7f", b"127"),
    (Tid::Bool, b"y", b"y"),
    (Tid::Bool, b" Y ", b"y"),
    (Tid::Bool, b"1", b"y"),
    (Tid::Bool, b"n", b"n"),
    (Tid::Bool, b"\tN", b"n"),
    (Tid::Bool, b"0", b"n"),
    (Tid::Char, b"", b""),
    (Tid::Char, b" ", b" "),
    (Tid::Char, b"~", b"~"),
    (Tid::Text, b"", b""),
    (Tid::Text, b"a\tb \x80\xff", b"a\tb \x80\xff"),
];

/// Texts that are no items of a type, and why.
const REFUSED: &[(Tid, &[u8], ItemRefusal)] = &[
    (Tid::UInt8, b"256", ItemRefusal::OutOfRange),
    (Tid::UInt8, b"0x100", ItemRefusal::OutOfRange),
    (Tid::Int8, b"128", ItemRefusal::OutOfRange),
    (Tid::Int8, b"-129", ItemRefusal::OutOfRange),
    (Tid::Int8, b"0xFF", ItemRefusal::OutOfRange),
    (Tid::UInt16, b"65536", ItemRefusal::OutOfRange),
    (Tid::Int16, b"-32769", ItemRefusal::OutOfRange),
    (Tid::UInt32, b"4294967296", ItemRefusal::OutOfRange),
    (Tid::Int32, b"2147483648", ItemRefusal::OutOfRange),
    (Tid::Int64, b"9223372036854775808", ItemRefusal::OutOfRange),
    (Tid::Int64, b"-9223372036854775809", ItemRefusal::OutOfRange),
    (
        Tid::UInt64,
        b"18446744073709551616",
        ItemRefusal::OutOfRange,
    ),
    (Tid::UInt64, b"0x1ffffffffffffffff", ItemRefusal::OutOfRange),
    (Tid::UInt8, b"", ItemRefusal::BadText { at: 0 }),
    (Tid::UInt8, b"   ", ItemRefusal::BadText { at: 3 }),
    (Tid::UInt8, b"5x", ItemRefusal::BadText { at: 1 }),
    (Tid::UInt8, b"5 x", ItemRefusal::BadText { at: 2 }),
    (Tid::UInt8, b"-5", ItemRefusal::BadText { at: 0 }),
    (Tid::UInt8, b" +1", ItemRefusal::BadText { at: 1 }),
    (Tid::UInt8, b"0x", ItemRefusal::BadText { at: 2 }),
    (Tid::UInt8, b"0X10", ItemRefusal::BadText { at: 1 }),
    (Tid::UInt8, b"00x1", ItemRefusal::BadText { at: 2 }),
    (Tid::UInt8, b"0x 1", ItemRefusal::BadText { at: 2 }),
    (Tid::UInt8, b"999 x", ItemRefusal::BadText { at: 4 }),
    (Tid::Int32, b"+1", ItemRefusal::BadText { at: 0 }),
    (Tid::Int32, b"-", ItemRefusal::BadText { at: 1 }),
    (Tid::Int32, b"- 5", ItemRefusal::BadText { at: 1 }),
    (Tid::Int32, b"-0x1", ItemRefusal::BadText { at: 2 }),
    (Tid::Int32, b"--1", ItemRefusal::BadText { at: 1 }),
    (Tid::Bool, b"", ItemRefusal::BadText { at: 0 }),
    (Tid::Bool, b"y y", ItemRefusal::BadText { at: 2 }),
    (Tid::Bool, b"10", ItemRefusal::BadText { at: 1 }),
    (Tid::Bool, b" yes", ItemRefusal::BadText { at: 2 }),
    (Tid::Char, b"ab", ItemRefusal::BadText { at: 1 }),
    (Tid::Char, b"\t", ItemRefusal::BadText { at: 0 }),
    (Tid::Text, b"ab\ncd", ItemRefusal::BadText { at: 2 }),
    (Tid::Text, b"a\x7f", ItemRefusal::BadText { at: 1 }),
    (Tid::Float, b"1", ItemRefusal::NotKept { tid: Tid::Float }),
    (Tid::Double, b"1", ItemRefusal::NotKept { tid: Tid::Double }),
    (
        Tid::BitField,
        b"1",
        ItemRefusal::NotKept { tid: Tid::BitField },
    ),
    (Tid::Array, b"1", ItemRefusal::NotKept { tid: Tid::Array }),
    (Tid::Struct, b"1", ItemRefusal::NotKept { tid: Tid::Struct }),
    (Tid::Key, b"1", ItemRefusal::NotKept { tid: Tid::Key }),
    (Tid::Link, b"1", ItemRefusal::NotKept { tid: Tid::Link }),
];

/// Whether the item is printed so.
fn prints(alloc: Global, item: &Item, wanted: &[u8]) -> Result<bool, NoMemory> {
    let mut out = TextBuffer::new(alloc);
    print_item(item, &mut out)?;
    Ok(out.as_slice() == wanted)
}

/// Whether the text, when read as this type, is an item of it, and printed so again.
fn is_printed(alloc: Global, tid: Tid, text: &[u8], wanted: &[u8]) -> Result<bool, ItemRefusal> {
    let item = parse_item(alloc, tid, text)?;
    Ok(item.tid() == tid && prints(alloc, &item, wanted)?)
}

#[test]
fn texts_that_are_items(rt: HostRuntime) {
    for (tid, text, wanted) in ITEMS {
        let is_right = is_printed(rt.alloc(), *tid, text, wanted);
        assert!(rt; matches!(is_right, Ok(true)), "{tid:?} {text:?}");
    }
}

/// Whether the text is no item of this type, for this reason.
fn is_refused(alloc: Global, tid: Tid, text: &[u8], why: ItemRefusal) -> bool {
    parse_item(alloc, tid, text).err() == Some(why)
}

#[test]
fn texts_that_are_no_items(rt: HostRuntime) {
    for (tid, text, refusal) in REFUSED {
        let is_right = is_refused(rt.alloc(), *tid, text, *refusal);
        assert!(rt; is_right, "{tid:?} {text:?}");
    }
}

/// What stands behind 1023 bytes a, and why the text is none, if it is none.
const LONG: &[(&[u8], Option<ItemRefusal>)] = &[
    (b"", None),
    (b"b", Some(ItemRefusal::OutOfRange)),
    (b"b\0", Some(ItemRefusal::BadText { at: 1024 })),
];

/// A text of 1023 bytes a with these behind them.
fn long_text(alloc: Global, end: &[u8]) -> Result<Vec<u8>, AllocError> {
    let mut text = vec![in alloc; b'a'; 1023]?;
    text.extend_from_slice(end)?;
    Ok(text)
}

/// Whether that is printed as it is, or is none for this reason.
fn is_long(alloc: Global, end: &[u8], refusal: Option<ItemRefusal>) -> Result<bool, NoMemory> {
    let text = long_text(alloc, end)?;
    Ok(match refusal {
        None => is_printed(alloc, Tid::Text, &text, &text) == Ok(true),
        Some(why) => is_refused(alloc, Tid::Text, &text, why),
    })
}

#[test]
fn the_longest_text_and_longer_ones(rt: HostRuntime) {
    for (end, refusal) in LONG {
        let is_right = is_long(rt.alloc(), end, *refusal);
        assert!(rt; matches!(is_right, Ok(true)), "{end:?}");
    }
}

/// Whether the value has this type, this size and so many items.
fn has(value: &Value, tid: Tid, size: u32, len: usize) -> bool {
    value.tid() == tid && value.size() == size && value.items().len() == len
}

/// Whether a new value of two texts has them, and their size.
fn is_new(alloc: Global) -> Result<bool, NoMemory> {
    let value = Value::new(alloc, Tid::Text, 2)?;
    Ok(has(&value, Tid::Text, 32, 2))
}

#[test]
fn new_values(rt: HostRuntime) {
    assert!(rt; matches!(is_new(rt.alloc()), Ok(true)));
}

/// A value of two texts, the second of which has 40 bytes.
fn long_value(alloc: Global) -> Result<Option<Value>, NoMemory>
    ensures { IfOk result (λ found. IfSome found (λ value. value.tid ≡ Tid.Text)) }
{
    let text = vec![in alloc; b'x'; 40]?;
    if TextBytes::bad_place(text.as_slice()).is_some() {
        return Ok(None);
    }
    let mut value = Value::new(alloc, Tid::Text, 2)?;
    value.put(1, Item::Text(TextBytes::of(text)));
    Ok(Some(value))
}

/// A copy of the value with three items, where one is left of its own.
fn copy_of_three(alloc: Global, value: &mut Value) -> Result<Value, NoMemory>
    requires { IsTrue (is_kept value.old.tid) }
{
    value.resize(alloc, 3)?;
    let copy = value.try_clone(alloc)?;
    value.resize(alloc, 1)?;
    Ok(copy)
}

/// How many items there are in the value, which is taken apart.
fn count_items(value: Value) -> usize {
    value.into_items().into_vec().len()
}

/// Whether that long value has the size of its text, and so has its copy.
fn is_copied(alloc: Global) -> Result<bool, NoMemory> {
    let Some(mut value) = long_value(alloc)? else {
        return Ok(false);
    };
    let is_long = has(&value, Tid::Text, 41, 2);
    let copy = copy_of_three(alloc, &mut value)?;
    let is_copy = has(&value, Tid::Text, 41, 1) && has(&copy, Tid::Text, 41, 3);
    Ok(is_long && is_copy && count_items(copy) == 3)
}

#[test]
fn values_of_keys(rt: HostRuntime) {
    assert!(rt; matches!(is_copied(rt.alloc()), Ok(true)));
}

#[test]
fn bytes_of_chars(rt: HostRuntime) {
    assert!(rt; CharByte::new(b'\t').is_none());
    assert!(rt; matches!(CharByte::new(b'q'), Some(byte) if byte.get() == b'q'));
}

/// Whether a list of two items has both.
fn has_both(alloc: Global) -> Result<bool, AllocError> {
    let mut list = Vec::new(alloc);
    list.push(Item::Char(CharByte::none()))?;
    list.push(Item::Text(TextBytes::empty(alloc)))?;
    let items = Items::of(list);
    Ok(items.len() == 2 && items.as_slice().len() == 2)
}

#[test]
fn lists_of_items(rt: HostRuntime) {
    assert!(rt; matches!(has_both(rt.alloc()), Ok(true)));
}

/// Prints a new key of this type, with so many items, behind the text.
fn print_new(
    alloc: Global,
    text: &mut TextBuffer,
    name: &[u8],
    tid: Tid,
    len: u32,
) -> Result<(), NoMemory>
    requires kept { IsTrue (is_kept tid) }
    requires some { 1 ≤ len }
    requires many { len ≤ items_limit }
{
    let value = Value::new(alloc, tid, len)?;
    print_key(name, &value, text)
}

/// The text of two new keys.
const DUMPED: &[u8] = b"Enabled = BOOL : n\nChannels = UINT16[2] :\n[0] 0\n[1] 0\n";

/// Whether two new keys are printed so.
fn is_dumped(alloc: Global) -> Result<bool, NoMemory> {
    let mut text = TextBuffer::new(alloc);
    print_new(alloc, &mut text, b"Enabled", Tid::Bool, 1)?;
    print_new(alloc, &mut text, b"Channels", Tid::UInt16, 2)?;
    Ok(text.as_slice() == DUMPED)
}

#[test]
fn keys_as_in_a_dump(rt: HostRuntime) {
    assert!(rt; matches!(is_dumped(rt.alloc()), Ok(true)));
}
