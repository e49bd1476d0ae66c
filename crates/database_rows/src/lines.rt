//! Lines of each form, and lines that are none.
use daq_types::{NoMemory, Tid};
use odb_text::{
    ReadItem, array, bracketed, is_passed, item_alone, item_line, key_line, read_dir_line, single,
    split_line,
};
use odb_value::Path;
use std::alloc::Global;
use std::test::Fail;

/// What a line is read as in one form of lines, or what stands behind a type.
enum Reading {
    Passed(bool),
    /// The digits in brackets, and what stands behind them.
    Bracketed(Option<(&'static str, &'static str)>),
    /// How many names the path of the directory has.
    Directory(Option<usize>),
    /// The name and the type of a key, and what stands behind the type.
    Key(Option<(&'static str, Tid, &'static str)>),
    /// How many items, where there may be so many.
    Array(Option<Option<u64>>),
    Single(Option<&'static str>),
    /// The size that is given for an item of this type and index.
    Item(Tid, u64, Option<Option<u64>>),
    /// The same for the one item of a key.
    Alone(Tid, Option<Option<u64>>),
    /// The first line of a text, and the others.
    First(Option<(&'static str, &'static str)>),
}

use Reading::*;

type Row = (&'static str, Reading);

/// Lines of each form, and lines that are none of it.
const LINES: &[Row] = &[
    // Lines that are passed over, and others.
    ("", Passed(true)),
    (" \t", Passed(true)),
    ("; x", Passed(true)),
    (" ;x", Passed(false)),
    ("[/A]", Passed(false)),
    ("x = INT : 5", Passed(false)),
    // Numbers in brackets.
    ("[32] ADC left", Bracketed(Some(("32", " ADC left")))),
    ("[007]", Bracketed(Some(("007", "")))),
    ("[]", Bracketed(None)),
    ("[x] 1", Bracketed(None)),
    ("[0x1] 1", Bracketed(None)),
    (" [1] 1", Bracketed(None)),
    ("[1", Bracketed(None)),
    ("1] 1", Bracketed(None)),
    ("", Bracketed(None)),
    // Lines of directories.
    ("[/]", Directory(Some(0))),
    ("[]", Directory(Some(0))),
    ("[/Runinfo]", Directory(Some(1))),
    ("[Equipment/FE] \t", Directory(Some(2))),
    (" [/A]", Directory(None)),
    ("[/A", Directory(None)),
    ("[/A]x", Directory(None)),
    ("[/A/]", Directory(None)),
    ("[/A]]", Directory(None)),
    ("/A]", Directory(None)),
    ("", Directory(None)),
    // Lines of keys.
    ("State = INT : 1", Key(Some(("State", Tid::Int32, " : 1")))),
    (
        " \tRun number=INT32:1",
        Key(Some(("Run number", Tid::Int32, ":1"))),
    ),
    ("x = INT8[2] :", Key(Some(("x", Tid::Int8, "[2] :")))),
    (
        "a = STRING : [32] b = c",
        Key(Some(("a", Tid::Text, " : [32] b = c"))),
    ),
    ("x =\tFLOAT", Key(Some(("x", Tid::Float, "")))),
    ("x", Key(None)),
    ("= INT : 1", Key(None)),
    ("a/b = INT : 1", Key(None)),
    ("x = INTEGER : 1", Key(None)),
    ("x = int : 1", Key(None)),
    ("x : INT = 1", Key(None)),
    ("", Key(None)),
    // What stands behind a type.
    ("[2] :", Array(Some(Some(2)))),
    (" [002]\t:  ", Array(Some(Some(2)))),
    ("[65536]:", Array(Some(Some(65536)))),
    ("[65537] :", Array(Some(None))),
    ("[0] :", Array(None)),
    ("[] :", Array(None)),
    ("[ 2] :", Array(None)),
    ("[2]", Array(None)),
    ("[2] : 1", Array(None)),
    (" : 1", Array(None)),
    (" :  [2] ", Single(Some("  [2] "))),
    ("[2] :", Single(None)),
    // Lines of items, and items alone.
    ("[0] 10", Item(Tid::Int32, 0, Some(Some(0)))),
    ("[12]10", Item(Tid::Int32, 12, Some(Some(0)))),
    ("[01] 10", Item(Tid::Int32, 1, None)),
    ("[0] 10", Item(Tid::Int32, 1, None)),
    ("[0] ten", Item(Tid::Int32, 0, None)),
    ("[32] ADC right", Item(Tid::Text, 1, Some(Some(32)))),
    ("[032] ", Item(Tid::Text, 1, Some(Some(32)))),
    ("[1025] x", Item(Tid::Text, 1, Some(None))),
    (" [32] x", Item(Tid::Text, 1, None)),
    ("[0] 1.5", Item(Tid::Float, 0, None)),
    (" [32] Mon", Alone(Tid::Text, Some(Some(32)))),
    ("[32] ", Alone(Tid::Text, Some(Some(32)))),
    ("  [3] a", Alone(Tid::Text, None)),
    (" ", Alone(Tid::Char, Some(Some(0)))),
    ("  ", Alone(Tid::Char, Some(Some(0)))),
    ("   ", Alone(Tid::Char, None)),
    ("   5 ", Alone(Tid::UInt8, Some(Some(0)))),
    (" 300", Alone(Tid::UInt8, None)),
    // The lines of a text.
    (
        "[/A]\r\n\nx = INT : 5\r",
        First(Some(("[/A]", "\nx = INT : 5\r"))),
    ),
    ("\nx = INT : 5\r", First(Some(("", "x = INT : 5\r")))),
    ("x = INT : 5\r", First(Some(("x = INT : 5\r", "")))),
    ("", First(None)),
];

/// Whether these are the two texts.
fn are_both(found: Option<(&[u8], &[u8])>, wanted: Option<(&str, &str)>) -> bool {
    match (found, wanted) {
        (None, None) => true,
        (Some((left, right)), Some((first, second))) => {
            left == first.as_bytes() && right == second.as_bytes()
        }
        _ => false,
    }
}

/// Whether the line is that of this key.
fn is_key(line: &[u8], wanted: Option<(&str, Tid, &str)>) -> bool {
    match (key_line(line), wanted) {
        (None, None) => true,
        (Some((found, type_found, behind)), Some((name, tid, rest))) => {
            found.as_slice() == name.as_bytes() && type_found == tid && behind == rest.as_bytes()
        }
        _ => false,
    }
}

/// Whether this is the text of one item.
fn is_single(rest: &[u8], wanted: Option<&str>) -> bool {
    match (single(rest), wanted) {
        (None, None) => true,
        (Some(text), Some(wanted)) => text == wanted.as_bytes(),
        _ => false,
    }
}

fn names_of(path: Option<Path>) -> Option<usize> {
    Some(path?.names().len())
}

fn size_of(item: Option<ReadItem>) -> Option<Option<u64>> {
    Some(item?.size)
}

fn is_read(alloc: Global, line: &[u8], reading: &Reading) -> Result<bool, NoMemory> {
    Ok(match reading {
        Passed(passed) => is_passed(line) == *passed,
        Bracketed(parts) => are_both(bracketed(line), *parts),
        Directory(names) => names_of(read_dir_line(alloc, line)?) == *names,
        Key(key) => is_key(line, *key),
        Array(count) => array(line) == *count,
        Single(text) => is_single(line, *text),
        Item(tid, index, size) => size_of(item_line(alloc, *tid, *index, line)?) == *size,
        Alone(tid, size) => size_of(item_alone(alloc, *tid, line)?) == *size,
        First(parts) => are_both(split_line(line), *parts),
    })
}

#[test]
fn lines_are_read_by_the_rows(rt: HostRuntime) -> Result<(), Fail> {
    for (line, reading) in LINES {
        assert!(rt; is_read(rt.alloc(), line.as_bytes(), reading)?, "{line}");
    }
    Ok(())
}
