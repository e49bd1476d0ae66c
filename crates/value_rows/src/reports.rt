//! Reports of events, and their text.
ghost use Rattle.std.specs.Prelude.{◌≡◌};

use bank_format::{BankWriter, Format};
use daq_text::TextBuffer;
use daq_types::NoMemory;
use event::Header;
use event_report::Report;
use std::alloc::Global;

/// The header of an event with this id.
fn header(event_id: u16) -> Header {
    Header {
        event_id,
        trigger_mask: 0,
        serial_number: 1,
        time_stamp: 1000,
        data_size: 0,
    }
}

/// The bank areas of the two generated events of ids 1 and 2.
const FIRST: [u8; 24] = [
    0x10, 0, 0, 0, 1, 0, 0, 0, 0x47, 0x45, 0x4e, 0x30, 6, 0, 4, 0, 0xac, 0x6f, 0x57, 0x6c, 0, 0, 0,
    0,
];

const SECOND: [u8; 24] = [
    0x10, 0, 0, 0, 1, 0, 0, 0, 0x47, 0x45, 0x4e, 0x30, 6, 0, 4, 0, 0xd9, 0xee, 0xec, 0xb8, 0, 0, 0,
    0,
];

/// Folds these events, each an id and its data, into a new report.
fn fold_all(report: &mut Report, events: &[(u16, &[u8])])
    requires { report.old.bytes ≡ 0 }
{
    let mut left = 1 << 62;
    for (id, body) in events {
        let need = 16 + body.len();
        if left < need {
            break;
        }
        left -= need;
        report.fold(&header(*id), body);
    }
}

/// Whether this is the text of the report, whose lines begin so.
fn is_text(alloc: Global, report: &Report, start: &[u8], lines: &[u8]) -> Result<bool, NoMemory> {
    let mut text = TextBuffer::new(alloc);
    report.print(start, &mut text)?;
    Ok(text.as_slice() == lines)
}

/// Whether this is the text of a report over these events, each an id and its data.
fn is_report(
    alloc: Global,
    events: &[(u16, &[u8])],
    start: &[u8],
    lines: &[u8],
) -> Result<bool, NoMemory> {
    let mut report = Report::new(alloc)?;
    fold_all(&mut report, events);
    is_text(alloc, &report, start, lines)
}

/// Adds banks with name, type and data, where they fit.
fn add_all(writer: &mut BankWriter, banks: &[([u8; 4], u32, &[u8])]) {
    for (name, tid, body) in banks {
        let _ = writer.add(*name, *tid, body);
    }
}

/// A bank area in a format, of banks with name, type and data.
fn area(
    alloc: Global,
    format: Format,
    banks: &[([u8; 4], u32, &[u8])],
) -> Result<Vec<u8>, NoMemory> {
    let mut writer = BankWriter::new(alloc, format, 4096)?;
    add_all(&mut writer, banks);
    Ok(writer.finish().to_vec(alloc)?)
}

/// Events, what each line begins with, and the lines.
const REPORTS: &[(&[(u16, &[u8])], &[u8], &[u8])] = &[
    (
        &[(1, &FIRST), (2, &SECOND)],
        b"ANA ",
        b"ANA events 2\nANA id 1 count 1\nANA id 2 count 1\n\
ANA bank GEN0 UINT32 count 2 sum 4920204933 least 1817669548 greatest 3102535385\n\
ANA rest ids 0 banks 0 bad 0\n",
    ),
    (
        &[(1, &FIRST)],
        b"",
        b"events 1\nid 1 count 1\n\
bank GEN0 UINT32 count 1 sum 1817669548 least 1817669548 greatest 1817669548\n\
rest ids 0 banks 0 bad 0\n",
    ),
    (&[], b"", b"events 0\nrest ids 0 banks 0 bad 0\n"),
];

#[test]
fn two_generated_events(rt: HostRuntime) {
    for (events, start, lines) in REPORTS {
        let is_right = is_report(rt.alloc(), events, start, lines);
        assert!(rt; matches!(is_right, Ok(true)), "{lines:?}");
    }
}

/// The least and the greatest integer of 64 bits with a sign.
const LOW: [u8; 16] = [
    0, 0, 0, 0, 0, 0, 0, 0x80, 0xff, 0xff, 0xff, 0xff, 0xff, 0xff, 0xff, 0x7f,
];

const INTEGERS: &[([u8; 4], u32, &[u8])] = &[
    (*b"UN64", 18, &[0xff; 16]),
    (*b"IN64", 17, &LOW),
    (*b"IN32", 7, &[0, 0, 0, 0x80]),
    (*b"UN32", 6, &[0, 0, 0, 0x80, 9, 9, 9]),
    (*b"IN16", 5, &[0, 0x80, 0xff, 0xff, 7]),
    (*b"UN16", 4, &[0, 0x80]),
    (*b"IN08", 2, &[0xff]),
    (*b"UN08", 1, &[0xff, 1]),
    (*b"CHAR", 3, &[65]),
    (*b"BOOL", 8, &[1, 0, 0, 0]),
    (*b"WIDE", 65_542, &[1, 0, 0, 0]),
    (*b"NONE", 6, &[1, 2, 3]),
];

/// The report of an event with these banks.
const INTEGER_LINES: &[u8] = b"events 1\nid 7 count 1\n\
bank IN08 INT8 count 1 sum -1 least -1 greatest -1\n\
bank IN16 INT16 count 2 sum -32769 least -32768 greatest -1\n\
bank IN32 INT32 count 1 sum -2147483648 least -2147483648 greatest -2147483648\n\
bank IN64 INT64 count 2 sum -1 least -9223372036854775808 greatest 9223372036854775807\n\
bank UN08 UINT8 count 2 sum 256 least 1 greatest 255\n\
bank UN16 UINT16 count 1 sum 32768 least 32768 greatest 32768\n\
bank UN32 UINT32 count 1 sum 2147483648 least 2147483648 greatest 2147483648\n\
bank UN64 UINT64 count 2 sum 36893488147419103230 least 18446744073709551615 greatest 18446744073709551615\n\
rest ids 0 banks 0 bad 0\n";

/// Whether the integers of each type are reported so.
fn are_reported(alloc: Global) -> Result<bool, NoMemory> {
    let body = area(alloc, Format::Bank32, INTEGERS)?;
    is_report(alloc, &[(7, &body)], b"", INTEGER_LINES)
}

#[test]
fn integers_of_each_type(rt: HostRuntime) {
    assert!(rt; matches!(are_reported(rt.alloc()), Ok(true)));
}

const OUT_OF_ORDER: &[([u8; 4], u32, &[u8])] = &[
    (*b"B\x00\xff ", 4, &[1, 0]),
    (*b"ADC0", 7, &[1, 0, 0, 0]),
    (*b"ADC0", 4, &[2, 0]),
];

/// The report of an event with these banks, and of two events without.
const ORDERED_LINES: &[u8] = b"> events 3\n> id 2 count 2\n> id 300 count 1\n\
> bank ADC0 UINT16 count 1 sum 2 least 2 greatest 2\n\
> bank ADC0 INT32 count 1 sum 1 least 1 greatest 1\n\
> bank B... UINT16 count 1 sum 1 least 1 greatest 1\n\
> rest ids 0 banks 0 bad 2\n";

/// Whether the lines of such banks and events are in order.
fn are_ordered(alloc: Global) -> Result<bool, NoMemory> {
    let body = area(alloc, Format::Bank16, OUT_OF_ORDER)?;
    let events: &[(u16, &[u8])] = &[(300, &body), (2, b"no banks"), (2, b"")];
    is_report(alloc, events, b"> ", ORDERED_LINES)
}

#[test]
fn order_of_lines_and_bad_events(rt: HostRuntime) {
    assert!(rt; matches!(are_ordered(rt.alloc()), Ok(true)));
}

/// An area with one bank of two bytes, named after the event's id.
fn small_area(id: u16, kind: u8) -> [u8; 24] {
    let high = (id / 16 % 16) as u8 + b'A';
    let low = (id % 16) as u8 + b'A';
    [
        16, 0, 0, 0, 1, 0, 0, 0, b'B', b'0', high, low, kind, 0, 2, 0, 3, 4, 0, 0, 0, 0, 0, 0,
    ]
}

/// Folds an event of each of the ids 0 to 255 into a new report, and two of the id 256.
fn fold_257_ids(report: &mut Report)
    requires { report.old.bytes ≡ 0 }
{
    for id in 0..256u16 {
        report.fold(&header(id), &small_area(id, 1));
    }
    let other = small_area(256, 2);
    report.fold(&header(256), &other);
    report.fold(&header(256), &other);
}

/// The last two lines of the text over 257 ids.
const LAST_LINES: &[u8] =
    b"bank B0PP UINT8 count 2 sum 7 least 3 greatest 4\nrest ids 2 banks 2 bad 0\n";

/// Whether the text ends so, and how many parts its line ends split it into.
fn end_of(text: &[u8]) -> (bool, usize) {
    let parts = text.split(|byte| *byte == b'\n').count();
    (text.ends_with(LAST_LINES), parts)
}

/// The same for the text of this report.
fn end_of_report(alloc: Global, report: &Report) -> Result<(bool, usize), NoMemory> {
    let mut text = TextBuffer::new(alloc);
    report.print(b"", &mut text)?;
    Ok(end_of(text.as_slice()))
}

/// The same for a report over the events of 257 ids.
fn end_of_257_ids(alloc: Global) -> Result<(bool, usize), NoMemory> {
    let mut report = Report::new(alloc)?;
    fold_257_ids(&mut report);
    end_of_report(alloc, &report)
}

#[test]
fn more_ids_and_banks_than_rows(rt: HostRuntime) {
    assert!(rt; matches!(end_of_257_ids(rt.alloc()), Ok((true, 515))));
}
