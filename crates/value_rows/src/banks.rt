//! Bank areas that are written and read.
use bank_format::{Bank, BankFault, BankRefusal, BankWriter, Banks, Format, MAX_AREA};
use daq_types::NoMemory;
use std::alloc::Global;

const BODY: [u8; 6] = [1, 0, 2, 0, 3, 0];

const BANK: Bank<'static> = Bank {
    name: *b"ADC0",
    tid: 4,
    body: &BODY,
};

const AREA_16: [u8; 24] = [
    0x10, 0, 0, 0, 0x01, 0, 0, 0, 0x41, 0x44, 0x43, 0x30, 4, 0, 6, 0, 1, 0, 2, 0, 3, 0, 0, 0,
];

const AREA_32A: [u8; 32] = [
    0x18, 0, 0, 0, 0x31, 0, 0, 0, 0x41, 0x44, 0x43, 0x30, 4, 0, 0, 0, 6, 0, 0, 0, 0, 0, 0, 0, 1, 0,
    2, 0, 3, 0, 0, 0,
];

/// The area of the bank in each of two formats.
const AREAS: &[(Format, &[u8])] = &[(Format::Bank16, &AREA_16), (Format::Bank32A, &AREA_32A)];

/// Whether the writer makes this area of the bank, and one without banks when it is cleared.
fn makes_and_clears(writer: &mut BankWriter, area: &[u8]) -> bool {
    let is_added = writer.add(*b"ADC0", 4, &BODY).is_ok();
    let is_made = writer.finish() == area;
    writer.clear();
    is_added && is_made && writer.finish().len() == 8
}

/// Whether a new writer of this format does so.
fn writes(alloc: Global, format: Format, area: &[u8]) -> Result<bool, NoMemory> {
    let mut writer = BankWriter::new(alloc, format, MAX_AREA)?;
    Ok(makes_and_clears(&mut writer, area))
}

#[test]
fn writes_one_bank(rt: HostRuntime) {
    for (format, area) in AREAS {
        let is_written = writes(rt.alloc(), *format, area);
        assert!(rt; matches!(is_written, Ok(true)), "{format:?}");
    }
}

/// Whether the writer has no room for a bank, and refuses one whose type does not fit before that, and one whose data are
/// too long before both.
fn refuses(writer: &mut BankWriter, long: &[u8]) -> bool {
    let no_room = writer.add(*b"ADC0", 4, &BODY);
    let bad_tid = writer.add(*b"ADC0", 65_536, &BODY);
    let too_long = writer.add(*b"ADC0", 65_536, long);
    no_room == Err(BankRefusal::NoRoom { need: 24 })
        && bad_tid == Err(BankRefusal::BadTid { tid: 65_536 })
        && too_long == Err(BankRefusal::TooLong { len: 65_536 })
}

/// Whether a small writer does so.
fn small_refuses(alloc: Global) -> Result<bool, NoMemory> {
    let long = vec![in alloc; 0; 65_536]?;
    let mut writer = BankWriter::new(alloc, Format::Bank16, 16)?;
    Ok(refuses(&mut writer, &long))
}

#[test]
fn refuses_banks(rt: HostRuntime) {
    assert!(rt; matches!(small_refuses(rt.alloc()), Ok(true)));
}

/// Bytes that are no area of banks, and the first fault of each.
const FAULTS: &[(&[u8], BankFault)] = &[
    (b"\0\0\0\0\x01\0\0", BankFault::Short { at: 7 }),
    (b"\0\0\0\0\x02\0\0\0", BankFault::BadFlags { found: 2 }),
    (b"\xff\xff\xff\xff\x01\0\0\0", BankFault::Short { at: 8 }),
    (b"\0\0\0\0\x01\0\0\0\0", BankFault::BadSize { at: 0 }),
    (
        b"\x08\0\0\0\x01\0\0\0ADC0\x01\0\x01\0",
        BankFault::BadSize { at: 8 },
    ),
    (b"\x04\0\0\0\x11\0\0\0ADC0", BankFault::Short { at: 12 }),
];

#[test]
fn names_the_first_fault(rt: HostRuntime) {
    for (bytes, fault) in FAULTS {
        assert!(rt; Banks::read(bytes).err() == Some(*fault), "{fault:?}");
    }
}

/// Areas, and the bank that each has, if any.
const READ: &[(&[u8], Option<Bank<'static>>)] = &[
    (&AREA_16, Some(BANK)),
    (&AREA_32A, Some(BANK)),
    (b"\0\0\0\0\x01\0\0\0", None),
];

/// Whether the area has this bank alone, which is then found by its name.
fn has_alone(area: &[u8], bank: Option<Bank<'_>>) -> bool {
    let Ok(mut banks) = Banks::read(area) else {
        return false;
    };
    banks.next() == bank
        && banks.next().is_none()
        && banks.find(*b"ADC0") == bank
        && banks.find(*b"ADC1").is_none()
}

#[test]
fn reads_banks(rt: HostRuntime) {
    for (area, bank) in READ {
        assert!(rt; has_alone(area, *bank), "{area:?}");
    }
}
