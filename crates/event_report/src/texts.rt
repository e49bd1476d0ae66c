ghost use Rattle.std.specs.Prelude.{◌≡◌, ◌++◌, OnOk, OnErr, map};
ghost use Rattle.std.specs.Fmt.{decimal, signed_decimal};
ghost use Rattle.std.specs.List.{flat_map};
ghost use Rattle.event_report.specs.Texts as texts;
ghost use Rattle.event_report.specs.Texts.{HasInFront, bank_text, figures_text, id_text, kind_text, line};

use crate::rows::{BankRow, Figures, IdRow};
use daq_text::TextBuffer;
use daq_types::NoMemory;

/// A byte of a bank's name as it is printed: a point where it is no visible character.
fn visible(byte: u8) -> u8
    ensures { result ≡ texts.visible byte }
{
    if byte >= 0x21 && byte <= 0x7e {
        byte
    } else {
        b'.'
    }
}

/// A bank's name as it is printed.
pub fn visible_name(name: [u8; 4]) -> [u8; 4]
    ensures { result ≡ map texts.visible name }
{
    let [a, b, c, d] = name;
    [visible(a), visible(b), visible(c), visible(d)]
}

/// Appends words and a number.
pub fn append_named(name: &[u8], number: u64, text: &mut TextBuffer) -> Result<(), NoMemory>
    ensures added { OnOk result (text.new ≡ text.old ++ (name.now ++ decimal number)) }
    ensures begins { OnErr result (HasInFront text.old text.new) }
{
    text.text(name)?;
    text.number(number)
}

/// Appends words and a number with a sign.
fn append_signed(name: &[u8], number: i128, text: &mut TextBuffer) -> Result<(), NoMemory>
    ensures added { OnOk result (text.new ≡ text.old ++ (name.now ++ signed_decimal number)) }
    ensures begins { OnErr result (HasInFront text.old text.new) }
{
    text.text(name)?;
    text.signed(number)
}

/// Appends the line of an id.
fn append_id(row: &IdRow, start: &[u8], text: &mut TextBuffer) -> Result<(), NoMemory>
    ensures added { OnOk result (text.new ≡ text.old ++ line start.now (id_text row.now)) }
    ensures begins { OnErr result (HasInFront text.old text.new) }
{
    text.text(start)?;
    append_named(b"id ", row.id as u64, text)?;
    append_named(b" count ", row.count, text)?;
    text.end_line()
}

/// Appends the name and the type of banks.
fn append_kind(row: &BankRow, text: &mut TextBuffer) -> Result<(), NoMemory>
    ensures added { OnOk result (text.new ≡ text.old ++ kind_text row.now) }
    ensures begins { OnErr result (HasInFront text.old text.new) }
{
    text.text(b"bank ")?;
    text.text(&visible_name(row.name))?;
    text.text(b" ")?;
    text.text(row.kind.tid().name().as_bytes())
}

/// Appends figures.
fn append_figures(figures: &Figures, text: &mut TextBuffer) -> Result<(), NoMemory>
    ensures added { OnOk result (text.new ≡ text.old ++ figures_text figures.now) }
    ensures begins { OnErr result (HasInFront text.old text.new) }
{
    append_named(b" count ", figures.count, text)?;
    append_signed(b" sum ", figures.sum, text)?;
    append_signed(b" least ", figures.least, text)?;
    append_signed(b" greatest ", figures.greatest, text)
}

/// Appends the line of a name and type of banks.
fn append_bank(row: &BankRow, start: &[u8], text: &mut TextBuffer) -> Result<(), NoMemory>
    ensures added { OnOk result (text.new ≡ text.old ++ line start.now (bank_text row.now)) }
    ensures begins { OnErr result (HasInFront text.old text.new) }
{
    text.text(start)?;
    append_kind(row, text)?;
    append_figures(&row.figures, text)?;
    text.end_line()
}

/// Appends the lines of ids.
pub fn append_ids(rows: &[IdRow], start: &[u8], text: &mut TextBuffer) -> Result<(), NoMemory>
    ensures added { OnOk result (text.new ≡ text.old ++ flat_map (λ r. line start.now (id_text r))
        rows.now) }
    ensures begins { OnErr result (HasInFront text.old text.new) }
{
    for row in rows {
        append_id(row, start, text)?;
    }
    Ok(())
}

/// Appends the lines of names and types of banks.
pub fn append_banks(rows: &[BankRow], start: &[u8], text: &mut TextBuffer) -> Result<(), NoMemory>
    ensures added { OnOk result (text.new ≡ text.old ++ flat_map
        (λ r. line start.now (bank_text r)) rows.now) }
    ensures begins { OnErr result (HasInFront text.old text.new) }
{
    for row in rows {
        append_bank(row, start, text)?;
    }
    Ok(())
}
