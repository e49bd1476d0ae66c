ghost use Rattle.std.specs.Prelude.{◌≡◌, ◌≤◌, ◌+◌, ◌++◌, length, OnOk};
ghost use Rattle.bank_format.specs.BankAreas.{bank_value};
ghost use Rattle.daq_io.specs.Counts.{CountsFault};
ghost use Rattle.event.specs.Headers.{event_of};
ghost use Rattle.midas_tools.specs.Printing.{PassesText};
ghost use Rattle.midas_tools.specs.Texts.{area_fault_text, bad_front, bad_line, bank_line, event_line, fault_text, input_text, no_banks_line, number_text, ok_line, record_line, run_number_line};

use crate::ends::InputFault;
use crate::line::Line;
use crate::page::Page;
use bank_format::{Bank, BankFault};
use daq_io::{Failed, Sink};
use daq_text::TextBuffer;
use daq_types::NoMemory;
use event::Header;
use event_report::visible_name;
use mid_format::MidFault;

/// Adds a name and the number behind it.
fn add_named(page: &mut TextBuffer, name: &[u8], value: u64) -> Result<(), NoMemory>
    ensures { OnOk result (page.new ≡ page.old ++ (name.now ++ number_text value)) }
{
    page.text(name)?;
    page.blank_number(value)
}

/// Adds the line of a run file that is good.
pub fn add_ok(page: &mut TextBuffer, run: u32, events: u64, bytes: u64) -> Result<(), NoMemory>
    ensures { OnOk result (page.new ≡ page.old ++ ok_line run events bytes) }
{
    add_named(page, b"ok run", run as u64)?;
    add_named(page, b" events", events)?;
    add_named(page, b" bytes", bytes)?;
    page.end_line()
}

/// Adds the line that tells which run a file is of.
pub fn add_run(page: &mut TextBuffer, run: u32) -> Result<(), NoMemory>
    ensures { OnOk result (page.new ≡ page.old ++ run_number_line run) }
{
    add_named(page, b"run", run as u64)?;
    page.end_line()
}

/// Puts the name of a fault of a run file, and its numbers, in front.
fn put_fault(line: &mut Line, fault: MidFault)
    requires { length line.old ≤ 8 }
    ensures added { line.new ≡ fault_text fault ++ line.old }
    ensures short { length line.new ≤ length line.old + 51 }
{
    match fault {
        MidFault::Truncated { at } => line.named(b"Truncated", at),
        MidFault::NoBegin { at } => line.named(b"NoBegin", at),
        MidFault::NoEnd { at } => line.named(b"NoEnd", at),
        MidFault::AfterEnd { at } => line.named(b"AfterEnd", at),
        MidFault::TooBig { at, size } => {
            line.blank_number(size as u64);
            line.named(b"TooBig", at);
        }
        MidFault::ReadFault => line.put(b"ReadFault"),
        MidFault::BadRecord { at } => line.named(b"BadRecord", at),
        MidFault::TooLong { at } => line.named(b"TooLong", at),
    }
}

/// Puts what is wrong, and its numbers, in front.
fn put_input(line: &mut Line, fault: InputFault)
    requires { length line.old ≤ 8 }
    ensures added { line.new ≡ input_text fault ++ line.old }
    ensures short { length line.new ≤ length line.old + 51 }
{
    match fault {
        InputFault::Mid(fault) => put_fault(line, fault),
        InputFault::Compressed => line.put(b"Compressed"),
        InputFault::Missing => line.put(b"Missing"),
        InputFault::ScriptTooLong => line.put(b"ScriptTooLong"),
        InputFault::OtherRun { file, run } => {
            line.blank_number(run as u64);
            line.named(b"OtherRun", file as u64);
        }
    }
}

/// The line that says what is wrong with a file.
pub fn bad_line(fault: InputFault) -> Line
    ensures { result ≡ bad_line fault }
{
    let mut line = Line::new();
    put_input(&mut line, fault);
    line.put(b"bad ");
    line
}

/// The same as far as the name of the file, which follows.
pub fn bad_front(fault: InputFault) -> Line
    ensures { result ≡ bad_front fault }
{
    let mut line = Line::empty();
    line.put(b" in ");
    put_input(&mut line, fault);
    line.put(b"bad ");
    line
}

/// The line of the begin record or the end record.
pub fn record_line(word: &[u8], header: &Header) -> Line
    requires { length word.now ≤ 8 }
    ensures { result ≡ record_line word.now header.now }
{
    let mut line = Line::new();
    line.blank_number(header.data_size as u64);
    line.blank_number(header.time_stamp as u64);
    line.blank_number(header.serial_number as u64);
    line.put(word);
    line
}

/// Prints the line of the event with this header and these data.
pub fn print_event_line<O: Sink>(
    page: &mut Page,
    header: &Header,
    body: &[u8],
    out: &mut O,
) -> Result<(), Failed>
    ensures passes { PassesText (O.told out.old).written (O.told out.new).written page.old page.new
        (event_line (event_of header.now body.now)) result }
    ensures faults { CountsFault (O.told out.old).faults (O.told out.new).faults result }
{
    let mut line = Line::new();
    line.blank_number(body.len() as u64);
    line.blank_number(header.time_stamp as u64);
    line.blank_number(header.serial_number as u64);
    line.blank_number(header.trigger_mask as u64);
    line.blank_number(header.event_id as u64);
    line.put(b"event");
    page.print(&line, out)
}

/// Prints the line of a bank.
pub fn print_bank_line<O: Sink>(page: &mut Page, bank: &Bank, out: &mut O) -> Result<(), Failed>
    ensures passes { PassesText (O.told out.old).written (O.told out.new).written page.old page.new
        (bank_line (bank_value bank.now.name bank.now.tid bank.now.body.now)) result }
    ensures faults { CountsFault (O.told out.old).faults (O.told out.new).faults result }
{
    let mut line = Line::new();
    line.blank_number(bank.body.len() as u64);
    line.blank_type(bank.tid);
    line.put(&visible_name(bank.name));
    line.put(b"  bank ");
    page.print(&line, out)
}

/// Puts in front why the data of an event are no bank area.
fn put_area_fault(line: &mut Line, fault: BankFault)
    requires { length line.old ≤ 8 }
    ensures added { line.new ≡ area_fault_text fault ++ line.old }
    ensures short { length line.new ≤ length line.old + 51 }
{
    match fault {
        BankFault::Short { at } => line.named(b"Short", at),
        BankFault::BadFlags { found } => line.named(b"BadFlags", found as u64),
        BankFault::BadSize { at } => line.named(b"BadSize", at),
    }
}

/// The line of data that are no bank area.
pub fn no_banks_line(fault: BankFault) -> Line
    ensures { result ≡ no_banks_line fault }
{
    let mut line = Line::new();
    put_area_fault(&mut line, fault);
    line.put(b"  no banks ");
    line
}
