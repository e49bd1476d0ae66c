ghost use Rattle.daq_io.specs.Counts.{CountsFault};
ghost use Rattle.event.specs.Headers.{event_of};
ghost use Rattle.midas_tools.specs.Areas.{AreEventLines, PassesLines, bank_lines};
ghost use Rattle.midas_tools.specs.Printing.{PassesText};
ghost use Rattle.midas_tools.specs.Texts.{no_banks_line};

use crate::lines::{no_banks_line, print_bank_line, print_event_line};
use crate::page::Page;
use bank_format::{BankFault, Banks};
use daq_io::{Failed, Sink};
use event::Header;

/// Prints a line for each bank that was not given yet.
fn print_banks<O: Sink>(page: &mut Page, banks: &mut Banks, out: &mut O) -> Result<(), Failed>
    ensures passes { PassesText (O.told out.old).written (O.told out.new).written page.old page.new
        (bank_lines banks.old.left) result }
    ensures faults { CountsFault (O.told out.old).faults (O.told out.new).faults result }
{
    while let Some(bank) = banks.next() {
        print_bank_line(page, &bank, out)?;
    }
    Ok(())
}

/// Prints why the data of an event are no bank area. A call of its own: its line takes no room on the stack where the data are
/// one.
#[inline(never)]
fn print_no_banks<O: Sink>(page: &mut Page, fault: BankFault, out: &mut O) -> Result<(), Failed>
    ensures passes { PassesText (O.told out.old).written (O.told out.new).written page.old page.new
        (no_banks_line fault) result }
    ensures faults { CountsFault (O.told out.old).faults (O.told out.new).faults result }
{
    page.print(&no_banks_line(fault), out)
}

/// Prints the lines of an event and of its banks, or why its data are no bank area.
pub fn print_event<O: Sink>(
    page: &mut Page,
    header: &Header,
    body: &[u8],
    out: &mut O,
) -> Result<(), Failed>
    ensures passes { PassesLines (AreEventLines (event_of header.now body.now)) (O.told out.old).written
        (O.told out.new).written page.old page.new result }
    ensures faults { CountsFault (O.told out.old).faults (O.told out.new).faults result }
{
    let area = Banks::read(body);
    print_event_line(page, header, body, out)?;
    match area {
        Ok(mut banks) => print_banks(page, &mut banks, out),
        Err(fault) => print_no_banks(page, fault, out),
    }
}
