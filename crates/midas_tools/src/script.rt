ghost use Rattle.std.specs.Prelude.{◌≡◌, ◌++◌, codes, OnOk, OnErr, Err};
ghost use Rattle.std.specs.Fmt.{decimal};
ghost use Rattle.std.specs.Io.KnownBytes.{Appends};
ghost use Rattle.daq_io.specs.Counts.{Rose};
ghost use Rattle.daq_io.specs.Streams.{AppendsPart};
ghost use Rattle.midas_tools.specs.Scripts.{equip_line, equip_lines, generated_script, line_of, run_lines};
ghost use Rattle.midas_tools.specs.declared.script.Unwritten.TheVariants.{SinkFault as sink_fault, NoMemory as no_memory};

use daq_io::{Failed, Sink, write_all};
use daq_text::TextBuffer;
use daq_types::NoMemory;
use std::alloc::Global;

/// Why a script was not written whole.
#[derive(Clone, Copy, Debug, PartialEq, Eq)]
pub enum Unwritten {
    /// A call on the sink failed.
    SinkFault,
    /// There was no memory. Nothing was written.
    NoMemory,
}

impl From<NoMemory> for Unwritten {
    ghost from_gives = { λ _ e. e ≡ no_memory };

    fn from(_e: NoMemory) -> Unwritten {
        Unwritten::NoMemory
    }
}

impl From<Failed> for Unwritten {
    ghost from_gives = { λ _ e. e ≡ sink_fault };

    fn from(_e: Failed) -> Unwritten {
        Unwritten::SinkFault
    }
}

/// One front-end more: its events have the number in its name as their id.
#[tactic(auto, unfolding(crate::specs::Scripts::line_of))]
fn add_equip(script: &mut TextBuffer, number: u32) -> Result<(), NoMemory>
    ensures { OnOk result (script.new ≡ script.old ++ equip_line number) }
{
    script.text(b"equip FE")?;
    script.number(u64::from(number))?;
    script.text(b" ")?;
    script.number(u64::from(number))?;
    script.text(b" 1 SYSTEM")?;
    script.end_line()
}

/// So many front-ends.
fn add_equips(script: &mut TextBuffer, count: u32) -> Result<(), NoMemory>
    ensures { OnOk result (script.new ≡ script.old ++ equip_lines count) }
{
    for before in 0..count {
        add_equip(script, before + 1)?;
    }
    Ok(())
}

/// One line more.
#[tactic(auto, unfolding(crate::specs::Scripts::line_of))]
fn add_line(script: &mut TextBuffer, line: &[u8]) -> Result<(), NoMemory>
    ensures { OnOk result (script.new ≡ script.old ++ line_of line.now) }
{
    script.text(line)?;
    script.end_line()
}

/// A run that is started and stopped, one with a pause in it, and the end.
fn add_runs(script: &mut TextBuffer) -> Result<(), NoMemory>
    ensures { OnOk result (script.new ≡ script.old ++ run_lines) }
{
    add_line(script, b"start")?;
    add_line(script, b"stop")?;
    add_line(script, b"start")?;
    add_line(script, b"pause")?;
    add_line(script, b"resume")?;
    add_line(script, b"stop")?;
    add_line(script, b"exit")
}

/// How many events each front-end sends in a run.
#[tactic(auto, unfolding(crate::specs::Scripts::line_of))]
fn add_events(script: &mut TextBuffer, count: u32) -> Result<(), NoMemory>
    ensures { OnOk result (script.new ≡ script.old ++ line_of (codes "events " ++ decimal count)) }
{
    script.text(b"events ")?;
    script.number(u64::from(count))?;
    script.end_line()
}

/// The script of this number, behind what is there.
fn add_script(script: &mut TextBuffer, number: u32) -> Result<(), NoMemory>
    ensures { OnOk result (script.new ≡ script.old ++ generated_script number) }
{
    add_line(script, b"buffer SYSTEM 65536")?;
    add_equips(script, 1 + number % 4)?;
    add_line(script, b"analyzer ANA SYSTEM 65535 65535 all")?;
    add_events(script, 1000 + number % 1000)?;
    add_runs(script)
}

/// Writes the script of this number: 1 to 4 front-ends, each of which sends 1,000 to 1,999 events in each of two runs, and
/// an analyzer. After a failure of the sink the front of it was written; without memory nothing was.
pub fn write_script<O: Sink>(alloc: Global, number: u32, out: &mut O) -> Result<(), Unwritten>
    ensures all { OnOk result (Appends (O.told out.old).written (O.told out.new).written
        (generated_script number)) }
    ensures part { OnErr result (AppendsPart (O.told out.old).written (O.told out.new).written
        (generated_script number)) }
    ensures done { OnOk result ((O.told out.new).faults ≡ (O.told out.old).faults) }
    ensures failed { result ≡ Err sink_fault → Rose (O.told out.old).faults (O.told out.new).faults }
    ensures memory { result ≡ Err no_memory → ((O.told out.new).faults ≡ (O.told out.old).faults)
        × ((O.told out.new).written ≡ (O.told out.old).written) }
{
    let mut script = TextBuffer::new(alloc);
    add_script(&mut script, number)?;
    write_all(out, script.as_slice())?;
    Ok(())
}
