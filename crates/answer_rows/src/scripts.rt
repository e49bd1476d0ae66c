//! The script that `gen` writes.
use daq_mem::MemSink;
use daq_types::NoMemory;
use midas_tools::write_script;
use std::alloc::Global;

/// The script of 0, as it is told to users.
const FIRST: &str = "buffer SYSTEM 65536
equip FE1 1 1 SYSTEM
analyzer ANA SYSTEM 65535 65535 all
events 1000
start
stop
start
pause
resume
stop
exit
";

/// Whether the script of 0 is written as it is told.
fn writes_first(alloc: Global) -> Result<bool, NoMemory> {
    let mut out = MemSink::new(alloc, 4096, Vec::new(alloc))?;
    let is_written = write_script(alloc, 0, &mut out).is_ok();
    Ok(is_written && out.bytes() == FIRST.as_bytes())
}

#[test]
fn the_first_script(rt: HostRuntime) {
    assert!(rt; matches!(writes_first(rt.alloc()), Ok(true)));
}
