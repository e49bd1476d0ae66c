//! Loggers of several channels, with ports to their buffers.

ghost use Rattle.std.specs.Prelude.{◌≡◌, ◌≤◌, ◌<◌, ◌%◌, List, map, IfOk};
ghost use Rattle.daq_io.specs.Seen.{Seen};
ghost use Rattle.buffer_core.specs.Ports.{Access};
ghost use Rattle.member_rows.specs.LoggerRows.{row_access, IsRowReady, AreRowPorts, AreRowSpecs, AreRowRooms, row_size};

use daq_types::NoMemory;
use loggers::{ChannelSpecs, Logger, Ports};
use mid_logger::{ChannelSpec, Pattern};
use plain_buffer::{OwningPort, PlainBuffer};
use std::alloc::Global;

/// The port of the rows.
pub type Port = OwningPort<PlainBuffer>;

/// The size in bytes of the buffer of this number: the first is the largest.
fn size_of(number: u32) -> u32
    ensures size { result ≡ row_size number }
    ensures least { 256 ≤ result }
    ensures most { result ≤ 1024 }
    ensures whole { result % 8 ≡ 0 }
{
    if number == 0 { 1024 } else { 256 }
}

/// A port to a new buffer of this number.
fn new_port(alloc: Global, number: u32) -> Result<Port, NoMemory>
    ensures { IfOk result (λ port. (row_access port).size ≡ row_size number) }
{
    OwningPort::new(alloc, PlainBuffer::new(alloc, size_of(number))?)
}

/// Ports to so many new buffers.
pub fn new_ports(alloc: Global, count: u32) -> Result<Ports<Port>, NoMemory>
    ensures { IfOk result (λ ports. AreRowPorts count (map row_access ports)) }
{
    let mut ports = Ports::new(alloc)?;
    for number in 0..count {
        ports.try_push(new_port(alloc, number)?)?;
    }
    Ok(ports)
}

/// The pattern of the names of a channel's files, with this limit for each; None without memory.
fn pattern_of(alloc: Global, number: u32, limit: u32) -> Option<Pattern> {
    if limit == 0 {
        let text = format!(in alloc; "ch{number}run%05d.mid").ok()?;
        return Pattern::new(text.as_str(), false).ok();
    }
    let text = format!(in alloc; "ch{number}run%05d-%04d.mid").ok()?;
    Pattern::new(text.as_str(), true).ok()
}

/// Channel n reads buffer n modulo the number of buffers, and asks for all events. Its files have this limit.
fn spec_of(alloc: Global, number: u32, buffers: u32, limit: u32) -> Result<ChannelSpec, NoMemory>
    requires some { 0 < buffers }
    ensures number { IfOk result (λ spec. spec.number ≡ number) }
    ensures buffer { IfOk result (λ spec. spec.buffer ≡ number % buffers) }
{
    let Some(pattern) = pattern_of(alloc, number, limit) else {
        return Err(NoMemory);
    };
    Ok(ChannelSpec {
        number,
        pattern,
        buffer: number % buffers,
        id: 65535,
        mask: 65535,
        sub_bytes: limit,
    })
}

/// The specs of so many channels.
fn new_specs(
    alloc: Global,
    channels: u32,
    buffers: u32,
    limit: u32,
) -> Result<ChannelSpecs, NoMemory>
    requires some { 0 < buffers }
    ensures { IfOk result (AreRowSpecs channels buffers) }
{
    let mut specs = ChannelSpecs::new(alloc)?;
    for number in 0..channels {
        specs.try_push(spec_of(alloc, number, buffers, limit)?)?;
    }
    Ok(specs)
}

/// Rooms, each for the largest event of the buffer that the channel reads.
fn new_rooms(alloc: Global, channels: u32, buffers: u32) -> Result<Vec<u32>, NoMemory>
    requires some { 0 < buffers }
    ensures { IfOk result (λ rooms. AreRowRooms channels buffers rooms.items) }
{
    let mut rooms = Vec::new(alloc);
    for number in 0..channels {
        rooms.push(size_of(number % buffers) - 24)?;
    }
    Ok(rooms)
}

/// A logger with so many channels, whose files have this limit.
pub fn new_logger(
    alloc: Global,
    channels: u32,
    buffers: u32,
    limit: u32,
) -> Result<Logger, NoMemory>
    requires few { channels ≤ 16 }
    requires some { 0 < buffers }
    ensures { IfOk result (λ logger. (ports : List Access) → (seen : Seen) →
        AreRowPorts buffers ports → IsRowReady logger ports seen) }
{
    let specs = new_specs(alloc, channels, buffers, limit)?;
    let rooms = new_rooms(alloc, channels, buffers)?;
    let logger = Logger::new(alloc, specs, rooms.as_slice())?;
    Ok(logger)
}
