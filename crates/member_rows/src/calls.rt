//! The calls of a row on a logger, and beside it on its buffers.

ghost use Rattle.std.specs.Prelude.{◌≡◌, map, OnOk};
ghost use Rattle.member_rows.specs.LoggerRows.{IsRowReady, HaveSameSizes};

use buffer_core::BufferPort;
use daq_io::Files;
use daq_types::{Bytes, NoMemory, Order, Transition};
use event::Header;
use loggers::{Logger, Ports};
use member_model::Answer;
use mid_logger::Pulled;
use std::alloc::Global;
use std::sync::Wait;

/// The dump of every turn: the database with a front-end that has sent nothing.
const DUMP: &[u8] =
    b"[/Runinfo]\nState = INT32 : 1\nRun number = INT32 : 1\nStart time binary = UINT32 : 1000\nStop time binary = UINT32 : 0\n\n[/Equipment]\n\n[/Equipment/FE]\nEvents sent = UINT64 : 0\n\n";

/// Gives the logger a turn, with the dump.
pub fn turn<R: Wait, F: Files, P: BufferPort>(
    rt: &R,
    alloc: Global,
    logger: &mut Logger,
    files: &mut F,
    ports: &mut Ports<P>,
    transition: Transition,
    order: &Order,
) -> Result<Option<Answer>, NoMemory>
    requires row { IsRowReady logger.old (map P.access ports.old) (F.told files.old).seen }
    ensures row { OnOk result (IsRowReady logger.new (map P.access ports.new) (F.told files.new).seen) }
{
    let dump = Bytes::of(DUMP.to_vec(alloc)?);
    Ok(logger.on_turn(rt, files, ports, transition, order, Some(dump)))
}

/// The bytes of the events' data.
const DATA: &[u8] = &[7; 1000];

/// Sends an event of so many bytes in the run with this start number.
fn send_on<R: Wait, P: BufferPort>(rt: &R, port: &mut P, start: u32, len: usize)
    ensures size { (P.access port.new).size ≡ (P.access port.old).size }
{
    let (body, _) = DATA.split_at(len.min(1000));
    let header = Header {
        event_id: 1,
        trigger_mask: 2,
        serial_number: 3,
        time_stamp: 4,
        data_size: body.len() as u32,
    };
    let _ = port.send_in_run(rt, start, &header, body);
}

/// Sends an event of so many bytes in the run with this start number, or begins that run where there is none.
fn call_on<R: Wait, P: BufferPort>(rt: &R, port: &mut P, start: u32, event: Option<usize>)
    ensures size { (P.access port.new).size ≡ (P.access port.old).size }
{
    match event {
        Some(len) => send_on(rt, port, start, len),
        None => {
            let _ = port.begin(rt, start);
        }
    }
}

/// Sends an event of so many bytes in the run with this start number into a buffer, or begins that run there where there
/// is none.
pub fn call<R: Wait, P: BufferPort>(
    rt: &R,
    ports: &mut Ports<P>,
    buffer: usize,
    start: u32,
    event: Option<usize>,
)
    ensures sizes { HaveSameSizes (map P.access ports.old) (map P.access ports.new) }
{
    let Some(port) = ports.get_mut(buffer) else {
        return;
    };
    call_on(rt, port, start, event);
}

/// Pulls once on a channel.
pub fn pull<R: Wait, F: Files, P: BufferPort>(
    rt: &R,
    logger: &mut Logger,
    files: &mut F,
    ports: &mut Ports<P>,
    channel: u32,
) -> Pulled
    requires row { IsRowReady logger.old (map P.access ports.old) (F.told files.old).seen }
    ensures row { IsRowReady logger.new (map P.access ports.new) (F.told files.new).seen }
{
    logger.pull(rt, files, ports, channel)
}
