//! The start of a run: each channel opens it, and it is begun in every buffer; or that is undone.

ghost use Rattle.std.specs.Prelude.{◌≡◌, ◌≤◌, length, map, OnOk, OnErr, IfErr};
ghost use Rattle.event.specs.Events.{record_limit};
ghost use Rattle.loggers.specs.Moments.{moment_of, IsLoggerReady, AreIdleChannels};
ghost use Rattle.loggers.specs.Turning.{OpensBelow, RefusesOpen, AbortsAll, StartsSo};

use crate::marks::begin_all;
use crate::slots::{Ports, Slots};
use crate::steps::{abort_at, open_at};
use buffer_core::BufferPort;
use daq_io::Files;
use daq_types::{Order, Why};
use std::sync::Wait;

/// Opens the run on each channel, in order of number, up to the first that refuses.
fn open_all<R: Wait, F: Files, P: BufferPort>(
    slots: &mut Slots,
    rt: &R,
    files: &mut F,
    ports: &mut Ports<P>,
    order: &Order,
    dump: &[u8],
) -> Result<(), Why>
    requires ready { IsLoggerReady slots.old (map P.access ports.old) (F.told files.old).seen }
    requires idle { AreIdleChannels slots.old }
    requires small { length dump.now ≤ record_limit }
    ensures opens { OnOk result (OpensBelow order.now dump.now (length slots.old)
        (moment_of slots.old (map P.access ports.old) (F.told files.old))
        (moment_of slots.new (map P.access ports.new) (F.told files.new))) }
    ensures refuses { IfErr result (λ why. RefusesOpen order.now dump.now why
        (moment_of slots.old (map P.access ports.old) (F.told files.old))
        (moment_of slots.new (map P.access ports.new) (F.told files.new))) }
    ensures ready { IsLoggerReady slots.new (map P.access ports.new) (F.told files.new).seen }
    ensures count { length ports.new ≡ length ports.old }
{
    for number in 0..slots.len() {
        match open_at(slots, rt, files, ports, number, order, dump) {
            Ok(()) => {}
            Err(why) => return Err(why),
        }
    }
    Ok(())
}

/// Calls off the run of each channel.
pub fn abort_all<R: Wait, F: Files, P: BufferPort>(
    slots: &mut Slots,
    rt: &R,
    files: &mut F,
    ports: &mut Ports<P>,
)
    requires ready { IsLoggerReady slots.old (map P.access ports.old) (F.told files.old).seen }
    ensures aborts { AbortsAll (moment_of slots.old (map P.access ports.old) (F.told files.old))
        (moment_of slots.new (map P.access ports.new) (F.told files.new)) }
    ensures idle { AreIdleChannels slots.new }
    ensures ready { IsLoggerReady slots.new (map P.access ports.new) (F.told files.new).seen }
    ensures count { length ports.new ≡ length ports.old }
{
    for number in 0..slots.len() {
        abort_at(slots, rt, files, ports, number);
    }
}

/// Opens the run on each channel, and begins it in every buffer. At the first refusal each channel calls it off.
/// Answers in how many buffers it is begun.
pub fn start_run<R: Wait, F: Files, P: BufferPort>(
    slots: &mut Slots,
    rt: &R,
    files: &mut F,
    ports: &mut Ports<P>,
    order: &Order,
    dump: &[u8],
) -> (usize, Result<(), Why>)
    requires ready { IsLoggerReady slots.old (map P.access ports.old) (F.told files.old).seen }
    requires idle { AreIdleChannels slots.old }
    requires small { length dump.now ≤ record_limit }
    ensures starts { StartsSo result.1 order.now dump.now result.0
        (moment_of slots.old (map P.access ports.old) (F.told files.old))
        (moment_of slots.new (map P.access ports.new) (F.told files.new)) }
    ensures idle { OnErr result.1 (AreIdleChannels slots.new) }
    ensures ready { IsLoggerReady slots.new (map P.access ports.new) (F.told files.new).seen }
    ensures begun { result.0 ≤ length ports.new }
{
    if let Err(why) = open_all(slots, rt, files, ports, order, dump) {
        abort_all(slots, rt, files, ports);
        return (0, Err(why));
    }
    match begin_all(slots, rt, ports, order.start) {
        Ok(()) => (ports.len(), Ok(())),
        Err(begun) => {
            abort_all(slots, rt, files, ports);
            (begun, Err(Why::BufferRefused))
        }
    }
}
