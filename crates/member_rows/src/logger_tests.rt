//! The rows, each a logger with the calls on it and what comes of them.

use crate::answers::{Told, name_of, piece_name_of, read_answer};
use crate::fixture::Fixture;
use daq_mem::{FileFail, FileOp, MemFiles};
use daq_types::{NoMemory, RunState, Transition};
use mid_logger::Pulled;
use std::alloc::Global;
use std::process::Abort;
use std::sync::Wait;

/// A call, and what it must come to.
#[derive(Clone, Copy)]
enum Step {
    Start(Told),
    Pause(Told),
    /// Of a run in this state.
    Stop(RunState, Told),
    TakeBack(Told),
    /// The answer to the stop.
    Finish(Told),
    /// An event of so many bytes into a buffer, in the run with this start number.
    Send(usize, u32, usize),
    /// The run with this start number begins in a buffer.
    Begin(usize, u32),
    /// One pull on a channel.
    Pull(u32, Pulled),
    /// Three pulls on each channel: how many events are written.
    PullAll(usize),
    /// How many of the channels' files there are.
    Files(usize),
    /// How many bytes the closed file of a channel has.
    Closed(u32, usize),
    /// How many bytes the closed file of this number of a channel has, where its files have a limit.
    Piece(u32, u32, usize),
    /// Whether a call on the files failed.
    Failed(bool),
}

use Pulled::{Broke, Dropped, Nothing, Wrote};
use RunState::{Paused, Running, Stopped};
use Step::{
    Begin, Closed, Failed, Files, Finish, Pause, Piece, Pull, PullAll, Send, Start, Stop, TakeBack,
};
use Told::{Ended, Fault, Plain, Taken, Waits};

/// 189 bytes of each record, and 18 of the event. Channels 7 and 15 read buffer 7.
const SIXTEEN: &[Step] = &[
    Start(Plain),
    Send(7, 1, 2),
    Stop(Running, Waits),
    Finish(Waits),
    PullAll(2),
    Finish(Ended(16, 0)),
    Closed(0, 378),
    Closed(15, 396),
    Failed(false),
];

const TAKEN: &[Step] = &[Start(Taken(2)), Files(1), Closed(2, 0), TakeBack(Plain)];

/// The first buffer has room for an event that no other has.
const LARGE: &[Step] = &[
    Start(Plain),
    Send(0, 1, 1000),
    Send(1, 1, 2),
    Stop(Running, Waits),
    PullAll(2),
    Finish(Ended(2, 0)),
    Closed(0, 1394),
    Closed(1, 396),
];

/// The event that was sent in the pause was refused by the buffer.
const PAUSED: &[Step] = &[
    Start(Plain),
    Send(0, 1, 2),
    Pause(Plain),
    Send(0, 1, 2),
    Stop(Paused, Waits),
    PullAll(1),
    Finish(Ended(1, 0)),
    Closed(0, 396),
];

/// Another has begun the next run in the buffer, and sends in it.
const BEHIND: &[Step] = &[
    Start(Plain),
    Send(0, 1, 2),
    Stop(Running, Waits),
    Begin(0, 2),
    Send(0, 2, 2),
    Pull(0, Wrote { place: 0 }),
    Finish(Waits),
    Pull(0, Dropped { place: 1 }),
    Pull(0, Nothing),
    Finish(Ended(1, 0)),
    Closed(0, 396),
];

const BROKEN: &[Step] = &[
    Start(Plain),
    Send(0, 1, 2),
    Pull(0, Broke),
    Send(0, 1, 2),
    Pull(0, Nothing),
    Closed(0, 189),
    Stop(Running, Waits),
    Finish(Ended(0, 1)),
];

/// Both channels read one buffer, and a file of 210 bytes has room for one event. Each file begins with the dump of the start, and
/// the last one ends with that of the stop.
const PIECES: &[Step] = &[
    Start(Plain),
    Send(0, 1, 2),
    Send(0, 1, 2),
    Stop(Running, Waits),
    PullAll(4),
    Finish(Ended(2, 0)),
    Piece(0, 0, 223),
    Piece(0, 1, 396),
    Piece(1, 0, 223),
    Piece(1, 1, 396),
    Failed(false),
];

/// A fault at a start of two channels: no file is left.
const FAULT_AT_0: &[Step] = &[Start(Fault(0)), Files(0), Failed(true)];

const FAULT_AT_1: &[Step] = &[Start(Fault(1)), Files(0), Failed(true)];

/// A fault behind the event.
const LATE: &[Step] = &[
    Start(Plain),
    Send(0, 1, 2),
    Stop(Running, Waits),
    PullAll(1),
    Finish(Ended(0, 1)),
    Files(1),
    Failed(true),
];

/// The third channel's name is taken, and a file of the first two is not removed.
const LEFT: &[Step] = &[Start(Taken(2)), Files(2), Failed(true)];

/// The third channel's name is taken, and the close of a file of the first two fails: both are removed all the same.
const REMOVED: &[Step] = &[Start(Taken(2)), Files(1), Closed(2, 0), Failed(true)];

/// Whether a turn is answered so.
fn turns<R: Abort + Wait>(
    rt: &R,
    alloc: Global,
    row: &mut Fixture,
    (transition, time, from): (Transition, u32, RunState),
    wanted: Told,
) -> bool {
    read_answer(row.turn(rt, alloc, transition, time, from)) == wanted
}

/// How many events three pulls on each channel write.
fn pull_each<R: Abort + Wait>(rt: &R, row: &mut Fixture, channels: u32) -> usize {
    let mut wrote = 0;
    for channel in 0..channels {
        wrote = usize::wrapping_add(wrote, row.pull_all(rt, channel, 3));
    }
    wrote
}

/// How many files of the first channels there are.
fn count_files(alloc: Global, row: &Fixture, channels: u32) -> Option<usize> {
    let mut count = 0;
    for channel in 0..channels {
        if row.has_file(&name_of(alloc, channel)?) {
            count = usize::wrapping_add(count, 1);
        }
    }
    Some(count)
}

/// How many bytes the closed file of a channel has.
fn closed_bytes(alloc: Global, row: &Fixture, channel: u32) -> Option<usize> {
    row.closed_bytes(&name_of(alloc, channel)?)
}

/// How many bytes the closed file of this number of a channel has.
fn piece_bytes(alloc: Global, row: &Fixture, channel: u32, number: u32) -> Option<usize> {
    row.closed_bytes(&piece_name_of(alloc, channel, number)?)
}

/// Makes a call on a logger of so many channels, and answers whether it came to what it must.
fn is_right<R: Abort + Wait>(
    rt: &R,
    alloc: Global,
    row: &mut Fixture,
    channels: u32,
    step: Step,
) -> bool {
    match step {
        Start(wanted) => turns(rt, alloc, row, (Transition::Start, 1000, Stopped), wanted),
        Pause(wanted) => turns(rt, alloc, row, (Transition::Pause, 1010, Running), wanted),
        Stop(from, wanted) => turns(rt, alloc, row, (Transition::Stop, 1020, from), wanted),
        TakeBack(wanted) => turns(
            rt,
            alloc,
            row,
            (Transition::StartAbort, 1000, Stopped),
            wanted,
        ),
        Finish(wanted) => read_answer(row.finish()) == wanted,
        Send(buffer, start, len) => {
            row.call(rt, buffer, start, Some(len));
            true
        }
        Begin(buffer, start) => {
            row.call(rt, buffer, start, None);
            true
        }
        Pull(channel, wanted) => row.pull(rt, channel) == wanted,
        PullAll(wrote) => pull_each(rt, row, channels) == wrote,
        Files(count) => count_files(alloc, row, channels) == Some(count),
        Closed(channel, len) => closed_bytes(alloc, row, channel) == Some(len),
        Piece(channel, number, len) => piece_bytes(alloc, row, channel, number) == Some(len),
        Failed(failed) => row.failed() == failed,
    }
}

/// Whether each call on a logger of so many channels comes to what it must.
fn are_right<R: Abort + Wait>(
    rt: &R,
    alloc: Global,
    row: &mut Fixture,
    channels: u32,
    steps: &[Step],
) -> bool {
    for step in steps {
        if !is_right(rt, alloc, row, channels, *step) {
            return false;
        }
    }
    true
}

/// How many channels and buffers a logger has, and the most bytes of a file.
type Counts = (u32, u32, u32);

/// A logger, the call of a kind on its files that fails, if one does, and the calls on the logger.
type Row = (Counts, Option<(FileOp, u64)>, &'static [Step]);

/// Files of which this call of this kind fails.
fn new_files(alloc: Global, fail: Option<(FileOp, u64)>) -> Result<MemFiles, NoMemory> {
    let mut fails = Vec::new(alloc);
    if let Some((op, call)) = fail {
        fails.push(FileFail { op, call })?;
    }
    MemFiles::new(alloc, 16, 4096, fails)
}

/// Takes the name of the third channel; whether it is free.
fn take_third<F: daq_io::Files>(alloc: Global, files: &mut F) -> bool {
    let Some(name) = name_of(alloc, 2) else {
        return false;
    };
    match files.create(&name) {
        Ok(third) => files.close(third).is_ok(),
        Err(_) => false,
    }
}

/// The files of a row, of which there is the third channel's where its name is taken.
fn row_files(alloc: Global, fail: Option<(FileOp, u64)>, is_taken: bool) -> Option<MemFiles> {
    let mut files = new_files(alloc, fail).ok()?;
    if is_taken && !take_third(alloc, &mut files) {
        return None;
    }
    Some(files)
}

/// The logger of the row.
fn new_logger(alloc: Global, row: &Row, is_taken: bool) -> Option<Fixture> {
    let ((channels, buffers, limit), fail, _) = *row;
    let files = row_files(alloc, fail, is_taken)?;
    Fixture::new(alloc, channels.min(16), buffers.max(1), limit, files).ok()
}

/// Whether each call of the row comes to what it must.
fn is_row_right<R: Abort + Wait>(rt: &R, alloc: Global, row: &Row, is_taken: bool) -> bool {
    let Some(mut logger) = new_logger(alloc, row, is_taken) else {
        return false;
    };
    let ((channels, _, _), _, steps) = *row;
    are_right(rt, alloc, &mut logger, channels, steps)
}

/// Whether that holds of each row.
fn are_rows_right<R: Abort + Wait>(rt: &R, alloc: Global, rows: &[Row], is_taken: bool) -> bool {
    for row in rows {
        if !is_row_right(rt, alloc, row, is_taken) {
            return false;
        }
    }
    true
}

const RUNS: &[Row] = &[
    ((16, 8, 0), None, SIXTEEN),
    ((2, 2, 0), None, LARGE),
    ((1, 1, 0), None, PAUSED),
    ((1, 1, 0), None, BEHIND),
    ((2, 1, 210), None, PIECES),
];

#[test]
fn runs_of_several_channels(rt: HostRuntime) {
    assert!(rt; are_rows_right(&rt, rt.alloc(), RUNS, false));
}

const TAKES: &[Row] = &[((4, 2, 0), None, TAKEN)];

#[test]
fn the_name_of_a_file_is_taken(rt: HostRuntime) {
    assert!(rt; are_rows_right(&rt, rt.alloc(), TAKES, true));
}

/// Which call of a kind fails. A begin record is two appends, an event one, an end record two.
const FAILS: &[Row] = &[
    ((2, 1, 0), Some((FileOp::Create, 0)), FAULT_AT_0),
    ((2, 1, 0), Some((FileOp::Append, 0)), FAULT_AT_0),
    ((2, 1, 0), Some((FileOp::Append, 1)), FAULT_AT_0),
    ((2, 1, 0), Some((FileOp::Create, 1)), FAULT_AT_1),
    ((2, 1, 0), Some((FileOp::Append, 2)), FAULT_AT_1),
    ((2, 1, 0), Some((FileOp::Append, 3)), FAULT_AT_1),
    ((1, 1, 0), Some((FileOp::Append, 2)), BROKEN),
    ((1, 1, 0), Some((FileOp::Append, 3)), LATE),
    ((1, 1, 0), Some((FileOp::Append, 4)), LATE),
    ((1, 1, 0), Some((FileOp::Close, 0)), LATE),
];

#[test]
fn each_call_fails_in_turn(rt: HostRuntime) {
    assert!(rt; are_rows_right(&rt, rt.alloc(), FAILS, false));
}

const LEAVES: &[Row] = &[
    ((3, 1, 0), Some((FileOp::Remove, 0)), LEFT),
    ((3, 1, 0), Some((FileOp::Remove, 1)), LEFT),
];

#[test]
fn a_file_is_left_where_its_removal_fails(rt: HostRuntime) {
    assert!(rt; are_rows_right(&rt, rt.alloc(), LEAVES, true));
}

/// The first close is that of the file whose name is taken, before the start.
const CLOSES: &[Row] = &[
    ((3, 1, 0), Some((FileOp::Close, 1)), REMOVED),
    ((3, 1, 0), Some((FileOp::Close, 2)), REMOVED),
];

#[test]
fn a_file_is_removed_where_its_close_fails(rt: HostRuntime) {
    assert!(rt; are_rows_right(&rt, rt.alloc(), CLOSES, true));
}
