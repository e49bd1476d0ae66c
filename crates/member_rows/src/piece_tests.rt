ghost use Rattle.std.specs.Prelude.{◌≡◌, ◌≤◌, false, IfOk, IfSome, length};
ghost use Rattle.event.specs.Events.{event_limit, record_limit};
ghost use Rattle.mid_logger.specs.declared.stage.ChannelStage.TheVariants.{Idle};
ghost use Rattle.mid_logger.specs.Channels.{IsLastOpen, files_by, written_run};

use buffer_core::BufferPort;
use daq_io::Files;
use daq_mem::{FileFail, FileOp, MemFiles};
use daq_types::{Bytes, ChannelEnd, ChannelState, FileName, NoMemory, Order, RunState};
use event::{EventBuf, Header};
use mid_logger::{Channel, ChannelRun, ChannelSpec, ChannelStage, OpenFile, Pattern};
use plain_buffer::{OwningPort, PlainBuffer};
use std::alloc::Global;
use std::sync::Wait;
use std::test::Fail;

/// A dump of 24 bytes, so that each file begins with 40.
const DUMP: &[u8] = b"[/Runinfo]\nState = 1\n\n\n\n";

/// The data of an event of 40 bytes, of one of 200, and of none.
const SMALL: &[u8] = &[7; 24];

const LARGE: &[u8] = &[7; 184];

const NONE: &[u8] = &[];

/// The names of the first three files, and of those around the greatest number.
const FIRST_NAMES: [&str; 3] = [
    "run00001sub0000.mid",
    "run00001sub0001.mid",
    "run00001sub0002.mid",
];

const LAST_NAMES: [&str; 3] = [
    "run00001sub9998.mid",
    "run00001sub9999.mid",
    "run00001sub10000.mid",
];

/// A run with a limit for its files: the data of its events, whether the name of the second file is taken, whether it goes on at
/// number 9998, whether it is called off, and the call on the files that fails.
#[derive(Clone, Copy)]
struct Plan {
    limit: u32,
    events: [&'static [u8]; 3],
    taken: bool,
    goes_on: bool,
    aborts: bool,
    fail: Option<FileFail>,
}

/// What came of a run: what the channel told, if it was not called off, and how long each of three files is, where it is there
/// and closed.
#[derive(Clone, Copy, PartialEq, Eq)]
struct Outcome {
    end: Option<ChannelEnd>,
    first: Option<usize>,
    second: Option<usize>,
    third: Option<usize>,
}

/// Channel 3, which asks for all events, with this limit.
fn limited_channel(alloc: Global, pattern: Pattern, sub_bytes: u32) -> Result<Channel, NoMemory>
    ensures { IfOk result (λ channel. (channel.stage ≡ Idle)
        × (event_limit ≤ channel.event.room)) }
{
    Ok(Channel {
        spec: ChannelSpec {
            number: 3,
            pattern,
            buffer: 0,
            id: 65535,
            mask: 65535,
            sub_bytes,
        },
        client: None,
        stage: ChannelStage::Idle,
        failed: false,
        event: EventBuf::new(alloc, 4_194_304)?,
    })
}

/// Opens run 1 and begins it in the buffer.
fn begin<R: Wait, F: Files, P: BufferPort>(
    rt: &R,
    files: &mut F,
    port: &mut P,
    channel: &mut Channel,
)
    requires idle { channel.old.stage ≡ Idle }
    ensures room { channel.new.event ≡ channel.old.event }
    ensures file { IsLastOpen (F.told files.new).seen channel.new.spec
        (written_run channel.new.stage) }
    ensures few { files_by channel.new.stage ≤ 10000 }
{
    let order = Order {
        run: 1,
        start: 1,
        time: 1000,
        from: RunState::Stopped,
        quota: 1,
    };
    let _ = channel.open(rt, files, port, &order, DUMP);
    if let Ok(place) = port.begin(rt, 1) {
        channel.note_begun(place);
    }
}

/// The run with this file being written, as if the files before it were made.
fn writing_at(opened: ChannelRun, file: u32, sub: u32) -> ChannelRun
    ensures { result ≡ record opened
        { at = record { file = file; sub = sub; bytes = 40; taken = false } } }
{
    ChannelRun {
        at: OpenFile {
            file,
            sub,
            bytes: 40,
            taken: false,
        },
        ..opened
    }
}

/// Goes on in an empty file of number 9998. Where it cannot be made no run is written.
fn go_on<F: Files>(files: &mut F, channel: &mut Channel)
    ensures room { channel.new.event ≡ channel.old.event }
    ensures file { IsLastOpen (F.told files.new).seen channel.new.spec
        (written_run channel.new.stage) }
    ensures few { files_by channel.new.stage ≤ 10000 }
{
    let stage = channel.stage;
    channel.stage = ChannelStage::Idle;
    let ChannelStage::Writing { opened, begun } = stage else {
        return;
    };
    let name = channel.spec.pattern.name(opened.run, 9998);
    if let Ok(file) = files.create(&name) {
        channel.stage = ChannelStage::Writing {
            opened: writing_at(opened, file, 9998),
            begun,
        };
    }
}

/// Sends an event with these data, if there are any.
fn send<R: Wait, P: BufferPort>(rt: &R, port: &mut P, body: &[u8]) {
    if body.is_empty() {
        return;
    }
    let Ok(data_size) = u32::try_from(body.len()) else {
        return;
    };
    let header = Header {
        event_id: 1,
        trigger_mask: 2,
        serial_number: 3,
        time_stamp: 4,
        data_size,
    };
    let _ = port.send_in_run(rt, 1, &header, body);
}

/// Sends an event with these data, if there are any, and pulls once.
fn send_and_pull<R: Wait, F: Files, P: BufferPort>(
    rt: &R,
    files: &mut F,
    port: &mut P,
    channel: &mut Channel,
    body: &[u8],
)
    requires file { IsLastOpen (F.told files.old).seen channel.old.spec (written_run channel.old.stage) }
    requires few { files_by channel.old.stage ≤ 10000 }
    requires room { event_limit ≤ channel.old.event.room }
    ensures room { event_limit ≤ channel.new.event.room }
    ensures file { IsLastOpen (F.told files.new).seen channel.new.spec (written_run channel.new.stage) }
    ensures few { files_by channel.new.stage ≤ 10000 }
{
    send(rt, port, body);
    let _ = channel.pull(rt, files, port, DUMP);
}

/// Begins the run, and sends and pulls the events.
fn write_events<R: Wait, F: Files, P: BufferPort>(
    rt: &R,
    files: &mut F,
    port: &mut P,
    channel: &mut Channel,
    plan: Plan,
)
    requires idle { channel.old.stage ≡ Idle }
    requires room { event_limit ≤ channel.old.event.room }
    ensures room { event_limit ≤ channel.new.event.room }
    ensures file { IsLastOpen (F.told files.new).seen channel.new.spec (written_run channel.new.stage) }
    ensures few { files_by channel.new.stage ≤ 10000 }
{
    begin(rt, files, port, channel);
    if plan.goes_on {
        go_on(files, channel);
    }
    let [first, second, third] = plan.events;
    send_and_pull(rt, files, port, channel, first);
    send_and_pull(rt, files, port, channel, second);
    send_and_pull(rt, files, port, channel, third);
}

/// Ends the run in the buffer, reads it to its end, and ends its files; or calls it off.
fn end<R: Wait, F: Files, P: BufferPort>(
    rt: &R,
    files: &mut F,
    port: &mut P,
    channel: &mut Channel,
    aborts: bool,
    dump: &Option<Bytes>,
) -> Option<ChannelEnd>
    requires file { IsLastOpen (F.told files.old).seen channel.old.spec (written_run channel.old.stage) }
    requires few { files_by channel.old.stage ≤ 10000 }
    requires room { event_limit ≤ channel.old.event.room }
    requires small { IfSome dump.now (λ bytes. length bytes ≤ record_limit) }
{
    if aborts {
        channel.abort(rt, files, port);
        return None;
    }
    channel.note_ended(port.end(rt, 1).ok());
    send_and_pull(rt, files, port, channel, NONE);
    Some(channel.close(files, 1010, dump))
}

/// The name of the file of this text in run 1.
fn named(text: &str) -> Result<FileName, Fail> {
    match FileName::new(text) {
        Ok(name) => Ok(name),
        Err(bad) => Err(Fail::from(bad)),
    }
}

/// How long the file of this name is, where it is there and closed.
fn length_of(files: &MemFiles, name: &FileName) -> Option<usize> {
    if !files.is_closed(name) {
        return None;
    }
    Some(files.find(name)?.len())
}

/// The call that fails, if there is one.
fn fails_of(alloc: Global, fail: Option<FileFail>) -> Result<Vec<FileFail>, NoMemory> {
    let mut fails = Vec::new(alloc);
    if let Some(one) = fail {
        fails.push(one)?;
    }
    Ok(fails)
}

/// The files before the run.
fn files_before(alloc: Global, plan: Plan) -> Result<MemFiles, Fail> {
    let mut files = MemFiles::new(alloc, 4, 4096, fails_of(alloc, plan.fail)?)?;
    if plan.taken {
        files.add(named("run00001sub0001.mid")?, vec![in alloc; 1]?)?;
    }
    Ok(files)
}

/// Runs as planned, and stops with an empty dump.
fn ended<R: Wait>(
    rt: &R,
    alloc: Global,
    files: &mut MemFiles,
    pattern: Pattern,
    plan: Plan,
) -> Result<Option<ChannelEnd>, NoMemory> {
    let mut channel = limited_channel(alloc, pattern, plan.limit)?;
    let mut port = OwningPort::new(alloc, PlainBuffer::new(alloc, 1024)?)?;
    write_events(rt, files, &mut port, &mut channel, plan);
    let dump = Some(Bytes::of(Vec::new(alloc)));
    Ok(end(rt, files, &mut port, &mut channel, plan.aborts, &dump))
}

/// What comes of the run.
fn came_of<R: Wait>(rt: &R, alloc: Global, plan: Plan) -> Result<Outcome, Fail> {
    let mut files = files_before(alloc, plan)?;
    let pattern = Pattern::new("run%05dsub%04d.mid", true)?;
    let end = ended(rt, alloc, &mut files, pattern, plan)?;
    let [first, second, third] = if plan.goes_on {
        LAST_NAMES
    } else {
        FIRST_NAMES
    };
    Ok(Outcome {
        end,
        first: length_of(&files, &named(first)?),
        second: length_of(&files, &named(second)?),
        third: length_of(&files, &named(third)?),
    })
}

/// A run in which no call fails.
fn planned(limit: u32, events: [&'static [u8]; 3]) -> Plan {
    Plan {
        limit,
        events,
        taken: false,
        goes_on: false,
        aborts: false,
        fail: None,
    }
}

/// Two events, of which the second has no room in the first file.
fn two_files() -> Plan {
    planned(119, [SMALL, SMALL, NONE])
}

/// A run of two files in which this call fails.
fn failing(op: FileOp, call: u64) -> Plan {
    Plan {
        fail: Some(FileFail { op, call }),
        ..two_files()
    }
}

/// A run of two files that is called off, in which this call fails.
fn called_off(fail: Option<FileFail>) -> Plan {
    Plan {
        aborts: true,
        fail,
        ..two_files()
    }
}

/// What the channel told, and the files.
fn told_and_left(
    (state, files, framed): (ChannelState, u32, u32),
    [first, second, third]: [Option<usize>; 3],
) -> Outcome {
    Outcome {
        end: Some(ChannelEnd {
            state,
            files,
            framed,
        }),
        first,
        second,
        third,
    }
}

/// The run ended with so many files, of these lengths.
fn whole(files: u32, lengths: [Option<usize>; 3]) -> Outcome {
    told_and_left((ChannelState::Ended, files, files), lengths)
}

/// The channel broke with so many files, of which the first ones have both records.
fn broken(files: u32, framed: u32, first: usize, second: Option<usize>) -> Outcome {
    told_and_left(
        (ChannelState::Broken, files, framed),
        [Some(first), second, None],
    )
}

/// The run was called off, and these files are left.
fn left(first: Option<usize>, second: Option<usize>) -> Outcome {
    Outcome {
        end: None,
        first,
        second,
        third: None,
    }
}

/// A file begins with 40 bytes, a small event has 40, and an end record with an empty dump 16.
#[test]
fn a_file_ends_before_it_would_pass_the_limit(rt: HostRuntime) -> Result<(), Fail> {
    let two = [SMALL, SMALL, NONE];
    let three = [SMALL, SMALL, SMALL];
    for (limit, events, came) in &[
        (0, two, whole(1, [Some(136), None, None])),
        (121, two, whole(1, [Some(136), None, None])),
        (120, two, whole(1, [Some(136), None, None])),
        (119, two, whole(2, [Some(96), Some(96), None])),
        (120, three, whole(2, [Some(136), Some(96), None])),
        (39, three, whole(3, [Some(96), Some(96), Some(96)])),
        (119, [NONE, NONE, NONE], whole(1, [Some(56), None, None])),
    ] {
        assert!(rt; came_of(&rt, rt.alloc(), planned(*limit, *events))? == *came);
    }
    Ok(())
}

/// An event that is larger than the limit has a file of its own.
#[test]
fn a_large_event_has_its_own_file(rt: HostRuntime) -> Result<(), Fail> {
    let among = came_of(&rt, rt.alloc(), planned(119, [SMALL, LARGE, SMALL]))?;
    assert!(rt; among == whole(3, [Some(96), Some(256), Some(96)]));
    let first = came_of(&rt, rt.alloc(), planned(119, [LARGE, SMALL, SMALL]))?;
    assert!(rt; first == whole(3, [Some(256), Some(96), Some(96)]));
    Ok(())
}

/// A file goes on past the limit where the next name is taken, and where it has the greatest number.
#[test]
fn a_file_goes_on_past_the_limit(rt: HostRuntime) -> Result<(), Fail> {
    let three = planned(119, [SMALL, SMALL, SMALL]);
    let taken = came_of(
        &rt,
        rt.alloc(),
        Plan {
            taken: true,
            ..three
        },
    )?;
    assert!(rt; taken == whole(1, [Some(176), Some(1), None]));
    let greatest = came_of(
        &rt,
        rt.alloc(),
        Plan {
            goes_on: true,
            ..three
        },
    )?;
    assert!(rt; greatest == whole(10000, [Some(56), Some(136), None]));
    Ok(())
}

/// A run that is called off leaves no file but one that is not removed.
#[test]
fn a_run_is_called_off(rt: HostRuntime) -> Result<(), Fail> {
    let fail = |op, call| Some(FileFail { op, call });
    for (fails, came) in &[
        (None, left(None, None)),
        (fail(FileOp::Close, 1), left(None, None)),
        (fail(FileOp::Remove, 0), left(Some(96), None)),
        (fail(FileOp::Remove, 1), left(None, Some(80))),
    ] {
        assert!(rt; came_of(&rt, rt.alloc(), called_off(*fails))? == *came);
    }
    Ok(())
}

/// Where a call fails the files are left so far, and closed. A begin record is two appends, an event one, and an end record two.
#[test]
fn a_failed_call_breaks_the_channel(rt: HostRuntime) -> Result<(), Fail> {
    for (op, call, came) in &[
        (FileOp::Create, 1, broken(1, 0, 80, None)),
        (FileOp::Append, 3, broken(2, 0, 80, Some(0))),
        (FileOp::Append, 4, broken(2, 0, 96, Some(0))),
        (FileOp::Close, 0, broken(2, 0, 96, Some(0))),
        (FileOp::Append, 5, broken(2, 1, 96, Some(0))),
        (FileOp::Append, 6, broken(2, 1, 96, Some(16))),
        (FileOp::Append, 7, broken(2, 1, 96, Some(40))),
        (FileOp::Append, 8, broken(2, 1, 96, Some(80))),
        (FileOp::Append, 9, broken(2, 1, 96, Some(96))),
        (FileOp::Close, 1, broken(2, 1, 96, Some(96))),
    ] {
        assert!(rt; came_of(&rt, rt.alloc(), failing(*op, *call))? == *came);
    }
    Ok(())
}
