ghost use Rattle.std.specs.Prelude.{◌≡◌, ◌≤◌, ◌-◌, IfOk, min, length};
ghost use Rattle.event.specs.Events.{event_limit, record_limit};
ghost use Rattle.mid_logger.specs.declared.stage.ChannelStage.TheVariants.{Idle};
ghost use Rattle.mid_logger.specs.Channels.{IsLastOpen, written_run};
ghost use Rattle.plain_buffer.specs.OwningPorts.{owned_access};

use buffer_core::BufferPort;
use daq_io::Files;
use daq_mem::{FileFail, FileOp, MemFiles};
use daq_types::{Bytes, ChannelState, FileName, NoMemory, Order, RunState, Why};
use event::{EventBuf, Header};
use mid_logger::{Channel, ChannelSpec, ChannelStage, Pattern, Pulled};
use plain_buffer::{OwningPort, PlainBuffer};
use std::alloc::Global;
use std::sync::Wait;
use std::test::Fail;

/// The dump at the start of a run: the database with a front-end that has sent nothing.
const DUMP: &[u8] =
    b"[/Runinfo]\nState = INT32 : 1\nRun number = INT32 : 1\nStart time binary = UINT32 : 1000\nStop time binary = UINT32 : 0\n\n[/Equipment]\n\n[/Equipment/FE]\nEvents sent = UINT64 : 0\n\n";

/// The order that starts run 1.
fn order() -> Order {
    Order {
        run: 1,
        start: 1,
        time: 1000,
        from: RunState::Stopped,
        quota: 1,
    }
}

/// A port to a new buffer.
fn new_port(alloc: Global) -> Result<OwningPort<PlainBuffer>, NoMemory>
    ensures { IfOk result (λ port. (owned_access (λ window. window) port).size ≡ 1024) }
{
    OwningPort::new(alloc, PlainBuffer::new(alloc, 1024)?)
}

/// Channel 3, which asks for all events.
fn new_channel(alloc: Global, pattern: Pattern) -> Result<Channel, NoMemory>
    ensures { IfOk result (λ channel. (channel.stage ≡ Idle) × (channel.event.room ≡ 1000)) }
{
    Ok(Channel {
        spec: ChannelSpec {
            number: 3,
            pattern,
            buffer: 0,
            id: 65535,
            mask: 65535,
            sub_bytes: 0,
        },
        client: None,
        stage: ChannelStage::Idle,
        failed: false,
        event: EventBuf::new(alloc, 1000)?,
    })
}

/// Opens run 1.
fn open<R: Wait, F: Files, P: BufferPort>(
    rt: &R,
    files: &mut F,
    port: &mut P,
    channel: &mut Channel,
    dump: &[u8],
) -> Result<(), Why>
    requires idle { channel.old.stage ≡ Idle }
    requires small { length dump.now ≤ record_limit }
    ensures size { (P.access port.new).size ≡ (P.access port.old).size }
    ensures room { channel.new.event ≡ channel.old.event }
    ensures file { IsLastOpen (F.told files.new).seen channel.new.spec
        (written_run channel.new.stage) }
{
    channel.open(rt, files, port, &order(), dump)
}

/// Begins the run in the buffer, and sends one event in it.
fn begin_and_send<R: Wait, P: BufferPort>(
    rt: &R,
    port: &mut P,
    channel: &mut Channel,
    header: &Header,
    body: &[u8],
)
    ensures size { (P.access port.new).size ≡ (P.access port.old).size }
    ensures room { channel.new.event ≡ channel.old.event }
    ensures spec { channel.new.spec ≡ channel.old.spec }
    ensures file { written_run channel.new.stage ≡ written_run channel.old.stage }
{
    if let Ok(place) = port.begin(rt, 1) {
        channel.note_begun(place);
    }
    let _ = port.send_in_run(rt, 1, header, body);
}

/// Ends the run in the buffer.
fn end<R: Wait, P: BufferPort>(rt: &R, port: &mut P, channel: &mut Channel)
    ensures size { (P.access port.new).size ≡ (P.access port.old).size }
    ensures room { channel.new.event ≡ channel.old.event }
    ensures spec { channel.new.spec ≡ channel.old.spec }
    ensures file { written_run channel.new.stage ≡ written_run channel.old.stage }
{
    channel.note_ended(port.end(rt, 1).ok());
}

/// Pulls once.
fn pull<R: Wait, F: Files, P: BufferPort>(
    rt: &R,
    files: &mut F,
    port: &mut P,
    channel: &mut Channel,
) -> Pulled
    requires file { IsLastOpen (F.told files.old).seen channel.old.spec (written_run channel.old.stage) }
    requires room { min event_limit ((P.access port.old).size - 24) ≤ channel.old.event.room }
    ensures room { channel.new.event.room ≡ channel.old.event.room }
    ensures file { IsLastOpen (F.told files.new).seen channel.new.spec (written_run channel.new.stage) }
{
    channel.pull(rt, files, port, DUMP)
}

/// The name of the file of run 1.
fn run_name() -> Result<FileName, Fail> {
    match FileName::new("run00001.mid") {
        Ok(name) => Ok(name),
        Err(bad) => Err(Fail::from(bad)),
    }
}

/// An event of id 1 with two bytes of data.
fn event() -> Header {
    Header {
        event_id: 1,
        trigger_mask: 2,
        serial_number: 3,
        time_stamp: 4,
        data_size: 2,
    }
}

/// Opens the run, sends one event in it, pulls once, and ends the run; answers what the pull did.
fn run_of_one_event<R: Wait, F: Files, P: BufferPort>(
    rt: &R,
    files: &mut F,
    port: &mut P,
    channel: &mut Channel,
) -> Pulled
    requires idle { channel.old.stage ≡ Idle }
    requires room { min event_limit ((P.access port.old).size - 24) ≤ channel.old.event.room }
    ensures file { IsLastOpen (F.told files.new).seen channel.new.spec
        (written_run channel.new.stage) }
{
    let _ = open(rt, files, port, channel, DUMP);
    begin_and_send(rt, port, channel, &event(), b"ab");
    let pulled = pull(rt, files, port, channel);
    end(rt, port, channel);
    pulled
}

/// How long the file of this name is, where it is closed; 0 where there is none.
fn closed_length(files: &MemFiles, name: &FileName) -> usize {
    if !files.is_closed(name) {
        return 0;
    }
    match files.find(name) {
        Some(bytes) => bytes.len(),
        None => 0,
    }
}

/// What came of a run of one event.
#[derive(Drop)]
struct Outcome {
    pulled: Pulled,
    state: ChannelState,
    /// How long its file is, where it is closed.
    length: usize,
}

/// Runs with one event over a port to a new buffer, and closes the channel.
fn run_and_close<R: Wait>(
    rt: &R,
    alloc: Global,
    files: &mut MemFiles,
    channel: &mut Channel,
    name: &FileName,
) -> Result<Outcome, NoMemory>
    requires idle { channel.old.stage ≡ Idle }
    requires room { 1000 ≤ channel.old.event.room }
{
    let mut port = new_port(alloc)?;
    let pulled = run_of_one_event(rt, files, &mut port, channel);
    let state = channel.close(files, 1010, &None).state;
    Ok(Outcome {
        pulled,
        state,
        length: closed_length(files, name),
    })
}

/// Files of which the third append fails, that of the event.
fn failing_files(alloc: Global) -> Result<MemFiles, NoMemory> {
    let third = vec![in alloc;
        FileFail {
            op: FileOp::Append,
            call: 2
        },
    ]?;
    MemFiles::new(alloc, 4, 4096, third)
}

/// What comes of a run where the append of its event fails. The channel and the files end here, so that the test holds
/// neither while it looks at what came of the run.
fn failing_run<R: Wait>(
    rt: &R,
    alloc: Global,
    pattern: Pattern,
    name: &FileName,
) -> Result<Outcome, NoMemory> {
    let mut channel = new_channel(alloc, pattern)?;
    let mut files = failing_files(alloc)?;
    run_and_close(rt, alloc, &mut files, &mut channel, name)
}

#[test]
fn a_failed_append_breaks_the_channel(rt: HostRuntime) -> Result<(), Fail> {
    let pattern = Pattern::new("run%05d.mid", false)?;
    let name = run_name()?;
    let outcome = failing_run(&rt, rt.alloc(), pattern, &name)?;
    assert!(rt; outcome.pulled == Pulled::Broke);
    assert!(rt; outcome.state == ChannelState::Broken);
    assert!(rt; outcome.length == 189);
    Ok(())
}
