ghost use Rattle.std.specs.Prelude.{◌≡◌, [], None, IfOk, IfSome};
ghost use Rattle.event_report.specs.Reports.{report_of};
ghost use Rattle.plain_buffer.specs.OwningPorts.{owned_access};
ghost use Rattle.analyzers.specs.Analyzers.{IsWithinGot};

use analyzers::{Analyzer, AnalyzerPull};
use buffer_core::BufferPort;
use daq_text::TextBuffer;
use daq_types::{Kind, NoMemory, Order, RunState, Transition, Why};
use event::Header;
use event_report::Report;
use member_model::{Answer, Tally};
use plain_buffer::{OwningPort, PlainBuffer};
use std::alloc::Global;
use std::sync::Wait;

/// The data of the first event that a front-end generates with id 1: a bank of one word.
const FIRST: &[u8] = b"\x10\0\0\0\x01\0\0\0GEN0\x06\0\x04\0\xac\x6f\x57\x6c\0\0\0\0";

/// The data of the first event that one generates with id 2.
const SECOND: &[u8] = b"\x10\0\0\0\x01\0\0\0GEN0\x06\0\x04\0\xd9\xee\xec\xb8\0\0\0\0";

/// The order of run 1, with start number 1.
fn order() -> Order {
    Order {
        run: 1,
        start: 1,
        time: 1000,
        from: RunState::Stopped,
        quota: 1,
    }
}

/// A port to a new buffer.
fn new_port(alloc: Global) -> Result<OwningPort<PlainBuffer>, NoMemory>
    ensures { IfOk result (λ port. (owned_access (λ window. window) port).size ≡ 1024) }
{
    OwningPort::new(alloc, PlainBuffer::new(alloc, 1024)?)
}

/// An analyzer of all events, with room for any that such a buffer holds.
fn new_analyzer(alloc: Global) -> Result<Analyzer, NoMemory>
    ensures room { IfOk result (λ analyzer. analyzer.room ≡ 1000) }
    ensures none { IfOk result (λ analyzer. analyzer.run ≡ None) }
{
    Analyzer::new(alloc, 65_535, 65_535, Kind::All, 1000)
}

/// Sends an event of this id in the run of this start number, which is begun unless it is on.
fn send<R: Wait, P: BufferPort>(rt: &R, port: &mut P, start: u32, id: u16, body: &[u8])
    ensures size { (P.access port.new).size ≡ (P.access port.old).size }
    ensures got { (P.access port.new).got ≡ (P.access port.old).got }
{
    let header = Header {
        event_id: id,
        trigger_mask: 0,
        serial_number: 1,
        time_stamp: 1000,
        data_size: 24,
    };
    let _ = port.begin(rt, start);
    let _ = port.send_in_run(rt, start, &header, body);
}

/// What a turn is answered.
#[derive(Clone, Copy)]
enum Told {
    /// Nothing yet.
    Waits,
    /// It accepts without more.
    Plain,
    /// The start is refused for want of a blank report.
    NotReady,
}

/// Whether the answer tells this.
fn tells(answer: &Option<Answer>, told: Told) -> bool {
    match told {
        Told::Waits => answer.is_none(),
        Told::Plain => matches!(answer, Some(Answer::Yes(Tally::Plain))),
        Told::NotReady => matches!(answer, Some(Answer::No(Why::NotReady))),
    }
}

/// Whether a turn of the run is answered so.
fn turns<R: Wait, P: BufferPort>(
    rt: &R,
    analyzer: &mut Analyzer,
    port: &mut P,
    transition: Transition,
    blank: Option<Report>,
    told: Told,
) -> bool
    requires blank { IfSome blank (λ report. report ≡ report_of []) }
    requires counted { IsWithinGot analyzer.old.run (P.access port.old).got }
    ensures room { analyzer.new.room ≡ analyzer.old.room }
    ensures size { (P.access port.new).size ≡ (P.access port.old).size }
    ensures counted { IsWithinGot analyzer.new.run (P.access port.new).got }
{
    let answer = analyzer.on_turn(rt, port, transition, &order(), blank);
    tells(&answer, told)
}

/// Whether the start is accepted.
fn starts<R: Wait, P: BufferPort>(
    rt: &R,
    alloc: Global,
    analyzer: &mut Analyzer,
    port: &mut P,
) -> Result<bool, NoMemory>
    requires counted { IsWithinGot analyzer.old.run (P.access port.old).got }
    ensures room { analyzer.new.room ≡ analyzer.old.room }
    ensures size { (P.access port.new).size ≡ (P.access port.old).size }
    ensures counted { IsWithinGot analyzer.new.run (P.access port.new).got }
{
    let blank = Report::new(alloc)?;
    Ok(turns(
        rt,
        analyzer,
        port,
        Transition::Start,
        Some(blank),
        Told::Plain,
    ))
}

/// Whether a pull is answered so.
fn pulls<R: Wait, P: BufferPort>(
    rt: &R,
    analyzer: &mut Analyzer,
    port: &mut P,
    wanted: AnalyzerPull,
) -> bool
    requires room { analyzer.old.room ≡ 1000 }
    requires size { (P.access port.old).size ≡ 1024 }
    requires counted { IsWithinGot analyzer.old.run (P.access port.old).got }
    ensures room { analyzer.new.room ≡ analyzer.old.room }
    ensures size { (P.access port.new).size ≡ (P.access port.old).size }
    ensures counted { IsWithinGot analyzer.new.run (P.access port.new).got }
{
    analyzer.pull(rt, port) == wanted
}

/// Whether the report that the stop is answered prints this text. While the stop waits there is none, and no text.
fn reports(alloc: Global, analyzer: &mut Analyzer, expected: &[u8]) -> Result<bool, NoMemory> {
    let mut text = TextBuffer::new(alloc);
    if let Some(Answer::Yes(Tally::Report(report))) = analyzer.finish() {
        report.print(b"", &mut text)?;
    }
    Ok(text.as_slice() == expected)
}

/// Starts the run, sends an event of each front-end in it, and stops it; whether the start is accepted and the stop has
/// to wait.
fn runs<R: Wait, P: BufferPort>(
    rt: &R,
    alloc: Global,
    analyzer: &mut Analyzer,
    port: &mut P,
) -> Result<bool, NoMemory>
    requires counted { IsWithinGot analyzer.old.run (P.access port.old).got }
    ensures room { analyzer.new.room ≡ analyzer.old.room }
    ensures size { (P.access port.new).size ≡ (P.access port.old).size }
    ensures counted { IsWithinGot analyzer.new.run (P.access port.new).got }
{
    let accepted = starts(rt, alloc, analyzer, port)?;
    send(rt, port, 1, 1, FIRST);
    send(rt, port, 1, 2, SECOND);
    Ok(turns(rt, analyzer, port, Transition::Stop, None, Told::Waits) && accepted)
}

/// Whether the two events are got, and nothing behind them.
fn pulls_both<R: Wait, P: BufferPort>(rt: &R, analyzer: &mut Analyzer, port: &mut P) -> bool
    requires room { analyzer.old.room ≡ 1000 }
    requires size { (P.access port.old).size ≡ 1024 }
    requires counted { IsWithinGot analyzer.old.run (P.access port.old).got }
{
    let first = pulls(rt, analyzer, port, AnalyzerPull::Folded { place: 0 });
    let second = pulls(rt, analyzer, port, AnalyzerPull::Folded { place: 1 });
    let last = pulls(rt, analyzer, port, AnalyzerPull::Nothing);
    first && second && last
}

/// Whether a run of two events, which are read behind its stop, goes so.
fn counts_both<R: Wait, P: BufferPort>(
    rt: &R,
    alloc: Global,
    analyzer: &mut Analyzer,
    port: &mut P,
) -> Result<bool, NoMemory>
    requires room { analyzer.old.room ≡ 1000 }
    requires size { (P.access port.old).size ≡ 1024 }
    requires counted { IsWithinGot analyzer.old.run (P.access port.old).got }
{
    let run = runs(rt, alloc, analyzer, port)?;
    Ok(pulls_both(rt, analyzer, port) && run)
}

/// Starts the run, which is refused at first for want of a blank report, and stops it; whether the stop has to wait.
fn runs_empty<R: Wait, P: BufferPort>(
    rt: &R,
    alloc: Global,
    analyzer: &mut Analyzer,
    port: &mut P,
) -> Result<bool, NoMemory>
    requires counted { IsWithinGot analyzer.old.run (P.access port.old).got }
    ensures room { analyzer.new.room ≡ analyzer.old.room }
    ensures size { (P.access port.new).size ≡ (P.access port.old).size }
    ensures counted { IsWithinGot analyzer.new.run (P.access port.new).got }
{
    let refused = turns(rt, analyzer, port, Transition::Start, None, Told::NotReady);
    let accepted = starts(rt, alloc, analyzer, port)?;
    Ok(turns(rt, analyzer, port, Transition::Stop, None, Told::Waits) && refused && accepted)
}

/// Whether a run without events goes so, behind whose stop an event of another start is read and dropped.
fn counts_none<R: Wait, P: BufferPort>(
    rt: &R,
    alloc: Global,
    analyzer: &mut Analyzer,
    port: &mut P,
) -> Result<bool, NoMemory>
    requires room { analyzer.old.room ≡ 1000 }
    requires size { (P.access port.old).size ≡ 1024 }
    requires counted { IsWithinGot analyzer.old.run (P.access port.old).got }
{
    let empty = runs_empty(rt, alloc, analyzer, port)?;
    send(rt, port, 2, 1, FIRST);
    Ok(pulls(rt, analyzer, port, AnalyzerPull::Dropped { place: 0 }) && empty)
}

/// Which run an analyzer counts.
#[derive(Clone, Copy)]
enum Run {
    /// That of two events.
    Both,
    /// That without events.
    Empty,
}

/// Whether the run goes so, and the report at its end prints this text.
fn counts<R: Wait, P: BufferPort>(
    rt: &R,
    alloc: Global,
    analyzer: &mut Analyzer,
    port: &mut P,
    run: Run,
    expected: &[u8],
) -> Result<bool, NoMemory>
    requires room { analyzer.old.room ≡ 1000 }
    requires size { (P.access port.old).size ≡ 1024 }
    requires counted { IsWithinGot analyzer.old.run (P.access port.old).got }
{
    let is_right = match run {
        Run::Both => counts_both(rt, alloc, analyzer, port)?,
        Run::Empty => counts_none(rt, alloc, analyzer, port)?,
    };
    Ok(reports(alloc, analyzer, expected)? && is_right)
}

/// Whether that holds over a port to a new buffer.
fn counts_new<R: Wait>(
    rt: &R,
    alloc: Global,
    analyzer: &mut Analyzer,
    run: Run,
    expected: &[u8],
) -> Result<bool, NoMemory>
    requires room { analyzer.old.room ≡ 1000 }
    requires none { analyzer.old.run ≡ None }
{
    let mut port = new_port(alloc)?;
    counts(rt, alloc, analyzer, &mut port, run, expected)
}

/// Whether that holds of a new analyzer.
fn is_right<R: Wait>(rt: &R, alloc: Global, run: Run, expected: &[u8]) -> Result<bool, NoMemory> {
    let mut analyzer = new_analyzer(alloc)?;
    counts_new(rt, alloc, &mut analyzer, run, expected)
}

#[test]
fn an_analyzer_counts_a_run(rt: HostRuntime) {
    let expected = b"events 2\nid 1 count 1\nid 2 count 1\n\
bank GEN0 UINT32 count 2 sum 4920204933 least 1817669548 greatest 3102535385\n\
rest ids 0 banks 0 bad 0\n";
    let is_right = is_right(&rt, rt.alloc(), Run::Both, expected);
    assert!(rt; matches!(is_right, Ok(true)));
}

#[test]
fn an_event_of_another_start_is_dropped(rt: HostRuntime) {
    let expected = b"events 0\nrest ids 0 banks 0 bad 0\n";
    let is_right = is_right(&rt, rt.alloc(), Run::Empty, expected);
    assert!(rt; matches!(is_right, Ok(true)));
}
