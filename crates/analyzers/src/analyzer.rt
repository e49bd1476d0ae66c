ghost use Rattle.std.specs.Prelude.{◌≡◌, ◌==◌, ◌≤◌, ◌+◌, ◌-◌, ◌^◌, [], ◌∷◌, List, ℕ, Option, Some, None, IfOk, IfSome, codes, length, min};
ghost use Rattle.buffer_core.specs.declared.entry.BufferEntry.{BufferEntry};
ghost use Rattle.buffer_core.specs.Ports.{GotEvent};
ghost use Rattle.event.specs.Events.{event_limit};
ghost use Rattle.event_report.specs.Reports.{report_of};
ghost use Rattle.transitions.specs.declared.answers.Answer.TheVariants.{Yes};
ghost use Rattle.transitions.specs.declared.answers.Tally.TheVariants.{Plain};
ghost use Rattle.member_model.specs.Turns.{MemberTurn, NoneOpen, latest_answered};
ghost use Rattle.analyzers.specs.declared.analyzer_run.AnalyzerStage.TheVariants.{Drained};
ghost use Rattle.analyzers.specs.Analyzers.{AnalyzerState, IsWithinGot};
ghost use Rattle.analyzers.specs.AnalyzerTurns.{CancelsIn, DropsRun, GetsClient, StartsAnalyzer, StopsAnalyzer, StopsRun, TurnsBy, RequestsRun, analyzer_turn, report_answer, run_reported};
ghost use Rattle.analyzers.specs.AnalyzerPulls.{CountsOwn, CountsReply, EndsReading, PullsBy, ReceivesFor, drains_by, got_bytes, pull_answer, was_drained};
ghost use Rattle.analyzers.specs.AnalyzerKept.{AnalyzerStands, AnalyzerTells};

use crate::analyzer_pull::AnalyzerPull;
use crate::analyzer_run::{AnalyzerRun, AnalyzerStage, EventRequest};
use buffer_core::{BufferPort, Received};
use daq_types::{Kind, Name, NoMemory, Order, Transition, Why};
use event::EventBuf;
use event_report::Report;
use member_model::{Answer, Tally};
use std::alloc::Global;
use std::marker::Model;
use std::sync::Wait;

/// An analyzer: it takes part in runs by its turns, receives the events that it asks for, and counts those of the run. Only
/// `new` takes memory.
#[derive(Drop)]
pub struct Analyzer {
    wanted: EventRequest,
    event: EventBuf,
    client: Option<u32>,
    run: Option<AnalyzerRun>,
}

impl Model for Analyzer {
    ghost use Rattle.analyzers.specs.Analyzers.{AnalyzerState};

    ghost Value = { AnalyzerState };

    ghost view = { λ a. record {
      wanted = a.wanted;
      room = a.event.room;
      client = a.client;
      run = a.run;
    } };
}

/// What a turn is answered that needs no more.
fn plain() -> Answer
    ensures { result ≡ Yes Plain }
{
    Answer::Yes(Tally::Plain)
}

/// The name under which analyzers attach their clients.
fn client_name() -> Name
    ensures { result ≡ codes "Analyzer" }
{
    match Name::new(b"Analyzer") {
        Ok(name) => name,
        Err(_) => unreachable!(),
    }
}

/// Cancels the request of a run, if that stands.
fn cancel_live<R: Wait, P: BufferPort>(rt: &R, port: &mut P, run: &AnalyzerRun)
    ensures cancels { CancelsIn run.now.stage run.now (P.access port.old) (P.access port.new) }
    ensures size { (P.access port.new).size ≡ (P.access port.old).size }
{
    match run.stage {
        AnalyzerStage::Drained => {}
        AnalyzerStage::Counting | AnalyzerStage::Draining { .. } => {
            let _ = port.cancel(rt, run.client, run.request);
        }
    }
}

/// Stops this run: what the buffer took so far is to be read.
fn stop_run<R: Wait, P: BufferPort>(rt: &R, port: &mut P, run: &mut AnalyzerRun)
    ensures stops { StopsRun run.old.stage run.old run.new
        (P.access port.old) (P.access port.new) }
    ensures size { (P.access port.new).size ≡ (P.access port.old).size }
{
    match run.stage {
        AnalyzerStage::Counting => {
            run.stage = AnalyzerStage::Draining {
                accepted: port.accepted(rt),
            };
        }
        AnalyzerStage::Draining { .. } | AnalyzerStage::Drained => {}
    }
}

/// Whether the client of a run in this stage was drained.
fn is_drained(stage: AnalyzerStage) -> bool
    ensures { result ≡ was_drained stage }
{
    matches!(stage, AnalyzerStage::Drained)
}

/// Whether this reply drains the client in this stage.
fn drains(stage: AnalyzerStage, reply: Received) -> bool
    ensures { result ≡ drains_by stage reply }
{
    let AnalyzerStage::Draining { accepted } = stage else {
        return false;
    };
    match reply {
        Received::Got { place, .. } => accepted <= place,
        Received::Empty { .. } => true,
        Received::NoClient | Received::SmallBuf { .. } => false,
    }
}

/// The answer to a pull, by the start number of the run and the reply of the receive.
fn answer_by(start: u32, reply: Received) -> AnalyzerPull
    ensures { result ≡ pull_answer start reply }
{
    match reply {
        Received::Got { place, start: sent } if start == sent => AnalyzerPull::Folded { place },
        Received::Got { place, .. } => AnalyzerPull::Dropped { place },
        _ => AnalyzerPull::Nothing,
    }
}

/// Counts this event, where it has the start number of the run.
fn count(run: &mut AnalyzerRun, start: u32, event: &EventBuf)
    requires room { run.old.report.bytes + (16 + length event.now.event.body) ≤ 2 ^ 62 }
    ensures counts { CountsOwn (run.old.start == start) run.old run.new event.now.event }
    ensures bytes { run.new.report.bytes ≤
        run.old.report.bytes + (16 + length event.now.event.body) }
    ensures client { run.new.client ≡ run.old.client }
{
    if run.start == start {
        run.report.fold(&event.header(), event.body());
    }
}

/// Counts what a receive with this reply got, where that is of the run.
fn count_reply(run: &mut AnalyzerRun, reply: Received, event: &EventBuf)
    requires room { run.old.report.bytes + got_bytes reply event.now.event ≤ 2 ^ 62 }
    ensures counts { CountsReply reply run.old run.new event.now.event }
    ensures bytes { run.new.report.bytes ≤
        run.old.report.bytes + got_bytes reply event.now.event }
    ensures client { run.new.client ≡ run.old.client }
{
    if let Received::Got { start, .. } = reply {
        count(run, start, event);
    }
}

/// Receives once for this run, and counts what it gets, where that is of the run.
fn receive_for<R: Wait, P: BufferPort>(
    rt: &R,
    port: &mut P,
    event: &mut EventBuf,
    run: &mut AnalyzerRun,
) -> Received
    requires room { min event_limit ((P.access port.old).size - 24) ≤ event.old.room }
    requires counted { IsWithinGot (Some run.old) (P.access port.old).got }
    ensures room { event.new.room ≡ event.old.room }
    ensures receives { ReceivesFor run.old run.new event.old.room (P.access port.old)
        (P.access port.new)
        result }
    ensures counted { IsWithinGot (Some run.new) (P.access port.new).got }
    ensures size { (P.access port.new).size ≡ (P.access port.old).size }
{
    let reply = port.receive(rt, run.client, event);
    count_reply(run, reply, event);
    reply
}

/// Ends the reading of a client that was drained: its request is cancelled.
fn end_reading<R: Wait, P: BufferPort>(rt: &R, port: &mut P, run: &mut AnalyzerRun, drained: bool)
    ensures ends { EndsReading drained run.old (Some run.new) (P.access port.old)
        (P.access port.new) }
    ensures got { (P.access port.new).got ≡ (P.access port.old).got }
    ensures size { (P.access port.new).size ≡ (P.access port.old).size }
    ensures client { run.new.client ≡ run.old.client }
    ensures report { run.new.report ≡ run.old.report }
{
    if drained {
        let _ = port.cancel(rt, run.client, run.request);
        run.stage = AnalyzerStage::Drained;
    }
}

impl Analyzer {
    /// An analyzer that asks for the events of this id and mask, 65,535 for any, in this way, in no run. Each may have so
    /// many bytes of data as `room`.
    pub fn new(
        alloc: Global,
        id: u16,
        mask: u16,
        kind: Kind,
        room: u32,
    ) -> Result<Analyzer, NoMemory>
        ensures made { IfOk result (λ analyzer. analyzer ≡ record {
          wanted = record { id = id; mask = mask; kind = kind };
          room = room;
          client = None;
          run = None;
        }) }
        ensures stands { IfOk result (λ analyzer. AnalyzerStands analyzer.wanted analyzer.client
            analyzer.run [] [] []) }
        ensures tells { IfOk result (λ analyzer. AnalyzerTells analyzer.run []) }
    {
        let event = EventBuf::new(alloc, room)?;
        Ok(Analyzer {
            wanted: EventRequest { id, mask, kind },
            event,
            client: None,
            run: None,
        })
    }

    /// Drops the run, if there is one, and cancels its request, if that stands.
    fn drop_run<R: Wait, P: BufferPort>(&mut self, rt: &R, port: &mut P)
        ensures after { self.new ≡ record self.old { run = None } }
        ensures drops { DropsRun self.old.run (P.access port.old) (P.access port.new) }
        ensures size { (P.access port.new).size ≡ (P.access port.old).size }
    {
        if let Some(run) = self.run.take() {
            cancel_live(rt, port, &run);
        }
    }

    /// The analyzer's client, which is attached where there is none yet.
    fn attached<R: Wait, P: BufferPort>(&mut self, rt: &R, port: &mut P) -> Option<u32>
        ensures after { self.new ≡ record self.old { client = result } }
        ensures gets { GetsClient self.old.client result (P.access port.old) (P.access port.new) }
        ensures size { (P.access port.new).size ≡ (P.access port.old).size }
    {
        if self.client.is_none() {
            self.client = port.attach(rt, client_name()).ok();
        }
        self.client
    }

    /// Makes the client's request for a run of this start number, and begins it with this blank report.
    fn request_run<R: Wait, P: BufferPort>(
        &mut self,
        rt: &R,
        port: &mut P,
        start: u32,
        report: Report,
    ) -> Answer
        requires none { self.old.run ≡ None }
        ensures wanted { self.new.wanted ≡ self.old.wanted }
        ensures room { self.new.room ≡ self.old.room }
        ensures client { self.new.client ≡ self.old.client }
        ensures requests { RequestsRun self.old.wanted start report self.old.client self.new.run
            result (P.access port.old) (P.access port.new) }
        ensures size { (P.access port.new).size ≡ (P.access port.old).size }
    {
        let Some(client) = self.client else {
            return Answer::No(Why::BufferRefused);
        };
        let EventRequest { id, mask, kind } = self.wanted;
        match port.request(rt, client, id, mask, kind) {
            Ok(request) => {
                self.run = Some(AnalyzerRun {
                    start,
                    client,
                    request,
                    stage: AnalyzerStage::Counting,
                    report,
                });
                plain()
            }
            Err(_) => Answer::No(Why::BufferRefused),
        }
    }

    /// Takes a start turn.
    fn take_start<R: Wait, P: BufferPort>(
        &mut self,
        rt: &R,
        port: &mut P,
        order: &Order,
        blank: Option<Report>,
    ) -> Answer
        ensures wanted { self.new.wanted ≡ self.old.wanted }
        ensures room { self.new.room ≡ self.old.room }
        ensures starts { StartsAnalyzer blank self.old.wanted order.now.start (record {
          client = self.old.client;
          run = self.old.run;
          port = P.access port.old;
        }) (record {
          client = self.new.client;
          run = self.new.run;
          port = P.access port.new;
        }) result }
        ensures size { (P.access port.new).size ≡ (P.access port.old).size }
    {
        let Some(report) = blank else {
            return Answer::No(Why::NotReady);
        };
        self.drop_run(rt, port);
        self.attached(rt, port);
        self.request_run(rt, port, order.start, report)
    }

    /// Takes a stop turn.
    fn take_stop<R: Wait, P: BufferPort>(
        &mut self,
        rt: &R,
        port: &mut P,
        order: &Order,
    ) -> Option<Answer>
        ensures wanted { self.new.wanted ≡ self.old.wanted }
        ensures room { self.new.room ≡ self.old.room }
        ensures stops { StopsAnalyzer self.old.run order.now.start (record {
          client = self.old.client;
          run = self.old.run;
          port = P.access port.old;
        }) (record {
          client = self.new.client;
          run = self.new.run;
          port = P.access port.new;
        }) result }
        ensures size { (P.access port.new).size ≡ (P.access port.old).size }
    {
        match &mut self.run {
            Some(run) if run.start == order.start => {
                stop_run(rt, port, run);
                None
            }
            _ => Some(plain()),
        }
    }

    /// Takes a turn.
    fn take_turn<R: Wait, P: BufferPort>(
        &mut self,
        rt: &R,
        port: &mut P,
        transition: Transition,
        order: &Order,
        blank: Option<Report>,
    ) -> Option<Answer>
        ensures wanted { self.new.wanted ≡ self.old.wanted }
        ensures room { self.new.room ≡ self.old.room }
        ensures turns { TurnsBy transition self.old.wanted order.now blank (record {
          client = self.old.client;
          run = self.old.run;
          port = P.access port.old;
        }) (record {
          client = self.new.client;
          run = self.new.run;
          port = P.access port.new;
        }) result }
        ensures size { (P.access port.new).size ≡ (P.access port.old).size }
    {
        match transition {
            Transition::Start => Some(self.take_start(rt, port, order, blank)),
            Transition::Stop => self.take_stop(rt, port, order),
            Transition::Pause | Transition::Resume => Some(plain()),
            Transition::StartAbort => {
                self.drop_run(rt, port);
                Some(plain())
            }
        }
    }

    /// Takes a turn. A start without a blank report is refused as not ready, and one for which the buffer refuses the client
    /// or the request as refused by the buffer; any other start begins a run with the blank report. A stop of the run that
    /// is counted is answered None; `finish` gives the answer later. Between two turns the answer to the first was given.
    pub fn on_turn<R: Wait, P: BufferPort>(
        &mut self,
        rt: &R,
        port: &mut P,
        transition: Transition,
        order: &Order,
        blank: Option<Report>,
    ) -> Option<Answer>
        requires blank { IfSome blank (λ report. report ≡ report_of []) }
        ensures wanted { self.new.wanted ≡ self.old.wanted }
        ensures room { self.new.room ≡ self.old.room }
        ensures turns { TurnsBy transition self.old.wanted order.now blank (record {
          client = self.old.client;
          run = self.old.run;
          port = P.access port.old;
        }) (record {
          client = self.new.client;
          run = self.new.run;
          port = P.access port.new;
        }) result }
        ensures size { (P.access port.new).size ≡ (P.access port.old).size }
        ensures counted { IsWithinGot self.old.run (P.access port.old).got →
            IsWithinGot self.new.run (P.access port.new).got }
        ensures keeps { (dump : Option (List ℕ)) → (earlier : List MemberTurn) → NoneOpen earlier →
            AnalyzerStands self.old.wanted self.old.client self.old.run
            (P.access port.old).own (P.access port.old).got earlier →
            AnalyzerStands self.new.wanted self.new.client self.new.run
            (P.access port.new).own (P.access port.new).got
            (analyzer_turn dump transition order.now result ∷ earlier) }
        ensures tells { (dump : Option (List ℕ)) → (earlier : List MemberTurn) →
            AnalyzerTells self.old.run earlier →
            AnalyzerTells self.new.run
            (analyzer_turn dump transition order.now result ∷ earlier) }
    {
        self.take_turn(rt, port, transition, order, blank)
    }

    /// Receives once, where a run is read, and counts what it gets.
    fn pull_once<R: Wait, P: BufferPort>(&mut self, rt: &R, port: &mut P) -> AnalyzerPull
        requires room { min event_limit ((P.access port.old).size - 24) ≤ self.old.room }
        requires counted { IsWithinGot self.old.run (P.access port.old).got }
        ensures wanted { self.new.wanted ≡ self.old.wanted }
        ensures room { self.new.room ≡ self.old.room }
        ensures pulls { PullsBy self.old.run self.old.room (record {
          client = self.old.client;
          run = self.old.run;
          port = P.access port.old;
        }) (record {
          client = self.new.client;
          run = self.new.run;
          port = P.access port.new;
        }) result }
        ensures size { (P.access port.new).size ≡ (P.access port.old).size }
        ensures counted { IsWithinGot self.new.run (P.access port.new).got }
    {
        let Some(run) = &mut self.run else {
            return AnalyzerPull::Nothing;
        };
        if is_drained(run.stage) {
            return AnalyzerPull::Nothing;
        }
        let (start, stage) = (run.start, run.stage);
        let reply = receive_for(rt, port, &mut self.event, run);
        end_reading(rt, port, run, drains(stage, reply));
        answer_by(start, reply)
    }

    /// Receives once, where a run is read, and counts what it gets, where that is of the run.
    pub fn pull<R: Wait, P: BufferPort>(&mut self, rt: &R, port: &mut P) -> AnalyzerPull
        requires room { min event_limit ((P.access port.old).size - 24) ≤ self.old.room }
        requires counted { IsWithinGot self.old.run (P.access port.old).got }
        ensures wanted { self.new.wanted ≡ self.old.wanted }
        ensures room { self.new.room ≡ self.old.room }
        ensures pulls { PullsBy self.old.run self.old.room (record {
          client = self.old.client;
          run = self.old.run;
          port = P.access port.old;
        }) (record {
          client = self.new.client;
          run = self.new.run;
          port = P.access port.new;
        }) result }
        ensures size { (P.access port.new).size ≡ (P.access port.old).size }
        ensures counted { IsWithinGot self.new.run (P.access port.new).got }
        ensures keeps { (turns : List MemberTurn) →
            AnalyzerStands self.old.wanted self.old.client self.old.run
            (P.access port.old).own (P.access port.old).got turns →
            AnalyzerStands self.new.wanted self.new.client self.new.run
            (P.access port.new).own (P.access port.new).got turns }
        ensures tells { (turns : List MemberTurn) →
            AnalyzerTells self.old.run turns → AnalyzerTells self.new.run turns }
    {
        self.pull_once(rt, port)
    }

    /// The report, as the answer to the stop that waits, once the client was drained. None exactly where no stop waits, or
    /// the client is not drained.
    pub fn finish(&mut self) -> Option<Answer>
        ensures answer { result ≡ report_answer self.old.run }
        ensures after { self.new ≡ record self.old { run = run_reported self.old.run result } }
        ensures keeps { (own : List BufferEntry) → (got : List GotEvent)
            → (turns : List MemberTurn) →
            AnalyzerStands self.old.wanted self.old.client self.old.run own got turns →
            AnalyzerStands self.new.wanted self.new.client self.new.run own got
            (latest_answered turns result) }
        ensures tells { (own : List BufferEntry) → (got : List GotEvent)
            → (turns : List MemberTurn) →
            AnalyzerStands self.old.wanted self.old.client self.old.run own got turns →
            AnalyzerTells self.old.run turns →
            AnalyzerTells self.new.run (latest_answered turns result) }
    {
        let run = self.run.take()?;
        if !is_drained(run.stage) {
            self.run = Some(run);
            return None;
        }
        Some(Answer::Yes(Tally::Report(run.report)))
    }
}
