ghost use Rattle.std.specs.Prelude.{◌≡◌, ◌&&◌, ◌++◌, IfOk, IfErr, None, IsTrue, drop, slice_get, if◌then◌else◌, []};
ghost use Rattle.transitions.specs.States.{is_allowed};
ghost use Rattle.transitions.specs.declared.entry.EngineEntry.TheVariants.{Register, Begin, Poll, Answer as AnswerCall, Check, Close};
ghost use Rattle.transitions.specs.declared.answers.Answer.TheVariants.{Yes, No};
ghost use Rattle.transitions.specs.Engines.{engine_opening};
ghost use Rattle.transitions.specs.EngineCalls.{turn_kind, is_start, stands_in, stands_with, without, group_of, state_with, outcome_of, progress_of, first_refusal, is_due_off, owes_answer, is_in_start, register_reply, begin_reply, poll_reply, answer_reply, check_reply, tallies_given, close_reply, after_answer_in, after_settling, without_return, engine_after};
ghost use Rattle.transitions.specs.EngineHistories.{IsSheet, IsFairTurn};
ghost use Rattle.transitions.specs.EngineInside.{IsChangeAllowed};
ghost use Rattle.transitions.specs.Limits.{most_clients};
ghost use Rattle.transitions.specs.Rooms.{HasSpaceFor};

use crate::answers::{Answer, ClientTally, Tallies, Tally};
use crate::called::{Called, call_clients};
use crate::client::{ENGINE_CLIENTS, Registered};
use crate::replies::{BeginRefusal, InProgress, NotYourTurn, Polled, Progress, RegisterRefusal};
use crate::report::ClientReport;
use crate::sheet::{Reports, Sheet};
use crate::{Sequences, after, allowed};
use daq_types::{Bytes, Name, NoMemory, Order, RunState, StartOutcome, Transition, Why};
use std::alloc::Global;
use std::marker::Model;
use std::mem::swap;

/// The client that refused a start, and why.
#[derive(Clone, Copy, Debug, PartialEq, Eq)]
pub struct Refusal {
    pub client: u32,
    pub why: Why,
}

/// How far a transition is.
#[derive(Clone, Copy, Debug)]
pub struct Stage {
    transition: Transition,
    order: Order,
    /// The first refusal of a start.
    refusal: Option<Refusal>,
    /// Whether clients are called for start-abort.
    off: bool,
}

/// The engine of run transitions, of clients that make reports of this type. A transition in progress has its dump, its blank reports, the clients that were given no
/// turn yet, those that have polled and not answered, and the tallies beside its stage. Only `new` takes memory.
#[derive(Drop)]
pub struct Engine<R: ClientReport + Drop> {
    closed: bool,
    state: RunState,
    start: u32,
    clients: Vec<Registered>,
    stage: Option<Stage>,
    dump: Option<Bytes>,
    blanks: Reports<R>,
    called: Vec<Called>,
    polled: Vec<Called>,
    tallies: Tallies<R>,
}

impl<R: ClientReport + Drop> Model for Engine<R> {
    ghost use Rattle.transitions.specs.Engines.{EngineState};
    ghost use Rattle.transitions.specs.EngineInside.{underway_of, IsEngine};

    ghost Value = { EngineState R };

    ghost view = { λ e. record {
      closed = e.closed;
      state = e.state;
      start = e.start;
      clients = e.clients.items;
      underway = underway_of e.stage e.dump e.blanks e.called.items e.polled.items e.tallies;
    } };

    ghost invariant = { λ e.
        IsEngine R.is_blank e.state e.clients e.stage e.dump e.blanks e.called e.polled e.tallies };
}

/// The transition whose turns are given: a refused start is called off.
fn find_turn(stage: &Stage) -> Transition
    ensures { result ≡ turn_kind stage.now.transition stage.now.off }
{
    if stage.off {
        Transition::StartAbort
    } else {
        stage.transition
    }
}

/// Whether turns of this transition can be refused.
fn is_start(transition: Transition) -> bool
    ensures { result ≡ is_start transition }
{
    matches!(transition, Transition::Start)
}

/// Whether this client is one of these.
fn stands_in(called: &[Called], client: u32) -> bool
    ensures { result ≡ stands_in called.now client }
{
    called.iter().any(|one| one.client == client)
}

/// Whether this client is one of these, with this sequence number.
fn stands_with(sequence: u32, called: &[Called], client: u32) -> bool
    ensures { result ≡ stands_with sequence called.now client }
{
    called
        .iter()
        .any(|one| one.client == client && one.sequence == sequence)
}

/// The sequence number of the group whose turn it is.
fn find_group(polled: &[Called], called: &[Called]) -> u32
    ensures { result ≡ group_of polled.now called.now }
{
    match (polled.first(), called.first()) {
        (Some(front), _) => front.sequence,
        (None, Some(front)) => front.sequence,
        (None, None) => 0,
    }
}

/// Takes this client out of these.
fn take_out(called: &mut Vec<Called>, client: u32)
    requires room { HasSpaceFor most_clients called.old }
    ensures left { called.new.items ≡ without client called.old.items }
    ensures room { HasSpaceFor most_clients called.new }
{
    called.retain(|one| one.client != client);
}

/// The state with these clients yet to answer.
fn find_state(
    state: RunState,
    transition: Transition,
    refusal: Option<Refusal>,
    polled: &[Called],
    called: &[Called],
) -> RunState
    requires { refusal ≡ None → polled.now ++ called.now ≡ [] → IsTrue (is_allowed state transition) }
    ensures { result ≡ state_with state transition refusal (polled.now ++ called.now) }
{
    match (refusal, polled, called) {
        (None, [], []) => after(state, transition),
        _ => state,
    }
}

/// Whether start-abort is due: a start was refused, and no answer is awaited any more.
fn is_due(stage: &Stage, polled: &[Called]) -> bool
    ensures { result ≡ is_due_off stage.now.refusal polled.now stage.now.off }
{
    match (stage.refusal, polled) {
        (Some(_), []) => !stage.off,
        _ => false,
    }
}

/// The first refusal, which this one is if there is none.
fn keep_first(first: Option<Refusal>, client: u32, why: Why) -> Refusal
    ensures { result ≡ first_refusal first client why }
{
    match first {
        Some(refusal) => refusal,
        None => Refusal { client, why },
    }
}

/// How far a transition with these clients yet to answer is.
fn find_progress(refusal: Option<Refusal>, polled: &[Called], called: &[Called]) -> Progress
    ensures { result ≡ progress_of (polled.now ++ called.now) refusal }
{
    match (polled, called) {
        ([], []) => Progress::Done {
            outcome: find_outcome(refusal),
        },
        _ => Progress::Going,
    }
}

/// How a transition with this refusal ended.
fn find_outcome(refusal: Option<Refusal>) -> StartOutcome
    ensures { result ≡ outcome_of refusal }
{
    match refusal {
        None => StartOutcome::Completed,
        Some(refusal) => StartOutcome::Refused {
            client: refusal.client,
            why: refusal.why,
        },
    }
}

/// The client of this number.
fn find_client(clients: &[Registered], client: u32) -> Option<Registered>
    ensures { result ≡ slice_get clients.now client }
{
    clients.get(client as usize).copied()
}

/// Whether a client that is given its turn is given a blank report.
fn gets_blank(client: &Registered, stage: &Stage) -> bool
    ensures { result ≡ (client.now.wants_report && is_start (turn_kind stage.now.transition stage.now.off)) }
{
    client.wants_report && is_start(find_turn(stage))
}

/// The dump, where it is due; it is then given.
fn give_dump(dump: &mut Option<Bytes>, due: bool) -> Option<Bytes>
    ensures given { result ≡ (if due then dump.old else None) }
    ensures left { dump.new ≡ (if due then None else dump.old) }
{
    if due { dump.take() } else { None }
}

/// A blank report, where one is due.
fn give_blank<R>(blanks: &mut Reports<R>, due: bool) -> Option<R>
    ensures given { result ≡ (if due then slice_get blanks.old 0 else None) }
    ensures left { blanks.new ≡ (if due then drop 1 blanks.old else blanks.old) }
{
    if due { blanks.take_first() } else { None }
}

impl<R: ClientReport + Drop> Engine<R> {
    /// Stopped, start number 0, no client.
    pub fn new(alloc: Global) -> Result<Engine<R>, NoMemory>
        ensures { IfOk result (λ engine. engine ≡ engine_opening) }
    {
        Ok(Engine {
            closed: false,
            state: RunState::Stopped,
            start: 0,
            clients: Vec::with_capacity(alloc, ENGINE_CLIENTS)?,
            stage: None,
            dump: None,
            blanks: Reports::of(Vec::new(alloc)),
            called: Vec::with_capacity(alloc, ENGINE_CLIENTS)?,
            polled: Vec::with_capacity(alloc, ENGINE_CLIENTS)?,
            tallies: Tallies::new(alloc)?,
        })
    }

    /// One client more. Clients are numbered from 0 in order.
    pub fn register(
        &mut self,
        name: Name,
        sequences: Sequences,
        wants_dump: bool,
        wants_report: bool,
    ) -> Result<u32, RegisterRefusal>
        ensures reply { result ≡ register_reply self.old }
        ensures state { self.new ≡
            engine_after self.old (Register name sequences wants_dump wants_report result) }
    {
        if self.closed {
            return Err(RegisterRefusal::Closed);
        }
        if let Some(stage) = self.stage {
            return Err(RegisterRefusal::InProgress {
                transition: stage.transition,
            });
        }
        let number = self.clients.len();
        if number >= ENGINE_CLIENTS {
            return Err(RegisterRefusal::NoSlot);
        }
        self.clients.push_reserved(Registered {
            name,
            sequences,
            wants_dump,
            wants_report,
        });
        Ok(number as u32)
    }

    /// The start number that the transition would have, or why it is not begun.
    fn find_start(&self, transition: Transition) -> Result<u32, BeginRefusal>
        ensures { result ≡ begin_reply self.now transition }
    {
        if self.closed {
            return Err(BeginRefusal::Closed);
        }
        if let Some(stage) = self.stage {
            return Err(BeginRefusal::InProgress {
                transition: stage.transition,
            });
        }
        if !allowed(self.state, transition) {
            return Err(BeginRefusal::WrongState { state: self.state });
        }
        if !is_start(transition) {
            return Ok(self.start);
        }
        if self.start == u32::MAX {
            return Err(BeginRefusal::LastStart);
        }
        Ok(self.start + 1)
    }

    /// Begins a transition. A start raises the start number, also where it is refused later. The answer is the start
    /// number; a refusal hands the sheet back. Takes no memory.
    pub fn begin(
        &mut self,
        transition: Transition,
        sheet: Sheet<R>,
    ) -> Result<u32, (BeginRefusal, Sheet<R>)>
        requires { IsSheet R.is_blank sheet }
        ensures reply { without_return result ≡ begin_reply self.old transition }
        ensures state { self.new ≡
            engine_after self.old (Begin transition sheet (without_return result)) }
        ensures back { IfErr result (λ refused. refused.1 ≡ sheet) }
    {
        let start = match self.find_start(transition) {
            Ok(start) => start,
            Err(refusal) => return Err((refusal, sheet)),
        };
        let Sheet {
            run,
            time,
            quota,
            dump,
            blanks,
        } = sheet;
        let order = Order {
            run,
            start,
            time,
            from: self.state,
            quota,
        };
        call_clients(&mut self.called, self.clients.as_slice(), transition);
        self.polled.clear();
        self.tallies.clear();
        self.start = start;
        self.dump = dump;
        self.blanks = blanks;
        self.stage = Some(Stage {
            transition,
            order,
            refusal: None,
            off: false,
        });
        self.state = find_state(self.state, transition, None, &[], self.called.as_slice());
        Ok(start)
    }

    /// Whether this client has its turn: all clients of a group of equal sequence number have it at once, until each answers.
    /// The dump goes to the first client that wants it and is given its turn, once; a blank report goes to each client that
    /// wants one, with the first reply of its turn of a start. Takes no memory.
    pub fn poll(&mut self, client: u32) -> Polled<R>
        ensures reply { result ≡ poll_reply self.old client }
        ensures state { self.new ≡ engine_after self.old (Poll client result) }
        ensures fair { IsFairTurn R.is_blank result }
    {
        let Some(wishes) = find_client(self.clients.as_slice(), client) else {
            return Polled::NoClient;
        };
        if self.closed {
            return Polled::Closed;
        }
        let Some(stage) = self.stage else {
            return Polled::Idle { state: self.state };
        };
        let transition = find_turn(&stage);
        let order = stage.order;
        if stands_in(self.polled.as_slice(), client) {
            return Polled::Turn {
                transition,
                order,
                dump: None,
                blank: None,
            };
        }
        let sequence = find_group(self.polled.as_slice(), self.called.as_slice());
        if !stands_with(sequence, self.called.as_slice(), client) {
            return Polled::Idle { state: self.state };
        }
        take_out(&mut self.called, client);
        self.polled.push_reserved(Called { client, sequence });
        Polled::Turn {
            transition,
            order,
            dump: give_dump(&mut self.dump, wishes.wants_dump),
            blank: give_blank(&mut self.blanks, gets_blank(&wishes, &stage)),
        }
    }

    /// The client's answer to its turn, which it has polled; else the answer is handed back. A No to a start refuses it: no
    /// further client is given its turn of the start, and once each that was given it has answered, all clients are called
    /// for start-abort. The first No counts, and a No to anything else is a Yes. Takes no memory.
    pub fn answer(&mut self, client: u32, answer: Answer<R>) -> Result<(), (NotYourTurn, Answer<R>)>
        ensures reply { without_return result ≡ answer_reply self.old client }
        ensures state { self.new ≡
            engine_after self.old (AnswerCall client answer (without_return result)) }
        ensures back { IfErr result (λ refused. refused.1 ≡ answer) }
    {
        let Some(stage) = self.stage else {
            return Err((NotYourTurn, answer));
        };
        if !stands_in(self.polled.as_slice(), client) {
            return Err((NotYourTurn, answer));
        }
        match answer {
            Answer::Yes(tally) => self.tell(client, tally),
            Answer::No(why) => {
                if is_start(find_turn(&stage)) {
                    self.refuse(client, why);
                } else {
                    self.tell(client, Tally::Plain);
                }
            }
        }
        Ok(())
    }

    /// The client's turn is answered with this tally.
    fn tell(&mut self, client: u32, tally: Tally<R>)
        requires { IsTrue (owes_answer self.old.underway client) }
        ensures { self.new ≡ after_answer_in self.old client (Yes tally) self.old.underway }
    {
        take_out(&mut self.polled, client);
        self.tallies.push(ClientTally { client, tally });
        self.settle();
    }

    /// The start is refused: the clients that were given no turn of it get none.
    fn refuse(&mut self, client: u32, why: Why)
        requires owes { IsTrue (owes_answer self.old.underway client) }
        requires start { IsTrue (is_in_start self.old.underway) }
        ensures { self.new ≡ after_answer_in self.old client (No why) self.old.underway }
    {
        let Some(stage) = self.stage else {
            return;
        };
        take_out(&mut self.polled, client);
        self.called.clear();
        self.stage = Some(Stage {
            refusal: Some(keep_first(stage.refusal, client, why)),
            ..stage
        });
        self.settle();
    }

    /// Calls a refused start off, if start-abort is due; at the last answer of a transition that was not refused the state
    /// changes.
    fn settle(&mut self)
        requires { IsChangeAllowed self.old.state self.old.underway }
        ensures { self.new ≡ after_settling self.old self.old.underway }
    {
        let Some(stage) = self.stage else {
            return;
        };
        if is_due(&stage, self.polled.as_slice()) {
            call_clients(
                &mut self.called,
                self.clients.as_slice(),
                Transition::StartAbort,
            );
            self.stage = Some(Stage { off: true, ..stage });
        }
        self.state = find_state(
            self.state,
            stage.transition,
            stage.refusal,
            self.polled.as_slice(),
            self.called.as_slice(),
        );
    }

    /// How far the transition is. At the end of it the tallies move out, once, into a list that is empty, and so has room
    /// for all of them. Takes no memory.
    pub fn check(&mut self, tallies: &mut Tallies<R>) -> Progress
        requires { tallies.old ≡ [] }
        ensures reply { result ≡ check_reply self.old }
        ensures moved { tallies.new ≡ tallies_given self.old }
        ensures state { self.new ≡ engine_after self.old (Check result tallies.new) }
    {
        let Some(stage) = self.stage else {
            return Progress::None;
        };
        match find_progress(
            stage.refusal,
            self.polled.as_slice(),
            self.called.as_slice(),
        ) {
            Progress::Done { outcome } => {
                swap(&mut self.tallies, tallies);
                self.stage = None;
                Progress::Done { outcome }
            }
            going => going,
        }
    }

    /// Closes the engine unless a transition is in progress: `register`, `begin` and a client's `poll` answer Closed from then
    /// on. Takes no memory.
    pub fn close(&mut self) -> Result<(), InProgress>
        ensures reply { result ≡ close_reply self.old }
        ensures state { self.new ≡ engine_after self.old (Close result) }
    {
        if let Some(stage) = self.stage {
            return Err(InProgress {
                transition: stage.transition,
            });
        }
        self.closed = true;
        Ok(())
    }
}
