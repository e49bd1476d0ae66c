ghost use Rattle.std.specs.Prelude.{◌≡◌, ◌≤◌, ◌||◌, None};
ghost use Rattle.daq_types.specs.Callers.{caller_of_client};
ghost use Rattle.turn_lock.specs.Passes.{number_of, held_by, own_entries, IsOf};
ghost use Rattle.transition_lock.specs.SharedEngines.{engine_lock_of};
ghost use Rattle.loggers.specs.Moments.{IsSameAccess};
ghost use Rattle.daq_members.specs.SentSets.{number_set_at, number_if};
ghost use Rattle.daq_members.specs.FrontTaken.{turned_by, is_sent, StepsOnce, TakesFront, KeepsAtStep};

use crate::engine_client::{EngineClient, MemberClient};
use crate::sent_key::SentKey;
use crate::traced_port::TracedPort;
use buffer_core::BufferPort;
use daq_io::{Gate, Point};
use daq_types::{Name, Transition};
use front_ends::{Equipment, FrontEnd, FrontStep};
use member_crew::Turned;
use member_model::Polled;
use odb_watch::WatchPort;
use std::marker::Model;
use std::sync::Wait;
use transition_lock::EnginePass;

/// What a front-end gives back at its end.
#[derive(Drop)]
pub struct FrontParts<P, D> {
    pub name: Name,
    /// Its pass of the engine.
    pub pass: EnginePass,
    /// Its port to its buffer.
    pub port: P,
    /// Its access to the database.
    pub database: D,
}

/// A front-end as a member of a session: its client at the engine, the key in which it says how many events it sent, the
/// front-end, its own port to its buffer, and its own access to the database. Its turns take no memory.
#[derive(Drop)]
pub struct FrontMember<'a, X: Equipment, P: BufferPort, D: WatchPort> {
    engine: MemberClient<'a, D>,
    key: SentKey,
    front: FrontEnd<X>,
    port: TracedPort<P>,
    database: D,
}

impl<'a, X: Equipment, P: BufferPort, D: WatchPort> Model for FrontMember<'a, X, P, D> {
    ghost use Rattle.daq_members.specs.FrontSeats.{FrontSeen, IsSeated, front_of_parts};

    ghost Value = { FrontSeen X };

    ghost view = { λ m. front_of_parts D.access m.engine m.key.name m.front m.port m.database };

    ghost invariant = { λ m. IsSeated X.takes X.makes
        (front_of_parts D.access m.engine m.key.name m.front m.port m.database) };
}

/// What a turn came to in which something was done, or nothing.
pub fn turned_by(worked: bool) -> Turned
    ensures { result ≡ turned_by worked }
{
    if worked { Turned::Worked } else { Turned::Idle }
}

/// Whether the step sent an event.
fn is_sent(step: FrontStep) -> bool
    ensures { result ≡ is_sent step }
{
    matches!(step, FrontStep::Sent { .. })
}

/// What a turn came to in which the front-end made this step, and answered or did not.
fn turned_by_step(step: FrontStep, answered: bool) -> Turned
    ensures { result ≡ turned_by (is_sent step || answered) }
{
    turned_by(is_sent(step) || answered)
}

/// The number that is set at a turn, where so many events were sent in the run.
fn number_set_at(transition: Transition, answered: bool, sent: u64) -> Option<u64>
    ensures { result ≡ number_set_at transition answered sent }
{
    match transition {
        Transition::Start => Some(0),
        Transition::Pause => Some(sent),
        Transition::Stop if answered => Some(sent),
        Transition::Stop | Transition::Resume | Transition::StartAbort => None,
    }
}

/// The number that is set at the end of a stop that waited: what was sent in the run, where it is answered.
fn number_finished(answered: bool, sent: u64) -> Option<u64>
    ensures { result ≡ number_if answered sent }
{
    if answered { Some(sent) } else { None }
}

/// Sends the next event of the front-end with this client number, if one is to be sent, between the two points of the gate.
fn step_between<R: Wait, X: Equipment, P: BufferPort, G: Gate>(
    rt: &R,
    gate: &G,
    client: u32,
    front: &mut FrontEnd<X>,
    port: &mut TracedPort<P>,
) -> FrontStep
    requires size { 104 ≤ port.old.access.size }
    ensures steps { StepsOnce X.makes front.old front.new port.old.access port.new.access result }
    ensures takes_as { X.takes front.new.equipment ≡ X.takes front.old.equipment }
    ensures makes_as { X.makes front.new.equipment ≡ X.makes front.old.equipment }
    ensures same_port { IsSameAccess port.old.access port.new.access }
    ensures moments { port.new.moments ≡ port.old.moments }
    ensures keeps { KeepsAtStep X.takes X.makes front.old front.new port.old.access port.new.access }
{
    gate.at(client, Point::BeforeSend);
    let step = port.step(rt, front);
    gate.at(client, Point::AfterSend);
    step
}

impl<'a, X: Equipment, P: BufferPort, D: WatchPort> FrontMember<'a, X, P, D> {
    ghost use Rattle.daq_members.specs.FrontSeats.{IsSeated, IsSameFront, front_seen, front_taken};

    /// A front-end that is ready for its turns, of which it took none yet, with its client at the engine, its own port to its
    /// buffer and its own access to the database.
    pub fn new(
        engine: EngineClient<'a>,
        key: SentKey,
        front: FrontEnd<X>,
        port: P,
        database: D,
    ) -> FrontMember<'a, X, P, D>
        requires { IsSeated X.takes X.makes
            (front_seen engine key.name front (P.access port) (D.access database)) }
        ensures { result
            ≡ front_seen engine.entry key.name front (P.access port) (D.access database) }
    {
        let engine = MemberClient::new(engine, &database);
        FrontMember {
            engine,
            key,
            front,
            port: TracedPort::new(port),
            database,
        }
    }

    /// One turn: the engine is asked once. A turn that it gives is taken, and answered where that can be at once;
    /// else the next event is sent, and then a stop is answered that waited for it. Worked exactly where a new turn
    /// was given, one was answered, or an event was sent; Ended exactly where the engine is closed. The calls are
    /// those of the member's own number. What the turn sets in the database, it sets before it answers. Takes no memory.
    pub fn turn<R: Wait, G: Gate>(&mut self, rt: &R, gate: &G) -> Turned
        ensures takes { TakesFront (front_taken X.takes X.makes self.old self.new result) }
        ensures same { IsSameFront X.takes X.makes self.old self.new }
        ensures keeps { IsSeated X.takes X.makes self.new }
    {
        let client = self.engine.number();
        let owed = self.engine.owed();
        match self.engine.poll(rt) {
            Polled::Closed => Turned::Ended,
            Polled::NoClient => Turned::Idle,
            Polled::Idle { .. } => {
                let step = step_between(rt, gate, client, &mut self.front, &mut self.port);
                turned_by(is_sent(step))
            }
            Polled::Turn {
                transition,
                order,
                ..
            } => match owed {
                None => {
                    let sent = self.front.sent_in(order.start);
                    let answer = self.front.on_turn(transition, &order);
                    self.port.take_turn();
                    let number = number_set_at(transition, answer.is_some(), sent);
                    self.key.set(rt, &mut self.database, number);
                    self.engine.give(rt, answer, &self.database);
                    Turned::Worked
                }
                Some(start) => {
                    let step = step_between(rt, gate, client, &mut self.front, &mut self.port);
                    let sent = self.front.sent_in(start);
                    let answer = self.front.finish();
                    self.port.answer_turn(&answer);
                    let answered = answer.is_some();
                    let number = number_finished(answered, sent);
                    self.key.set(rt, &mut self.database, number);
                    self.engine.give(rt, answer, &self.database);
                    turned_by_step(step, answered)
                }
            },
        }
    }

    /// The front-end's client number. It keeps its contract at every moment.
    pub fn client(&self) -> u32
        ensures number { result ≡ self.now.client }
        ensures seated { IsSeated X.takes X.makes self.now }
    {
        self.engine.number()
    }

    /// What the front-end called with, given back: its pass of the engine it is asking, and its port and its access with
    /// the calls that it made. Over these it keeps its contract.
    pub fn into_parts(self) -> FrontParts<P, D>
        ensures name { result.name ≡ self.entry.name }
        ensures calls { own_entries result.pass ≡ self.entry.calls }
        ensures number { number_of result.pass ≡ caller_of_client self.entry.client }
        ensures own { IsOf (engine_lock_of self.entry.engine) result.pass }
        ensures idle { held_by result.pass ≡ None }
        ensures port { P.access result.port ≡ self.entry.port }
        ensures database { D.access result.database ≡ self.entry.database }
        ensures seated { IsSeated X.takes X.makes self.entry }
    {
        let FrontMember {
            engine,
            key,
            port,
            database,
            ..
        } = self;
        FrontParts {
            name: key.name,
            pass: engine.into_pass(),
            port: port.into_port(),
            database,
        }
    }
}
