ghost use Rattle.std.specs.Prelude.{◌≡◌, ◌≤◌, ◌-◌, ◌||◌, None, min};
ghost use Rattle.daq_types.specs.Callers.{caller_of_client};
ghost use Rattle.event.specs.Events.{event_limit};
ghost use Rattle.turn_lock.specs.Passes.{number_of, held_by, own_entries, IsOf};
ghost use Rattle.transition_lock.specs.SharedEngines.{engine_lock_of};
ghost use Rattle.analyzers.specs.Analyzers.{IsWithinGot};
ghost use Rattle.loggers.specs.Moments.{IsSameAccess};
ghost use Rattle.daq_members.specs.FrontTaken.{turned_by};
ghost use Rattle.daq_members.specs.AnalyzerTaken.{has_got, PullsAnalyzer, TakesAnalyzer, KeepsAtPull};

use crate::engine_client::{EngineClient, MemberClient};
use crate::turned_by;
use analyzers::{Analyzer, AnalyzerPull};
use buffer_core::BufferPort;
use daq_io::{Gate, Point};
use member_crew::Turned;
use member_model::Polled;
use std::marker::Model;
use std::sync::Wait;
use transition_lock::EnginePass;

/// What an analyzer gives back at its end.
#[derive(Drop)]
pub struct AnalyzerParts<P> {
    /// Its pass of the engine.
    pub pass: EnginePass,
    /// Its port to its buffer.
    pub port: P,
}

/// An analyzer as a member of a session: its client at the engine, the analyzer, and its own port to its buffer. Its
/// turns take no memory.
#[derive(Drop)]
pub struct AnalyzerMember<'a, P: BufferPort> {
    engine: MemberClient<'a, P>,
    analyzer: Analyzer,
    port: P,
}

impl<'a, P: BufferPort> Model for AnalyzerMember<'a, P> {
    ghost use Rattle.daq_members.specs.SeatedAnalyzers.{AnalyzerSeen, IsAnalyzerSeated, analyzer_by};

    ghost Value = { AnalyzerSeen };

    ghost view = { λ m. analyzer_by P.access m.engine m.analyzer m.port };

    ghost invariant = { λ m. IsAnalyzerSeated
        (analyzer_by P.access m.engine m.analyzer m.port) };
}

/// Whether the pull got an event.
fn has_got(pulled: AnalyzerPull) -> bool
    ensures { result ≡ has_got pulled }
{
    match pulled {
        AnalyzerPull::Folded { .. } | AnalyzerPull::Dropped { .. } => true,
        AnalyzerPull::Nothing => false,
    }
}

/// What a turn came to in which a stop was answered or not, and the pull gave this.
fn turned_by_pull(answered: bool, pulled: AnalyzerPull) -> Turned
    ensures { result ≡ turned_by (answered || has_got pulled) }
{
    turned_by(answered || has_got(pulled))
}

/// Pulls once for the analyzer with this client number, between the two points of the gate.
fn pull_between<R: Wait, P: BufferPort, G: Gate>(
    rt: &R,
    gate: &G,
    client: u32,
    analyzer: &mut Analyzer,
    port: &mut P,
) -> AnalyzerPull
    requires room { min event_limit ((P.access port.old).size - 24) ≤ analyzer.old.room }
    requires counted { IsWithinGot analyzer.old.run (P.access port.old).got }
    ensures pulls { PullsAnalyzer analyzer.old analyzer.new (P.access port.old)
        (P.access port.new) result }
    ensures wanted { analyzer.new.wanted ≡ analyzer.old.wanted }
    ensures room { analyzer.new.room ≡ analyzer.old.room }
    ensures same_port { IsSameAccess (P.access port.old) (P.access port.new) }
    ensures counted { IsWithinGot analyzer.new.run (P.access port.new).got }
    ensures keeps { KeepsAtPull analyzer.old analyzer.new (P.access port.old)
        (P.access port.new) }
{
    gate.at(client, Point::BeforeReceive);
    let pulled = analyzer.pull(rt, port);
    gate.at(client, Point::AfterReceive);
    pulled
}

impl<'a, P: BufferPort> AnalyzerMember<'a, P> {
    ghost use Rattle.daq_members.specs.SeatedAnalyzers.{IsAnalyzerSeated, IsSameAnalyzer, analyzer_seen, analyzer_taken};

    /// An analyzer that is ready for its turns, with its client at the engine and its own port to its buffer.
    pub fn new(engine: EngineClient<'a>, analyzer: Analyzer, port: P) -> AnalyzerMember<'a, P>
        requires { IsAnalyzerSeated (analyzer_seen engine analyzer (P.access port)) }
        ensures { result ≡ analyzer_seen engine.entry analyzer (P.access port) }
    {
        let engine = MemberClient::new(engine, &port);
        AnalyzerMember {
            engine,
            analyzer,
            port,
        }
    }

    /// One turn: the engine is asked once. A turn that it gives is taken, and answered where that can be at once; else the
    /// analyzer pulls once, and then a stop is answered that waited for it. Worked exactly where a new turn was given, one was
    /// answered, or an event was got; Ended exactly where the engine is closed. The calls are those of the member's own number.
    /// What the turn does on the buffer, it does before it answers. Takes no memory.
    pub fn turn<R: Wait, G: Gate>(&mut self, rt: &R, gate: &G) -> Turned
        ensures takes { TakesAnalyzer (analyzer_taken self.old self.new result) }
        ensures same { IsSameAnalyzer self.old self.new }
        ensures keeps { IsAnalyzerSeated self.new }
    {
        let client = self.engine.number();
        let owed = self.engine.owed();
        match self.engine.poll(rt) {
            Polled::Closed => Turned::Ended,
            Polled::NoClient => Turned::Idle,
            Polled::Idle { .. } => {
                let pulled = pull_between(rt, gate, client, &mut self.analyzer, &mut self.port);
                turned_by(has_got(pulled))
            }
            Polled::Turn {
                transition,
                order,
                blank,
                ..
            } => match owed {
                None => {
                    let answer = self
                        .analyzer
                        .on_turn(rt, &mut self.port, transition, &order, blank);
                    self.engine.give(rt, answer, &self.port);
                    Turned::Worked
                }
                Some(_) => {
                    let pulled = pull_between(rt, gate, client, &mut self.analyzer, &mut self.port);
                    let answer = self.analyzer.finish();
                    let turned = turned_by_pull(answer.is_some(), pulled);
                    self.engine.give(rt, answer, &self.port);
                    turned
                }
            },
        }
    }

    /// The analyzer's client number. It keeps its contract at every moment.
    pub fn client(&self) -> u32
        ensures number { result ≡ self.now.client }
        ensures seated { IsAnalyzerSeated self.now }
    {
        self.engine.number()
    }

    /// What the analyzer called with, given back: its pass of the engine it is asking, and its port with the calls that it
    /// made. Over these it keeps its contract.
    pub fn into_parts(self) -> AnalyzerParts<P>
        ensures calls { own_entries result.pass ≡ self.entry.calls }
        ensures number { number_of result.pass ≡ caller_of_client self.entry.client }
        ensures own { IsOf (engine_lock_of self.entry.engine) result.pass }
        ensures idle { held_by result.pass ≡ None }
        ensures port { P.access result.port ≡ self.entry.port }
        ensures seated { IsAnalyzerSeated self.entry }
    {
        let AnalyzerMember { engine, port, .. } = self;
        AnalyzerParts {
            pass: engine.into_pass(),
            port,
        }
    }
}
