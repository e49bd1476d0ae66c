ghost use Rattle.std.specs.Prelude.{◌≡◌, ◌||◌, List, map, None, true};
ghost use Rattle.daq_types.specs.Callers.{caller_of_client};
ghost use Rattle.buffer_core.specs.Slots.{some_slot};
ghost use Rattle.turn_lock.specs.Passes.{number_of, held_by, own_entries, IsOf};
ghost use Rattle.transition_lock.specs.SharedEngines.{engine_lock_of};
ghost use Rattle.loggers.specs.Moments.{AreSamePorts};
ghost use Rattle.daq_members.specs.OwnTurns.{are_calls_for};
ghost use Rattle.daq_members.specs.FrontTaken.{turned_by};
ghost use Rattle.daq_members.specs.LoggerTaken.{TakesLogger, KeepsLoggerMember};
ghost use Rattle.daq_members.specs.ConnectedLoggers.{connected_taken};

use crate::connected_logger::ConnectedLogger;
use crate::engine_client::{EngineClient, MemberClient};
use crate::front_member::turned_by;
use buffer_core::BufferPort;
use daq_io::{Files, Gate};
use loggers::{Logger, Ports, laws as logger_laws};
use member_crew::Turned;
use member_model::Polled;
use std::marker::Model;
use std::snapshot::Snapshot;
use std::sync::Wait;
use transition_lock::EnginePass;

/// What the logger gives back at its end.
#[derive(Drop)]
pub struct LoggerParts<P, F> {
    /// Its pass of the engine.
    pub pass: EnginePass,
    /// Its ports to the buffers, each at its buffer's number.
    pub ports: Ports<P>,
    pub files: F,
}

/// The logger as a member of a session: its client at the engine, the logger, its own ports to the buffers, each at its buffer's
/// number, and the run files, as they are and as they were when it took its seat. Its turns take no memory.
#[derive(Drop)]
pub struct LoggerMember<'a, P: BufferPort, F: Files> {
    engine: MemberClient<'a, ConnectedLogger<P, F>>,
    logger: ConnectedLogger<P, F>,
    first: Snapshot<F>,
}

impl<'a, P: BufferPort, F: Files> Model for LoggerMember<'a, P, F> {
    ghost use Rattle.daq_members.specs.LoggerSeats.{LoggerSeen, IsLoggerAtSeat, logger_by};

    ghost Value = { LoggerSeen F };

    ghost view = { λ m. logger_by m.engine m.logger m.first.value };

    ghost invariant = { λ m. IsLoggerAtSeat F.told
        (logger_by m.engine m.logger m.first.value) };
}

/// What a turn came to in which an event was got or none, and a stop was answered or not.
fn turned_by_pulls(got: bool, answered: bool) -> Turned
    ensures { result ≡ turned_by (got || answered) }
{
    turned_by(got || answered)
}

/// One turn of this logger, with its client at the engine, as `LoggerMember::turn` says.
fn take_turn<'a, R: Wait, P: BufferPort, F: Files, G: Gate>(
    rt: &R,
    gate: &G,
    engine: &mut MemberClient<'a, ConnectedLogger<P, F>>,
    logger: &mut ConnectedLogger<P, F>,
) -> Turned
    ensures takes { TakesLogger (connected_taken F.told
        engine.old engine.new logger.old logger.new result) }
    ensures client { engine.new.client ≡ engine.old.client }
    ensures engine { engine.new.engine ≡ engine.old.engine }
    ensures speaks { are_calls_for engine.new.client engine.new.calls ≡ true }
    ensures same { AreSamePorts logger.old.ports logger.new.ports }
    ensures keeps { KeepsLoggerMember (connected_taken F.told engine.old engine.new logger.old
        logger.new result) }
{
    let client = engine.number();
    let owed = engine.owed();
    match engine.poll(rt) {
        Polled::Closed => Turned::Ended,
        Polled::NoClient => Turned::Idle,
        Polled::Idle { .. } => turned_by(logger.pull_all(rt, gate, client)),
        Polled::Turn {
            transition,
            order,
            dump,
            ..
        } => match owed {
            None => {
                let answer = logger.on_turn(rt, transition, &order, dump);
                engine.give(rt, answer, logger);
                Turned::Worked
            }
            Some(_) => {
                let got = logger.pull_all(rt, gate, client);
                let answer = logger.finish();
                let answered = answer.is_some();
                engine.give(rt, answer, logger);
                turned_by_pulls(got, answered)
            }
        },
    }
}

impl<'a, P: BufferPort, F: Files> LoggerMember<'a, P, F> {
    ghost use Rattle.daq_members.specs.LoggerSeats.{IsFirstLogger, IsLoggerAtSeat, IsSameLogger, logger_seen, logger_taken};

    /// A logger that is ready for its turns, and had none, with its client at the engine, its own ports to the buffers and the
    /// run files.
    pub fn new(
        engine: EngineClient<'a>,
        logger: Logger,
        ports: Ports<P>,
        files: F,
    ) -> LoggerMember<'a, P, F>
        requires { IsFirstLogger F.told
            (logger_seen engine logger (map P.access ports) files files) }
        ensures { result ≡ logger_seen engine.entry logger (map P.access ports) files files }
    {
        let first = Snapshot::of(&files);
        let logger = ConnectedLogger::new(logger, ports, files);
        let engine = MemberClient::new(engine, &logger);
        LoggerMember {
            engine,
            logger,
            first,
        }
    }

    /// One turn: the engine is asked once. A turn that it gives is taken, and answered where that can be at once; else
    /// each channel is pulled once, in order of number, and then a stop is answered that waited for it. Worked exactly
    /// where a new turn was given, one was answered, or an event was got; Ended exactly where the engine is closed. The
    /// calls are those of the member's own number. What the turn does on buffers and files, it does before it answers. Takes no
    /// memory.
    pub fn turn<R: Wait, G: Gate>(&mut self, rt: &R, gate: &G) -> Turned
        ensures takes { TakesLogger (logger_taken F.told self.old self.new result) }
        ensures same { IsSameLogger self.old self.new }
        ensures keeps { IsLoggerAtSeat F.told self.new }
    {
        logger_laws::given_once();
        logger_laws::other_files();
        logger_laws::reasons_given();
        logger_laws::names_kept();
        let turned = take_turn(rt, gate, &mut self.engine, &mut self.logger);
        self.logger.is_ready();
        turned
    }

    /// The logger's client number. It keeps its contract at every moment.
    pub fn client(&self) -> u32
        ensures number { result ≡ self.now.client }
        ensures seated { IsLoggerAtSeat F.told self.now }
    {
        self.engine.number()
    }

    /// Whether a call on the run files failed in a turn of the logger.
    pub fn failed(&self) -> bool
        ensures { result ≡ some_slot (λ c. c.failed) self.now.slots }
    {
        self.logger.failed()
    }

    /// What the logger called with, given back: its pass of the engine it is asking, its ports with the calls that it
    /// made, and the run files. Over these it keeps its contract.
    pub fn into_parts(self) -> LoggerParts<P, F>
        ensures calls { own_entries result.pass ≡ self.entry.calls }
        ensures number { number_of result.pass ≡ caller_of_client self.entry.client }
        ensures own { IsOf (engine_lock_of self.entry.engine) result.pass }
        ensures idle { held_by result.pass ≡ None }
        ensures ports { map P.access result.ports ≡ self.entry.ports }
        ensures files { result.files ≡ self.entry.files }
        ensures seated { IsLoggerAtSeat F.told self.entry }
    {
        let LoggerMember { engine, logger, .. } = self;
        let (ports, files) = logger.into_parts();
        LoggerParts {
            pass: engine.into_pass(),
            ports,
            files,
        }
    }
}
