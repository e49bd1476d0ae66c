// The logger with all that it works on.
ghost use Rattle.std.specs.Prelude.{◌≡◌, ◌≤◌, ◌<◌, ◌+◌, ◌||◌, ℕ, if◌then◌else◌, [], length, map, IfSome, is_some, unwrap_or, None};
ghost use Rattle.std.specs.Option.{option_copied};
ghost use Rattle.event.specs.Events.{record_limit};
ghost use Rattle.buffer_core.specs.Slots.{slot_at, some_slot};
ghost use Rattle.loggers.specs.Moments.{AreSamePorts};
ghost use Rattle.loggers.specs.SlotPulls.{PullsNumbered};
ghost use Rattle.loggers.specs.Turning.{TakesTurn};
ghost use Rattle.loggers.specs.Finishing.{FinishesLogger};
ghost use Rattle.loggers.specs.LoggerLaws.{StandsAfterTurn, StandsAfterFinish};
ghost use Rattle.daq_members.specs.LoggerTaken.{PullsAll, pulled_channels, has_pulled};
ghost use Rattle.daq_members.specs.ConnectedLoggers.{connected, moment_at, IsConnected, StaysAtPulls, connected_turned, connected_finish};

use buffer_core::BufferPort;
use daq_io::{Files, Gate, Point};
use daq_types::{Bytes, Order, Transition};
use loggers::{Logger, Ports, laws as logger_laws};
use member_model::Answer;
use mid_logger::{Channel, Pulled};
use std::marker::Model;
use std::sync::Wait;

/// The numbers of a logger's channels are those below this.
const CHANNELS: u32 = 16;

/// A logger connected to its buffers and its files: its own ports to the buffers, each at its buffer's number, and the run files.
/// It is ready for each turn at every moment.
#[derive(Drop)]
pub(crate) struct ConnectedLogger<P: BufferPort, F: Files> {
    logger: Logger,
    /// The number that those of all its channels are below.
    bound: u32,
    ports: Ports<P>,
    files: F,
}

impl<P: BufferPort, F: Files> Model for ConnectedLogger<P, F> {
    ghost use Rattle.std.specs.Prelude.{◌≡◌, ◌≤◌, ℕ, map, None};
    ghost use Rattle.buffer_core.specs.Slots.{slot_at};
    ghost use Rattle.daq_members.specs.LoggerTaken.{pulled_channels};
    ghost use Rattle.daq_members.specs.ConnectedLoggers.{ConnectedSeen, IsConnected, connected};

    ghost Value = { ConnectedSeen F };

    ghost view = { λ c. connected c.logger (map P.access c.ports) c.files };

    ghost invariant = { λ c. IsConnected F.told
        (connected c.logger (map P.access c.ports) c.files) × (c.bound ≤ pulled_channels)
        × ((n : ℕ) → c.bound ≤ n → slot_at c.logger.channels n ≡ None) };
}

/// Whether the pull got an event.
fn has_pulled(pulled: Pulled) -> bool
    ensures { result ≡ has_pulled pulled }
{
    match pulled {
        Pulled::Wrote { .. } | Pulled::Dropped { .. } | Pulled::Broke => true,
        Pulled::Nothing | Pulled::NoChannel => false,
    }
}

/// Whether one of the pulls so far got an event, where this is the last of them.
fn or_pulled(pulled: Pulled, got: bool) -> bool
    ensures { result ≡ (has_pulled pulled || got) }
{
    has_pulled(pulled) || got
}

/// Whether a channel stands at this place.
fn is_there(slot: Option<&Option<Channel>>) -> bool
    ensures { result ≡ is_some (unwrap_or (option_copied slot.entry) None) }
{
    match slot {
        Some(Some(_)) => true,
        Some(None) => false,
        None => false,
    }
}

/// Whether there is a channel of this number.
fn has_channel(logger: &Logger, channel: u32) -> bool
    ensures { result ≡ is_some (slot_at logger.now.channels channel) }
{
    is_there(logger.channels.get(channel as usize))
}

/// The number past this one where a channel stands at it, else the bound so far.
fn bound_past(there: bool, number: u32, bound: u32) -> u32
    requires { number < pulled_channels }
    ensures { result ≡ (if there then number + 1 else bound) }
{
    if there { number + 1 } else { bound }
}

/// The number past that of the last channel of this logger, zero where it has none.
fn channel_bound(logger: &Logger) -> u32
    requires { length logger.now.channels ≤ pulled_channels }
    ensures few { result ≤ pulled_channels }
    ensures none { (n : ℕ) → result ≤ n → slot_at logger.now.channels n ≡ None }
{
    let mut bound = 0;
    for number in 0..CHANNELS {
        bound = bound_past(has_channel(logger, number), number, bound);
    }
    bound
}

impl<P: BufferPort, F: Files> ConnectedLogger<P, F> {
    /// This logger with these ports and files.
    pub(crate) fn new(logger: Logger, ports: Ports<P>, files: F) -> ConnectedLogger<P, F>
        requires { IsConnected F.told (connected logger (map P.access ports) files) }
        ensures { result ≡ connected logger (map P.access ports) files }
    {
        let bound = channel_bound(&logger);
        ConnectedLogger {
            logger,
            bound,
            ports,
            files,
        }
    }

    /// Learns that it is ready for its turns.
    pub(crate) fn is_ready(&self)
        ensures { IsConnected F.told self.now }
    {
        let _logger = &self.logger;
    }

    /// The number that those of all its channels are below.
    fn bound(&self) -> u32
        ensures few { result ≤ pulled_channels }
        ensures none { (n : ℕ) → result ≤ n → slot_at self.now.slots n ≡ None }
    {
        self.bound
    }

    /// Pulls the channel of this number once, if there is one, between the two points of the gate.
    fn pull_one<R: Wait, G: Gate>(&mut self, rt: &R, gate: &G, client: u32, channel: u32) -> Pulled
        ensures pulls { PullsNumbered (unwrap_or self.old.dumps.start []) channel result
            (moment_at F.told self.old) (moment_at F.told self.new) }
        ensures stays { StaysAtPulls F.told self.old self.new }
    {
        if !has_channel(&self.logger, channel) {
            return Pulled::NoChannel;
        }
        gate.at(client, Point::BeforeReceive);
        let pulled = self
            .logger
            .pull(rt, &mut self.files, &mut self.ports, channel);
        gate.at(client, Point::AfterReceive);
        pulled
    }

    /// Pulls each channel of the logger with this client number once, in order of number. Whether one of the pulls got an event.
    pub(crate) fn pull_all<R: Wait, G: Gate>(&mut self, rt: &R, gate: &G, client: u32) -> bool
        ensures pulls { PullsAll self.old.dumps result (moment_at F.told self.old)
            (moment_at F.told self.new) }
        ensures stays { StaysAtPulls F.told self.old self.new }
    {
        let bound = self.bound();
        let mut got = false;
        for channel in 0..bound {
            let pulled = self.pull_one(rt, gate, client, channel);
            got = or_pulled(pulled, got);
        }
        got
    }

    /// Takes a turn that the engine gives, and gives its answer, if there is one yet.
    pub(crate) fn on_turn<R: Wait>(
        &mut self,
        rt: &R,
        transition: Transition,
        order: &Order,
        dump: Option<Bytes>,
    ) -> Option<Answer>
        requires { IfSome dump (λ bytes. length bytes ≤ record_limit) }
        ensures takes { TakesTurn (connected_turned F.told transition order.now dump result
            self.old self.new) }
        ensures same { AreSamePorts self.old.ports self.new.ports }
        ensures keeps { StandsAfterTurn (connected_turned F.told transition order.now dump result
            self.old self.new) }
    {
        logger_laws::other_files();
        self.logger.on_turn(
            rt,
            &mut self.files,
            &mut self.ports,
            transition,
            order,
            dump,
        )
    }

    /// The answer to the stop that waits, if it can be given.
    pub(crate) fn finish(&mut self) -> Option<Answer>
        ensures finishes { FinishesLogger (connected_finish F.told result self.old self.new) }
        ensures ports { self.new.ports ≡ self.old.ports }
        ensures keeps { StandsAfterFinish (connected_finish F.told result self.old self.new) }
    {
        logger_laws::other_files();
        self.logger.finish(&mut self.files)
    }

    /// Whether a call on the run files failed in a turn of the logger.
    pub(crate) fn failed(&self) -> bool
        ensures { result ≡ some_slot (λ c. c.failed) self.now.slots }
    {
        self.logger.failed()
    }

    /// The ports and the files, given back.
    pub(crate) fn into_parts(self) -> (Ports<P>, F)
        ensures ports { map P.access result.0 ≡ self.ports }
        ensures files { result.1 ≡ self.files }
    {
        let ConnectedLogger { ports, files, .. } = self;
        (ports, files)
    }
}
