// A client at a shared engine.
ghost use Rattle.std.specs.Prelude.{◌≡◌, [], None, true};
ghost use Rattle.daq_types.specs.Callers.{caller_of_client};
ghost use Rattle.turn_lock.specs.Passes.{number_of, held_by, own_entries, IsOf};
ghost use Rattle.transition_lock.specs.SharedEngines.{engine_lock_of};
ghost use Rattle.member_model.specs.RunEngines.{IsFairTurn};
ghost use Rattle.daq_members.specs.OwnTurns.{start_owed, owed_by, asked_so, are_calls_for, GivesAnswer, AnswersLast};
ghost use Rattle.daq_members.specs.EngineClients.{at_first};

use member_model::{Answer, Polled};
use std::marker::Model;
use std::snapshot::Snapshot;
use std::sync::Wait;
use transition_lock::{EnginePass, SharedEngine};

/// A client at a shared engine: its client number, its pass, and the start number of the turn that it was given and has not
/// answered. It polls and answers for itself alone.
#[derive(Drop)]
pub struct EngineClient<'a> {
    engine: &'a SharedEngine,
    pass: EnginePass,
    number: u32,
    owed: Option<u32>,
}

impl<'a> Model for EngineClient<'a> {
    ghost use Rattle.std.specs.Prelude.{◌≡◌, None, true};
    ghost use Rattle.daq_types.specs.Callers.{caller_of_client};
    ghost use Rattle.turn_lock.specs.Passes.{number_of, held_by, own_entries, IsOf};
    ghost use Rattle.transition_lock.specs.SharedEngines.{engine_lock_of};
    ghost use Rattle.daq_members.specs.OwnTurns.{start_owed, are_calls_for};
    ghost use Rattle.daq_members.specs.EngineClients.{EngineClientSeen};

    ghost Value = { EngineClientSeen };

    ghost view = { λ c. record {
      engine = c.engine.now;
      client = c.number;
      calls = own_entries c.pass;
    } };

    ghost invariant = { λ c. (IsOf (engine_lock_of c.engine.now) c.pass)
        × (held_by c.pass ≡ None)
        × (number_of c.pass ≡ caller_of_client c.number)
        × (c.owed ≡ start_owed c.number (own_entries c.pass))
        × (are_calls_for c.number (own_entries c.pass) ≡ true) };
}

/// The start number of the turn that is owed, once the engine replied so.
fn owed_after(owed: Option<u32>, reply: &Polled) -> Option<u32>
    ensures { result ≡ owed_by owed reply.now }
{
    match (owed, reply) {
        (None, Polled::Turn { order, .. }) => Some(order.start),
        (owed, _) => owed,
    }
}

impl<'a> EngineClient<'a> {
    /// The client with this number, by a pass with its caller number that made no call yet.
    pub fn new(engine: &'a SharedEngine, pass: EnginePass, number: u32) -> EngineClient<'a>
        requires own { IsOf (engine_lock_of engine.now) pass }
        requires idle { held_by pass ≡ None }
        requires number { number_of pass ≡ caller_of_client number }
        requires fresh { own_entries pass ≡ [] }
        ensures engine { result.engine ≡ engine.now }
        ensures client { result.client ≡ number }
        ensures calls { result.calls ≡ [] }
    {
        EngineClient {
            engine,
            pass,
            number,
            owed: None,
        }
    }

    /// The client's number. All its calls so far are its own polls and answers.
    fn number(&self) -> u32
        ensures number { result ≡ self.now.client }
        ensures speaks { are_calls_for self.now.client self.now.calls ≡ true }
    {
        self.number
    }

    /// The start number of the turn that the client was given and has not answered, if there is one.
    fn owed(&self) -> Option<u32>
        ensures { result ≡ start_owed self.now.client self.now.calls }
    {
        self.owed
    }

    /// Asks once whether the client has its turn.
    fn poll<R: Wait>(&mut self, rt: &R) -> Polled
        ensures engine { self.new.engine ≡ self.old.engine }
        ensures client { self.new.client ≡ self.old.client }
        ensures asked { self.new.calls ≡ asked_so self.old.client self.old.calls result }
        ensures speaks { are_calls_for self.new.client self.new.calls ≡ true }
        ensures fair { IsFairTurn result }
    {
        let reply = self.engine.poll(rt, &mut self.pass, self.number);
        self.owed = owed_after(self.owed, &reply);
        reply
    }

    /// Gives the answer to the turn that is owed, if there is one.
    fn give<R: Wait>(&mut self, rt: &R, answer: Option<Answer>)
        ensures engine { self.new.engine ≡ self.old.engine }
        ensures client { self.new.client ≡ self.old.client }
        ensures gives { GivesAnswer self.old.client answer self.old.calls self.new.calls }
        ensures speaks { are_calls_for self.new.client self.new.calls ≡ true }
    {
        let number = self.number;
        let Some(answer) = answer else {
            return;
        };
        let _ = self.engine.answer(rt, &mut self.pass, number, answer);
        self.owed = None;
    }

    /// Gives the pass back.
    fn into_pass(self) -> EnginePass
        ensures calls { own_entries result ≡ self.entry.calls }
        ensures number { number_of result ≡ caller_of_client self.entry.client }
        ensures own { IsOf (engine_lock_of self.entry.engine) result }
        ensures idle { held_by result ≡ None }
    {
        let EngineClient { pass, .. } = self;
        pass
    }
}

/// A member's client at a shared engine, with what the member calls by besides the engine, as that stood when the member answered
/// last. It answers by one call alone, which keeps what stood then.
#[derive(Drop)]
pub(crate) struct MemberClient<'a, X> {
    client: EngineClient<'a>,
    stood: Snapshot<X>,
}

impl<'a, X> Model for MemberClient<'a, X> {
    ghost use Rattle.daq_members.specs.EngineClients.{MemberClientSeen};

    ghost Value = { MemberClientSeen X };

    ghost view = { λ c. record {
      engine = c.client.engine;
      client = c.client.client;
      calls = c.client.calls;
      stood = c.stood.value;
    } };
}

impl<'a, X> MemberClient<'a, X> {
    /// This client for a member that calls by these things besides the engine.
    pub(crate) fn new(client: EngineClient<'a>, beside: &X) -> MemberClient<'a, X>
        ensures { result ≡ at_first client.entry beside.now }
    {
        MemberClient {
            client,
            stood: Snapshot::of(beside),
        }
    }

    /// The client's number. All its calls so far are its own polls and answers.
    pub(crate) fn number(&self) -> u32
        ensures number { result ≡ self.now.client }
        ensures speaks { are_calls_for self.now.client self.now.calls ≡ true }
    {
        self.client.number()
    }

    /// The start number of the turn that the client was given and has not answered, if there is one.
    pub(crate) fn owed(&self) -> Option<u32>
        ensures { result ≡ start_owed self.now.client self.now.calls }
    {
        self.client.owed()
    }

    /// Asks once whether the client has its turn.
    pub(crate) fn poll<R: Wait>(&mut self, rt: &R) -> Polled
        ensures engine { self.new.engine ≡ self.old.engine }
        ensures client { self.new.client ≡ self.old.client }
        ensures asked { self.new.calls ≡ asked_so self.old.client self.old.calls result }
        ensures speaks { are_calls_for self.new.client self.new.calls ≡ true }
        ensures fair { IsFairTurn result }
    {
        self.client.poll(rt)
    }

    /// Gives the answer to the turn that is owed, if there is one, and keeps what stands beside the engine then.
    pub(crate) fn give<R: Wait>(&mut self, rt: &R, answer: Option<Answer>, beside: &X)
        ensures engine { self.new.engine ≡ self.old.engine }
        ensures client { self.new.client ≡ self.old.client }
        ensures gives { GivesAnswer self.old.client answer self.old.calls self.new.calls }
        ensures speaks { are_calls_for self.new.client self.new.calls ≡ true }
        ensures last { AnswersLast answer self.new.stood beside.now }
    {
        if answer.is_some() {
            self.stood = Snapshot::of(beside);
        }
        self.client.give(rt, answer);
    }

    /// Gives the pass back.
    pub(crate) fn into_pass(self) -> EnginePass
        ensures calls { own_entries result ≡ self.entry.calls }
        ensures number { number_of result ≡ caller_of_client self.entry.client }
        ensures own { IsOf (engine_lock_of self.entry.engine) result }
        ensures idle { held_by result ≡ None }
    {
        self.client.into_pass()
    }
}
