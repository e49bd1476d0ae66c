// A member's port to its buffer, with the moments of the member's turns.
ghost use Rattle.std.specs.Prelude.{◌≡◌, ◌≤◌, ◌∷◌, [], length};
ghost use Rattle.member_model.specs.Moments.{moments_answered};
ghost use Rattle.loggers.specs.Moments.{IsSameAccess};
ghost use Rattle.daq_members.specs.FrontTaken.{StepsOnce, KeepsAtStep};
ghost use Rattle.daq_members.specs.TracedPorts.{untraced};

use buffer_core::BufferPort;
use daq_io::ByteTrace;
use front_ends::{Equipment, FrontEnd, FrontStep};
use member_model::Answer;
use std::marker::Model;
use std::snapshot::Snapshot;
use std::sync::Wait;

/// A call on the buffer, as an act of the member.
const CALLED: u8 = 0;

/// A new turn that it took.
const TAKEN: u8 = 1;

/// Its answer to the latest turn.
const ANSWERED: u8 = 2;

/// A front-end's own port to its buffer, with a trace of its acts since it has that: each call that it made there, each turn that it
/// took, and each answer that it gave. So contracts know the moments of its turns. The trace has no bytes.
#[derive(Drop)]
pub(crate) struct TracedPort<P: BufferPort> {
    port: P,
    first: Snapshot<P>,
    acts: ByteTrace,
}

impl<P: BufferPort> Model for TracedPort<P> {
    ghost use Rattle.std.specs.Prelude.{◌≡◌, length};
    ghost use Rattle.daq_members.specs.TracedPorts.{TracedPortSeen, acts_since, traced_port};

    ghost Value = { TracedPortSeen };

    ghost view = { λ p. traced_port (P.access p.port) (P.access p.first.value) p.acts };

    ghost invariant = { λ p. (acts_since (P.access p.first.value) p.acts).calls
        ≡ length (P.access p.port).own };
}

impl<P: BufferPort> TracedPort<P> {
    /// This port, for a front-end that took no turn yet.
    pub(crate) fn new(port: P) -> TracedPort<P>
        ensures { result ≡ untraced (P.access port) }
    {
        let first = Snapshot::of(&port);
        TracedPort {
            port,
            first,
            acts: ByteTrace::new(),
        }
    }

    /// One step of the front-end. Its call, if it makes one, is traced.
    pub(crate) fn step<R: Wait, X: Equipment>(
        &mut self,
        rt: &R,
        front: &mut FrontEnd<X>,
    ) -> FrontStep
        requires size { 104 ≤ self.old.access.size }
        ensures steps { StepsOnce X.makes front.old front.new self.old.access self.new.access
            result }
        ensures takes_as { X.takes front.new.equipment ≡ X.takes front.old.equipment }
        ensures makes_as { X.makes front.new.equipment ≡ X.makes front.old.equipment }
        ensures same_port { IsSameAccess self.old.access self.new.access }
        ensures moments { self.new.moments ≡ self.old.moments }
        ensures keeps { KeepsAtStep X.takes X.makes front.old front.new self.old.access
            self.new.access }
    {
        let step = front.step(rt, &mut self.port);
        if step != FrontStep::NoWork {
            self.acts.more(&[CALLED], 1);
        }
        step
    }

    /// The front-end takes a new turn.
    pub(crate) fn take_turn(&mut self)
        ensures access { self.new.access ≡ self.old.access }
        ensures moments { self.new.moments ≡ length self.old.access.own ∷ self.old.moments }
    {
        self.acts.more(&[TAKEN], 1);
    }

    /// The front-end answers its latest turn, if this is an answer.
    pub(crate) fn answer_turn(&mut self, answer: &Option<Answer>)
        ensures access { self.new.access ≡ self.old.access }
        ensures moments { self.new.moments
            ≡ moments_answered self.old.moments answer.now (length self.old.access.own) }
    {
        if answer.is_some() {
            self.acts.more(&[ANSWERED], 1);
        }
    }

    /// Gives the port back.
    pub(crate) fn into_port(self) -> P
        ensures { P.access result ≡ self.access }
    {
        self.port
    }
}
