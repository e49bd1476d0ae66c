// A member of a session, of whatever kind it is.
ghost use Rattle.std.specs.Prelude.{◌≡◌, All};
ghost use Rattle.daq_members.specs.Members.{KeepsContract, TurnsMember, client_of, member_told};

use crate::{AnalyzerMember, FrontMember, LoggerMember};
use buffer_core::BufferPort;
use daq_io::{Files, Gate};
use front_ends::Equipment;
use member_crew::{TakesTurns, Turned};
use odb_watch::WatchPort;
use std::marker::Model;
use std::sync::Wait;

/// The kinds of members.
#[derive(Drop)]
pub enum MemberKind<'a, X: Equipment, P: BufferPort, D: WatchPort, F: Files> {
    FrontEnd(FrontMember<'a, X, P, D>),
    Logger(LoggerMember<'a, P, F>),
    Analyzer(AnalyzerMember<'a, P>),
}

/// A member of a session: a front-end, the logger or an analyzer. It keeps its contract at every moment.
#[derive(Drop)]
pub struct Member<'a, X: Equipment, P: BufferPort, D: WatchPort, F: Files> {
    kind: MemberKind<'a, X, P, D, F>,
}

impl<'a, X: Equipment, P: BufferPort, D: WatchPort, F: Files> Model for Member<'a, X, P, D, F> {
    ghost use Rattle.daq_members.specs.Members.{MemberSeen};

    ghost Value = { MemberSeen X F };

    ghost use Rattle.daq_members.specs.Members.{KeepsContract, member_told};
    ghost use Rattle.daq_members.specs.Kinds.{member_seen};

    ghost view = { λ m. member_seen m.kind };

    ghost invariant = { λ m. KeepsContract
        (member_told X.takes X.makes F.told) (member_seen m.kind) };
}

impl<'a, X: Equipment, P: BufferPort, D: WatchPort, F: Files> MemberKind<'a, X, P, D, F> {
    ghost use Rattle.daq_members.specs.Kinds.{member_seen};

    /// The member's client number. It keeps its contract at every moment.
    pub fn client(&self) -> u32
        ensures number { result ≡ client_of (member_seen self.now) }
        ensures keeps { KeepsContract (member_told X.takes X.makes F.told) (member_seen self.now) }
    {
        match self {
            MemberKind::FrontEnd(front) => front.client(),
            MemberKind::Logger(logger) => logger.client(),
            MemberKind::Analyzer(analyzer) => analyzer.client(),
        }
    }
}

impl<'a, X: Equipment, P: BufferPort, D: WatchPort, F: Files> Member<'a, X, P, D, F> {
    ghost use Rattle.daq_members.specs.Kinds.{member_seen};

    /// The member of this kind.
    pub fn new(kind: MemberKind<'a, X, P, D, F>) -> Member<'a, X, P, D, F>
        ensures { result ≡ member_seen kind.entry }
    {
        kind.client();
        Member { kind }
    }

    /// The member's client number. It keeps its contract at every moment.
    pub fn client(&self) -> u32
        ensures number { result ≡ client_of self.now }
        ensures keeps { KeepsContract (member_told X.takes X.makes F.told) self.now }
    {
        self.kind.client()
    }

    /// One turn, by the member's kind.
    pub fn turn<R: Wait, G: Gate>(&mut self, rt: &R, gate: &G) -> Turned
        ensures turns { TurnsMember (member_told X.takes X.makes F.told) self.old self.new result }
        ensures keeps { KeepsContract (member_told X.takes X.makes F.told) self.new }
    {
        match &mut self.kind {
            MemberKind::FrontEnd(front) => front.turn(rt, gate),
            MemberKind::Logger(logger) => logger.turn(rt, gate),
            MemberKind::Analyzer(analyzer) => analyzer.turn(rt, gate),
        }
    }

    /// The member by its kind, given back.
    pub fn into_kind(self) -> MemberKind<'a, X, P, D, F>
        ensures kind { member_seen result ≡ self.entry }
        ensures keeps { KeepsContract (member_told X.takes X.makes F.told) self.entry }
    {
        self.kind
    }
}

impl<'a, X: Equipment, P: BufferPort, D: WatchPort, F: Files> TakesTurns
    for Member<'a, X, P, D, F> {
    ghost use Rattle.daq_members.specs.Members.{TurnsMember, member_told};

    ghost turns = { TurnsMember (member_told X.takes X.makes F.told) };

    fn turn<R: Wait, G: Gate>(&mut self, rt: &R, gate: &G) -> Turned {
        self.turn(rt, gate)
    }
}

/// Learns what each of these members keeps.
pub fn ask_all<'a, X: Equipment, P: BufferPort, D: WatchPort, F: Files>(
    members: &[Member<'a, X, P, D, F>],
)
    ensures { All (KeepsContract (member_told X.takes X.makes F.told)) members.now }
{
    for member in members {
        member.client();
    }
}
