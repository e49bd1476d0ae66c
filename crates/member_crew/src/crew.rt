// The members of a session, which the main thread gives their turns.
use crate::context::TurnContext;
use crate::member::{end_from, turn_on};
use crate::{MemberList, Rounds, TakesTurns, Turned};
use daq_io::{Gate, Pick};
use std::marker::Model;
use std::sync::Wait;

/// The members of a crew and its pick, each for itself.
#[derive(Drop)]
pub struct CrewParts<M, K> {
    pub members: MemberList<M>,
    pub pick: K,
}

/// The members of a session, which the main thread gives their turns, and the pick, which names in each round the member that
/// has its turn first. There is at least one member, and there are at most 64. Each has its place as its number. One of which a
/// turn came to `Ended` has no turn more.
#[derive(Drop)]
pub struct Crew<'a, M: TakesTurns, K: Pick, G: Gate> {
    members: MemberList<M>,
    /// Whether a turn of the member of this number came to `Ended`.
    ended: [bool; 64],
    pick: K,
    gate: &'a G,
}

impl<'a, M: TakesTurns, K: Pick, G: Gate> Model for Crew<'a, M, K, G> {
    ghost use Rattle.std.specs.Prelude.{◌<◌, ◌≤◌, length};
    ghost use Rattle.member_crew.specs.Turns.{MemberSoFar};
    ghost use Rattle.member_crew.specs.Crews.{CrewInRounds, members_so_far};

    ghost Value = { CrewInRounds (MemberSoFar M) K };

    ghost view = { λ c. record { members = members_so_far c.members c.ended; pick = c.pick } };

    ghost invariant = { λ c. (0 < length c.members) × (length c.members ≤ 64) };
}

impl<'a, M: TakesTurns, K: Pick, G: Gate> Crew<'a, M, K, G> {
    ghost use Rattle.std.specs.Prelude.{◌≡◌, ◌<◌, ◌≤◌, [], length};
    ghost use Rattle.std.specs.List.{AllZip};
    ghost use Rattle.member_crew.specs.Turns.{ChangesPlace, EndsFrom, TurnsAt, TurnsOn};
    ghost use Rattle.member_crew.specs.Crews.{PicksMember, TurnFrom, members_so_far};

    /// A crew of these members, who pass this gate.
    pub fn new(parts: CrewParts<M, K>, gate: &'a G) -> Crew<'a, M, K, G>
        requires some { 0 < length parts.members }
        requires few { length parts.members ≤ 64 }
        ensures members { result.members ≡ members_so_far parts.members [] }
        ensures pick { result.pick ≡ parts.pick }
    {
        let CrewParts { members, pick } = parts;
        Crew {
            members,
            ended: [false; 64],
            pick,
            gate,
        }
    }

    /// How many members there are.
    fn count(&self) -> u32
        ensures count { result ≡ length self.now.members }
        ensures some { 0 < result }
        ensures few { result ≤ 64 }
    {
        self.members.len() as u32
    }

    /// One turn of the member of this number, but none where one came to `Ended` before.
    fn turn<R: Wait>(&mut self, rt: &R, number: u32) -> Turned
        requires { number < length self.old.members }
        ensures turn { TurnsAt (TurnsOn M.turns) number self.old.members self.new.members result }
        ensures pick { self.new.pick ≡ self.old.pick }
    {
        let Some(member) = self.members.get_mut(number as usize) else {
            unreachable!()
        };
        turn_on(rt, self.gate, member, &mut self.ended[number as usize])
    }

    /// The number of the member that has the first turn of a round.
    fn choose(&mut self) -> u32
        ensures pick { PicksMember K.told (length self.old.members) result self.old.pick
            self.new.pick }
        ensures members { self.new.members ≡ self.old.members }
    {
        let count = self.count();
        self.pick.first(count)
    }

    /// One turn of each member that has not ended, that of this number first, and the others behind it in cyclic order.
    fn turn_all<R: Wait>(&mut self, rt: &R, first: u32)
        requires { first < length self.old.members }
        ensures turns { TurnFrom (TurnsOn M.turns) first (length self.old.members)
            self.old.members self.new.members }
        ensures pick { self.new.pick ≡ self.old.pick }
    {
        let count = self.count();
        for step in 0..count {
            self.turn(rt, (first + step) % count);
        }
    }

    /// The last turns of the member at this place: none where one came to `Ended` before.
    fn end_at<R: Wait>(&mut self, rt: &R, context: &TurnContext<G>, place: usize)
        requires { place < length self.old.members }
        ensures ends { ChangesPlace (λ was later. EndsFrom M.turns was.ended was.member
            later.member) place self.old.members self.new.members }
        ensures pick { self.new.pick ≡ self.old.pick }
    {
        let Some(member) = self.members.get_mut(place) else {
            unreachable!()
        };
        end_from(rt, context, member, self.ended[place]);
    }

    /// The last turns of each member, in order: none of one that has ended.
    fn end_all<R: Wait>(&mut self, rt: &R)
        ensures ends { AllZip (λ was later. EndsFrom M.turns was.ended was.member later.member)
            self.old.members self.new.members }
        ensures pick { self.new.pick ≡ self.old.pick }
    {
        let context = TurnContext::new(self.gate);
        for place in 0..self.members.len() {
            self.end_at(rt, &context, place);
        }
    }

    /// The members, each behind its last turn, and the pick, given back.
    pub fn into_ended<R: Wait>(mut self, rt: &R) -> CrewParts<M, K>
        ensures ends { AllZip (λ was later. EndsFrom M.turns was.ended was.member later)
            self.entry.members result.members }
        ensures pick { result.pick ≡ self.entry.pick }
    {
        self.end_all(rt);
        let Crew { members, pick, .. } = self;
        CrewParts { members, pick }
    }
}

impl<'a, M: TakesTurns, K: Pick, G: Gate> Rounds for Crew<'a, M, K, G> {
    ghost use Rattle.member_crew.specs.Turns.{TurnsOn};
    ghost use Rattle.member_crew.specs.Crews.{TakesRound};

    ghost round = { TakesRound (TurnsOn M.turns) K.told };

    /// One turn of each member that has not ended, the picked one first, and the others behind it in cyclic order.
    fn round<R: Wait>(&mut self, rt: &R) {
        let first = self.choose();
        self.turn_all(rt, first);
    }
}
