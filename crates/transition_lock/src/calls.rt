// The calls on an engine under its lock.
ghost use Rattle.std.specs.Prelude.{◌≡◌, [], IfErr};
ghost use Rattle.daq_types.specs.Callers.{main_caller};
ghost use Rattle.transitions.specs.declared.entry.EngineEntry.TheVariants.{Register as register_of, Begin as begin_of, Poll as poll_of, Answer as answer_of, Check as check_of, Close as close_of};
ghost use Rattle.transitions.specs.EngineCalls.{without_return};
ghost use Rattle.member_model.specs.RunEngines.{IsSheet, IsFairTurn};

use crate::locked::LockedEngine;
use daq_types::{Name, Transition};
use member_model::{Answer, Polled, Sheet, Tallies};
use transitions::{BeginRefusal, InProgress, NotYourTurn, Progress, RegisterRefusal, Sequences};
use turn_lock::Call;

#[derive(Drop)]
pub(crate) struct Register {
    pub(crate) name: Name,
    pub(crate) sequences: Sequences,
    pub(crate) wants_dump: bool,
    pub(crate) wants_report: bool,
}

impl Call<LockedEngine> for Register {
    type Reply = Result<u32, RegisterRefusal>;

    type Into = ();

    ghost may = { λ _ _ number. number ≡ main_caller };

    ghost entry = { λ call _ reply _. register_of call.name call.sequences call.wants_dump
        call.wants_report reply };

    fn make(self, value: &mut LockedEngine, _into: &mut ()) -> Result<u32, RegisterRefusal> {
        value.engine.register(
            self.name,
            self.sequences,
            self.wants_dump,
            self.wants_report,
        )
    }
}

#[derive(Drop)]
pub(crate) struct Begin {
    pub(crate) transition: Transition,
    pub(crate) sheet: Sheet,
}

impl Call<LockedEngine> for Begin {
    type Reply = Result<u32, (BeginRefusal, Sheet)>;

    type Into = ();

    ghost may = { λ call _ number. (number ≡ main_caller) × IsSheet call.sheet };

    ghost entry = { λ call _ reply _. begin_of call.transition call.sheet (without_return reply) };

    ghost tells = { λ call _ reply _ _. IfErr reply (λ refused. refused.1 ≡ call.sheet) };

    fn make(self, value: &mut LockedEngine, _into: &mut ()) -> Result<u32, (BeginRefusal, Sheet)> {
        value.engine.begin(self.transition, self.sheet)
    }
}

#[derive(Drop)]
pub(crate) struct Poll {
    pub(crate) client: u32,
}

impl Call<LockedEngine> for Poll {
    type Reply = Polled;

    type Into = ();

    ghost entry = { λ call _ reply _. poll_of call.client reply };

    ghost tells = { λ _ _ reply _ _. IsFairTurn reply };

    #[inline(always)]
    fn make(self, value: &mut LockedEngine, _into: &mut ()) -> Polled {
        value.engine.poll(self.client)
    }
}

#[derive(Drop)]
pub(crate) struct AnswerTurn {
    pub(crate) client: u32,
    pub(crate) answer: Answer,
}

impl Call<LockedEngine> for AnswerTurn {
    type Reply = Result<(), (NotYourTurn, Answer)>;

    type Into = ();

    ghost entry = { λ call _ reply _. answer_of call.client call.answer (without_return reply) };

    ghost tells = { λ call _ reply _ _. IfErr reply (λ refused. refused.1 ≡ call.answer) };

    fn make(self, value: &mut LockedEngine, _into: &mut ()) -> Result<(), (NotYourTurn, Answer)> {
        value.engine.answer(self.client, self.answer)
    }
}

/// It writes the tallies that the engine moves out.
#[derive(Drop)]
pub(crate) struct Check;

impl Call<LockedEngine> for Check {
    type Reply = Progress;

    type Into = Tallies;

    ghost may = { λ _ tallies number. (number ≡ main_caller) × (tallies ≡ []) };

    ghost entry = { λ _ _ reply tallies. check_of reply tallies };

    fn make(self, value: &mut LockedEngine, into: &mut Tallies) -> Progress {
        value.engine.check(into)
    }
}

#[derive(Drop)]
pub(crate) struct Close;

impl Call<LockedEngine> for Close {
    type Reply = Result<(), InProgress>;

    type Into = ();

    ghost may = { λ _ _ number. number ≡ main_caller };

    ghost entry = { λ _ _ reply _. close_of reply };

    fn make(self, value: &mut LockedEngine, _into: &mut ()) -> Result<(), InProgress> {
        value.engine.close()
    }
}
