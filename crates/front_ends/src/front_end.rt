ghost use Rattle.std.specs.Prelude.{◌≡◌, ◌<◌, ◌≤◌, ◌↔◌, ℕ, suc, List, [], ◌∷◌, length, Option, Some, None, IfOk, true, false};
ghost use Rattle.std.specs.Option.{option_map};
ghost use Rattle.daq_types.specs.declared.events.Event.{Event};
ghost use Rattle.buffer_core.specs.declared.entry.BufferEntry.TheVariants.{SendInRun};
ghost use Rattle.buffer_core.specs.Ports.{Calls};
ghost use Rattle.buffer_core.specs.declared.entry.BufferEntry.{BufferEntry};
ghost use Rattle.member_model.specs.Turns.{MemberTurn, NoneOpen, IsOfRun, AreEngineTurns, latest_answered};
ghost use Rattle.member_model.specs.Moments.{moments_answered};
ghost use Rattle.member_model.specs.SentCalls.{own_sent};
ghost use Rattle.front_ends.specs.declared.front_step.FrontStep.TheVariants.{NoWork};
ghost use Rattle.transitions.specs.declared.answers.Answer.TheVariants.{Yes};
ghost use Rattle.transitions.specs.declared.answers.Tally.TheVariants.{Plain};
ghost use Rattle.front_ends.specs.Fronts.{is_done, is_over, front_tally, begun_run, paused_run, stop_answer, stopped_run, IsStepOf, HasStep, run_sent, front_answer, run_after, finish_answer, run_finished, is_at_work, events_sent, SendsNext, front_turn};
ghost use Rattle.front_ends.specs.FrontIds.{event_room};
ghost use Rattle.front_ends.specs.FrontKept.{IsInRun, FrontStands, KeepsMoments};

use crate::equipment::Equipment;
use crate::front_run::FrontRun;
use crate::front_step::FrontStep;
use buffer_core::{BufferPort, SendRefusal};
use daq_types::{FrontEnded, NoMemory, Order, RunState, Transition, Why};
use event::EventBuf;
use frontend_kit::EVENT_ROOM;
use member_model::{Answer, Tally};
use std::alloc::Global;
use std::marker::Model;
use std::sync::Wait;

/// A front-end: it takes part in runs by its turns, and sends the events of its equipment into a buffer, one a step. Only
/// `new` takes memory.
#[derive(Drop)]
pub struct FrontEnd<X: Equipment> {
    equipment: X,
    event: EventBuf,
    run: Option<FrontRun>,
}

impl<X: Equipment> Model for FrontEnd<X> {
    ghost use Rattle.std.specs.Prelude.{◌≤◌};
    ghost use Rattle.front_ends.specs.FrontIds.{event_room};
    ghost use Rattle.front_ends.specs.Fronts.{FrontState, IsWithinQuota};

    ghost Value = { FrontState X };

    ghost view = { λ f. record { equipment = f.equipment; run = f.run } };

    ghost invariant = { λ f. X.fit f.equipment × (event_room ≤ f.event.room)
        × IsWithinQuota f.run };
}

/// Whether the front-end has nothing more to send in the run.
fn has_done(run: &FrontRun) -> bool
    ensures { result ≡ is_done run.now }
{
    run.order.quota <= run.sent || run.spent.is_some()
}

/// What the front-end tells at a stop that came in this state.
fn told_of(run: &FrontRun, from: RunState) -> Answer
    ensures { result ≡ Yes (front_tally run.now from) }
{
    let ended = match run.spent {
        Some(total) => FrontEnded::Spent { total },
        None => match from {
            RunState::Paused => FrontEnded::Paused,
            RunState::Stopped | RunState::Running => FrontEnded::Quota,
        },
    };
    Answer::Yes(Tally::Front {
        sent: run.sent as u64,
        ended,
    })
}

/// What a turn is answered that needs no more.
fn plain() -> Answer
    ensures { result ≡ Yes Plain }
{
    Answer::Yes(Tally::Plain)
}

/// A run of this order, of which nothing was sent.
fn new_run(order: &Order) -> FrontRun
    ensures { result ≡ begun_run order.now }
{
    FrontRun {
        order: *order,
        paused: false,
        sent: 0,
        spent: None,
        stop: None,
    }
}

/// Whether a stop of the run can be answered at once.
fn can_end(run: &FrontRun, order: &Order) -> bool
    ensures { result ≡ is_over run.now order.now }
{
    has_done(run) || order.from == RunState::Paused
}

/// What a stop of the run is answered: nothing yet, while there are events to be sent.
fn answer_of_stop(run: Option<FrontRun>, order: &Order) -> Option<Answer>
    ensures { result ≡ stop_answer run order.now }
{
    let Some(run) = run else {
        return Some(plain());
    };
    if run.order.start != order.start {
        return Some(plain());
    }
    if can_end(&run, order) {
        return Some(told_of(&run, order.from));
    }
    None
}

/// The run behind a stop.
fn run_behind_stop(run: Option<FrontRun>, order: &Order) -> Option<FrontRun>
    ensures { result ≡ stopped_run run order.now }
{
    let run = run?;
    if run.order.start != order.start {
        return Some(run);
    }
    if can_end(&run, order) {
        return None;
    }
    Some(FrontRun {
        stop: Some(*order),
        ..run
    })
}

/// The run, paused or not.
fn run_paused(run: Option<FrontRun>, paused: bool) -> Option<FrontRun>
    ensures { result ≡ option_map (paused_run paused) run }
{
    let run = run?;
    Some(FrontRun { paused, ..run })
}

/// What a turn is answered; None where the answer has to wait.
fn answer_of_turn(
    takes: bool,
    run: Option<FrontRun>,
    transition: Transition,
    order: &Order,
) -> Option<Answer>
    ensures { result ≡ front_answer takes run transition order.now }
{
    match transition {
        Transition::Start if !takes => Some(Answer::No(Why::NotReady)),
        Transition::Stop => answer_of_stop(run, order),
        _ => Some(plain()),
    }
}

/// The run behind a turn.
fn run_behind_turn(
    takes: bool,
    run: Option<FrontRun>,
    transition: Transition,
    order: &Order,
) -> Option<FrontRun>
    ensures { result ≡ run_after takes run transition order.now }
{
    match transition {
        Transition::Start if takes => Some(new_run(order)),
        Transition::Start => run,
        Transition::Stop => run_behind_stop(run, order),
        Transition::Pause => run_paused(run, true),
        Transition::Resume => run_paused(run, false),
        Transition::StartAbort => None,
    }
}

/// How many events of this run were sent, where it has this start number.
fn sent_of(run: Option<FrontRun>, start: u32) -> u64
    ensures { result ≡ events_sent run start }
{
    match run {
        Some(run) if run.order.start == start => run.sent as u64,
        _ => 0,
    }
}

/// What a send came to.
fn step_of(reply: Result<u64, SendRefusal>) -> FrontStep
    requires { HasStep reply }
    ensures { IsStepOf reply result }
{
    match reply {
        Ok(place) => FrontStep::Sent { place },
        Err(SendRefusal::Full { client, place }) => FrontStep::Held { client, place },
        Err(SendRefusal::NotRunning { gate }) => FrontStep::Shut { gate },
        Err(SendRefusal::Spent { total }) => FrontStep::Spent { total },
        Err(SendRefusal::BadSize { .. }) => unreachable!(),
        Err(SendRefusal::ReservedId { .. }) => unreachable!(),
        Err(SendRefusal::TooLarge { .. }) => unreachable!(),
    }
}

/// The run behind a send.
fn run_behind_send(run: FrontRun, reply: Result<u64, SendRefusal>) -> FrontRun
    requires { run.sent < run.order.quota }
    ensures { result ≡ run_sent reply run }
{
    match reply {
        Ok(_) => FrontRun {
            sent: run.sent + 1,
            ..run
        },
        Err(SendRefusal::Spent { total }) => FrontRun {
            spent: Some(total),
            ..run
        },
        Err(_) => run,
    }
}

impl<X: Equipment> FrontEnd<X> {
    /// A front-end with this equipment, in no run.
    pub fn new(alloc: Global, equipment: X) -> Result<FrontEnd<X>, NoMemory>
        requires { X.fit equipment }
        ensures made { IfOk result (λ front. front ≡ record { equipment = equipment; run = None }) }
        ensures stands { IfOk result
            (λ front. FrontStands (X.takes equipment) (X.makes equipment) front.run [] []) }
        ensures moments { KeepsMoments [] [] [] }
    {
        let event = EventBuf::new(alloc, EVENT_ROOM)?;
        Ok(FrontEnd {
            equipment,
            event,
            run: None,
        })
    }

    /// Takes a turn. The answer is None exactly at a stop of the run that the front-end takes part in, where that is not
    /// paused, its quota is not sent, and the buffer is not spent; `finish` gives the answer then. A start is refused
    /// exactly where the equipment does not take part in such a run. Between two turns the answer to the first was given.
    pub fn on_turn(&mut self, transition: Transition, order: &Order) -> Option<Answer>
        ensures answer { result ≡ front_answer (X.takes self.old.equipment order.now)
            self.old.run transition order.now }
        ensures after { self.new ≡ record self.old {
          run = run_after
              (X.takes self.old.equipment order.now) self.old.run transition order.now;
        } }
        ensures keeps { (own : List BufferEntry) → (dump : Option (List ℕ)) →
            (turns : List MemberTurn) → NoneOpen turns →
            FrontStands (X.takes self.old.equipment) (X.makes self.old.equipment)
            self.old.run own turns →
            FrontStands (X.takes self.new.equipment) (X.makes self.new.equipment)
            self.new.run own (front_turn dump transition order.now result ∷ turns) }
        ensures moments { (own : List BufferEntry) → (dump : Option (List ℕ)) →
            (turns : List MemberTurn) → (moments : List ℕ) →
            KeepsMoments own turns moments →
            KeepsMoments own (front_turn dump transition order.now result ∷ turns)
            (length own ∷ moments) }
    {
        let takes = self.equipment.check(order);
        let answer = answer_of_turn(takes, self.run, transition, order);
        self.run = run_behind_turn(takes, self.run, transition, order);
        answer
    }

    /// Sends the next event of the run, or nothing where none is to be sent: before the run's accepted start and after its
    /// stop, while it is paused, once the quota was sent, and once the buffer was spent.
    pub fn step<R: Wait, P: BufferPort>(&mut self, rt: &R, port: &mut P) -> FrontStep
        requires size { 104 ≤ (P.access port.old).size }
        ensures nothing { result ≡ NoWork ↔ (is_at_work self.old.run ≡ false) }
        ensures idle { is_at_work self.old.run ≡ false → self.new ≡ self.old }
        ensures quiet { is_at_work self.old.run ≡ false → P.access port.new ≡ P.access port.old }
        ensures sends { is_at_work self.old.run ≡ true → SendsNext (X.makes self.old.equipment)
            self.old.run self.new.run (P.access port.old) (P.access port.new) result }
        ensures size { (P.access port.new).size ≡ (P.access port.old).size }
        ensures makes { X.makes self.new.equipment ≡ X.makes self.old.equipment }
        ensures takes { X.takes self.new.equipment ≡ X.takes self.old.equipment }
        ensures keeps { (turns : List MemberTurn) →
            FrontStands (X.takes self.old.equipment) (X.makes self.old.equipment)
            self.old.run (P.access port.old).own turns →
            FrontStands (X.takes self.new.equipment) (X.makes self.new.equipment)
            self.new.run (P.access port.new).own turns }
        ensures moments { (turns : List MemberTurn) → (moments : List ℕ) →
            FrontStands (X.takes self.old.equipment) (X.makes self.old.equipment)
            self.old.run (P.access port.old).own turns →
            KeepsMoments (P.access port.old).own turns moments →
            KeepsMoments (P.access port.new).own turns moments }
    {
        let Some(run) = self.run else {
            return FrontStep::NoWork;
        };
        if run.paused || has_done(&run) {
            return FrontStep::NoWork;
        }
        let reply = self.send_next(rt, port, run);
        self.run = Some(run_behind_send(run, reply));
        step_of(reply)
    }

    /// Sends the next event of this run.
    fn send_next<R: Wait, P: BufferPort>(
        &mut self,
        rt: &R,
        port: &mut P,
        run: FrontRun,
    ) -> Result<u64, SendRefusal>
        requires more { run.sent < run.order.quota }
        requires size { 104 ≤ (P.access port.old).size }
        ensures step { HasStep result }
        ensures run { self.new.run ≡ self.old.run }
        ensures sent { let event : Event = X.makes self.old.equipment run.order (suc run.sent) in
            Calls (P.access port.old) (P.access port.new)
            (SendInRun run.order.start (length event.body) event result) }
        ensures makes { X.makes self.new.equipment ≡ X.makes self.old.equipment }
        ensures takes { X.takes self.new.equipment ≡ X.takes self.old.equipment }
    {
        self.equipment
            .event(&run.order, run.sent + 1, &mut self.event);
        let header = self.event.header();
        port.send_in_run(rt, run.order.start, &header, self.event.body())
    }

    /// How many events were sent in the run with this start number; 0 where the front-end does not take part in it. That is
    /// the number of its accepted sends in that run, while it takes part in it, and before it was called for its start.
    pub fn sent_in(&self, start: u32) -> u64
        ensures number { result ≡ events_sent self.now.run start }
        ensures in_run { (own : List BufferEntry) → (turns : List MemberTurn) →
            FrontStands (X.takes self.now.equipment) (X.makes self.now.equipment)
            self.now.run own turns →
            AreEngineTurns turns → IsInRun self.now.run start →
            length (own_sent own start) ≡ result }
        ensures of_run { (own : List BufferEntry) → (turns : List MemberTurn) →
            FrontStands (X.takes self.now.equipment) (X.makes self.now.equipment)
            self.now.run own turns →
            AreEngineTurns turns → IsOfRun start turns →
            length (own_sent own start) ≡ result }
    {
        sent_of(self.run, start)
    }

    /// The answer to the stop that waits, once the quota was sent or the buffer was spent. None exactly where no stop waits,
    /// or there is more to send.
    pub fn finish(&mut self) -> Option<Answer>
        ensures answer { result ≡ finish_answer self.old.run }
        ensures after { self.new ≡ record self.old { run = run_finished self.old.run result } }
        ensures keeps { (own : List BufferEntry) → (turns : List MemberTurn) →
            FrontStands (X.takes self.old.equipment) (X.makes self.old.equipment)
            self.old.run own turns →
            FrontStands (X.takes self.new.equipment) (X.makes self.new.equipment)
            self.new.run own (latest_answered turns result) }
        ensures moments { (own : List BufferEntry) → (turns : List MemberTurn)
            → (moments : List ℕ) →
            FrontStands (X.takes self.old.equipment) (X.makes self.old.equipment)
            self.old.run own turns →
            KeepsMoments own turns moments →
            KeepsMoments own (latest_answered turns result)
            (moments_answered moments result (length own)) }
    {
        let run = self.run?;
        let stop = run.stop?;
        if !has_done(&run) {
            return None;
        }
        self.run = None;
        Some(told_of(&run, stop.from))
    }
}
