//! Worked rows of the engine, as tables of calls with what they answer.
ghost use Rattle.std.specs.List.{AllByRecursion};
ghost use Rattle.std.specs.Prelude.{IfOk};
ghost use Rattle.event_report.specs.Reports.{IsBlank};
ghost use Rattle.member_model.specs.RunEngines.{IsSheet};

use daq_types::{Bytes, FrontEnded, Name, NoMemory, RunState, StartOutcome, Transition, Why};
use event_report::Report;
use member_model::{Answer, Engine, Polled, Reports, Sheet, Tallies, Tally};
use std::alloc::Global;
use std::process::Abort;
use std::test::Fail;
use transitions::{BeginRefusal, Progress, RegisterRefusal, Sequences};

/// What a poll found; of a turn whether it has the dump and whether it has a blank report.
#[derive(Clone, Copy, PartialEq, Eq)]
enum Found {
    Turn(Transition, bool, bool),
    Idle(RunState),
    Closed,
    NoClient,
}

/// A call and what it answers.
#[derive(Clone, Copy)]
enum Call {
    Register(Result<u32, RegisterRefusal>),
    /// So many clients, which get the numbers from 0 on.
    RegisterMany(u32),
    Begin(Transition, Result<u32, BeginRefusal>),
    /// By a sheet without dump and blank reports.
    BeginBare(Transition, Result<u32, BeginRefusal>),
    /// What is refused hands its sheet back.
    BeginInVain(Transition),
    Poll(u32, Found),
    /// Whether the answer is accepted.
    Yes(u32, bool),
    /// The client counts what it sent.
    YesCounted(u32, bool),
    No(u32, bool),
    /// What is refused hands the answer back.
    NoInVain(u32),
    /// Each client below this number finds this turn and answers Yes to it.
    AllYes(u32, Found),
    /// And how many tallies move out.
    Check(Progress, usize),
    /// And what the three tallies that move out tell at the first four places.
    CheckThree(Progress, &'static [Option<(u32, bool)>; 4]),
    /// And which clients the tallies that move out are of, in order.
    CheckClients(Progress, &'static [u32]),
    /// Whether the engine is closed.
    Close(bool),
}

use Call::*;
use Transition::{Pause, Start, StartAbort, Stop};

const DONE: Progress = Progress::Done {
    outcome: StartOutcome::Completed,
};

fn two_blanks(alloc: Global) -> Result<Reports, NoMemory>
    ensures { IfOk result (AllByRecursion IsBlank) }
{
    let mut reports = Vec::new(alloc);
    reports.push(Report::new(alloc)?)?;
    reports.push(Report::new(alloc)?)?;
    Ok(Reports::of(reports))
}

/// A sheet with a dump and two blank reports.
fn new_sheet(alloc: Global) -> Result<Sheet, NoMemory>
    ensures { IfOk result IsSheet }
{
    let dump = [7].to_vec(alloc)?;
    Ok(Sheet {
        run: 1,
        time: 1000,
        quota: 0,
        dump: Some(Bytes::of(dump)),
        blanks: two_blanks(alloc)?,
    })
}

/// A sheet without dump and blank reports.
fn bare_sheet(alloc: Global) -> Sheet
    ensures { IsSheet result }
{
    Sheet {
        run: 1,
        time: 1000,
        quota: 0,
        dump: None,
        blanks: Reports::of(Vec::new(alloc)),
    }
}

/// A client that is called by this number, and by that one for start-abort.
fn register(
    engine: &mut Engine,
    sequence: u32,
    start_abort: u32,
    wants: bool,
) -> Result<u32, RegisterRefusal> {
    let Ok(name) = Name::new(b"FE") else {
        return Err(RegisterRefusal::NoSlot);
    };
    let sequences = Sequences {
        start: Some(sequence),
        stop: Some(sequence),
        pause: None,
        resume: None,
        start_abort: Some(start_abort),
    };
    engine.register(name, sequences, wants, wants)
}

/// Whether so many clients get the numbers from 0 on.
fn are_registered(engine: &mut Engine, clients: u32) -> bool {
    for number in 0..clients {
        if register(engine, 500, 500, false) != Ok(number) {
            return false;
        }
    }
    true
}

fn begin(engine: &mut Engine, transition: Transition, sheet: Sheet) -> Result<u32, BeginRefusal>
    requires { IsSheet sheet }
{
    match engine.begin(transition, sheet) {
        Ok(start) => Ok(start),
        Err((refusal, _)) => Err(refusal),
    }
}

/// Whether this is the reply to a begin by a sheet with a dump and two blank reports.
fn is_begun(
    alloc: Global,
    engine: &mut Engine,
    transition: Transition,
    reply: Result<u32, BeginRefusal>,
) -> Result<bool, NoMemory> {
    Ok(begin(engine, transition, new_sheet(alloc)?) == reply)
}

/// Takes the first blank report: how many there were, whether there was a second one, whether one was taken, and whether
/// there is a second one then.
fn take_blank(blanks: &mut Reports) -> (usize, bool, bool, bool) {
    let len = blanks.len();
    let before = blanks.get(1).is_some();
    let is_taken = blanks.take_first().is_some();
    (len, before, is_taken, blanks.get(1).is_some())
}

/// Whether this is the sheet with a dump and two blank reports.
fn is_new_sheet(mut sheet: Sheet) -> bool {
    let has_dump = sheet.dump.is_some();
    let taken = take_blank(&mut sheet.blanks);
    let left = sheet.blanks.into_vec().len();
    has_dump && taken == (2, true, true, false) && left == 1
}

/// Whether the transition is refused, and its sheet is handed back.
fn is_sheet_back(
    alloc: Global,
    engine: &mut Engine,
    transition: Transition,
) -> Result<bool, NoMemory> {
    Ok(match engine.begin(transition, new_sheet(alloc)?) {
        Ok(_) => false,
        Err((_, back)) => is_new_sheet(back),
    })
}

fn find_turn(polled: &Polled) -> Found {
    match polled {
        Polled::Turn {
            transition,
            dump,
            blank,
            ..
        } => Found::Turn(*transition, dump.is_some(), blank.is_some()),
        Polled::Idle { state } => Found::Idle(*state),
        Polled::Closed => Found::Closed,
        Polled::NoClient => Found::NoClient,
    }
}

fn poll(engine: &mut Engine, client: u32) -> Found {
    find_turn(&engine.poll(client))
}

/// Whether the answer is accepted.
fn is_accepted(engine: &mut Engine, client: u32, answer: Answer) -> bool {
    engine.answer(client, answer).is_ok()
}

/// Whether a No is refused, and is handed back.
fn is_no_back(engine: &mut Engine, client: u32) -> bool {
    let answered = engine.answer(client, Answer::No(Why::NotReady));
    matches!(answered, Err((_, Answer::No(Why::NotReady))))
}

/// Whether each client below this number finds this turn, and its Yes is accepted.
fn do_all_agree(engine: &mut Engine, clients: u32, turn: Found) -> bool {
    for client in 0..clients {
        if poll(engine, client) != turn || !is_accepted(engine, client, Answer::Yes(Tally::Plain)) {
            return false;
        }
    }
    true
}

/// Whether this is the progress of the transition, and so many tallies move out.
fn is_checked(
    alloc: Global,
    engine: &mut Engine,
    progress: Progress,
    count: usize,
) -> Result<bool, NoMemory> {
    let mut tallies = Tallies::new(alloc)?;
    Ok(engine.check(&mut tallies) == progress && tallies.len() == count)
}

/// The client of the tally at this place, and whether it is a plain one.
fn told_at(tallies: &Tallies, place: usize) -> Option<(u32, bool)> {
    match tallies.get(place) {
        None => None,
        Some(told) => Some((told.client, matches!(told.tally, Tally::Plain))),
    }
}

/// What the tallies tell at the first four places.
fn all_told(tallies: &Tallies) -> [Option<(u32, bool)>; 4] {
    [
        told_at(tallies, 0),
        told_at(tallies, 1),
        told_at(tallies, 2),
        told_at(tallies, 3),
    ]
}

/// Whether three tallies tell this at the first four places, and two are left once one is taken.
fn are_three(mut tallies: Tallies, told: &[Option<(u32, bool)>; 4]) -> bool {
    let is_told = all_told(&tallies) == *told;
    let len = tallies.as_slice().len();
    let is_taken = tallies.pop().is_some();
    is_told && len == 3 && is_taken && tallies.into_vec().len() == 2
}

/// Whether this is the progress of the transition, and three tallies move out that tell this.
fn is_checked_by_three(
    alloc: Global,
    engine: &mut Engine,
    progress: Progress,
    told: &[Option<(u32, bool)>; 4],
) -> Result<bool, NoMemory> {
    let mut tallies = Tallies::new(alloc)?;
    let is_right = engine.check(&mut tallies) == progress;
    Ok(are_three(tallies, told) && is_right)
}

/// Whether this is the progress of the transition, and the tallies that move out are of these clients, in this order.
fn is_checked_by(
    alloc: Global,
    engine: &mut Engine,
    progress: Progress,
    clients: &[u32],
) -> Result<bool, NoMemory> {
    let mut tallies = Tallies::new(alloc)?;
    let is_right = engine.check(&mut tallies) == progress;
    let mut is_told = tallies.len() == clients.len();
    for (place, client) in clients.iter().enumerate() {
        is_told = is_told
            && tallies
                .get(place)
                .is_some_and(|told| told.client == *client);
    }
    Ok(is_right && is_told)
}

/// What the client that counts what it sent answers.
const COUNTED: Tally = Tally::Front {
    sent: 7,
    ended: FrontEnded::Quota,
};

/// Makes a call of a client, and answers whether it answered as it is to.
fn is_right_for_client(engine: &mut Engine, call: Call) -> bool {
    match call {
        Poll(client, found) => poll(engine, client) == found,
        Yes(client, accepted) => {
            is_accepted(engine, client, Answer::Yes(Tally::Plain)) == accepted
        }
        YesCounted(client, accepted) => {
            is_accepted(engine, client, Answer::Yes(COUNTED)) == accepted
        }
        No(client, accepted) => is_accepted(engine, client, Answer::No(Why::NotReady)) == accepted,
        NoInVain(client) => is_no_back(engine, client),
        AllYes(clients, turn) => do_all_agree(engine, clients, turn),
        _ => false,
    }
}

/// Makes a call, and answers whether it answered as it is to.
fn is_right(alloc: Global, engine: &mut Engine, call: Call) -> Result<bool, NoMemory> {
    match call {
        Register(reply) => Ok(register(engine, 500, 500, false) == reply),
        RegisterMany(clients) => Ok(are_registered(engine, clients)),
        Begin(transition, reply) => is_begun(alloc, engine, transition, reply),
        BeginBare(transition, reply) => Ok(begin(engine, transition, bare_sheet(alloc)) == reply),
        BeginInVain(transition) => is_sheet_back(alloc, engine, transition),
        Check(progress, count) => is_checked(alloc, engine, progress, count),
        CheckThree(progress, told) => is_checked_by_three(alloc, engine, progress, told),
        CheckClients(progress, clients) => is_checked_by(alloc, engine, progress, clients),
        Close(closed) => Ok(engine.close().is_ok() == closed),
        call => Ok(is_right_for_client(engine, call)),
    }
}

fn make_calls(
    rt: &impl Abort,
    alloc: Global,
    engine: &mut Engine,
    calls: &[Call],
) -> Result<(), Fail> {
    for (place, call) in calls.iter().enumerate() {
        assert!(rt; is_right(alloc, engine, *call)?, "call {place}");
    }
    Ok(())
}

/// What a client is called by: its number, that for start-abort, and whether it wants the dump and a report.
type Client = (u32, u32, bool);

/// A client that wants the dump and a report.
const ONE: &[Client] = &[(500, 500, true)];

/// Two such clients, of which the first is called first.
const TWO: &[Client] = &[(500, 500, true), (600, 600, true)];

/// Two clients that want neither, and one that wants both, is called first, and last for start-abort.
const THREE: &[Client] = &[(500, 500, false), (500, 500, false), (200, 800, true)];

fn register_all(rt: &impl Abort, engine: &mut Engine, clients: &[Client]) {
    for (sequence, start_abort, wants) in clients {
        assert!(rt; register(engine, *sequence, *start_abort, *wants).is_ok());
    }
}

/// What a lock guards crosses threads.
fn is_sent<T: Send + Drop>(_value: &T) {}

/// Makes the calls on an engine that has these clients.
fn play(rt: &impl Abort, alloc: Global, clients: &[Client], calls: &[Call]) -> Result<(), Fail> {
    let mut engine = Engine::new(alloc)?;
    is_sent(&engine);
    register_all(rt, &mut engine, clients);
    make_calls(rt, alloc, &mut engine, calls)
}

const BY_SEQUENCE: &[Call] = &[
    Poll(9, Found::NoClient),
    Begin(
        Pause,
        Err(BeginRefusal::WrongState {
            state: RunState::Stopped,
        }),
    ),
    Begin(Start, Ok(1)),
    Yes(1, false),
    Yes(2, false),
    Poll(0, Found::Idle(RunState::Stopped)),
    Poll(2, Found::Turn(Start, true, true)),
    Poll(2, Found::Turn(Start, false, false)),
    Yes(2, true),
    Poll(0, Found::Turn(Start, false, false)),
    Poll(1, Found::Turn(Start, false, false)),
    Poll(0, Found::Turn(Start, false, false)),
    Yes(0, true),
    Poll(0, Found::Idle(RunState::Stopped)),
    Check(Progress::Going, 0),
    Close(false),
    Yes(1, true),
    Poll(0, Found::Idle(RunState::Running)),
    Check(DONE, 3),
    Check(Progress::None, 0),
];

const WITHOUT_CLIENTS: &[Call] = &[
    BeginBare(Start, Ok(1)),
    Check(DONE, 0),
    Check(Progress::None, 0),
    BeginBare(
        Start,
        Err(BeginRefusal::WrongState {
            state: RunState::Running,
        }),
    ),
    Close(true),
    Register(Err(RegisterRefusal::Closed)),
];

const REFUSED: Progress = Progress::Done {
    outcome: StartOutcome::Refused {
        client: 0,
        why: Why::NotReady,
    },
};

const START_REFUSED: &[Call] = &[
    Begin(Start, Ok(1)),
    Poll(2, Found::Turn(Start, true, true)),
    Yes(2, true),
    Poll(0, Found::Turn(Start, false, false)),
    No(0, true),
    Poll(2, Found::Idle(RunState::Stopped)),
    Poll(1, Found::Turn(StartAbort, false, false)),
    Poll(0, Found::Turn(StartAbort, false, false)),
    Yes(0, true),
    No(1, true),
    Poll(2, Found::Turn(StartAbort, false, false)),
    Yes(2, true),
    Check(REFUSED, 4),
    Begin(Start, Ok(2)),
];

const REFUSED_BY_SECOND: Progress = Progress::Done {
    outcome: StartOutcome::Refused {
        client: 1,
        why: Why::NotReady,
    },
};

/// One of two that have their turns at once refuses the start: the other one still answers, and then start-abort begins.
const REFUSED_IN_GROUP: &[Call] = &[
    BeginBare(Start, Ok(1)),
    Poll(0, Found::Idle(RunState::Stopped)),
    Poll(2, Found::Turn(Start, false, false)),
    Yes(2, true),
    Poll(1, Found::Turn(Start, false, false)),
    Poll(0, Found::Turn(Start, false, false)),
    No(1, true),
    Poll(2, Found::Idle(RunState::Stopped)),
    Yes(0, true),
    Poll(0, Found::Turn(StartAbort, false, false)),
    Poll(1, Found::Turn(StartAbort, false, false)),
    Poll(2, Found::Idle(RunState::Stopped)),
    Yes(0, true),
    Poll(2, Found::Idle(RunState::Stopped)),
    Yes(1, true),
    Poll(2, Found::Turn(StartAbort, false, false)),
    Yes(2, true),
    CheckClients(REFUSED_BY_SECOND, &[2, 0, 0, 1, 2]),
];

/// Both of them refuse it: the first No counts, and neither is among the tallies.
const REFUSED_TWICE: &[Call] = &[
    BeginBare(Start, Ok(1)),
    Poll(2, Found::Turn(Start, false, false)),
    Yes(2, true),
    Poll(0, Found::Turn(Start, false, false)),
    Poll(1, Found::Turn(Start, false, false)),
    No(1, true),
    Poll(1, Found::Idle(RunState::Stopped)),
    Poll(0, Found::Turn(Start, false, false)),
    No(0, true),
    No(0, false),
    Poll(1, Found::Turn(StartAbort, false, false)),
    Yes(1, true),
    Poll(0, Found::Turn(StartAbort, false, false)),
    Yes(0, true),
    Check(Progress::Going, 0),
    Poll(2, Found::Turn(StartAbort, false, false)),
    Yes(2, true),
    CheckClients(REFUSED_BY_SECOND, &[2, 1, 0, 2]),
    BeginBare(
        Stop,
        Err(BeginRefusal::WrongState {
            state: RunState::Stopped,
        }),
    ),
];

const STOP_NOT_REFUSED: &[Call] = &[
    Begin(Start, Ok(1)),
    Poll(0, Found::Turn(Start, true, true)),
    Yes(0, true),
    Check(DONE, 1),
    Begin(Stop, Ok(1)),
    Poll(0, Found::Turn(Stop, true, false)),
    No(0, true),
    Poll(0, Found::Idle(RunState::Stopped)),
    Check(DONE, 1),
];

const DUMP_GIVEN_ONCE: &[Call] = &[
    Begin(Start, Ok(1)),
    Poll(0, Found::Turn(Start, true, true)),
    Poll(0, Found::Turn(Start, false, false)),
    Yes(0, true),
    Poll(1, Found::Turn(Start, false, true)),
    Poll(1, Found::Turn(Start, false, false)),
    Yes(1, true),
    Check(DONE, 2),
];

const MOST_CLIENTS_AND_TALLIES: &[Call] = &[
    RegisterMany(64),
    Register(Err(RegisterRefusal::NoSlot)),
    Poll(63, Found::Idle(RunState::Stopped)),
    Begin(Start, Ok(1)),
    AllYes(63, Found::Turn(Start, false, false)),
    Poll(63, Found::Turn(Start, false, false)),
    No(63, true),
    AllYes(64, Found::Turn(StartAbort, false, false)),
    Check(
        Progress::Done {
            outcome: StartOutcome::Refused {
                client: 63,
                why: Why::NotReady,
            },
        },
        127,
    ),
    Check(Progress::None, 0),
];

/// Calls of a run whose stop is answered by its clients. The first one counts what it sent, and another one says No.
const TALLIES_BY_ANSWER: &[Call] = &[
    Begin(Start, Ok(1)),
    Poll(2, Found::Turn(Start, true, true)),
    Yes(2, true),
    Poll(0, Found::Turn(Start, false, false)),
    Yes(0, true),
    Poll(1, Found::Turn(Start, false, false)),
    Yes(1, true),
    Check(DONE, 3),
    Begin(Stop, Ok(1)),
    Poll(2, Found::Turn(Stop, true, false)),
    YesCounted(2, true),
    Poll(0, Found::Turn(Stop, false, false)),
    No(0, true),
    Poll(1, Found::Turn(Stop, false, false)),
    Yes(1, true),
    CheckThree(
        DONE,
        &[Some((2, false)), Some((0, true)), Some((1, true)), None],
    ),
];

const HANDED_BACK: &[Call] = &[NoInVain(0), BeginInVain(Pause)];

/// Clients, and calls on an engine that has them.
const ROWS: &[(&[Client], &[Call])] = &[
    (THREE, BY_SEQUENCE),
    (&[], WITHOUT_CLIENTS),
    (THREE, START_REFUSED),
    (THREE, REFUSED_IN_GROUP),
    (THREE, REFUSED_TWICE),
    (ONE, STOP_NOT_REFUSED),
    (TWO, DUMP_GIVEN_ONCE),
    (&[], MOST_CLIENTS_AND_TALLIES),
    (THREE, TALLIES_BY_ANSWER),
    (&[], HANDED_BACK),
];

#[test]
fn calls_and_answers(rt: HostRuntime) -> Result<(), Fail> {
    for (clients, calls) in ROWS {
        play(&rt, rt.alloc(), clients, calls)?;
    }
    Ok(())
}
