//! Calls on a shared engine, by the main thread and by another.
ghost use Rattle.std.specs.Prelude.{◌≡◌, [], ◌∷◌, None, IfOk};
ghost use Rattle.daq_types.specs.Callers.{main_caller};
ghost use Rattle.turn_lock.specs.Passes.{passes_of, number_of, held_by, IsOf};
ghost use Rattle.turn_lock.specs.Roster.{items_of, numbers_of, ArePassesOf, AreFresh, IsFresh};
ghost use Rattle.member_model.specs.RunEngines.{IsSheet};
ghost use Rattle.transition_lock.specs.SharedEngines.{engine_lock_of};

use daq_types::{Name, NoMemory, StartOutcome, Transition};
use member_model::{Answer, Engine, Polled, Reports, Sheet, Tallies, Tally};
use std::alloc::Global;
use std::process::Abort;
use std::sync::Wait;
use std::thread::{Threads, join};
use transition_lock::{EngineClosed, EnginePass, EnginePasses, SharedEngine};
use transitions::{Progress, RegisterRefusal, Sequences};

/// Shares an idle engine with two passes.
fn share(alloc: Global) -> Result<(SharedEngine, EnginePasses), NoMemory>
    ensures count { IfOk result (λ made. passes_of (engine_lock_of made.0) ≡ 2) }
    ensures own { IfOk result (λ made. ArePassesOf (engine_lock_of made.0) made.1) }
    ensures numbers { IfOk result (λ made. numbers_of made.1 ≡ 0 ∷ 1 ∷ []) }
    ensures fresh { IfOk result (λ made. AreFresh made.1) }
{
    let engine = Engine::new(alloc)?;
    SharedEngine::new(alloc, engine, 2)
}

/// Takes both passes of an engine with two out of the list, the main thread's first.
fn two_passes(_shared: &SharedEngine, passes: &mut EnginePasses) -> (EnginePass, EnginePass)
    requires own { ArePassesOf (engine_lock_of _shared.now) passes.old }
    requires fresh { AreFresh passes.old }
    requires numbers { numbers_of passes.old ≡ 0 ∷ 1 ∷ [] }
    ensures left { ArePassesOf (engine_lock_of _shared.now) passes.new
        × (items_of passes.new ≡ []) }
    ensures own { IsOf (engine_lock_of _shared.now) result.0
        × IsOf (engine_lock_of _shared.now) result.1 }
    ensures fresh { IsFresh result.0 × IsFresh result.1 }
    ensures numbers { (number_of result.0 ≡ 0) × (number_of result.1 ≡ 1) }
{
    let Some(other) = passes.pop() else {
        unreachable!()
    };
    let Some(main) = passes.pop() else {
        unreachable!()
    };
    (main, other)
}

/// A sheet without dump and blank reports.
fn bare_sheet(alloc: Global) -> Sheet
    ensures { IsSheet result }
{
    Sheet {
        run: 1,
        time: 1000,
        quota: 0,
        dump: None,
        blanks: Reports::of(Vec::new(alloc)),
    }
}

/// Registers a client that takes part in starts: its number.
fn register<R: Wait>(
    shared: &SharedEngine,
    rt: &R,
    main: &mut EnginePass,
    name: Name,
) -> Result<u32, RegisterRefusal>
    requires main { number_of main.old ≡ main_caller }
    requires own { IsOf (engine_lock_of shared.now) main.old }
    requires idle { held_by main.old ≡ None }
    ensures own { IsOf (engine_lock_of shared.now) main.new }
    ensures idle { held_by main.new ≡ None }
    ensures number { number_of main.new ≡ number_of main.old }
{
    let sequences = Sequences {
        start: Some(500),
        stop: None,
        pause: None,
        resume: None,
        start_abort: None,
    };
    shared.register(rt, main, name, sequences, false, false)
}

/// Registers a client that takes part in starts, and begins one: the client's number, and whether the start is begun.
fn begin_start<R: Wait>(
    shared: &SharedEngine,
    rt: &R,
    main: &mut EnginePass,
    alloc: Global,
    name: Name,
) -> (Result<u32, RegisterRefusal>, bool)
    requires main { number_of main.old ≡ main_caller }
    requires own { IsOf (engine_lock_of shared.now) main.old }
    requires idle { held_by main.old ≡ None }
    ensures own { IsOf (engine_lock_of shared.now) main.new }
    ensures idle { held_by main.new ≡ None }
    ensures number { number_of main.new ≡ number_of main.old }
{
    let client = register(shared, rt, main, name);
    let begun = shared.begin(rt, main, Transition::Start, bare_sheet(alloc));
    (client, begun.is_ok())
}

fn is_turn(polled: &Polled) -> bool {
    matches!(polled, Polled::Turn { .. })
}

/// Whether the client has its turn, and whether its answer is taken.
fn take_turn<R: Wait>(shared: &SharedEngine, rt: &R, other: &mut EnginePass) -> [bool; 2]
    requires own { IsOf (engine_lock_of shared.now) other.old }
    requires idle { held_by other.old ≡ None }
    ensures own { IsOf (engine_lock_of shared.now) other.new }
    ensures idle { held_by other.new ≡ None }
    ensures number { number_of other.new ≡ number_of other.old }
{
    let has_turn = is_turn(&shared.poll(rt, other, 0));
    let is_taken = shared
        .answer(rt, other, 0, Answer::Yes(Tally::Plain))
        .is_ok();
    [has_turn, is_taken]
}

/// Ends the sharing between two passes, which are all there are.
fn close_two(
    shared: SharedEngine,
    mut passes: EnginePasses,
    main: EnginePass,
    other: EnginePass,
) -> EngineClosed
    requires two { passes_of (engine_lock_of shared) ≡ 2 }
    requires none { ArePassesOf (engine_lock_of shared) passes × (items_of passes ≡ []) }
    requires own { IsOf (engine_lock_of shared) main × IsOf (engine_lock_of shared) other }
    requires idle { (held_by main ≡ None) × (held_by other ≡ None) }
    requires numbers { (number_of main ≡ 0) × (number_of other ≡ 1) }
{
    passes.push(main);
    passes.push(other);
    match shared.close_lock(passes) {
        Ok(closed) => closed,
        Err(_) => unreachable!(),
    }
}

/// How far the transition is when the engine is shared no more.
fn progress_behind(alloc: Global, closed: EngineClosed) -> Result<Progress, NoMemory> {
    let mut engine = closed.value.engine;
    let mut tallies = Tallies::new(alloc)?;
    Ok(engine.check(&mut tallies))
}

/// A client takes its turn in a start: whether that is begun, whether the client has its turn and its answer is taken, and
/// how far the start then is.
fn start_by_turn<R: Wait>(
    rt: &R,
    alloc: Global,
    name: Name,
) -> Result<(bool, [bool; 2], Progress), NoMemory> {
    let (shared, mut passes) = share(alloc)?;
    let (mut main, mut other) = two_passes(&shared, &mut passes);
    let begun = begin_start(&shared, rt, &mut main, alloc, name) == (Ok(0), true);
    let taken = take_turn(&shared, rt, &mut other);
    let closed = close_two(shared, passes, main, other);
    Ok((begun, taken, progress_behind(alloc, closed)?))
}

#[test]
fn a_client_takes_its_turn(rt: HostRuntime) {
    let name = Name::new(b"FE").expect(&rt, "a name");
    let done = Progress::Done {
        outcome: StartOutcome::Completed,
    };
    let (begun, taken, progress) = start_by_turn(&rt, rt.alloc(), name).expect(&rt, "memory");
    assert!(rt;
        begun && taken == [true, true],
        "the start is begun, and the client answers in its turn"
    );
    assert!(rt; progress == done, "the start is done");
}

/// How far an idle engine is by a check, and whether it is closed then.
fn check_and_close<R: Wait>(rt: &R, alloc: Global) -> Result<(Progress, bool), NoMemory> {
    let mut tallies = Tallies::new(alloc)?;
    let (shared, mut passes) = share(alloc)?;
    let (mut main, _other) = two_passes(&shared, &mut passes);
    let progress = shared.check(rt, &mut main, &mut tallies);
    Ok((progress, shared.close(rt, &mut main).is_ok()))
}

#[test]
fn the_main_thread_checks_and_closes(rt: HostRuntime) {
    let (progress, is_closed) = check_and_close(&rt, rt.alloc()).expect(&rt, "memory");
    assert!(rt; progress == Progress::None, "no transition is in progress");
    assert!(rt; is_closed, "the engine is closed");
}

/// The second pass has then seen what the first has.
fn meet_what_was_seen(shared: &SharedEngine, first: &mut EnginePass, second: &mut EnginePass)
    requires first { IsOf (engine_lock_of shared.now) first.old }
    requires second { IsOf (engine_lock_of shared.now) second.old }
    requires idle { held_by second.old ≡ None }
    ensures second { IsOf (engine_lock_of shared.now) second.new }
    ensures idle { held_by second.new ≡ None }
{
    let note = shared.lock().note(first);
    shared.lock().meet(second, note);
}

/// Begins a start, whose client then meets what the main thread has seen: whether the start is begun, and whether the client
/// has its turn and its answer is taken.
fn begin_meet_and_answer<R: Wait>(
    rt: &R,
    alloc: Global,
    name: Name,
) -> Result<(bool, [bool; 2]), NoMemory> {
    let (shared, mut passes) = share(alloc)?;
    let (mut main, mut other) = two_passes(&shared, &mut passes);
    let begun = begin_start(&shared, rt, &mut main, alloc, name) == (Ok(0), true);
    meet_what_was_seen(&shared, &mut main, &mut other);
    Ok((begun, take_turn(&shared, rt, &mut other)))
}

// What a pass has seen stands in contracts alone: the row shows that the two calls can be made.
#[test]
fn a_pass_meets_what_another_has_seen(rt: HostRuntime) {
    let name = Name::new(b"FE").expect(&rt, "a name");
    let taken = begin_meet_and_answer(&rt, rt.alloc(), name);
    assert!(rt;
        taken == Ok((true, [true; 2])),
        "the start that was begun is answered by its client"
    );
}

/// Polls for a client: whether it has its turn, and the pass that comes back.
fn poll_by<R: Wait>(
    shared: &SharedEngine,
    rt: &R,
    mut pass: EnginePass,
    client: u32,
) -> (bool, EnginePass)
    requires own { IsOf (engine_lock_of shared.now) pass }
    requires idle { held_by pass ≡ None }
    ensures own { IsOf (engine_lock_of shared.now) result.1 }
    ensures idle { held_by result.1 ≡ None }
{
    let has_turn = is_turn(&shared.poll(rt, &mut pass, client));
    (has_turn, pass)
}

/// Answers for a client: whether the answer is taken.
fn answer_by<R: Wait>(shared: &SharedEngine, rt: &R, mut pass: EnginePass, client: u32) -> bool
    requires own { IsOf (engine_lock_of shared.now) pass }
    requires idle { held_by pass ≡ None }
{
    shared
        .answer(rt, &mut pass, client, Answer::Yes(Tally::Plain))
        .is_ok()
}

/// How far the transition is, by a check of the main thread.
fn progress<R: Wait>(
    shared: &SharedEngine,
    rt: &R,
    main: &mut EnginePass,
    alloc: Global,
) -> Result<Progress, NoMemory>
    requires main { number_of main.old ≡ main_caller }
    requires own { IsOf (engine_lock_of shared.now) main.old }
    requires idle { held_by main.old ≡ None }
    ensures own { IsOf (engine_lock_of shared.now) main.new }
    ensures idle { held_by main.new ≡ None }
    ensures number { number_of main.new ≡ number_of main.old }
{
    let mut tallies = Tallies::new(alloc)?;
    Ok(shared.check(rt, main, &mut tallies))
}

/// Two threads poll for the clients 0 and 1: whether each has its turn, and the passes that come back.
fn poll_in_two_threads<R: Threads + Wait + Sync>(
    shared: &SharedEngine,
    rt: &R,
    first: EnginePass,
    second: EnginePass,
) -> ([bool; 2], EnginePass, EnginePass)
    requires own { IsOf (engine_lock_of shared.now) first × IsOf (engine_lock_of shared.now) second }
    requires idle { (held_by first ≡ None) × (held_by second ≡ None) }
    ensures own { IsOf (engine_lock_of shared.now) result.1 × IsOf (engine_lock_of shared.now) result.2 }
    ensures idle { (held_by result.1 ≡ None) × (held_by result.2 ≡ None) }
{
    let ((has_first, first), (has_second, second)) = join(
        rt,
        move || poll_by(shared, rt, first, 0),
        move || poll_by(shared, rt, second, 1),
    );
    ([has_first, has_second], first, second)
}

/// Two threads answer for the clients 0 and 1: whether each answer is taken.
fn answer_in_two_threads<R: Threads + Wait + Sync>(
    shared: &SharedEngine,
    rt: &R,
    first: EnginePass,
    second: EnginePass,
) -> [bool; 2]
    requires own { IsOf (engine_lock_of shared.now) first × IsOf (engine_lock_of shared.now) second }
    requires idle { (held_by first ≡ None) × (held_by second ≡ None) }
{
    let (first, second) = join(
        rt,
        move || answer_by(shared, rt, first, 0),
        move || answer_by(shared, rt, second, 1),
    );
    [first, second]
}

/// Two clients of one sequence number in a start: whether each has its turn while neither has answered, how far the start
/// is then, whether each answer is taken, and how far the start is behind them.
type GroupSeen = ([bool; 2], Progress, [bool; 2], Progress);

/// Lets both clients poll, and only then both answer, each pair in two threads.
fn take_turns_at_once<R: Threads + Wait + Sync>(
    shared: &SharedEngine,
    rt: &R,
    alloc: Global,
    main: &mut EnginePass,
    first: EnginePass,
    second: EnginePass,
) -> Result<GroupSeen, NoMemory>
    requires main { number_of main.old ≡ main_caller }
    requires own_main { IsOf (engine_lock_of shared.now) main.old }
    requires idle_main { held_by main.old ≡ None }
    requires own { IsOf (engine_lock_of shared.now) first × IsOf (engine_lock_of shared.now) second }
    requires idle { (held_by first ≡ None) × (held_by second ≡ None) }
{
    let (turns, first, second) = poll_in_two_threads(shared, rt, first, second);
    let between = progress(shared, rt, main, alloc)?;
    let taken = answer_in_two_threads(shared, rt, first, second);
    Ok((turns, between, taken, progress(shared, rt, main, alloc)?))
}

/// Takes the three passes of an engine out of the list: the main thread's, and the two others.
fn three_passes(
    _shared: &SharedEngine,
    rt: &impl Abort,
    passes: &mut EnginePasses,
) -> (EnginePass, EnginePass, EnginePass)
    requires own { ArePassesOf (engine_lock_of _shared.now) passes.old }
    requires fresh { AreFresh passes.old }
    requires numbers { numbers_of passes.old ≡ 0 ∷ 1 ∷ 2 ∷ [] }
    ensures own { IsOf (engine_lock_of _shared.now) result.0 × IsOf (engine_lock_of _shared.now) result.1
        × IsOf (engine_lock_of _shared.now) result.2 }
    ensures idle { (held_by result.0 ≡ None) × (held_by result.1 ≡ None) × (held_by result.2 ≡ None) }
    ensures main { number_of result.0 ≡ main_caller }
{
    let main = passes.take(0);
    let Some(second) = passes.pop() else {
        panic!(rt; "a pass")
    };
    let Some(first) = passes.pop() else {
        panic!(rt; "a pass")
    };
    (main, first, second)
}

/// Registers two clients of one sequence number, begins a start, and lets both take their turn at once: whether each is
/// registered and the start is begun, and what is then seen.
fn start_two_at_once<R: Abort + Threads + Wait + Sync>(
    rt: &R,
    alloc: Global,
    names: [Name; 2],
) -> Result<
    (
        Result<u32, RegisterRefusal>,
        (Result<u32, RegisterRefusal>, bool),
        GroupSeen,
    ),
    NoMemory,
> {
    let engine = Engine::new(alloc)?;
    let (shared, mut passes) = SharedEngine::new(alloc, engine, 3)?;
    let (mut main, first, second) = three_passes(&shared, rt, &mut passes);
    let client = register(&shared, rt, &mut main, names[0]);
    let begun = begin_start(&shared, rt, &mut main, alloc, names[1]);
    let seen = take_turns_at_once(&shared, rt, alloc, &mut main, first, second)?;
    Ok((client, begun, seen))
}

#[test]
fn two_clients_have_their_turn_at_once(rt: HostRuntime) {
    let names = [
        Name::new(b"FE1").expect(&rt, "a name"),
        Name::new(b"FE2").expect(&rt, "a name"),
    ];
    let done = Progress::Done {
        outcome: StartOutcome::Completed,
    };
    let started = start_two_at_once(&rt, rt.alloc(), names);
    assert!(rt;
        started
            == Ok((
                Ok(0),
                (Ok(1), true),
                ([true; 2], Progress::Going, [true; 2], done)
            )),
        "both have their turn before either answers, both answers are taken, and the start is done"
    );
}
