//! Calls under the lock, by two threads and by one.
ghost use Rattle.std.specs.Prelude.{◌≡◌, ℕ, ◌+◌, ◌%◌, ◌^◌, ◌<◌, [], ◌∷◌, length, None, IfOk};
ghost use Rattle.daq_types.specs.Callers.{entries_by};
ghost use Rattle.turn_lock.specs.Passes.{passes_of, number_of, own_entries, held_by, IsOf};
ghost use Rattle.turn_lock.specs.Roster.{items_of, numbers_of, ArePassesOf, AreFresh, IsFresh};
ghost use Rattle.turn_lock.specs.Closing.{history_of};

use std::alloc::{AllocError, Global};
use std::process::Abort;
use std::sync::Wait;
use std::thread::{Threads, join};
use turn_lock::{Call, Closed, Machine, MadeCall, MissingPass, Pass, Passes, Taken, Turns};

/// A number that wraps, under the lock.
#[derive(Drop)]
struct Counter {
    count: u64,
}

impl Machine for Counter {
    type State = u64;

    type Entry = u64;

    ghost state = { λ counter. counter.count };

    ghost step = { λ before by found after. (found ≡ before) × (after ≡ (before + 1) % 2 ^ 64) };

    fn known(&self) {}
}

/// One more. Replies the number that was found.
#[derive(Drop)]
struct AddOne;

impl Call<Counter> for AddOne {
    type Reply = u64;

    type Into = ();

    ghost entry = { λ _ _ found _. found };

    fn make(self, value: &mut Counter, _into: &mut ()) -> u64 {
        let found = value.count;
        value.count = found.wrapping_add(1);
        found
    }
}

/// One more, which found this number.
#[derive(Drop)]
struct OneMore {
    found: u64,
}

impl MadeCall<Counter> for OneMore {
    ghost entry = { λ call. call.found };
}

/// Takes both passes of a lock with two out of the list, number 0 first.
fn two_passes(
    _lock: &Turns<Counter>,
    passes: &mut Passes<Counter>,
) -> (Pass<Counter>, Pass<Counter>)
    requires own { ArePassesOf _lock.now passes.old }
    requires fresh { AreFresh passes.old }
    requires numbers { numbers_of passes.old ≡ 0 ∷ 1 ∷ [] }
    ensures left { ArePassesOf _lock.now passes.new × (items_of passes.new ≡ []) }
    ensures own { IsOf _lock.now result.0 × IsOf _lock.now result.1 }
    ensures fresh { IsFresh result.0 × IsFresh result.1 }
    ensures numbers { (number_of result.0 ≡ 0) × (number_of result.1 ≡ 1) }
{
    let Some(second) = passes.pop() else {
        unreachable!()
    };
    let Some(first) = passes.pop() else {
        unreachable!()
    };
    (first, second)
}

fn increment<R: Wait>(lock: &Turns<Counter>, rt: &R, pass: &mut Pass<Counter>) -> u64
    requires own { IsOf lock.now pass.old }
    requires idle { held_by pass.old ≡ None }
    ensures own { IsOf lock.now pass.new }
    ensures idle { held_by pass.new ≡ None }
    ensures number { number_of pass.new ≡ number_of pass.old }
    ensures one_more { length (own_entries pass.new) ≡ length (own_entries pass.old) + 1 }
{
    lock.call(rt, pass, AddOne, &mut ())
}

fn try_increment(lock: &Turns<Counter>, pass: &mut Pass<Counter>) -> Result<u64, Taken>
    requires own { IsOf lock.now pass.old }
    requires idle { held_by pass.old ≡ None }
    ensures own { IsOf lock.now pass.new }
    ensures idle { held_by pass.new ≡ None }
    ensures number { number_of pass.new ≡ number_of pass.old }
{
    let found = lock.try_call(pass, AddOne, &mut ())?;
    Ok(found)
}

fn increment_times<R: Wait>(
    lock: &Turns<Counter>,
    rt: &R,
    mut pass: Pass<Counter>,
    times: u32,
) -> Pass<Counter>
    requires own { IsOf lock.now pass }
    requires idle { held_by pass ≡ None }
    requires fresh { length (own_entries pass) ≡ 0 }
    ensures own { IsOf lock.now result }
    ensures idle { held_by result ≡ None }
    ensures number { number_of result ≡ number_of pass }
    ensures all { length (own_entries result) ≡ times }
{
    for done in 0..times {
        increment(lock, rt, &mut pass);
    }
    pass
}

/// Two threads with a pass each make this many calls.
fn increment_in_two_threads<R: Threads + Wait + Sync>(
    lock: &Turns<Counter>,
    rt: &R,
    first: Pass<Counter>,
    second: Pass<Counter>,
    times: u32,
) -> (Pass<Counter>, Pass<Counter>)
    requires own { IsOf lock.now first × IsOf lock.now second }
    requires idle { (held_by first ≡ None) × (held_by second ≡ None) }
    requires fresh { (length (own_entries first) ≡ 0) × (length (own_entries second) ≡ 0) }
    ensures own { IsOf lock.now result.0 × IsOf lock.now result.1 }
    ensures idle { (held_by result.0 ≡ None) × (held_by result.1 ≡ None) }
    ensures number { (number_of result.0 ≡ number_of first)
        × (number_of result.1 ≡ number_of second) }
    ensures all { (length (own_entries result.0) ≡ times)
        × (length (own_entries result.1) ≡ times) }
{
    join(
        rt,
        move || increment_times(lock, rt, first, times),
        move || increment_times(lock, rt, second, times),
    )
}

/// Closes the lock by two passes, which are all there are.
fn close_two(
    lock: Turns<Counter>,
    mut passes: Passes<Counter>,
    first: Pass<Counter>,
    second: Pass<Counter>,
) -> Closed<Counter>
    requires two { passes_of lock ≡ 2 }
    requires none { ArePassesOf lock passes × (items_of passes ≡ []) }
    requires own { IsOf lock first × IsOf lock second }
    requires idle { (held_by first ≡ None) × (held_by second ≡ None) }
    requires numbers { (number_of first ≡ 0) × (number_of second ≡ 1) }
    ensures first { entries_by 0 (history_of result) ≡ own_entries first }
    ensures second { entries_by 1 (history_of result) ≡ own_entries second }
    ensures all { length (history_of result)
        ≡ length (own_entries first) + length (own_entries second) }
{
    passes.push(first);
    passes.push(second);
    match lock.close(passes) {
        Ok(closed) => closed,
        Err(_) => unreachable!(),
    }
}

fn count_in_two_threads<R: Threads + Wait + Sync>(
    rt: &R,
    alloc: Global,
    times: u32,
) -> Result<Closed<Counter>, AllocError>
    ensures all { IfOk result (λ closed. length (history_of closed) ≡ times + times) }
    ensures first { IfOk result (λ closed. length (entries_by 0 (history_of closed)) ≡ times) }
    ensures second { IfOk result (λ closed. length (entries_by 1 (history_of closed)) ≡ times) }
{
    let (lock, mut passes) = Turns::new(alloc, Counter { count: 0 }, 2)?;
    let (first, second) = two_passes(&lock, &mut passes);
    let (first, second) = increment_in_two_threads(&lock, rt, first, second, times);
    Ok(close_two(lock, passes, first, second))
}

#[test]
fn two_threads_close_with_one_history(rt: HostRuntime) {
    let closed = count_in_two_threads(&rt, rt.alloc(), 1000).expect(&rt, "memory");
    assert!(rt; closed.value.count == 2000, "each of 2,000 calls counts");
}

/// Tries a call by the second pass while the first has the turn, and again behind that.
fn try_twice<R: Wait>(
    lock: &Turns<Counter>,
    rt: &R,
    first: &mut Pass<Counter>,
    second: &mut Pass<Counter>,
) -> [Result<u64, Taken>; 2]
    requires own { IsOf lock.now first.old × IsOf lock.now second.old }
    requires idle { (held_by first.old ≡ None) × (held_by second.old ≡ None) }
    ensures own { IsOf lock.now first.new × IsOf lock.now second.new }
    ensures idle { (held_by first.new ≡ None) × (held_by second.new ≡ None) }
{
    let mut held = lock.take(rt, first);
    let refused = try_increment(lock, second);
    let found = held.value.count;
    held.value.count = found.wrapping_add(1);
    lock.put(first, held, &OneMore { found });
    [refused, try_increment(lock, second)]
}

/// Closes without the second pass and then with it: which pass is missing at first, and the count in the end.
fn close_twice(
    rt: &impl Abort,
    lock: Turns<Counter>,
    mut passes: Passes<Counter>,
    first: Pass<Counter>,
    second: Pass<Counter>,
) -> (MissingPass, u64)
    requires two { passes_of lock ≡ 2 }
    requires none { ArePassesOf lock passes × (items_of passes ≡ []) }
    requires own { IsOf lock first × IsOf lock second }
    requires idle { (held_by first ≡ None) × (held_by second ≡ None) }
{
    passes.push(first);
    let Err((missing, lock, mut passes)) = lock.close(passes) else {
        panic!(rt; "pass 1 is missing")
    };
    passes.push(second);
    let Ok(closed) = lock.close(passes) else {
        panic!(rt; "all passes are there")
    };
    (missing, closed.value.count)
}

#[test]
fn the_turn_is_taken_until_it_is_put_back(rt: HostRuntime) {
    let (lock, mut passes) = Turns::new(rt.alloc(), Counter { count: 0 }, 2).expect(&rt, "memory");
    let (mut first, mut second) = two_passes(&lock, &mut passes);
    let tried = try_twice(&lock, &rt, &mut first, &mut second);
    let closed = close_twice(&rt, lock, passes, first, second);
    assert!(rt;
        tried == [Err(Taken { holder: 0 }), Ok(1)],
        "pass 0 holds the turn, and then it is free again"
    );
    assert!(rt;
        closed == (MissingPass { number: 1 }, 2),
        "pass 1 is the least missing, and each made one call"
    );
}

/// The second pass has then seen what the first has.
fn meet_what_was_seen(lock: &Turns<Counter>, first: &mut Pass<Counter>, second: &mut Pass<Counter>)
    requires first { IsOf lock.now first.old }
    requires second { IsOf lock.now second.old }
    requires idle { held_by second.old ≡ None }
    ensures second { IsOf lock.now second.new }
    ensures idle { held_by second.new ≡ None }
{
    let note = lock.note(first);
    lock.meet(second, note);
}

#[test]
fn a_pass_meets_what_another_has_seen(rt: HostRuntime) {
    let (lock, mut passes) = Turns::new(rt.alloc(), Counter { count: 0 }, 2).expect(&rt, "memory");
    let (mut first, mut second) = two_passes(&lock, &mut passes);
    assert!(rt; increment(&lock, &rt, &mut first) == 0, "the first call");
    meet_what_was_seen(&lock, &mut first, &mut second);
    assert!(rt; try_increment(&lock, &mut second) == Ok(1), "the second");
}
