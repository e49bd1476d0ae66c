// A number that wraps, under a lock.
ghost use Rattle.std.specs.Prelude.{◌≡◌, ℕ, ◌+◌, ◌%◌, ◌^◌, [], ◌∷◌, ◌++◌, None};
ghost use Rattle.turn_lock.specs.Passes.{number_of, own_entries, held_by, passes_of, IsOf};
ghost use Rattle.turn_lock.specs.Closing.{AreComplete};
ghost use Rattle.turn_lock.specs.Roster.{items_of, numbers_of, ArePassesOf, AreIdle, AreFresh};

use std::alloc::{AllocError, Global};
use std::sync::Wait;
use std::thread::{Threads, join};
use turn_lock::{Call, Machine, Pass, Passes, Turns};

#[derive(Drop)]
struct Counter {
    count: u64,
}

impl Machine for Counter {
    type State = u64;
    /// The number that the call found.
    type Entry = u64;

    ghost state = { λ counter. counter.count };

    ghost step = { λ before by found after. (found ≡ before) × (after ≡ (before + 1) % 2 ^ 64) };

    fn known(&self) {}
}

/// One more. Replies the number that was found.
#[derive(Drop)]
struct AddOne;

impl Call<Counter> for AddOne {
    type Reply = u64;

    type Into = ();

    ghost entry = { λ _ _ found _. found };

    fn make(self, value: &mut Counter, _into: &mut ()) -> u64 {
        let found = value.count;
        value.count = found.wrapping_add(1);
        found
    }
}

fn increment<R: Wait>(rt: &R, lock: &Turns<Counter>, pass: &mut Pass<Counter>) -> u64
    requires own { IsOf lock.now pass.old }
    requires idle { held_by pass.old ≡ None }
    ensures own { IsOf lock.now pass.new }
    ensures idle { held_by pass.new ≡ None }
    ensures number { number_of pass.new ≡ number_of pass.old }
    ensures mine { own_entries pass.new ≡ own_entries pass.old ++ result ∷ [] }
{
    lock.call(rt, pass, AddOne, &mut ())
}

fn increment_times<R: Wait>(
    rt: &R,
    lock: &Turns<Counter>,
    mut pass: Pass<Counter>,
    times: u32,
) -> Pass<Counter>
    requires own { IsOf lock.now pass }
    requires idle { held_by pass ≡ None }
    ensures own { IsOf lock.now result }
    ensures idle { held_by result ≡ None }
    ensures number { number_of result ≡ number_of pass }
{
    for _ in 0..times {
        increment(rt, lock, &mut pass);
    }
    pass
}

/// Ends the lock, whose passes all are in the list, and gives its last number.
fn end(lock: Turns<Counter>, passes: Passes<Counter>) -> u64
    requires own { ArePassesOf lock passes }
    requires idle { AreIdle passes }
    requires complete { AreComplete (numbers_of passes) (passes_of lock) }
{
    match lock.close(passes) {
        Ok(closed) => closed.value.count,
        Err(_) => unreachable!(),
    }
}

/// One pass of a lock with one makes this many calls.
pub fn count_alone<R: Wait>(rt: &R, alloc: Global, times: u32) -> Result<u64, AllocError> {
    let (lock, mut passes) = Turns::new(alloc, Counter { count: 0 }, 1)?;
    let Some(pass) = passes.pop() else {
        unreachable!()
    };
    let pass = increment_times(rt, &lock, pass, times);
    passes.push(pass);
    Ok(end(lock, passes))
}

fn increment_in_two_threads<R: Threads + Wait + Sync>(
    rt: &R,
    lock: &Turns<Counter>,
    first: Pass<Counter>,
    second: Pass<Counter>,
    times: u32,
) -> (Pass<Counter>, Pass<Counter>)
    requires own { IsOf lock.now first × IsOf lock.now second }
    requires idle { (held_by first ≡ None) × (held_by second ≡ None) }
    ensures own { IsOf lock.now result.0 × IsOf lock.now result.1 }
    ensures idle { (held_by result.0 ≡ None) × (held_by result.1 ≡ None) }
    ensures number { (number_of result.0 ≡ number_of first)
        × (number_of result.1 ≡ number_of second) }
{
    join(
        rt,
        move || increment_times(rt, lock, first, times),
        move || increment_times(rt, lock, second, times),
    )
}

/// Takes both passes of a lock with two out of the list, number 0 first.
fn two_passes(lock: &Turns<Counter>, passes: &mut Passes<Counter>) -> (Pass<Counter>, Pass<Counter>)
    requires own { ArePassesOf lock.now passes.old }
    requires fresh { AreFresh passes.old }
    requires numbers { numbers_of passes.old ≡ 0 ∷ 1 ∷ [] }
    ensures left { ArePassesOf lock.now passes.new × (items_of passes.new ≡ []) }
    ensures own { IsOf lock.now result.0 × IsOf lock.now result.1 }
    ensures idle { (held_by result.0 ≡ None) × (held_by result.1 ≡ None) }
    ensures numbers { (number_of result.0 ≡ 0) × (number_of result.1 ≡ 1) }
{
    let Some(second) = passes.pop() else {
        unreachable!()
    };
    let Some(first) = passes.pop() else {
        unreachable!()
    };
    (first, second)
}

/// Two passes in a thread each make this many calls.
pub fn count_in_two_threads<R: Threads + Wait + Sync>(
    rt: &R,
    alloc: Global,
    times: u32,
) -> Result<u64, AllocError> {
    let (lock, mut passes) = Turns::new(alloc, Counter { count: 0 }, 2)?;
    let (first, second) = two_passes(&lock, &mut passes);
    let (first, second) = increment_in_two_threads(rt, &lock, first, second, times);
    passes.push(first);
    passes.push(second);
    Ok(end(lock, passes))
}
