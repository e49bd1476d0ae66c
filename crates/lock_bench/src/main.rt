//! What it costs to take a lock's turn and to put the value back, alone and between two threads; and what a send and a
//! receive cost through a ring of bytes that threads share, beside the same ring under std's `Mutex`.
//!
//! With a number of calls it prints the time of each; with none it makes a thousand and prints what was counted.
#![tactic(auto)]

use exchange::Crowd;
use std::alloc::{AllocError, Global};
use std::sync::Wait;
use std::thread::Threads;
use std::time::{Clock, Duration, Instant};
use std::{env, io};

mod counter;
mod exchange;

/// The calls of each pass where no number is given.
const CALLS: u32 = 1000;

/// The nanoseconds of each of so many calls.
fn each(took: Duration, calls: u64) -> u128 {
    took.as_nanos() / u128::from(calls.max(1))
}

fn print_time(rt: &impl Print, what: &str, counted: u64, took: Duration) -> io::Result<()> {
    let each = each(took, counted);
    println!(rt; "{what}: {counted} counted, {each} ns each")
}

fn print_count(
    rt: &impl Print,
    timed: bool,
    what: &str,
    counted: u64,
    took: Duration,
) -> io::Result<()> {
    if timed {
        print_time(rt, what, counted, took)
    } else {
        println!(rt; "{what}: {counted} counted")
    }
}

fn percent(part: Duration, whole: Duration) -> u128 {
    part.as_nanos().saturating_mul(100) / whole.as_nanos().max(1)
}

fn print_exchanges(
    rt: &impl Print,
    what: &str,
    times: u32,
    shared: Duration,
    guarded: Duration,
) -> io::Result<()> {
    let calls = u64::from(times);
    let each_shared = each(shared, calls);
    let plain = each(guarded, calls);
    let percent = percent(shared, guarded);
    println!(rt;
        "send and receive, {what}: shared {each_shared} ns, std's Mutex {plain} ns, {percent} percent"
    )
}

fn measure_crowd<R: Threads + Wait + Sync + Clock + Print>(
    rt: &R,
    alloc: Global,
    what: &str,
    crowd: Crowd,
    times: u32,
) -> anyhow::Result<()> {
    let shared = exchange::time_shared(rt, alloc, crowd, times)?;
    let guarded = exchange::time_guarded(rt, alloc, crowd, times)?;
    print_exchanges(rt, what, times, shared, guarded)?;
    Ok(())
}

fn measure_exchanges<R: Threads + Wait + Sync + Clock + Print>(
    rt: &R,
    alloc: Global,
    times: u32,
) -> anyhow::Result<()> {
    measure_crowd(rt, alloc, "alone", Crowd::Alone, times)?;
    measure_crowd(rt, alloc, "two threads", Crowd::Two, times)?;
    measure_crowd(rt, alloc, "four threads", Crowd::Four, times)
}

/// What was counted by one pass, and how long it took.
fn time_alone<R: Wait + Clock>(
    rt: &R,
    alloc: Global,
    calls: u32,
) -> anyhow::Result<(u64, Duration)> {
    let start = Instant::now(rt)?;
    let counted = counter::count_alone(rt, alloc, calls)?;
    Ok((counted, start.elapsed(rt)?))
}

/// What was counted in two threads, and how long it took.
fn time_two_threads<R: Threads + Wait + Sync + Clock>(
    rt: &R,
    alloc: Global,
    calls: u32,
) -> anyhow::Result<(u64, Duration)> {
    let start = Instant::now(rt)?;
    let counted = counter::count_in_two_threads(rt, alloc, calls)?;
    Ok((counted, start.elapsed(rt)?))
}

fn measure<R: Threads + Wait + Sync + Clock + Print>(
    rt: &R,
    alloc: Global,
    given: Option<u32>,
) -> anyhow::Result<()> {
    let calls = given.unwrap_or(CALLS);
    let (alone, alone_took) = time_alone(rt, alloc, calls)?;
    let (both, both_took) = time_two_threads(rt, alloc, calls)?;
    let timed = given.is_some();
    print_count(rt, timed, "alone", alone, alone_took)?;
    print_count(rt, timed, "two threads", both, both_took)?;
    if timed {
        measure_exchanges(rt, alloc, calls)
    } else {
        Ok(())
    }
}

fn main(rt: HostRuntime) -> anyhow::Result<()> {
    let given = env::args(&rt)?
        .nth(1)
        .and_then(|word| word.parse::<u32>().ok());
    measure(&rt, rt.alloc(), given)
}
