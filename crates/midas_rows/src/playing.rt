use crate::manners::Manner;
use crate::meeting::MeetingGate;
use crate::orders::add_in_order;
use crate::outsides::{MemOutside, console, outside_of};
use crate::page::Page;
use crate::rows::{Order, Row};
use crate::telling::{add_played, add_tool};
use daq_mem::MemSink;
use daq_types::{NoMemory, Words};
use midas_cli::{Summary, midas};
use std::alloc::Global;
use std::sync::Wait;
use std::thread::Threads;

/// The words of a list.
fn words_of(alloc: Global, list: &[&str]) -> Result<Words, NoMemory> {
    let mut words = Words::new(alloc);
    for word in list {
        words.add(alloc, word)?;
    }
    Ok(words)
}

/// Calls the program with these words. Its members, where it has some, pass this gate.
fn call<R: Threads + Wait + Sync>(
    rt: &R,
    alloc: Global,
    words: &Words,
    outside: MemOutside,
    gate: &MeetingGate,
) -> (Summary, MemOutside) {
    let (outcome, outside) = midas(rt, alloc, words, outside, gate);
    (outcome.into_summary(), outside)
}

/// What a call of a tool takes: its words and an empty console.
fn tool_of(alloc: Global, list: &[&str]) -> Result<(Words, MemSink), NoMemory> {
    let words = words_of(alloc, list)?;
    let out = console(alloc, &[])?;
    Ok((words, out))
}

/// Adds what a tool says of the files of this outside, and gives the outside back.
fn use_tool<R: Threads + Wait + Sync>(
    rt: &R,
    alloc: Global,
    page: &mut Page,
    list: &[&str],
    mut outside: MemOutside,
    gate: &MeetingGate,
) -> MemOutside {
    let Ok((words, out)) = tool_of(alloc, list) else {
        page.lacks = true;
        return outside;
    };
    outside.out = out;
    let (outcome, after) = call(rt, alloc, &words, outside, gate);
    add_tool(page, list, &outcome, &after);
    after
}

/// Adds what the tools of a row say of the files that its script left, and gives the outside back.
fn add_tools<R: Threads + Wait + Sync>(
    rt: &R,
    alloc: Global,
    page: &mut Page,
    tools: &[&[&str]],
    outside: MemOutside,
    gate: &MeetingGate,
) -> MemOutside {
    let mut outside = outside;
    for list in tools {
        outside = use_tool(rt, alloc, page, list, outside, gate);
    }
    outside
}

/// Adds whether the events of the first run stand in one of these orders, where there are some.
fn add_orders<R: Threads + Wait + Sync>(
    rt: &R,
    alloc: Global,
    page: &mut Page,
    orders: &[Order],
    outside: MemOutside,
    gate: &MeetingGate,
) {
    if orders.is_empty() {
        return;
    }
    let mut dumped = Page::new(alloc);
    let list = &["dump", "run00001.mid"];
    let after = use_tool(rt, alloc, &mut dumped, list, outside, gate);
    if dumped.lacks {
        page.lacks = true;
    }
    add_in_order(alloc, page, orders, after.out.bytes());
}

/// Adds what the script of a row came to that is played so, by members that pass this gate, and what the tools then say.
pub fn tell_row<R: Threads + Wait + Sync>(
    rt: &R,
    alloc: Global,
    page: &mut Page,
    row: &Row,
    manner: Manner,
    gate: &MeetingGate,
) {
    let Ok(words) = words_of(alloc, manner.words()) else {
        page.lacks = true;
        return;
    };
    let Ok(outside) = outside_of(alloc, row, manner.picks()) else {
        page.lacks = true;
        return;
    };
    let (outcome, after) = call(rt, alloc, &words, outside, gate);
    add_played(page, row, &outcome, &after);
    let after = add_tools(rt, alloc, page, row.tools, after, gate);
    add_orders(rt, alloc, page, row.orders, after, gate);
}
