//! Scripts over objects in memory: what the program prints of each, its status, its records, and what its tools then say of
//! the run files. All of it is printed, and then the program itself is run with the words that it is called with. Under the
//! gate one of these is not UTF-8, so it answers with the usage line and status 2.
#![tactic(auto)]

mod database_rows;
mod dump_fault_rows;
mod fault_rows;
mod manners;
mod meeting;
mod orders;
mod outsides;
mod page;
mod piece_rows;
mod playing;
mod rows;
mod session_rows;
mod start_rows;
mod telling;
mod tool_rows;

use crate::database_rows::DATABASE_ROWS;
use crate::dump_fault_rows::DUMP_FAULT_ROWS;
use crate::fault_rows::FAULT_ROWS;
use crate::manners::{FIRST_FIRST, Manner, OTHERS};
use crate::meeting::{MeetingGate, add_meeting, add_rounds};
use crate::page::Page;
use crate::piece_rows::{PIECE_FAULT_ROWS, PIECE_ROWS};
use crate::playing::tell_row;
use crate::rows::{PLAIN, Repeated, Row};
use crate::session_rows::SESSION_ROWS;
use crate::start_rows::START_ROWS;
use crate::tool_rows::{TOOL_FAULT_ROWS, TOOL_ROWS};
use daq_io::write_all;
use daq_std::StdSink;
use midas_cli::run_program;
use std::alloc::Global;
use std::env;
use std::process::ExitCode;
use std::sync::Wait;
use std::thread::Threads;

/// Where there is no memory, and where the text could not be written.
const NO_MEMORY: u8 = 5;

const NOT_WRITTEN: u8 = 4;

/// Adds what comes of a row where it is played so, if it is told and is another text than this one.
fn add_other<R: Threads + Wait + Sync>(
    rt: &R,
    alloc: Global,
    page: &mut Page,
    row: &Row,
    manner: Manner,
    first: &str,
) {
    let gate = MeetingGate::of(0);
    let mut other = Page::new(alloc);
    tell_row(rt, alloc, &mut other, row, manner, &gate);
    if other.lacks {
        page.lacks = true;
    }
    if manner.tells(row) && first != other.text.as_str() {
        page.add(manner.title());
        page.add(other.text.as_str());
    }
}

/// Adds a row, with the first member first in each round, and what comes of it where it is played otherwise, if that differs.
fn add_row<R: Threads + Wait + Sync>(rt: &R, alloc: Global, page: &mut Page, row: &Row) {
    let gate = MeetingGate::of(0);
    let mut told = Page::new(alloc);
    tell_row(rt, alloc, &mut told, row, FIRST_FIRST, &gate);
    if told.lacks {
        page.lacks = true;
    }
    page.add(told.text.as_str());
    for manner in &OTHERS {
        add_other(rt, alloc, page, row, *manner, told.text.as_str());
    }
}

/// Adds the rows of a table.
fn add_table<R: Threads + Wait + Sync>(rt: &R, alloc: Global, page: &mut Page, rows: &[Row]) {
    for row in rows {
        add_row(rt, alloc, page, row);
    }
}

/// Adds the rows of sessions. Each table is named in a function of its own, which holds its text.
fn add_sessions<R: Threads + Wait + Sync>(rt: &R, alloc: Global, page: &mut Page) {
    add_table(rt, alloc, page, &SESSION_ROWS);
}

/// Adds the rows of starts that are refused, of pauses and of lines that come in the wrong state.
fn add_starts<R: Threads + Wait + Sync>(rt: &R, alloc: Global, page: &mut Page) {
    add_table(rt, alloc, page, &START_ROWS);
}

/// Adds the rows of runs with several files a channel.
fn add_pieces<R: Threads + Wait + Sync>(rt: &R, alloc: Global, page: &mut Page) {
    add_table(rt, alloc, page, &PIECE_ROWS);
}

/// Adds the rows of words that run no session.
fn add_words<R: Threads + Wait + Sync>(rt: &R, alloc: Global, page: &mut Page) {
    add_table(rt, alloc, page, &TOOL_ROWS);
}

/// Adds the rows of sessions with a call on a stream or on a run file that fails.
fn add_faults<R: Threads + Wait + Sync>(rt: &R, alloc: Global, page: &mut Page) {
    add_table(rt, alloc, page, &FAULT_ROWS);
}

/// Adds the rows of runs with several files a channel, with a call on one of them that fails.
fn add_piece_faults<R: Threads + Wait + Sync>(rt: &R, alloc: Global, page: &mut Page) {
    add_table(rt, alloc, page, &PIECE_FAULT_ROWS);
}

/// Adds the rows of sessions with a call on a file of the database that fails.
fn add_dump_faults<R: Threads + Wait + Sync>(rt: &R, alloc: Global, page: &mut Page) {
    add_table(rt, alloc, page, &DUMP_FAULT_ROWS);
}

/// Adds the rows of tools with a call that fails.
fn add_tool_faults<R: Threads + Wait + Sync>(rt: &R, alloc: Global, page: &mut Page) {
    add_table(rt, alloc, page, &TOOL_FAULT_ROWS);
}

/// Adds the rows of the online database.
fn add_databases<R: Threads + Wait + Sync>(rt: &R, alloc: Global, page: &mut Page) {
    add_table(rt, alloc, page, &DATABASE_ROWS);
}

/// A script of line ends alone, one more than a script may have bytes.
static LONGEST: Row = Row {
    title: "A script of one line end too many",
    repeated: Some(Repeated {
        line: "\n",
        times: 16_777_217,
        behind: "",
    }),
    ..PLAIN
};

/// Adds what that script comes to, which is long and so is played once.
fn add_longest<R: Threads + Wait + Sync>(rt: &R, alloc: Global, page: &mut Page) {
    let gate = MeetingGate::of(0);
    tell_row(rt, alloc, page, &LONGEST, FIRST_FIRST, &gate);
}

/// All rows.
fn all_rows<R: Threads + Wait + Sync>(rt: &R, alloc: Global) -> Page {
    let mut page = Page::new(alloc);
    add_sessions(rt, alloc, &mut page);
    add_starts(rt, alloc, &mut page);
    add_pieces(rt, alloc, &mut page);
    add_words(rt, alloc, &mut page);
    add_faults(rt, alloc, &mut page);
    add_piece_faults(rt, alloc, &mut page);
    add_dump_faults(rt, alloc, &mut page);
    add_tool_faults(rt, alloc, &mut page);
    add_databases(rt, alloc, &mut page);
    add_meeting(rt, alloc, &mut page);
    add_rounds(rt, alloc, &mut page);
    add_longest(rt, alloc, &mut page);
    page
}

/// Prints what all rows come to. Otherwise this is the status.
fn print_rows<R: Threads + Wait + Sync>(threads: &R, rt: HostRuntime) -> Result<(), u8> {
    let page = all_rows(threads, rt.alloc());
    if page.lacks {
        return Err(NO_MEMORY);
    }
    let mut out = StdSink::new(rt.stdout());
    match write_all(&mut out, page.text.as_bytes()) {
        Ok(()) => Ok(()),
        Err(_) => Err(NOT_WRITTEN),
    }
}

fn main(rt: HostRuntime) -> ExitCode {
    match print_rows(&rt, rt) {
        Ok(()) => {
            let (_called, code) = run_program(&rt, rt, env::args(&rt));
            code
        }
        Err(status) => ExitCode::from(status),
    }
}
