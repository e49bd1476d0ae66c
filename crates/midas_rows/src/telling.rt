use crate::outsides::MemOutside;
use crate::page::{Page, shown};
use crate::rows::Row;
use daq_mem::MemFiles;
use daq_types::FileName;
use midas_cli::{Cause, Summary};
use session_runs::RunRecord;
use std::fmt::Write;

/// Adds bytes in hexadecimal digits, in a line.
fn add_digits(page: &mut Page, line: &[u8]) {
    for byte in line {
        let added = write!(page.text, " {byte:02x}");
        page.note(added);
    }
    page.add("\n");
}

/// Adds bytes in hexadecimal digits, 16 in a line.
fn add_lines(page: &mut Page, bytes: &[u8]) {
    for line in bytes.chunks(16) {
        add_digits(page, line);
    }
}

/// Adds that there is no file of this name.
fn add_missing(page: &mut Page, name: &str) {
    let added = writeln!(page.text, "no file {name}");
    page.note(added);
}

/// Whether the file of this name is closed, in a word.
fn state_of(files: &MemFiles, name: &FileName) -> &'static str {
    if files.is_closed(name) {
        "closed"
    } else {
        "open"
    }
}

/// Adds a file: whether it is there and closed, and its bytes.
fn add_file(page: &mut Page, files: &MemFiles, name: &str) {
    let Ok(key) = FileName::new(name) else {
        return;
    };
    let Some(bytes) = files.find(&key) else {
        add_missing(page, name);
        return;
    };
    let state = state_of(files, &key);
    let length = bytes.len();
    let added = writeln!(page.text, "{name}: {length} bytes, {state}");
    page.note(added);
    add_lines(page, bytes);
}

/// Adds a file of the database: whether it is there and closed, and its text.
fn add_dump(page: &mut Page, files: &MemFiles, name: &str) {
    let Ok(key) = FileName::new(name) else {
        return;
    };
    let Some(text) = files.find(&key) else {
        add_missing(page, name);
        return;
    };
    let state = state_of(files, &key);
    let added = writeln!(page.text, "{name}, {state}:");
    page.note(added);
    page.add_bytes(text);
}

/// Adds the status and the cause of a call of the program.
fn add_cause(page: &mut Page, outcome: &Summary) {
    let status = outcome.status;
    let added = match &outcome.cause {
        Cause::FileFault { name } => {
            let name = shown(name.as_slice());
            writeln!(page.text, "status {status}: FileFault {name}")
        }
        cause => writeln!(page.text, "status {status}: {cause:?}"),
    };
    page.note(added);
}

/// Adds the record of a start, and what each front-end sent in its run.
fn add_record(page: &mut Page, record: &RunRecord) {
    let RunRecord {
        run,
        start,
        time0,
        time1,
        outcome,
        fronts,
        ..
    } = record;
    let added = writeln!(
        page.text,
        "start {start} of run {run}, {time0} to {time1}: {outcome:?}"
    );
    page.note(added);
    for front in fronts.as_slice() {
        let added = writeln!(page.text, "  {front:?}");
        page.note(added);
    }
}

/// Adds the records of the starts of a session.
fn add_records(page: &mut Page, outcome: &Summary) {
    if let Some(runs) = &outcome.runs {
        for record in runs.as_slice() {
            add_record(page, record);
        }
    }
}

/// Adds the replies of the files of the database.
fn add_replies(page: &mut Page, outcome: &Summary) {
    for (line, reply) in outcome.file_replies.as_slice() {
        let added = writeln!(page.text, "file of line {line}: {reply:?}");
        page.note(added);
    }
}

/// Adds the run files that are shown of a row.
fn add_files(page: &mut Page, row: &Row, files: &MemFiles) {
    for name in row.run_files {
        add_file(page, files, name);
    }
}

/// Adds the files of the database that are shown of a row.
fn add_dumps(page: &mut Page, row: &Row, files: &MemFiles) {
    for name in row.dumps {
        add_dump(page, files, name);
    }
}

/// Adds what the script of a row came to: what it printed, its status, its starts, the replies of the files of the
/// database, and the files that it left.
pub fn add_played(page: &mut Page, row: &Row, outcome: &Summary, after: &MemOutside) {
    let added = writeln!(page.text, "== {}", row.title);
    page.note(added);
    page.add_bytes(after.out.bytes());
    add_cause(page, outcome);
    add_records(page, outcome);
    add_replies(page, outcome);
    add_files(page, row, &after.run_files);
    add_dumps(page, row, &after.odb_files);
}

/// Adds what a tool prints, with its words in front.
pub fn add_tool(page: &mut Page, words: &[&str], outcome: &Summary, after: &MemOutside) {
    page.add("$ midas");
    for word in words {
        let added = write!(page.text, " {word}");
        page.note(added);
    }
    page.add("\n");
    page.add_bytes(after.out.bytes());
    add_cause(page, outcome);
}
