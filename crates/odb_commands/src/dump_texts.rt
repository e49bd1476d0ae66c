ghost use Rattle.std.specs.Prelude.{◌≡◌, ◌++◌, ◌∷◌, [], OnOk, codes};
ghost use Rattle.std.specs.Fmt.{decimal};
ghost use Rattle.odb_commands.specs.Texts.{odb_text, refused_line};
ghost use Rattle.odb_commands.specs.WatchTexts.{told_row, told_line, told_lines, loaded_line, key_refused_text, load_why_text, watch_why_text, watch_refusal_text, watch_reply_text};

use crate::watch_replies::{ToldNote, WatchCommandRefusal, WatchReply};
use crate::{CommandRefusal, begin_refusal};
use daq_text::TextBuffer;
use daq_types::NoMemory;
use odb_text::{LoadRefusal, Loaded};
use odb_tree::OdbRefusal;
use odb_value::{Path, print_path};
use odb_watch::WatchRefusal;

/// Adds the path of a row, or its number where the row is gone.
fn add_row(text: &mut TextBuffer, row: u32, path: &Option<Path>) -> Result<(), NoMemory>
    ensures { OnOk result (text.new ≡ text.old ++ told_row row path.now) }
{
    match path {
        None => {
            text.text(b"gone ")?;
            text.number(row as u64)
        }
        Some(path) => print_path(path.names(), text),
    }
}

/// Adds the line of a note.
fn add_note(text: &mut TextBuffer, told: &ToldNote) -> Result<(), NoMemory>
    ensures { OnOk result (text.new ≡ text.old ++ told_line told.now) }
{
    add_row(text, told.note.row, &told.path)?;
    text.text(b"[")?;
    text.number(told.note.index as u64)?;
    text.text(b"]\n")
}

/// Adds the lines of notes.
fn add_notes(text: &mut TextBuffer, notes: &[ToldNote]) -> Result<(), NoMemory>
    ensures { OnOk result (text.new ≡ text.old ++ told_lines notes.now) }
{
    for told in notes {
        add_note(text, told)?;
    }
    Ok(())
}

/// Adds how many keys were loaded, and how many skipped.
fn add_loaded(text: &mut TextBuffer, loaded: &Loaded) -> Result<(), NoMemory>
    ensures { OnOk result (text.new ≡ text.old ++ loaded_line loaded.now) }
{
    text.text(b"loaded ")?;
    text.number(loaded.keys as u64)?;
    text.text(b" skipped ")?;
    text.number(loaded.skipped as u64)?;
    text.text(b"\n")
}

/// Adds a line of a word and a number.
fn add_number(text: &mut TextBuffer, word: &[u8], number: u64) -> Result<(), NoMemory>
    ensures { OnOk result (text.new ≡ text.old ++ (word.now ++ (decimal number ++ 10 ∷ []))) }
{
    text.text(word)?;
    text.number(number)?;
    text.text(b"\n")
}

/// Adds the notes of a watch, and how many others were lost.
fn add_told(text: &mut TextBuffer, notes: &[ToldNote], lost: u64) -> Result<(), NoMemory>
    ensures { OnOk result (text.new ≡ text.old ++ (told_lines notes.now
        ++ (codes "lost " ++ (decimal lost ++ 10 ∷ [])))) }
{
    add_notes(text, notes)?;
    add_number(text, b"lost ", lost)
}

/// Adds why the database refused a call.
fn add_odb_refusal(text: &mut TextBuffer, why: OdbRefusal) -> Result<(), NoMemory>
    ensures { OnOk result (text.new ≡ text.old ++ odb_text why) }
{
    CommandRefusal::Database { why }.print(text)
}

/// Adds why no watch was begun.
fn add_watch_refusal(text: &mut TextBuffer, why: WatchRefusal) -> Result<(), NoMemory>
    ensures { OnOk result (text.new ≡ text.old ++ watch_why_text why) }
{
    match why {
        WatchRefusal::NoWatchSlot => text.text(b"NoWatchSlot"),
        WatchRefusal::NoMemory => text.text(b"NoMemory"),
    }
}

/// Adds why what a line of a text asks for is refused.
fn add_key_refused(text: &mut TextBuffer, line: u32, why: OdbRefusal) -> Result<(), NoMemory>
    ensures { OnOk result (text.new ≡ text.old ++ key_refused_text line why) }
{
    text.text(b"KeyRefused ")?;
    text.number(line as u64)?;
    text.text(b" ")?;
    add_odb_refusal(text, why)
}

/// Adds why a text was not loaded.
fn add_load_refusal(text: &mut TextBuffer, why: LoadRefusal) -> Result<(), NoMemory>
    ensures { OnOk result (text.new ≡ text.old ++ load_why_text why) }
{
    match why {
        LoadRefusal::BadLine { line } => {
            text.text(b"BadLine ")?;
            text.number(line as u64)
        }
        LoadRefusal::KeyRefused { line, why } => add_key_refused(text, line, why),
        LoadRefusal::NoMemory => text.text(b"NoMemory"),
    }
}

impl WatchCommandRefusal {
    /// Adds the refusal: its name, and its fields in the order of their declaration, each behind a blank.
    pub fn print(&self, text: &mut TextBuffer) -> Result<(), NoMemory>
        ensures { OnOk result (text.new ≡ text.old ++ watch_refusal_text self.now) }
    {
        match *self {
            WatchCommandRefusal::Path { why } => CommandRefusal::Path { why }.print(text),
            WatchCommandRefusal::Database { why } => add_odb_refusal(text, why),
            WatchCommandRefusal::Watch { why } => add_watch_refusal(text, why),
            WatchCommandRefusal::NoWatch => text.text(b"NoWatch"),
            WatchCommandRefusal::BadFileName => text.text(b"BadFileName"),
            WatchCommandRefusal::Missing => text.text(b"Missing"),
            WatchCommandRefusal::Exists => text.text(b"Exists"),
            WatchCommandRefusal::FileFault => text.text(b"FileFault"),
            WatchCommandRefusal::TooLong => text.text(b"TooLong"),
            WatchCommandRefusal::Load { why } => add_load_refusal(text, why),
        }
    }
}

/// Adds the line of a refusal, with the number of the script's line.
fn add_refused(text: &mut TextBuffer, line: u64, why: &WatchCommandRefusal) -> Result<(), NoMemory>
    ensures { OnOk result (text.new ≡ text.old ++ refused_line line (watch_refusal_text why.now)) }
{
    begin_refusal(text, line)?;
    why.print(text)?;
    text.text(b"\n")
}

impl WatchReply {
    /// Adds what the command prints, which stands in the script's line of this number: for `load` how many keys were loaded
    /// and skipped; for `save` how many bytes; for `watch` the watch's number; for `notes` a line per note and how many
    /// others were lost; one line for a refusal; nothing for `unwatch`.
    pub fn print(&self, line: u64, text: &mut TextBuffer) -> Result<(), NoMemory>
        ensures { OnOk result (text.new ≡ text.old ++ watch_reply_text line self.now) }
    {
        match self {
            WatchReply::Ended => Ok(()),
            WatchReply::Loaded { loaded } => add_loaded(text, loaded),
            WatchReply::Saved { bytes } => add_number(text, b"saved ", *bytes),
            WatchReply::Watching { watch } => add_number(text, b"watch ", *watch as u64),
            WatchReply::Told { notes, lost } => add_told(text, notes.as_slice(), *lost),
            WatchReply::Refused { why } => add_refused(text, line, why),
        }
    }
}
