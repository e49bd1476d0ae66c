//! The command of a line, by the name in front and the form that it begins.
ghost use Rattle.std.specs.Prelude.{◌≡◌};
ghost use Rattle.odb_script.specs.declared.commands.Command.TheVariants.{Run};
ghost use Rattle.odb_script.specs.Forms.{buffer_form, equip_form, channel_form, analyzer_form, only, named_form, declaring_form, key_form, watching_form, command_of};

use crate::commands::{
    Command, Declaration, RowCommand, RunCommand, WatchCommand, on_rows, on_watches,
};
use crate::key_forms::{read_create, read_get, read_link, read_set};
use crate::pieces::{
    end, is_name, last_number, next_kind, next_number, next_small, only_number, only_text, text,
};
use crate::refusals::{LINE_BYTES, LineRefusal};
use crate::words::{NextWord, WordReader};

/// `buffer NAME SIZE`
fn read_buffer<'a>(words: &mut WordReader<'a>) -> Result<Command<'a>, LineRefusal>
    ensures { result ≡ buffer_form words.old }
{
    let name = text(words)?;
    let size = only_number(words)?;
    let declaration = Declaration::Buffer { name, size };
    Ok(Command::Declare { declaration })
}

/// `equip NAME ID MASK BUFFER [LIMIT]`
fn read_equip<'a>(words: &mut WordReader<'a>) -> Result<Command<'a>, LineRefusal>
    ensures { result ≡ equip_form words.old }
{
    let name = text(words)?;
    let id = next_number(words, u32::MAX)?;
    let mask = next_small(words)?;
    let buffer = text(words)?;
    let limit = last_number(words)?.unwrap_or(u32::MAX);
    let declaration = Declaration::Equip {
        name,
        id,
        mask,
        buffer,
        limit,
    };
    Ok(Command::Declare { declaration })
}

/// `channel N PATTERN BUFFER ID MASK [SUBBYTES]`
fn read_channel<'a>(words: &mut WordReader<'a>) -> Result<Command<'a>, LineRefusal>
    ensures { result ≡ channel_form words.old }
{
    let number = next_number(words, u32::MAX)?;
    let pattern = text(words)?;
    let buffer = text(words)?;
    let id = next_small(words)?;
    let mask = next_small(words)?;
    let sub_bytes = last_number(words)?.unwrap_or(0);
    let declaration = Declaration::Channel {
        number,
        pattern,
        buffer,
        id,
        mask,
        sub_bytes,
    };
    Ok(Command::Declare { declaration })
}

/// `analyzer NAME BUFFER ID MASK all` or `some`
fn read_analyzer<'a>(words: &mut WordReader<'a>) -> Result<Command<'a>, LineRefusal>
    ensures { result ≡ analyzer_form words.old }
{
    let name = text(words)?;
    let buffer = text(words)?;
    let id = next_small(words)?;
    let mask = next_small(words)?;
    let kind = next_kind(words)?;
    end(words)?;
    let declaration = Declaration::Analyzer {
        name,
        buffer,
        id,
        mask,
        kind,
    };
    Ok(Command::Declare { declaration })
}

/// A command of one word.
fn read_only<'a>(
    command: Command<'a>,
    words: &mut WordReader<'a>,
) -> Result<Command<'a>, LineRefusal>
    ensures { result ≡ only command.entry words.old }
{
    end(words)?;
    Ok(command)
}

/// A command for runs of one word.
fn read_run<'a>(command: RunCommand, words: &mut WordReader<'a>) -> Result<Command<'a>, LineRefusal>
    ensures { result ≡ only (Run command) words.old }
{
    read_only(Command::Run { command }, words)
}

/// The form that begins with this name, which stands at this place: that of a dump or of a watch. None begins with
/// another name.
#[tactic(auto, unfolding(crate::specs::Forms::watching_form))]
fn read_watching<'a>(
    at: u32,
    name: &[u8],
    words: &mut WordReader<'a>,
) -> Result<Command<'a>, LineRefusal>
    ensures { result ≡ watching_form at name.now words.old }
{
    if is_name(name, "load") {
        let file = only_text(words)?;
        return Ok(on_watches(WatchCommand::Load { file }));
    }
    if is_name(name, "save") {
        let file = only_text(words)?;
        return Ok(on_watches(WatchCommand::Save { file }));
    }
    if is_name(name, "watch") {
        let path = only_text(words)?;
        return Ok(on_watches(WatchCommand::Watch { path }));
    }
    if is_name(name, "notes") {
        let watch = only_number(words)?;
        return Ok(on_watches(WatchCommand::Notes { watch }));
    }
    if is_name(name, "unwatch") {
        let watch = only_number(words)?;
        return Ok(on_watches(WatchCommand::Unwatch { watch }));
    }
    Err(LineRefusal::BadCommand { at })
}

/// The form that begins with this name: that of a command for a key, or what `read_watching` knows.
#[tactic(auto, unfolding(crate::specs::Forms::key_form))]
fn read_key<'a>(
    at: u32,
    name: &[u8],
    words: &mut WordReader<'a>,
) -> Result<Command<'a>, LineRefusal>
    ensures { result ≡ key_form at name.now words.old }
{
    if is_name(name, "create") {
        return read_create(words);
    }
    if is_name(name, "link") {
        return read_link(words);
    }
    if is_name(name, "set") {
        return read_set(words);
    }
    if is_name(name, "get") {
        return read_get(words);
    }
    if is_name(name, "ls") {
        let path = only_text(words)?;
        return Ok(on_rows(RowCommand::List { path }));
    }
    if is_name(name, "rm") {
        let path = only_text(words)?;
        return Ok(on_rows(RowCommand::Remove { path }));
    }
    read_watching(at, name, words)
}

/// The form that begins with this name: that of a declaration, or what `read_key` knows.
#[tactic(auto, unfolding(crate::specs::Forms::declaring_form))]
fn read_declaring<'a>(
    at: u32,
    name: &[u8],
    words: &mut WordReader<'a>,
) -> Result<Command<'a>, LineRefusal>
    ensures { result ≡ declaring_form at name.now words.old }
{
    if is_name(name, "buffer") {
        return read_buffer(words);
    }
    if is_name(name, "equip") {
        return read_equip(words);
    }
    if is_name(name, "channel") {
        return read_channel(words);
    }
    if is_name(name, "analyzer") {
        return read_analyzer(words);
    }
    read_key(at, name, words)
}

/// The form that begins with this name, which stands at this place: that of a command for runs, `exit`, or what
/// `read_declaring` knows.
#[tactic(auto, unfolding(crate::specs::Forms::named_form))]
fn read_form<'a>(
    at: u32,
    name: &[u8],
    words: &mut WordReader<'a>,
) -> Result<Command<'a>, LineRefusal>
    ensures { result ≡ named_form at name.now words.old }
{
    if is_name(name, "events") {
        let count = only_number(words)?;
        let command = RunCommand::Events { count };
        return Ok(Command::Run { command });
    }
    if is_name(name, "start") {
        return read_run(RunCommand::Start, words);
    }
    if is_name(name, "stop") {
        return read_run(RunCommand::Stop, words);
    }
    if is_name(name, "pause") {
        return read_run(RunCommand::Pause, words);
    }
    if is_name(name, "resume") {
        return read_run(RunCommand::Resume, words);
    }
    if is_name(name, "exit") {
        return read_only(Command::Exit, words);
    }
    read_declaring(at, name, words)
}

impl<'a> Command<'a> {
    /// The command of a line, given without its end; else the place of the first word with which no form goes on, or
    /// the line's length where the line ends too early or a quote is not closed. A line of more than 4,096 bytes is
    /// refused at 4096.
    #[tactic(auto, unfolding(crate::specs::Forms::command_of))]
    pub fn read(line: &'a [u8]) -> Result<Command<'a>, LineRefusal>
        ensures { result ≡ command_of line.now }
    {
        if line.len() > LINE_BYTES {
            return Err(LineRefusal::BadCommand { at: 4096 });
        }
        if line.starts_with(b"#".as_slice()) {
            return Ok(Command::Nothing);
        }
        let mut words = WordReader::new(line);
        match words.next() {
            NextWord::Word { at, text } => read_form(at, text.as_slice(), &mut words),
            NextWord::End { .. } => Ok(Command::Nothing),
            NextWord::Faulty { at } => Err(LineRefusal::BadCommand { at }),
        }
    }
}
