ghost use Rattle.std.specs.Prelude.{◌≡◌, ◌<◌, ◌++◌, ◌∷◌, OnOk, codes};
ghost use Rattle.std.specs.Fmt.{decimal};
ghost use Rattle.odb_commands.specs.Texts.{refused_line};
ghost use Rattle.odb_value.specs.declared.items.Item.TheVariants.{Int32};
ghost use Rattle.odb_value.specs.ItemTexts.{item_text};
ghost use Rattle.session_runs.specs.FileRows.{channel_rows, file_row, file_rows, row_count};
ghost use Rattle.console.specs.Console.{file_line, file_lines, name_text, report_lines, run_line, sent_line, sent_lines, setup_text, state_name, state_number, stop_text, text_of, why_text};

use crate::replies::Reply;
use daq_text::TextBuffer;
use daq_types::{ChannelState, Name, NameRefusal, NoMemory, RunState, Why};
use odb_commands::begin_refusal;
use odb_value::{Item, print_item};
use session_runs::{ChannelFiles, ReportLine, SentLine};
use session_setup::SetupRefusal;

/// The number of a run state.
fn number_of_state(state: RunState) -> u64
    ensures { result ≡ state_number state }
{
    match state {
        RunState::Stopped => 1,
        RunState::Paused => 2,
        RunState::Running => 3,
    }
}

/// The name of a channel's state.
fn name_of_state(state: ChannelState) -> &'static [u8]
    ensures { result.now ≡ state_name state }
{
    match state {
        ChannelState::Idle => b"Idle",
        ChannelState::Writing => b"Writing",
        ChannelState::Broken => b"Broken",
        ChannelState::Ended => b"Ended",
        ChannelState::NoEnd => b"NoEnd",
        ChannelState::NoMark => b"NoMark",
    }
}

/// Adds a word and a number behind it.
fn add_number(text: &mut TextBuffer, word: &[u8], number: u64) -> Result<(), NoMemory>
    ensures { OnOk result (text.new ≡ text.old ++ (word.now ++ decimal number)) }
{
    text.text(word)?;
    text.number(number)
}

/// Adds why a text is no name.
fn add_name_refusal(text: &mut TextBuffer, refusal: NameRefusal) -> Result<(), NoMemory>
    ensures { OnOk result (text.new ≡ text.old ++ name_text refusal) }
{
    match refusal {
        NameRefusal::EmptyName => text.text(b"EmptyName"),
        NameRefusal::LongName => text.text(b"LongName"),
        NameRefusal::BadByte { at } => add_number(text, b"BadByte ", at as u64),
    }
}

/// Adds why a declaration was refused.
fn add_setup_refusal(text: &mut TextBuffer, refusal: SetupRefusal) -> Result<(), NoMemory>
    ensures { OnOk result (text.new ≡ text.old ++ setup_text refusal) }
{
    match refusal {
        SetupRefusal::Opened => text.text(b"Opened"),
        SetupRefusal::BadName(refusal) => add_name_refusal(text, refusal),
        SetupRefusal::Exists => text.text(b"Exists"),
        SetupRefusal::BadBufferSize => text.text(b"BadBufferSize"),
        SetupRefusal::TooMany { most } => add_number(text, b"TooMany ", most as u64),
        SetupRefusal::SameName => text.text(b"SameName"),
        SetupRefusal::BadId => text.text(b"BadId"),
        SetupRefusal::SameId => text.text(b"SameId"),
        SetupRefusal::NoBuffer => text.text(b"NoBuffer"),
        SetupRefusal::BadChannel => text.text(b"BadChannel"),
        SetupRefusal::SameChannel => text.text(b"SameChannel"),
        SetupRefusal::BadPattern => text.text(b"BadPattern"),
        SetupRefusal::Compressed => text.text(b"Compressed"),
    }
}

/// Adds why a member refused a start.
fn add_why(text: &mut TextBuffer, why: Why) -> Result<(), NoMemory>
    ensures { OnOk result (text.new ≡ text.old ++ why_text why) }
{
    match why {
        Why::NotReady => text.text(b"NotReady"),
        Why::Exists { channel } => add_number(text, b"Exists ", channel as u64),
        Why::Fault { channel } => add_number(text, b"Fault ", channel as u64),
        Why::BufferRefused => text.text(b"BufferRefused"),
    }
}

/// Adds the name of the member that refused a start, and why.
fn add_refuser(text: &mut TextBuffer, client: &Name, why: Why) -> Result<(), NoMemory>
    ensures { OnOk result (text.new ≡ text.old ++ (client.now ++ (32 ∷ why_text why))) }
{
    text.text(client.as_slice())?;
    text.text(b" ")?;
    add_why(text, why)
}

/// Adds the line of a refusal with no field.
fn add_refused(text: &mut TextBuffer, line: u64, name: &[u8]) -> Result<(), NoMemory>
    ensures { OnOk result (text.new ≡ text.old ++ refused_line line name.now) }
{
    begin_refusal(text, line)?;
    text.text(name)?;
    text.end_line()
}

/// Adds the line of a refusal with this number.
fn add_refused_number(
    text: &mut TextBuffer,
    line: u64,
    word: &[u8],
    number: u64,
) -> Result<(), NoMemory>
    ensures { OnOk result (text.new ≡ text.old ++ refused_line line (word.now ++ decimal number)) }
{
    begin_refusal(text, line)?;
    add_number(text, word, number)?;
    text.end_line()
}

/// Adds the line of a declaration that was refused.
fn add_setup_refused(
    text: &mut TextBuffer,
    line: u64,
    refusal: SetupRefusal,
) -> Result<(), NoMemory>
    ensures { OnOk result (text.new ≡ text.old ++ refused_line line (setup_text refusal)) }
{
    begin_refusal(text, line)?;
    add_setup_refusal(text, refusal)?;
    text.end_line()
}

/// Adds the run number that the database has.
fn add_item(text: &mut TextBuffer, have: i32) -> Result<(), NoMemory>
    ensures { OnOk result (text.new ≡ text.old ++ item_text (Int32 have)) }
{
    print_item(&Item::Int32(have), text)
}

/// Adds the line of a start for which there is no run number.
fn add_no_number(text: &mut TextBuffer, line: u64, have: i32) -> Result<(), NoMemory>
    ensures { OnOk result (text.new ≡ text.old ++ refused_line line
        (codes "RunNumber " ++ item_text (Int32 have))) }
{
    begin_refusal(text, line)?;
    text.text(b"RunNumber ")?;
    add_item(text, have)?;
    text.end_line()
}

/// Adds the line of a start that a member refused.
fn add_start_refused(
    text: &mut TextBuffer,
    line: u64,
    client: &Name,
    why: Why,
) -> Result<(), NoMemory>
    ensures { OnOk result (text.new ≡ text.old ++ refused_line line
        (codes "StartRefused " ++ (client.now ++ (32 ∷ why_text why)))) }
{
    begin_refusal(text, line)?;
    text.text(b"StartRefused ")?;
    add_refuser(text, client, why)?;
    text.end_line()
}

/// Adds the line of a run: `run`, its number, and what became of it.
fn add_run(text: &mut TextBuffer, run: u32, word: &[u8]) -> Result<(), NoMemory>
    ensures { OnOk result (text.new ≡ text.old ++ run_line run word.now) }
{
    add_number(text, b"run ", run as u64)?;
    text.text(b" ")?;
    text.text(word)?;
    text.end_line()
}

/// Adds the line of what a front-end sent.
fn add_sent(text: &mut TextBuffer, front: &SentLine) -> Result<(), NoMemory>
    ensures { OnOk result (text.new ≡ text.old ++ sent_line front.now) }
{
    text.text(front.name.as_slice())?;
    add_number(text, b" sent ", front.sent)?;
    text.end_line()
}

/// Adds the lines of what the front-ends sent.
fn add_fronts(text: &mut TextBuffer, fronts: &[SentLine]) -> Result<(), NoMemory>
    ensures { OnOk result (text.new ≡ text.old ++ sent_lines fronts.now) }
{
    for front in fronts {
        add_sent(text, front)?;
    }
    Ok(())
}

/// Adds the line of a channel's file of this number in the run of this number.
fn add_file(
    text: &mut TextBuffer,
    run: u32,
    files: &ChannelFiles,
    number: u32,
) -> Result<(), NoMemory>
    requires { number < row_count files.now }
    ensures { OnOk result (text.new ≡ text.old ++ file_line (file_row run files.now number)) }
{
    text.text(files.name_of(run, number).as_slice())?;
    text.text(b" ")?;
    text.text(name_of_state(files.state_of(number)))?;
    text.end_line()
}

/// Adds the lines of a channel's files in the run of this number.
fn add_channel(text: &mut TextBuffer, run: u32, files: &ChannelFiles) -> Result<(), NoMemory>
    ensures { OnOk result (text.new ≡ text.old ++ file_lines (channel_rows run files.now)) }
{
    for number in 0..files.count() {
        add_file(text, run, files, number)?;
    }
    Ok(())
}

/// Adds the lines of all files of the run of this number.
fn add_files(text: &mut TextBuffer, run: u32, files: &[ChannelFiles]) -> Result<(), NoMemory>
    ensures { OnOk result (text.new ≡ text.old ++ file_lines (file_rows run files.now)) }
{
    for channel in files {
        add_channel(text, run, channel)?;
    }
    Ok(())
}

/// Adds the reports of the analyzers, each line behind its analyzer's name.
fn add_reports(text: &mut TextBuffer, reports: &[ReportLine]) -> Result<(), NoMemory>
    ensures { OnOk result (text.new ≡ text.old ++ report_lines reports.now) }
{
    for line in reports {
        line.report.print(line.start.as_slice(), text)?;
    }
    Ok(())
}

/// Adds the lines of a run's end.
fn add_stop(
    text: &mut TextBuffer,
    run: u32,
    fronts: &[SentLine],
    files: &[ChannelFiles],
    reports: &[ReportLine],
) -> Result<(), NoMemory>
    ensures { OnOk result (text.new ≡ text.old
        ++ stop_text run fronts.now files.now reports.now) }
{
    add_run(text, run, b"stopped")?;
    add_fronts(text, fronts)?;
    add_files(text, run, files)?;
    add_reports(text, reports)
}

impl Reply {
    /// Adds what the script's line of this number prints: one line for a refusal, which has the line's number; the lines
    /// of a run for a command of runs; for a command of the database what that prints; nothing for any other. The lines
    /// of a run have no line's number, so those of a stop that ends the script are printed with any.
    pub fn print(&self, line: u64, text: &mut TextBuffer) -> Result<(), NoMemory>
        ensures { OnOk result (text.new ≡ text.old ++ text_of line self.now) }
    {
        match self {
            Reply::Silent => Ok(()),
            Reply::BadCommand { at } => {
                add_refused_number(text, line, b"BadCommand ", *at as u64)
            }
            Reply::Setup { refusal } => add_setup_refused(text, line, *refusal),
            Reply::WrongState { state } => {
                add_refused_number(text, line, b"WrongState ", number_of_state(*state))
            }
            Reply::LastStart => add_refused(text, line, b"LastStart"),
            Reply::RunNumber { have } => add_no_number(text, line, *have),
            Reply::StartRefused { client, why } => add_start_refused(text, line, client, *why),
            Reply::Started { run } => add_run(text, *run, b"started"),
            Reply::Paused { run } => add_run(text, *run, b"paused"),
            Reply::Resumed { run } => add_run(text, *run, b"resumed"),
            Reply::Stopped {
                run,
                fronts,
                files,
                reports,
            } => add_stop(
                text,
                *run,
                fronts.as_slice(),
                files.as_slice(),
                reports.as_slice(),
            ),
            Reply::Database { reply } => reply.print(line, text),
            Reply::Watch { reply } => reply.print(line, text),
        }
    }
}
