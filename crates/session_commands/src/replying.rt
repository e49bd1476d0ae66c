// The replies to the commands of runs, with the names that were declared and what the records keep.
ghost use Rattle.std.specs.Prelude.{◌≡◌, ◌≢◌, ◌++◌, ◌∷◌, [], ℕ, map, IfOk, OnErr};
ghost use Rattle.mid_logger.specs.ChannelTurns.{logger_name};
ghost use Rattle.session_commands.specs.RunLines.{record_fronts, record_files, record_reports, latest_record, member_name, reply_for, report_line, tally_line};

use console::Reply;
use daq_types::{BoundedList, Bytes, Name, NoMemory};
use session_runs::{
    ChannelFiles, FileRecords, FrontTally, MemberName, ReportLine, ReportLines, ReportTally,
    RunRecord, RunReply, Runs, SentLine, SentLines,
};
use std::alloc::Global;

/// The name of the logger.
fn logger_name() -> Name
    ensures { result ≡ logger_name }
{
    match Name::new(b"Logger") {
        Ok(name) => name,
        Err(_) => unreachable!(),
    }
}

/// The name of the member with this client number.
fn member_name(members: &[MemberName], client: u32) -> Name
    ensures { result ≡ member_name members.now client }
{
    match members.get(client as usize) {
        Some(member) => member.name,
        None => logger_name(),
    }
}

/// What the console tells of the front-ends.
fn sent_lines(
    alloc: Global,
    members: &[MemberName],
    tallies: &[FrontTally],
) -> Result<SentLines, NoMemory>
    ensures { IfOk result (λ lines. lines ≡ map (tally_line members.now) tallies.now) }
{
    let mut lines = BoundedList::new(alloc)?;
    for tally in tallies {
        lines.try_push(SentLine {
            name: member_name(members, tally.client),
            sent: tally.sent,
        })?;
    }
    Ok(lines)
}

/// The files of a record once more.
fn copied_files(alloc: Global, files: &[ChannelFiles]) -> Result<FileRecords, NoMemory>
    ensures { IfOk result (λ copied. copied ≡ files.now) }
{
    let mut copied = BoundedList::new(alloc)?;
    for channel in files {
        copied.try_push(channel.copy())?;
    }
    Ok(copied)
}

/// A name with a blank behind it.
fn line_start(alloc: Global, name: &[u8]) -> Result<Bytes, NoMemory>
    ensures { IfOk result (λ start. start ≡ name.now ++ 32 ∷ []) }
{
    let mut start = Vec::new(alloc);
    start.extend_from_slice(name)?;
    start.push(b' ')?;
    Ok(Bytes::of(start))
}

/// What the console tells of an analyzer.
fn report_line(
    alloc: Global,
    members: &[MemberName],
    tally: &ReportTally,
) -> Result<ReportLine, NoMemory>
    ensures { IfOk result (λ line. line ≡ report_line members.now tally.now) }
{
    let name = member_name(members, tally.client);
    let start = line_start(alloc, name.as_slice())?;
    let report = tally.report.copied(alloc)?;
    Ok(ReportLine { start, report })
}

/// What it tells of the analyzers.
fn report_lines(
    alloc: Global,
    members: &[MemberName],
    tallies: &[ReportTally],
) -> Result<ReportLines, NoMemory>
    ensures { IfOk result (λ lines. lines
        ≡ map (report_line members.now) tallies.now) }
{
    let mut lines = BoundedList::new(alloc)?;
    for tally in tallies {
        let line = report_line(alloc, members, tally)?;
        lines.try_push(line)?;
    }
    Ok(lines)
}

/// The reply to a stop of the run of this number, of which these are the records.
fn stop_reply(
    alloc: Global,
    members: &[MemberName],
    records: &[RunRecord],
    run: u32,
) -> Result<Reply, NoMemory>
    ensures { IfOk result (λ reply. reply ≡ Reply.Stopped run
        (map (tally_line members.now) (record_fronts (latest_record records.now)))
        (record_files (latest_record records.now))
        (map (report_line members.now) (record_reports (latest_record records.now)))) }
{
    let Some(record) = records.last() else {
        let fronts = BoundedList::new(alloc)?;
        let files = BoundedList::new(alloc)?;
        let reports = BoundedList::new(alloc)?;
        return Ok(Reply::Stopped {
            run,
            fronts,
            files,
            reports,
        });
    };
    let reports = report_lines(alloc, members, record.reports.as_slice())?;
    let fronts = sent_lines(alloc, members, record.fronts.as_slice())?;
    let files = copied_files(alloc, record.files.as_slice())?;
    Ok(Reply::Stopped {
        run,
        fronts,
        files,
        reports,
    })
}

/// The reply to a command of runs by which no run was stopped, behind which these are kept.
pub fn plain_reply(runs: &Runs<'_>, answer: RunReply) -> Reply
    requires { (run : ℕ) → answer ≢ RunReply.Stopped run }
    ensures { result ≡ reply_for runs.now answer }
{
    match answer {
        RunReply::WrongState { state } => Reply::WrongState { state },
        RunReply::LastStart => Reply::LastStart,
        RunReply::RunNumber { have } => Reply::RunNumber { have },
        RunReply::StartRefused { client, why } => {
            let client = member_name(runs.members(), client);
            Reply::StartRefused { client, why }
        }
        RunReply::Started { run } => Reply::Started { run },
        RunReply::Paused { run } => Reply::Paused { run },
        RunReply::Resumed { run } => Reply::Resumed { run },
        RunReply::Stopped { .. } => unreachable!(),
    }
}

/// The reply to a command of runs, behind which these are kept.
pub fn reply_for(alloc: Global, runs: &Runs<'_>, answer: RunReply) -> Result<Reply, NoMemory>
    ensures reply { IfOk result (λ reply. reply ≡ reply_for runs.now answer) }
    ensures stopped { OnErr result ((run : ℕ) × (answer ≡ RunReply.Stopped run)) }
{
    if let RunReply::Stopped { run } = answer {
        return stop_reply(alloc, runs.members(), runs.records(), run);
    }
    Ok(plain_reply(runs, answer))
}
