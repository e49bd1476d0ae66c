// What the clients told in the end of a transition, taken into the record of a run.
ghost use Rattle.std.specs.Prelude.{◌≡◌, ◌≢◌, ◌≤◌, ◌<◌, ◌+◌, ◌++◌, [], ℕ, length, slice_get, Some, IfNone};
ghost use Rattle.std.specs.Option.{option_map, option_to_list};
ghost use Rattle.member_model.specs.RunEngines.{ClientTally};
ghost use Rattle.session_runs.specs.ToldTallies.{front_told, fronts_told, ends_told, files_of, files_told, channel_told, front_by, ends_by, report_by, report_told, reports_told};

use crate::channels::RunChannel;
use crate::{ChannelFiles, FileRecords, FrontTallies, FrontTally, ReportTallies, ReportTally};
use daq_types::ChannelEnd;
use member_model::{ClientTally, Tallies, Tally};
use std::mem::replace;

/// What this client told that it sent.
fn front_told(client: u32, tallies: &[ClientTally]) -> Option<FrontTally>
    ensures { result ≡ front_told client tallies.now }
{
    for told in tallies {
        if let Some(front) = front_by(client, told) {
            return Some(front);
        }
    }
    None
}

/// What one told that it sent, where it is this client.
fn front_by(client: u32, told: &ClientTally) -> Option<FrontTally>
    ensures { result ≡ front_by client told.now }
{
    match &told.tally {
        Tally::Front { sent, ended } if told.client == client => Some(FrontTally {
            client,
            sent: *sent,
            ended: *ended,
        }),
        _ => None,
    }
}

/// Takes in what the first so many clients told that they sent.
pub(crate) fn take_fronts(fronts: &mut FrontTallies, count: u32, tallies: &[ClientTally])
    requires empty { fronts.old ≡ [] }
    requires few { count ≤ 32 }
    ensures { fronts.new ≡ fronts_told count tallies.now }
{
    for client in 0..count {
        if let Some(front) = front_told(client, tallies) {
            fronts.push(front);
        }
    }
}

/// What one told of the logger's channels, where it is this client.
fn ends_by(client: u32, told: &ClientTally) -> Option<&[ChannelEnd; 16]>
    ensures { option_map (λ ends. ends.now) result ≡ ends_by client told.now }
{
    match &told.tally {
        Tally::Channels(ends) if told.client == client => Some(ends),
        _ => None,
    }
}

/// What this client told of the logger's channels.
fn ends_told(logger: u32, tallies: &[ClientTally]) -> Option<&[ChannelEnd; 16]>
    ensures { option_map (λ ends. ends.now) result ≡ ends_told logger tallies.now }
{
    for told in tallies {
        if let Some(ends) = ends_by(logger, told) {
            return Some(ends);
        }
    }
    None
}

/// The files of a channel, where what became of them is told.
fn channel_told(ends: &[ChannelEnd], channel: &RunChannel) -> Option<ChannelFiles>
    ensures { result ≡ channel_told ends.now channel.now }
{
    let told = ends.get(channel.number as usize)?;
    Some(ChannelFiles {
        channel: channel.number,
        pattern: channel.pattern.copy(),
        told: *told,
    })
}

/// Takes in the files of a channel, if there are any.
fn take_channel(files: &mut FileRecords, channel: Option<ChannelFiles>)
    requires { length files.old < 16 }
    ensures taken { files.new ≡ files.old ++ option_to_list channel }
    ensures one { length files.new ≤ length files.old + 1 }
{
    if let Some(channel) = channel {
        files.push(channel);
    }
}

/// Takes in the files of these channels.
fn take_told(files: &mut FileRecords, channels: &[RunChannel], ends: &[ChannelEnd])
    requires empty { files.old ≡ [] }
    requires few { length channels.now ≤ 16 }
    ensures { files.new ≡ files_told ends.now channels.now }
{
    for channel in channels {
        take_channel(files, channel_told(ends, channel));
    }
}

/// Takes in the files of the logger's channels, by what the logger told of them.
pub(crate) fn take_files(
    files: &mut FileRecords,
    channels: &[RunChannel],
    logger: u32,
    tallies: &[ClientTally],
)
    requires empty { files.old ≡ [] }
    requires few { length channels.now ≤ 16 }
    ensures { files.new ≡ files_of (ends_told logger tallies.now) channels.now }
{
    if let Some(ends) = ends_told(logger, tallies) {
        take_told(files, channels, ends);
    }
}

/// Takes the report that one told, where it is this client. Who told no report has what it told as before.
fn report_by(client: u32, told: &mut ClientTally) -> Option<ReportTally>
    ensures told { result ≡ report_by client told.old }
    ensures same { IfNone result (told.new ≡ told.old) }
    ensures others { (other : ℕ) → other ≢ client
        → report_by other told.new ≡ report_by other told.old }
{
    if told.client != client {
        return None;
    }
    match replace(&mut told.tally, Tally::Plain) {
        Tally::Report(report) => Some(ReportTally { client, report }),
        tally => {
            told.tally = tally;
            None
        }
    }
}

/// Takes the report that was told at this place, where it is this client that told it.
fn report_at(client: u32, tallies: &mut Tallies, place: usize) -> Option<ReportTally>
    requires { place < length tallies.old }
    ensures told { (told : ClientTally) × (slice_get tallies.old place ≡ Some told)
        × (result ≡ report_by client told) }
    ensures same { IfNone result (tallies.new ≡ tallies.old) }
    ensures others { (other : ℕ) → other ≢ client
        → report_told other tallies.new ≡ report_told other tallies.old }
{
    let Some(told) = tallies.get_mut(place) else {
        unreachable!()
    };
    report_by(client, told)
}

/// Takes the report that this client told.
fn report_told(client: u32, tallies: &mut Tallies) -> Option<ReportTally>
    ensures told { result ≡ report_told client tallies.old }
    ensures others { (other : ℕ) → other ≢ client
        → report_told other tallies.new ≡ report_told other tallies.old }
{
    for place in 0..tallies.len() {
        if let Some(report) = report_at(client, tallies, place) {
            return Some(report);
        }
    }
    None
}

/// Takes in a report, if there is one.
fn take_report(reports: &mut ReportTallies, report: Option<ReportTally>)
    requires { length reports.old < 8 }
    ensures taken { reports.new ≡ reports.old ++ option_to_list report }
    ensures one { length reports.new ≤ length reports.old + 1 }
{
    if let Some(report) = report {
        reports.push(report);
    }
}

/// Takes in what so many clients from this number on told that they counted. The reports are moved, so no memory is taken.
pub(crate) fn take_reports(
    reports: &mut ReportTallies,
    first: u32,
    count: u32,
    tallies: &mut Tallies,
)
    requires empty { reports.old ≡ [] }
    requires few { count ≤ 8 }
    requires small { first ≤ 64 }
    ensures { reports.new ≡ reports_told first count tallies.old }
{
    for place in 0..count {
        let report = report_told(first + place, tallies);
        take_report(reports, report);
    }
}
