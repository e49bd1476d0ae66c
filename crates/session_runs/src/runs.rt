// What the main thread keeps of a session's runs.
ghost use Rattle.std.specs.Prelude.{◌≡◌, ◌≤◌, [], None, IfOk};
ghost use Rattle.daq_types.specs.declared.runs.RunState.TheVariants.{Stopped};
ghost use Rattle.session_runs.specs.MainKnowledge.{known_from};
ghost use Rattle.session_runs.specs.KeptRuns.{IsInStep, channels_of};
ghost use Rattle.session_runs.specs.Members.{gets_reports, reporter_count, sender_count, sends_events};

use crate::channels::{RunChannels, channels_of};
use crate::on::{CurrentRun, OpenRun};
use crate::opening::{MemberName, sends_events, wants_report};
use crate::{MainSeat, RunRecord};
use daq_types::{BoundedList, Journal, NoMemory};
use member_model::Tallies;
use mid_logger::ChannelSpec;
use std::alloc::Global;
use std::marker::Model;

/// What the main thread keeps of a session's runs: the quota of the runs to come, the records, the members by their client numbers,
/// the run that is on with all that its end needs, and the main thread's place at the engine. By its own calls there it knows what
/// the engine allows, so a run is on exactly where the engine's state is not stopped.
#[derive(Drop)]
pub struct Runs<'a> {
    pub(crate) seat: MainSeat<'a>,
    pub(crate) quota: u32,
    pub(crate) runs: Vec<RunRecord>,
    pub(crate) members: Vec<MemberName>,
    pub(crate) channels: RunChannels,
    pub(crate) tallies: Tallies,
    pub(crate) on: Option<OpenRun>,
}

impl<'a> Model for Runs<'a> {
    ghost use Rattle.std.specs.Prelude.{◌≡◌, ◌≤◌, ◌<◌, [], length, vec_len, vec_capacity};
    ghost use Rattle.std.specs.Option.{option_map, ForSome};
    ghost use Rattle.session_runs.specs.MainKnowledge.{known_from};
    ghost use Rattle.session_runs.specs.KeptRuns.{RunsSeen, IsInStep};
    ghost use Rattle.session_runs.specs.Members.{reporter_count, sender_count};

    ghost Value = { RunsSeen };

    ghost view = { λ r. record {
      quota = r.quota;
      runs = r.runs.items;
      members = r.members.items;
      channels = r.channels;
      on = option_map (λ o. o.run) r.on;
      main = r.seat;
    } };

    ghost invariant = { λ r. (r.tallies ≡ [])
        × (sender_count r.members.items ≤ 32)
        × (length r.channels ≤ 16)
        × (reporter_count r.members.items ≤ 8)
        × ForSome r.on (λ _. vec_len r.runs < vec_capacity r.runs)
        × IsInStep (option_map (λ o. o.run) r.on) (known_from r.seat.own) };
}

/// How many of these members send events.
pub(crate) fn sender_count(members: &[MemberName]) -> usize
    ensures { result ≡ sender_count members.now }
{
    members
        .iter()
        .filter(|member| sends_events(member.role))
        .count()
}

/// How many of these members count in a report.
pub(crate) fn reporter_count(members: &[MemberName]) -> usize
    ensures { result ≡ reporter_count members.now }
{
    members
        .iter()
        .filter(|member| wants_report(member.role))
        .count()
}

impl<'a> Runs<'a> {
    /// No run yet, with this quota, of these members, which are the engine's clients in this order, and whose logger has these
    /// channels. The front-ends are the first of them, the logger is the one behind them, and the analyzers come behind that.
    pub fn new(
        alloc: Global,
        seat: MainSeat<'a>,
        quota: u32,
        members: Vec<MemberName>,
        channels: &[ChannelSpec],
    ) -> Result<Runs<'a>, NoMemory>
        requires stopped { (known_from seat.own).state ≡ Stopped }
        requires few { sender_count members.items ≤ 32 }
        requires few_reports { reporter_count members.items ≤ 8 }
        ensures { IfOk result (λ runs. runs ≡ record {
          quota = quota;
          runs = [];
          members = members.items;
          channels = channels_of channels.now;
          on = None;
          main = seat.entry;
        }) }
    {
        let channels = channels_of(alloc, channels)?;
        let tallies = BoundedList::new(alloc)?;
        Ok(Runs {
            seat,
            quota,
            runs: Vec::new(alloc),
            members,
            channels,
            tallies,
            on: None,
        })
    }

    /// How many events each front-end has to send in the runs that are started from here on.
    pub fn set_quota(&mut self, quota: u32)
        ensures { self.new ≡ record self.old { quota = quota } }
    {
        self.quota = quota;
    }

    /// The run that is on. One is exactly where the engine's state is not stopped.
    pub fn on(&self) -> Option<CurrentRun>
        ensures on { result ≡ self.now.on }
        ensures step { IsInStep self.now.on (known_from self.now.main.own) }
    {
        self.on.as_ref().map(|open| open.run)
    }

    /// The members, in the order of their client numbers.
    pub fn members(&self) -> &[MemberName]
        ensures { result.now ≡ self.now.members }
    {
        self.members.as_slice()
    }

    /// The records so far.
    pub fn records(&self) -> &[RunRecord]
        ensures { result.now ≡ self.now.runs }
    {
        self.runs.as_slice()
    }

    /// The main thread's place at the engine, and the records.
    pub fn into_parts(self) -> (MainSeat<'a>, Journal<RunRecord>)
        ensures main { result.0 ≡ self.entry.main }
        ensures runs { result.1 ≡ self.entry.runs }
    {
        let Runs { seat, runs, .. } = self;
        (seat, BoundedList::of(runs))
    }
}
