// A transition, and what it is begun with.
ghost use Rattle.std.specs.Prelude.{◌≡◌, ◌≢◌, ◌≤◌, [], List, length, Some, Ok, IsOk, IfOk, IfSome};
ghost use Rattle.daq_types.specs.declared.runs.StartOutcome.TheVariants.{Completed};
ghost use Rattle.daq_types.specs.declared.runs.Transition.TheVariants.{Start};
ghost use Rattle.odb_text.specs.Dumps.{dump_limit};
ghost use Rattle.std.specs.List.{AllByRecursion};
ghost use Rattle.event_report.specs.Reports.{IsBlank};
ghost use Rattle.member_model.specs.RunEngines.{ClientTally, IsSheet};
ghost use Rattle.session_runs.specs.RunEntries.{blank_reports};
ghost use Rattle.session_runs.specs.MainKnowledge.{known_from, begin_known, known_behind};
ghost use Rattle.session_runs.specs.MadeTransitions.{DrivesTransition};

use crate::{Made, MainSeat};
use daq_types::{BoundedList, Bytes, NoMemory, Transition};
use event_report::Report;
use member_crew::Rounds;
use member_model::{Reports, Sheet, Tallies};
use std::alloc::Global;
use std::sync::Wait;

/// So many reports of no events.
pub(crate) fn blank_reports(alloc: Global, count: usize) -> Result<Reports, NoMemory>
    ensures made { IfOk result (λ blanks. blanks ≡ blank_reports count) }
    ensures blank { IfOk result (λ blanks. AllByRecursion IsBlank blanks) }
{
    let mut blanks = Reports::new(alloc)?;
    for _place in 0..count {
        let report = Report::new(alloc)?;
        blanks.try_push(report)?;
    }
    Ok(blanks)
}

/// What a start is begun with. Takes no memory.
pub(crate) fn start_sheet(run: u32, time: u32, quota: u32, dump: Bytes, blanks: Reports) -> Sheet
    requires dump { length dump ≤ dump_limit }
    requires blanks { AllByRecursion IsBlank blanks }
    ensures is { result ≡ record {
      run = run;
      time = time;
      quota = quota;
      dump = Some dump;
      blanks = blanks;
    } }
    ensures sheet { IsSheet result }
{
    Sheet {
        run,
        time,
        quota,
        dump: Some(dump),
        blanks,
    }
}

/// What any other transition is begun with: only a start has reports to be counted in. Takes no memory.
pub(crate) fn sheet_for(
    alloc: Global,
    run: u32,
    time: u32,
    quota: u32,
    dump: Option<Bytes>,
) -> Sheet
    requires { IfSome dump (λ text. length text ≤ dump_limit) }
    ensures is { result
        ≡ record { run = run; time = time; quota = quota; dump = dump; blanks = [] } }
    ensures sheet { IsSheet result }
{
    Sheet {
        run,
        time,
        quota,
        dump,
        blanks: BoundedList::of(Vec::new(alloc)),
    }
}

/// Makes a transition that would begin, as `MainSeat::make`. The tallies are not kept.
pub(crate) fn make_untold<R: Wait, M: Rounds>(
    rt: &R,
    seat: &mut MainSeat<'_>,
    transition: Transition,
    sheet: Sheet,
    tallies: &mut Tallies,
    members: &mut M,
) -> Made
    requires begins { IsOk (begin_known (known_from seat.old.own) transition) }
    requires sheet { IsSheet sheet }
    requires empty { tallies.old ≡ [] }
    ensures begun { begin_known (known_from seat.old.own) transition ≡ Ok result.start }
    ensures made { (told : List ClientTally) × DrivesTransition M.round transition sheet
        result.start result.outcome told seat.old.own seat.new.own members.old members.new }
    ensures known { known_from seat.new.own
        ≡ known_behind transition result.outcome (known_from seat.old.own) }
    ensures last { (known_from seat.new.own).starts ≡ result.start }
    ensures completed { transition ≢ Start → result.outcome ≡ Completed }
    ensures engine { seat.new.engine ≡ seat.old.engine }
    ensures empty { tallies.new ≡ [] }
{
    let made = seat.make(rt, transition, sheet, tallies, members);
    tallies.clear();
    made
}
