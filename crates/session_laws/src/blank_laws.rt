//! The law of blank reports: the function does nothing, and its contract is the law.

ghost use Rattle.session_laws.specs.BlankLaws.{BlanksSuffice};

use event_report::Report;
use history_laws::engines as turns;
use transitions::laws;

/// Where a client that asks for reports refuses a start as not ready only at a turn that came without a blank report, a start
/// is refused so only where its sheet has fewer blank reports than clients were registered that ask for one.
pub fn blanks_suffice()
    ensures { BlanksSuffice }
{
    turns::tallies_answered();
    laws::start_numbers_rise::<Report>();
}
