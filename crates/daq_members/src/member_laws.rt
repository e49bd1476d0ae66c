//! What the members of a session keep, however many turns they have. Each function does nothing, and its contract is the law.
ghost use Rattle.daq_members.specs.Members.{member_told};
ghost use Rattle.daq_members.specs.Stay.{MembersStay};

use crate::member::Member;
use buffer_core::BufferPort;
use daq_io::Files;
use front_ends::Equipment;
use loggers::laws as logger_laws;
use odb_watch::WatchPort;

/// The members of a session that came back behind turns of their own are the same ones, in the same order, and the logger noted each
/// fault of the run files in its turns.
pub fn members_stay<'a, X: Equipment, P: BufferPort, D: WatchPort, F: Files>(
    _members: &[Member<'a, X, P, D, F>],
)
    ensures { MembersStay (member_told X.takes X.makes F.told) }
{
    logger_laws::faults_noted();
}
