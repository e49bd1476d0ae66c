ghost use Rattle.std.specs.Prelude.{◌≡◌, [], None};
ghost use Rattle.std.specs.Option.{option_map};
ghost use Rattle.midas_cli.specs.Outcomes.{status_of};

use crate::causes::Cause;
use daq_session::{RunRecord, SessionRecord, SessionTree};
use daq_types::BoundedList;
use odb_commands::FileReplies;
use std::alloc::Global;

/// What a call of the program came to.
#[derive(Drop)]
pub struct Outcome {
    /// The status with which the program ends, 0 to 5.
    pub status: u8,
    /// Why it ended.
    pub cause: Cause,
    /// The record of the session, where a start opened one.
    pub session: Option<SessionRecord<SessionTree>>,
    /// What came of the lines of the script that called the files of the database, in order.
    pub file_replies: FileReplies,
}

impl Outcome {
    /// What a call came to that ran no script. Takes no memory.
    pub fn without_script(alloc: Global, cause: Cause) -> Outcome
        ensures status { result.status ≡ status_of cause }
        ensures cause { result.cause ≡ cause }
        ensures session { result.session ≡ None }
        ensures file_replies { result.file_replies.replies ≡ [] }
    {
        Outcome {
            status: status(&cause),
            cause,
            session: None,
            file_replies: FileReplies::empty(alloc),
        }
    }

    /// What is left once the histories of the session are let go.
    pub fn into_summary(self) -> Summary
        ensures status { result.status ≡ self.status }
        ensures cause { result.cause ≡ self.cause }
        ensures runs { result.runs ≡ option_map (λ kept. kept.runs) self.session }
        ensures file_replies { result.file_replies.replies ≡ self.file_replies.replies }
    {
        let Outcome {
            status,
            cause,
            session,
            file_replies,
        } = self;
        Summary {
            status,
            cause,
            runs: runs_of(session),
            file_replies,
        }
    }
}

/// The records of the runs of a session.
fn runs_of(session: Option<SessionRecord<SessionTree>>) -> Option<BoundedList<RunRecord, 0>>
    ensures { result ≡ option_map (λ kept. kept.runs) session }
{
    let Some(kept) = session else {
        return None;
    };
    Some(kept.runs)
}

/// What a call of the program came to, without the histories of its session.
#[derive(Drop)]
pub struct Summary {
    /// The status with which the program ends, 0 to 5.
    pub status: u8,
    /// Why it ended.
    pub cause: Cause,
    /// The records of the runs of its session, where a start opened one.
    pub runs: Option<BoundedList<RunRecord, 0>>,
    /// What came of the lines of the script that called the files of the database, in order.
    pub file_replies: FileReplies,
}

/// The status of a cause.
pub fn status(cause: &Cause) -> u8
    ensures { result ≡ status_of cause.now }
{
    match cause {
        Cause::Done => 0,
        Cause::CommandRefused { .. } => 1,
        Cause::Usage => 2,
        Cause::BadInput(_) => 3,
        Cause::SourceFault | Cause::SinkFault | Cause::FileFault { .. } => 4,
        Cause::NoMemory => 5,
    }
}
