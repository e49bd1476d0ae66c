// The commands of runs in an open session, with their replies.
ghost use Rattle.std.specs.Prelude.{IfOk, OnErr};
ghost use Rattle.session_runs.specs.RunAnswers.{AnswersPause, AnswersResume, AnswersStart, AnswersStop, CutsStart, point_of};
ghost use Rattle.session_commands.specs.RunReplies.{RepliesBy, StopsUnanswered};

use crate::replying::{plain_reply, reply_for};
use console::Reply;
use daq_io::Clock;
use daq_types::NoMemory;
use member_crew::Rounds;
use odb_watch::WatchPort;
use session_runs::Runs;
use std::alloc::Global;
use std::sync::Wait;

/// Answers `start`.
pub fn answer_start<R: Wait, D: WatchPort, M: Rounds, C: Clock>(
    rt: &R,
    alloc: Global,
    runs: &mut Runs<'_>,
    access: &mut D,
    members: &mut M,
    clock: &mut C,
) -> Result<Reply, NoMemory>
    ensures did { IfOk result (λ reply. RepliesBy (λ answer. AnswersStart M.round answer
        (C.told clock.old)
        (C.told clock.new)) reply
        (point_of runs.old (D.access access.old) members.old)
        (point_of runs.new (D.access access.new) members.new)) }
    ensures cut { OnErr result (CutsStart
        (C.told clock.old)
        (C.told clock.new)
        (point_of runs.old (D.access access.old) members.old)
        (point_of runs.new (D.access access.new) members.new)) }
{
    let answer = runs.start(rt, alloc, access, members, clock)?;
    Ok(plain_reply(runs, answer))
}

/// Answers `stop`.
pub fn answer_stop<R: Wait, D: WatchPort, M: Rounds, C: Clock>(
    rt: &R,
    alloc: Global,
    runs: &mut Runs<'_>,
    access: &mut D,
    members: &mut M,
    clock: &mut C,
) -> Result<Reply, NoMemory>
    ensures did { IfOk result (λ reply. RepliesBy (λ answer. AnswersStop M.round answer
        (C.told clock.old)
        (C.told clock.new)) reply
        (point_of runs.old (D.access access.old) members.old)
        (point_of runs.new (D.access access.new) members.new)) }
    ensures cut { OnErr result (StopsUnanswered M.round
        (C.told clock.old)
        (C.told clock.new)
        (point_of runs.old (D.access access.old) members.old)
        (point_of runs.new (D.access access.new) members.new)) }
{
    let answer = runs.stop(rt, alloc, access, members, clock)?;
    reply_for(alloc, runs, answer)
}

/// Answers `pause`.
pub fn answer_pause<R: Wait, D: WatchPort, M: Rounds>(
    rt: &R,
    alloc: Global,
    runs: &mut Runs<'_>,
    access: &mut D,
    members: &mut M,
) -> Reply
    ensures { RepliesBy (AnswersPause M.round) result
        (point_of runs.old (D.access access.old) members.old)
        (point_of runs.new (D.access access.new) members.new) }
{
    let answer = runs.pause(rt, alloc, access, members);
    plain_reply(runs, answer)
}

/// Answers `resume`.
pub fn answer_resume<R: Wait, D: WatchPort, M: Rounds>(
    rt: &R,
    alloc: Global,
    runs: &mut Runs<'_>,
    access: &mut D,
    members: &mut M,
) -> Reply
    ensures { RepliesBy (AnswersResume M.round) result
        (point_of runs.old (D.access access.old) members.old)
        (point_of runs.new (D.access access.new) members.new) }
{
    let answer = runs.resume(rt, alloc, access, members);
    plain_reply(runs, answer)
}
