//! What the main thread's commands of runs say of its own calls alone: each function does nothing, and its contract is the law.
ghost use Rattle.daq_io.specs.Told.{AheadTold};
ghost use Rattle.session_runs.specs.declared.replies.RunReply.{RunReply};
ghost use Rattle.session_runs.specs.RunAnswers.{AnswersPause, AnswersResume, AnswersStart, AnswersStop, CommandPoint, CutsStart, StopsUnsaved};
ghost use Rattle.session_commands.specs.KeptByCommands.{KeptByCommand};
ghost use Rattle.session_commands.specs.NothingSaid.{NothingSaid, own_point};

use member_crew::Rounds;

/// What a command of runs does with members it does where they are passed over.
pub fn members_passed_over<M: Rounds>()
    ensures start { (reply : RunReply) (before after : AheadTold) (old new : CommandPoint M)
        → AnswersStart M.round reply before after old new
        → AnswersStart NothingSaid reply before after (own_point old.runs old.database)
        (own_point new.runs new.database) }
    ensures cut { (before after : AheadTold) (old new : CommandPoint M)
        → CutsStart before after old new → CutsStart before after
        (own_point old.runs old.database) (own_point new.runs new.database) }
    ensures stop { (reply : RunReply) (before after : AheadTold) (old new : CommandPoint M)
        → AnswersStop M.round reply before after old new
        → AnswersStop NothingSaid reply before after (own_point old.runs old.database)
        (own_point new.runs new.database) }
    ensures unsaved { (before after : AheadTold) (old new : CommandPoint M)
        → StopsUnsaved M.round before after old new
        → StopsUnsaved NothingSaid before after (own_point old.runs old.database)
        (own_point new.runs new.database) }
    ensures pause { (reply : RunReply) (old new : CommandPoint M)
        → AnswersPause M.round reply old new
        → AnswersPause NothingSaid reply (own_point old.runs old.database)
        (own_point new.runs new.database) }
    ensures resume { (reply : RunReply) (old new : CommandPoint M)
        → AnswersResume M.round reply old new
        → AnswersResume NothingSaid reply (own_point old.runs old.database)
        (own_point new.runs new.database) }
{}

/// Each command of runs leaves the quota, the engine and the database what they are, and gives its members rounds alone.
pub fn commands_keep<M: Rounds>()
    ensures start { (reply : RunReply) (before after : AheadTold) (old new : CommandPoint M)
        → AnswersStart M.round reply before after old new → KeptByCommand M.round old new }
    ensures cut { (before after : AheadTold) (old new : CommandPoint M)
        → CutsStart before after old new → KeptByCommand M.round old new }
    ensures stop { (reply : RunReply) (before after : AheadTold) (old new : CommandPoint M)
        → AnswersStop M.round reply before after old new → KeptByCommand M.round old new }
    ensures unsaved { (before after : AheadTold) (old new : CommandPoint M)
        → StopsUnsaved M.round before after old new → KeptByCommand M.round old new }
    ensures pause { (reply : RunReply) (old new : CommandPoint M)
        → AnswersPause M.round reply old new → KeptByCommand M.round old new }
    ensures resume { (reply : RunReply) (old new : CommandPoint M)
        → AnswersResume M.round reply old new → KeptByCommand M.round old new }
{}
