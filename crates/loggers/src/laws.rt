//! What a logger keeps: each function does nothing, and its contract is the law.

ghost use Rattle.loggers.specs.LoggerLaws.{FinishesKeep, TurnsKeep, TurnsGiveOnce, PullsGiveOnce, TurnsNote, PullsNote, FinishesNote, NotesFollow};
ghost use Rattle.loggers.specs.LoggerStands.{StandingLoggerKeeps};
ghost use Rattle.loggers.specs.Reasons.{TurnsGiveReasons, PullsGiveReasons, FinishesGiveReasons, ReasonsTell, ClashesAreTold};
ghost use Rattle.loggers.specs.LeftNames.{TurnsKeepNames, PullsKeepNames, FinishesKeepNames, StandingHasStarted, StandingHasStopped, PullsKeepStopped};
ghost use Rattle.loggers.specs.OtherFiles.{TurnsLeaveFiles, PullsLeaveFiles, FinishesLeaveFiles};

use mid_logger::laws as channel_laws;

/// What a logger keeps between its calls has the logger's contract: each channel that told to have ended has
/// written its run, and each that told to be broken a part of it.
pub fn logger_keeps()
    ensures { StandingLoggerKeeps }
{}

/// What a logger keeps before a turn it keeps behind it.
pub fn turns_keep()
    ensures { TurnsKeep }
{
    channel_laws::left_beside();
    channel_laws::calls_beside();
    channel_laws::files_beside();
    channel_laws::opens_beside();
    channel_laws::aborts_beside();
    channel_laws::opens_kept();
    channel_laws::aborts_kept();
    channel_laws::marks_kept();
}

/// What a logger keeps before a call to finish it keeps behind it.
pub fn finishes_keep()
    ensures { FinishesKeep }
{
    channel_laws::left_beside();
    channel_laws::files_beside();
    channel_laws::closes_beside();
    channel_laws::closes_kept();
}

/// Where behind a turn or a pull the ports gave the logger no client that it has, they gave it none before.
pub fn given_once()
    ensures turns { TurnsGiveOnce }
    ensures pulls { PullsGiveOnce }
{}

/// A turn, a pull and a call to finish leave all files but those of the channels in the runs that the logger was told to
/// start, and what was done before; and they leave what the channels are.
pub fn other_files()
    ensures turns { TurnsLeaveFiles }
    ensures pulls { PullsLeaveFiles }
    ensures finishes { FinishesLeaveFiles }
{
    channel_laws::opens_kept();
    channel_laws::aborts_kept();
    channel_laws::pulls_kept();
    channel_laws::closes_kept();
}

/// The faults of the files are noted by each call, and by several that follow one another.
pub fn faults_noted()
    ensures turns { TurnsNote }
    ensures pulls { PullsNote }
    ensures finishes { FinishesNote }
    ensures follow { NotesFollow }
{}

/// What a logger answers rests on the counts of the run files, and each call keeps that: for each start that is refused for a
/// name a clash was counted, for each that is refused for a fault one was, and for a buffer one is refused only where that
/// refused a call; and for each channel that is told to be broken a fault was counted. And a fault was counted only where one of
/// these is told, a channel broke off that is not told yet, or a start was undone; a clash only where a start was refused for one,
/// or a channel with a limit found the name of its next file taken.
pub fn reasons_given()
    ensures turns { TurnsGiveReasons }
    ensures pulls { PullsGiveReasons }
    ensures finishes { FinishesGiveReasons }
    ensures tell { ReasonsTell }
    ensures names { ClashesAreTold }
{}

/// All names of run files are as they were at first but those of the runs that were stopped, of the run that the logger has, and, where
/// more faults were counted than are told, of runs whose start was undone; and each call keeps that: a start that is refused or called
/// off leaves nothing, and the files that a call to finish ends are those of the run that was stopped. A start is refused for a name
/// only where that is taken, and accepted only where all are free. Where none was undone, the file of the first fault is one of a channel
/// that broke off.
pub fn names_kept()
    ensures turns { TurnsKeepNames }
    ensures pulls { PullsKeepNames }
    ensures finishes { FinishesKeepNames }
    ensures started { StandingHasStarted }
    ensures stopped { StandingHasStopped }
    ensures still_stopped { PullsKeepStopped }
{
    channel_laws::opens_kept();
    channel_laws::aborts_kept();
    channel_laws::pulls_kept();
    channel_laws::closes_kept();
}
