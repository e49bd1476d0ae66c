//! What leaves a channel as it stands: each function does nothing, and its contract is the law.

ghost use Rattle.mid_logger.specs.Keeping.{PullsKeep, PullsChange, PullsKnow, AbortsKeep, AbortsChange, ClosesKeep, ClosesChange, ClosesKnow, OpensKeep, OpensChange, OpensAlone, FilesThere, BegunKeeps, EndedKeeps};
ghost use Rattle.mid_logger.specs.Beside.{AbortsBeside, CallsBeside, ClosesBeside, FilesBeside, LeftBeside, OpensBeside, PullsBeside};

/// A call on the channel's buffer that names another client, and neither begins the run that the channel's client waits
/// for nor ends the one that it reads, leaves what the channel keeps: calls of other channels, and pauses and resumes.
pub fn calls_beside()
    ensures { CallsBeside }
{}

/// A change of files that leaves those of the channel's run leaves what the channel keeps.
pub fn files_beside()
    ensures { FilesBeside }
{}

/// What one channel pulls leaves what another channel on the buffer keeps, where each has a client and files of its own; and
/// the two are apart behind it.
pub fn pulls_beside()
    ensures { PullsBeside }
{}

/// So does the calling off of its run.
pub fn aborts_beside()
    ensures { AbortsBeside }
{}

/// So does the ending of its files.
pub fn closes_beside()
    ensures { ClosesBeside }
{}

/// So does the opening of a run, and its refusal; and the two channels are apart then.
pub fn opens_beside()
    ensures { OpensBeside }
{}

/// What stands of a run whose files were ended stands behind any calls more, and behind changes of other files.
pub fn left_beside()
    ensures { LeftBeside }
{}

/// What a channel keeps before a pull it keeps behind it; at most the files of its run changed; and what is there stays
/// there.
pub fn pulls_kept()
    ensures keep { PullsKeep }
    ensures change { PullsChange }
    ensures know { PullsKnow }
{}

/// What a channel keeps before its run is called off it keeps behind that; and at most the files of its run changed.
pub fn aborts_kept()
    ensures keep { AbortsKeep }
    ensures change { AbortsChange }
{}

/// What a channel keeps before its files are ended it keeps behind that, and the files are left so; at most these changed,
/// and what is there stays there.
pub fn closes_kept()
    ensures keep { ClosesKeep }
    ensures change { ClosesChange }
    ensures know { ClosesKnow }
{}

/// What a channel keeps before a run is opened, or refused, it keeps behind that; and at most a new file came into being. It
/// makes its request while its client has none.
pub fn opens_kept()
    ensures keep { OpensKeep }
    ensures change { OpensChange }
    ensures there { FilesThere }
    ensures alone { OpensAlone }
{}

/// What a channel keeps before its run is begun or ended in its buffer it keeps behind that.
pub fn marks_kept()
    ensures begun { BegunKeeps }
    ensures ended { EndedKeeps }
{}
