//! What the analyzers of a session keep, as the session's law asks for it. The function does nothing, and its contract is the law.
ghost use Rattle.daq_members.specs.AnalyzerTaken.{MemberAnalyzersKeep};

/// An analyzer as a member has the analyzer's contract over its own calls.
pub fn analyzers_keep()
    ensures { MemberAnalyzersKeep }
{}
