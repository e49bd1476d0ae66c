use event_report::Report;

/// The engine of a session. What its clients tell of a run is a report of its events.
pub type Engine = transitions::Engine<Report>;

/// What its transitions are begun with.
pub type Sheet = transitions::Sheet<Report>;

/// Reports of no events, one for each client that makes a report.
pub type Reports = transitions::Reports<Report>;

/// What a client finds that asks it for its turn.
pub type Polled = transitions::Polled<Report>;

/// What a client answers.
pub type Answer = transitions::Answer<Report>;

/// What a client tells with its answer.
pub type Tally = transitions::Tally<Report>;

/// What one client told.
pub type ClientTally = transitions::ClientTally<Report>;

/// What all told.
pub type Tallies = transitions::Tallies<Report>;

/// A call on it, with its arguments and its reply.
pub type EngineEntry = transitions::EngineEntry<Report>;
