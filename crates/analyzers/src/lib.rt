//! Analyzers: each takes part in runs by its turns, reads the events of a buffer that it asks for, and counts those of the
//! run in a report.
#![tactic(auto)]

mod analyzer;
mod analyzer_pull;
mod analyzer_run;

pub use analyzer::Analyzer;
pub use analyzer_pull::AnalyzerPull;
pub use analyzer_run::{AnalyzerRun, AnalyzerStage, EventRequest};
