//! The rows of runs: calls on the engine with what they answer, the tables of states and sequence numbers, the runs that an
//! analyzer counts, those of which a builder builds the events, and those that a logger of one channel and of several writes, over
//! ports to buffers and files in memory.
#![tactic(auto)]

#[cfg(test)]
mod analyzer_tests;
#[cfg(test)]
mod answers;
#[cfg(test)]
mod builder_tests;
#[cfg(test)]
mod calls;
#[cfg(test)]
mod channel_tests;
#[cfg(test)]
mod fixture;
#[cfg(test)]
mod logger_tests;
#[cfg(test)]
mod making;
#[cfg(test)]
mod patterns;
#[cfg(test)]
mod piece_tests;
#[cfg(test)]
mod states;
#[cfg(test)]
mod turns;
