//! The rows of calls and replies that each database must meet, tried on all, watched or not; and those of a script's commands
//! for watches and dumps, over a shared database and files in memory.
#![tactic(auto)]

#[cfg(test)]
mod calls;
#[cfg(test)]
mod dumps;
#[cfg(test)]
mod lines;
#[cfg(test)]
mod link_tests;
#[cfg(test)]
mod link_texts;
#[cfg(test)]
mod ports;
#[cfg(test)]
mod tests;
#[cfg(test)]
mod texts;
#[cfg(test)]
mod watch_tests;
#[cfg(test)]
mod watches;
