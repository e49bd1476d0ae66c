//! The rows of calls and replies that each event buffer must meet, tried on all of them.
#![tactic(auto)]

#[cfg(test)]
mod bytes;
#[cfg(test)]
mod counted;
#[cfg(test)]
mod pointers;
#[cfg(test)]
mod ports;
#[cfg(test)]
mod tests;
