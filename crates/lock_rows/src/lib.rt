//! Calls under the counting lock, and on a shared buffer, a shared database and a shared engine, by threads and by ports.
#![tactic(auto)]

#[cfg(test)]
mod buffers;
#[cfg(test)]
mod databases;
#[cfg(test)]
mod engines;
#[cfg(test)]
mod refused;
#[cfg(test)]
mod turns;
