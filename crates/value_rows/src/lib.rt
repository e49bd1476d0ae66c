//! Worked values of names, lists, texts, items of the database and paths, and of headers, banks, requests, reports and
//! generated events, with what their errors say, tried on the calls that read, write or print them.
#![tactic(auto)]

#[cfg(test)]
mod banks;
#[cfg(test)]
mod errors;
#[cfg(test)]
mod event_errors;
#[cfg(test)]
mod generated;
#[cfg(test)]
mod headers;
#[cfg(test)]
mod items;
#[cfg(test)]
mod lists;
#[cfg(test)]
mod names;
#[cfg(test)]
mod paths;
#[cfg(test)]
mod reports;
#[cfg(test)]
mod requests;
#[cfg(test)]
mod texts;
