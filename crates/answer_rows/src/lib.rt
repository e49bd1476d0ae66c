//! What a user reads, tried on worked rows: the words of the command line, what the tools and the replies of a script print,
//! why a declaration is refused.
#![tactic(auto)]

#[cfg(test)]
mod pieces;
#[cfg(test)]
mod replies;
#[cfg(test)]
mod scripts;
#[cfg(test)]
mod setup;
#[cfg(test)]
mod tools;
#[cfg(test)]
mod words;
