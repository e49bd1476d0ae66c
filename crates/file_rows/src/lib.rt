//! The objects of the outside, in memory and real, each tried once; and what is read through them: run files, files of the
//! online database, and scripts with the commands of their lines.
#![tactic(auto)]

#[cfg(test)]
mod commands;
#[cfg(test)]
mod dump_files;
#[cfg(test)]
mod failing_disk;
#[cfg(test)]
mod memory;
#[cfg(test)]
mod objects;
#[cfg(test)]
mod run_files;
#[cfg(test)]
mod script_lines;
#[cfg(test)]
mod system;
