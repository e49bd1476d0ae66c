//! The program `midas`. Under the gate it runs the first script: its text and status are those that a user sees.
#![tactic(auto)]

use midas_cli::run_program;
use std::env;
use std::process::ExitCode;

fn main(rt: HostRuntime) -> ExitCode {
    let (_called, code) = run_program(&rt, rt, env::args(&rt));
    code
}
