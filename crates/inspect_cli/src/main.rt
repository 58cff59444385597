//! The program `mainctx_inspect`: what a run did, and why.
#![tactic(auto)]

mod arguments;
mod failure;
mod first_lines;
mod program;
mod progress;

use std::process::ExitCode;

fn main(rt: HostRuntime) -> ExitCode {
    ExitCode::from(program::run(&rt))
}
