//! The program `mainctx_check`: what is wrong with a script, and where.
#![tactic(auto)]

mod program;

use std::process::ExitCode;

fn main(rt: HostRuntime) -> ExitCode {
    ExitCode::from(program::run_check(&rt))
}
