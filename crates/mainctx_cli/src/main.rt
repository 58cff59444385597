//! The program: arguments, standard input, standard output, standard error.
#![tactic(auto)]

use mainctx::{OverWrite, Refusal, refuse, serve};
use program_input::{InputFault, read_words};
use std::process::ExitCode;

fn main(rt: HostRuntime) -> ExitCode {
    let mut errors = rt.stderr();
    let words = match read_words(&rt) {
        Ok(words) => words,
        Err(InputFault::OutOfMemory) => {
            return ExitCode::from(refuse(Refusal::Memory, &mut errors));
        }
        Err(_) => return ExitCode::from(refuse(Refusal::Usage, &mut errors)),
    };
    let status = serve(
        &rt,
        rt.alloc(),
        words.as_slice(),
        &mut rt.stdin(),
        &mut OverWrite::new(rt.stdout()),
        &mut errors,
    );
    ExitCode::from(status)
}
