//! What the calls of `Rows` cost: makes rows, takes each of them in each of some rounds, and ends. It has no clock: bench/rows times it.
#![tactic(auto)]

mod bench;
mod orders;
mod refusal;
mod request;

use bench::run;
use refusal::Refusal;
use request::Request;
use std::process::ExitCode;
use std::rt::Env;
use std::{env, io};

/// Does what the arguments say, and writes the one line of it.
fn attempt(rt: &(impl Env + Print + AllocGlobal)) -> Result<(), Refusal> {
    let args = match env::args(rt) {
        Ok(args) => args,
        Err(fault) if fault.kind() == io::ErrorKind::OutOfMemory => return Err(Refusal::Call),
        Err(_) => return Err(Refusal::Usage),
    };
    let words = args.skip(1).collect::<Vec<String>>(rt.alloc())?;
    let Some(request) = Request::read(words.as_slice()) else {
        return Err(Refusal::Usage);
    };
    let checksum = run(rt.alloc(), request)?;
    let count = request.count;
    let operations = request.operations();
    match println!(rt; "{count} rows, {operations} operations, checksum {checksum}") {
        Ok(()) => Ok(()),
        Err(_) => Err(Refusal::Write),
    }
}

fn main(rt: HostRuntime) -> ExitCode {
    match attempt(&rt) {
        Ok(()) => ExitCode::SUCCESS,
        Err(refusal) => {
            let line = refusal.line();
            let _ = eprintln!(rt; "{line}");
            ExitCode::from(refusal.status())
        }
    }
}
