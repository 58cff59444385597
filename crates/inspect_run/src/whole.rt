//! What is asked of a whole run as one text, moment by moment, for callers of the library for C; `mainctx_inspect` goes through the moments itself.
use crate::asked::{Asked, Part};
use crate::teller::Teller;
use account::{Account, Moment};
use inspect_words::{Run, Words, follow_names};
use loop_script::Script;
use run_names::RunNames;
use std::alloc::{AllocError, Global};

/// The next moment of a run, with names for what it attached or connected; none where the run is over.
fn next_of(account: &mut Account, names: &mut RunNames) -> Result<Option<Moment>, AllocError> {
    match account.next() {
        Ok(Some(moment)) => {
            follow_names(names, account, &moment)?;
            Ok(Some(moment))
        }
        Ok(None) => Ok(None),
        Err(_) => Err(AllocError),
    }
}

/// The run of an account, under these names.
fn run<'a>(account: &'a Account, names: &'a RunNames) -> Run<'a> {
    Run { account, names }
}

/// A run before its first moment.
fn open(alloc: Global, script: Script) -> Result<Account, AllocError> {
    match Account::new(alloc, script) {
        Ok(account) => Ok(account),
        Err(_) => Err(AllocError),
    }
}

/// Adds what is asked of the run of a script, whose things are called by these names.
pub fn push_asked(
    alloc: Global,
    script: Script,
    mut names: RunNames,
    asked: Asked,
    out: &mut String,
) -> Result<(), AllocError> {
    let mut teller = begin(alloc, &script, &names, asked, out)?;
    let mut account = open(alloc, script)?;
    tell_moments(&mut account, &mut names, &mut teller, asked.part(), out)
}

/// What tells what is asked, with what it says before the first moment.
fn begin(
    alloc: Global,
    script: &Script,
    names: &RunNames,
    asked: Asked,
    out: &mut String,
) -> Result<Teller, AllocError> {
    Teller::begin(alloc, asked, Words { script, names }, out)
}

/// Adds what is said of the moments that have to be told, and of the run's end where it is over behind them.
fn tell_moments(
    account: &mut Account,
    names: &mut RunNames,
    teller: &mut Teller,
    part: Part,
    out: &mut String,
) -> Result<(), AllocError> {
    for place in 0..part.first.saturating_add(part.most) {
        match next_of(account, names)? {
            Some(moment) if moment.tick <= part.last => {
                if place >= part.first {
                    teller.tell(run(account, names), &moment, out)?;
                }
            }
            _ => return teller.end(run(account, names), out),
        }
    }
    Ok(())
}
