//! What a reading of arguments answers: an order, a text of help, or what is wrong with them.
ghost use Rattle.std.specs.Prelude.{IfOk};
ghost use Rattle.inspect_arguments.specs.Answers.{AnswersTo};
ghost use Rattle.clap.specs.Words.{kind_of};

use clap::Error;
use clap::error::ErrorKind;
use std::alloc::{AllocError, Global};

/// What the words of a program ask for.
#[derive(Debug, Drop)]
pub enum Asked<T> {
    /// What the program is for.
    Run(T),
    /// This text, for standard output.
    Help(String),
    /// Nothing that there is: this says why, for standard error.
    Wrong(String),
}

impl<T> Asked<T> {
    /// What is asked for where `clap` has no matches.
    pub(crate) fn of_error(alloc: Global, error: &Error) -> Result<Asked<T>, AllocError>
        ensures { IfOk result (AnswersTo (kind_of error.now)) }
    {
        match error.kind() {
            ErrorKind::OutOfMemory => Err(AllocError),
            ErrorKind::DisplayHelp => Ok(Asked::Help(format!(in alloc; "{error}")?)),
            _ => Ok(Asked::Wrong(format!(in alloc; "{error}")?)),
        }
    }
}
