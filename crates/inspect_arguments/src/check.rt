//! The arguments of `mainctx_check`.
use crate::answers::Asked;
use crate::flags::{FILE, JSON, file, json};
use crate::texts;
use clap::Command;
use std::alloc::{AllocError, Global};

/// What to check, and how to tell it.
#[derive(Clone, Copy, Debug, PartialEq, Eq)]
pub struct CheckOrder<'a> {
    /// Whether each fault is an object.
    pub json: bool,
    /// None is standard input, as `-` is.
    pub file: Option<&'a str>,
}

/// Reads the words behind the name of `mainctx_check`.
pub fn read_check_words<'a>(
    alloc: Global,
    words: &'a [String],
) -> Result<Asked<CheckOrder<'a>>, AllocError> {
    match check(alloc)?.try_get_matches_from(words) {
        Ok(found) => Ok(Asked::Run(CheckOrder {
            json: found.get_flag(JSON),
            file: found.get_str(FILE),
        })),
        Err(error) => Asked::of_error(alloc, &error),
    }
}

/// The command line of `mainctx_check` as `clap` has it.
fn check<'a>(alloc: Global) -> Result<Command<'a>, AllocError> {
    Command::new(alloc, "mainctx_check")
        .no_binary_name(true)
        .about(texts::CHECK)
        .after_help(texts::CHECK_MORE)
        .arg(json(alloc))?
        .arg(file(alloc))
}
