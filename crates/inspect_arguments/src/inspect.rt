//! The arguments of `mainctx_inspect`, once `clap` has read them: which order they give.
ghost use Rattle.std.specs.Prelude.{◌≤◌, IfOk, IfSome};
ghost use Rattle.inspect_arguments.specs.Bounds.{AsksWithin, IsWithin};

use crate::answers::Asked;
use crate::commands::inspect;
use crate::flags::{
    COLUMNS, FILE, LANE, LEAST_COLUMNS, MOST_COLUMNS, MOST_LINES, MOST_NUMBER, NOTES, NUMBERS,
    SOURCE, STEP, TICK, TICKS, USUAL_COLUMNS,
};
use crate::orders::{Command, Order};
use crate::values::{Source, Ticks, WrongValue};
use clap::ArgMatches;
use std::alloc::{AllocError, Global};

/// What is said of a command that there is not, where `clap` has not said it.
const NO_COMMAND: &str = "error: unrecognized subcommand\n";

/// Reads the words behind the name of `mainctx_inspect`.
pub fn read_inspect_words<'a>(
    alloc: Global,
    words: &'a [String],
) -> Result<Asked<Order<'a>>, AllocError>
    ensures { IfOk result AsksWithin }
{
    let matches = match inspect(alloc)?.try_get_matches_from(words) {
        Ok(matches) => matches,
        Err(error) => return Asked::of_error(alloc, &error),
    };
    let Some((word, found)) = matches.subcommand() else {
        return Ok(Asked::Wrong(String::from_str(alloc, NO_COMMAND)?));
    };
    let Some(command) = Command::of_word(word) else {
        return Ok(Asked::Wrong(String::from_str(alloc, NO_COMMAND)?));
    };
    match order_of(command, found) {
        Ok(order) => Ok(Asked::Run(order)),
        Err(wrong) => Ok(Asked::Wrong(format!(in alloc; "{wrong}")?)),
    }
}

/// What a command is asked to tell.
fn order_of<'a>(command: Command, found: &ArgMatches<'a>) -> Result<Order<'a>, WrongValue<'a>>
    ensures { IfOk result IsWithin }
{
    Ok(Order {
        command,
        lane: flag_number(found, LANE),
        ticks: ticks_of(found)?,
        source: source_of(found)?,
        tick: flag_number(found, TICK),
        step: flag_number(found, STEP),
        columns: columns_of(found),
        most_lines: flag_number(found, MOST_LINES),
        notes: found.get_flag(NOTES),
        numbers: found.get_flag(NUMBERS),
        file: found.get_str(FILE),
    })
}

/// The ticks that `--ticks` gives, where it stands; its text where that is no pair of ticks.
fn ticks_of<'a>(found: &ArgMatches<'a>) -> Result<Option<Ticks>, WrongValue<'a>> {
    let Some(text) = found.get_str(TICKS) else {
        return Ok(None);
    };
    match Ticks::of_text(text) {
        Some(ticks) => Ok(Some(ticks)),
        None => Err(WrongValue::Ticks(text)),
    }
}

/// The source that `--source` gives, where it stands; its text where that is no source.
fn source_of<'a>(found: &ArgMatches<'a>) -> Result<Option<Source>, WrongValue<'a>> {
    let Some(text) = found.get_str(SOURCE) else {
        return Ok(None);
    };
    match Source::of_text(text) {
        Some(source) => Ok(Some(source)),
        None => Err(WrongValue::Source(text)),
    }
}

/// The number behind a flag; `clap` lets no greater one through.
fn flag_number(found: &ArgMatches<'_>, flag: &str) -> Option<u32>
    ensures { IfSome result (λ number. number ≤ MOST_NUMBER) }
{
    match found.get_one::<u32>(flag) {
        Some(number) if number <= MOST_NUMBER => Some(number),
        _ => None,
    }
}

/// How many characters a line is to have; `clap` lets none through that is out of the bounds.
fn columns_of(found: &ArgMatches<'_>) -> u32
    ensures least { LEAST_COLUMNS ≤ result }
    ensures most { result ≤ MOST_COLUMNS }
{
    match found.get_one::<u32>(COLUMNS) {
        Some(columns) if LEAST_COLUMNS <= columns && columns <= MOST_COLUMNS => columns,
        _ => USUAL_COLUMNS,
    }
}
