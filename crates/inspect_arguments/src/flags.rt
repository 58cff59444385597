//! Each flag of the two programs, as `clap` has it: its name, its value, its help.
use clap::{Arg, ArgAction, value_parser};
use std::alloc::Global;

pub(crate) const LANE: &str = "lane";

pub(crate) const TICKS: &str = "ticks";

pub(crate) const SOURCE: &str = "source";

pub(crate) const TICK: &str = "tick";

pub(crate) const STEP: &str = "step";

pub(crate) const COLUMNS: &str = "columns";

pub(crate) const MOST_LINES: &str = "most-lines";

pub(crate) const NOTES: &str = "notes";

pub(crate) const NUMBERS: &str = "numbers";

pub(crate) const JSON: &str = "json";

pub(crate) const FILE: &str = "FILE";

/// The most that a number of a flag is.
pub(crate) const MOST_NUMBER: u32 = 999_999_999;

/// How many characters a line of a picture has where none are named: those of a usual terminal.
pub(crate) const USUAL_COLUMNS: u32 = 80;

/// How many a line has at least, so that there is room beside the longest name of a row, and at most.
pub(crate) const LEAST_COLUMNS: u32 = 50;

pub(crate) const MOST_COLUMNS: u32 = 9999;

/// The script.
pub(crate) fn file<'a>(alloc: Global) -> Arg<'a> {
    Arg::new(alloc, FILE).help(
        "the script, in TOML where its name ends in .toml; without it, or with -, standard input",
    )
}

/// A thread, of which this says more.
pub(crate) fn lane<'a>(alloc: Global, help: &'a str) -> Arg<'a> {
    number(alloc, LANE, "L").help(help)
}

/// The flag `--ticks A..B`.
pub(crate) fn ticks<'a>(alloc: Global) -> Arg<'a> {
    Arg::new(alloc, TICKS)
        .long(TICKS)
        .value_name("A..B")
        .help("the ticks from A to B alone, both included")
}

/// The flag `--source C.S`.
pub(crate) fn source<'a>(alloc: Global) -> Arg<'a> {
    Arg::new(alloc, SOURCE).long(SOURCE).value_name("C.S").help(
        "source S of context C alone: when it was attached, dispatched, left out and
why, and destroyed",
    )
}

/// The flag `--tick T`.
pub(crate) fn tick<'a>(alloc: Global) -> Arg<'a> {
    number(alloc, TICK, "T").help("tick T")
}

/// The flag `--step N`.
pub(crate) fn step<'a>(alloc: Global) -> Arg<'a> {
    number(alloc, STEP, "N").help(
        "after step N of the thread in that tick, as steps numbers them, where 0 is before
the first; else at the end of its turn",
    )
}

/// The flag `--columns N`.
pub(crate) fn columns<'a>(alloc: Global) -> Arg<'a> {
    let bounds = i64::from(LEAST_COLUMNS)..=i64::from(MOST_COLUMNS);
    Arg::new(alloc, COLUMNS)
        .long(COLUMNS)
        .value_name("N")
        .value_parser(value_parser!(u32).range(bounds))
        .help("lines of N characters at most, 50 to 9999; else 80")
}

/// The flag `--most-lines N`.
pub(crate) fn most_lines<'a>(alloc: Global) -> Arg<'a> {
    number(alloc, MOST_LINES, "N").help("N lines at most: then it ends")
}

/// The flag `--notes`.
pub(crate) fn notes<'a>(alloc: Global) -> Arg<'a> {
    switch(alloc, NOTES).help(
        "with a line behind what a move writes where the real GLib does otherwise in
it, as notes tells it; it comes when the run is over",
    )
}

/// The flag `--numbers`.
pub(crate) fn numbers<'a>(alloc: Global) -> Arg<'a> {
    switch(alloc, NUMBERS).help("numbers where the script has names")
}

/// The flag `--json`.
pub(crate) fn json<'a>(alloc: Global) -> Arg<'a> {
    switch(alloc, JSON).help(
        "one object a line, with class, pointer, line, column, byte, wanted and found",
    )
}

/// A flag with a number behind it.
fn number<'a>(alloc: Global, word: &'a str, value: &'a str) -> Arg<'a> {
    Arg::new(alloc, word)
        .long(word)
        .value_name(value)
        .value_parser(value_parser!(u32).range(0..=i64::from(MOST_NUMBER)))
}

/// A flag with nothing behind it.
fn switch<'a>(alloc: Global, word: &'a str) -> Arg<'a> {
    Arg::new(alloc, word).long(word).action(ArgAction::SetTrue)
}
