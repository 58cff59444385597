//! The commands of `mainctx_inspect` as `clap` has them: what each is for, its flags, and its help.
use crate::flags::{columns, file, lane, most_lines, notes, numbers, source, step, tick, ticks};
use crate::{orders, texts};
use clap::{Arg, Command};
use std::alloc::{AllocError, Global};

/// The name of the program, also where usage tells that of a command.
const PROGRAM: &str = "mainctx_inspect";

const THREAD_ALONE: &str = "thread L alone";

const THREAD: &str = "thread L";

/// The program with its commands.
pub(crate) fn inspect<'a>(alloc: Global) -> Result<Command<'a>, AllocError> {
    let commands = each_command(alloc)?;
    Command::new(alloc, PROGRAM)
        .bin_name(PROGRAM)?
        .no_binary_name(true)
        .subcommand_required(true)
        .about(texts::INSPECT)
        .after_help(texts::INSPECT_MORE)
        .subcommands(commands)
}

/// The commands, in the order of its help.
fn each_command<'a>(alloc: Global) -> Result<Vec<Command<'a>>, AllocError> {
    let mut commands = Vec::new(alloc);
    for command in &orders::Command::EACH {
        commands.push(command_of(alloc, *command)?)?;
    }
    Ok(commands)
}

/// A command with its flags and its help.
fn command_of<'a>(alloc: Global, command: orders::Command) -> Result<Command<'a>, AllocError> {
    let flags = flags_of(alloc, command)?;
    Command::new(alloc, command.word())
        .about(about(command))
        .after_help(more(command))
        .args(flags)
}

/// What a command is for, in a line.
fn about<'a>(command: orders::Command) -> &'a str {
    match command {
        orders::Command::Text => {
            "the text of the run, as mainctx writes it, or with the names of its script"
        }
        orders::Command::Why => "each iteration, and why each source is dispatched by it or not",
        orders::Command::Summary => "each source and loop in one line, and what was silent",
        orders::Command::Account => "each move of the run as JSON, an object a line",
        orders::Command::Steps => {
            "each step of each turn, with what is in progress after it, as a table"
        }
        orders::Command::Stack => "what one thread is in the middle of at one moment",
        orders::Command::Timeline => {
            "a picture of the run: a row for each source, loop, task and cancellable, with time
going right"
        }
        orders::Command::Notes => {
            "where the real GLib would do otherwise, and by which of its ways"
        }
        orders::Command::Translate => {
            "the script of numbers that a script with names stands for (docs/NAMES.md)"
        }
    }
}

/// What its help says behind the flags.
fn more<'a>(command: orders::Command) -> &'a str {
    match command {
        orders::Command::Text => texts::TEXT,
        orders::Command::Why => texts::WHY,
        orders::Command::Summary => texts::SUMMARY,
        orders::Command::Account => texts::ACCOUNT,
        orders::Command::Steps => texts::STEPS,
        orders::Command::Stack => texts::STACK,
        orders::Command::Timeline => texts::TIMELINE,
        orders::Command::Notes => texts::NOTES,
        orders::Command::Translate => texts::TRANSLATE,
    }
}

/// The flags of a command, and the file.
fn flags_of<'a>(alloc: Global, command: orders::Command) -> Result<Vec<Arg<'a>>, AllocError> {
    match command {
        orders::Command::Text => {
            Ok(vec![in alloc;
                notes(alloc),
                numbers(alloc),
                most_lines(alloc),
                file(alloc),
            ]?)
        }
        orders::Command::Why => {
            Ok(vec![in alloc;
                lane(alloc, THREAD_ALONE),
                ticks(alloc),
                source(alloc),
                numbers(alloc),
                most_lines(alloc),
                file(alloc),
            ]?)
        }
        orders::Command::Account | orders::Command::Steps => {
            Ok(vec![in alloc;
                lane(alloc, THREAD_ALONE),
                ticks(alloc),
                numbers(alloc),
                most_lines(alloc),
                file(alloc),
            ]?)
        }
        orders::Command::Stack => {
            Ok(vec![in alloc;
                lane(alloc, THREAD).required(true),
                tick(alloc).required(true),
                step(alloc),
                numbers(alloc),
                file(alloc),
            ]?)
        }
        orders::Command::Timeline => {
            Ok(vec![in alloc;
                lane(alloc, THREAD_ALONE),
                ticks(alloc),
                columns(alloc),
                numbers(alloc),
                file(alloc),
            ]?)
        }
        orders::Command::Summary | orders::Command::Notes => {
            Ok(vec![in alloc; numbers(alloc), file(alloc)]?)
        }
        orders::Command::Translate => Ok(vec![in alloc; file(alloc)]?),
    }
}
