//! The lines that a moment wrote, told with the names of the script, and a priority as such a line has it.
ghost use Rattle.std.specs.Prelude.{◌≡◌, true, false, IfOk, OnOk, is_some, slice_get, string_bytes};
ghost use Rattle.tick_stepper.specs.Account.{lanes_in};
ghost use Rattle.inspect_words.specs.Named.{Adds, AreWritten, TellsOf};

use crate::follow::{TOO_LATE, callee_of};
use crate::run::Run;
use crate::written::text_of;
use account::{Account, Deed, Moment};
use lane_turn::{Event, Line, Place};
use loop_script::Action;
use named_lines::{Told, push_line};
use run_names::RunNames;
use std::alloc::{AllocError, Global};

/// The lines that a moment wrote, with names: the time, and what the line tells. Of a spent account nothing is promised.
pub fn named_text_of(alloc: Global, run: Run<'_>, moment: &Moment) -> Result<String, AllocError>
    ensures { run.entry.account.now.spent ≡ false → IfOk result (λ text. TellsOf run.entry.account.now run.entry.names.now moment.now (string_bytes text)) }
{
    let mut text = String::new(alloc);
    push_named_lines(&mut text, run, moment, lines_of(run.account, moment))?;
    Ok(text)
}

/// The lines that a moment wrote.
fn lines_of<'a>(account: &'a Account, moment: &Moment) -> &'a [Line]
    ensures { account.now.spent ≡ false → AreWritten (slice_get (lanes_in account.now.place) moment.now.lane) moment.now result.now }
{
    match account.lane(moment.lane) {
        Some(lane) => lane.trace().get(moment.from..moment.to).unwrap_or(&[]),
        None => &[],
    }
}

/// Adds lines that a moment wrote, with names.
fn push_named_lines(
    out: &mut String,
    run: Run<'_>,
    moment: &Moment,
    lines: &[Line],
) -> Result<(), AllocError>
    ensures { OnOk result (Adds run.entry.account.now.script.tick_us run.entry.names.now moment.now.lane lines.now (string_bytes out.old) (string_bytes out.new)) }
{
    let tick_us = run.account.script().tick_us();
    for line in lines {
        let told = told_of(run, moment, line);
        push_line(out, run.names, tick_us, &told)?;
    }
    Ok(())
}

/// The lines that a moment wrote, with names where there are some, else as the text of the run has them. Of a spent account nothing is
/// promised.
pub fn line_text_of(alloc: Global, run: Run<'_>, moment: &Moment) -> Result<String, AllocError>
    ensures { is_some run.entry.names.now.names ≡ true → run.entry.account.now.spent ≡ false → IfOk result (λ text. TellsOf run.entry.account.now run.entry.names.now moment.now (string_bytes text)) }
{
    if run.names.are_there() {
        return named_text_of(alloc, run, moment);
    }
    match run.account.lane(moment.lane) {
        Some(lane) => text_of(alloc, lane, moment),
        None => Ok(String::new(alloc)),
    }
}

/// Adds a priority: where there are names GLib's word for it, or its number.
pub fn push_priority(out: &mut String, names: &RunNames, priority: i32) -> Result<(), AllocError> {
    if names.are_there() {
        named_lines::push_priority(out, priority)
    } else {
        write!(out, "{priority}")
    }
}

/// A line that a moment wrote, with what the line does not say itself.
fn told_of(run: Run<'_>, moment: &Moment, line: &Line) -> Told
    ensures line { result.line ≡ line.now }
    ensures lane { result.lane ≡ moment.now.lane }
{
    let action = action_of(run, moment);
    let callee = match (line.event, action) {
        (
            Event::Dispatch {
                context,
                source: id,
                ..
            },
            _,
        ) => match run.account.lane(moment.lane) {
            Some(lane) => callee_of(lane, Place { context, id }),
            None => None,
        },
        (Event::Invoke(_, _), Some(Action::Invoke { proc, .. })) => Some(*proc),
        _ => None,
    };
    let slot = match (line.event, action) {
        (Event::Handler(TOO_LATE), Some(Action::Connect { slot, .. })) => Some(u32::from(*slot)),
        _ => None,
    };
    Told {
        line: *line,
        lane: moment.lane,
        callee,
        slot,
    }
}

/// The action that a moment took.
fn action_of<'a>(run: Run<'a>, moment: &Moment) -> Option<&'a Action> {
    match moment.deed {
        Deed::Acted { body, place } => run.account.script().actions(body).get(place),
        _ => None,
    }
}
