//! A line of a run with names: the text of each event, with what it calls, a question and its answer.
ghost use Rattle.std.specs.Prelude.{◌≡◌, ◌++◌, ◌≤◌, codes, OnOk, string_bytes};
ghost use Rattle.loop_script.specs.Bounds.{longest_tick};
ghost use Rattle.named.specs.declared.sort.Kind.TheVariants as kinds;
ghost use Rattle.run_names.specs.Text.{called, source_text, thing_text};
ghost use Rattle.named_lines.specs.Lines as lines;

use crate::part::{answer_part, invoked_part, push_milliseconds, push_outcome, push_urgency};
use crate::told_line::Told;
use lane_turn::{Event, Invoked};
use mainctx::action_word;
use run_names::{RunNames, Thing};
use std::alloc::AllocError;

/// The id of a handler that is connected too late: it is called at once, and is none that has a name.
const TOO_LATE: u64 = 0;

/// Adds a line: its time in milliseconds, and what it tells, with the names that there are. Ticks have so many microseconds.
/// After an error a part of it may have been added.
pub fn push_line(
    out: &mut String,
    names: &RunNames,
    tick_us: u64,
    told: &Told,
) -> Result<(), AllocError>
    requires { tick_us ≤ longest_tick }
    ensures { OnOk result (string_bytes out.new ≡ string_bytes out.old ++ lines.line_text tick_us names.now told.now) }
{
    push_milliseconds(out, u64::from(told.line.tick) * tick_us)?;
    out.push_str(" ms  ")?;
    push_event(out, names, told)?;
    out.push_str("\n")
}

/// Adds what a line tells.
fn push_event(out: &mut String, names: &RunNames, told: &Told) -> Result<(), AllocError>
    ensures { OnOk result (string_bytes out.new ≡ string_bytes out.old ++ lines.event_text names.now told.now told.now.line.event) }
{
    match told.line.event {
        Event::Dispatch {
            context,
            source,
            priority,
            depth,
        } => {
            push_with(
                out,
                names,
                "dispatch ",
                Thing::Source {
                    context,
                    id: source,
                },
            )?;
            push_callee(out, names, told.callee)?;
            push_urgency(out, priority, depth)
        }
        Event::Log(number) => push_with(out, names, "log ", Thing::Text(number)),
        Event::Iterate(context, any) => push_answer(out, names, "iterate ", context, any),
        Event::Pending(context, any) => push_answer(out, names, "pending ", context, any),
        Event::Acquire(context, done) => push_answer(out, names, "acquire ", context, done),
        Event::LoopEnd(number) => {
            push_with(out, names, "loop ", Thing::Loop(number))?;
            out.push_str(" end")
        }
        Event::Default(context) => push_with(out, names, "default ", Thing::Context(context)),
        Event::Invoke(context, how) => push_invoke(out, names, told.callee, context, how),
        Event::Arrive(context, id) => {
            push_with(out, names, "arrive ", Thing::Source { context, id })?;
            push_with(out, names, " in ", Thing::Context(context))
        }
        Event::Cancel(number) => push_with(out, names, "cancel ", Thing::Cancellable(number)),
        Event::Handler(id) => push_handler(out, names, told, id),
        Event::Task {
            lane,
            number,
            outcome,
        } => {
            push_with(out, names, "task ", Thing::Task { lane, number })?;
            push_outcome(out, outcome)
        }
        Event::TaskLate(lane, number) => {
            push_with(out, names, "task ", Thing::Task { lane, number })?;
            out.push_str(" late")
        }
        Event::Give { context, lane } => {
            push_with(out, names, "give ", Thing::Context(context))?;
            push_with(out, names, " to ", Thing::Thread(lane))
        }
        Event::Hold(context) => push_with(out, names, "hold ", Thing::Context(context)),
        Event::Miss(missed) => {
            out.push_str("miss ")?;
            out.push_str(action_word(missed))
        }
        Event::HaltDepth => out.push_str("halt depth"),
        Event::HaltSteps => out.push_str("halt steps"),
        Event::End => out.push_str("end"),
    }
}

/// Adds words, and what something is called.
fn push_with(
    out: &mut String,
    names: &RunNames,
    words: &str,
    thing: Thing,
) -> Result<(), AllocError>
    ensures { OnOk result (string_bytes out.new ≡ string_bytes out.old ++ (words.now ++ thing_text names.now thing)) }
{
    out.push_str(words)?;
    names.push_bare(out, thing)
}

/// Adds the procedure that something calls, where it calls one.
fn push_callee(out: &mut String, names: &RunNames, callee: Option<u32>) -> Result<(), AllocError>
    ensures { OnOk result (string_bytes out.new ≡ string_bytes out.old ++ lines.callee_text names.now callee) }
{
    match callee {
        Some(procedure) => push_with(out, names, " -> ", Thing::Procedure(procedure)),
        None => Ok(()),
    }
}

/// Adds a question about a context, and its answer.
fn push_answer(
    out: &mut String,
    names: &RunNames,
    words: &str,
    context: u32,
    yes: bool,
) -> Result<(), AllocError>
    ensures { OnOk result (string_bytes out.new ≡ string_bytes out.old ++ (words.now ++ (called kinds.Context context names.now.names ++ lines.answer_text yes))) }
{
    push_with(out, names, words, Thing::Context(context))?;
    out.push_str(answer_part(yes))
}

/// Adds an invoke: its context, what is invoked there, and how.
fn push_invoke(
    out: &mut String,
    names: &RunNames,
    callee: Option<u32>,
    context: u32,
    how: Invoked,
) -> Result<(), AllocError>
    ensures { OnOk result (string_bytes out.new ≡ string_bytes out.old ++ (codes "invoke in " ++ (called kinds.Context context names.now.names ++ (lines.callee_text names.now callee ++ lines.invoked_text how)))) }
{
    push_with(out, names, "invoke in ", Thing::Context(context))?;
    push_callee(out, names, callee)?;
    out.push_str(invoked_part(how))
}

/// Adds a handler that is called; of one that is connected too late, the slot of the action that connects it.
fn push_handler(out: &mut String, names: &RunNames, told: &Told, id: u64) -> Result<(), AllocError>
    ensures { OnOk result (string_bytes out.new ≡ string_bytes out.old ++ lines.handler_or_late names.now told.now id) }
{
    if id == TOO_LATE {
        push_late(out, names, told.slot)
    } else {
        let lane = told.lane;
        push_with(out, names, "handler ", Thing::Handler { lane, id })
    }
}

/// Adds a handler that is connected too late.
fn push_late(out: &mut String, names: &RunNames, slot: Option<u32>) -> Result<(), AllocError>
    ensures { OnOk result (string_bytes out.new ≡ string_bytes out.old ++ lines.late_text names.now slot) }
{
    match slot {
        Some(slot) => push_with(out, names, "too late: ", Thing::Slot(slot)),
        None => out.push_str("too late"),
    }
}
