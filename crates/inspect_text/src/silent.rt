//! What was silent in a run, and why: sources never dispatched, tasks without an end, loops that never ran, replies not taken.
use crate::counts::{ContextCount, Counts};
use crate::record::Record;
use account::Account;
use context_core::Standing;
use inspect_words::{Run, Words, action_in_a_word, push_halt, push_many, push_standing, push_tick};
use lane_turn::{Activity, Awaited, LaneState, Origin};
use loop_script::{Action, Body, Script};
use run_names::Thing;
use std::alloc::AllocError;

/// Adds a line for each source that was never dispatched, each loop that did not end and each thread that did not come to the end of its
/// start list.
pub(crate) fn push_silent(
    out: &mut String,
    run: Run<'_>,
    counts: &Counts,
) -> Result<(), AllocError> {
    let words = run.words();
    for context in counts.contexts.as_slice() {
        for record in context.sources.as_slice() {
            if record.dispatches.count == 0 {
                push_undispatched(out, run, context, record)?;
            }
        }
    }
    for number in 0..words.script.lanes() {
        if let Some(lane) = run.account.lane(number) {
            push_unended(out, words, number, lane)?;
        }
    }
    Ok(())
}

/// Adds that a source was never dispatched, and why.
fn push_undispatched(
    out: &mut String,
    run: Run<'_>,
    context: &ContextCount,
    record: &Record,
) -> Result<(), AllocError> {
    let words = run.words();
    record.push_name(out, words.names)?;
    push_sender(out, run, record)?;
    out.push_str(" was never dispatched: ")?;
    if !is_there(run.account, record) {
        out.push_str("it was destroyed before")?;
    } else if record.iterations.count == 0 {
        push_not_iterated(out, words, context, record)?;
    } else if record.waits.count == record.iterations.count {
        out.push_str("it was ready in ")?;
        push_many(out, record.waits.count, "iteration", "iterations")?;
        out.push_str(" of ")?;
        words.names.push(out, Thing::Context(record.context))?;
        out.push_str(", and sources of ")?;
        record.push_behind(out, words.names)?;
        out.push_str(" went first")?;
    } else if let Some(standing) = record.latest {
        push_latest(out, words, record, standing)?;
    }
    out.push_str("\n")
}

/// Adds whose reply a source is, or which thread sent it, where that is so.
fn push_sender(out: &mut String, run: Run<'_>, record: &Record) -> Result<(), AllocError> {
    if let Some(awaited) = awaited_by(run.account, record) {
        out.push_str(", the reply of ")?;
        let task = Thing::Task {
            lane: awaited.sender,
            number: awaited.reply.task,
        };
        run.names.push(out, task)?;
    } else if let Some(sender) = record.sender {
        out.push_str(", which ")?;
        run.names.push(out, Thing::Thread(sender))?;
        out.push_str(" sent")?;
    } else {
        return Ok(());
    }
    out.push_str(",")
}

/// Adds how a source stood when its context was last iterated.
fn push_latest(
    out: &mut String,
    words: Words<'_>,
    record: &Record,
    standing: Standing,
) -> Result<(), AllocError> {
    out.push_str("in the last iteration of ")?;
    words.names.push(out, Thing::Context(record.context))?;
    out.push_str(", ")?;
    push_tick(out, words.script, record.iterations.last)?;
    out.push_str(", ")?;
    push_standing(out, words, record.context, record.row.id, standing)?;
    if standing == Standing::Selected {
        out.push_str(", but its thread came to no dispatch of it")?;
    }
    Ok(())
}

/// The reply that a source holds at the end of the run.
fn awaited_by(account: &Account, record: &Record) -> Option<Awaited> {
    for number in 0..account.script().lanes() {
        if let Some(lane) = account.lane(number) {
            let awaited = lane.awaited(record.context, record.row.id);
            if awaited.is_some() {
                return awaited;
            }
        }
    }
    None
}

/// Whether a source is still there.
fn is_there(account: &Account, record: &Record) -> bool {
    for number in 0..account.script().lanes() {
        if let Some(lane) = account.lane(number) {
            if let Some(rows) = lane.sources(record.context) {
                return rows.found(record.row.id).is_some();
            }
        }
    }
    false
}

/// Adds why a source met no iteration of its context.
fn push_not_iterated(
    out: &mut String,
    words: Words<'_>,
    context: &ContextCount,
    record: &Record,
) -> Result<(), AllocError> {
    words.names.push(out, Thing::Context(record.context))?;
    if context.iterations.count != 0 {
        out.push_str(" was last iterated in ")?;
        push_tick(out, words.script, context.iterations.last)?;
        return out.push_str(", before it was attached");
    }
    out.push_str(" was never iterated, since ")?;
    out.push_str(if has_loop(words.script, record.context) {
        "no loop of it ran and no action iterated it"
    } else {
        "it has no loop and no action iterated it"
    })
}

/// Whether a context has a loop.
fn has_loop(script: &Script, context: u32) -> bool {
    for number in 0..script.loops() {
        if script.loop_context(number) == context {
            return true;
        }
    }
    false
}

/// What of a thread is still in progress when the run is over.
#[derive(Clone, Copy)]
struct Unended {
    /// The place of the next action of its start list.
    place: Option<usize>,
    /// The loop that the start list runs.
    outermost: Option<u32>,
}

/// What of a thread is still in progress.
fn in_progress(lane: &LaneState) -> Unended {
    let mut found = Unended {
        place: None,
        outermost: None,
    };
    for one in lane.frames() {
        match one {
            Activity::Call(call) if call.origin == Origin::Start => found.place = Some(call.place),
            Activity::Loop { number, .. } if found.outermost.is_none() => {
                found.outermost = Some(number);
            }
            _ => {}
        }
    }
    found
}

/// Adds that loops of a thread did not end, that it halted, and to what of its start list it did not come.
fn push_unended(
    out: &mut String,
    words: Words<'_>,
    number: u32,
    lane: &LaneState,
) -> Result<(), AllocError> {
    for one in lane.frames() {
        if let Activity::Loop { number, context } = one {
            words.names.push(out, Thing::Loop(number))?;
            out.push_str(" of ")?;
            words.names.push(out, Thing::Context(context))?;
            out.push_str(" had not ended when the run did\n")?;
        }
    }
    push_halt(out, words, number, lane)?;
    let left = in_progress(lane);
    match left.place {
        Some(place) => push_rest(out, words, number, place, lane.halted(), left.outermost),
        None => Ok(()),
    }
}

/// Adds to what of its start list a thread did not come.
fn push_rest(
    out: &mut String,
    words: Words<'_>,
    number: u32,
    place: usize,
    halted: bool,
    running: Option<u32>,
) -> Result<(), AllocError> {
    let Some(rest) = words.script.actions(Body::Start(number)).get(place..) else {
        return Ok(());
    };
    let Some(next) = rest.first() else {
        return Ok(());
    };
    let word = action_in_a_word(next);
    words.names.push(out, Thing::Thread(number))?;
    write!(
        out,
        " did not come to action {place} of its start list ({word})"
    )?;
    if rest.len() > 1 {
        out.push_str(" or those behind it")?;
    }
    if halted {
        out.push_str(", since it halted")?;
    } else if let Some(running) = running {
        out.push_str(", since ")?;
        words.names.push(out, Thing::Loop(running))?;
        out.push_str(" had not ended")?;
    }
    let sources = never_attached(rest);
    if sources != 0 {
        out.push_str(": ")?;
        push_many(out, sources, "source was", "sources were")?;
        out.push_str(" never attached")?;
    }
    out.push_str("\n")
}

/// How many sources actions attach, of those that were never taken.
fn never_attached(actions: &[Action]) -> u64 {
    let mut count = 0u64;
    for action in actions {
        if matches!(action, Action::Attach { .. } | Action::Child { .. }) {
            count = count.saturating_add(1);
        }
    }
    count
}
