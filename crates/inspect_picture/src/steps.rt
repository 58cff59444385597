//! The steps of each turn, with the stack after each, as a table.
use crate::column::push_to_column;
use account::{Deed, Moment};
use inspect_words::{Run, Window, Words, line_text_of, push_action, push_list, push_tick};
use lane_turn::{Activity, LaneState, Origin};
use loop_script::Body;
use run_names::{RunNames, Thing};
use std::alloc::{AllocError, Global};

/// Where the columns of what is done, of the stack and of the text begin.
const DONE_COLUMN: usize = 8;

const STACK_COLUMN: usize = 40;

const TEXT_COLUMN: usize = 100;

/// The turn of a thread in a tick.
#[derive(Clone, Copy, PartialEq, Eq)]
struct TurnName {
    lane: u32,
    tick: u32,
}

/// Tells each step of each turn: what is done, the stack after it, and the text that it writes.
#[derive(Drop)]
pub struct Steps {
    alloc: Global,
    window: Window,
    /// The turn of which is told.
    turn: Option<TurnName>,
    /// How many steps of it were taken.
    count: u64,
}

impl Steps {
    /// Nothing is told yet.
    pub fn new(alloc: Global, window: Window) -> Steps {
        Steps {
            alloc,
            window,
            turn: None,
            count: 0,
        }
    }

    /// Adds the latest moment of a run, but where it is no step and writes nothing.
    pub fn tell(
        &mut self,
        run: Run<'_>,
        moment: &Moment,
        out: &mut String,
    ) -> Result<(), AllocError> {
        let Some(lane) = run.account.lane(moment.lane) else {
            return Ok(());
        };
        if !self.window.has(moment.lane, moment.tick) {
            return Ok(());
        }
        let is_step = is_step(moment.deed);
        if !is_step && moment.from == moment.to {
            return Ok(());
        }
        let words = run.words();
        self.push_heading(words, moment, out)?;
        let mut row = String::new(self.alloc);
        if is_step {
            self.count = self.count.saturating_add(1);
            let number = self.count;
            write!(row, "{number:>6}")?;
        }
        push_to_column(&mut row, DONE_COLUMN)?;
        push_done(&mut row, words, moment.deed)?;
        push_to_column(&mut row, STACK_COLUMN)?;
        push_stack(&mut row, words.names, lane)?;
        push_text(self.alloc, &mut row, run, moment)?;
        out.push_str(row.as_str())?;
        out.push_str("\n")
    }

    /// Adds which turn it is, where that is another one than before.
    fn push_heading(
        &mut self,
        words: Words<'_>,
        moment: &Moment,
        out: &mut String,
    ) -> Result<(), AllocError> {
        let turn = TurnName {
            lane: moment.lane,
            tick: moment.tick,
        };
        if self.turn == Some(turn) {
            return Ok(());
        }
        self.turn = Some(turn);
        self.count = 0;
        push_tick(out, words.script, moment.tick)?;
        out.push_str(", ")?;
        words.names.push(out, Thing::Thread(moment.lane))?;
        out.push_str("\n")
    }
}

/// Whether a move is a step of a turn.
pub(crate) fn is_step(deed: Deed) -> bool {
    match deed {
        Deed::Polled | Deed::Rests | Deed::HandedOver { .. } | Deed::Received { .. } => false,
        _ => true,
    }
}

/// Adds what a move does.
pub(crate) fn push_done(row: &mut String, words: Words<'_>, deed: Deed) -> Result<(), AllocError> {
    let names = words.names;
    match deed {
        Deed::Polled => row.push_str("the tasks are polled"),
        Deed::Acted { body, place } => match words.script.actions(body).get(place) {
            Some(action) => push_action(row, names, action),
            None => Ok(()),
        },
        Deed::Returned { body } => {
            push_list(row, names, body)?;
            row.push_str(" is over")
        }
        Deed::Dispatched { context, source } => {
            push_source(row, names, context, source)?;
            row.push_str(" is dispatched")
        }
        Deed::PassedOver { context, source } => {
            push_source(row, names, context, source)?;
            row.push_str(" is passed over")
        }
        Deed::IterationEnded { .. } => row.push_str("the iteration is over"),
        Deed::Iterated { loop_number, .. } => {
            names.push(row, Thing::Loop(loop_number))?;
            row.push_str(" iterates")
        }
        Deed::LoopEnded { loop_number, .. } => {
            names.push(row, Thing::Loop(loop_number))?;
            row.push_str(" ends")
        }
        Deed::Rests => row.push_str("the thread rests"),
        Deed::HandedOver { context, from } => {
            names.push(row, Thing::Context(context))?;
            row.push_str(" comes from ")?;
            names.push(row, Thing::Thread(from))
        }
        Deed::Received { sender, .. } => {
            names.push(row, Thing::Thread(sender))?;
            row.push_str(" sent something")
        }
    }
}

/// Adds what a source is called.
fn push_source(
    row: &mut String,
    names: &RunNames,
    context: u32,
    id: u64,
) -> Result<(), AllocError> {
    names.push(row, Thing::Source { context, id })
}

/// Adds what is in progress, from the outermost inwards.
pub(crate) fn push_stack(
    row: &mut String,
    names: &RunNames,
    lane: &LaneState,
) -> Result<(), AllocError> {
    let mut some = false;
    for one in lane.frames() {
        if some {
            row.push_str(", ")?;
        }
        push_activity(row, names, one)?;
        some = true;
    }
    Ok(())
}

/// Adds one of the things in progress.
fn push_activity(row: &mut String, names: &RunNames, one: Activity<'_>) -> Result<(), AllocError> {
    match one {
        Activity::Call(call) if call.origin == Origin::Start => row.push_str("start"),
        Activity::Call(call) => match call.body {
            Body::Procedure(proc) => {
                row.push_str("call ")?;
                names.push_bare(row, Thing::Procedure(proc))
            }
            _ => row.push_str("call"),
        },
        Activity::Loop { number, .. } => names.push(row, Thing::Loop(number)),
        Activity::Iteration { context, left, .. } => push_left(row, names, context, left),
    }
}

/// Adds an iteration with the sources that it has left.
fn push_left(
    row: &mut String,
    names: &RunNames,
    context: u32,
    left: &[u64],
) -> Result<(), AllocError> {
    row.push_str("iter [")?;
    for (n, id) in left.iter().enumerate() {
        if n != 0 {
            row.push_str(if names.are_there() { ", " } else { " " })?;
        }
        if names.are_there() {
            names.push_source(row, context, *id)?;
        } else {
            write!(row, "{id}")?;
        }
    }
    row.push_str("]")
}

/// Adds the lines that a move wrote.
fn push_text(
    alloc: Global,
    row: &mut String,
    run: Run<'_>,
    moment: &Moment,
) -> Result<(), AllocError> {
    let text = line_text_of(alloc, run, moment)?;
    if text.is_empty() {
        return Ok(());
    }
    push_to_column(row, TEXT_COLUMN)?;
    for (n, line) in text.as_str().lines().enumerate() {
        if n != 0 {
            row.push_str("; ")?;
        }
        row.push_str(line)?;
    }
    Ok(())
}
