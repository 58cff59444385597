//! What a thread is in the middle of at one moment of a turn.
use crate::steps::{is_step, push_done, push_stack};
use account::{Deed, Moment};
use inspect_words::{
    AskedBy, Run, Words, caller_of, push_action, push_halt, push_list, push_many, push_tick,
};
use lane_turn::{Activity, Call, LaneState, Origin};
use run_names::{RunNames, Thing};
use std::alloc::AllocError;

/// A moment of the turn of a thread.
#[derive(Clone, Copy, Debug, PartialEq, Eq)]
pub struct Point {
    pub lane: u32,
    pub tick: u32,
    /// After so many steps of the turn, where 0 is before the first; None is the end of the turn.
    pub step: Option<u64>,
}

/// How far a run has come to a moment.
#[derive(Clone, Copy, Debug, PartialEq, Eq)]
pub enum Reach {
    /// The moment is to come.
    Before,
    /// It is there.
    There,
    /// The turn is over, and had so many steps: fewer than were asked for.
    Over { steps: u64 },
}

/// What is in progress just outside of something: what begins an iteration.
#[derive(Clone, Copy)]
enum Outside {
    Nothing,
    Call(Call),
    Loop(u32),
}

/// Tells what a thread is in the middle of at one moment.
#[derive(Drop)]
pub struct Stack {
    point: Point,
    /// How many steps of the turn were taken.
    count: u64,
}

impl Stack {
    /// Nothing is told yet.
    pub fn new(point: Point) -> Stack {
        Stack { point, count: 0 }
    }

    /// Adds what the thread is in the middle of, where the latest moment of a run is the one that is asked for, and answers
    /// whether it is.
    pub fn tell(
        &mut self,
        run: Run<'_>,
        moment: &Moment,
        out: &mut String,
    ) -> Result<Reach, AllocError> {
        let Some(lane) = run.account.lane(moment.lane) else {
            return Ok(Reach::Before);
        };
        let reach = self.reach(moment);
        if reach == Reach::There {
            let words = run.words();
            self.push_heading(words, moment, out)?;
            push_drawn(words.names, lane, out)?;
            push_each(words, lane, out)?;
            push_halt(out, words, moment.lane, lane)?;
        }
        Ok(reach)
    }

    /// How far the run is with the latest moment.
    fn reach(&mut self, moment: &Moment) -> Reach {
        if moment.lane != self.point.lane || moment.tick != self.point.tick {
            return Reach::Before;
        }
        if is_step(moment.deed) {
            self.count = self.count.saturating_add(1);
        }
        let is_over = moment.deed == Deed::Rests;
        let steps = self.count;
        match self.point.step {
            Some(step) if step == steps => Reach::There,
            Some(_) if is_over => Reach::Over { steps },
            None if is_over => Reach::There,
            _ => Reach::Before,
        }
    }

    /// Adds which moment it is.
    fn push_heading(
        &self,
        words: Words<'_>,
        moment: &Moment,
        out: &mut String,
    ) -> Result<(), AllocError> {
        push_tick(out, words.script, moment.tick)?;
        out.push_str(", ")?;
        words.names.push(out, Thing::Thread(moment.lane))?;
        out.push_str(", ")?;
        match self.point.step {
            None => {
                out.push_str("at the end of its turn, after ")?;
                push_many(out, self.count, "step", "steps")?;
            }
            Some(0) => out.push_str("before its first step")?,
            Some(step) => {
                write!(out, "after step {step}: ")?;
                push_done(out, words, moment.deed)?;
            }
        }
        out.push_str("\n")
    }
}

/// Adds what is in progress in one line.
fn push_drawn(names: &RunNames, lane: &LaneState, out: &mut String) -> Result<(), AllocError> {
    let mut frames = lane.frames();
    if frames.next().is_none() {
        return out.push_str("nothing is in progress\n");
    }
    push_stack(out, names, lane)?;
    out.push_str("\n")
}

/// How much is in progress.
fn height_of(lane: &LaneState) -> u64 {
    let mut height = 0u64;
    for _ in lane.frames() {
        height = height.saturating_add(1);
    }
    height
}

/// Adds a line for each thing in progress, from the outermost inwards.
fn push_each(words: Words<'_>, lane: &LaneState, out: &mut String) -> Result<(), AllocError> {
    let names = words.names;
    let mut outside = Outside::Nothing;
    let height = height_of(lane);
    let mut level = 0u64;
    for one in lane.frames() {
        level = level.saturating_add(1);
        out.push_str("  ")?;
        match one {
            Activity::Call(call) => {
                push_call(names, call, out)?;
                if level < height {
                    push_inside(words, call, out)?;
                }
                push_next(words, call, out)?;
                outside = Outside::Call(call);
            }
            Activity::Loop { number, context } => {
                names.push(out, Thing::Loop(number))?;
                out.push_str(" runs ")?;
                names.push(out, Thing::Context(context))?;
                outside = Outside::Loop(number);
            }
            Activity::Iteration { context, left, .. } => {
                push_asker(names, outside, out)?;
                out.push_str(" iterates ")?;
                names.push(out, Thing::Context(context))?;
                out.push_str(": ")?;
                push_left(names, context, left, out)?;
                outside = Outside::Nothing;
            }
        }
        out.push_str("\n")?;
    }
    Ok(())
}

/// Adds who calls what.
fn push_call(names: &RunNames, call: Call, out: &mut String) -> Result<(), AllocError> {
    match call.origin {
        Origin::Start => {}
        Origin::Source(caller) => {
            let context = caller.context;
            let id = caller.id;
            let number = caller.number;
            names.push(out, Thing::Source { context, id })?;
            write!(out, ", in dispatch {number} of it, calls ")?;
        }
        Origin::Invoke(Some(context)) => {
            out.push_str("an invoke that acquired ")?;
            names.push(out, Thing::Context(context))?;
            out.push_str(" calls ")?;
        }
        Origin::Invoke(None) => out.push_str("an invoke calls ")?,
    }
    push_list(out, names, call.body)?;
    out.push_str(": ")
}

/// Adds the action of a call that is in progress: what is inside of it was begun by that.
fn push_inside(words: Words<'_>, call: Call, out: &mut String) -> Result<(), AllocError> {
    let place = call.place.saturating_sub(1);
    match words.script.actions(call.body).get(place) {
        Some(action) => {
            write!(out, "in action {place}, ")?;
            push_action(out, words.names, action)?;
            out.push_str("; ")
        }
        None => Ok(()),
    }
}

/// Adds which action of a call comes next.
fn push_next(words: Words<'_>, call: Call, out: &mut String) -> Result<(), AllocError> {
    let place = call.place;
    match words.script.actions(call.body).get(place) {
        Some(action) => {
            write!(out, "next is action {place}, ")?;
            push_action(out, words.names, action)
        }
        None => out.push_str("no action is left"),
    }
}

/// Adds what began an iteration, by what is just outside of it.
fn push_asker(names: &RunNames, outside: Outside, out: &mut String) -> Result<(), AllocError> {
    match outside {
        Outside::Nothing => out.push_str("the thread"),
        Outside::Loop(number) => AskedBy::Loop(number).push(out, names),
        Outside::Call(call) => AskedBy::Action {
            caller: caller_of(call.origin),
            body: call.body,
            place: call.place.saturating_sub(1),
        }
        .push(out, names),
    }
}

/// Adds the sources that an iteration has left.
fn push_left(
    names: &RunNames,
    context: u32,
    left: &[u64],
    out: &mut String,
) -> Result<(), AllocError> {
    if left.is_empty() {
        return out.push_str("no source is left");
    }
    for (n, id) in left.iter().enumerate() {
        if n != 0 {
            out.push_str(", ")?;
        }
        names.push_source(out, context, *id)?;
    }
    out.push_str(if left.len() == 1 {
        " is left"
    } else {
        " are left"
    })
}
