//! The moments of a run as JSON, an object a line: what moved, by whom, what it wrote and left.
use crate::name_lists::{push_name_lists, push_quoted_name};
use account::{Account, Deed, Moment};
use inspect_words::{Run, Window, Words, action_in_a_word, text_of};
use lane_turn::{LaneState, Place};
use loop_script::{Body, Script};
use std::alloc::{AllocError, Global};

/// The version of the format, which the first line tells.
const VERSION: u32 = 1;

/// Tells of each moment where and what it was, and the lines that it wrote.
#[derive(Drop)]
pub struct Moments {
    alloc: Global,
    window: Window,
    /// How many were told.
    told: u64,
}

impl Moments {
    /// Adds the first line: what format it is, what run, and the names of its script where there are some.
    pub fn begin(
        alloc: Global,
        words: Words<'_>,
        window: Window,
        out: &mut String,
    ) -> Result<Moments, AllocError> {
        let script = words.script;
        let ticks = script.ticks();
        let length = script.tick_us();
        let lanes = script.lanes();
        let contexts = script.contexts();
        write!(
            out,
            "{{\"format\":\"mainctx account\",\"version\":{VERSION},\"ticks\":{ticks},\"tick_us\":{length},\"lanes\":{lanes},\"contexts\":{contexts}"
        )?;
        push_name_lists(alloc, out, words.names)?;
        out.push_str("}\n")?;
        Ok(Moments {
            alloc,
            window,
            told: 0,
        })
    }

    /// Adds the line of the latest moment of a run.
    pub fn tell(
        &mut self,
        run: Run<'_>,
        moment: &Moment,
        out: &mut String,
    ) -> Result<(), AllocError> {
        if !self.window.has(moment.lane, moment.tick) {
            return Ok(());
        }
        self.told = self.told.saturating_add(1);
        let tick = moment.tick;
        let number = moment.lane;
        write!(out, "{{\"tick\":{tick},\"lane\":{number},\"did\":")?;
        push_deed(out, run.account.script(), moment.deed)?;
        if let Some(lane) = run.account.lane(number) {
            push_lines_key(self.alloc, out, lane, moment)?;
            push_gained(self.alloc, out, run.words(), lane, moment)?;
        }
        out.push_str("}\n")
    }

    /// Adds the last line: that the run is over, and how many moments were told.
    pub fn end(&self, account: &Account, out: &mut String) -> Result<(), AllocError> {
        let ticks = account.script().ticks();
        let told = self.told;
        writeln!(
            out,
            "{{\"tick\":{ticks},\"did\":\"over\",\"moments\":{told}}}"
        )
    }
}

/// Adds a list of ids.
fn push_id_array(out: &mut String, ids: &[u64]) -> Result<(), AllocError> {
    out.push_str("[")?;
    for (n, id) in ids.iter().enumerate() {
        if n != 0 {
            out.push_str(",")?;
        }
        write!(out, "{id}")?;
    }
    out.push_str("]")
}

/// Adds the keys of what a move leaves in its lane: the source that it attached, what an iteration selected, and how many calls are in
/// progress.
fn push_gained(
    alloc: Global,
    out: &mut String,
    words: Words<'_>,
    lane: &LaneState,
    moment: &Moment,
) -> Result<(), AllocError> {
    if let Some(Place { context, id }) = moment.attached(words.script, lane) {
        write!(out, ",\"attached\":{{\"context\":{context},\"source\":{id}")?;
        push_quoted_name(alloc, out, words.names, context, id)?;
        out.push_str("}")?;
    }
    if let Some(ids) = moment.selected(words.script, lane) {
        out.push_str(",\"selected\":")?;
        push_id_array(out, ids)?;
    }
    let depth = lane.calls();
    write!(out, ",\"depth\":{depth}")
}

/// Adds the key and the list of what a moment wrote.
fn push_lines_key(
    alloc: Global,
    out: &mut String,
    lane: &LaneState,
    moment: &Moment,
) -> Result<(), AllocError> {
    let text = text_of(alloc, lane, moment)?;
    push_line_array(out, text.as_str())
}

/// The same of a text, where it has a line.
fn push_line_array(out: &mut String, text: &str) -> Result<(), AllocError> {
    if text.is_empty() {
        return Ok(());
    }
    out.push_str(",\"lines\":[")?;
    for (n, line) in text.lines().enumerate() {
        if n != 0 {
            out.push_str(",")?;
        }
        write!(out, "\"{line}\"")?;
    }
    out.push_str("]")
}

/// Adds the keys of a list of actions.
fn push_body(out: &mut String, body: Body) -> Result<(), AllocError> {
    match body {
        Body::Start(_) => out.push_str(",\"list\":\"start\""),
        Body::Procedure(proc) => write!(out, ",\"list\":\"procedure\",\"procedure\":{proc}"),
        Body::Nothing => out.push_str(",\"list\":\"nothing\""),
    }
}

/// Adds the word of what was done to a source, and its keys.
fn push_source_object(
    out: &mut String,
    word: &str,
    context: u32,
    source: u64,
) -> Result<(), AllocError> {
    write!(out, "\"{word}\",\"context\":{context},\"source\":{source}")
}

/// Adds the word of what a loop did, and its keys.
fn push_loop_object(
    out: &mut String,
    word: &str,
    number: u32,
    context: u32,
) -> Result<(), AllocError> {
    write!(out, "\"{word}\",\"loop\":{number},\"context\":{context}")
}

/// Adds the keys of an action.
fn push_acted(
    out: &mut String,
    script: &Script,
    body: Body,
    place: usize,
) -> Result<(), AllocError> {
    out.push_str("\"acted\"")?;
    push_body(out, body)?;
    let word = match script.actions(body).get(place) {
        Some(action) => action_in_a_word(action),
        None => "",
    };
    write!(out, ",\"place\":{place},\"action\":\"{word}\"")
}

/// Adds the word of what was done, and its keys.
fn push_deed(out: &mut String, script: &Script, deed: Deed) -> Result<(), AllocError> {
    match deed {
        Deed::Polled => out.push_str("\"polled\""),
        Deed::Acted { body, place } => push_acted(out, script, body, place),
        Deed::Returned { body } => {
            out.push_str("\"returned\"")?;
            push_body(out, body)
        }
        Deed::Dispatched { context, source } => push_source_object(
            out,
            "dispatched",
            context,
            source,
        ),
        Deed::PassedOver { context, source } => push_source_object(
            out,
            "passed_over",
            context,
            source,
        ),
        Deed::IterationEnded { context } => {
            write!(out, "\"iteration_ended\",\"context\":{context}")
        }
        Deed::Iterated {
            loop_number,
            context,
        } => push_loop_object(out, "iterated", loop_number, context),
        Deed::LoopEnded {
            loop_number,
            context,
        } => push_loop_object(out, "loop_ended", loop_number, context),
        Deed::Rests => out.push_str("\"rests\""),
        Deed::HandedOver { context, from } => {
            write!(out, "\"handed_over\",\"context\":{context},\"from\":{from}")
        }
        Deed::Received { letter, sender } => {
            write!(out, "\"received\",\"letter\":{letter},\"sender\":{sender}")
        }
    }
}
