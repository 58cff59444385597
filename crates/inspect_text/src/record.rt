//! What is counted of one source, and its words in a summary.
use context_core::Standing;
use inspect_words::{Span, Words, push_many, push_priority, push_source, push_tick};
use run_names::{RunNames, Thing};
use source_rows::Row;
use std::alloc::AllocError;

/// What is counted of a source.
#[derive(Clone, Copy)]
pub(crate) struct Record {
    pub context: u32,
    /// The source as it was attached.
    pub row: Row,
    /// The tick in which it was attached.
    pub attached: u32,
    /// The thread that sent it, as a reply or an invoke.
    pub sender: Option<u32>,
    pub dispatches: Span,
    /// The iterations of its context that it was there for.
    pub iterations: Span,
    /// Those of them that found it ready behind a more urgent source.
    pub waits: Span,
    /// The least and the greatest priority behind which it waited.
    pub least: i32,
    pub greatest: i32,
    /// What the latest iteration did with it.
    pub latest: Option<Standing>,
}

impl Record {
    /// A source that was attached in a tick.
    pub(crate) fn new(context: u32, row: Row, attached: u32, sender: Option<u32>) -> Record {
        Record {
            context,
            row,
            attached,
            sender,
            dispatches: Span::none(),
            iterations: Span::none(),
            waits: Span::none(),
            least: i32::MAX,
            greatest: i32::MIN,
            latest: None,
        }
    }

    /// Counts an iteration of its context.
    pub(crate) fn add_iteration(&mut self, tick: u32, standing: Standing) {
        self.iterations.add(tick);
        self.latest = Some(standing);
        if let Standing::LessUrgent { priority, .. } = standing {
            self.waits.add(tick);
            self.least = self.least.min(priority);
            self.greatest = self.greatest.max(priority);
        }
    }

    /// Adds what the source is called.
    pub(crate) fn push_name(&self, out: &mut String, names: &RunNames) -> Result<(), AllocError> {
        let context = self.context;
        let id = self.row.id;
        names.push(out, Thing::Source { context, id })
    }

    /// Adds its line of the summary.
    pub(crate) fn push(&self, out: &mut String, words: Words<'_>) -> Result<(), AllocError> {
        let names = words.names;
        self.push_name(out, names)?;
        out.push_str(", ")?;
        push_source(out, names, self.context, &self.row)?;
        out.push_str(", attached in ")?;
        push_tick(out, words.script, self.attached)?;
        if self.dispatches.count == 0 {
            out.push_str(": never dispatched")?;
        } else {
            out.push_str(": dispatched ")?;
            push_dispatch_count(out, self.dispatches.count)?;
            out.push_str(", ")?;
            self.dispatches.push_ticks(out, words.script)?;
        }
        if self.waits.count != 0 {
            out.push_str("; ready but left out by ")?;
            push_many(out, self.waits.count, "iteration", "iterations")?;
            out.push_str(", ")?;
            self.waits.push_ticks(out, words.script)?;
            out.push_str(", behind ")?;
            self.push_behind(out, names)?;
        }
        out.push_str("\n")
    }

    /// Adds the priorities behind which it waited.
    pub(crate) fn push_behind(&self, out: &mut String, names: &RunNames) -> Result<(), AllocError> {
        if self.least == self.greatest {
            out.push_str("priority ")?;
            return push_priority(out, names, self.least);
        }
        out.push_str("priorities from ")?;
        push_priority(out, names, self.least)?;
        out.push_str(" to ")?;
        push_priority(out, names, self.greatest)
    }
}

/// Adds how often the source was dispatched.
fn push_dispatch_count(out: &mut String, count: u64) -> Result<(), AllocError> {
    if count == 1 {
        out.push_str("once")
    } else {
        write!(out, "{count} times")
    }
}
