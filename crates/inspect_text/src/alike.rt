//! Iterations that are told once, since they follow one another and are alike.
use crate::block::Block;
use inspect_words::{Begun, Words, push_ticks};
use std::alloc::{AllocError, Global};

/// Iterations of a thread one after another, with the same asker and the same reasons.
#[derive(Drop)]
pub(crate) struct Alike {
    begun: Begun,
    lines: String,
    dispatches: bool,
    first: u32,
    last: u32,
    count: u32,
}

impl Alike {
    /// One iteration in a tick.
    pub(crate) fn new(
        alloc: Global,
        begun: Begun,
        block: &Block,
        tick: u32,
    ) -> Result<Alike, AllocError> {
        Ok(Alike {
            begun,
            lines: String::from_str(alloc, block.lines.as_str())?,
            dispatches: block.dispatches,
            first: tick,
            last: tick,
            count: 1,
        })
    }

    /// Whether an iteration is alike.
    pub(crate) fn has(&self, begun: &Begun, block: &Block) -> bool {
        self.begun == *begun && self.lines.as_str() == block.lines.as_str()
    }

    /// Counts one more that is alike.
    pub(crate) fn add(&mut self, tick: u32) {
        self.last = tick;
        self.count = self.count.saturating_add(1);
    }

    /// Adds the ticks, who asked, and what is done with each source.
    pub(crate) fn push(&self, out: &mut String, words: Words<'_>) -> Result<(), AllocError> {
        push_ticks(out, words.script, self.first, self.last)?;
        self.begun.push(out, words.names)?;
        push_count(out, self.first, self.last, self.count)?;
        out.push_str(if self.dispatches {
            "\n"
        } else {
            ", and nothing is ready\n"
        })?;
        out.push_str(self.lines.as_str())
    }
}

/// Adds how many there were, where that is not one in each tick.
pub(crate) fn push_count(
    out: &mut String,
    first: u32,
    last: u32,
    count: u32,
) -> Result<(), AllocError> {
    if count == last.saturating_sub(first).saturating_add(1) {
        return Ok(());
    }
    write!(out, ", {count} times")
}
