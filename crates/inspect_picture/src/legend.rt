//! What the marks of a picture mean.
use crate::mark::Mark;
use std::alloc::{AllocError, Global};

/// How many characters stand beside the words of a mark: a space, the mark, and the comma behind.
const BESIDE: usize = 3;

/// The marks but dispatches, in the order in which they are told.
const ORDER: [Mark; 8] = [
    Mark::Ready,
    Mark::Waits,
    Mark::Runs,
    Mark::Starts,
    Mark::GoesOn,
    Mark::Replies,
    Mark::EndsLate,
    Mark::Cancelled,
];

/// The marks that a picture has.
#[derive(Drop)]
pub(crate) struct Legend {
    /// The depth of the deepest dispatch; 0 where there is none.
    deepest: u64,
    /// The others, each once.
    others: Vec<Mark>,
}

impl Legend {
    /// No mark is drawn yet.
    pub(crate) fn new(alloc: Global) -> Legend {
        Legend {
            deepest: 0,
            others: Vec::new(alloc),
        }
    }

    /// A mark is drawn.
    pub(crate) fn add(&mut self, mark: Mark) -> Result<(), AllocError> {
        if let Mark::Dispatched(depth) = mark {
            self.deepest = self.deepest.max(depth);
        } else if !self.others.as_slice().contains(&mark) {
            self.others.push(mark)?;
        }
        Ok(())
    }

    /// Adds what each mark means, in a line, or where that would have more characters than this in several.
    pub(crate) fn push(
        &self,
        alloc: Global,
        columns: usize,
        out: &mut String,
    ) -> Result<(), AllocError> {
        let mut line = String::new(alloc);
        match self.deepest {
            0 => {}
            1 => line.push_str("1 dispatched")?,
            _ => line.push_str("1 2 .. dispatched at that depth")?,
        }
        for mark in ORDER {
            if self.others.as_slice().contains(&mark) {
                push_part(&mut line, mark, columns, out)?;
            }
        }
        if line.is_empty() {
            return Ok(());
        }
        out.push_str(line.as_str())?;
        out.push_str("\n")
    }
}

/// Adds what a mark means to a line, which goes out where it has no room for that.
fn push_part(
    line: &mut String,
    mark: Mark,
    columns: usize,
    out: &mut String,
) -> Result<(), AllocError> {
    let words = meaning(mark);
    if !line.is_empty() {
        line.push_str(",")?;
        if line.len().saturating_add(BESIDE + words.len()) > columns {
            out.push_str(line.as_str())?;
            out.push_str("\n")?;
            line.clear();
        } else {
            line.push_str(" ")?;
        }
    }
    line.push(mark.character())?;
    line.push_str(words)
}

/// What a mark means.
fn meaning(mark: Mark) -> &'static str {
    match mark {
        Mark::Dispatched(_) => " dispatched",
        Mark::Ready => " ready, not dispatched",
        Mark::Waits => " waits",
        Mark::Runs => " runs",
        Mark::Starts => " starts",
        Mark::GoesOn => " goes on",
        Mark::Replies => " replies",
        Mark::EndsLate => " ends late",
        Mark::Cancelled => " cancelled",
    }
}
