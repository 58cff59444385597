//! The sources of a thread that only wait, named in one line below a picture's rows as far as there is room.
use std::alloc::{AllocError, Global};

/// How many characters stand before the names and between two, and behind them where others are only counted.
const BEFORE: usize = 13;

const BETWEEN: usize = 2;

const BEHIND: usize = 18;

/// The sources of a thread that only wait.
#[derive(Drop)]
pub(crate) struct Waiting {
    /// How many characters the line has at most.
    columns: usize,
    count: u64,
    /// How many of them are named: as many as there is room for, and one at least.
    named: u64,
    /// The names of these, one after another.
    names: String,
}

impl Waiting {
    /// None of a thread yet. The line is to have so many characters at most.
    pub(crate) fn new(alloc: Global, columns: usize) -> Waiting {
        Waiting {
            columns,
            count: 0,
            named: 0,
            names: String::new(alloc),
        }
    }

    /// Adds a source by its name.
    pub(crate) fn add(&mut self, name: &str) -> Result<(), AllocError> {
        if self.count == 0 {
            self.names.push_str(name)?;
            self.named = 1;
        } else if self.named == self.count && self.has_room(name) {
            self.names.push_str(", ")?;
            self.names.push_str(name)?;
            self.named = self.named.saturating_add(1);
        }
        self.count = self.count.saturating_add(1);
        Ok(())
    }

    /// Whether there is room for another name.
    fn has_room(&self, name: &str) -> bool {
        let taken = (BEFORE + BETWEEN + BEHIND).saturating_add(name.len());
        self.names.len().saturating_add(taken) <= self.columns
    }

    /// Adds the line, where there are some, and forgets them.
    pub(crate) fn flush(&mut self, out: &mut String) -> Result<(), AllocError> {
        if self.count == 0 {
            return Ok(());
        }
        out.push_str(if self.count == 1 {
            "  only waits: "
        } else {
            "  only wait: "
        })?;
        out.push_str(self.names.as_str())?;
        let more = self.count.saturating_sub(self.named);
        if more != 0 {
            write!(out, ", and {more} more")?;
        }
        self.names.clear();
        self.count = 0;
        self.named = 0;
        out.push_str("\n")
    }
}
