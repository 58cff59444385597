//! How often something happened, and in which ticks first and last, in words.
use crate::time::push_ticks;
use loop_script::Script;
use std::alloc::AllocError;

/// How often something happened, and the ticks of the first and the last time.
#[derive(Clone, Copy, Debug, PartialEq, Eq)]
pub struct Span {
    pub count: u64,
    pub first: u32,
    pub last: u32,
}

impl Span {
    /// It has not happened yet.
    pub fn none() -> Span {
        Span {
            count: 0,
            first: 0,
            last: 0,
        }
    }

    /// Counts one more.
    pub fn add(&mut self, tick: u32) {
        if self.count == 0 {
            self.first = tick;
        }
        self.last = tick;
        self.count = self.count.saturating_add(1);
    }

    /// Adds the ticks of the first and the last time.
    pub fn push_ticks(&self, out: &mut String, script: &Script) -> Result<(), AllocError> {
        push_ticks(out, script, self.first, self.last)
    }
}

/// Adds a number of things.
pub fn push_many(out: &mut String, count: u64, one: &str, many: &str) -> Result<(), AllocError> {
    write!(out, "{count} ")?;
    out.push_str(if count == 1 { one } else { many })
}
