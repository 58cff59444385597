//! The line or heading that was printed last, as bytes.
ghost use Rattle.std.specs.Prelude.{◌≡◌, ◌≤◌, [], length};
ghost use Rattle.mainctx.specs.Bounds.{longest_line};
ghost use Rattle.mainctx.specs.Text.{lane_text, line_text};

use crate::ending::{LONGEST_LINE, put_heading, put_line};
use crate::last_dispatch::LastDispatch;
use lane_turn::{Event, Line};
use std::marker::Model;

/// The line that was printed last, seen as its bytes.
#[derive(Drop)]
pub(crate) struct Printed {
    dispatch: LastDispatch,
    /// A line that is none of a dispatch stands here, at the end.
    other: [u8; LONGEST_LINE],
    start: usize,
    is_dispatch: bool,
}

impl Model for Printed {
    ghost use Rattle.std.specs.Prelude.{ℕ, List, drop, if◌then◌else◌, ◌≤◌};
    ghost use Rattle.mainctx.specs.Bounds.{longest_line};
    ghost use Rattle.mainctx.specs.LastDispatch.{HoldsLine};

    ghost Value = { List ℕ };

    ghost view = { λ p. if p.is_dispatch then drop p.dispatch.start p.dispatch.bytes else drop p.start p.other };

    ghost invariant = { λ p. HoldsLine p.dispatch × (p.start ≤ longest_line) };
}

impl Printed {
    /// The heading of a lane.
    pub fn heading(lane: u32) -> Self
        ensures { result ≡ lane_text lane [] }
    {
        let mut other = [0; LONGEST_LINE];
        let start = put_heading(&mut other, lane);
        Printed {
            dispatch: LastDispatch::new(),
            other,
            start,
            is_dispatch: false,
        }
    }

    /// Prints a line.
    #[inline]
    pub fn print(&mut self, line: Line)
        ensures { self.new ≡ line_text line }
    {
        match line.event {
            Event::Dispatch {
                context,
                source,
                priority,
                depth,
            } => {
                self.dispatch
                    .write(line.tick, context, source, priority, depth);
                self.is_dispatch = true;
            }
            _ => {
                self.start = put_line(&mut self.other, line);
                self.is_dispatch = false;
            }
        }
    }

    /// Its bytes.
    #[inline]
    pub fn bytes(&self) -> &[u8]
        ensures value { result.now ≡ self.now }
        ensures short { length result.now ≤ longest_line }
    {
        if self.is_dispatch {
            self.dispatch.line()
        } else {
            &self.other[self.start..]
        }
    }
}
