//! The type of a line with what it does not say itself: the action, the origin.
use lane_turn::Line;

/// A line of a run, and what it does not say itself.
#[derive(Clone, Copy, Debug, PartialEq, Eq)]
pub struct Told {
    pub line: Line,
    /// The thread that wrote it.
    pub lane: u32,
    /// The procedure that the source of a dispatch calls, or that is invoked; none where there is none.
    pub callee: Option<u32>,
    /// The slot of a handler that is connected too late.
    pub slot: Option<u32>,
}
