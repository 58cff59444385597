//! The type of which list of actions a call takes: a lane's start list, or a procedure's.

/// The list of actions that a call takes.
#[derive(Clone, Copy, Debug, PartialEq, Eq)]
pub enum Body {
    /// The start list of a lane.
    Start(u32),
    /// The list of a procedure.
    Procedure(u32),
    /// No action: the call of a source without a procedure.
    Nothing,
}
