//! The refusals of edits of rows.
use thiserror::Error;

/// Why an edit was refused; the rows are then as they were.
#[derive(Clone, Copy, Debug, PartialEq, Eq, Error)]
pub enum RowsFault {
    /// No row has the id.
    #[error("no such source")]
    NoSource,
    /// The row is a child: at two levels it has no children, and it never has a priority of its own.
    #[error("a child source")]
    IsChild,
    /// Memory was refused.
    #[error("memory")]
    OutOfMemory,
    /// The row stands at the fourth of four levels, and has no children.
    #[error("too deep")]
    TooDeep,
}
