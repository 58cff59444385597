//! What the passes of the two queues know. Values of these stand in clauses alone: none is made.
use crate::letter::Letter;
use std::collections::LinkedList;

/// What a pass of a work list's queue knows.
pub struct WorkView<T> {
    /// Whether it is the list's own.
    pub is_own: bool,
    /// What was put into the list.
    pub put: LinkedList<T>,
    /// What this pass took.
    pub taken: LinkedList<T>,
    /// Of the list's own: what each pass took that was taken back.
    pub recorded: LinkedList<LinkedList<T>>,
    /// Of the list's own how many others are out, of another 1, and 0 where it was taken back.
    pub out: u64,
}

/// What a pass of an office's queue knows.
pub struct PostView {
    /// Whether it is the office's own.
    pub is_own: bool,
    /// What this pass posted.
    pub posted: LinkedList<Letter>,
    /// Of the office's own: what each pass posted that was taken back.
    pub recorded: LinkedList<LinkedList<Letter>>,
    /// Of the office's own: what was drained.
    pub drained: LinkedList<Letter>,
    /// Of the office's own how many others are out, of another 1, and 0 where it was taken back.
    pub out: u64,
}
