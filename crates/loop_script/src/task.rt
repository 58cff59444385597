//! The type of a task in a script.

use crate::tree::TaskTree;

/// A task as a script describes it.
#[derive(Drop)]
pub struct TaskSpec {
    /// What the task does.
    pub tree: TaskTree,
    /// The procedure that its reply calls.
    pub call: u32,
    /// The cancellable that can cancel it.
    pub cancel: Option<u32>,
    /// Whether its result is `Cancelled` where the cancellable is cancelled when the result is taken.
    pub check: bool,
    /// Whether its reply comes as soon as the cancellable is seen as cancelled.
    pub return_on_cancel: bool,
    /// The priority of its reply.
    pub priority: i32,
}
