//! What is shown of the tasks of a book to whoever looks at a run. None of it changes them.
ghost use Rattle.std.specs.Prelude.{◌≡◌, ◌++◌, OnOk, map};
ghost use Rattle.task_steps.specs.BookInside.{entries_below};
ghost use Rattle.task_steps.specs.Shown.{entry_shown};

use crate::entry::Entry;
use crate::tasks::Tree;
use std::alloc::AllocError;

/// A task that was started and whose body has not ended.
#[derive(Clone, Copy, Debug, PartialEq, Eq)]
pub struct TaskShown {
    /// The number of the task in its book.
    pub number: u64,
    /// The context that its reply goes to.
    pub ctx: u32,
    /// The tick of its first poll.
    pub first: u32,
    /// The cancellable of the task.
    pub cancel: Option<u32>,
    /// Whether it has replied already: it returns on cancel, and a poll saw it as cancelled.
    pub replied: bool,
    /// The tick of its first poll, where that has not come, and else one before which its body does not end, whatever may
    /// come: its end, or a tick before that in which a check of its tree may be begun and seen as cancelled.
    pub wake: Option<u64>,
}

impl Entry {
    /// What is shown of it.
    pub(crate) fn show(&self) -> TaskShown
        ensures { result ≡ entry_shown self.now }
    {
        TaskShown {
            number: self.number,
            ctx: self.ctx,
            first: self.first,
            cancel: self.cancel,
            replied: self.return_on_cancel && self.run.was_cancelled(),
            wake: self.wake(),
        }
    }
}

impl Tree {
    /// Adds what is shown of each task, in start order.
    pub(crate) fn show(&self, list: &mut Vec<TaskShown>) -> Result<(), AllocError>
        ensures { OnOk result (list.new.items ≡ list.old.items ++ map entry_shown (entries_below self.now)) }
    {
        match self {
            Tree::Gone => {}
            Tree::Leaf(leaf) => leaf.show(list)?,
            Tree::Two(sides) => {
                sides.left.show(list)?;
                sides.right.show(list)?;
            }
        }
        Ok(())
    }
}
