//! The types of the actions of a script.

use crate::source::SourceSpec;
use crate::task::TaskSpec;

/// One action of a list, with its parts in the order of the script.
///
/// Contexts, loops, cancellables and procedures go by their number in the script, slots by their number in the lane.
/// A ready time is in microseconds, and -1 is never.
#[derive(Drop)]
pub enum Action {
    /// Attaches a source to a context, and sets a slot to it.
    Attach {
        context: u32,
        slot: u8,
        spec: SourceSpec,
    },
    /// Adds a child to the source of a slot, and sets a second slot to it. The priority is the parent's.
    Child {
        parent: u8,
        slot: u8,
        spec: SourceSpec,
    },
    /// Destroys the source of a slot.
    Destroy(u8),
    /// Sets the ready time of the source of a slot.
    SetReady(u8, i64),
    /// Sets the priority of the source of a slot.
    SetPriority(u8, i32),
    /// Runs one iteration of a context.
    Iterate(u32),
    /// Tells whether an iteration of a context would dispatch something now.
    Pending(u32),
    /// Runs a loop until it is quit.
    Run(u32),
    /// Quits a loop.
    Quit(u32),
    /// Cancels a cancellable.
    Cancel(u32),
    /// Connects a procedure to a cancellable, and sets a slot to the handler.
    Connect {
        cancellable: u32,
        slot: u8,
        proc: u32,
    },
    /// Disconnects the handler of a slot.
    Disconnect(u8),
    /// Starts a task.
    Task(TaskSpec),
    /// Pushes a context on the thread-default stack.
    Push(u32),
    /// Pops a context off the thread-default stack.
    Pop(u32),
    /// Tells the thread-default context.
    ShowDefault,
    /// Acquires a context.
    Acquire(u32),
    /// Releases a context.
    Release(u32),
    /// Invokes a procedure in a context.
    Invoke {
        context: u32,
        proc: u32,
    },
    /// Gives a context to a lane, to which it goes at the end of the tick.
    Give {
        context: u32,
        lane: u32,
    },
    /// Writes a number.
    Log(u32),
}
