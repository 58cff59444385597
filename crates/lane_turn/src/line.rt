//! What a lane writes.
use loop_script::Outcome;

/// A line of a trace.
#[derive(Clone, Copy, Debug, PartialEq, Eq)]
pub struct Line {
    /// The tick in which it was written.
    pub tick: u32,
    /// What it tells.
    pub event: Event,
}

/// What a line tells. Contexts, loops, cancellables and lanes go by their number in the script.
#[derive(Clone, Copy, Debug, PartialEq, Eq)]
pub enum Event {
    /// A source of a context is dispatched.
    Dispatch {
        context: u32,
        /// The id of the source.
        source: u64,
        priority: i32,
        /// How many dispatches are then in progress.
        depth: u64,
    },
    /// The number of a `log`.
    Log(u32),
    /// An `iterate` of a context is over, and whether anything was selected when it began.
    Iterate(u32, bool),
    /// Whether an iteration of a context would dispatch something now.
    Pending(u32, bool),
    /// A run of a loop returns.
    LoopEnd(u32),
    /// Whether a context was acquired.
    Acquire(u32, bool),
    /// The thread-default context.
    Default(u32),
    /// A procedure was invoked in a context.
    Invoke(u32, Invoked),
    /// A source that came with a letter, of a reply or an invoke, is attached to a context, with its id.
    Arrive(u32, u64),
    /// A cancellable is cancelled.
    Cancel(u32),
    /// A handler is called, by its id; 0 is one that is connected too late.
    Handler(u64),
    /// The result of a task of a lane is taken.
    Task {
        lane: u32,
        /// The number of the task in its lane.
        number: u64,
        outcome: Outcome,
    },
    /// A task of a lane whose reply came early ends.
    TaskLate(u32, u64),
    /// A context is given to a lane, to which it goes at the end of the tick.
    Give {
        context: u32,
        lane: u32,
    },
    /// A context that another lane gave is taken over.
    Hold(u32),
    /// An action found nothing to act on, and changed nothing.
    Miss(Word),
    /// The lane halts: more than 32 calls would be in progress.
    HaltDepth,
    /// The lane halts: the turn would take more than 10,000 actions and dispatches.
    HaltSteps,
    /// The lane's start list is over.
    End,
}

/// How a procedure was invoked.
#[derive(Clone, Copy, Debug, PartialEq, Eq)]
pub enum Invoked {
    /// At once.
    Direct,
    /// By a source that is attached to a context of the same lane.
    Attached,
    /// By a source that is posted to another lane's context.
    Posted,
}

/// The actions that can miss.
#[derive(Clone, Copy, Debug, PartialEq, Eq)]
pub enum Word {
    Attach,
    Child,
    Destroy,
    SetReady,
    SetPriority,
    Run,
    Quit,
    Disconnect,
    Push,
    Pop,
    Release,
    Give,
}
