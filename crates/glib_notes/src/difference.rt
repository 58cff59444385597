//! The ways in which GLib does otherwise: the name of each, and its words.

/// A way in which GLib parts from the rules, which a script can show. Each is a row of docs/GLIB.md, under its name.
#[derive(Clone, Copy, Debug, PartialEq, Eq)]
pub enum Difference {
    /// A timeout restarts from the time at which its iteration began.
    TimeoutCachedTime,
    /// A source that was ready and not dispatched stays so.
    ReadyFlagStays,
    /// `g_main_context_pending` in a callback fills the list of the iteration in progress anew.
    PendingRefills,
    /// The end of a parent's call unblocks a child that is in a call.
    OneBlockedFlag,
    /// A change of priority turns the order of children round.
    PriorityTurnsChildren,
    /// A source of a cancellable is ready once for each cancellation.
    CancellableSourceOnce,
    /// A task's callback runs with the task's context pushed.
    TaskCallbackContext,
    /// A release lowers the one count of the owner.
    ReleaseAnyGround,
    /// To pop the default context of an empty stack goes through.
    PopEmptyStack,
    /// A thread acquires any context that no other owns.
    AnyThreadAcquires,
    /// A thread attaches to any context, and changes any source.
    AnyThreadAttaches,
    /// A thread quits any loop.
    AnyThreadQuits,
    /// A cancellation reaches all threads at once.
    CancelAtOnce,
    /// What is invoked in the default context is called at once where that is free.
    InvokeTakesDefault,
    /// What is invoked in another thread's context is attached to it at once.
    InvokeAttachesAtOnce,
}

impl Difference {
    /// The name of its row in docs/GLIB.md.
    pub fn name(self) -> &'static str {
        match self {
            Difference::TimeoutCachedTime => "timeout-cached-time",
            Difference::ReadyFlagStays => "ready-flag-stays",
            Difference::PendingRefills => "pending-refills",
            Difference::OneBlockedFlag => "one-blocked-flag",
            Difference::PriorityTurnsChildren => "priority-turns-children",
            Difference::CancellableSourceOnce => "cancellable-source-once",
            Difference::TaskCallbackContext => "task-callback-context",
            Difference::ReleaseAnyGround => "release-any-ground",
            Difference::PopEmptyStack => "pop-empty-stack",
            Difference::AnyThreadAcquires => "any-thread-acquires",
            Difference::AnyThreadAttaches => "any-thread-attaches",
            Difference::AnyThreadQuits => "any-thread-quits",
            Difference::CancelAtOnce => "cancel-at-once",
            Difference::InvokeTakesDefault => "invoke-takes-default",
            Difference::InvokeAttachesAtOnce => "invoke-attaches-at-once",
        }
    }

    /// What GLib does there, as the end of "GLib ..".
    pub fn told(self) -> &'static str {
        match self {
            Difference::TimeoutCachedTime => {
                "dispatches it already: a timeout restarts from the time at which its iteration began"
            }
            Difference::ReadyFlagStays => {
                "dispatches it: it was ready before and was not dispatched, and stays so"
            }
            Difference::PendingRefills => {
                "fills the list of the iteration in progress anew, and may leave out a source of it or dispatch one twice"
            }
            Difference::OneBlockedFlag => {
                "unblocks a child that is in a call of its own when its parent's call ends"
            }
            Difference::PriorityTurnsChildren => "turns the order of its children round",
            Difference::CancellableSourceOnce => {
                "has a source of a cancellable ready once for each cancellation"
            }
            Difference::TaskCallbackContext => {
                "has the task's context as the thread-default one in a task's callback"
            }
            Difference::ReleaseAnyGround => {
                "takes back what an iteration or a push has acquired"
            }
            Difference::PopEmptyStack =>
                "lets a pop of the default context through, and releases it",
            Difference::AnyThreadAcquires => {
                "lets any thread acquire a context that no other owns"
            }
            Difference::AnyThreadAttaches => {
                "lets any thread attach a source to a context, and change it there"
            }
            Difference::AnyThreadQuits => "lets any thread quit a loop",
            Difference::CancelAtOnce => "has a cancellable cancelled for all threads at once",
            Difference::InvokeTakesDefault => {
                "calls it at once, since nobody owns the default context"
            }
            Difference::InvokeAttachesAtOnce => {
                "attaches what is invoked in another thread's context at once"
            }
        }
    }
}
