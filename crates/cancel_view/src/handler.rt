//! What a handler is: its id, its cancellable, what it does.

/// A handler that is connected: a procedure that a cancellation calls.
#[derive(Clone, Copy, Debug, PartialEq, Eq)]
pub struct Handler {
    /// Its id, from 1 on.
    pub id: u64,
    pub cancellable: u32,
    pub proc: u32,
}

/// A handler that a cancellation calls.
#[derive(Clone, Copy, Debug, PartialEq, Eq)]
pub struct Fired {
    pub id: u64,
    pub proc: u32,
}

/// What became of a handler that was to be connected.
#[derive(Clone, Copy, Debug, PartialEq, Eq)]
pub enum Connected {
    /// It is connected, and has this id.
    Id(u64),
    /// The view has the cancellable already: the handler is to be called at once, and is not connected.
    Already,
}
