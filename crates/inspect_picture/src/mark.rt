//! The marks of a picture: which goes above which. `timeline` says which one something gets.

/// The characters of dispatches by their depth, from 1 on: no more than 32 calls are in progress.
const DEPTHS: &[u8; 32] = b"123456789abcdefghijklmnopqrstuvw";

/// What a source, a loop, a task or a cancellable did in a tick.
#[derive(Clone, Copy, PartialEq, Eq)]
pub(crate) enum Mark {
    /// A source was there, and not ready.
    Waits,
    /// A source was ready, and not dispatched.
    Ready,
    /// A source was dispatched, when so many dispatches were in progress with it.
    Dispatched(u64),
    /// A loop ran.
    Runs,
    /// A task was started.
    Starts,
    /// A body of a task went on.
    GoesOn,
    /// A task replied.
    Replies,
    /// A body of a task ended after its reply.
    EndsLate,
    /// A cancellable was cancelled.
    Cancelled,
}

impl Mark {
    /// The greater, the sooner it is shown where one place is for several.
    fn rank(self) -> u64 {
        match self {
            Mark::Waits | Mark::GoesOn | Mark::Runs | Mark::Cancelled => 0,
            Mark::Ready | Mark::Starts => 1,
            Mark::Replies => 2,
            Mark::EndsLate => 3,
            Mark::Dispatched(depth) => depth.saturating_add(1),
        }
    }

    /// Whether it is shown in the place of another.
    pub(crate) fn is_above(self, other: Mark) -> bool {
        self.rank() > other.rank()
    }

    /// Its character.
    pub(crate) fn character(self) -> char {
        match self {
            Mark::Waits => '.',
            Mark::Ready => 'r',
            Mark::Dispatched(depth) => depth_character(depth),
            Mark::Runs => '=',
            Mark::Starts => 's',
            Mark::GoesOn => '-',
            Mark::Replies => 'R',
            Mark::EndsLate => 'L',
            Mark::Cancelled => 'x',
        }
    }
}

/// The character of a dispatch.
fn depth_character(depth: u64) -> char {
    match DEPTHS.get(depth.saturating_sub(1) as usize) {
        Some(byte) => char::from(*byte),
        None => '+',
    }
}
