//! What may be asked of a run.
use inspect_picture::Point;
use inspect_words::{SourceName, Window};

/// What is asked of a run.
#[derive(Clone, Copy, Debug, PartialEq, Eq)]
pub enum Asked {
    /// Its text, with a note behind what a move writes where GLib does otherwise in it, if that is asked for.
    Text {
        notes: bool,
    },
    /// Why sources are dispatched or not.
    Why(Window),
    /// The life of one source.
    Life(SourceName, Window),
    /// Each source and loop in one line, and what was silent.
    Summary,
    /// Its account, from a move on, by its place in the run, from 0, and of so many moves at most.
    Account {
        window: Window,
        first: u64,
        most: u64,
    },
    /// Each step of each turn.
    Steps(Window),
    /// What a thread is in the middle of at one moment; nothing is told where the run has no such thread, tick or step.
    Stack(Point),
    /// A picture, whose lines have so many characters at most.
    Timeline {
        window: Window,
        columns: u32,
    },
    /// Where GLib does otherwise.
    Notes,
}

/// The moments of a run that are told.
#[derive(Clone, Copy)]
pub(crate) struct Part {
    /// The place of the first in the run, from 0.
    pub first: u64,
    /// How many at most: behind these nothing is said of the run's end.
    pub most: u64,
    /// The last tick: behind it the run is taken to be over.
    pub last: u32,
}

impl Asked {
    /// Those that have to be told.
    pub(crate) fn part(self) -> Part {
        let (first, most) = match self {
            Asked::Account { first, most, .. } => (first, most),
            _ => (0, u64::MAX),
        };
        let last = match self {
            Asked::Why(window) | Asked::Steps(window) => window.last,
            Asked::Stack(point) => point.tick,
            _ => u32::MAX,
        };
        Part { first, most, last }
    }
}
