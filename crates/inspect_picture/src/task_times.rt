//! When a task started, replied and ended late, and the marks of its row by that; `timeline` notes these, and whose reply a dispatch is.
use crate::mark::Mark;
use crate::track::Track;
use inspect_words::Window;
use std::alloc::{AllocError, Global};

/// When a task did what, by ticks, as far as the run tells it.
#[derive(Clone, Copy)]
pub(crate) struct TaskTimes {
    pub started: u32,
    /// When its reply arrived, which its dispatch tells.
    pub replied: Option<u32>,
    /// When its body ended, where that was after its reply.
    pub ended_late: Option<u32>,
}

impl TaskTimes {
    /// A task that was started in a tick.
    pub(crate) fn new(started: u32) -> TaskTimes {
        TaskTimes {
            started,
            replied: None,
            ended_late: None,
        }
    }

    /// Its marks in the ticks of a window. A task of which no reply is told goes on to the last of them.
    pub(crate) fn track(&self, alloc: Global, window: &Window) -> Result<Track, AllocError> {
        let mut marks = Marks {
            track: Track::new(alloc),
            window: *window,
            from: self.started,
        };
        marks.put(self.started, Mark::Starts)?;
        if let Some(tick) = self.replied {
            marks.go_to(tick, Mark::Replies)?;
        }
        if let Some(tick) = self.ended_late {
            marks.go_to(tick, Mark::EndsLate)?;
        }
        if self.replied.is_none() && self.ended_late.is_none() {
            marks.go_on()?;
        }
        Ok(marks.track)
    }
}

/// The marks of a task that are made one after another.
#[derive(Drop)]
struct Marks {
    track: Track,
    window: Window,
    /// The ticks before this one are over.
    from: u32,
}

impl Marks {
    /// Marks a tick, where the window has it.
    fn put(&mut self, tick: u32, mark: Mark) -> Result<(), AllocError> {
        self.from = tick.saturating_add(1);
        if tick < self.window.first || self.window.last < tick {
            return Ok(());
        }
        self.track.note(tick, mark)
    }

    /// Its body goes on up to a tick, which has a mark of its own.
    fn go_to(&mut self, tick: u32, mark: Mark) -> Result<(), AllocError> {
        let first = self.from.max(self.window.first);
        if self.from < tick {
            let last = tick.saturating_sub(1).min(self.window.last);
            self.track.note_each(first, last, Mark::GoesOn)?;
        }
        self.put(tick, mark)
    }

    /// Its body goes on up to the last tick.
    fn go_on(&mut self) -> Result<(), AllocError> {
        let first = self.from.max(self.window.first);
        self.track.note_each(first, self.window.last, Mark::GoesOn)
    }
}
