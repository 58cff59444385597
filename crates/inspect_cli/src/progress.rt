//! How far a long run is, on a terminal, once it took two seconds.
use std::io::{IsTerminal, Write};
use std::time::{Duration, Instant};

/// After how many milliseconds it is shown.
const DELAY: u64 = 2000;

/// After how many more it is shown anew.
const PAUSE: u64 = 100;

/// After how many moments of one tick the clock is read again.
const MOMENTS: u32 = 1000;

/// Takes the line away, which is shorter.
const BLANK: &str = "\r                    \r";

/// Shows in which tick a run is, in one line, where standard error is a terminal and the run takes long.
#[derive(Drop)]
pub(crate) struct Progress<'a> {
    rt: &'a HostRuntime,
    /// How many ticks the run has.
    ticks: u32,
    /// The tick of the latest moment, and how many moments of it came since the clock was read.
    tick: u32,
    moments: u32,
    /// When it is shown next; None is never.
    due: Option<Instant>,
    /// Whether the line is there.
    shown: bool,
}

impl<'a> Progress<'a> {
    /// A run of so many ticks begins now.
    pub(crate) fn begin(rt: &'a HostRuntime, ticks: u32) -> Progress<'a> {
        let due = if rt.stderr().is_terminal() {
            after(rt, DELAY)
        } else {
            None
        };
        Progress {
            rt,
            ticks,
            tick: 0,
            moments: 0,
            due,
            shown: false,
        }
    }

    /// A moment of a tick comes: the line is shown, where that is due.
    pub(crate) fn show(&mut self, tick: u32) {
        self.moments = self.moments.saturating_add(1);
        if tick == self.tick && self.moments < MOMENTS {
            return;
        }
        self.tick = tick;
        self.moments = 0;
        if self.is_due() {
            let ticks = self.ticks;
            let _ = write!(self.rt.stderr(), "\rtick {tick} of {ticks}");
            self.shown = true;
            self.due = after(self.rt, PAUSE);
        }
    }

    /// Whether it is to be shown.
    fn is_due(&self) -> bool {
        let Some(due) = self.due else {
            return false;
        };
        match Instant::now(self.rt) {
            Ok(now) => due <= now,
            Err(_) => false,
        }
    }

    /// Takes the line away, where it is there.
    pub(crate) fn clear(&mut self) {
        if self.shown {
            self.shown = false;
            let _ = self.rt.stderr().write_all(BLANK.as_bytes());
        }
    }
}

/// The time in so many milliseconds; None where the clock can't be read.
fn after(rt: &HostRuntime, milliseconds: u64) -> Option<Instant> {
    let now = Instant::now(rt).ok()?;
    now.checked_add(Duration::from_millis(milliseconds))
}
