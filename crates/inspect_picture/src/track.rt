//! The marks of one row of a picture, tick by tick, before they are drawn.
use crate::mark::Mark;
use std::alloc::{AllocError, Global};

/// Ticks one after another with the same mark.
#[derive(Clone, Copy)]
pub(crate) struct Stretch {
    pub first: u32,
    pub last: u32,
    pub mark: Mark,
}

/// The marks of one thing in the ticks of a run; a tick in which it was not there has none.
#[derive(Drop)]
pub(crate) struct Track {
    stretches: Vec<Stretch>,
}

impl Track {
    /// It was not there yet.
    pub(crate) fn new(alloc: Global) -> Track {
        Track {
            stretches: Vec::new(alloc),
        }
    }

    /// Marks a tick that is not before the latest that has a mark; where that is the same tick, the mark that is above the other stays.
    pub(crate) fn note(&mut self, tick: u32, mark: Mark) -> Result<(), AllocError> {
        let once = Stretch {
            first: tick,
            last: tick,
            mark,
        };
        let Some(latest) = self.stretches.last_mut() else {
            self.stretches.push(once)?;
            return Ok(());
        };
        if latest.last == tick {
            if !mark.is_above(latest.mark) {
                return Ok(());
            }
            if latest.first == tick {
                latest.mark = mark;
                return Ok(());
            }
            latest.last = tick.saturating_sub(1);
        } else if latest.mark == mark && latest.last.saturating_add(1) == tick {
            latest.last = tick;
            return Ok(());
        }
        self.stretches.push(once)?;
        Ok(())
    }

    /// Marks the ticks from one to another, both included, which are not before those that have a mark.
    pub(crate) fn note_each(
        &mut self,
        first: u32,
        last: u32,
        mark: Mark,
    ) -> Result<(), AllocError> {
        if first <= last {
            self.stretches.push(Stretch { first, last, mark })?;
        }
        Ok(())
    }

    /// The stretches of ticks that have a mark, in order.
    pub(crate) fn stretches(&self) -> &[Stretch] {
        self.stretches.as_slice()
    }

    /// Whether it did nothing but wait.
    pub(crate) fn only_waits(&self) -> bool {
        self.stretches.iter().all(|one| one.mark == Mark::Waits)
    }
}
