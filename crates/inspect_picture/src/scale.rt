//! Which ticks a column of a picture stands for, and the column of a tick.
use inspect_words::Window;

/// Where the columns of a picture stand among the ticks of a run: each has as many ticks, but the last, which may have fewer.
#[derive(Clone, Copy)]
pub(crate) struct Scale {
    first: u32,
    /// How many ticks a column has.
    pub fold: u32,
    /// How many columns there are.
    pub cells: u32,
}

impl Scale {
    /// The ticks of a window in so many columns at most.
    pub(crate) fn new(window: &Window, room: u32) -> Scale {
        let ticks = window.last.saturating_sub(window.first).saturating_add(1);
        let fold = parts(ticks, room).max(1);
        Scale {
            first: window.first,
            fold,
            cells: parts(ticks, fold),
        }
    }

    /// The column of a tick, from 0.
    pub(crate) fn column_of(&self, tick: u32) -> u32 {
        whole_parts(tick.saturating_sub(self.first), self.fold)
    }

    /// The first tick of a column.
    pub(crate) fn first_of(&self, column: u32) -> u32 {
        self.first.saturating_add(column.saturating_mul(self.fold))
    }
}

/// How many whole parts of so many ticks each stand in ticks.
fn whole_parts(ticks: u32, size: u32) -> u32 {
    if size == 0 { 0 } else { ticks / size }
}

/// How many parts of so many ticks each ticks have, of which the last may be less.
fn parts(ticks: u32, size: u32) -> u32 {
    let whole = whole_parts(ticks, size);
    if whole.saturating_mul(size) < ticks {
        whole.saturating_add(1)
    } else {
        whole
    }
}
