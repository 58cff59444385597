//! Which part of a run is told: a thread or all, ticks from one to another.

/// The threads and ticks of which is told.
#[derive(Clone, Copy, Debug, PartialEq, Eq)]
pub struct Window {
    /// One thread by its number, or all.
    pub lane: Option<u32>,
    /// The first tick.
    pub first: u32,
    /// The last tick, which is told too.
    pub last: u32,
}

impl Window {
    /// The whole run.
    pub fn whole() -> Window {
        Window {
            lane: None,
            first: 0,
            last: u32::MAX,
        }
    }

    /// Whether what a thread does at a tick is told.
    pub fn has(&self, lane: u32, tick: u32) -> bool {
        let of_lane = match self.lane {
            Some(number) => number == lane,
            None => true,
        };
        of_lane && self.first <= tick && tick <= self.last
    }
}

/// A source by its context and its id there, as `0.1`.
#[derive(Clone, Copy, Debug, PartialEq, Eq)]
pub struct SourceName {
    pub context: u32,
    pub id: u64,
}
