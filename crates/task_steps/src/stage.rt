//! Where a run stands, and in which tick its cancellable was first seen as cancelled and last as not.
ghost use Rattle.std.specs.Prelude.{◌≡◌};
ghost use Rattle.task_steps.specs.Run.{set_to, seen_from, clear_to};

/// Where a run stands between its calls; a run is begun in the tick that is set first.
#[derive(Clone, Copy)]
pub enum Stage {
    /// No tick was set.
    Fresh,
    /// A tick is set, and its poll has not come.
    Set { begun: u32, tick: u32 },
    /// The poll of a tick found it pending.
    Polled { begun: u32, tick: u32 },
    /// A poll gave its outcome.
    Done,
}

/// The stage of a run whose tick is set.
pub(crate) fn set_to(stage: Stage, tick: u32) -> Stage
    ensures { result ≡ set_to tick stage }
{
    match stage {
        Stage::Fresh => Stage::Set { begun: tick, tick },
        Stage::Set { begun, .. } => Stage::Set { begun, tick },
        Stage::Polled { begun, .. } => Stage::Set { begun, tick },
        Stage::Done => Stage::Done,
    }
}

/// The first tick that was seen as cancelled, with one more that is seen.
pub(crate) fn seen_from(tick: u32, cancelled: bool, before: Option<u32>) -> Option<u32>
    ensures { result ≡ seen_from tick cancelled before }
{
    match before {
        Some(from) => Some(from),
        None => { if cancelled { Some(tick) } else { None } }
    }
}

/// The last tick that was seen as not cancelled, with one more that is seen.
pub(crate) fn clear_to(tick: u32, cancelled: bool, before: Option<u32>) -> Option<u32>
    ensures { result ≡ clear_to tick cancelled before }
{
    if cancelled { before } else { Some(tick) }
}
