//! Lanes that are left alone until their next turn: which are due, parted from the rest, and put in order by number again.
ghost use Rattle.std.specs.Prelude.{◌≡◌, ◌+◌, ◌<◌, ◌≤◌, ◌++◌, not, IfOk, IsPermutation};
ghost use Rattle.std.specs.List.{All, filter, list_any};
ghost use Rattle.std.specs.List.Sorted.{IsNonDecreasingBy};
ghost use Rattle.loop_script.specs.Bounds.{most_ticks};
ghost use Rattle.tick_stepper.specs.declared.rest.Resting.{Resting};
ghost use Rattle.tick_stepper.specs.Share.{IsReadyOne};
ghost use Rattle.tick_stepper.specs.Rest.{is_due, woken, all_woken, HasPassed, Rests};

use crate::fault::OutOfMemory;
use lane_turn::{LaneFault, LaneState};
use loop_script::Script;
use post_office::Numbered;
use std::alloc::{AllocError, Global};

/// A lane that is left alone until its next turn.
#[derive(Drop)]
pub(crate) struct Resting {
    pub(crate) lane: LaneState,
    /// The tick of its next turn; none where no later turn does anything.
    pub(crate) next: Option<u32>,
}

impl Resting {
    /// Whether the lane's turn comes at a tick.
    pub(crate) fn is_due(&self, tick: u32) -> bool
        ensures { result ≡ is_due tick self.now }
    {
        match self.next {
            Some(next) => next <= tick,
            None => false,
        }
    }

    /// The lane, brought to a tick.
    pub(crate) fn wake(self, tick: u32) -> Result<LaneState, LaneFault>
        requires tick { tick ≤ most_ticks }
        requires passed { HasPassed tick self }
        ensures { IfOk result (λ lane. lane ≡ woken tick self) }
    {
        let Resting { mut lane, next: _ } = self;
        lane.pass_to(tick)?;
        Ok(lane)
    }
}

/// Parts lanes into those whose turn comes at a tick, and those that rest.
pub(crate) fn part(
    alloc: Global,
    tick: u32,
    lanes: Vec<Resting>,
) -> Result<(Vec<Resting>, Vec<Resting>), AllocError>
    ensures due { IfOk result (λ r. r.0.items ≡ filter (is_due tick) lanes.items) }
    ensures rest { IfOk result (λ r. r.1.items ≡ filter (λ one. not (is_due tick one)) lanes.items) }
{
    let mut due = Vec::with_capacity(alloc, lanes.len())?;
    let mut resting = Vec::new(alloc);
    for one in lanes {
        if one.is_due(tick) {
            due.push(one)?;
        } else {
            resting.push(one)?;
        }
    }
    Ok((due, resting))
}

/// Adds lanes that rest to others, brought to a tick.
pub(crate) fn wake_all(
    tick: u32,
    mut lanes: Vec<LaneState>,
    resting: Vec<Resting>,
) -> Result<Vec<LaneState>, OutOfMemory>
    requires tick { tick ≤ most_ticks }
    requires passed { All (HasPassed tick) resting.items }
    ensures { IfOk result (λ all. all.items ≡ lanes.items ++ all_woken tick resting.items) }
{
    lanes.reserve(resting.len())?;
    for one in resting {
        lanes.reserve(1)?;
        lanes.push_reserved(one.wake(tick)?);
    }
    Ok(lanes)
}

/// A lane after a tick, with the tick of its next turn.
pub(crate) fn rest(script: &Script, tick: u32, lane: LaneState) -> Resting
    requires tick { tick < most_ticks }
    requires ready { IsReadyOne script.now (tick + 1) lane }
    ensures same { result.lane ≡ lane }
    ensures rests { Rests script.now (tick + 1) result }
{
    let next = lane.next_tick(script, tick);
    Resting { lane, next }
}

/// Whether the turn of one of these lanes comes at a tick.
pub(crate) fn any_due(ones: &[Resting], tick: u32) -> bool
    ensures { result ≡ list_any (is_due tick) ones.now }
{
    ones.iter().any(|one| one.is_due(tick))
}

/// Lanes that rest, by their numbers.
pub(crate) fn by_number(mut ones: Vec<Resting>) -> Result<Vec<Resting>, AllocError>
    ensures same { IfOk result (λ sorted. IsPermutation ones.items sorted.items) }
    ensures order { IfOk result (λ sorted. IsNonDecreasingBy (λ (one : Resting). one.lane.lane.number) sorted.items) }
{
    ones.sort_by_key(|one| one.lane.number())?;
    Ok(ones)
}
