//! Lanes that rested in a tick whose letters tell no cancellation: those to which nothing is written rest on, and are not asked again.
ghost use Rattle.std.specs.Prelude.{◌≡◌, ◌+◌, ◌<◌, ◌≤◌, ◌++◌, map, IfOk, IsPermutation};
ghost use Rattle.std.specs.List.{All};
ghost use Rattle.std.specs.List.Sorted.{IsNonDecreasingBy};
ghost use Rattle.loop_script.specs.Bounds.{most_ticks};
ghost use Rattle.tick_stepper.specs.declared.known.Known.{Known};
ghost use Rattle.tick_stepper.specs.Known.{tells_otherwise, cancel_nothing, has_sent, rested_of, turned_known, rested_known, IsKnown, AreKnown};
ghost use Rattle.tick_stepper.specs.Rest.{HasPassed, Rests, IsSettled};
ghost use Rattle.tick_stepper.specs.Share.{IsReadyOne};

use crate::fault::OutOfMemory;
use crate::rest::{Resting, rest};
use lane_turn::LaneState;
use loop_script::Script;
use post_office::{Body, Letter, Numbered};
use std::alloc::{AllocError, Global};

/// How a lane rested.
#[derive(Clone, Copy)]
pub(crate) struct Rested {
    /// The tick of its next turn; none where no later turn does anything.
    pub(crate) next: Option<u32>,
    /// How many lines it had.
    pub(crate) lines: usize,
}

/// A lane after the turns of a tick.
#[derive(Drop)]
pub(crate) struct Known {
    pub(crate) lane: LaneState,
    /// None where it took its turn, or sent a letter.
    pub(crate) rested: Option<Rested>,
}

/// Whether no letter tells a cancellation: then a lane that sent none stays as it was, unless a line is written to it.
pub(crate) fn cancel_nothing(letters: &[Letter]) -> bool
    ensures { result ≡ cancel_nothing letters.now }
{
    letters.iter().all(|letter| tells_otherwise(letter))
}

/// Whether a letter tells something else than a cancellation.
fn tells_otherwise(letter: &Letter) -> bool
    ensures { result ≡ tells_otherwise letter.now.body }
{
    match letter.body {
        Body::Attach(_, _) | Body::Complete(_) | Body::Give(_, _) => true,
        Body::Cancelled(_) => false,
    }
}

/// Whether a lane sent one of the letters of a tick: such a lane is not known to rest.
fn has_sent(letters: &[Letter], number: u32) -> bool
    ensures { result ≡ has_sent letters.now number }
{
    letters.iter().any(|letter| number == letter.sender)
}

/// How a lane rested, if it sent none of these letters.
fn rested_of(letters: &[Letter], one: &Resting) -> Option<Rested>
    ensures { result ≡ rested_of letters.now one.now }
{
    if has_sent(letters, one.lane.number()) {
        return None;
    }
    Some(Rested {
        next: one.next,
        lines: one.lane.trace().len(),
    })
}

/// Lanes after the turns of a tick, those that rested brought to the next one.
pub(crate) fn awake(
    alloc: Global,
    tick: u32,
    done: Vec<LaneState>,
    resting: Vec<Resting>,
    letters: &[Letter],
) -> Result<Vec<Known>, OutOfMemory>
    requires tick { tick ≤ most_ticks }
    requires passed { All (HasPassed tick) resting.items }
    ensures { IfOk result (λ all. all.items ≡ map turned_known done.items ++ map (rested_known tick letters.now) resting.items) }
{
    let mut all = Vec::with_capacity(alloc, done.len())?;
    for lane in done {
        all.reserve(1)?;
        all.push_reserved(Known { lane, rested: None });
    }
    for one in resting {
        let rested = rested_of(letters, &one);
        let lane = one.wake(tick)?;
        all.reserve(1)?;
        all.push_reserved(Known { lane, rested });
    }
    Ok(all)
}

/// Lanes by their numbers.
pub(crate) fn by_lane(mut all: Vec<Known>) -> Result<Vec<Known>, AllocError>
    ensures same { IfOk result (λ sorted. IsPermutation all.items sorted.items) }
    ensures order { IfOk result (λ sorted. IsNonDecreasingBy (λ (one : Known). one.lane.lane.number) sorted.items) }
{
    all.sort_by_key(|one| one.lane.number())?;
    Ok(all)
}

/// The lanes, and how each rested.
pub(crate) fn apart(
    alloc: Global,
    all: Vec<Known>,
) -> Result<(Vec<LaneState>, Vec<Option<Rested>>), AllocError>
    ensures lanes { IfOk result (λ r. r.0.items ≡ map (λ (one : Known). one.lane) all.items) }
    ensures rested { IfOk result (λ r. r.1.items ≡ map (λ (one : Known). one.rested) all.items) }
{
    let mut lanes = Vec::with_capacity(alloc, all.len())?;
    let mut rested = Vec::with_capacity(alloc, all.len())?;
    for one in all {
        lanes.push(one.lane)?;
        rested.push(one.rested)?;
    }
    Ok((lanes, rested))
}

/// A lane after a tick, with the tick of its next turn: the one that it had where it rested and no line was written since.
fn rest_on(script: &Script, tick: u32, lane: LaneState, rested: Option<Rested>) -> Resting
    requires tick { tick < most_ticks }
    requires ready { IsReadyOne script.now (tick + 1) lane }
    requires known { IsKnown script.now tick lane rested }
    ensures same { result.lane ≡ lane }
    ensures rests { Rests script.now (tick + 1) result }
{
    if let Some(Rested { next, lines }) = rested {
        if lane.trace().len() == lines {
            return Resting { lane, next };
        }
    }
    rest(script, tick, lane)
}

/// Lanes after a tick, each with the tick of its next turn; `rested` has how they rested, in their order, as far as that is known.
pub(crate) fn settle(
    alloc: Global,
    script: &Script,
    tick: u32,
    lanes: Vec<LaneState>,
    rested: &[Option<Rested>],
) -> Result<Vec<Resting>, AllocError>
    requires tick { tick < most_ticks }
    requires ready { All (IsReadyOne script.now (tick + 1)) lanes.items }
    requires known { AreKnown script.now tick lanes.items rested.now }
    ensures { IfOk result (λ ones. IsSettled script.now tick lanes.items ones.items) }
{
    let mut ones = Vec::with_capacity(alloc, lanes.len())?;
    for lane in lanes {
        let known = match rested.get(ones.len()) {
            Some(known) => *known,
            None => None,
        };
        ones.push(rest_on(script, tick, lane, known))?;
    }
    Ok(ones)
}
