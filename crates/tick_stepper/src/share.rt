//! What a worker does in a tick where lanes are dealt: the turns of its share.
ghost use Rattle.std.specs.Prelude.{◌≡◌, ◌<◌, ◌++◌, map, OnOk, IfOk, IsPermutation};
ghost use Rattle.std.specs.List.{AllByRecursion, flat_map};
ghost use Rattle.std.specs.List.Sorted.{IsNonDecreasingBy};
ghost use Rattle.loop_script.specs.Bounds.{most_ticks};
ghost use Rattle.lane_turn.specs.Lane.{State};
ghost use Rattle.tick_stepper.specs.Share.{turned_one, out_of_one, IsReadyOne, IsFresh, IsTurned};

use crate::gate::Gate;
use lane_turn::{LaneFault, LaneState};
use loop_script::Script;
use post_office::{Numbered, Tray};
use std::alloc::AllocError;

/// What a worker is handed and gives back: lanes, and a tray for what these post.
#[derive(Drop)]
pub(crate) struct Share {
    pub(crate) worker: u32,
    pub(crate) lanes: Vec<LaneState>,
    pub(crate) tray: Tray,
}

/// Lanes take their turns in order, each by one call of the gate, and post to one tray.
pub(crate) fn take_turns<G: Gate>(
    gate: &G,
    script: &Script,
    tick: u32,
    worker: u32,
    lanes: &mut [LaneState],
    tray: &mut Tray,
) -> Result<(), LaneFault>
    requires tick { tick < most_ticks }
    requires ready { AllByRecursion (IsReadyOne script.now tick) lanes.old }
    ensures turned { OnOk result (lanes.new ≡ map (turned_one script.now tick) lanes.old) }
    ensures letters { OnOk result (tray.new ≡ tray.old ++ flat_map (out_of_one script.now tick) lanes.old) }
{
    for lane in lanes.iter_mut() {
        gate.turn(worker, lane.number(), lane, script, tick, tray)?;
    }
    Ok(())
}

/// The lanes of a share take their turns.
pub(crate) fn turn_share<G: Gate>(
    gate: &G,
    script: &Script,
    tick: u32,
    share: Share,
) -> Result<Share, LaneFault>
    requires tick { tick < most_ticks }
    requires fresh { IsFresh script.now tick share }
    ensures { IfOk result (IsTurned script.now tick share) }
{
    let Share {
        worker,
        mut lanes,
        mut tray,
    } = share;
    take_turns(gate, script, tick, worker, lanes.as_mut_slice(), &mut tray)?;
    Ok(Share {
        worker,
        lanes,
        tray,
    })
}

/// Lanes by their numbers.
pub(crate) fn in_order(mut lanes: Vec<LaneState>) -> Result<Vec<LaneState>, AllocError>
    ensures same { IfOk result (λ sorted. IsPermutation lanes.items sorted.items) }
    ensures order { IfOk result (λ sorted. IsNonDecreasingBy (λ (s : State). s.lane.number) sorted.items) }
{
    lanes.sort_by_key(|lane| lane.number())?;
    Ok(lanes)
}
