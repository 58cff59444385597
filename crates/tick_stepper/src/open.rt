//! The lanes of a script as a run begins, each with its start call.
ghost use Rattle.std.specs.Prelude.{◌≡◌, ◌≤◌, Some, map, length, IfOk};
ghost use Rattle.std.specs.List.{AllByRecursion};
ghost use Rattle.loop_script.specs.Bounds.{most_lanes};
ghost use Rattle.lane_turn.specs.Tick.{opened};
ghost use Rattle.tick_stepper.specs.Share.{unspent_all};

use crate::fault::OutOfMemory;
use crate::rest::Resting;
use lane_turn::LaneState;
use loop_script::Script;
use std::alloc::Global;

/// The lanes of a script at first, by number. Each takes its turn in the first tick.
pub(crate) fn open_lanes(alloc: Global, script: &Script) -> Result<Vec<Resting>, OutOfMemory>
    ensures lanes { IfOk result (λ ones. map (λ one. one.lane) ones.items ≡ unspent_all (opened script.now)) }
    ensures due { IfOk result (λ ones. AllByRecursion (λ one. one.next ≡ Some 0) ones.items) }
    ensures few { length script.now.lanes ≤ most_lanes }
{
    let mut lanes = Vec::new(alloc);
    for number in 0..script.lanes() {
        let lane = LaneState::new(alloc, script, number)?;
        let next = Some(0);
        if lanes.push(Resting { lane, next }).is_err() {
            return Err(OutOfMemory);
        }
    }
    Ok(lanes)
}
