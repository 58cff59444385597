//! What the turns of a tick posted, delivered lane by lane.
ghost use Rattle.std.specs.Prelude.{◌≡◌, ◌+◌, ◌<◌, ◌≤◌, map, length, OnOk};
ghost use Rattle.std.specs.List.{AllByRecursion};
ghost use Rattle.loop_script.specs.Bounds.{most_ticks};
ghost use Rattle.lane_turn.specs.Deliver.{received_all};
ghost use Rattle.tick_stepper.specs.Share.{stepped_one, IsReadyOne};
ghost use Rattle.lane_turn.specs.Limits.{most_letters};

use lane_turn::{LaneFault, LaneState};
use loop_script::Script;
use post_office::Letter;

/// Delivers the letters of a tick to all lanes, after their turns.
pub(crate) fn deliver_all(
    script: &Script,
    tick: u32,
    lanes: &mut [LaneState],
    letters: &[Letter],
) -> Result<(), LaneFault>
    requires tick { tick < most_ticks }
    requires ready { AllByRecursion (IsReadyOne script.now (tick + 1)) lanes.old }
    requires few { length letters.now ≤ most_letters }
    ensures { OnOk result (lanes.new ≡ map (stepped_one (received_all script.now tick letters.now)) lanes.old) }
{
    for lane in lanes.iter_mut() {
        lane.deliver(script, tick, letters)?;
    }
    Ok(())
}
