//! A letter of a tick brought to its lane, and what the moment tells of it. `going` says whose turn it is.
ghost use Rattle.std.specs.Prelude.{◌≡◌, ◌+◌, ◌<◌, Some, length, drop, OnOk};
ghost use Rattle.loop_script.specs.Bounds.{most_ticks};
ghost use Rattle.tick_stepper.specs.Account.{moved};
ghost use Rattle.account.specs.Within.{AllMayTake};
ghost use Rattle.account.specs.Told.{GrowsAt};
ghost use Rattle.account.specs.Standing.{AreUnspent, bringing};
ghost use Rattle.tick_stepper.specs.Share.{lanes_in as lanes_of};

use lane_turn::LaneState;
use loop_script::Script;
use post_office::Letter;
use tick_stepper::OutOfMemory;

/// Brings a letter to a lane.
pub(crate) fn receive(
    script: &Script,
    tick: u32,
    lanes: &mut [LaneState],
    at: usize,
    letters: &[Letter],
    place: usize,
) -> Result<(), OutOfMemory>
    requires tick { tick < most_ticks }
    requires at { at < length lanes.old }
    requires place { place < length letters.now }
    requires unspent { AreUnspent lanes.old }
    requires may { AllMayTake script.now tick (drop at (lanes_of lanes.old)) (drop place letters.now) letters.now }
    ensures moved { OnOk result (moved script.now tick (bringing at place (lanes_of lanes.old) letters.now) ≡ Some (bringing at (place + 1) (lanes_of lanes.new) letters.now)) }
    ensures unspent { OnOk result (AreUnspent lanes.new) }
    ensures grows { OnOk result (GrowsAt tick at (lanes_of lanes.old) (lanes_of lanes.new)) }
{
    lanes[at].deliver(script, tick, &letters[place..place + 1])?;
    Ok(())
}
