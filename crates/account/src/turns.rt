//! A lane's turn, begun and taken a step at a time, and what it sent.
ghost use Rattle.std.specs.Prelude.{◌≡◌, ◌<◌, List, Some, None, is_some, length, drop, slice_index_or, OnOk, IfOk};
ghost use Rattle.std.specs.List.{AllByRecursion};
ghost use Rattle.loop_script.specs.Bounds.{most_ticks};
ghost use Rattle.post_office.specs.declared.letter.Letter.{Letter};
ghost use Rattle.lane_turn.specs.Lane.{State};
ghost use Rattle.lane_turn.specs.Step.{step};
ghost use Rattle.lane_turn.specs.Turn.{stepped};
ghost use Rattle.lane_turn.specs.Sound.{IsReady};
ghost use Rattle.lane_turn.specs.Limits.{half_count};
ghost use Rattle.tick_stepper.specs.Account.{moved};
ghost use Rattle.account.specs.Within.{polled};
ghost use Rattle.account.specs.Told.{trace_at, GrowsAt};
ghost use Rattle.account.specs.Standing.{AreUnspent, OwnsTurn, turn_in, IsInTurn, turning, turning_after};
ghost use Rattle.tick_stepper.specs.Share.{lanes_in as lanes_of};

use lane_turn::{LaneState, Turn};
use loop_script::Script;
use post_office::{Letter, Tray};
use std::alloc::Global;
use tick_stepper::OutOfMemory;

/// A turn that was begun, and what it has posted so far.
#[derive(Drop)]
pub(crate) struct Begun {
    turn: Turn,
    post: Tray,
}

impl Begun {
    /// What the turn has posted.
    pub(crate) fn into_letters(self) -> Vec<Letter>
        ensures { result.items ≡ self.post }
    {
        self.post.into_letters()
    }
}

/// Begins the turn of a lane.
pub(crate) fn begin(
    alloc: Global,
    script: &Script,
    tick: u32,
    lanes: &mut [LaneState],
    at: usize,
) -> Result<Begun, OutOfMemory>
    requires tick { tick < most_ticks }
    requires at { at < length lanes.old }
    requires unspent { AreUnspent lanes.old }
    requires ready { AllByRecursion (IsReady script.now tick half_count) (drop at (lanes_of lanes.old)) }
    ensures polled { IfOk result (λ begun. (posted : List Letter) → turning at (lanes_of lanes.new) (Some begun) posted ≡ polled script.now tick (turning at (lanes_of lanes.old) None posted)) }
    ensures own { IfOk result (λ begun. OwnsTurn (drop at (lanes_of lanes.new)) (Some begun)) }
    ensures held { IfOk result (λ begun. IsInTurn script.now tick (drop at (lanes_of lanes.new)) begun) }
    ensures unspent { OnOk result (AreUnspent lanes.new) }
    ensures grows { OnOk result (GrowsAt tick at (lanes_of lanes.old) (lanes_of lanes.new)) }
{
    let mut post = Tray::new(alloc);
    let turn = lanes[at].begin_turn(script, tick, &mut post)?;
    Ok(Begun { turn, post })
}

/// Takes the next step of a lane's turn. It answers false where none is left.
pub(crate) fn step(
    script: &Script,
    tick: u32,
    lanes: &mut [LaneState],
    at: usize,
    begun: &mut Begun,
) -> Result<bool, OutOfMemory>
    requires tick { tick < most_ticks }
    requires at { at < length lanes.old }
    requires unspent { AreUnspent lanes.old }
    requires own { OwnsTurn (drop at (lanes_of lanes.old)) (Some begun.old) }
    requires held { IsInTurn script.now tick (drop at (lanes_of lanes.old)) begun.old }
    ensures moved { IfOk result (λ more. (posted : List Letter) → moved script.now tick (turning at (lanes_of lanes.old) (Some begun.old) posted) ≡ Some (turning_after more at (lanes_of lanes.new) begun.new posted)) }
    ensures own { OnOk result (OwnsTurn (drop at (lanes_of lanes.new)) (Some begun.new)) }
    ensures more { IfOk result (λ more. (d : State) → more ≡ is_some (step script.now tick (turn_in (slice_index_or lanes.old at d).lane begun.old))) }
    ensures trace { OnOk result ((d : State) → trace_at at (lanes_of lanes.new) ≡ (stepped script.now tick (turn_in (slice_index_or lanes.old at d).lane begun.old)).lane.trace) }
    ensures unspent { OnOk result (AreUnspent lanes.new) }
    ensures grows { OnOk result (GrowsAt tick at (lanes_of lanes.old) (lanes_of lanes.new)) }
{
    Ok(lanes[at].step(script, tick, &mut begun.turn, &mut begun.post)?)
}
