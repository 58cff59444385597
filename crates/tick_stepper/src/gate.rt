//! The trait by which each turn is taken, and the gate that only takes it.
ghost use Rattle.std.specs.Prelude.{◌≡◌, ◌≢◌, ℕ, ◌+◌, ◌*◌, ◌^◌, ◌<◌, ◌≤◌, ◌++◌, ◌↔◌, [], false, length, IsTrue, IsOk, OnOk, Err};
ghost use Rattle.loop_script.specs.Bounds.{tick_end};
ghost use Rattle.lane_turn.specs.Turn.{turned, out_of};
ghost use Rattle.lane_turn.specs.Sound.{IsReady};
ghost use Rattle.lane_turn.specs.Limits.{half_count, most_steps, turn_growth};

use lane_turn::{LaneFault, LaneState, Status};
use loop_script::Script;
use post_office::Post;

/// What a worker takes each turn through: by one call, and in no other way.
pub trait Gate: Sync {
    /// The turn of a lane at a tick, by a worker; lanes and workers go by their numbers. It does what the lane's own
    /// `turn` does, whenever that is called, and may wait or look on.
    fn turn<P: Post>(
        &self,
        worker: u32,
        lane: u32,
        state: &mut LaneState,
        script: &Script,
        tick: u32,
        post: &mut P,
    ) -> Result<(), LaneFault>
        requires ready { state.old.spent ≡ false → IsReady script.now tick half_count state.old.lane }
        requires tick { tick < tick_end }
        requires number { lane ≡ state.old.lane.number }
        ensures turned { OnOk result (state.new.lane ≡ turned script.now tick state.old.lane) }
        ensures letters { OnOk result (P.letters post.new ≡ P.letters post.old ++ out_of script.now tick state.old.lane) }
        ensures home { P.home post.new ≡ P.home post.old }
        ensures ready { (m : ℕ) → IsReady script.now tick m state.old.lane → OnOk result (IsReady script.now (tick + 1) (m + turn_growth) state.new.lane) }
        ensures few { OnOk result (length (out_of script.now tick state.old.lane) ≤ most_steps * (tick + 1)) }
        ensures lasts { OnOk result (state.new.spent ≡ false) }
        ensures spent { (result ≡ Err LaneFault.Spent) ↔ IsTrue state.old.spent }
        ensures memory { result ≡ Err LaneFault.OutOfMemory → IsTrue state.new.spent }
        ensures stays { result ≡ Err LaneFault.Spent → state.new ≡ state.old }
        ensures rests { state.old.spent ≡ false → state.old.lane.status ≢ Status.GoesOn → state.old.lane.tasks.started ≡ [] → IsOk result };
}

/// The lane's own turn.
#[derive(Clone, Copy, Debug)]
pub struct OpenGate;

impl Gate for OpenGate {
    fn turn<P: Post>(
        &self,
        _worker: u32,
        _lane: u32,
        state: &mut LaneState,
        script: &Script,
        tick: u32,
        post: &mut P,
    ) -> Result<(), LaneFault> {
        state.turn(script, tick, post)
    }
}
