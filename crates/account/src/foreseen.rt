//! What a lane's next step will do, told before it is taken: a call's next action or its return, an iteration's next id, what a loop does.
ghost use Rattle.std.specs.Prelude.{◌≡◌, slice_get, if◌then◌else◌};
ghost use Rattle.loop_script.specs.Parts.{actions_of};
ghost use Rattle.lane_turn.specs.Frames.{top_of};
ghost use Rattle.lane_turn.specs.Lane.{is_running};
ghost use Rattle.account.specs.declared.moment.Deed.TheVariants.{Iterated, LoopEnded, Rests};
ghost use Rattle.account.specs.Told.{did_call, did_iteration, did_top};

use crate::moment::Deed;
use lane_turn::{Activity, LaneState};
use loop_script::{Body, Script};

/// What the next step of a lane's turn does, where there is one.
pub(crate) fn foreseen(script: &Script, lane: &LaneState) -> Deed
    ensures { result ≡ did_top script.now lane.now.lane (top_of lane.now.lane.frames) }
{
    match lane.frames().last() {
        None => Deed::Rests,
        Some(Activity::Call(call)) => of_call(script, call.body, call.place),
        Some(Activity::Iteration { context, left, .. }) => of_iteration(
            lane,
            context,
            left.first().copied(),
        ),
        Some(Activity::Loop { number, context }) => of_loop(lane, number, context),
    }
}

/// A call takes its next action, or returns.
fn of_call(script: &Script, body: Body, place: usize) -> Deed
    ensures { result ≡ did_call body place (slice_get (actions_of script.now body) place) }
{
    if place < script.actions(body).len() {
        Deed::Acted { body, place }
    } else {
        Deed::Returned { body }
    }
}

/// An iteration takes its next id, or ends.
fn of_iteration(lane: &LaneState, context: u32, next: Option<u64>) -> Deed
    ensures { result ≡ did_iteration lane.now.lane context next }
{
    let Some(source) = next else {
        return Deed::IterationEnded { context };
    };
    match lane.sources(context) {
        None => Deed::PassedOver { context, source },
        Some(rows) => {
            if rows.found(source).is_some() {
                Deed::Dispatched { context, source }
            } else {
                Deed::PassedOver { context, source }
            }
        }
    }
}

/// A loop that runs begins an iteration, and one that was quit ends.
fn of_loop(lane: &LaneState, loop_number: u32, context: u32) -> Deed
    ensures { result ≡ (if is_running loop_number lane.now.lane then Iterated loop_number context else LoopEnded loop_number context) }
{
    if lane.is_running(loop_number) {
        Deed::Iterated {
            loop_number,
            context,
        }
    } else {
        Deed::LoopEnded {
            loop_number,
            context,
        }
    }
}

/// What a step did, by what was foreseen of it and whether there was one.
pub(crate) fn done(foreseen: Deed, more: bool) -> Deed
    ensures { result ≡ (if more then foreseen else Rests) }
{
    if more { foreseen } else { Deed::Rests }
}
