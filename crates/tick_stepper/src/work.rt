//! What a worker does where lanes are taken from a queue in a single tick.
ghost use Rattle.std.specs.Prelude.{◌≡◌, ◌<◌, ◌++◌, OnOk, IfOk};
ghost use Rattle.loop_script.specs.Bounds.{most_ticks};
ghost use Rattle.tick_stepper.specs.Share.{turned_one, out_of_one, IsReadyOne};
ghost use Rattle.tick_stepper.specs.Queue.{MayWork, IsHaul};

use crate::fault::OutOfMemory;
use crate::gate::Gate;
use lane_turn::{LaneFault, LaneState};
use loop_script::Script;
use post_office::{LetterQueue, Numbered, OfficePass, WorkPass, WorkQueue};
use std::alloc::Global;
use std::sync::Wait;

/// What a worker begins with: with one pass it takes lanes, and with the other these post.
#[derive(Drop)]
pub(crate) struct Hired {
    pub(crate) worker: u32,
    pub(crate) work: WorkPass<LaneState>,
    pub(crate) post: OfficePass,
}

/// What a worker brings back: the lanes that it turned, and its passes.
#[derive(Drop)]
pub(crate) struct Haul {
    pub(crate) lanes: Vec<LaneState>,
    pub(crate) work: WorkPass<LaneState>,
    pub(crate) post: OfficePass,
}

/// A lane takes its turn by one call of the gate, and posts with a pass, which comes back.
pub(crate) fn turn_with<R: Wait, G: Gate>(
    rt: &R,
    gate: &G,
    script: &Script,
    tick: u32,
    worker: u32,
    office: &LetterQueue,
    pass: OfficePass,
    lane: &mut LaneState,
) -> Result<OfficePass, LaneFault>
    requires tick { tick < most_ticks }
    requires ready { IsReadyOne script.now tick lane.old }
    requires pass { pass.home ≡ office.now }
    ensures lane { OnOk result (lane.new ≡ turned_one script.now tick lane.old) }
    ensures pass { IfOk result (λ back. back ≡ record { home = office.now; posted = pass.posted ++ out_of_one script.now tick lane.old }) }
{
    let mut lent = office.lend(rt, pass);
    let done = gate.turn(worker, lane.number(), lane, script, tick, &mut lent);
    let pass = lent.into_pass();
    done?;
    Ok(pass)
}

/// Takes lanes until none waits, and turns each.
pub(crate) fn work_through<R: Wait, G: Gate>(
    rt: &R,
    alloc: Global,
    gate: &G,
    script: &Script,
    tick: u32,
    list: &WorkQueue<LaneState>,
    office: &LetterQueue,
    hired: Hired,
) -> Result<Haul, OutOfMemory>
    requires tick { tick < most_ticks }
    requires hired { MayWork script.now tick list.now office.now hired }
    ensures { IfOk result (IsHaul script.now tick list.now office.now) }
{
    let Hired {
        worker,
        mut work,
        mut post,
    } = hired;
    let mut lanes = Vec::new(alloc);
    for _ in rt.forever() {
        lanes.reserve(1)?;
        let Some(mut lane) = list.take(rt, &mut work) else {
            return Ok(Haul { lanes, work, post });
        };
        post = turn_with(rt, gate, script, tick, worker, office, post, &mut lane)?;
        lanes.push_reserved(lane);
    }
    unreachable!()
}
