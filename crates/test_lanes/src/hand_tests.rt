//! A context that a lane hands over and another takes, with ample memory, and with memory refused.
ghost use Rattle.std.specs.Prelude.{◌≡◌, false, Err, IsTrue};
ghost use Rattle.lane_turn.specs.Sound.{IsReady};

use crate::expected::expect;
use crate::lane_tests::{Case, expect_lines_or_spent, try_case};
use lane_turn::{Event, HandFault, Held, LaneFault, LaneState, Line};
use loop_script::Script;
use post_office::Tray;
use std::alloc::Global;
use std::process::Abort;

pub(crate) fn gives_script() -> &'static str {
    r#"{"version":2,"ticks":3,"tick_us":1000,"loops":[0,2],"procs":[{"do":[["log",5]],"keep":null},{"do":[["log",6]]},{"do":[["iterate",1]],"keep":null}],"lanes":[{"contexts":2,"start":[["attach",1,0,{"kind":["timeout",2],"call":0}],["give",1,1],["attach",1,1,{"kind":["idle"]}],["invoke",1,1],["run",0]]},{"contexts":1,"start":[["attach",2,0,{"kind":["timeout",1],"call":2}],["run",1]]}]}"#
}

const HOLD: [Line; 1] = [Line {
    tick: 0,
    event: Event::Hold(1),
}];

/// A new lane's first turn.
fn first_turn(alloc: Global, script: &Script, lane: &mut LaneState) -> Result<(), LaneFault>
    requires fresh { lane.old.spent ≡ false }
    requires ready { IsReady script.now 0 1 lane.old.lane }
{
    lane.turn(script, 0, &mut Tray::new(alloc))
}

/// What a new lane 0 hands over after its first turn, once; none where memory ran out.
fn give(rt: &impl Abort, alloc: Global, script: &Script, giver: &mut LaneState) -> Option<Held>
    requires fresh { giver.old.spent ≡ false }
    requires ready { IsReady script.now 0 1 giver.old.lane }
{
    first_turn(alloc, script, giver).ok()?;
    let held = giver.hand_over(1).ok()?;
    expect(rt, giver.hand_over(1).err() == Some(HandFault::NotGiven));
    expect(rt, giver.sources(1).is_none());
    Some(held)
}

/// Context 1, which lane 0 gives in its first turn; none where memory ran out.
fn given(rt: &impl Abort, alloc: Global, script: &Script) -> Option<Held> {
    match LaneState::new(alloc, script, 0) {
        Ok(mut giver) => give(rt, alloc, script, &mut giver),
        Err(_) => None,
    }
}

/// The context is the lane's with its one source.
fn expect_held(rt: &impl Abort, lane: &LaneState) {
    match lane.sources(1) {
        Some(rows) => expect(rt, rows.ordered().copied().eq([1])),
        None => expect(rt, false),
    }
}

/// Takes a context over at the first tick.
fn take_over(lane: &mut LaneState, held: Held) -> Result<(), LaneFault>
    ensures memory { result ≡ Err LaneFault.OutOfMemory → IsTrue lane.new.spent }
{
    match lane.take_over(0, held) {
        Ok(()) => Ok(()),
        Err(HandFault::OutOfMemory) => Err(LaneFault::OutOfMemory),
        Err(_) => Err(LaneFault::Spent),
    }
}

/// A spent lane takes nothing over.
fn expect_spent(rt: &impl Abort, alloc: Global, script: &Script, lane: &mut LaneState)
    requires { IsTrue lane.old.spent }
    ensures { IsTrue lane.new.spent }
{
    if let Some(held) = given(rt, alloc, script) {
        let refused = lane.take_over(0, held).err();
        expect(rt, refused == Some(HandFault::Spent));
    }
}

/// What became of a context that was to be taken over: the lane holds it and tells so in a line, or is spent, and is so a second time too.
fn expect_taken(
    rt: &impl Abort,
    alloc: Global,
    script: &Script,
    taker: &mut LaneState,
    ended: Result<(), LaneFault>,
    may_be_refused: bool,
)
    requires { ended ≡ Err LaneFault.OutOfMemory → IsTrue taker.old.spent }
{
    if ended == Err(LaneFault::OutOfMemory) {
        expect_spent(rt, alloc, script, taker);
        expect_spent(rt, alloc, script, taker);
    } else {
        expect_held(rt, taker);
    }
    expect_lines_or_spent(rt, alloc, script, taker, ended, &HOLD, may_be_refused);
}

/// A lane takes over what lane 0 hands over, where there is memory for it.
pub(crate) fn take_given(
    rt: &impl Abort,
    alloc: Global,
    script: &Script,
    taker: &mut LaneState,
    may_be_refused: bool,
) {
    match given(rt, alloc, script) {
        Some(held) => {
            let ended = take_over(taker, held);
            expect_taken(rt, alloc, script, taker, ended, may_be_refused);
        }
        None => expect(rt, may_be_refused),
    }
}

/// From lane 0 to lane 1; it is handed over once.
#[test]
fn hands_a_context_over(rt: HostRuntime) {
    try_case(&rt, rt.alloc(), Case::Given, false);
}

/// Whatever request is refused, the line is right or the lane is spent.
#[test]
fn refused_take_over(rt: HostRuntime) {
    try_case(&rt, rt.alloc(), Case::Given, true);
}
