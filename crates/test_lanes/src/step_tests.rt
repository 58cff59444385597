//! A turn step by step: what is in progress after each step, as docs/STEP.md draws it.
ghost use Rattle.std.specs.Prelude.{◌≡◌, false, Err, IsTrue};
ghost use Rattle.lane_turn.specs.Sound.{IsReady};

use crate::expected::{expect, expect_same};
use crate::lane_tests::{Case, LINES, expect_lines_or_spent, try_case};
use context_core::Standing;
use lane_turn::{Activity, LaneFault, LaneState, Origin};
use loop_script::{Body, Script};
use post_office::Tray;
use std::alloc::{AllocError, Global};
use std::process::Abort;

/// Something in progress, as the table draws it.
#[derive(Clone, Copy)]
enum Drawn {
    Start,
    Loop(u32),
    /// The ids that an iteration has left.
    Iter(&'static [u64]),
    /// The call of a source, by its procedure.
    Call(u32),
}

fn is_drawn(activity: &Activity<'_>, drawn: Drawn) -> bool {
    match (activity, drawn) {
        (Activity::Call(call), Drawn::Start) => call.origin == Origin::Start,
        (Activity::Call(call), Drawn::Call(proc)) => call.body == Body::Procedure(proc),
        (
            Activity::Iteration {
                context: 0,
                left,
                ..
            },
            Drawn::Iter(ids),
        ) => *left == ids,
        (Activity::Loop { number, context: 0 }, Drawn::Loop(drawn)) => *number == drawn,
        _ => false,
    }
}

/// What is in progress is what is drawn, from the outermost inwards, and no more.
fn expect_stack(rt: &impl Abort, lane: &LaneState, stack: &[Drawn]) {
    let mut frames = lane.frames();
    for drawn in stack {
        match frames.next() {
            Some(activity) => expect(rt, is_drawn(&activity, *drawn)),
            None => expect(rt, false),
        }
    }
    expect(rt, frames.next().is_none());
}

use Drawn::{Call, Iter, Loop, Start};

/// The stack after each step of the table.
const STACKS: [&[Drawn]; 17] = [
    &[Start],
    &[Start],
    &[Start],
    &[Start, Loop(0)],
    &[Start, Loop(0), Iter(&[1, 2, 3])],
    &[Start, Loop(0), Iter(&[2, 3]), Call(0)],
    &[Start, Loop(0), Iter(&[]), Call(0), Iter(&[2, 3])],
    &[Start, Loop(0), Iter(&[]), Call(0), Iter(&[3]), Call(1)],
    &[Start, Loop(0), Iter(&[]), Call(0), Iter(&[3]), Call(1)],
    &[Start, Loop(0), Iter(&[]), Call(0), Iter(&[3])],
    &[Start, Loop(0), Iter(&[]), Call(0), Iter(&[]), Call(2)],
    &[Start, Loop(0), Iter(&[]), Call(0), Iter(&[]), Call(2)],
    &[Start, Loop(0), Iter(&[]), Call(0), Iter(&[])],
    &[Start, Loop(0), Iter(&[]), Call(0)],
    &[Start, Loop(0), Iter(&[]), Call(0)],
    &[Start, Loop(0), Iter(&[])],
    &[Start, Loop(0)],
];

pub(crate) fn takeover_script() -> &'static str {
    r#"{"version":1,"ticks":2,"tick_us":1000,"loops":[0],"procs":[{"do":[["iterate",0],["log",1]]},{"do":[["log",2]]},{"do":[["log",3]]}],"lanes":[{"contexts":1,"start":[["attach",0,0,{"kind":["idle"],"call":0}],["attach",0,1,{"kind":["idle"],"call":1}],["attach",0,2,{"kind":["idle"],"call":2}],["run",0]]}]}"#
}

/// The sources of a context of its own and no other, and its view.
fn expect_lent(rt: &impl Abort, lane: &LaneState) {
    match lane.sources(0) {
        Some(rows) => expect(rt, rows.ordered().copied().eq([1, 2, 3])),
        None => expect(rt, false),
    }
    expect(rt, lane.sources(1).is_none());
    expect(rt, !lane.view().is_cancelled(0));
}

/// What the sources of a context stand at, unless memory is refused.
fn expect_standings(
    rt: &impl Abort,
    script: &Script,
    lane: &LaneState,
    context: u32,
    wanted: &[Standing],
) -> Result<(), AllocError> {
    let found = lane.standings(script, 0, context)?;
    expect_same(rt, found.as_slice(), wanted);
    Ok(())
}

/// Source 1 is in its call, and the others are what the nested iteration selected; of another context there is nothing.
fn expect_takeover(rt: &impl Abort, script: &Script, lane: &LaneState) {
    let wanted = [
        Standing::Blocked { by: 1 },
        Standing::Selected,
        Standing::Selected,
    ];
    expect(rt, expect_standings(rt, script, lane, 0, &wanted).is_ok());
    expect(rt, expect_standings(rt, script, lane, 1, &[]).is_ok());
}

/// What is seen after a step that is drawn: what a lane lends as its loop begins, and what sources stand at once the nested iteration is
/// begun.
fn expect_seen(rt: &impl Abort, script: &Script, lane: &LaneState, step: usize, stack: &[Drawn]) {
    expect_stack(rt, lane, stack);
    match step {
        4 => expect_lent(rt, lane),
        7 => expect_takeover(rt, script, lane),
        _ => {}
    }
}

/// A new lane's turn at tick 0, step by step; the first steps are those that are drawn.
fn take_steps(
    rt: &impl Abort,
    alloc: Global,
    script: &Script,
    lane: &mut LaneState,
    stacks: &[&[Drawn]],
) -> Result<(), LaneFault>
    requires fresh { lane.old.spent ≡ false }
    requires ready { IsReady script.now 0 1 lane.old.lane }
    ensures memory { result ≡ Err LaneFault.OutOfMemory → IsTrue lane.new.spent }
{
    let mut tray = Tray::new(alloc);
    let mut turn = lane.begin_turn(script, 0, &mut tray)?;
    'steps: for step in 0..100 {
        let more = lane.step(script, 0, &mut turn, &mut tray)?;
        if !more {
            expect(rt, stacks.len() <= step);
            break;
        }
        if let Some(stack) = stacks.get(step) {
            expect_seen(rt, script, lane, step + 1, stack);
        }
    }
    Ok(())
}

/// The stacks of the whole turn, and what is told and lent in it.
pub(crate) fn expect_drawn(rt: &impl Abort, alloc: Global, script: &Script, lane: &mut LaneState)
    requires fresh { lane.old.spent ≡ false }
    requires ready { IsReady script.now 0 1 lane.old.lane }
{
    expect(rt, take_steps(rt, alloc, script, lane, &STACKS).is_ok());
}

#[test]
fn turn_is_as_drawn(rt: HostRuntime) {
    try_case(&rt, rt.alloc(), Case::Drawn, false);
}

/// A spent lane answers so to the calls of a turn.
fn expect_spent(rt: &impl Abort, alloc: Global, script: &Script, lane: &mut LaneState)
    requires { IsTrue lane.old.spent }
    ensures { IsTrue lane.new.spent }
{
    let mut tray = Tray::new(alloc);
    let refused = lane.begin_turn(script, 2, &mut tray).err();
    expect(rt, refused == Some(LaneFault::Spent));
}

/// The first run's lines, or the lane is spent.
pub(crate) fn step_or_spend(
    rt: &impl Abort,
    alloc: Global,
    script: &Script,
    lane: &mut LaneState,
    may_be_refused: bool,
)
    requires fresh { lane.old.spent ≡ false }
    requires ready { IsReady script.now 0 1 lane.old.lane }
{
    let ended = take_steps(rt, alloc, script, lane, &[]);
    if ended == Err(LaneFault::OutOfMemory) {
        expect_spent(rt, alloc, script, lane);
    }
    expect_lines_or_spent(rt, alloc, script, lane, ended, &LINES, may_be_refused);
}

/// Whatever request is refused, the lines are right or the lane is spent.
#[test]
fn refused_steps(rt: HostRuntime) {
    try_case(&rt, rt.alloc(), Case::Steps, true);
}
