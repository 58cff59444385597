//! Whole turns of lanes and their lines, with ample memory and with memory refused: the first run's, and one that takes a task's reply.
ghost use Rattle.std.specs.Prelude.{◌≡◌, ℕ, ◌^◌, false, Err, IsTrue};
ghost use Rattle.lane_turn.specs.Sound.{IsReady};

use crate::expected::{expect, expect_same};
use crate::hand_tests::{gives_script, take_given};
use crate::step_tests::{expect_drawn, step_or_spend, takeover_script};
use lane_turn::{Event, HandFault, LaneFault, LaneState, Line};
use loop_script::{Outcome, Script};
use post_office::Tray;
use std::alloc::Global;
use std::process::Abort;

fn first_run_script() -> &'static str {
    r#"{"version":1,"ticks":2,"tick_us":1000,"loops":[0],"procs":[{"do":[["log",7]]}],"lanes":[{"contexts":1,"start":[["attach",0,0,{"kind":["idle"],"call":0}],["run",0]]}]}"#
}

pub(crate) const LINES: [Line; 2] = [
    Line {
        tick: 0,
        event: Event::Dispatch {
            context: 0,
            source: 1,
            priority: 200,
            depth: 1,
        },
    },
    Line {
        tick: 0,
        event: Event::Log(7),
    },
];

/// A new lane's turns at the first two ticks; the first fault ends them.
fn two_turns(alloc: Global, script: &Script, lane: &mut LaneState) -> Result<(), LaneFault>
    requires fresh { lane.old.spent ≡ false }
    requires ready { IsReady script.now 0 1 lane.old.lane }
    ensures memory { result ≡ Err LaneFault.OutOfMemory → IsTrue lane.new.spent }
{
    let mut tray = Tray::new(alloc);
    lane.turn(script, 0, &mut tray)?;
    lane.turn(script, 1, &mut tray)
}

/// A lane that gave no context hands none over, whether it has it or not, and stays as it is.
fn expect_not_given(rt: &impl Abort, lane: &mut LaneState, context: u32)
    ensures { lane.new ≡ lane.old }
{
    match lane.hand_over(context) {
        Err(fault) => expect_same(rt, fault, HandFault::NotGiven),
        Ok(_) => expect(rt, false),
    }
}

/// A new lane 0 hands nothing over, and writes the first run's lines in two turns.
fn run_first(
    rt: &impl Abort,
    alloc: Global,
    script: &Script,
    lane: &mut LaneState,
    may_be_refused: bool,
)
    requires fresh { lane.old.spent ≡ false }
    requires ready { IsReady script.now 0 1 lane.old.lane }
{
    expect_not_given(rt, lane, 0);
    expect_not_given(rt, lane, 1);
    let ended = two_turns(alloc, script, lane);
    expect_lines_or_spent(rt, alloc, script, lane, ended, &LINES, may_be_refused);
}

/// What is tried of a new lane.
#[derive(Clone, Copy)]
pub(crate) enum Case {
    /// Lane 0 of the first run, a turn at a time.
    Turns,
    /// The same, a step at a time.
    Steps,
    /// Lane 0 in a turn whose steps are drawn.
    Drawn,
    /// Lane 0, whose task replies.
    Reply,
    /// Lane 1, which takes over what lane 0 gives.
    Given,
}

fn script_of(case: Case) -> &'static str {
    match case {
        Case::Turns | Case::Steps => first_run_script(),
        Case::Drawn => takeover_script(),
        Case::Reply => reply_script(),
        Case::Given => gives_script(),
    }
}

fn lane_of(case: Case) -> u32 {
    match case {
        Case::Given => 1,
        _ => 0,
    }
}

fn try_lane(
    rt: &impl Abort,
    alloc: Global,
    script: &Script,
    lane: &mut LaneState,
    case: Case,
    may_be_refused: bool,
)
    requires fresh { lane.old.spent ≡ false }
    requires ready { IsReady script.now 0 1 lane.old.lane }
{
    match case {
        Case::Turns => run_first(rt, alloc, script, lane, may_be_refused),
        Case::Steps => step_or_spend(rt, alloc, script, lane, may_be_refused),
        Case::Drawn => expect_drawn(rt, alloc, script, lane),
        Case::Reply => reply_or_spend(rt, alloc, script, lane, may_be_refused),
        Case::Given => take_given(rt, alloc, script, lane, may_be_refused),
    }
}

/// A new lane of a script.
fn try_new_lane(rt: &impl Abort, alloc: Global, script: &Script, case: Case, may_be_refused: bool) {
    match LaneState::new(alloc, script, lane_of(case)) {
        Ok(mut lane) => try_lane(rt, alloc, script, &mut lane, case, may_be_refused),
        Err(_) => expect(rt, may_be_refused),
    }
}

/// A case with ample memory, or where a request may be refused.
pub(crate) fn try_case(rt: &impl Abort, alloc: Global, case: Case, may_be_refused: bool) {
    match Script::read(alloc, script_of(case).as_bytes()) {
        Ok(script) => try_new_lane(rt, alloc, &script, case, may_be_refused),
        Err(_) => expect(rt, may_be_refused),
    }
}

#[test]
fn first_run(rt: HostRuntime) {
    try_case(&rt, rt.alloc(), Case::Turns, false);
}

/// Whatever request is refused, the lines are right or the lane is spent.
#[test]
fn refused_turn(rt: HostRuntime) {
    try_case(&rt, rt.alloc(), Case::Turns, true);
}

/// A spent lane answers so to each call that may be refused, and stays as it is.
fn answers_spent(alloc: Global, script: &Script, lane: &mut LaneState) -> bool
    requires { IsTrue lane.old.spent }
    ensures { IsTrue lane.new.spent }
{
    lane.turn(script, 2, &mut Tray::new(alloc)) == Err(LaneFault::Spent)
        && lane.deliver(script, 2, &[]) == Err(LaneFault::Spent)
        && lane.pass_to(3) == Err(LaneFault::Spent)
        && lane.hand_over(0).err() == Some(HandFault::Spent)
}

/// The same a second time too.
fn stays_spent(alloc: Global, script: &Script, lane: &mut LaneState) -> bool
    requires { IsTrue lane.old.spent }
{
    answers_spent(alloc, script, lane) && answers_spent(alloc, script, lane)
}

/// The lines are right and the lane is not halted; or memory ran out, where it may, and the lane is spent.
pub(crate) fn expect_lines_or_spent(
    rt: &impl Abort,
    alloc: Global,
    script: &Script,
    lane: &mut LaneState,
    ended: Result<(), LaneFault>,
    lines: &[Line],
    may_be_refused: bool,
)
    requires { ended ≡ Err LaneFault.OutOfMemory → IsTrue lane.old.spent }
{
    match ended {
        Ok(()) => {
            expect_same(rt, lane.trace(), lines);
            expect(rt, !lane.halted());
        }
        Err(LaneFault::Spent) => expect(rt, false),
        Err(LaneFault::OutOfMemory) => {
            expect(rt, may_be_refused && stays_spent(alloc, script, lane));
        }
    }
}

fn reply_script() -> &'static str {
    r#"{"version":1,"ticks":3,"tick_us":1000,"loops":[0],"procs":[{"do":[]}],"lanes":[{"contexts":1,"start":[["task",{"tree":["value",8],"call":0}],["run",0]]}]}"#
}

const REPLY_LINES: [Line; 3] = [
    Line {
        tick: 1,
        event: Event::Arrive(0, 1),
    },
    Line {
        tick: 2,
        event: Event::Dispatch {
            context: 0,
            source: 1,
            priority: 0,
            depth: 1,
        },
    },
    Line {
        tick: 2,
        event: Event::Task {
            lane: 0,
            number: 0,
            outcome: Outcome::Ok(8),
        },
    },
];

/// A new lane's turns and deliveries up to the turn that dispatches a reply; the first fault ends them.
fn take_reply(alloc: Global, script: &Script, lane: &mut LaneState) -> Result<(), LaneFault>
    requires fresh { lane.old.spent ≡ false }
    requires ready { IsReady script.now 0 1 lane.old.lane }
    ensures memory { result ≡ Err LaneFault.OutOfMemory → IsTrue lane.new.spent }
{
    let mut tray = Tray::new(alloc);
    lane.turn(script, 0, &mut tray)?;
    lane.deliver(script, 0, &[])?;
    lane.turn(script, 1, &mut tray)?;
    let letters = tray.into_letters();
    if letters.len() > 100 {
        return Ok(());
    }
    lane.deliver(script, 1, &letters)?;
    lane.turn(script, 2, &mut Tray::new(alloc))
}

/// What lane 0 writes up to its task's reply.
fn reply_or_spend(
    rt: &impl Abort,
    alloc: Global,
    script: &Script,
    lane: &mut LaneState,
    may_be_refused: bool,
)
    requires fresh { lane.old.spent ≡ false }
    requires ready { IsReady script.now 0 1 lane.old.lane }
{
    let ended = take_reply(alloc, script, lane);
    expect_lines_or_spent(rt, alloc, script, lane, ended, &REPLY_LINES, may_be_refused);
}

#[test]
fn takes_a_reply(rt: HostRuntime) {
    try_case(&rt, rt.alloc(), Case::Reply, false);
}

/// Whatever request is refused, the lines are right or the lane is spent.
#[test]
fn refused_reply(rt: HostRuntime) {
    try_case(&rt, rt.alloc(), Case::Reply, true);
}
