//! Runs beside the rule: single calls, and thousands of trees polled to their end.
ghost use Rattle.std.specs.Prelude.{◌≡◌, ◌<◌, None, true};
ghost use Rattle.loop_script.specs.End.{seen};
ghost use Rattle.task_steps.specs.Run.{MaySet, IsAfter};

use crate::expected::expect_same;
use crate::oracle::{self, Begun};
use crate::trees::{Seed, script_of, task_at};
use loop_script::{Action, Body, Outcome, Script, TaskTree};
use std::alloc::{AllocError, Global};
use std::process::Abort;
use task_steps::TaskRun;

/// The end of a run by polls from one tick on, before another. Each time that it is pending its wake is that of the rule;
/// a sparse one passes over the ticks before that.
fn polled_to_end(
    rt: &impl Abort,
    tree: &TaskTree,
    run: &mut TaskRun,
    begun: u32,
    cancel: Option<u32>,
    sparse: bool,
) -> Option<(u64, Outcome)>
    requires fresh { MaySet begun run.old.stage run.old.wake }
    requires unseen { run.old.cancelled ≡ None }
    requires low { begun < 1000 }
{
    let rule = Begun {
        tick: u64::from(begun),
        cancel: cancel.map(|from| u64::from(from)),
        tick_us: 1000,
    };
    for tick in begun..2000 {
        if sparse && is_before(tick, run.next_wake()) {
            continue;
        }
        run.set_tick(tick, is_seen(cancel, tick));
        if let Some(outcome) = run.poll() {
            return Some((u64::from(tick), outcome));
        }
        expect_same(
            rt,
            (tick, run.next_wake()),
            (tick, oracle::wake(tree.root(), &rule, u64::from(tick))),
        );
    }
    None
}

fn is_before(tick: u32, wake: Option<u64>) -> bool
    ensures { result ≡ true → IsAfter tick wake }
{
    match wake {
        Some(wake) => u64::from(tick) < wake,
        None => false,
    }
}

fn is_seen(cancel: Option<u32>, tick: u32) -> bool
    ensures { result ≡ seen cancel tick }
{
    match cancel {
        Some(from) => from <= tick,
        None => false,
    }
}

/// The end of a tree by the polls of a run of its own.
fn ended(
    rt: &impl Abort,
    alloc: Global,
    tree: &TaskTree,
    begun: u32,
    cancel: Option<u32>,
    sparse: bool,
) -> Result<Option<(u64, Outcome)>, AllocError>
    requires { begun < 1000 }
{
    let mut run = TaskRun::new(alloc, tree, 1000)?;
    let end = polled_to_end(rt, tree, &mut run, begun, cancel, sparse);
    expect_same(rt, run.is_done(), end.is_some());
    Ok(end)
}

/// The task of each row of the table.
fn trees_of_the_table() -> &'static str {
    r#"{"version":1,"ticks":1,"tick_us":1000,"cancellables":1,"procs":[{"do":[]}],"lanes":[{"contexts":1,"start":[["task",{"tree":["within",1000,["sleep",2000]],"call":0}],["task",{"tree":["both",["fail"],["sleep",1000]],"call":0}],["task",{"tree":["seq",["sleep",1],["check"]],"call":0}],["task",{"tree":["first",["seq",["sleep",1000],["value",1]],["seq",["sleep",1000],["value",2]]],"call":0}],["task",{"tree":["within",2000,["seq",["sleep",2000],["value",3]]],"call":0}],["task",{"tree":["both",["seq",["sleep",2000],["fail"]],["within",1000,["sleep",5000]]],"call":0}],["task",{"tree":["both",["check"],["sleep",2000]],"call":0}],["task",{"tree":["sleep",1001],"call":0}]]}]}"#
}

/// A tree that is begun in a tick, and perhaps seen as cancelled from one on, and how it ends.
#[derive(Clone, Copy)]
struct Ending {
    what: &'static str,
    begun: u32,
    cancel: Option<u32>,
    tick: u64,
    outcome: Outcome,
}

/// A tree that is begun in tick 1, and ends in tick 3.
const BEGUN_IN_TICK_ONE: Ending = Ending {
    what: "rounds a sleep up",
    begun: 1,
    cancel: None,
    tick: 3,
    outcome: Outcome::Ok(0),
};

const TABLE: [Ending; 8] = [
    Ending {
        what: "times out",
        begun: 4,
        cancel: None,
        tick: 5,
        outcome: Outcome::TimedOut,
    },
    Ending {
        what: "fails at the later end",
        tick: 2,
        outcome: Outcome::Failed,
        ..BEGUN_IN_TICK_ONE
    },
    Ending {
        what: "checks after a sleep",
        cancel: Some(2),
        tick: 2,
        outcome: Outcome::Cancelled,
        ..BEGUN_IN_TICK_ONE
    },
    Ending {
        what: "a tie is the first's",
        tick: 2,
        outcome: Outcome::Ok(1),
        ..BEGUN_IN_TICK_ONE
    },
    Ending {
        what: "ends at the limit",
        outcome: Outcome::Ok(3),
        ..BEGUN_IN_TICK_ONE
    },
    Ending {
        what: "answers the first of two faults",
        outcome: Outcome::Failed,
        ..BEGUN_IN_TICK_ONE
    },
    Ending {
        what: "checks no later cancel",
        cancel: Some(2),
        ..BEGUN_IN_TICK_ONE
    },
    BEGUN_IN_TICK_ONE,
];

/// Whether a tree ends as its row says; where memory may be refused, a run that is is made anew.
fn ends(
    rt: &impl Abort,
    alloc: Global,
    tree: &TaskTree,
    row: &Ending,
    sparse: bool,
    may_be_refused: bool,
) -> bool {
    if row.begun >= 1000 {
        return false;
    }
    let found = match ended(rt, alloc, tree, row.begun, row.cancel, sparse) {
        Err(AllocError) if may_be_refused => ended(rt, alloc, tree, row.begun, row.cancel, sparse),
        found => found,
    };
    found == Ok(Some((row.tick, row.outcome)))
}

/// A tree ends as its row says, in each tick polled and only in those that its wake names.
fn expect_row(rt: &impl Abort, alloc: Global, tree: &TaskTree, row: &Ending, may_be_refused: bool) {
    let polled = ends(rt, alloc, tree, row, false, may_be_refused);
    let sparse = ends(rt, alloc, tree, row, true, may_be_refused);
    expect_same(rt, (row.what, polled, sparse), (row.what, true, true));
}

/// Each task's tree ends as its row says.
fn expect_rows(
    rt: &impl Abort,
    alloc: Global,
    tasks: &[Action],
    rows: &[Ending],
    may_be_refused: bool,
) {
    expect_same(rt, tasks.len(), rows.len());
    for (place, row) in rows.iter().enumerate() {
        match task_at(tasks, place) {
            Some(spec) => expect_row(rt, alloc, &spec.tree, row, may_be_refused),
            None => expect_same(rt, row.what, "a task"),
        }
    }
}

fn expect_table(rt: &impl Abort, alloc: Global, tasks: &[Action], may_be_refused: bool) {
    expect_rows(rt, alloc, tasks, &TABLE, may_be_refused);
}

/// The same of the script's tasks, where it finds memory.
fn expect_script(rt: &impl Abort, alloc: Global, may_be_refused: bool) {
    match Script::read(alloc, trees_of_the_table().as_bytes()) {
        Ok(script) => expect_table(rt, alloc, script.actions(Body::Start(0)), may_be_refused),
        Err(_) => assert!(rt; may_be_refused),
    }
}

#[test]
fn ends_as_the_table_says(rt: HostRuntime) {
    expect_script(&rt, rt.alloc(), false);
}

/// A run is refused as a whole, and one that is made anew ends as it is to.
#[test]
fn refused_run(rt: HostRuntime) {
    expect_script(&rt, rt.alloc(), true);
}

/// A tree that is begun in a tick, and perhaps seen as cancelled from one on, ends as the rule says, also where polls pass over ticks.
fn expect_end(
    rt: &impl Abort,
    alloc: Global,
    tree: &TaskTree,
    begun: u32,
    cancel: Option<u32>,
    number: u64,
) -> Result<(), AllocError>
    requires { begun < 1000 }
{
    let rule = Begun {
        tick: u64::from(begun),
        cancel: cancel.map(|from| u64::from(from)),
        tick_us: 1000,
    };
    let end = Some(oracle::end(tree.root(), &rule));
    let polled = ended(rt, alloc, tree, begun, cancel, false)?;
    let sparse = ended(rt, alloc, tree, begun, cancel, true)?;
    expect_same(rt, (number, polled, sparse), (number, end, end));
    Ok(())
}

/// The same of a tree from a seed, begun in some tick and cancelled in some.
fn expect_rule(
    rt: &impl Abort,
    alloc: Global,
    seed: &mut Seed,
    number: u64,
) -> Result<(), AllocError> {
    let text = script_of(alloc, seed, number / 16 % 4, 1 + number % 16)?;
    let begun = 10 + seed.below(3) as u32;
    let cancel = some_cancel(seed);
    match Script::read(alloc, text.as_bytes()) {
        Ok(script) => match task_at(script.actions(Body::Start(0)), 0) {
            Some(spec) => expect_end(rt, alloc, &spec.tree, begun, cancel, number),
            None => expect_read(rt, number),
        },
        Err(_) => expect_read(rt, number),
    }
}

/// A script that was not read, or has no task.
fn expect_read(rt: &impl Abort, number: u64) -> Result<(), AllocError> {
    expect_same(rt, Some(number), None);
    Ok(())
}

fn some_cancel(seed: &mut Seed) -> Option<u32> {
    if seed.below(3) == 0 {
        None
    } else {
        Some(8 + seed.below(16) as u32)
    }
}

#[test]
fn trees_of_each_form_and_depth(rt: HostRuntime) -> Result<(), AllocError> {
    let mut seed = Seed { state: 20_260_607 };
    for number in 0..4000u64 {
        expect_rule(&rt, rt.alloc(), &mut seed, number)?;
    }
    Ok(())
}
