//! Lanes that a table gives to workers, with 1, 2 and 64 workers: halted lanes, and many posts in a tick.
use crate::expected::expect_same;
use mainctx::{MainFault, Out, OverWrite, run_bytes};
use std::alloc::{AllocError, Global};
use std::process::Abort;
use std::sync::Wait;
use std::thread::Threads;
use tick_stepper::{Gate, OpenGate, Sharing};

/// How workers share lanes.
#[derive(Clone, Copy)]
pub(crate) enum Way {
    Round,
    Queue,
    /// Each lane's worker.
    Table(&'static [u32]),
}

fn sharing(alloc: Global, way: Way) -> Result<Sharing, MainFault> {
    match way {
        Way::Round => Ok(Sharing::Round),
        Way::Queue => Ok(Sharing::Queue),
        Way::Table(workers) => match workers.to_vec(alloc) {
            Ok(table) => Ok(Sharing::Fixed(table)),
            Err(AllocError) => Err(MainFault::OutOfMemory),
        },
    }
}

/// Runs a script with so many workers, which share its lanes in a way and take each turn through a gate.
pub(crate) fn run<T: Threads + Wait + Sync, G: Gate, W: Out>(
    rt: &T,
    alloc: Global,
    script: &str,
    workers: u32,
    way: Way,
    gate: &G,
    out: &mut W,
) -> Result<(), MainFault> {
    let sharing = sharing(alloc, way)?;
    run_bytes(rt, alloc, script.as_bytes(), workers, sharing, gate, out)
}

/// The text of a script.
pub(crate) fn ran<T: Threads + Wait + Sync, G: Gate>(
    rt: &T,
    alloc: Global,
    script: &str,
    workers: u32,
    way: Way,
    gate: &G,
) -> Result<Vec<u8>, MainFault> {
    let mut out = OverWrite::new(Vec::new(alloc));
    match run(rt, alloc, script, workers, way, gate, &mut out) {
        Ok(()) => Ok(out.into_inner()),
        Err(fault) => Err(fault),
    }
}

/// The text of a script with so many workers.
pub(crate) fn expect_ran<T: Threads + Wait + Sync + Abort>(
    rt: &T,
    alloc: Global,
    script: &str,
    workers: u32,
    way: Way,
    wanted: &[u8],
) {
    match ran(rt, alloc, script, workers, way, &OpenGate) {
        Ok(found) => expect_same(rt, found.as_slice(), wanted),
        Err(fault) => expect_same(rt, Some(fault), None),
    }
}

/// So many workers, and each lane's.
#[derive(Clone, Copy)]
struct Crew {
    workers: u32,
    table: &'static [u32],
}

/// One lane of the only worker, of one of two, and of one of 64.
const OF_ONE_LANE: [Crew; 3] = [
    Crew {
        workers: 1,
        table: &[0],
    },
    Crew {
        workers: 2,
        table: &[1],
    },
    Crew {
        workers: 64,
        table: &[63],
    },
];

/// The same of two lanes.
const OF_TWO_LANES: [Crew; 3] = [
    Crew {
        workers: 1,
        table: &[0, 0],
    },
    Crew {
        workers: 2,
        table: &[1, 0],
    },
    Crew {
        workers: 64,
        table: &[63, 5],
    },
];

/// The text by each table.
fn expect_by_tables<T: Threads + Wait + Sync + Abort>(
    rt: &T,
    alloc: Global,
    script: &str,
    wanted: &[u8],
    crews: &[Crew],
) {
    for crew in crews {
        let way = Way::Table(crew.table);
        expect_ran(rt, alloc, script, crew.workers, way, wanted);
    }
}

fn expect_of_one_lane<T: Threads + Wait + Sync + Abort>(
    rt: &T,
    alloc: Global,
    script: &str,
    wanted: &str,
) {
    expect_by_tables(rt, alloc, script, wanted.as_bytes(), &OF_ONE_LANE);
}

fn expect_of_two_lanes<T: Threads + Wait + Sync + Abort>(
    rt: &T,
    alloc: Global,
    script: &str,
    wanted: &[u8],
) {
    expect_by_tables(rt, alloc, script, wanted, &OF_TWO_LANES);
}

fn self_invoking() -> &'static str {
    r#"{"version":1,"ticks":2,"tick_us":1000,"procs":[{"do":[["invoke",0,0]]}],"lanes":[{"contexts":1,"start":[["invoke",0,0]]}]}"#
}

fn self_invoking_text() -> &'static str {
    "thread 0\n0 invoke ctx 0 direct\n0 invoke ctx 0 direct\n0 invoke ctx 0 direct\n0 invoke ctx 0 direct\n0 invoke ctx 0 direct\n0 invoke ctx 0 direct\n0 invoke ctx 0 direct\n0 invoke ctx 0 direct\n0 invoke ctx 0 direct\n0 invoke ctx 0 direct\n0 invoke ctx 0 direct\n0 invoke ctx 0 direct\n0 invoke ctx 0 direct\n0 invoke ctx 0 direct\n0 invoke ctx 0 direct\n0 invoke ctx 0 direct\n0 invoke ctx 0 direct\n0 invoke ctx 0 direct\n0 invoke ctx 0 direct\n0 invoke ctx 0 direct\n0 invoke ctx 0 direct\n0 invoke ctx 0 direct\n0 invoke ctx 0 direct\n0 invoke ctx 0 direct\n0 invoke ctx 0 direct\n0 invoke ctx 0 direct\n0 invoke ctx 0 direct\n0 invoke ctx 0 direct\n0 invoke ctx 0 direct\n0 invoke ctx 0 direct\n0 invoke ctx 0 direct\n0 invoke ctx 0 direct\n0 halt depth\n"
}

/// A procedure that invokes itself halts its lane at the 33rd call.
#[test]
fn self_invoking_by_tables(rt: HostRuntime) {
    expect_of_one_lane(&rt, rt.alloc(), self_invoking(), self_invoking_text());
}

fn halted_task() -> &'static str {
    r#"{"version":1,"ticks":4,"tick_us":1000,"procs":[{"do":[["invoke",0,0]]},{"do":[]}],"lanes":[{"contexts":1,"start":[["task",{"tree":["sleep",2000],"call":1}],["invoke",0,0]]}]}"#
}

fn halted_task_text() -> &'static str {
    "thread 0\n0 invoke ctx 0 direct\n0 invoke ctx 0 direct\n0 invoke ctx 0 direct\n0 invoke ctx 0 direct\n0 invoke ctx 0 direct\n0 invoke ctx 0 direct\n0 invoke ctx 0 direct\n0 invoke ctx 0 direct\n0 invoke ctx 0 direct\n0 invoke ctx 0 direct\n0 invoke ctx 0 direct\n0 invoke ctx 0 direct\n0 invoke ctx 0 direct\n0 invoke ctx 0 direct\n0 invoke ctx 0 direct\n0 invoke ctx 0 direct\n0 invoke ctx 0 direct\n0 invoke ctx 0 direct\n0 invoke ctx 0 direct\n0 invoke ctx 0 direct\n0 invoke ctx 0 direct\n0 invoke ctx 0 direct\n0 invoke ctx 0 direct\n0 invoke ctx 0 direct\n0 invoke ctx 0 direct\n0 invoke ctx 0 direct\n0 invoke ctx 0 direct\n0 invoke ctx 0 direct\n0 invoke ctx 0 direct\n0 invoke ctx 0 direct\n0 invoke ctx 0 direct\n0 invoke ctx 0 direct\n0 halt depth\n3 arrive ctx 0 source 1\n"
}

/// A lane that is halted in tick 0 gets the reply of its task in tick 3.
#[test]
fn halted_task_by_tables(rt: HostRuntime) {
    expect_of_one_lane(&rt, rt.alloc(), halted_task(), halted_task_text());
}

fn post_to_halted() -> &'static str {
    r#"{"version":1,"ticks":2,"tick_us":1000,"procs":[{"do":[["invoke",1,0]]},{"do":[]}],"lanes":[{"contexts":1,"start":[["invoke",1,1]]},{"contexts":1,"start":[["acquire",1],["invoke",1,0]]}]}"#
}

fn post_to_halted_text() -> &'static str {
    "thread 0\n0 invoke ctx 1 posted\n0 end\nthread 1\n0 acquire ctx 1 true\n0 invoke ctx 1 direct\n0 invoke ctx 1 direct\n0 invoke ctx 1 direct\n0 invoke ctx 1 direct\n0 invoke ctx 1 direct\n0 invoke ctx 1 direct\n0 invoke ctx 1 direct\n0 invoke ctx 1 direct\n0 invoke ctx 1 direct\n0 invoke ctx 1 direct\n0 invoke ctx 1 direct\n0 invoke ctx 1 direct\n0 invoke ctx 1 direct\n0 invoke ctx 1 direct\n0 invoke ctx 1 direct\n0 invoke ctx 1 direct\n0 invoke ctx 1 direct\n0 invoke ctx 1 direct\n0 invoke ctx 1 direct\n0 invoke ctx 1 direct\n0 invoke ctx 1 direct\n0 invoke ctx 1 direct\n0 invoke ctx 1 direct\n0 invoke ctx 1 direct\n0 invoke ctx 1 direct\n0 invoke ctx 1 direct\n0 invoke ctx 1 direct\n0 invoke ctx 1 direct\n0 invoke ctx 1 direct\n0 invoke ctx 1 direct\n0 invoke ctx 1 direct\n0 invoke ctx 1 direct\n0 halt depth\n0 arrive ctx 1 source 1\n"
}

/// Another lane's invoke reaches a lane that is halted in the same tick.
#[test]
fn post_to_halted_by_tables(rt: HostRuntime) {
    let wanted = post_to_halted_text().as_bytes();
    expect_of_two_lanes(&rt, rt.alloc(), post_to_halted(), wanted);
}

fn add_times(script: &mut String, piece: &str, times: u32) -> Result<(), AllocError> {
    for _ in 0..times {
        script.push_str(piece)?;
    }
    Ok(())
}

/// A storm of posts: 39 sources of one lane whose procedure invokes 254 times in the other's context. `log` is what the invoked
/// procedure does: a log of its own makes the other lane halt.
fn add_storm(script: &mut String, log: &str) -> Result<(), AllocError> {
    script.push_str(
        r#"{"version":1,"ticks":2,"tick_us":1000,"loops":[0,1],"procs":[{"do":[["invoke",1,1]"#,
    )?;
    add_times(script, r#",["invoke",1,1]"#, 253)?;
    script.push_str(r#"]},{"do":["#)?;
    script.push_str(log)?;
    script.push_str(r#"]}],"lanes":[{"contexts":1,"start":["#)?;
    add_times(script, r#"["attach",0,0,{"kind":["idle"],"call":0}],"#, 39)?;
    script.push_str(r#"["run",0]]},{"contexts":1,"start":[["run",1]]}]}"#)
}

/// The text is that of rounds with one worker, which vectors/13-limits holds.
fn expect_storm_of<T: Threads + Wait + Sync + Abort>(rt: &T, alloc: Global, script: &str) {
    match ran(rt, alloc, script, 1, Way::Round, &OpenGate) {
        Ok(wanted) => expect_of_two_lanes(rt, alloc, script, &wanted),
        Err(fault) => expect_same(rt, Some(fault), None),
    }
}

fn expect_storm<T: Threads + Wait + Sync + Abort>(rt: &T, alloc: Global, log: &str) {
    let mut script = String::new(alloc);
    match add_storm(&mut script, log) {
        Ok(()) => expect_storm_of(rt, alloc, script.as_str()),
        Err(AllocError) => assert!(rt; false),
    }
}

#[test]
fn storms_by_tables(rt: HostRuntime) {
    expect_storm(&rt, rt.alloc(), "");
    expect_storm(&rt, rt.alloc(), r#"["log",1]"#);
}
