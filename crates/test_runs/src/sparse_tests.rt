//! Ticks in which nothing is to be done: a gate counts the turns that are taken, and notes their ticks.
use crate::expected::expect_same;
use crate::table_tests::{Way, ran};
use lane_turn::{LaneFault, LaneState};
use loop_script::Script;
use post_office::Post;
use std::alloc::Global;
use std::process::Abort;
use std::sync::Wait;
use std::sync::atomic::Ordering::SeqCst;
use std::sync::atomic::{AtomicU32, AtomicUsize};
use std::thread::Threads;
use tick_stepper::Gate;

/// A gate that counts turns, and notes the ticks of the first five.
#[derive(Drop)]
struct Counter {
    turns: AtomicUsize,
    ticks: [AtomicU32; 5],
}

impl Gate for Counter {
    fn turn<P: Post>(
        &self,
        _worker: u32,
        _lane: u32,
        state: &mut LaneState,
        script: &Script,
        tick: u32,
        post: &mut P,
    ) -> Result<(), LaneFault> {
        let turn = self.turns.fetch_add(1, SeqCst);
        if let Some(noted) = self.ticks.get(turn) {
            noted.store(tick, SeqCst);
        }
        state.turn(script, tick, post)
    }
}

/// A timeout that is dispatched at two of a thousand ticks.
fn two_of_a_thousand() -> &'static str {
    r#"{"version": 1, "ticks": 1000, "tick_us": 1000, "loops": [0], "lanes": [{"contexts": 1, "start": [["attach", 0, 0, {"kind": ["timeout", 400]}], ["run", 0]]}]}"#
}

/// The same timeout in a context that is given at tick 0. The lane that takes it over runs a loop of it from tick 1 on, when a
/// timeout of its own has ended the loop before.
fn given_timeout() -> &'static str {
    r#"{"version":2,"ticks":1000,"tick_us":1000,"loops":[0,2,1],"procs":[{"do":[["quit",1]]}],"lanes":[{"contexts":2,"start":[["attach",1,0,{"kind":["timeout",400]}],["give",1,1],["run",0]]},{"contexts":1,"start":[["attach",2,0,{"kind":["timeout",1],"call":0}],["run",1],["run",2]]}]}"#
}

/// A gate before any turn: no turn has a tick of 1000.
fn fresh() -> Counter {
    Counter {
        turns: AtomicUsize::new(0),
        ticks: [
            AtomicU32::new(1000),
            AtomicU32::new(1000),
            AtomicU32::new(1000),
            AtomicU32::new(1000),
            AtomicU32::new(1000),
        ],
    }
}

/// The ticks that a gate noted.
fn noted(gate: &Counter) -> [u32; 5] {
    [
        gate.ticks[0].load(SeqCst),
        gate.ticks[1].load(SeqCst),
        gate.ticks[2].load(SeqCst),
        gate.ticks[3].load(SeqCst),
        gate.ticks[4].load(SeqCst),
    ]
}

/// The ticks of the turns, one after another.
fn expect_ticks(rt: &impl Abort, gate: &Counter, ticks: &[u32]) {
    expect_same(rt, gate.turns.load(SeqCst), ticks.len());
    expect_same(rt, noted(gate).get(..ticks.len()), Some(ticks));
}

/// The same of a run of a script with one worker.
fn expect_turns<T: Threads + Wait + Sync + Abort>(
    rt: &T,
    alloc: Global,
    script: &str,
    way: Way,
    ticks: &[u32],
) {
    let gate = fresh();
    assert!(rt; ran(rt, alloc, script, 1, way, &gate).is_ok());
    expect_ticks(rt, &gate, ticks);
}

/// The same in each way of sharing.
fn expect_of_each<T: Threads + Wait + Sync + Abort>(
    rt: &T,
    alloc: Global,
    script: &str,
    table: &'static [u32],
    ticks: &[u32],
) {
    expect_turns(rt, alloc, script, Way::Table(table), ticks);
    expect_turns(rt, alloc, script, Way::Round, ticks);
    expect_turns(rt, alloc, script, Way::Queue, ticks);
}

#[test]
fn empty_ticks_take_no_turn(rt: HostRuntime) {
    expect_of_each(&rt, rt.alloc(), two_of_a_thousand(), &[0], &[0, 400, 800]);
}

/// A context that was given keeps no lane awake, neither the one that gave it nor the one that has it now: there is the turn that
/// gives, and four of the lane that takes over, its first, that in which its loop ends, and two in which the timeout is dispatched.
#[test]
fn empty_ticks_after_a_give_take_no_turn(rt: HostRuntime) {
    let ticks = [0, 0, 1, 400, 800];
    expect_of_each(&rt, rt.alloc(), given_timeout(), &[0, 0], &ticks);
}
