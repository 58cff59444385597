//! Two lanes whose turns run side by side: a gate lets each wait until the other's turn of the same tick has begun.
ghost use Rattle.std.specs.Prelude.{◌+◌, ◌≤◌, ◌<◌, ◌^◌};

use crate::expected::expect_same;
use crate::table_tests::{Way, ran};
use lane_turn::{LaneFault, LaneState};
use loop_script::Script;
use post_office::Post;
use std::alloc::Global;
use std::process::Abort;
use std::sync::Wait;
use std::sync::atomic::Ordering::SeqCst;
use std::sync::atomic::{AtomicU32, AtomicUsize};
use std::thread;
use std::thread::Threads;
use tick_stepper::Gate;

/// What the turns of a lane show to the other lane's.
#[derive(Drop)]
struct Side {
    /// The ticks of which a turn has begun.
    begun: AtomicU32,
    /// The ticks whose turn saw that the other lane's had begun, a bit each.
    met: AtomicU32,
    /// How many lines its turns wrote.
    lines: AtomicUsize,
    /// The workers that took its turns, a bit each.
    workers: AtomicU32,
}

impl Side {
    fn new() -> Side {
        Side {
            begun: AtomicU32::new(0),
            met: AtomicU32::new(0),
            lines: AtomicUsize::new(0),
            workers: AtomicU32::new(0),
        }
    }
}

/// A gate in which each of two lanes' turns waits for the other lane's.
#[derive(Drop)]
struct Meeting {
    first: Side,
    second: Side,
}

impl Meeting {
    fn new() -> Meeting {
        Meeting {
            first: Side::new(),
            second: Side::new(),
        }
    }

    /// A lane's side, and the other one.
    fn sides(&self, lane: u32) -> (&Side, &Side) {
        if lane == 0 {
            (&self.first, &self.second)
        } else {
            (&self.second, &self.first)
        }
    }

    /// Begins the turn of a lane, and waits for the other lane's, for a million looks at most.
    fn wait(&self, lane: u32, tick: u32) {
        let (mine, other) = self.sides(lane);
        mine.begun.store(tick.saturating_add(1), SeqCst);
        for _ in 0..1_000_000_u32 {
            if other.begun.load(SeqCst) > tick {
                mine.met.fetch_or(1_u32.wrapping_shl(tick), SeqCst);
                return;
            }
            thread::yield_now();
        }
    }

    /// Adds the worker and the lines of a turn, before which there were so many.
    fn count(&self, worker: u32, lane: u32, state: &LaneState, before: usize) {
        let mine = self.sides(lane).0;
        let lines = state.trace().len().saturating_sub(before);
        mine.lines.fetch_add(lines, SeqCst);
        mine.workers.fetch_or(1_u32.wrapping_shl(worker), SeqCst);
    }

    /// The workers that took the turns of both lanes.
    fn workers(&self) -> (u32, u32) {
        (
            self.first.workers.load(SeqCst),
            self.second.workers.load(SeqCst),
        )
    }

    /// Whether in some tick each of the two turns saw the other.
    fn have_met(&self) -> bool {
        self.first.met.load(SeqCst) & self.second.met.load(SeqCst) != 0
    }
}

impl Gate for Meeting {
    fn turn<P: Post>(
        &self,
        worker: u32,
        lane: u32,
        state: &mut LaneState,
        script: &Script,
        tick: u32,
        post: &mut P,
    ) -> Result<(), LaneFault> {
        self.wait(lane, tick);
        let before = state.trace().len();
        let result = state.turn(script, tick, post);
        self.count(worker, lane, state, before);
        result
    }
}

fn two_lanes() -> &'static str {
    r#"{"version": 1, "ticks": 20, "tick_us": 1000, "loops": [0, 1], "lanes": [{"contexts": 1, "start": [["attach", 0, 0, {"kind": ["idle"]}], ["run", 0]]}, {"contexts": 1, "start": [["attach", 1, 0, {"kind": ["idle"]}], ["run", 1]]}]}"#
}

/// A line a tick was written through the gate, and not all turns were taken one after another.
fn expect_side_by_side(rt: &impl Abort, gate: &Meeting) {
    expect_same(rt, gate.first.lines.load(SeqCst), 20);
    expect_same(rt, gate.second.lines.load(SeqCst), 20);
    assert!(rt; gate.have_met());
}

/// Runs two lanes with two workers through such a gate, which then tells the workers, a bit each, that took the turns of either lane.
fn expect_met<T: Threads + Wait + Sync + Abort>(
    rt: &T,
    alloc: Global,
    way: Way,
    workers: Option<(u32, u32)>,
) {
    let gate = Meeting::new();
    assert!(rt; ran(rt, alloc, two_lanes(), 2, way, &gate).is_ok());
    expect_side_by_side(rt, &gate);
    if let Some(workers) = workers {
        expect_same(rt, gate.workers(), workers);
    }
}

#[test]
fn turns_run_side_by_side_in_rounds(rt: HostRuntime) {
    expect_met(&rt, rt.alloc(), Way::Round, Some((0b01, 0b10)));
}

#[test]
fn turns_run_side_by_side_by_a_table(rt: HostRuntime) {
    expect_met(&rt, rt.alloc(), Way::Table(&[0, 1]), Some((0b01, 0b10)));
    expect_met(&rt, rt.alloc(), Way::Table(&[1, 0]), Some((0b10, 0b01)));
}

#[test]
fn turns_run_side_by_side_by_a_queue(rt: HostRuntime) {
    expect_met(&rt, rt.alloc(), Way::Queue, None);
}
