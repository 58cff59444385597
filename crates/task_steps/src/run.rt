//! The run of one task alone, by public calls, without a book.
ghost use Rattle.std.specs.Prelude.{◌≡◌, ℕ, ◌+◌, ◌<◌, ◌≤◌, None, IfOk, IsTrue, ◌↔◌};

use crate::body::Body;
use loop_script::{Outcome, TaskTree};
use std::alloc::{AllocError, Global};
use std::marker::Model;

/// A task in progress. It shares its tree with the script, and keeps nothing else that grows with it.
///
/// In each tick in which it is polled, `set_tick` comes first, then `poll`. It is begun in the tick that is set first.
/// Ticks may be passed over, but none at which a wait ends (`next_wake`).
#[derive(Drop)]
pub struct TaskRun {
    body: Body,
}

impl Model for TaskRun {
    ghost use Rattle.task_steps.specs.Run.{Run};

    ghost Value = { Run };

    ghost use Rattle.std.specs.Coded.{codes};
    ghost use Rattle.loop_script.specs.Tree.{tree_code};
    ghost use Rattle.task_steps.specs.contracts.stage.Stage as stages;

    ghost coded = { Prim.hlevel (codes, tree_code, stages.the_row.coded) };

    ghost use Rattle.task_steps.specs.RunInside.{KeepsLeast, shown_run};

    ghost view = { λ r. shown_run r.body };

    ghost invariant = { λ r. KeepsLeast r.body };
}

impl TaskRun {
    ghost use Rattle.loop_script.specs.Bounds.{longest_tick};
    ghost use Rattle.task_steps.specs.Run.{MaySet, StaysSet, IsSet, Answered, WakesLater, NoneBefore, IsLeastWait, set_to, seen_from, clear_to, stage_after};
    ghost use Rattle.task_steps.specs.declared.stage.Stage.TheVariants.{Fresh, Done};

    /// A task that no poll has begun; a tick is so many microseconds long. It takes no memory of the allocator, and is refused
    /// only where a part of the tree has more sharers than can be counted.
    pub fn new(_alloc: Global, tree: &TaskTree, tick_us: u64) -> Result<TaskRun, AllocError>
        requires some { 0 < tick_us }
        requires short { tick_us ≤ longest_tick }
        ensures { IfOk result (λ r. r ≡ record { tree = tree.now; tick_us = tick_us; stage = Fresh; clear = None; cancelled = None; wake = None }) }
    {
        Ok(TaskRun {
            body: Body::new(tree, tick_us)?,
        })
    }

    /// Says in which tick the next poll is, and whether the task's cancellable is seen as cancelled in it.
    pub fn set_tick(&mut self, tick: u32, cancelled: bool)
        requires rising { MaySet tick self.old.stage self.old.wake }
        requires stays { StaysSet self.old.cancelled cancelled }
        ensures { self.new ≡ record self.old { stage = set_to tick self.old.stage; clear = clear_to tick cancelled self.old.clear; cancelled = seen_from tick cancelled self.old.cancelled; wake = None } }
    {
        self.body.set_tick(tick, cancelled);
    }

    /// Whether the task has ended.
    pub fn is_done(&self) -> bool
        ensures { IsTrue result ↔ (self.now.stage ≡ Done) }
    {
        self.body.is_done()
    }

    /// The outcome, where the task ends in the tick that was set; none where it is pending. Before its wake that costs the
    /// same however large the task is.
    pub fn poll(&mut self) -> Option<Outcome>
        requires { IsSet self.old.stage }
        ensures answer { Answered self.old result }
        ensures stays { self.new ≡ record self.old { stage = stage_after self.old.stage result; wake = self.new.wake } }
        ensures wakes { WakesLater self.new }
        ensures end { NoneBefore self.new self.new.wake }
    {
        self.body.poll()
    }

    /// The least tick at which a sleep or limit in progress ends; none for a done one. The task ends in none before it.
    pub fn next_wake(&self) -> Option<u64>
        ensures wake { result ≡ self.now.wake }
        ensures least { IsLeastWait self.now result }
        ensures end { NoneBefore self.now self.now.wake }
    {
        self.body.next_wake()
    }
}
