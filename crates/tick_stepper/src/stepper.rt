//! A stepper, by its public calls: lanes are opened, stepped tick by tick or to the end, and shown.
ghost use Rattle.std.specs.Prelude.{◌≡◌, ◌≢◌, ◌+◌, ◌<◌, ◌↔◌, true, false, length, slice_get, option_map, IsTrue, OnOk, OnErr, IfOk, IfErr, IfSome, IsSome, None, Some, Ok, Err};
ghost use Rattle.loop_script.specs.Bounds.{most_ticks};
ghost use Rattle.lane_turn.specs.Tick.{opened, ticked, lanes_at};
ghost use Rattle.tick_stepper.specs.Crew.{refusal_of};
ghost use Rattle.tick_stepper.specs.Rest.{AreAt};

use crate::crew::{Crew, Sharing};
use crate::fault::{OutOfMemory, StepFault};
use crate::gate::Gate;
use crate::open::open_lanes;
use crate::rest::{Resting, any_due};
use crate::round::{run_tick, run_tick_alone};
use crate::span::run_ticks;
use lane_turn::Line;
use loop_script::Script;
use std::alloc::Global;
use std::marker::{Brand, Model};
use std::mem;
use std::sync::Wait;
use std::thread::Threads;

/// Steps the lanes of a script through its ticks. Contracts see the script, its lanes by number, how many ticks were
/// stepped, and whether the stepper is spent; how lanes are shared out shows in none of these.
#[derive(Drop)]
pub struct Stepper {
    alloc: Global,
    script: Script,
    crew: Crew,
    lanes: Vec<Resting>,
    tick: u32,
    spent: bool,
}

impl Model for Stepper {
    ghost use Rattle.std.specs.Prelude.{◌≡◌, ◌≤◌, false, None, length, map};
    ghost use Rattle.std.specs.Coded.{codes};
    ghost use Rattle.loop_script.specs.contracts.tree.TaskTree as task_tree;
    ghost use Rattle.loop_script.specs.Bounds.{most_lanes};
    ghost use Rattle.tick_stepper.specs.Crew.{refusal_of};
    ghost use Rattle.tick_stepper.specs.Rest.{all_at, AreAt};
    ghost use Rattle.tick_stepper.specs.Stepper.{Steps};

    ghost Value = { Steps };

    ghost coded = { Prim.hlevel (codes, task_tree.the_row.coded) };

    ghost view = { λ s. record { script = s.script; lanes = all_at s.tick s.lanes.items; tick = s.tick; spent = s.spent } };

    ghost invariant = { λ s. (refusal_of s.script s.crew.workers s.crew.sharing ≡ None) × (s.tick ≤ s.script.ticks) × (length s.script.lanes ≤ most_lanes) × (s.spent ≡ false → AreAt s.script s.tick s.lanes.items) };
}

impl Stepper {
    /// The lanes of a script before its first tick. Their turns are shared out among so many workers, from 1 to 64.
    ///
    /// `Workers` comes where they are fewer or more; else `Table` where a table has not one of them for each lane, and
    /// no more; else `OutOfMemory` where a request for memory was refused.
    pub fn new(
        alloc: Global,
        script: Script,
        workers: u32,
        sharing: Sharing,
    ) -> Result<Self, StepFault>
        ensures opened { IfOk result (λ s. s ≡ record { script = script; lanes = opened script; tick = 0; spent = false }) }
        ensures refused { IfSome (refusal_of script workers sharing) (λ fault. result ≡ Err fault) }
        ensures cause { IfErr result (λ fault. fault ≢ StepFault.OutOfMemory → refusal_of script workers sharing ≡ Some fault) }
    {
        let crew = Crew { workers, sharing };
        if let Some(fault) = crew.refusal(&script) {
            return Err(fault);
        }
        let lanes = open_lanes(alloc, &script)?;
        Ok(Stepper {
            alloc,
            script,
            crew,
            lanes,
            tick: 0,
            spent: false,
        })
    }

    /// Steps one tick: each lane whose turn may do anything takes it through the gate, and when all are back, what they
    /// posted is delivered. In a tick without such a lane nothing is done, and no memory is taken. It answers true; where
    /// all ticks were stepped, false, and then nothing is changed.
    ///
    /// After `OutOfMemory` the stepper is spent: each later call answers `Spent`, and changes nothing.
    pub fn tick<R: Threads + Wait + Sync, G: Gate>(
        &mut self,
        rt: &R,
        gate: &G,
    ) -> Result<bool, StepFault>
        ensures ticked { result ≡ Ok true → self.new ≡ record { script = self.old.script; lanes = ticked self.old.script self.old.tick self.old.lanes; tick = self.old.tick + 1; spent = false } }
        ensures before { result ≡ Ok true → self.old.tick < self.old.script.ticks }
        ensures over { result ≡ Ok false → self.new ≡ self.old }
        ensures last { self.old.spent ≡ false → ((result ≡ Ok false) ↔ (self.old.tick ≡ self.old.script.ticks)) }
        ensures lanes { OnOk result (self.new.lanes ≡ lanes_at self.new.script self.new.tick) }
        ensures script { self.new.script ≡ self.old.script }
        ensures spent { (result ≡ Err StepFault.Spent) ↔ IsTrue self.old.spent }
        ensures memory { result ≡ Err StepFault.OutOfMemory → IsTrue self.new.spent }
        ensures stays { result ≡ Err StepFault.Spent → self.new ≡ self.old }
        ensures faults { (result ≢ Err StepFault.Workers) × (result ≢ Err StepFault.Table) }
    {
        if self.spent {
            return Err(StepFault::Spent);
        }
        if self.tick == self.script.ticks() {
            return Ok(false);
        }
        self.step(rt, gate)?;
        Ok(true)
    }

    /// Steps all ticks that are left. Workers start once, and stay until the last tick. After `OutOfMemory` the stepper is spent,
    /// as after `tick`.
    pub fn run<R: Threads + Wait + Sync, G: Gate>(
        &mut self,
        rt: &R,
        gate: &G,
    ) -> Result<(), StepFault>
        ensures ran { OnOk result (self.new ≡ record { script = self.old.script; lanes = lanes_at self.old.script self.old.script.ticks; tick = self.old.script.ticks; spent = false }) }
        ensures script { self.new.script ≡ self.old.script }
        ensures spent { (result ≡ Err StepFault.Spent) ↔ IsTrue self.old.spent }
        ensures memory { result ≡ Err StepFault.OutOfMemory → IsTrue self.new.spent }
        ensures stays { result ≡ Err StepFault.Spent → self.new ≡ self.old }
        ensures faults { (result ≢ Err StepFault.Workers) × (result ≢ Err StepFault.Table) }
    {
        if self.spent {
            return Err(StepFault::Spent);
        }
        self.run_left(rt, gate)?;
        Ok(())
    }

    /// Steps all ticks that are left, with workers that stay for all of them, and is spent where memory was refused.
    fn run_left<R: Threads + Wait + Sync, G: Gate>(
        &mut self,
        rt: &R,
        gate: &G,
    ) -> Result<(), OutOfMemory>
        requires unspent { self.old.spent ≡ false }
        ensures ran { OnOk result (self.new ≡ record { script = self.old.script; lanes = lanes_at self.old.script self.old.script.ticks; tick = self.old.script.ticks; spent = false }) }
        ensures script { self.new.script ≡ self.old.script }
        ensures memory { OnErr result (IsTrue self.new.spent) }
    {
        let lanes = self.hand_out();
        let lanes = run_ticks::<Brand, R, G>(
            rt,
            self.alloc,
            gate,
            &self.script,
            &self.crew,
            self.tick,
            lanes,
        )?;
        self.take_back(lanes);
        Ok(())
    }

    /// The lanes, handed out; the stepper is spent while they are out.
    fn hand_out(&mut self) -> Vec<Resting>
        requires unspent { self.old.spent ≡ false }
        ensures lanes { AreAt self.old.script self.old.tick result.items }
        ensures out { (self.new.script ≡ self.old.script) × (self.new.tick ≡ self.old.tick) × (self.new.spent ≡ true) }
    {
        self.spent = true;
        mem::replace(&mut self.lanes, Vec::new(self.alloc))
    }

    /// Takes the lanes back after the last tick.
    fn take_back(&mut self, lanes: Vec<Resting>)
        requires lanes { AreAt self.old.script self.old.script.ticks lanes.items }
        ensures { self.new ≡ record { script = self.old.script; lanes = lanes_at self.old.script self.old.script.ticks; tick = self.old.script.ticks; spent = false } }
    {
        let last = self.script.ticks();
        self.lanes = lanes;
        self.tick = last;
        self.spent = false;
    }

    /// Steps one tick of those that are left, and is spent where memory was refused.
    fn step<R: Threads + Wait + Sync, G: Gate>(
        &mut self,
        rt: &R,
        gate: &G,
    ) -> Result<(), OutOfMemory>
        requires unspent { self.old.spent ≡ false }
        requires left { self.old.tick < self.old.script.ticks }
        ensures stepped { OnOk result (self.new ≡ record { script = self.old.script; lanes = lanes_at self.old.script (self.old.tick + 1); tick = self.old.tick + 1; spent = false }) }
        ensures script { self.new.script ≡ self.old.script }
        ensures memory { OnErr result (IsTrue self.new.spent) }
    {
        let Some(lanes) = self.begin() else {
            return Ok(());
        };
        let lanes = run_tick(
            rt,
            self.alloc,
            gate,
            &self.script,
            self.tick,
            &self.crew,
            lanes,
        )?;
        self.end(lanes);
        Ok(())
    }

    /// The lanes of the next tick of those that are left, handed out; the stepper is spent while they are out. None where no turn
    /// comes in it: then it is stepped.
    fn begin(&mut self) -> Option<Vec<Resting>>
        requires unspent { self.old.spent ≡ false }
        requires left { self.old.tick < self.old.script.ticks }
        ensures stepped { result ≡ None → self.new ≡ record { script = self.old.script; lanes = lanes_at self.old.script (self.old.tick + 1); tick = self.old.tick + 1; spent = false } }
        ensures lanes { IfSome result (λ lanes. AreAt self.old.script self.old.tick lanes.items) }
        ensures low { IsSome result → self.old.tick < most_ticks }
        ensures out { IsSome result → (self.new.script ≡ self.old.script) × (self.new.tick ≡ self.old.tick) × (self.new.spent ≡ true) }
    {
        let _most = self.script.ticks();
        if !any_due(self.lanes.as_slice(), self.tick) {
            self.tick += 1;
            return None;
        }
        self.spent = true;
        Some(mem::replace(&mut self.lanes, Vec::new(self.alloc)))
    }

    /// Takes the lanes back after the tick.
    fn end(&mut self, lanes: Vec<Resting>)
        requires left { self.old.tick < self.old.script.ticks }
        requires lanes { AreAt self.old.script (self.old.tick + 1) lanes.items }
        ensures { self.new ≡ record { script = self.old.script; lanes = lanes_at self.old.script (self.old.tick + 1); tick = self.old.tick + 1; spent = false } }
    {
        let _most = self.script.ticks();
        self.lanes = lanes;
        self.tick += 1;
        self.spent = false;
    }

    /// Steps all ticks that are left, as `run` does: the caller takes each turn itself, and needs no handle for it.
    pub fn run_alone(&mut self) -> Result<(), StepFault>
        ensures ran { OnOk result (self.new ≡ record { script = self.old.script; lanes = lanes_at self.old.script self.old.script.ticks; tick = self.old.script.ticks; spent = false }) }
        ensures script { self.new.script ≡ self.old.script }
        ensures spent { (result ≡ Err StepFault.Spent) ↔ IsTrue self.old.spent }
        ensures memory { result ≡ Err StepFault.OutOfMemory → IsTrue self.new.spent }
        ensures stays { result ≡ Err StepFault.Spent → self.new ≡ self.old }
        ensures faults { (result ≢ Err StepFault.Workers) × (result ≢ Err StepFault.Table) }
    {
        if self.spent {
            return Err(StepFault::Spent);
        }
        for _tick in self.tick..self.script.ticks() {
            self.step_alone()?;
        }
        Ok(())
    }

    /// Steps one tick of those that are left, by the caller, and is spent where memory was refused.
    fn step_alone(&mut self) -> Result<(), OutOfMemory>
        requires unspent { self.old.spent ≡ false }
        requires left { self.old.tick < self.old.script.ticks }
        ensures stepped { OnOk result (self.new ≡ record { script = self.old.script; lanes = lanes_at self.old.script (self.old.tick + 1); tick = self.old.tick + 1; spent = false }) }
        ensures script { self.new.script ≡ self.old.script }
        ensures memory { OnErr result (IsTrue self.new.spent) }
    {
        let Some(lanes) = self.begin() else {
            return Ok(());
        };
        let lanes = run_tick_alone(self.alloc, &self.script, self.tick, lanes)?;
        self.end(lanes);
        Ok(())
    }

    /// What a lane wrote in the ticks that were stepped. Its only refusal is `Spent`.
    pub fn trace(&self, lane: u32) -> Result<&[Line], StepFault>
        requires { lane < length self.now.script.lanes }
        ensures trace { IfOk result (λ lines. option_map (λ l. l.trace) (slice_get self.now.lanes lane) ≡ Some lines.now) }
        ensures spent { (result ≡ Err StepFault.Spent) ↔ IsTrue self.now.spent }
        ensures faults { IfErr result (λ fault. fault ≡ StepFault.Spent) }
    {
        if self.spent {
            return Err(StepFault::Spent);
        }
        Ok(self.lanes[lane as usize].lane.trace())
    }
}
