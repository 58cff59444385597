//! The run of a task's body, which looks at its tree as seldom as it may.
ghost use Rattle.std.specs.Prelude.{◌≡◌, ◌<◌, ◌≤◌, None, Some, is_some, IfOk, IfSome, IsTrue, ◌↔◌};
ghost use Rattle.loop_script.specs.Course.{IsCourse};
ghost use Rattle.task_steps.specs.Progress.{IsPending, tick_of};

use crate::ahead::{progress_by, progress_cancelled};
use crate::noted::Noted;
use crate::progress::{Moment, Progress, progress_of};
use crate::stage::{Stage, clear_to, seen_from, set_to};
use loop_script::{Course, Outcome, TaskTree};
use std::alloc::AllocError;
use std::marker::Model;

/// A body in progress. It shares its tree with the script, and nothing else that it keeps grows with that.
#[derive(Drop)]
pub(crate) struct Body {
    tree: TaskTree,
    tick_us: u32,
    stage: Stage,
    clear: Option<u32>,
    cancelled: Option<u32>,
    /// What the last poll found, of a body that went on.
    noted: Noted,
}

impl Model for Body {
    ghost use Rattle.task_steps.specs.Run.{Run};

    ghost Value = { Run };

    ghost use Rattle.std.specs.Coded.{codes};
    ghost use Rattle.loop_script.specs.Tree.{tree_code};
    ghost use Rattle.task_steps.specs.contracts.stage.Stage as stages;

    ghost coded = { Prim.hlevel (codes, tree_code, stages.the_row.coded) };

    ghost use Rattle.task_steps.specs.RunInside.{IsHeld, wake_noted};
    ghost use Rattle.task_steps.specs.Noted.{noted_of};

    ghost view = { λ b. record { tree = b.tree; tick_us = b.tick_us; stage = b.stage; clear = b.clear; cancelled = b.cancelled; wake = wake_noted (noted_of b.noted) } };

    ghost invariant = { λ b. IsHeld b.tick_us b.tree b.clear b.cancelled b.stage (noted_of b.noted) };
}

impl Body {
    ghost use Rattle.loop_script.specs.Bounds.{longest_tick};
    ghost use Rattle.task_steps.specs.Run.{MaySet, StaysSet, IsSet, Answered, WakesLater, NoneBefore, MayPass, stage_to, clear_passed, set_to, seen_from, clear_to, stage_after};
    ghost use Rattle.task_steps.specs.RunInside.{Holds, KeepsLeast, IsLeastAfter, wake_in};
    ghost use Rattle.task_steps.specs.declared.stage.Stage.TheVariants.{Fresh, Set, Done};

    /// A body that no poll has begun; a tick is so many microseconds long. It is refused only where a part of the tree has
    /// more sharers than can be counted.
    pub(crate) fn new(tree: &TaskTree, tick_us: u64) -> Result<Body, AllocError>
        requires some { 0 < tick_us }
        requires short { tick_us ≤ longest_tick }
        ensures { IfOk result (λ b. b ≡ record { tree = tree.now; tick_us = tick_us; stage = Fresh; clear = None; cancelled = None; wake = None }) }
    {
        Ok(Body {
            tree: tree.share()?,
            tick_us: tick_us as u32,
            stage: Stage::Fresh,
            clear: None,
            cancelled: None,
            noted: Noted::Nothing,
        })
    }

    /// Says in which tick the next poll is, and whether the task's cancellable is seen as cancelled in it.
    pub(crate) fn set_tick(&mut self, tick: u32, cancelled: bool)
        requires rising { MaySet tick self.old.stage self.old.wake }
        requires stays { StaysSet self.old.cancelled cancelled }
        ensures set { self.new ≡ record self.old { stage = set_to tick self.old.stage; clear = clear_to tick cancelled self.old.clear; cancelled = seen_from tick cancelled self.old.cancelled } }
        ensures least { KeepsLeast self.old → KeepsLeast self.new }
    {
        self.stage = set_to(self.stage, tick);
        self.clear = clear_to(tick, cancelled, self.clear);
        self.cancelled = seen_from(tick, cancelled, self.cancelled);
    }

    /// Notes a tick before its wake as one in which a poll would have seen it as not cancelled and found it pending, in place
    /// of that poll. One that no poll has begun stays as it is.
    pub(crate) fn pass_to(&mut self, tick: u32)
        requires { MayPass tick self.old.cancelled self.old.wake self.old.stage }
        ensures { self.new ≡ record self.old { stage = stage_to tick self.old.stage; clear = clear_passed tick self.old.stage self.old.clear } }
    {
        if let Stage::Polled { begun, .. } = self.stage {
            self.stage = Stage::Polled { begun, tick };
            self.clear = Some(tick);
        }
    }

    /// Whether a tick was set as cancelled.
    pub(crate) fn was_cancelled(&self) -> bool
        ensures { result ≡ is_some self.now.cancelled }
    {
        self.cancelled.is_some()
    }

    /// Whether no tick was set.
    pub(crate) fn is_fresh(&self) -> bool
        ensures { IsTrue result ↔ (self.now.stage ≡ Fresh) }
    {
        matches!(self.stage, Stage::Fresh)
    }

    /// Whether the body has ended.
    pub(crate) fn is_done(&self) -> bool
        ensures { IsTrue result ↔ (self.now.stage ≡ Done) }
    {
        matches!(self.stage, Stage::Done)
    }

    /// How far it is in the tick that is set: what was noted, where that holds on, or what a look at the tree finds, which asks it no
    /// further than that tick.
    fn progress(&self, begun: u32, tick: u32) -> Progress
        requires { self.now.stage ≡ Set begun tick }
        ensures holds { Holds self.now.tick_us self.now.tree begun self.now.clear self.now.cancelled result }
        ensures pending { IsPending tick result }
        ensures least { KeepsLeast self.now → IsLeastAfter self.now.tick_us self.now.tree begun self.now.cancelled tick (Some (tick_of result)) }
    {
        match self.noted.get() {
            Some(noted) if noted.holds_on(tick) => noted,
            _ => progress_of(self.tree.root(), begun, &self.moment(tick)),
        }
    }

    /// The course of its tree, where that counts in its ticks.
    fn course(&self) -> Option<&Course>
        ensures { IfSome result (λ c. IsCourse self.now.tree c.now × (c.now.tick_us ≡ self.now.tick_us)) }
    {
        match self.tree.course() {
            Some(course) if course.tick_us == u64::from(self.tick_us) => Some(course),
            _ => None,
        }
    }

    /// How far it is, as far ahead as it is known what polls will see: to its end, or to a check of it that may be begun before that and
    /// seen as cancelled. Its tree is asked only where it is first seen as cancelled after its begin; before that, and where its first poll
    /// saw it so, its course tells.
    fn progress_ahead(&self, begun: u32, tick: u32) -> Progress
        requires { self.now.stage ≡ Set begun tick }
        ensures holds { Holds self.now.tick_us self.now.tree begun self.now.clear self.now.cancelled result }
        ensures pending { IsPending tick result }
    {
        if let Some(noted) = self.noted.get()
            && noted.holds_on(tick)
        {
            return noted;
        }
        match (self.cancelled, self.course()) {
            (None, Some(course)) => progress_by(course, begun, tick),
            (None, None) => progress_of(self.tree.root(), begun, &self.moment(tick)),
            (Some(from), Some(course)) if from <= begun => progress_cancelled(course, begun),
            (Some(_), _) => progress_of(self.tree.root(), begun, &self.moment(u32::MAX)),
        }
    }

    /// What is asked of its tree by a tick up to which it is known what polls see.
    fn moment(&self, tick: u32) -> Moment
        ensures { result ≡ record { tick = tick; tick_us = self.now.tick_us; cancelled = self.now.cancelled } }
    {
        Moment {
            tick,
            tick_us: u64::from(self.tick_us),
            cancelled: self.cancelled,
        }
    }

    /// Ends the poll of the tick that is set with what it found: the outcome, where the body ends in it, and else that is noted.
    fn go_on(&mut self, begun: u32, tick: u32, progress: Progress) -> Option<Outcome>
        requires set { self.old.stage ≡ Set begun tick }
        requires holds { Holds self.old.tick_us self.old.tree begun self.old.clear self.old.cancelled progress }
        requires pending { IsPending tick progress }
        ensures answer { Answered self.old result }
        ensures stays { self.new ≡ record self.old { stage = stage_after self.old.stage result; wake = self.new.wake } }
        ensures wakes { WakesLater self.new }
        ensures end { NoneBefore self.new self.new.wake }
        ensures least { IsLeastAfter self.old.tick_us self.old.tree begun self.old.cancelled tick (Some (tick_of progress)) → KeepsLeast self.new }
    {
        match progress.come_by(tick) {
            Some(outcome) => {
                self.stage = Stage::Done;
                self.noted = Noted::Nothing;
                Some(outcome)
            }
            None => {
                self.stage = Stage::Polled { begun, tick };
                self.noted = Noted::of(progress);
                None
            }
        }
    }

    /// The outcome, where the body ends in the tick that was set. Before its wake that costs the same however large the tree is; it
    /// wakes at the least tick at which a sleep or limit in progress ends.
    pub(crate) fn poll(&mut self) -> Option<Outcome>
        requires { IsSet self.old.stage }
        ensures answer { Answered self.old result }
        ensures stays { self.new ≡ record self.old { stage = stage_after self.old.stage result; wake = self.new.wake } }
        ensures wakes { WakesLater self.new }
        ensures end { NoneBefore self.new self.new.wake }
        ensures least { KeepsLeast self.old → KeepsLeast self.new }
    {
        match self.stage {
            Stage::Set { begun, tick } => {
                let progress = self.progress(begun, tick);
                self.go_on(begun, tick, progress)
            }
            _ => None,
        }
    }

    /// The same by a look ahead: it wakes at its end, or at a tick before that in which a check of its tree may be begun and seen as
    /// cancelled.
    pub(crate) fn poll_ahead(&mut self) -> Option<Outcome>
        requires { IsSet self.old.stage }
        ensures answer { Answered self.old result }
        ensures stays { self.new ≡ record self.old { stage = stage_after self.old.stage result; wake = self.new.wake } }
        ensures wakes { WakesLater self.new }
        ensures end { NoneBefore self.new self.new.wake }
    {
        match self.stage {
            Stage::Set { begun, tick } => {
                let progress = self.progress_ahead(begun, tick);
                self.go_on(begun, tick, progress)
            }
            _ => None,
        }
    }

    /// The wake of a body that is pending after a poll: no end that may still come is before it.
    pub(crate) fn next_wake(&self) -> Option<u64>
        ensures wake { result ≡ wake_in self.now.stage self.now.wake }
        ensures end { NoneBefore self.now self.now.wake }
    {
        match (self.stage, self.noted.get()) {
            (Stage::Polled { .. }, Some(noted)) => Some(noted.tick()),
            _ => None,
        }
    }
}
