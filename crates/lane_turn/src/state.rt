//! A lane between its turns, by its public calls: turn, deliver, hand over, take over, the next tick. Each goes on to a call of `Lane`.
ghost use Rattle.std.specs.Prelude.{◌≡◌, ℕ, ◌+◌, ◌*◌, ◌^◌, ◌<◌, ◌≤◌, ◌++◌, ◌↔◌, ◌≢◌, [], false, length, IsTrue, IsOk, OnOk, IfOk, IfSome, OnErr, Some, None, Ok, Err, is_some, option_map, reverse};
ghost use Rattle.loop_script.specs.Bounds.{tick_end};
ghost use Rattle.lane_turn.specs.Step.{step};
ghost use Rattle.lane_turn.specs.Lane.{context_at, standings};
ghost use Rattle.std.specs.Option.{option_copied};
ghost use Rattle.lane_turn.specs.Turn.{begun_with, begun_polled, finished, stepped, turned, out_of, opening};
ghost use Rattle.lane_turn.specs.Deliver.{received_all};
ghost use Rattle.lane_turn.specs.Handover.{handed_of, without_context, taken_over};
ghost use Rattle.lane_turn.specs.Quiet.{at_tick, IsQuietUntil};
ghost use Rattle.lane_watch.specs.Watch.{GivesNothing};
ghost use Rattle.lane_turn.specs.Meaning.{lane_of, turn_at, IsTurnOf};
ghost use Rattle.lane_turn.specs.Sound.{IsReady, IsGoing};
ghost use Rattle.lane_turn.specs.Limits.{half_count, most_letters, most_steps, turn_growth};

use crate::handover::Held;
use crate::in_progress::InProgress;
use crate::lane::{Lane, Status};
use crate::line::Line;
use crate::start::boxed_lane;
use crate::turn::Turn;
use crate::wakes::{sooner_turn, tick_of};
use cancel_view::View;
use loop_script::Script;
use post_office::{Letter, Numbered, Post};
use std::alloc::{AllocError, Global};
use std::marker::Model;
use thiserror::Error;

/// Why a call of a lane was refused.
#[derive(Clone, Copy, Debug, PartialEq, Eq, Error)]
pub enum LaneFault {
    /// An earlier call was refused memory, so the lane is not that of any turn.
    #[error("spent")]
    Spent,
    /// A request for memory was refused.
    #[error("memory")]
    OutOfMemory,
}

impl From<AllocError> for LaneFault {
    ghost use Rattle.std.specs.Prelude.{◌≡◌};
    ghost use Rattle.lane_turn.specs.declared.state.LaneFault.TheVariants.{OutOfMemory};

    ghost from_gives = { λ _ e. e ≡ OutOfMemory };

    fn from(_: AllocError) -> LaneFault {
        LaneFault::OutOfMemory
    }
}

/// Why a context was not handed over, or not taken over.
#[derive(Clone, Copy, Debug, PartialEq, Eq, Error)]
pub enum HandFault {
    /// An earlier call was refused memory, so the lane is not that of any turn.
    #[error("spent")]
    Spent,
    /// The lane gave no context of that number.
    #[error("not given")]
    NotGiven,
    /// A request for memory was refused.
    #[error("memory")]
    OutOfMemory,
}

/// A lane of a script: its contexts, its loops, and what it is in the middle of. Contracts see the lane of the
/// definition, and whether it is spent.
#[derive(Drop)]
pub struct LaneState {
    pub(crate) alloc: Global,
    /// In a box, so that a lane that is handed on is not copied.
    pub(crate) lane: Box<Lane>,
    spent: bool,
}

impl Model for LaneState {
    ghost use Rattle.lane_turn.specs.Lane.{State};
    ghost use Rattle.std.specs.Coded.{codes};
    ghost use Rattle.loop_script.specs.contracts.tree.TaskTree as task_tree;
    ghost use Rattle.lane_turn.specs.Meaning.{lane_of};

    ghost Value = { State };

    ghost coded = { Prim.hlevel (codes, task_tree.the_row.coded) };

    ghost view = { λ s. record { lane = lane_of s.lane.value; spent = s.spent } };
}

impl LaneState {
    /// A lane of a script that holds its start call.
    pub fn new(alloc: Global, script: &Script, lane: u32) -> Result<Self, LaneFault>
        ensures opening { IfOk result (λ s. s ≡ record { lane = opening script.now lane; spent = false }) }
        ensures ready { IfOk result (λ s. IsReady script.now 0 1 s.lane) }
        ensures memory { result ≢ Err LaneFault.Spent }
    {
        match boxed_lane(alloc, script, lane) {
            Err(_) => Err(LaneFault::OutOfMemory),
            Ok(lane) => Ok(LaneState {
                alloc,
                lane,
                spent: false,
            }),
        }
    }

    /// Begins the lane's turn at a tick: its tasks are polled, which are as many steps of the turn. What it sends goes to
    /// `post`. It answers the turn, for `step`. Where the lane has no task, that takes no memory.
    ///
    /// After `OutOfMemory` the lane is spent, as after `turn`.
    pub fn begin_turn<P: Post>(
        &mut self,
        script: &Script,
        tick: u32,
        post: &mut P,
    ) -> Result<Turn, LaneFault>
        requires ready { self.old.spent ≡ false → IsReady script.now tick half_count self.old.lane }
        requires tick { tick < tick_end }
        ensures polled { IfOk result (λ turn. turn_at self.new.lane turn (P.letters post.new) ≡ begun_polled script.now tick (P.letters post.old) self.old.lane) }
        ensures going { (m : ℕ) → IsReady script.now tick m self.old.lane → IfOk result (λ turn. IsGoing script.now tick (m + turn_growth) (turn_at self.new.lane turn (P.letters post.new))) }
        ensures leads { IfOk result (λ turn. finished script.now tick (turn_at self.new.lane turn (P.letters post.new)) ≡ finished script.now tick (begun_with tick (P.letters post.old) self.old.lane)) }
        ensures own { IfOk result (λ turn. IsTurnOf self.new.lane turn) }
        ensures status { OnOk result (self.new.lane.status ≡ self.old.lane.status) }
        ensures home { P.home post.new ≡ P.home post.old }
        ensures lasts { OnOk result (self.new.spent ≡ false) }
        ensures spent { (result ≡ Err LaneFault.Spent) ↔ IsTrue self.old.spent }
        ensures memory { result ≡ Err LaneFault.OutOfMemory → IsTrue self.new.spent }
        ensures stays { result ≡ Err LaneFault.Spent → self.new ≡ self.old }
        ensures none { self.old.spent ≡ false → self.old.lane.tasks.started ≡ [] → IsOk result }
    {
        if self.spent {
            return Err(LaneFault::Spent);
        }
        self.spent = true;
        match self.lane.begin_turn(self.alloc, script, tick, post) {
            Err(_) => Err(LaneFault::OutOfMemory),
            Ok(progress) => {
                self.spent = false;
                let lane = self.lane.number;
                Ok(Turn { lane, progress })
            }
        }
    }

    /// Takes the next step of a turn that `begin_turn` began, with its script, tick and post. It answers false, and changes
    /// nothing, where no step is left: the lane rests, has ended or is halted.
    ///
    /// After `OutOfMemory` the lane is spent, as after `turn`.
    pub fn step<P: Post>(
        &mut self,
        script: &Script,
        tick: u32,
        turn: &mut Turn,
        post: &mut P,
    ) -> Result<bool, LaneFault>
        requires own { self.old.spent ≡ false → IsTurnOf self.old.lane turn.old }
        requires going { self.old.spent ≡ false → IsGoing script.now tick (half_count + turn_growth) (turn_at self.old.lane turn.old (P.letters post.old)) }
        requires tick { tick < tick_end }
        ensures own { OnOk result (IsTurnOf self.new.lane turn.new) }
        ensures more { IfOk result (λ more. more ≡ is_some (step script.now tick (turn_at self.old.lane turn.old (P.letters post.old)))) }
        ensures next { OnOk result (turn_at self.new.lane turn.new (P.letters post.new) ≡ stepped script.now tick (turn_at self.old.lane turn.old (P.letters post.old))) }
        ensures going { (m : ℕ) → IsGoing script.now tick m (turn_at self.old.lane turn.old (P.letters post.old)) → OnOk result (IsGoing script.now tick m (turn_at self.new.lane turn.new (P.letters post.new))) }
        ensures leads { OnOk result (finished script.now tick (turn_at self.new.lane turn.new (P.letters post.new)) ≡ finished script.now tick (turn_at self.old.lane turn.old (P.letters post.old))) }
        ensures over { result ≡ Ok false → finished script.now tick (turn_at self.old.lane turn.old (P.letters post.old)) ≡ turn_at self.new.lane turn.new (P.letters post.new) }
        ensures home { P.home post.new ≡ P.home post.old }
        ensures lasts { OnOk result (self.new.spent ≡ false) }
        ensures spent { (result ≡ Err LaneFault.Spent) ↔ IsTrue self.old.spent }
        ensures memory { result ≡ Err LaneFault.OutOfMemory → IsTrue self.new.spent }
        ensures stays { result ≡ Err LaneFault.Spent → self.new ≡ self.old }
        ensures rests { self.old.spent ≡ false → self.old.lane.status ≢ Status.GoesOn → IsOk result }
    {
        if self.spent {
            return Err(LaneFault::Spent);
        }
        self.spent = true;
        let progress = &mut turn.progress;
        match self.lane.step(self.alloc, script, tick, progress, post) {
            Err(_) => Err(LaneFault::OutOfMemory),
            Ok(more) => {
                self.spent = false;
                Ok(more)
            }
        }
    }

    /// The lane's turn at a tick: its tasks are polled, and unless it has ended or is halted its steps are taken. What it
    /// sends goes to `post`. Turns come at each tick from 0 on, each with the script of `new`, and after each the delivery
    /// of the tick's letters; ticks before the one that `next_tick` answers may be passed over, by `pass_to`. The turn of a
    /// lane that has ended or is halted, and has no task, takes no memory.
    ///
    /// After `OutOfMemory` the lane is spent: each later call answers `Spent`, and nothing is promised of its trace, nor of
    /// the letters that `post` took in this call.
    pub fn turn<P: Post>(
        &mut self,
        script: &Script,
        tick: u32,
        post: &mut P,
    ) -> Result<(), LaneFault>
        requires ready { self.old.spent ≡ false → IsReady script.now tick half_count self.old.lane }
        requires tick { tick < tick_end }
        ensures turned { OnOk result (self.new.lane ≡ turned script.now tick self.old.lane) }
        ensures letters { OnOk result (P.letters post.new ≡ P.letters post.old ++ out_of script.now tick self.old.lane) }
        ensures home { P.home post.new ≡ P.home post.old }
        ensures ready { (m : ℕ) → IsReady script.now tick m self.old.lane → OnOk result (IsReady script.now (tick + 1) (m + turn_growth) self.new.lane) }
        ensures few { OnOk result (length (out_of script.now tick self.old.lane) ≤ most_steps * (tick + 1)) }
        ensures lasts { OnOk result (self.new.spent ≡ false) }
        ensures spent { (result ≡ Err LaneFault.Spent) ↔ IsTrue self.old.spent }
        ensures memory { result ≡ Err LaneFault.OutOfMemory → IsTrue self.new.spent }
        ensures stays { result ≡ Err LaneFault.Spent → self.new ≡ self.old }
        ensures rests { self.old.spent ≡ false → self.old.lane.status ≢ Status.GoesOn → self.old.lane.tasks.started ≡ [] → IsOk result }
    {
        let mut turn = self.begin_turn(script, tick, post)?;
        'steps: loop {
            if !self.step(script, tick, &mut turn, post)? {
                break;
            }
        }
        Ok(())
    }

    /// Delivers the letters of a tick, in order, once after its turn: replies and invoked procedures for the lane's contexts are
    /// attached, and cancellations that it has not seen are seen, with their handlers. It sends nothing.
    ///
    /// After `OutOfMemory` the lane is spent, as after `turn`.
    pub fn deliver(
        &mut self,
        script: &Script,
        tick: u32,
        letters: &[Letter],
    ) -> Result<(), LaneFault>
        requires ready { self.old.spent ≡ false → IsReady script.now (tick + 1) half_count self.old.lane }
        requires few { length letters.now ≤ most_letters }
        ensures delivered { OnOk result (self.new.lane ≡ received_all script.now tick letters.now self.old.lane) }
        ensures ready { (m : ℕ) → IsReady script.now (tick + 1) m self.old.lane → OnOk result (IsReady script.now (tick + 1) (m + 2 * length letters.now) self.new.lane) }
        ensures lasts { OnOk result (self.new.spent ≡ false) }
        ensures spent { (result ≡ Err LaneFault.Spent) ↔ IsTrue self.old.spent }
        ensures memory { result ≡ Err LaneFault.OutOfMemory → IsTrue self.new.spent }
        ensures stays { result ≡ Err LaneFault.Spent → self.new ≡ self.old }
        ensures nothing { self.old.spent ≡ false → letters.now ≡ [] → IsOk result }
    {
        if self.spent {
            return Err(LaneFault::Spent);
        }
        self.spent = true;
        match self.lane.take_letters(self.alloc, script, tick, letters) {
            Err(_) => Err(LaneFault::OutOfMemory),
            Ok(()) => {
                self.spent = false;
                Ok(())
            }
        }
    }

    /// The first tick after one at which the lane's turn may do anything, as long as no letter reaches it: each turn between
    /// them would write nothing, send nothing, and leave the lane as it was. None where no later turn of the script would
    /// do anything. The tick is that of the last turn, whose letters were delivered. It takes no memory.
    ///
    /// Ticks that are passed over are told to the lane by `pass_to`.
    pub fn next_tick(&self, script: &Script, tick: u32) -> Option<u32>
        requires ready { self.now.spent ≡ false → IsReady script.now (tick + 1) half_count self.now.lane }
        requires tick { tick < tick_end }
        ensures later { IfSome result (λ next. tick < next) }
        ensures within { IfSome result (λ next. next < script.now.ticks) }
        ensures quiet { self.now.spent ≡ false → IsQuietUntil script.now tick result self.now.lane }
    {
        if self.spent {
            return None;
        }
        let from = tick + 1;
        let wake = sooner_turn(
            self.lane.watch.next_wake(),
            self.lane.step_wake(script, from),
        );
        tick_of(wake, from, script.ticks())
    }

    /// Passes over the ticks before one, in which the lane's tasks tell nothing: its turn comes at that tick, or, where
    /// that is the tick after one whose letters are delivered, its delivery.
    ///
    /// After `OutOfMemory` the lane is spent, as after `turn`.
    pub fn pass_to(&mut self, tick: u32) -> Result<(), LaneFault>
        requires tick { tick < tick_end }
        requires past { self.old.spent ≡ false → self.old.lane.tasks.tick ≤ tick }
        requires nothing { self.old.spent ≡ false → (k : ℕ) → self.old.lane.tasks.tick ≤ k → k < tick → GivesNothing k self.old.lane.tasks }
        ensures passed { OnOk result (self.new.lane ≡ at_tick tick self.old.lane) }
        ensures lasts { OnOk result (self.new.spent ≡ false) }
        ensures spent { (result ≡ Err LaneFault.Spent) ↔ IsTrue self.old.spent }
        ensures memory { result ≡ Err LaneFault.OutOfMemory → IsTrue self.new.spent }
        ensures stays { result ≡ Err LaneFault.Spent → self.new ≡ self.old }
        ensures rests { self.old.spent ≡ false → self.old.lane.tasks.started ≡ [] → IsOk result }
    {
        if self.spent {
            return Err(LaneFault::Spent);
        }
        self.spent = true;
        if self.lane.watch.pass_to(self.alloc, tick).is_err() {
            return Err(LaneFault::OutOfMemory);
        }
        self.spent = false;
        Ok(())
    }

    /// Hands over a context that the lane gave in the tick's turn, as it stands: it is the lane's no more. `NotGiven` comes, and
    /// nothing is changed, where the lane gave no context of that number. It takes no memory.
    pub fn hand_over(&mut self, context: u32) -> Result<Held, HandFault>
        ensures handed { IfOk result (λ held. handed_of context self.old.lane ≡ Some held) }
        ensures left { OnOk result (self.new.lane ≡ without_context context self.old.lane) }
        ensures lasts { OnOk result (self.new.spent ≡ false) }
        ensures fault { OnErr result (self.new ≡ self.old) }
        ensures none { result ≡ Err HandFault.NotGiven → handed_of context self.old.lane ≡ None }
        ensures spent { (result ≡ Err HandFault.Spent) ↔ IsTrue self.old.spent }
        ensures memory { result ≢ Err HandFault.OutOfMemory }
    {
        if self.spent {
            return Err(HandFault::Spent);
        }
        match self.lane.hand_over(self.alloc, context) {
            None => Err(HandFault::NotGiven),
            Some(held) => Ok(held),
        }
    }

    /// Takes over a context that another lane handed over in a tick, and writes so.
    ///
    /// After `OutOfMemory` the lane is spent, as after `turn`.
    pub fn take_over(&mut self, tick: u32, held: Held) -> Result<(), HandFault>
        ensures taken { OnOk result (self.new.lane ≡ taken_over tick held self.old.lane) }
        ensures lasts { OnOk result (self.new.spent ≡ false) }
        ensures spent { (result ≡ Err HandFault.Spent) ↔ IsTrue self.old.spent }
        ensures memory { result ≡ Err HandFault.OutOfMemory → IsTrue self.new.spent }
        ensures stays { result ≡ Err HandFault.Spent → self.new ≡ self.old }
        ensures never { result ≢ Err HandFault.NotGiven }
    {
        if self.spent {
            return Err(HandFault::Spent);
        }
        self.spent = true;
        match self.lane.take_over(tick, held) {
            Err(_) => Err(HandFault::OutOfMemory),
            Ok(()) => {
                self.spent = false;
                Ok(())
            }
        }
    }
}

impl Numbered for LaneState {
    ghost number_of = { λ s. s.lane.number };

    /// The number of the lane.
    fn number(&self) -> u32 {
        self.lane.number
    }
}
