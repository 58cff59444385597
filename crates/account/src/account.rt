//! The account of a run, by its public calls: it is opened over a script, told for its next moment, and shows each lane as it is then.
ghost use Rattle.std.specs.Prelude.{◌≡◌, ◌+◌, ◌<◌, ◌≤◌, ◌↔◌, false, length, slice_get, option_map, IsTrue, OnOk, OnErr, IfOk, IfSome, IsSome, None, Ok, Err};
ghost use Rattle.std.specs.Option.{option_copied};
ghost use Rattle.loop_script.specs.Bounds.{most_lanes};
ghost use Rattle.lane_turn.specs.Tick.{opened, lanes_at};
ghost use Rattle.tick_stepper.specs.Account.{started, lanes_in, end_of};
ghost use Rattle.account.specs.Told.{HasGone, HasPassed};
ghost use Rattle.account.specs.Standing.{place_of, AreUnspent};
ghost use Rattle.tick_stepper.specs.Share.{lanes_in as lanes_of};

use crate::fault::AccountFault;
use crate::going::{Going, Phase};
use crate::moment::Moment;
use lane_turn::LaneState;
use loop_script::Script;
use std::alloc::Global;
use std::marker::Model;
use tick_stepper::OutOfMemory;

/// A run of a script on one thread, one moment after another. Contracts see the script, the tick in progress, where in it the
/// run is, and whether the account is spent.
#[derive(Drop)]
pub struct Account {
    alloc: Global,
    script: Script,
    going: Going,
    tick: u32,
    spent: bool,
}

impl Model for Account {
    ghost use Rattle.std.specs.Prelude.{◌≡◌, ◌≤◌, false, length};
    ghost use Rattle.std.specs.Coded.{codes};
    ghost use Rattle.loop_script.specs.contracts.tree.TaskTree as task_tree;
    ghost use Rattle.loop_script.specs.Bounds.{most_lanes};
    ghost use Rattle.account.specs.Course.{Course};
    ghost use Rattle.account.specs.Standing.{place_of, IsCurrent};

    ghost Value = { Course };

    ghost coded = { Prim.hlevel (codes, task_tree.the_row.coded) };

    ghost view = { λ s. record { script = s.script; tick = s.tick; place = place_of s.going; spent = s.spent } };

    ghost invariant = { λ s. (s.tick ≤ s.script.ticks) × (length s.script.lanes ≤ most_lanes) × (s.spent ≡ false → IsCurrent s.script s.tick s.going) };
}

/// The lanes of a script before their first turn, with which its account begins.
fn open(alloc: Global, script: &Script) -> Result<Vec<LaneState>, OutOfMemory>
    ensures lanes { IfOk result (λ lanes. lanes_of lanes.items ≡ opened script.now) }
    ensures unspent { IfOk result (λ lanes. AreUnspent lanes.items) }
    ensures few { length script.now.lanes ≤ most_lanes }
{
    let mut lanes = Vec::new(alloc);
    for number in 0..script.lanes() {
        let lane = LaneState::new(alloc, script, number)?;
        if lanes.push(lane).is_err() {
            return Err(OutOfMemory);
        }
    }
    Ok(lanes)
}

impl Account {
    /// A run before its first moment.
    pub fn new(alloc: Global, script: Script) -> Result<Account, AccountFault>
        ensures started { IfOk result (λ account. account ≡ record { script = script; tick = 0; place = started (opened script); spent = false }) }
        ensures memory { OnErr result (result ≡ Err AccountFault.OutOfMemory) }
    {
        let lanes = open(alloc, &script)?;
        let going = Going {
            lanes,
            letters: Vec::new(alloc),
            phase: Phase::Turning(0),
            begun: None,
        };
        Ok(Account {
            alloc,
            script,
            going,
            tick: 0,
            spent: false,
        })
    }

    /// Goes on by one move of the run, and tells what it was; None where the run is over, and then no lane is changed.
    ///
    /// After `OutOfMemory` the account is spent: each later call answers `Spent`, and changes nothing.
    pub fn next(&mut self) -> Result<Option<Moment>, AccountFault>
        ensures gone { IfOk result (λ found. IfSome found (HasGone self.old self.new)) }
        ensures passed { result ≡ Ok None → HasPassed self.old self.new }
        ensures leads { OnOk result (end_of self.new.script self.new.tick self.new.place ≡ lanes_at self.new.script (self.new.tick + 1)) }
        ensures over { result ≡ Ok None → self.new.tick ≡ self.new.script.ticks }
        ensures ran { result ≡ Ok None → lanes_in self.new.place ≡ lanes_at self.new.script self.new.script.ticks }
        ensures script { self.new.script ≡ self.old.script }
        ensures lasts { OnOk result (self.new.spent ≡ false) }
        ensures spent { (result ≡ Err AccountFault.Spent) ↔ IsTrue self.old.spent }
        ensures memory { result ≡ Err AccountFault.OutOfMemory → IsTrue self.new.spent }
        ensures stays { result ≡ Err AccountFault.Spent → self.new ≡ self.old }
    {
        if self.spent {
            return Err(AccountFault::Spent);
        }
        for _tick in self.tick..self.script.ticks() {
            if let Some(moment) = self.go_on()? {
                return Ok(Some(moment));
            }
        }
        Ok(None)
    }

    /// Goes on by one move of the tick in progress; where that is over, the next begins, and it answers None.
    fn go_on(&mut self) -> Result<Option<Moment>, OutOfMemory>
        requires unspent { self.old.spent ≡ false }
        requires left { self.old.tick < self.old.script.ticks }
        ensures gone { IfOk result (λ found. IfSome found (HasGone self.old self.new)) }
        ensures passed { result ≡ Ok None → HasPassed self.old self.new }
        ensures leads { OnOk result (end_of self.new.script self.new.tick self.new.place ≡ lanes_at self.new.script (self.new.tick + 1)) }
        ensures tick { IfOk result (λ moment. IsSome moment → self.new.tick ≡ self.old.tick) }
        ensures over { result ≡ Ok None → self.new.tick ≡ self.old.tick + 1 }
        ensures begins { result ≡ Ok None → self.new.place ≡ started (lanes_at self.new.script self.new.tick) }
        ensures script { self.new.script ≡ self.old.script }
        ensures lasts { OnOk result (self.new.spent ≡ false) }
        ensures memory { OnErr result (IsTrue self.new.spent) }
    {
        let _most = self.script.ticks();
        self.spent = true;
        let Some(moment) = self.going.next(self.alloc, &self.script, self.tick)? else {
            self.going.begin_tick();
            self.tick += 1;
            self.spent = false;
            return Ok(None);
        };
        self.spent = false;
        Ok(Some(moment))
    }

    /// The script of the run.
    pub fn script(&self) -> &Script
        ensures { result.now ≡ self.now.script }
    {
        &self.script
    }

    /// The tick in progress. When the run is over it is the number of ticks of the script.
    pub fn tick(&self) -> u32
        ensures tick { result ≡ self.now.tick }
        ensures most { result ≤ self.now.script.ticks }
    {
        self.tick
    }

    /// The lane of a number, as it stands now; None where the script has none. Of a spent account nothing is promised.
    pub fn lane(&self, number: u32) -> Option<&LaneState>
        ensures lane { self.now.spent ≡ false → option_map (λ s. s.lane) (option_copied result) ≡ slice_get (lanes_in self.now.place) number }
        ensures unspent { self.now.spent ≡ false → IfSome result (λ s. s.now.spent ≡ false) }
    {
        self.going.lanes.get(number as usize)
    }
}
