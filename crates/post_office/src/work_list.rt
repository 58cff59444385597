//! Work that is put into a list and taken by workers, each value once: the list as its owner has it. How values are taken stands in `work_queue`.
ghost use Rattle.std.specs.Prelude.{◌≡◌, ◌∷◌, Contains, IfNone, IfOk, IfSome, IsOk, IsPermutation, MatchOption, MatchResult};
ghost use Rattle.post_office.specs.Merge.{concat};
ghost use Rattle.post_office.specs.Passes.{new_list, puts, takes_itself, takes, new_taking, lets_out, takes_in};
ghost use Rattle.post_office.specs.WorkQueue.{WasEmpty};

use crate::memory::OutOfMemory;
use crate::numbered::Numbered;
use crate::work_queue::{Out, Puts, Queue, Seat, Takes, WorkPass, WorkQueue};
use std::alloc::Global;
use std::marker::Model;
use std::sync::Wait;

/// A list of work. What it holds goes through a queue that workers share; the list keeps a pass of its own, with which it
/// puts, and takes what workers left. Contracts see what was put, what was taken by whom, and how many passes are out.
pub struct WorkList<T> {
    shared: WorkQueue<T>,
    own: Seat<T>,
}

impl<T> Model for WorkList<T> {
    ghost use Rattle.std.specs.Prelude.{◌≡◌, None};
    ghost use Rattle.post_office.specs.Passes.{WorkState};
    ghost use Rattle.post_office.specs.WorkQueue.{keeper};

    ghost Value = { WorkState T };

    ghost view = { λ l. let v = l.own.me.view.client in record { home = l.own.web; put = v.put; taken = v.taken; recorded = v.recorded; out = v.out } };

    ghost invariant = { λ l. let v = l.own.me.view.client in (v ≡ keeper v.put v.taken v.recorded v.out) × (l.own.web ≡ l.shared) × (l.own.me.hand ≡ None) × (l.own.me.spare ≡ None) };
}

impl<T: Numbered + Drop> WorkList<T> {
    /// A list with nothing in it, and with no pass out.
    pub fn new(alloc: Global) -> Result<WorkList<T>, OutOfMemory>
        ensures list { IfOk result (λ list. list ≡ new_list list.home) }
    {
        let (queue, own) = Queue::with_rule(alloc)?;
        Ok(WorkList {
            shared: WorkQueue { queue },
            own,
        })
    }

    /// Puts a value, while no pass is out. Only where memory runs out it comes back, and then nothing is changed.
    pub fn put<R: Wait>(&mut self, rt: &R, value: T) -> Result<(), T>
        requires out { self.old.out ≡ 0 }
        ensures put { MatchResult result (λ _. self.new ≡ puts self.old value) (λ back. (back ≡ value) × (self.new ≡ self.old)) }
    {
        let shared = &self.shared;
        shared.queue.push_as::<Puts, R>(rt, &mut self.own, value)
    }

    /// A pass for one worker. It takes no memory, so it is never refused.
    pub fn pass(&mut self) -> Result<WorkPass<T>, OutOfMemory>
        ensures given { IsOk result }
        ensures pass { IfOk result (λ pass. pass ≡ new_taking self.old) }
        ensures list { self.new ≡ lets_out self.old }
    {
        let shared = &self.shared;
        let seat = shared.queue.another::<Out>(&mut self.own);
        Ok(WorkPass { seat })
    }

    /// What workers share: they take from it without the list.
    pub fn queue(&self) -> &WorkQueue<T>
        ensures home { result.now ≡ self.now.home }
    {
        &self.shared
    }

    /// Takes one of the values that were put; the pass has it then behind those that it took before. `None` changes nothing, and
    /// tells of no value: that each was taken, once, is what `take_rest` shows when all passes are back.
    pub fn take<R: Wait>(&self, rt: &R, pass: &mut WorkPass<T>) -> Option<T>
        requires home { pass.old.home ≡ self.now.home }
        ensures took { MatchOption result (pass.new ≡ pass.old) (λ x. pass.new ≡ takes pass.old x) }
        ensures put { IfSome result (λ x. Contains pass.old.put x) }
        ensures empty { IfNone result (WasEmpty pass.old) }
    {
        self.shared.take(rt, pass)
    }

    /// Takes a pass back, and records what it took.
    pub fn take_back(&mut self, pass: WorkPass<T>)
        requires home { pass.home ≡ self.old.home }
        ensures recorded { self.new ≡ takes_in self.old pass }
    {
        let WorkPass { seat } = pass;
        let shared = &self.shared;
        shared.queue.absorb::<Out>(&mut self.own, seat);
    }

    /// Takes a value that is left, once no pass is out. `None` comes only where none is left, and shows that what was taken is
    /// together what was put, each value as often.
    pub fn take_rest<R: Wait>(&mut self, rt: &R) -> Option<T>
        requires out { self.old.out ≡ 0 }
        ensures took { MatchOption result (self.new ≡ self.old) (λ x. self.new ≡ takes_itself self.old x) }
        ensures put { IfSome result (λ x. Contains self.old.put x) }
        ensures all { IfNone result (IsPermutation self.old.put (concat (self.old.taken ∷ self.old.recorded))) }
    {
        let shared = &self.shared;
        shared.queue.pop_as::<Takes, R>(rt, &mut self.own)
    }
}

impl<T: Drop> Drop for WorkList<T> {
    fn drop(self) {
        let Self {
            shared: WorkQueue { queue },
            own,
        } = self;
        drop(own);
        queue.destroy();
    }
}
