//! Letters that several workers post, each worker's in its order, and that are drained once all passes are back.
ghost use Rattle.std.specs.Prelude.{◌≡◌, ◌+◌, ◌≤◌, ◌++◌, [], length, IfOk, IsOk, MatchResult, OnErr, vec_capacity};
ghost use Rattle.crossbeam_queue.specs.SegTies.{IsSegPassOf};
ghost use Rattle.post_office.specs.Merge.{IsMerge, concat};
ghost use Rattle.post_office.specs.Passes.{new_office, new_posting, opens, closes, drains, posts};
ghost use Rattle.post_office.specs.LetterQueue.{keeper};

use crate::lent::Lent;
use crate::letter::Letter;
use crate::letter_queue::{Drains, LetterQueue, OfficePass, Out, Queue, Seat};
use crate::memory::OutOfMemory;
use std::alloc::Global;
use std::marker::Model;
use std::sync::Wait;

/// Where workers post, each through a pass of its own. What they post goes through a queue that they share; the office keeps a
/// pass of its own, with which it drains. Contracts see what was posted by each pass that came back, what was drained, and how
/// many passes are out.
pub struct Office {
    shared: LetterQueue,
    own: Seat,
    count: usize,
}

impl Model for Office {
    ghost use Rattle.std.specs.Prelude.{◌≡◌, ◌<◌, None, length};
    ghost use Rattle.post_office.specs.Passes.{OfficeState};
    ghost use Rattle.post_office.specs.Merge.{concat};
    ghost use Rattle.post_office.specs.LetterQueue.{keeper};

    ghost Value = { OfficeState };

    ghost view = { λ o. let v = o.own.me.view.client in record { home = o.own.web; recorded = v.recorded; drained = v.drained; out = v.out } };

    ghost invariant = { λ o. let v = o.own.me.view.client in (v ≡ keeper v.recorded v.drained v.out) × (o.own.web ≡ o.shared) × (o.own.me.hand ≡ None) × (o.own.me.spare ≡ None) × (o.count < 18446744073709551615 → length (concat v.recorded) ≡ o.count) };
}

impl Office {
    /// An office to which nothing was posted, and with no pass out.
    pub fn new(alloc: Global) -> Result<Office, OutOfMemory>
        ensures office { IfOk result (λ office. office ≡ new_office office.home) }
    {
        let (queue, own) = Queue::with_rule(alloc)?;
        Ok(Office {
            shared: LetterQueue { queue },
            own,
            count: 0,
        })
    }

    /// A pass for one worker. It takes no memory, so it is never refused.
    pub fn pass(&mut self) -> Result<OfficePass, OutOfMemory>
        ensures given { IsOk result }
        ensures pass { IfOk result (λ pass. pass ≡ new_posting self.old) }
        ensures office { self.new ≡ opens self.old }
    {
        let shared = &self.shared;
        let seat = shared.queue.another::<Out>(&mut self.own);
        Ok(OfficePass { seat, count: 0 })
    }

    /// What workers share: they post to it without the office.
    pub fn queue(&self) -> &LetterQueue
        ensures home { result.now ≡ self.now.home }
    {
        &self.shared
    }

    /// Posts a letter behind those that the pass posted. Only where memory runs out it comes back, and then nothing is changed.
    pub fn post_as<R: Wait>(
        &self,
        rt: &R,
        pass: &mut OfficePass,
        letter: Letter,
    ) -> Result<(), Letter>
        requires home { pass.old.home ≡ self.now.home }
        ensures posted { MatchResult result (λ _. pass.new ≡ posts pass.old letter) (λ back. (back ≡ letter) × (pass.new ≡ pass.old)) }
    {
        self.shared.post_as(rt, pass, letter)
    }

    /// A post over a pass, for one turn. It takes no memory.
    pub fn lend<'a, R: Wait>(&'a self, rt: &'a R, pass: OfficePass) -> Lent<'a, R>
        requires home { pass.home ≡ self.now.home }
        ensures pass { result ≡ pass }
    {
        self.shared.lend(rt, pass)
    }

    /// Takes a pass back, and records what it posted.
    pub fn take_back(&mut self, pass: OfficePass)
        requires home { pass.home ≡ self.old.home }
        ensures recorded { self.new ≡ closes self.old pass }
    {
        let OfficePass { seat, count } = pass;
        let shared = &self.shared;
        shared.queue.absorb::<Out>(&mut self.own, seat);
        self.count = self.count.saturating_add(count);
    }

    /// The letters in the order in which they were posted, each once, and of each pass in its order, once no pass is out. Memory
    /// for all is taken before the first leaves: where it is refused, or more were posted than any list can hold, nothing is changed.
    pub fn drain<R: Wait>(&mut self, rt: &R, alloc: Global) -> Result<Vec<Letter>, OutOfMemory>
        requires out { self.old.out ≡ 0 }
        ensures office { IfOk result (λ letters. self.new ≡ drains self.old letters.items) }
        ensures each { IfOk result (λ letters. IsMerge self.old.recorded (self.old.drained ++ letters.items)) }
        ensures err { OnErr result (self.new ≡ self.old) }
    {
        if self.count == usize::MAX {
            return Err(OutOfMemory);
        }
        let letters = Vec::with_capacity(alloc, self.count)?;
        let shared = &self.shared;
        Ok(pop_all(rt, &shared.queue, &mut self.own, letters))
    }
}

fn pop_all<R: Wait>(rt: &R, queue: &Queue, own: &mut Seat, mut letters: Vec<Letter>) -> Vec<Letter>
    requires pass { IsSegPassOf queue.now own.old }
    requires own { let v = own.old.me.view.client in v ≡ keeper v.recorded v.drained 0 }
    requires room { (letters.items ≡ []) × (length (concat own.old.me.view.client.recorded) ≤ vec_capacity letters) }
    ensures pass { IsSegPassOf queue.now own.new }
    ensures own { let v = own.old.me.view.client in own.new.me.view.client ≡ keeper v.recorded (v.drained ++ result.items) 0 }
    ensures all { let v = own.old.me.view.client in IsMerge v.recorded (v.drained ++ result.items) }
{
    for _ in rt.forever() {
        match queue.pop_as::<Drains, R>(rt, own) {
            Some(letter) => letters.push_reserved(letter),
            None => return letters,
        }
    }
    unreachable!()
}

impl Drop for Office {
    fn drop(self) {
        let Self {
            shared: LetterQueue { queue },
            own,
            count: _,
        } = self;
        drop(own);
        queue.destroy();
    }
}
