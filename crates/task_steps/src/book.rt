//! The tasks of a lane, by public calls: started, polled tick by tick, and the next tick in which one wakes.
ghost use Rattle.std.specs.Prelude.{◌≡◌, ℕ, ◌+◌, ◌<◌, ◌≤◌, ◌^◌, ◌↔◌, [], Option, None, Some, false, IsTrue, IsOk, IfOk, OnOk, OnErr, filter, map};

use crate::entries::new_entry;
use crate::entry::Reply;
use crate::heeded::{first_of, forget_seen, heed, some_came};
use crate::look::TaskShown;
use crate::mark::Round;
use crate::tasks::Tasks;
use cancel_view::View;
use loop_script::{Items, TaskSpec};
use std::alloc::{AllocError, Global};
use std::marker::Model;
use std::mem;
use thiserror::Error;

/// Why a call of a book was refused.
#[derive(Clone, Copy, Debug, PartialEq, Eq, Error)]
pub enum BookFault {
    /// An earlier call was refused memory.
    #[error("spent")]
    Spent,
    #[error("memory")]
    OutOfMemory,
}

/// What a poll of all tasks gives, in start order.
#[derive(Drop)]
pub struct Polled {
    pub replies: Items<Reply>,
    /// The numbers of the tasks whose body ended in the tick, with the reply sent as cancelled before or in it.
    pub late: Items<u64>,
}

impl Polled {
    /// What a poll gives in which no task replies or ends; it takes no memory.
    pub fn nothing(alloc: Global) -> Polled
        ensures { result ≡ record { replies = []; late = [] } }
    {
        Polled {
            replies: Items::from_vec(Vec::new(alloc)),
            late: Items::from_vec(Vec::new(alloc)),
        }
    }
}

/// The tasks of a lane whose bodies have not ended. After a refusal of memory it holds none, and answers `Spent`.
#[derive(Drop)]
pub struct TaskBook {
    alloc: Global,
    tick_us: u64,
    tasks: Tasks,
    /// The cancellables of which a task waits that no poll of it saw as cancelled.
    heeded: Vec<u32>,
    /// How many of these, from the first on, tasks that were polled wait for; the others are those of tasks that were not polled yet.
    of_polled: usize,
    next: u64,
    last: Option<u32>,
    /// The tick of the last poll of all tasks. Tasks that did not wake in it were seen in it as they are.
    polled: Option<u32>,
    spent: bool,
}

impl Model for TaskBook {
    ghost use Rattle.std.specs.Prelude.{map};
    ghost use Rattle.std.specs.Coded.{codes};
    ghost use Rattle.loop_script.specs.Tree.{tree_code};
    ghost use Rattle.task_steps.specs.Book.{Book};

    ghost Value = { Book };

    ghost coded = { Prim.hlevel (codes, tree_code) };

    ghost use Rattle.task_steps.specs.BookInside.{IsKept, entries_of, shown, wake_of_all};

    ghost view = { λ b. record { tick_us = b.tick_us; tasks = map (shown b.polled) (entries_of b.tasks); next = b.next; last = b.last; wake = wake_of_all (entries_of b.tasks); spent = b.spent } };

    ghost invariant = { λ b. IsKept b.tick_us b.last b.polled b.spent b.heeded.items b.of_polled b.tasks };
}

impl TaskBook {
    ghost use Rattle.std.specs.List.{list_any};
    ghost use Rattle.task_steps.specs.Book.{with_task, exhausted, IsStart, IsNext, HasGrown, MayComeToAll, all_noticed, replies_in, late_in, goes_on, wake_under, IsQuietTo, IsIdle, passed, replies_next, OwesNone, IsAsPolled};
    ghost use Rattle.cancel_view.specs.Seen.{Seen};
    ghost use Rattle.loop_script.specs.Bounds.{count_end, longest_tick, tick_end};
    ghost use Rattle.loop_script.specs.Units.{Tick, TaskNumber};
    ghost use Rattle.task_steps.specs.Run.{IsUpTo, IsAfter};
    ghost use Rattle.task_steps.specs.RunInside.{IsBy};
    ghost use Rattle.task_steps.specs.Shown.{task_shown, wakeless, least_wake, WakeAsShown, WereSeenBy};

    /// A book with no task, for ticks of so many microseconds.
    pub fn new(alloc: Global, tick_us: u64) -> TaskBook
        requires some { 0 < tick_us }
        requires short { tick_us ≤ longest_tick }
        ensures { result ≡ record { tick_us = tick_us; tasks = []; next = 0; last = None; wake = None; spent = false } }
    {
        TaskBook {
            alloc,
            tick_us,
            tasks: Tasks::new(alloc),
            heeded: Vec::new(alloc),
            of_polled: 0,
            next: 0,
            last: None,
            polled: None,
            spent: false,
        }
    }

    /// Starts a task whose reply goes to a context, and gives its number, from 0 on. It is first polled in the next
    /// tick. After `OutOfMemory` the book is spent.
    #[tactic(auto, using(crate::proofs::Waiting::spent_forgets))]
    pub fn start(&mut self, spec: &TaskSpec, ctx: u32, tick: u32) -> Result<u64, BookFault>
        requires room { self.old.next < count_end }
        requires tick { tick < tick_end }
        requires last { IsStart tick self.old.last }
        ensures number { IfOk result (λ n. n ≡ self.old.next) }
        ensures ok { OnOk result (self.new ≡ with_task spec.now ctx tick self.old) }
        ensures spent { (result ≡ Err BookFault.Spent) ↔ IsTrue self.old.spent }
        ensures err { OnErr result (self.new ≡ exhausted self.old) }
    {
        if self.spent {
            return Err(BookFault::Spent);
        }
        let number = self.next;
        if self.add(spec, ctx, tick).is_err() {
            self.exhaust();
            return Err(BookFault::OutOfMemory);
        }
        Ok(number)
    }

    /// Adds a task to a book that is not spent. After an error it has none.
    fn add(&mut self, spec: &TaskSpec, ctx: u32, tick: u32) -> Result<(), AllocError>
        requires room { self.old.next < count_end }
        requires tick { tick < tick_end }
        requires last { IsStart tick self.old.last }
        requires goes_on { self.old.spent ≡ false }
        ensures ok { OnOk result (self.new ≡ with_task spec.now ctx tick self.old) }
        ensures err { OnErr result (exhausted self.new ≡ exhausted self.old) }
    {
        let entry = new_entry(spec, ctx, tick, self.next, self.tick_us)?;
        heed(&mut self.heeded, spec.cancel)?;
        let mut tasks = mem::replace(&mut self.tasks, Tasks::new(self.alloc));
        tasks.push(self.alloc, entry)?;
        self.tasks = tasks;
        self.next += 1;
        self.last = Some(tick);
        Ok(())
    }

    /// Forgets the tasks, once memory was refused.
    fn exhaust(&mut self)
        ensures { self.new ≡ exhausted self.old }
    {
        self.tasks = Tasks::new(self.alloc);
        self.last = None;
        self.polled = None;
        self.spent = true;
    }

    /// Polls the tasks in start order: those that wake, and where a cancellable that a polled task heeds has come since, all those
    /// that heed one. A poll of the others would give nothing. Where there is none, that takes no memory. After
    /// `OutOfMemory` the book is spent.
    #[tactic(auto, using(crate::proofs::Waiting::kept_none, crate::proofs::Waiting::spent_forgets))]
    pub fn poll_all(&mut self, alloc: Global, tick: u32, view: &View) -> Result<Polled, BookFault>
        requires tick { tick < tick_end }
        requires last { IsNext tick self.old.last }
        requires wake { IsUpTo tick self.old.wake }
        requires view { HasGrown view.now self.old.tasks }
        ensures replies { (c : TaskNumber → Option Tick) → MayComeToAll c (all_noticed tick view.now self.old.tasks)
            → IfOk result (λ p. p.replies ≡ replies_in tick c (all_noticed tick view.now self.old.tasks)) }
        ensures late { (c : TaskNumber → Option Tick) → MayComeToAll c (all_noticed tick view.now self.old.tasks)
            → IfOk result (λ p. p.late ≡ late_in tick c (all_noticed tick view.now self.old.tasks)) }
        ensures tasks { (c : TaskNumber → Option Tick) → MayComeToAll c (all_noticed tick view.now self.old.tasks)
            → OnOk result (self.new.tasks ≡ filter (goes_on tick c) (all_noticed tick view.now self.old.tasks)) }
        ensures rest { OnOk result (self.new ≡ record self.old { tasks = self.new.tasks; last = Some tick; wake = self.new.wake }) }
        ensures wake { OnOk result (IsAfter tick self.new.wake) }
        ensures view { OnOk result (HasGrown view.now self.new.tasks) }
        ensures spent { (result ≡ Err BookFault.Spent) ↔ IsTrue self.old.spent }
        ensures err { OnErr result (self.new ≡ exhausted self.old) }
        ensures none { self.old.spent ≡ false → self.old.tasks ≡ [] → IsOk result }
    {
        if self.spent {
            return Err(BookFault::Spent);
        }
        let mut replies = Vec::new(alloc);
        let mut late = Vec::new(alloc);
        let round = Round {
            tick,
            polled: self.polled,
            came: some_came(first_of(&self.heeded, self.of_polled), view),
        };
        let mut tasks = mem::replace(&mut self.tasks, Tasks::new(self.alloc));
        let Ok(()) = tasks.poll(round, view, &mut replies, &mut late) else {
            self.exhaust();
            return Err(BookFault::OutOfMemory);
        };
        forget_seen(&mut self.heeded, view);
        self.of_polled = self.heeded.len();
        self.tasks = tasks;
        self.last = Some(tick);
        self.polled = Some(tick);
        Ok(Polled {
            replies: Items::from_vec(replies),
            late: Items::from_vec(late),
        })
    }

    /// Passes over a tick before the next wake, in place of its poll: no task is looked at, and no memory taken. A poll of
    /// it would have given no reply and no late number and have ended no task, while the view owes no reply, and polls
    /// after it give the same without it.
    pub fn pass(&mut self, tick: u32)
        requires last { IsNext tick self.old.last }
        requires wake { IsAfter tick self.old.wake }
        requires goes_on { self.old.spent ≡ false }
        ensures passed { self.new ≡ passed tick self.old }
        ensures idle { (view : Seen) (c : TaskNumber → Option Tick) → OwesNone view self.old.tasks → MayComeToAll c (all_noticed tick view self.old.tasks)
            → IsIdle tick c self.old.tasks }
        ensures same { (view : Seen) → OwesNone view self.old.tasks → IsAsPolled tick view self.old.tasks }
    {
        self.last = Some(tick);
    }

    /// A tick above the given one before which no poll gives anything or ends a task, while the view stays; none where no
    /// poll ever does. A task's first poll is not passed over. The tick is that of the last poll, or a later one below
    /// this answer.
    pub fn next_wake(&self, tick: u32, view: &View) -> Option<u64>
        requires last { IsBy tick self.now.last }
        requires wake { IsAfter tick self.now.wake }
        requires view { HasGrown view.now self.now.tasks }
        ensures wake { result ≡ wake_under tick view.now self.now }
        ensures later { IsAfter tick result }
        ensures quiet { IsQuietTo result tick view.now self.now.tasks }
    {
        if self.owes_reply(view) {
            Some(u64::from(tick) + 1)
        } else {
            self.tasks.wake()
        }
    }

    /// The tasks, in start order. The least of their wakes is that of the book.
    #[tactic(auto, using(crate::proofs::Shown::all_told, crate::proofs::Shown::least_told, crate::proofs::Shown::seen_by_last))]
    pub fn tasks(&self, alloc: Global) -> Result<Vec<TaskShown>, AllocError>
        ensures tasks { IfOk result (λ list. map wakeless list.items ≡ map task_shown self.now.tasks) }
        ensures wake { IfOk result (λ list. least_wake list.items ≡ self.now.wake) }
        ensures ends { IfOk result (λ list. WakeAsShown self.now.last self.now.tasks list.items) }
        ensures seen { WereSeenBy self.now.last self.now.tasks }
    {
        let mut list = Vec::new(alloc);
        self.tasks.show(&mut list)?;
        Ok(list)
    }

    /// Whether the next poll replies that a task is cancelled.
    fn owes_reply(&self, view: &View) -> bool
        ensures { result ≡ list_any (replies_next view.now) self.now.tasks }
    {
        if some_came(&self.heeded, view) {
            return self.tasks.reply_next(view);
        }
        false
    }
}
