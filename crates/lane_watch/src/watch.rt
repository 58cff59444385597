//! A lane's view, with the tick in which each cancellable came into it, and its tasks: a cancel comes in here, and goes on to the view.
ghost use Rattle.std.specs.Prelude.{◌≡◌, ℕ, [], ◌+◌, ◌<◌, ◌≤◌, ◌^◌, slice_set, Some, None, true, false, IsTrue, IsOk, IfOk, OnOk, OnErr, option_map, map, if◌then◌else◌, ◌↔◌};
ghost use Rattle.loop_script.specs.Bounds.{count_end, longest_tick, tick_end};
ghost use Rattle.task_steps.specs.Run.{IsAfter};

use cancel_view::{Connected, Fired, OutOfMemory, View};
use loop_script::TaskSpec;
use std::alloc::{AllocError, Global};
use std::marker::Model;
use task_steps::{Polled, TaskBook, TaskShown};

/// A lane's view of cancellations, with the tick in which each came into it, and its tasks. Cancellables go by their
/// number, from 0 on. Calls come tick by tick: the poll of a tick first, then what the lane does in it.
#[derive(Drop)]
pub struct Watch {
    alloc: Global,
    view: View,
    /// For each cancellable the tick in which it came into the view.
    came: Vec<Option<u32>>,
    book: TaskBook,
    tick_us: u64,
    /// The tick in which the tasks are polled next.
    tick: u32,
    /// A tick before which no poll gives anything while the view stays, so that no task is looked at; none where no poll
    /// ever does.
    wake: Option<u64>,
}

impl Model for Watch {
    ghost use Rattle.std.specs.Prelude.{map};
    ghost use Rattle.std.specs.Coded.{codes};
    ghost use Rattle.loop_script.specs.contracts.tree.TaskTree as task_tree;
    ghost use Rattle.lane_watch.specs.Watch.{Watched, started_of, IsJoined};

    ghost Value = { Watched };

    ghost coded = { Prim.hlevel (codes, task_tree.the_row.coded) };

    ghost view = { λ w. record {
      view = w.view;
      tasks = record { started = map started_of w.book.tasks; next = w.book.next; tick_us = w.tick_us; came = w.came.items; tick = w.tick };
    } };

    ghost invariant = { λ w. IsJoined w.tick w.tick_us w.view w.came.items w.book w.wake };
}

/// Notes the tick in which a cancellable came into a view.
fn note(came: &mut Vec<Option<u32>>, c: u32, tick: u32)
    ensures { came.new.items ≡ slice_set came.old.items c (Some tick) }
{
    if let Some(noted) = came.get_mut(c as usize) {
        *noted = Some(tick);
    }
}

/// Whether a tick is before a wake, where there is one.
fn is_before(tick: u32, wake: Option<u64>) -> bool
    ensures { IsTrue result ↔ IsAfter tick wake }
{
    match wake {
        None => true,
        Some(wake) => u64::from(tick) < wake,
    }
}

impl Watch {
    ghost use Rattle.cancel_view.specs.Seen.{has, fired, connected, connecting, may_disconnect, without};
    ghost use Rattle.task_steps.specs.Book.{IsIn};
    ghost use Rattle.task_steps.specs.Run.{IsUpTo};
    ghost use Rattle.task_steps.specs.Shown.{least_wake, wakeless};
    ghost use Rattle.lane_watch.specs.Shown.{started_shown, EndNoSooner};
    ghost use Rattle.lane_watch.specs.Watch.{nothing_seen, no_tasks, cancelled_at, viewing, starting, replies_of, late_of, polled, at_tick, forgetful, GivesNothing};

    /// What a lane watches at first: none of n cancellables is cancelled, and no task was started. Ticks are so many
    /// microseconds long.
    pub fn new(alloc: Global, n: u32, tick_us: u64) -> Result<Watch, OutOfMemory>
        requires some { 0 < tick_us }
        requires short { tick_us ≤ longest_tick }
        ensures { IfOk result (λ w. w ≡ record { view = nothing_seen n; tasks = no_tasks n tick_us }) }
    {
        Ok(Watch {
            alloc,
            view: View::new(alloc, n)?,
            came: vec![in alloc; None; n as usize]?,
            book: TaskBook::new(alloc, tick_us),
            tick_us,
            tick: 0,
            wake: None,
        })
    }

    /// The view.
    pub fn view(&self) -> &View
        ensures { result.now ≡ self.now.view }
    {
        &self.view
    }

    /// Brings a cancellable into the view at a tick, after its polls, and gives the handlers to call, by rising id. None
    /// where the view had it, which takes no memory. After `OutOfMemory` nothing is changed.
    pub fn cancel(
        &mut self,
        alloc: Global,
        tick: u32,
        c: u32,
    ) -> Result<Option<Vec<Fired>>, OutOfMemory>
        requires { self.old.tasks.tick ≡ tick + 1 }
        ensures fired { IfOk result (λ f. option_map (λ v. v.items) f ≡ (if has c self.old.view then None else Some (fired c self.old.view))) }
        ensures cancelled { OnOk result (self.new ≡ cancelled_at tick c self.old) }
        ensures same { OnErr result (self.new ≡ self.old) }
        ensures member { IsTrue (has c self.old.view) → IsOk result }
    {
        let fired = self.view.cancel(alloc, c)?;
        if fired.is_some() {
            note(&mut self.came, c, tick);
            self.wake = Some(u64::from(tick) + 1);
        }
        Ok(fired)
    }

    /// Connects a handler, where the view does not have its cancellable. After `OutOfMemory` nothing is changed.
    pub fn connect(&mut self, c: u32, proc: u32) -> Result<Connected, OutOfMemory>
        requires { self.old.view.next_id < count_end }
        ensures answer { IfOk result (λ r. r ≡ connecting c self.old.view) }
        ensures view { OnOk result (self.new ≡ viewing (connected c proc self.old.view) self.old) }
        ensures same { OnErr result (self.new ≡ self.old) }
        ensures member { IsTrue (has c self.old.view) → IsOk result }
    {
        self.view.connect(c, proc)
    }

    /// Disconnects the handler that has the id; false where there is none. The id 0 is that of no handler: it is always
    /// true, and does nothing.
    pub fn disconnect(&mut self, id: u64) -> bool
        ensures answer { result ≡ may_disconnect id self.old.view }
        ensures view { self.new ≡ viewing (without id self.old.view) self.old }
    {
        self.view.disconnect(id)
    }

    /// Starts a task whose reply goes to a context, in a tick after its polls. It is first polled in the next tick. After
    /// `OutOfMemory` the tasks are forgotten.
    pub fn start(&mut self, spec: &TaskSpec, ctx: u32, tick: u32) -> Result<(), OutOfMemory>
        requires now { self.old.tasks.tick ≡ tick + 1 }
        requires tick { tick < tick_end }
        requires room { self.old.tasks.next < count_end }
        requires known { IsIn self.old.view spec.now.cancel }
        ensures ok { OnOk result (self.new ≡ record self.old { tasks = starting tick ctx spec.now self.old.tasks }) }
        ensures err { OnErr result (self.new ≡ forgetful self.old) }
    {
        if self.book.start(spec, ctx, tick).is_err() {
            self.book = TaskBook::new(self.alloc, self.tick_us);
            return Err(OutOfMemory);
        }
        self.wake = Some(u64::from(self.tick));
        Ok(())
    }

    /// Polls the tasks at a tick: their replies, and the numbers of those whose body ends after its reply or with it,
    /// both in start order. Where there is no task, that takes no memory. After `OutOfMemory` the tasks are forgotten.
    /// A tick in which none wakes costs the same however many sleep.
    pub fn poll(&mut self, alloc: Global, tick: u32) -> Result<Polled, OutOfMemory>
        requires now { self.old.tasks.tick ≡ tick }
        requires tick { tick < tick_end }
        ensures replies { IfOk result (λ p. p.replies ≡ replies_of tick self.old.tasks) }
        ensures late { IfOk result (λ p. p.late ≡ late_of tick self.old.tasks) }
        ensures ok { OnOk result (self.new ≡ record self.old { tasks = polled tick self.old.tasks }) }
        ensures err { OnErr result (self.new ≡ forgetful self.old) }
        ensures none { self.old.tasks.started ≡ [] → IsOk result }
    {
        if is_before(tick, self.wake) {
            self.book.pass(tick);
            self.tick = tick + 1;
            return Ok(Polled::nothing(alloc));
        }
        match self.book.poll_all(alloc, tick, &self.view) {
            Ok(polled) => {
                self.wake = self.book.next_wake(tick, &self.view);
                self.tick = tick + 1;
                Ok(polled)
            }
            Err(_) => {
                self.book = TaskBook::new(self.alloc, self.tick_us);
                Err(OutOfMemory)
            }
        }
    }

    /// A tick before which no poll gives anything, while nothing is cancelled and no task is started; none where no poll
    /// ever does. A poll may give nothing in that tick itself.
    pub fn next_wake(&self) -> Option<u64>
        ensures { (tick : ℕ) → self.now.tasks.tick ≤ tick → IsAfter tick result → GivesNothing tick self.now.tasks }
    {
        self.wake
    }

    /// The tasks that were started and have not ended, in start order, as they stand before the next poll. None wakes before
    /// that poll, and the body of none ends before it wakes, where nothing more comes into the view.
    pub fn tasks(&self, alloc: Global) -> Result<Vec<TaskShown>, AllocError>
        ensures tasks { IfOk result (λ list. map wakeless list.items ≡ map (started_shown self.now.tasks) self.now.tasks.started) }
        ensures wake { IfOk result (λ list. IsUpTo self.now.tasks.tick (least_wake list.items)) }
        ensures ends { IfOk result (λ list. EndNoSooner self.now.tasks.tick_us self.now.tasks.came self.now.tasks.started list.items) }
    {
        self.book.tasks(alloc)
    }

    /// Passes over the ticks before one, where no task wakes in them; false, and nothing is changed, where one does.
    fn skip(&mut self, tick: u32) -> bool
        requires { self.old.tasks.tick < tick }
        ensures skipped { result ≡ true → self.new ≡ record self.old { tasks = at_tick tick self.old.tasks } }
        ensures same { result ≡ false → self.new ≡ self.old }
    {
        let last = tick - 1;
        if !is_before(last, self.wake) {
            return false;
        }
        self.book.pass(last);
        self.tick = tick;
        true
    }

    /// Passes over the ticks before one, in place of their polls, which give nothing. Ticks that are before `next_wake`
    /// cost the same however many they are, and take no memory. After `OutOfMemory` the tasks are forgotten.
    pub fn pass_to(&mut self, alloc: Global, tick: u32) -> Result<(), OutOfMemory>
        requires tick { tick < tick_end }
        requires past { self.old.tasks.tick ≤ tick }
        requires nothing { (k : ℕ) → self.old.tasks.tick ≤ k → k < tick → GivesNothing k self.old.tasks }
        ensures ok { OnOk result (self.new ≡ record self.old { tasks = at_tick tick self.old.tasks }) }
        ensures err { OnErr result (self.new ≡ forgetful (record self.old { tasks = at_tick self.new.tasks.tick self.old.tasks })) }
        ensures none { self.old.tasks.started ≡ [] → IsOk result }
    {
        if self.tick == tick || self.skip(tick) {
            return Ok(());
        }
        for at in self.tick..tick {
            let _ = self.poll(alloc, at)?;
        }
        Ok(())
    }
}
