//! What each action does: those on sources, loops and tasks here, on cancellables in `handlers`, on who owns a context in `owned`, `give` in `handover`.
ghost use Rattle.std.specs.Prelude.{◌≡◌, ◌+◌, ◌^◌, ◌<◌, ◌≤◌, true, length, OnOk};
ghost use Rattle.loop_script.specs.References.{sizes, action_refers};
ghost use Rattle.lane_turn.specs.Acted.{attach, child, destroy, set_ready, set_priority, iterate, pending, run, quit, start_task, acted};
ghost use Rattle.task_steps.specs.Book.{IsIn};
ghost use Rattle.lane_turn.specs.Sound.{IsWithin};
ghost use Rattle.lane_turn.specs.Meaning.{lane_of};
ghost use Rattle.loop_script.specs.Bounds.{count_end, latest, tick_end};
ghost use Rattle.lane_turn.specs.Limits.{most_count};

use crate::lane::Lane;
use crate::layer::Asker;
use crate::line::{Event, Word};
use crate::slot::{Named, Place};
use loop_script::{Action, Script, SourceSpec, TaskSpec};
use std::alloc::{AllocError, Global};

impl Lane {
    /// Attaches a source to a context of the lane, and lets a slot name it; a context of another lane is a miss.
    fn act_attach(
        &mut self,
        tick: u32,
        now: u64,
        context: u32,
        slot: u8,
        spec: SourceSpec,
    ) -> Result<(), AllocError>
        requires within { IsWithin most_count (lane_of self.old) }
        requires now { now ≤ latest }
        ensures { OnOk result (lane_of self.new ≡ attach tick now context slot spec (lane_of self.old)) }
    {
        if !self.has(context) {
            return self.miss(tick, Word::Attach);
        }
        let id = self.attach(context, spec, now)?;
        self.set_slot(slot, Named::Source(Place { context, id }));
        Ok(())
    }

    /// Adds a child to the source that a slot names, and lets another slot name it; it misses where there is no such source or no
    /// room below it.
    fn act_child(
        &mut self,
        tick: u32,
        now: u64,
        parent: u8,
        slot: u8,
        spec: SourceSpec,
    ) -> Result<(), AllocError>
        requires within { IsWithin most_count (lane_of self.old) }
        requires now { now ≤ latest }
        ensures { OnOk result (lane_of self.new ≡ child tick now parent slot spec (lane_of self.old)) }
    {
        let Some(place) = self.place(parent) else {
            return self.miss(tick, Word::Child);
        };
        if !self.has(place.context) {
            return self.miss(tick, Word::Child);
        }
        match self.add_child(place, spec, now)? {
            None => self.miss(tick, Word::Child),
            Some(id) => {
                let context = place.context;
                self.set_slot(slot, Named::Source(Place { context, id }));
                Ok(())
            }
        }
    }

    /// Destroys the source that a slot names, with its children; it misses where that is gone.
    pub(crate) fn act_destroy(&mut self, tick: u32, slot: u8) -> Result<(), AllocError>
        ensures { OnOk result (lane_of self.new ≡ destroy tick slot (lane_of self.old)) }
    {
        let Some(place) = self.place(slot) else {
            return self.miss(tick, Word::Destroy);
        };
        if self.has(place.context) && self.destroy(place.context, place.id) {
            Ok(())
        } else {
            self.miss(tick, Word::Destroy)
        }
    }

    /// Sets the ready time of the source that a slot names; it misses where that is gone.
    pub(crate) fn act_set_ready(
        &mut self,
        tick: u32,
        slot: u8,
        ready: i64,
    ) -> Result<(), AllocError>
        ensures { OnOk result (lane_of self.new ≡ set_ready tick slot ready (lane_of self.old)) }
    {
        let Some(place) = self.place(slot) else {
            return self.miss(tick, Word::SetReady);
        };
        if self.has(place.context) && self.set_ready(place.context, place.id, ready) {
            Ok(())
        } else {
            self.miss(tick, Word::SetReady)
        }
    }

    /// Sets the priority of the source that a slot names, with its children; it misses where that is gone or has a parent.
    fn act_set_priority(&mut self, tick: u32, slot: u8, priority: i32) -> Result<(), AllocError>
        requires { IsWithin most_count (lane_of self.old) }
        ensures { OnOk result (lane_of self.new ≡ set_priority tick slot priority (lane_of self.old)) }
    {
        let Some(place) = self.place(slot) else {
            return self.miss(tick, Word::SetPriority);
        };
        if self.has(place.context) && self.set_priority(place, priority)? {
            Ok(())
        } else {
            self.miss(tick, Word::SetPriority)
        }
    }

    /// Begins an iteration of a context, which does not block (GMainContext: `g_main_context_iteration` without `may_block`).
    fn act_iterate(
        &mut self,
        alloc: Global,
        script: &Script,
        tick: u32,
        context: u32,
    ) -> Result<(), AllocError>
        requires within { IsWithin most_count (lane_of self.old) }
        ensures { OnOk result (lane_of self.new ≡ iterate script.now tick context (lane_of self.old)) }
    {
        if !self.has(context) {
            return self.write(tick, Event::Iterate(context, false));
        }
        let ids = self.choose(alloc, script, tick, context)?;
        let any = !ids.is_empty();
        self.frames
            .begin_iteration(context, ids, Asker::Iterate(any))
    }

    /// Writes whether something is ready in a context.
    fn act_pending(
        &mut self,
        alloc: Global,
        script: &Script,
        tick: u32,
        context: u32,
    ) -> Result<(), AllocError>
        ensures { OnOk result (lane_of self.new ≡ pending script.now tick context (lane_of self.old)) }
    {
        let any = self.has(context) && self.chooses_any(alloc, script, tick, context)?;
        self.write(tick, Event::Pending(context, any))
    }

    /// Begins a run of a loop, with its iterations that block.
    fn act_run(&mut self, tick: u32, number: u32, context: u32) -> Result<(), AllocError>
        ensures { OnOk result (lane_of self.new ≡ run tick number context (lane_of self.old)) }
    {
        if self.has(context) {
            self.set_running(number, true);
            self.frames.begin_loop(number, context)
        } else {
            self.miss(tick, Word::Run)
        }
    }

    /// Lets a loop end: no iteration of it begins any more.
    pub(crate) fn act_quit(
        &mut self,
        tick: u32,
        number: u32,
        context: u32,
    ) -> Result<(), AllocError>
        ensures { OnOk result (lane_of self.new ≡ quit tick number context (lane_of self.old)) }
    {
        if self.has(context) {
            self.set_running(number, false);
            Ok(())
        } else {
            self.miss(tick, Word::Quit)
        }
    }

    /// Starts a task, whose reply goes to the thread-default context.
    fn act_task(&mut self, tick: u32, spec: &TaskSpec) -> Result<(), AllocError>
        requires room { (lane_of self.old).tasks.next < count_end }
        requires now { (lane_of self.old).tasks.tick ≡ tick + 1 }
        requires tick { tick < tick_end }
        requires known { IsIn (lane_of self.old).view spec.now.cancel }
        ensures { OnOk result (lane_of self.new ≡ start_task tick spec.now (lane_of self.old)) }
    {
        let context = self.default_context();
        match self.watch.start(spec, context, tick) {
            Ok(()) => Ok(()),
            Err(_) => Err(AllocError),
        }
    }

    /// Does an action of the innermost call, but for the letter that it sends.
    pub(crate) fn act(
        &mut self,
        alloc: Global,
        script: &Script,
        tick: u32,
        action: &Action,
    ) -> Result<(), AllocError>
        requires within { IsWithin most_count (lane_of self.old) }
        requires now { (lane_of self.old).tasks.tick ≡ tick + 1 }
        requires tick { tick < tick_end }
        requires room { (lane_of self.old).tasks.next < count_end }
        requires view { length (lane_of self.old).view.members ≡ script.now.cancellables }
        requires refers { action_refers (sizes script.now) action.now ≡ true }
        ensures { OnOk result (lane_of self.new ≡ acted script.now tick action.now (lane_of self.old)) }
    {
        let now = script.now(tick);
        match action {
            Action::Attach {
                context,
                slot,
                spec,
            } => { self.act_attach(tick, now, *context, *slot, *spec) }
            Action::Child { parent, slot, spec } => self.act_child(
                tick, now, *parent, *slot, *spec,
            ),
            Action::Destroy(slot) => self.act_destroy(tick, *slot),
            Action::SetReady(slot, us) => self.act_set_ready(tick, *slot, *us),
            Action::SetPriority(slot, priority) => self.act_set_priority(tick, *slot, *priority),
            Action::Iterate(context) => self.act_iterate(alloc, script, tick, *context),
            Action::Pending(context) => self.act_pending(alloc, script, tick, *context),
            Action::Run(number) => self.act_run(tick, *number, script.loop_context(*number)),
            Action::Quit(number) => self.act_quit(tick, *number, script.loop_context(*number)),
            Action::Cancel(c) => self.act_cancel(alloc, script, tick, *c),
            Action::Connect {
                cancellable,
                slot,
                proc,
            } => self.act_connect(script, tick, *cancellable, *slot, *proc),
            Action::Disconnect(slot) => self.act_disconnect(tick, *slot),
            Action::Task(spec) => self.act_task(tick, spec),
            Action::Push(context) => self.act_push(tick, *context),
            Action::Pop(context) => self.act_pop(tick, *context),
            Action::ShowDefault => self.act_show_default(tick),
            Action::Acquire(context) => self.act_acquire(tick, *context),
            Action::Release(context) => self.act_release(tick, *context),
            Action::Invoke { context, proc } => self.act_invoke(tick, now, *context, *proc),
            Action::Give { context, lane } => self.act_give(script, tick, *context, *lane),
            Action::Log(n) => self.write(tick, Event::Log(*n)),
        }
    }
}
