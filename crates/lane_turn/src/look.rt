//! What a lane shows of itself between its steps, to whoever looks at a run. None of it changes the lane.
ghost use Rattle.std.specs.Prelude.{◌≡◌, ◌↔◌, ◌||◌, IsTrue, IfOk, nat_lt, map, option_map, reverse};
ghost use Rattle.std.specs.Option.{option_copied};
ghost use Rattle.task_steps.specs.Run.{IsUpTo};
ghost use Rattle.task_steps.specs.Shown.{least_wake, wakeless};
ghost use Rattle.lane_watch.specs.Shown.{started_shown, EndNoSooner};
ghost use Rattle.context_core.specs.Pushed.{contexts_of};
ghost use Rattle.lane_turn.specs.Frames.{calls_in_progress};
ghost use Rattle.lane_turn.specs.Lane.{context_at, is_running, standings};
ghost use Rattle.lane_turn.specs.Owned.{grounds, has_any, is_owned};
ghost use Rattle.lane_turn.specs.Replies.{reply_held};

use crate::in_progress::InProgress;
use crate::lane::Status;
use crate::line::Line;
use crate::owned::Grounds;
use crate::replies::Awaited;
use crate::slot::Named;
use crate::state::LaneState;
use cancel_view::View;
use context_core::{Pushed, Standing};
use loop_script::Script;
use source_rows::Rows;
use std::alloc::AllocError;
use task_steps::TaskShown;

impl LaneState {
    /// What an iteration of a context begun at a tick would do with each of its sources, and why, in the order of dispatch; none of
    /// a context of another lane. The lane is not changed.
    pub fn standings(
        &self,
        script: &Script,
        tick: u32,
        context: u32,
    ) -> Result<Vec<Standing>, AllocError>
        ensures { IfOk result (λ list. list.items ≡ standings script.now tick context self.now.lane) }
    {
        self.lane.stand(self.alloc, script, tick, context)
    }

    /// The sources of one of the lane's contexts; none of another lane's. It takes no memory.
    pub fn sources(&self, context: u32) -> Option<&Rows>
        ensures { option_copied result ≡ option_map (λ c. c.rows) (context_at context self.now.lane) }
    {
        match self.lane.context(context) {
            None => None,
            Some(context) => Some(context.rows()),
        }
    }

    /// The cancellables that the lane has seen cancelled, and its handlers.
    pub fn view(&self) -> &View
        ensures { result.now ≡ self.now.lane.view }
    {
        self.lane.watch.view()
    }

    /// What is in progress, from the outermost inwards. It takes no memory.
    pub fn frames(&self) -> InProgress<'_>
        ensures { result ≡ reverse self.now.lane.frames }
    {
        self.lane.frames.inwards()
    }

    /// How many calls are in progress, where that of the start list is not counted. It takes no memory.
    pub fn calls(&self) -> u64
        ensures { result ≡ calls_in_progress self.now.lane.frames }
    {
        self.lane.frames.calls_in_progress()
    }

    /// What each slot names, by the slot's number; none names what was never put there. A source that is named may be destroyed
    /// since, and a handler disconnected. It takes no memory.
    pub fn slots(&self) -> &[Option<Named>]
        ensures { result.now ≡ self.now.lane.slots }
    {
        self.lane.slots.as_slice()
    }

    /// The thread-default contexts that were pushed and not popped, the last one on top
    /// (GMainContext: `g_main_context_push_thread_default`). It takes no memory.
    pub fn defaults(&self) -> &[Pushed]
        ensures { contexts_of result.now ≡ self.now.lane.defaults }
    {
        self.lane.defaults.pushed()
    }

    /// By what the lane owns one of its contexts; none of another lane's (GMainContext: `g_main_context_is_owner`). It takes no
    /// memory.
    pub fn grounds(&self, context: u32) -> Option<Grounds>
        ensures grounds { result ≡ grounds context self.now.lane }
        ensures owned { has_any result ≡ is_owned context self.now.lane }
    {
        self.lane.grounds(context)
    }

    /// Whether a run of a loop is in progress that was not quit since it began (GMainLoop: `g_main_loop_is_running`).
    pub fn is_running(&self, number: u32) -> bool
        ensures { result ≡ is_running number self.now.lane }
    {
        self.lane.is_running(number)
    }

    /// The reply that a source of a context holds until it is dispatched, and whose it is; none where the source is not one of a
    /// reply, or was dispatched. It takes no memory.
    pub fn awaited(&self, context: u32, id: u64) -> Option<Awaited>
        ensures { result ≡ reply_held context id self.now.lane.replies }
    {
        self.lane.awaited(context, id)
    }

    /// The tasks that the lane started and that have not ended, in the order of their numbers, as they stand before their next poll
    /// (GTask). None wakes before that poll, and the body of none ends before it wakes, where nothing more is seen cancelled.
    pub fn tasks(&self) -> Result<Vec<TaskShown>, AllocError>
        ensures tasks { IfOk result (λ list. map wakeless list.items ≡ map (started_shown self.now.lane.tasks) self.now.lane.tasks.started) }
        ensures wake { IfOk result (λ list. IsUpTo self.now.lane.tasks.tick (least_wake list.items)) }
        ensures ends { IfOk result (λ list. EndNoSooner self.now.lane.tasks.tick_us self.now.lane.tasks.came self.now.lane.tasks.started list.items) }
    {
        self.lane.watch.tasks(self.alloc)
    }

    /// What the lane wrote.
    pub fn trace(&self) -> &[Line]
        ensures { result.now ≡ self.now.lane.trace }
    {
        self.lane.trace.as_slice()
    }

    /// Whether the lane is halted: it takes no further step.
    pub fn halted(&self) -> bool
        ensures { IsTrue result ↔ (self.now.lane.status ≡ Status.Halted) }
    {
        self.lane.status == Status::Halted
    }
}
