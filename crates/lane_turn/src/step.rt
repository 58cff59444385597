//! One step of a lane, by what is innermost of its calls, iterations and runs of loops: dispatches begin here, and what is over ends.
ghost use Rattle.std.specs.Prelude.{◌≡◌, ◌≢◌, ◌+◌, ◌^◌, ◌≤◌, ◌<◌, None, List, length, IsTrue, IsOk, OnOk, IfOk, is_some, nat_lt, unwrap_or};
ghost use Rattle.loop_script.specs.Parts.{time_of};
ghost use Rattle.lane_turn.specs.Frames.{top_of, calls_in_progress};
ghost use Rattle.lane_turn.specs.Lane.{popped};
ghost use Rattle.lane_turn.specs.Halt.{halt_of, halt_of_dispatch};
ghost use Rattle.lane_turn.specs.Step.{body_of, result_of, taking, dispatched_at, answered, returned, left_source, step_loop, step, is_passed};
ghost use Rattle.lane_turn.specs.Turn.{stepped};
ghost use Rattle.task_steps.specs.Book.{sees};
ghost use Rattle.post_office.specs.declared.letter.Letter.{Letter};
ghost use Rattle.lane_turn.specs.Sound.{IsWithin};
ghost use Rattle.lane_turn.specs.Meaning.{lane_of, turn_of};
ghost use Rattle.loop_script.specs.Bounds.{count_end, tick_end};
ghost use Rattle.lane_turn.specs.Limits.{most_calls, most_count};

use crate::lane::{Lane, Status};
use crate::layer::{Asker, Call, Caller, Origin, Top};
use crate::limits::MOST_CALLS;
use crate::line::Event;
use crate::replies::Awaited;
use cancel_view::View;
use loop_script::{Body, Outcome, Script};
use post_office::Post;
use source_rows::Row;
use std::alloc::{AllocError, Global};
use task_steps::Reply;

/// How far a turn has come.
#[derive(Debug, Drop)]
pub struct Progress {
    /// How many actions and dispatches may still be counted.
    pub(crate) left: u32,
    /// Whether a loop began an iteration.
    pub(crate) iterated: bool,
    /// How many letters were sent.
    pub(crate) sent: u64,
}

/// The result of a task, taken from its reply: cancelled where that is checked and the view has the cancellable.
fn result_of(view: &View, reply: Reply) -> Outcome
    ensures { result ≡ result_of view.now reply }
{
    if reply.check && sees_at_dispatch(view, reply.cancel) {
        Outcome::Cancelled
    } else {
        reply.outcome
    }
}

/// Whether a view has a cancellable that may be absent.
fn sees_at_dispatch(view: &View, cancel: Option<u32>) -> bool
    ensures { result ≡ sees view.now cancel }
{
    match cancel {
        None => false,
        Some(c) => view.is_cancelled(c),
    }
}

/// What a source calls.
fn body(call: Option<u32>) -> Body
    ensures { result ≡ body_of call }
{
    match call {
        None => Body::Nothing,
        Some(proc) => Body::Procedure(proc),
    }
}

/// The line by which a lane halts in place of a dispatch, where it does.
fn dispatch_halt(left: u32, may_call: bool) -> Option<Event>
    ensures { result ≡ halt_of_dispatch left may_call }
{
    if left == 0 {
        Some(Event::HaltSteps)
    } else if may_call {
        None
    } else {
        Some(Event::HaltDepth)
    }
}

impl Lane {
    /// A source's call returns: the source begins anew, or is destroyed.
    fn leave_source(&mut self, script: &Script, tick: u32, body: Body, caller: Caller)
        ensures { lane_of self.new ≡ left_source script.now tick body caller (lane_of self.old) }
    {
        if !caller.once && script.stays(body, caller.number) {
            self.restart(caller.context, caller.id, script.now(tick));
        } else {
            self.destroy(caller.context, caller.id);
        }
    }

    /// A call that has no action left returns.
    fn end_call(&mut self, script: &Script, tick: u32, call: Call) -> Result<(), AllocError>
        ensures { OnOk result (lane_of self.new ≡ returned script.now tick call.body call.origin (popped (lane_of self.old))) }
    {
        self.frames.end();
        match call.origin {
            Origin::Start => {
                self.write(tick, Event::End)?;
                self.status = Status::Ended;
                Ok(())
            }
            Origin::Source(caller) => {
                self.leave_source(script, tick, call.body, caller);
                Ok(())
            }
            Origin::Invoke(_) => Ok(()),
        }
    }

    /// Takes the result of a reply that a source held.
    fn take_result(&mut self, tick: u32, awaited: Option<Awaited>) -> Result<(), AllocError>
        ensures { OnOk result (lane_of self.new ≡ taking tick awaited (lane_of self.old)) }
    {
        match awaited {
            None => Ok(()),
            Some(Awaited { sender, reply }) => {
                let outcome = result_of(self.watch.view(), reply);
                let number = reply.task;
                self.write(
                    tick,
                    Event::Task {
                        lane: sender,
                        number,
                        outcome,
                    },
                )
            }
        }
    }

    /// Begins the dispatch of a row that is taken, at a depth.
    #[inline]
    fn dispatch(&mut self, tick: u32, context: u32, row: Row, depth: u64) -> Result<(), AllocError>
        requires count { row.count ≤ most_count }
        requires depth { depth ≤ most_count }
        requires within { IsWithin most_count (lane_of self.old) }
        ensures { OnOk result (lane_of self.new ≡ dispatched_at tick context row depth (lane_of self.old)) }
    {
        self.count(context, row.id);
        self.write(
            tick,
            Event::Dispatch {
                context,
                source: row.id,
                priority: row.priority,
                depth: depth + 1,
            },
        )?;
        let awaited = match self.replies.get_mut(context as usize) {
            Some(held) => held.take(row.id),
            None => None,
        };
        self.take_result(tick, awaited)?;
        self.frames.begin_call(Call {
            origin: Origin::Source(Caller {
                context,
                id: row.id,
                recurse: row.recurse,
                number: row.count + 1,
                once: awaited.is_some(),
            }),
            body: body(row.call),
            place: 0,
        })
    }

    /// An iteration that has no id left ends.
    fn end_iteration(&mut self, tick: u32, context: u32, asker: Asker) -> Result<(), AllocError>
        ensures { OnOk result (lane_of self.new ≡ answered tick context asker (popped (lane_of self.old))) }
    {
        self.frames.end();
        match asker {
            Asker::Loop => Ok(()),
            Asker::Iterate(any) => self.write(tick, Event::Iterate(context, any)),
        }
    }

    /// A step of the innermost loop. It answers whether there is one: false where the lane rests until the next tick.
    fn step_loop(
        &mut self,
        alloc: Global,
        script: &Script,
        tick: u32,
        progress: &mut Progress,
        number: u32,
        context: u32,
    ) -> Result<bool, AllocError>
        requires { IsWithin most_count (lane_of self.old) }
        ensures more { (letters : List Letter) → IfOk result (λ more. more ≡ is_some (step_loop script.now tick (turn_of self.old progress.old letters) number context)) }
        ensures next { (letters : List Letter) → OnOk result (turn_of self.new progress.new letters
            ≡ unwrap_or (step_loop script.now tick (turn_of self.old progress.old letters) number context) (turn_of self.old progress.old letters)) }
    {
        if !self.is_running(number) {
            self.frames.end();
            self.write(tick, Event::LoopEnd(number))?;
            return Ok(true);
        }
        if progress.iterated {
            return Ok(false);
        }
        let ids = self.choose(alloc, script, tick, context)?;
        self.frames.begin_iteration(context, ids, Asker::Loop)?;
        progress.iterated = true;
        Ok(true)
    }

    /// The line by which the lane halts in place of the next step, where it does: of a turn that may count so many more, and of a lane that
    /// may begin a call or not.
    fn halt_line(&self, script: &Script, left: u32, may_call: bool) -> Option<Event>
        requires within { IsWithin most_count (lane_of self.now) }
        requires calls { may_call ≡ nat_lt (calls_in_progress (lane_of self.now).frames) most_calls }
        ensures { result ≡ halt_of script.now left (lane_of self.now) (top_of (lane_of self.now).frames) }
    {
        match self.frames.top() {
            Top::Call(call) if left == 0 => {
                script.actions(call.body).get(call.place)?;
                Some(Event::HaltSteps)
            }
            Top::Iteration {
                context,
                next: Some(id),
                ..
            } => {
                self.row(context, id)?;
                dispatch_halt(left, may_call)
            }
            _ => None,
        }
    }

    /// A step of what is innermost, where the lane does not halt in place of it: it takes the next at once.
    fn step_innermost<P: Post>(
        &mut self,
        alloc: Global,
        script: &Script,
        tick: u32,
        progress: &mut Progress,
        post: &mut P,
    ) -> Result<bool, AllocError>
        requires within { IsWithin most_count (lane_of self.old) }
        requires now { (lane_of self.old).tasks.tick ≡ tick + 1 }
        requires tick { tick < tick_end }
        requires room { (lane_of self.old).tasks.next < count_end }
        requires view { length (lane_of self.old).view.members ≡ script.now.cancellables }
        requires sent { progress.old.sent < count_end }
        requires goes { self.old.status ≡ Status.GoesOn }
        requires free { halt_of script.now progress.old.left (lane_of self.old) (top_of (lane_of self.old).frames) ≡ None }
        ensures more { IfOk result (λ more. more ≡ is_some (step script.now tick (turn_of self.old progress.old (P.letters post.old)))) }
        ensures next { OnOk result (turn_of self.new progress.new (P.letters post.new) ≡ stepped script.now tick (turn_of self.old progress.old (P.letters post.old))) }
        ensures home { P.home post.new ≡ P.home post.old }
        ensures passes { IsTrue (is_passed (lane_of self.old) (top_of (lane_of self.old).frames)) → IsOk result }
    {
        let depth = self.frames.depth();
        match self.frames.take() {
            Top::Nothing => Ok(false),
            Top::Call(call) => match script.actions(call.body).get(call.place) {
                None => {
                    self.end_call(script, tick, call)?;
                    Ok(true)
                }
                Some(action) => {
                    prove!(call.place < 9_223_372_036_854_775_808);
                    progress.left -= 1;
                    self.act_and_send(alloc, script, tick, progress, action, post)?;
                    Ok(true)
                }
            },
            Top::Iteration {
                context,
                next: None,
                asker,
            } => {
                self.end_iteration(tick, context, asker)?;
                Ok(true)
            }
            Top::Iteration {
                context,
                next: Some(id),
                ..
            } => match self.row(context, id) {
                None => Ok(true),
                Some(row) => {
                    progress.left -= 1;
                    self.dispatch(tick, context, row, depth)?;
                    Ok(true)
                }
            },
            Top::Loop { number, context } => {
                self.step_loop(alloc, script, tick, progress, number, context)
            }
        }
    }

    /// One step of what is innermost, once the tasks are polled. It answers false where there is none: the lane rests, has
    /// ended or is halted.
    pub(crate) fn step<P: Post>(
        &mut self,
        alloc: Global,
        script: &Script,
        tick: u32,
        progress: &mut Progress,
        post: &mut P,
    ) -> Result<bool, AllocError>
        requires within { IsWithin most_count (lane_of self.old) }
        requires now { (lane_of self.old).tasks.tick ≡ tick + 1 }
        requires tick { tick < tick_end }
        requires room { (lane_of self.old).tasks.next < count_end }
        requires view { length (lane_of self.old).view.members ≡ script.now.cancellables }
        requires sent { progress.old.sent < count_end }
        ensures more { IfOk result (λ more. more ≡ is_some (step script.now tick (turn_of self.old progress.old (P.letters post.old)))) }
        ensures next { OnOk result (turn_of self.new progress.new (P.letters post.new) ≡ stepped script.now tick (turn_of self.old progress.old (P.letters post.old))) }
        ensures home { P.home post.new ≡ P.home post.old }
        ensures passes { IsTrue (is_passed (lane_of self.old) (top_of (lane_of self.old).frames)) → IsOk result }
        ensures rests { (lane_of self.old).status ≢ Status.GoesOn → IsOk result }
    {
        match self.status {
            Status::GoesOn => {}
            _ => return Ok(false),
        }
        let may_call = self.frames.calls_in_progress() < MOST_CALLS;
        if (progress.left == 0 || !may_call)
            && let Some(line) = self.halt_line(script, progress.left, may_call)
        {
            progress.left = progress.left.saturating_sub(1);
            self.halt(tick, line)?;
            return Ok(true);
        }
        self.step_innermost(alloc, script, tick, progress, post)
    }
}
