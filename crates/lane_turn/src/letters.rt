//! What a lane sends in its turn: which action sends something, and its letters posted.
ghost use Rattle.std.specs.Prelude.{◌≡◌, ◌+◌, ◌<◌, ◌≤◌, ◌^◌, ◌∷◌, ◌++◌, [], None, false, true, length, OnOk};
ghost use Rattle.loop_script.specs.References.{sizes, action_refers};
ghost use Rattle.loop_script.specs.declared.plan.Plan.{Plan};
ghost use Rattle.lane_turn.specs.Acted.{acted, cancel_sends, sends};
ghost use Rattle.lane_turn.specs.Lane.{Lane as LaneAt};
ghost use Rattle.lane_turn.specs.Handover.{give_sends};
ghost use Rattle.lane_turn.specs.Owned.{invoke_sends};
ghost use Rattle.lane_turn.specs.Step.{sending};
ghost use Rattle.lane_turn.specs.Sound.{IsWithin};
ghost use Rattle.lane_turn.specs.Meaning.{lane_of, turn_of};
ghost use Rattle.loop_script.specs.Bounds.{count_end, tick_end};
ghost use Rattle.lane_turn.specs.Limits.{most_count};

use crate::lane::Lane;
use crate::owned::invoke_spec;
use crate::step::Progress;
use loop_script::{Action, Script};
use post_office::{Body, Letter, Post};
use std::alloc::{AllocError, Global};

/// Whether an action is one that may send something.
#[inline]
fn may_send(action: &Action) -> bool
    ensures { result ≡ false → (script : Plan) (lane : LaneAt) → sends script action.now lane ≡ None }
{
    matches!(
        action,
        Action::Cancel(_) | Action::Invoke { .. } | Action::Give { .. }
    )
}

impl Progress {
    /// Sends the next letter of the turn.
    pub(crate) fn send<P: Post>(
        &mut self,
        tick: u32,
        sender: u32,
        body: Body,
        post: &mut P,
    ) -> Result<(), AllocError>
        requires { self.old.sent < count_end }
        ensures sent { OnOk result (self.new ≡ record self.old { sent = self.old.sent + 1 }) }
        ensures letters { OnOk result (P.letters post.new ≡ P.letters post.old ++ (record { tick = tick; sender = sender; number = self.old.sent; body = body }) ∷ []) }
        ensures home { P.home post.new ≡ P.home post.old }
    {
        let letter = Letter {
            tick,
            sender,
            number: self.sent,
            body,
        };
        match post.post(letter) {
            Ok(()) => {
                self.sent += 1;
                Ok(())
            }
            Err(_) => Err(AllocError),
        }
    }
}

impl Lane {
    /// What a cancel sends: a cancellable that the lane had not seen cancelled goes to all lanes.
    fn cancel_sends(&self, c: u32) -> Option<Body>
        ensures { result ≡ cancel_sends c (lane_of self.now) }
    {
        if self.watch.view().is_cancelled(c) {
            None
        } else {
            Some(Body::Cancelled(c))
        }
    }

    /// What an invoke sends: a source for a context that is another lane's.
    fn invoke_sends(&self, context: u32, proc: u32) -> Option<Body>
        ensures { result ≡ invoke_sends context proc (lane_of self.now) }
    {
        if self.has(context) {
            None
        } else {
            Some(Body::Attach(context, invoke_spec(proc)))
        }
    }

    /// What a give sends, where the context may be given.
    fn give_sends(&self, script: &Script, context: u32, to: u32) -> Option<Body>
        ensures { result ≡ give_sends script.now context to (lane_of self.now) }
    {
        if self.may_give(script, context, to) {
            Some(Body::Give(context, to))
        } else {
            None
        }
    }

    /// What an action sends.
    #[inline]
    fn sends(&self, script: &Script, action: &Action) -> Option<Body>
        ensures { result ≡ sends script.now action.now (lane_of self.now) }
    {
        match action {
            Action::Cancel(c) => self.cancel_sends(*c),
            Action::Invoke { context, proc } => self.invoke_sends(*context, *proc),
            Action::Give { context, lane } => self.give_sends(script, *context, *lane),
            _ => None,
        }
    }

    /// Does an action of the innermost call, and sends what it sends.
    pub(crate) fn act_and_send<P: Post>(
        &mut self,
        alloc: Global,
        script: &Script,
        tick: u32,
        progress: &mut Progress,
        action: &Action,
        post: &mut P,
    ) -> Result<(), AllocError>
        requires within { IsWithin most_count (lane_of self.old) }
        requires now { (lane_of self.old).tasks.tick ≡ tick + 1 }
        requires tick { tick < tick_end }
        requires room { (lane_of self.old).tasks.next < count_end }
        requires view { length (lane_of self.old).view.members ≡ script.now.cancellables }
        requires refers { action_refers (sizes script.now) action.now ≡ true }
        requires sent { progress.old.sent < count_end }
        ensures acted { OnOk result (turn_of self.new progress.new (P.letters post.new)
            ≡ record (sending tick (sends script.now action.now (lane_of self.old)) (turn_of self.old progress.old (P.letters post.old))) { lane = acted script.now tick action.now (lane_of self.old) }) }
        ensures home { P.home post.new ≡ P.home post.old }
    {
        if !may_send(action) {
            return self.act(alloc, script, tick, action);
        }
        let sender = self.number;
        let body = self.sends(script, action);
        self.act(alloc, script, tick, action)?;
        match body {
            None => Ok(()),
            Some(body) => progress.send(tick, sender, body, post),
        }
    }
}
