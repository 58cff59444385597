//! What a lane does with the letters of a tick: sources come, cancellables are cancelled.
ghost use Rattle.std.specs.Prelude.{◌≡◌, ◌+◌, ◌≤◌, ◌^◌, [], length, IsOk, OnOk};
ghost use Rattle.lane_turn.specs.Deliver.{reply_spec, arrived, arrived_source, received, received_all};
ghost use Rattle.lane_turn.specs.Sound.{IsWithin, IsReady};
ghost use Rattle.lane_turn.specs.Meaning.{lane_of};
ghost use Rattle.loop_script.specs.Bounds.{latest};
ghost use Rattle.lane_turn.specs.Limits.{half_count, most_count, most_letters};

use crate::lane::Lane;
use crate::line::Event;
use crate::replies::Awaited;
use loop_script::{Kind, Script, SourceSpec};
use post_office::{Body, Letter};
use std::alloc::{AllocError, Global};
use task_steps::Reply;

/// The source of a reply.
fn reply_spec(reply: &Reply) -> SourceSpec
    ensures { result ≡ reply_spec reply.now }
{
    SourceSpec {
        kind: Kind::Idle,
        priority: reply.priority,
        recurse: false,
        call: Some(reply.call),
    }
}

impl Lane {
    /// Attaches the source of a reply, where its context is the lane's.
    fn arrive(
        &mut self,
        script: &Script,
        tick: u32,
        sender: u32,
        reply: Reply,
    ) -> Result<(), AllocError>
        requires { IsWithin most_count (lane_of self.old) }
        ensures { OnOk result (lane_of self.new ≡ arrived script.now tick sender reply (lane_of self.old)) }
    {
        if !self.has(reply.ctx) {
            return Ok(());
        }
        let id = self.attach(reply.ctx, reply_spec(&reply), script.now(tick))?;
        if let Some(held) = self.replies.get_mut(reply.ctx as usize) {
            held.put(id, Awaited { sender, reply })?;
        }
        self.write(tick, Event::Arrive(reply.ctx, id))
    }

    /// Attaches the source of an invoked procedure, where its context is the lane's.
    fn arrive_source(
        &mut self,
        tick: u32,
        now: u64,
        context: u32,
        spec: SourceSpec,
    ) -> Result<(), AllocError>
        requires within { IsWithin most_count (lane_of self.old) }
        requires now { now ≤ latest }
        ensures { OnOk result (lane_of self.new ≡ arrived_source tick now context spec (lane_of self.old)) }
    {
        if !self.has(context) {
            return Ok(());
        }
        let id = self.attach(context, spec, now)?;
        self.write(tick, Event::Arrive(context, id))
    }

    /// Takes a letter.
    fn receive(
        &mut self,
        alloc: Global,
        script: &Script,
        tick: u32,
        letter: &Letter,
    ) -> Result<(), AllocError>
        requires within { IsWithin most_count (lane_of self.old) }
        requires now { (lane_of self.old).tasks.tick ≡ tick + 1 }
        ensures { OnOk result (lane_of self.new ≡ received script.now tick letter.now (lane_of self.old)) }
    {
        match letter.body {
            Body::Attach(context, spec) => {
                self.arrive_source(tick, script.now(tick), context, spec)
            }
            Body::Complete(reply) => self.arrive(script, tick, letter.sender, reply),
            Body::Cancelled(c) => self.act_cancel(alloc, script, tick, c),
            Body::Give(_, _) => Ok(()),
        }
    }

    /// Takes the letters of a tick.
    pub(crate) fn take_letters(
        &mut self,
        alloc: Global,
        script: &Script,
        tick: u32,
        letters: &[Letter],
    ) -> Result<(), AllocError>
        requires ready { IsReady script.now (tick + 1) half_count (lane_of self.old) }
        requires few { length letters.now ≤ most_letters }
        ensures delivered { OnOk result (lane_of self.new ≡ received_all script.now tick letters.now (lane_of self.old)) }
        ensures nothing { letters.now ≡ [] → IsOk result }
    {
        'letters: for letter in letters {
            self.receive(alloc, script, tick, letter)?;
        }
        Ok(())
    }
}
