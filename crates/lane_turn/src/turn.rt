//! How a turn begins: the polls of tasks, the lines of those that end late, the replies that they send.
ghost use Rattle.std.specs.Prelude.{◌≡◌, ◌≢◌, ◌+◌, ◌^◌, ◌<◌, ◌≤◌, ◌++◌, [], map, length, IsOk, OnOk, IfOk};
ghost use Rattle.lane_turn.specs.Turn.{begun_with};
ghost use Rattle.lane_turn.specs.Step.{late_line};
ghost use Rattle.lane_turn.specs.Polls.{letters_of, after_polls};
ghost use Rattle.lane_turn.specs.Sound.{IsReady};
ghost use Rattle.lane_turn.specs.Meaning.{lane_of, turn_of};
ghost use Rattle.loop_script.specs.Bounds.{count_end, tick_end};
ghost use Rattle.lane_turn.specs.Limits.{half_count};

use crate::lane::Lane;
use crate::limits::MOST_STEPS;
use crate::line::Event;
use crate::step::Progress;
use loop_script::Script;
use post_office::{Body, Post};
use std::alloc::{AllocError, Global};
use task_steps::Reply;

/// A turn that was begun: whose it is, and how far it has come. The lane takes it on by `LaneState::step`.
#[derive(Debug, Drop)]
pub struct Turn {
    /// The number of its lane.
    pub(crate) lane: u32,
    pub(crate) progress: Progress,
}

impl Progress {
    /// Sends replies.
    fn send_replies<P: Post>(
        &mut self,
        tick: u32,
        sender: u32,
        replies: &[Reply],
        post: &mut P,
    ) -> Result<(), AllocError>
        requires { self.old.sent + length replies.now < count_end }
        ensures sent { OnOk result (self.new ≡ record self.old { sent = self.old.sent + length replies.now }) }
        ensures letters { OnOk result (P.letters post.new ≡ P.letters post.old ++ letters_of tick sender self.old.sent replies.now) }
        ensures home { P.home post.new ≡ P.home post.old }
        ensures none { replies.now ≡ [] → IsOk result }
    {
        'replies: for reply in replies {
            self.send(tick, sender, Body::Complete(*reply), post)?;
        }
        Ok(())
    }
}

impl Lane {
    /// Writes the lines of tasks whose body ends after its reply or with it.
    fn write_late(&mut self, tick: u32, numbers: &[u64]) -> Result<(), AllocError>
        ensures late { OnOk result (lane_of self.new ≡ record (lane_of self.old) { trace = (lane_of self.old).trace ++ map (late_line tick (lane_of self.old).number) numbers.now }) }
        ensures none { numbers.now ≡ [] → IsOk result }
    {
        'numbers: for number in numbers {
            self.write(tick, Event::TaskLate(self.number, *number))?;
        }
        Ok(())
    }

    /// Polls the tasks: sends their replies, and writes which of them are late.
    fn poll_tasks<P: Post>(
        &mut self,
        alloc: Global,
        tick: u32,
        progress: &mut Progress,
        post: &mut P,
    ) -> Result<(), AllocError>
        requires now { (lane_of self.old).tasks.tick ≡ tick }
        requires tick { tick < tick_end }
        requires sent { progress.old.sent + length (lane_of self.old).tasks.started < count_end }
        ensures polled { OnOk result (turn_of self.new progress.new (P.letters post.new)
            ≡ after_polls tick (record (turn_of self.old progress.old (P.letters post.old)) {
              lane = record (lane_of self.old) { tasks = record (lane_of self.old).tasks { started = []; tick = tick + 1 } };
              unpolled = (lane_of self.old).tasks.started;
            })) }
        ensures home { P.home post.new ≡ P.home post.old }
        ensures none { (lane_of self.old).tasks.started ≡ [] → IsOk result }
    {
        let Ok(polled) = self.watch.poll(alloc, tick) else {
            return Err(AllocError);
        };
        progress.send_replies(tick, self.number, polled.replies.as_slice(), post)?;
        self.write_late(tick, polled.late.as_slice())
    }

    /// Begins a turn: polls the tasks. It answers how far the turn has come.
    pub(crate) fn begin_turn<P: Post>(
        &mut self,
        alloc: Global,
        script: &Script,
        tick: u32,
        post: &mut P,
    ) -> Result<Progress, AllocError>
        requires ready { IsReady script.now tick half_count (lane_of self.old) }
        requires tick { tick < tick_end }
        ensures polled { IfOk result (λ progress. turn_of self.new progress (P.letters post.new) ≡ after_polls tick (begun_with tick (P.letters post.old) (lane_of self.old))) }
        ensures home { P.home post.new ≡ P.home post.old }
        ensures none { (lane_of self.old).tasks.started ≡ [] → IsOk result }
    {
        let mut progress = Progress {
            left: MOST_STEPS,
            iterated: false,
            sent: 0,
        };
        self.poll_tasks(alloc, tick, &mut progress, post)?;
        Ok(progress)
    }
}
