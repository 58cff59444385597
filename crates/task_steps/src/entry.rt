//! A task of the book: its poll, and its reply, which comes with its end, or where its cancellable is first seen as cancelled.
ghost use Rattle.std.specs.Prelude.{◌≡◌, ◌&&◌, not, is_some, true, false};
ghost use Rattle.task_steps.specs.Task.{answer_as};

use crate::body::Body;
use loop_script::Outcome;

/// The reply of a task, which is posted once.
#[derive(Clone, Copy, Debug, PartialEq, Eq)]
pub struct Reply {
    /// The number of the task in its book.
    pub task: u64,
    /// The context that it goes to.
    pub ctx: u32,
    pub outcome: Outcome,
    /// The procedure that it calls.
    pub call: u32,
    pub priority: i32,
    /// The cancellable of the task.
    pub cancel: Option<u32>,
    /// Whether the result is `Cancelled` where the cancellable is cancelled when the result is taken.
    pub check: bool,
}

/// What a task's poll gives.
#[derive(Clone, Copy)]
pub(crate) struct Answer {
    /// The outcome of the reply, where that comes in this tick.
    pub reply: Option<Outcome>,
    /// Whether the body ends in this tick, after the reply or with it.
    pub late: bool,
}

/// A task whose body has not ended.
#[derive(Drop)]
pub(crate) struct Entry {
    pub number: u64,
    pub ctx: u32,
    /// The tick of its first poll.
    pub first: u32,
    pub call: u32,
    pub priority: i32,
    pub cancel: Option<u32>,
    pub check: bool,
    pub return_on_cancel: bool,
    pub run: Body,
}

/// What a poll gives, where `end` is the outcome of a body that ends in it. A task that returns on cancel replies where
/// it is first seen as cancelled; its body runs on, and its end is late.
fn given(returns: bool, cancelled: bool, before: bool, end: Option<Outcome>) -> Answer
    ensures { result ≡ answer_as (returns && cancelled) before end }
{
    if returns && cancelled {
        Answer {
            reply: if before {
                None
            } else {
                Some(Outcome::Cancelled)
            },
            late: end.is_some(),
        }
    } else {
        Answer {
            reply: end,
            late: false,
        }
    }
}

impl Entry {
    ghost use Rattle.std.specs.Prelude.{option_map};
    ghost use Rattle.task_steps.specs.BookInside.{wake_of_entry, caught, heeds, IsPassedBy};
    ghost use Rattle.task_steps.specs.Run.{IsAfter, WakesLater, NoneBefore};
    ghost use Rattle.task_steps.specs.Reply.{reply_of_task};
    ghost use Rattle.task_steps.specs.Task.{task_of, noticed, CanPoll, IsAnswer, IsPolledAt};

    /// Notes that it was not cancelled in the last poll of all, which passed it over.
    pub(crate) fn catch_up(&mut self, polled: Option<u32>)
        requires { IsPassedBy polled self.old.run.wake self.old.run.stage }
        ensures { self.new ≡ caught polled self.old }
    {
        if let Some(tick) = polled
            && !self.run.was_cancelled()
        {
            self.run.pass_to(tick);
        }
    }

    /// Whether it has a cancellable that no poll saw as cancelled.
    pub(crate) fn heeds(&self) -> bool
        ensures { result ≡ heeds self.now }
    {
        self.cancel.is_some() && !self.run.was_cancelled()
    }

    /// Whether a poll in a tick, in which its cancellable is seen as cancelled or not, would give nothing: it neither wakes then nor is
    /// first seen as cancelled.
    pub(crate) fn sleeps_on(&self, tick: u32, cancelled: bool) -> bool
        ensures wakes { result ≡ true → IsAfter tick (wake_of_entry self.now) }
        ensures seen { result ≡ true → (cancelled && not (is_some self.now.run.cancelled)) ≡ false }
    {
        let sleeps = match self.wake() {
            None => true,
            Some(wake) => u64::from(tick) < wake,
        };
        sleeps && (!cancelled || self.run.was_cancelled())
    }

    /// Polls the task in a tick in which its cancellable is seen as cancelled or not.
    pub(crate) fn poll(&mut self, tick: u32, cancelled: bool) -> Answer
        requires { CanPoll tick cancelled self.old }
        ensures task { task_of self.new ≡ noticed tick cancelled (task_of self.old) }
        ensures answer { IsAnswer tick self.new result }
        ensures stage { IsPolledAt tick self.new }
        ensures wakes { WakesLater self.new.run }
        ensures end { NoneBefore self.new.run self.new.run.wake }
    {
        let before = self.run.was_cancelled();
        self.run.set_tick(tick, cancelled);
        let end = self.run.poll_ahead();
        given(self.return_on_cancel, cancelled, before, end)
    }

    /// The reply with an outcome.
    pub(crate) fn reply(&self, outcome: Option<Outcome>) -> Option<Reply>
        ensures { result ≡ option_map (reply_of_task (task_of self.now)) outcome }
    {
        match outcome {
            None => None,
            Some(outcome) => Some(Reply {
                task: self.number,
                ctx: self.ctx,
                outcome,
                call: self.call,
                priority: self.priority,
                cancel: self.cancel,
                check: self.check,
            }),
        }
    }

    /// The tick in which the task is begun, or the one to which its body sleeps.
    pub(crate) fn wake(&self) -> Option<u64>
        ensures { result ≡ wake_of_entry self.now }
    {
        if self.run.is_fresh() {
            Some(u64::from(self.first))
        } else {
            self.run.next_wake()
        }
    }
}
