//! The action `give`, and a context with its sources as it leaves one lane and comes into another at the end of a tick.
ghost use Rattle.std.specs.Prelude.{◌≡◌, [], true, None, Some, OnOk, is_none};
ghost use Rattle.loop_script.specs.References.{sizes};
ghost use Rattle.lane_turn.specs.Lane.{context_at, is_given};
ghost use Rattle.lane_turn.specs.Handover.{may_give, give, with_given, with_place, with_replies, handed_of, left_by, taken_over};
ghost use Rattle.lane_turn.specs.Replies.{replies_at};
ghost use Rattle.lane_turn.specs.Meaning.{lane_of};

use crate::lane::Lane;
use crate::line::{Event, Word};
use crate::replies::Replies;
use context_core::Context;
use loop_script::Script;
use std::alloc::{AllocError, Global};
use std::marker::Model;
use std::mem;

/// A context on its way from the lane that gave it to the one that takes it over: its sources as they stood, and what
/// those of replies hold. Contracts see its number and these.
#[derive(Drop)]
pub struct Held {
    number: u32,
    context: Context,
    replies: Replies,
}

impl Model for Held {
    ghost use Rattle.lane_turn.specs.Lane.{Kept};

    ghost Value = { Kept };

    ghost view = { λ s. record { number = s.number; context = s.context; replies = s.replies } };
}

impl Lane {
    /// Whether the lane gave a context in this tick.
    pub(crate) fn is_given(&self, context: u32) -> bool
        ensures { result ≡ is_given context (lane_of self.now) }
    {
        match self.given.get(context as usize) {
            Some(given) => *given,
            None => false,
        }
    }

    /// Whether a context may be given to a lane: it is the lane's, which does not own it, and the other is another of the script.
    pub(crate) fn may_give(&self, script: &Script, context: u32, to: u32) -> bool
        ensures { result ≡ may_give script.now context to (lane_of self.now) }
    {
        self.has(context) && !self.is_owned(context) && to < script.lanes() && to != self.number
    }

    /// Gives a context to another lane at the end of the tick; it misses where the lane may not give it.
    pub(crate) fn act_give(
        &mut self,
        script: &Script,
        tick: u32,
        context: u32,
        to: u32,
    ) -> Result<(), AllocError>
        ensures { OnOk result (lane_of self.new ≡ give script.now tick context to (lane_of self.old)) }
    {
        if !self.may_give(script, context, to) {
            return self.miss(tick, Word::Give);
        }
        self.set_given(context, true);
        self.write(tick, Event::Give { context, lane: to })
    }

    /// Sets whether the lane gave a context in this tick.
    fn set_given(&mut self, context: u32, given: bool)
        ensures { lane_of self.new ≡ with_given context given (lane_of self.old) }
    {
        if let Some(place) = self.given.get_mut(context as usize) {
            *place = given;
        }
    }

    /// A context, which the lane has no more.
    fn take_context(&mut self, context: u32) -> Option<Context>
        ensures context { result ≡ context_at context (lane_of self.old) }
        ensures left { lane_of self.new ≡ with_place context None (lane_of self.old) }
    {
        match self.contexts.get_mut(context as usize) {
            Some(place) => place.take(),
            None => None,
        }
    }

    /// The replies that the sources of a context hold, which the lane has no more.
    fn take_replies(&mut self, alloc: Global, context: u32) -> Replies
        ensures replies { result ≡ replies_at context (lane_of self.old).replies }
        ensures left { lane_of self.new ≡ with_replies context [] (lane_of self.old) }
    {
        match self.replies.get_mut(context as usize) {
            Some(held) => mem::replace(held, Replies::new(alloc)),
            None => Replies::new(alloc),
        }
    }

    /// A context that was given, which is the lane's no more; none, and nothing is changed, where no such context was given.
    /// It takes no memory.
    pub(crate) fn hand_over(&mut self, alloc: Global, context: u32) -> Option<Held>
        ensures handed { result ≡ handed_of context (lane_of self.old) }
        ensures left { lane_of self.new ≡ left_by context (lane_of self.old) }
    {
        if !self.is_given(context) || self.context(context).is_none() {
            return None;
        }
        match self.take_context(context) {
            None => None,
            Some(kept) => {
                let replies = self.take_replies(alloc, context);
                self.set_given(context, false);
                Some(Held {
                    number: context,
                    context: kept,
                    replies,
                })
            }
        }
    }

    /// A context that comes into its place.
    fn put_context(&mut self, number: u32, context: Context)
        ensures { lane_of self.new ≡ with_place number (Some context) (lane_of self.old) }
    {
        if let Some(place) = self.contexts.get_mut(number as usize) {
            *place = Some(context);
        }
    }

    /// The replies that the sources of a context hold from now on.
    fn put_replies(&mut self, number: u32, replies: Replies)
        ensures { lane_of self.new ≡ with_replies number replies (lane_of self.old) }
    {
        if let Some(held) = self.replies.get_mut(number as usize) {
            *held = replies;
        }
    }

    /// Takes a context over, and writes so.
    pub(crate) fn take_over(&mut self, tick: u32, held: Held) -> Result<(), AllocError>
        ensures { OnOk result (lane_of self.new ≡ taken_over tick held (lane_of self.old)) }
    {
        let Held {
            number,
            context,
            replies,
        } = held;
        self.put_context(number, context);
        self.put_replies(number, replies);
        self.write(tick, Event::Hold(number))
    }
}
