//! Who owns a context, and the actions that go by it: push, pop, acquire, release, invoke; and the thread-default context.
ghost use Rattle.std.specs.Prelude.{◌≡◌, ◌≤◌, ◌^◌, true, false, None, OnOk};
ghost use Rattle.context_core.specs.Defaults.{acquired, released};
ghost use Rattle.lane_turn.specs.Lane.{context_at, with_context};
ghost use Rattle.lane_turn.specs.Owned.{default_context, grounds, has_any, is_owned, may_release, push, pop, show_default, acquire, release, invoke_spec, called_at_once, invoke};
ghost use Rattle.lane_turn.specs.Sound.{IsWithin};
ghost use Rattle.lane_turn.specs.Meaning.{lane_of};
ghost use Rattle.loop_script.specs.Bounds.{latest};
ghost use Rattle.lane_turn.specs.Limits.{most_count};

use crate::lane::Lane;
use crate::layer::{Call, Origin};
use crate::limits::MOST_CALLS;
use crate::line::{Event, Invoked, Word};
use loop_script::{Body, Kind, SourceSpec};
use std::alloc::AllocError;

/// By what a lane owns one of its contexts: it does where one of the three holds.
#[derive(Clone, Copy, Debug, PartialEq, Eq)]
pub struct Grounds {
    /// How often it was acquired and not released (GMainContext: `g_main_context_acquire`).
    pub acquires: u64,
    /// Whether it is on the stack of thread-default contexts.
    pub pushed: bool,
    /// Whether something in progress owns it: an iteration of it, the run of a loop of it, or a call of an invoke that acquired it.
    pub in_progress: bool,
}

/// The source of a procedure that is invoked where it can't be called at once.
pub(crate) fn invoke_spec(proc: u32) -> SourceSpec
    ensures { result ≡ invoke_spec proc }
{
    SourceSpec {
        kind: Kind::Idle,
        priority: 0,
        recurse: false,
        call: Some(proc),
    }
}

impl Lane {
    /// The thread-default context.
    pub(crate) fn default_context(&self) -> u32
        ensures { result ≡ default_context (lane_of self.now) }
    {
        self.defaults.top().unwrap_or(0)
    }

    /// By what the lane owns one of its contexts.
    pub(crate) fn grounds(&self, context: u32) -> Option<Grounds>
        ensures grounds { result ≡ grounds context (lane_of self.now) }
        ensures owned { has_any result ≡ is_owned context (lane_of self.now) }
    {
        match self.context(context) {
            Some(kept) => Some(Grounds {
                acquires: kept.acquires(),
                pushed: self.defaults.contains(context),
                in_progress: self.frames.owns(context),
            }),
            None => None,
        }
    }

    /// Whether the lane has a context and owns it.
    pub(crate) fn is_owned(&self, context: u32) -> bool
        ensures { result ≡ is_owned context (lane_of self.now) }
    {
        match self.context(context) {
            Some(kept) => {
                kept.is_owned() || self.defaults.contains(context) || self.frames.owns(context)
            }
            None => false,
        }
    }

    /// Acquires a context of the lane.
    fn acquire(&mut self, context: u32)
        requires { IsWithin most_count (lane_of self.old) }
        ensures { lane_of self.new ≡ with_context context acquired (lane_of self.old) }
    {
        if let Some(context) = self.context_mut(context) {
            context.acquire();
        }
    }

    /// Releases a context of the lane, and answers whether it was acquired.
    fn release(&mut self, context: u32) -> bool
        ensures may { result ≡ may_release (context_at context (lane_of self.old)) }
        ensures released { result ≡ true → lane_of self.new ≡ with_context context released (lane_of self.old) }
        ensures none { result ≡ false → lane_of self.new ≡ lane_of self.old }
    {
        match self.context_mut(context) {
            Some(context) => context.release(),
            None => false,
        }
    }

    /// Pushes a context on the stack of thread-default contexts; one of another lane is a miss.
    pub(crate) fn act_push(&mut self, tick: u32, context: u32) -> Result<(), AllocError>
        ensures { OnOk result (lane_of self.new ≡ push tick context (lane_of self.old)) }
    {
        if !self.has(context) {
            return self.write(tick, Event::Miss(Word::Push));
        }
        self.defaults.push(context)
    }

    /// Pops a context that is on top of the stack of thread-default contexts; else it misses.
    pub(crate) fn act_pop(&mut self, tick: u32, context: u32) -> Result<(), AllocError>
        ensures { OnOk result (lane_of self.new ≡ pop tick context (lane_of self.old)) }
    {
        if self.defaults.pop(context) {
            Ok(())
        } else {
            self.write(tick, Event::Miss(Word::Pop))
        }
    }

    /// Writes which context is the thread-default one.
    pub(crate) fn act_show_default(&mut self, tick: u32) -> Result<(), AllocError>
        ensures { OnOk result (lane_of self.new ≡ show_default tick (lane_of self.old)) }
    {
        let context = self.default_context();
        self.write(tick, Event::Default(context))
    }

    /// Acquires a context of the lane, and writes whether it did.
    pub(crate) fn act_acquire(&mut self, tick: u32, context: u32) -> Result<(), AllocError>
        requires { IsWithin most_count (lane_of self.old) }
        ensures { OnOk result (lane_of self.new ≡ acquire tick context (lane_of self.old)) }
    {
        let has = self.has(context);
        if has {
            self.acquire(context);
        }
        self.write(tick, Event::Acquire(context, has))
    }

    /// Releases a context that an action acquired; else it misses.
    pub(crate) fn act_release(&mut self, tick: u32, context: u32) -> Result<(), AllocError>
        ensures { OnOk result (lane_of self.new ≡ release tick context (lane_of self.old)) }
    {
        if self.release(context) {
            Ok(())
        } else {
            self.write(tick, Event::Miss(Word::Release))
        }
    }

    /// Calls a procedure that is invoked, with the context that it acquires for the call, or halts the lane where too many
    /// calls are in progress.
    fn call_at_once(
        &mut self,
        tick: u32,
        context: u32,
        proc: u32,
        acquires: Option<u32>,
    ) -> Result<(), AllocError>
        requires { IsWithin most_count (lane_of self.old) }
        ensures { OnOk result (lane_of self.new ≡ called_at_once tick context proc acquires (lane_of self.old)) }
    {
        if self.frames.calls_in_progress() >= MOST_CALLS {
            return self.halt(tick, Event::HaltDepth);
        }
        self.write(tick, Event::Invoke(context, Invoked::Direct))?;
        self.frames.begin_call(Call {
            origin: Origin::Invoke(acquires),
            body: Body::Procedure(proc),
            place: 0,
        })
    }

    /// Invokes a procedure in a context: at once where the lane owns it or has it as its default, as a source, or by a letter.
    pub(crate) fn act_invoke(
        &mut self,
        tick: u32,
        now: u64,
        context: u32,
        proc: u32,
    ) -> Result<(), AllocError>
        requires within { IsWithin most_count (lane_of self.old) }
        requires now { now ≤ latest }
        ensures { OnOk result (lane_of self.new ≡ invoke tick now context proc (lane_of self.old)) }
    {
        if !self.has(context) {
            return self.write(tick, Event::Invoke(context, Invoked::Posted));
        }
        if self.is_owned(context) {
            return self.call_at_once(tick, context, proc, None);
        }
        if self.default_context() == context {
            return self.call_at_once(tick, context, proc, Some(context));
        }
        self.attach(context, invoke_spec(proc), now)?;
        self.write(tick, Event::Invoke(context, Invoked::Attached))
    }
}
