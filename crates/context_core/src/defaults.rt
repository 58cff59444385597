//! The stack of thread-default contexts of a lane.
ghost use Rattle.std.specs.Prelude.{◌≡◌, [], OnOk, OnErr};
ghost use Rattle.context_core.specs.Defaults.{top_of, is_on_top, is_pushed, pushed, popped};
ghost use Rattle.context_core.specs.Pushed.{contexts_of};

use std::alloc::{AllocError, Global};
use std::collections::BTreeSet;
use std::marker::Model;

/// A context that was pushed.
#[derive(Clone, Copy, Debug, PartialEq, Eq)]
pub struct Pushed {
    /// Its number.
    pub context: u32,
    /// Whether it stood on the stack already.
    pub again: bool,
}

/// The contexts that a lane has pushed as its thread-default ones, the last one on top
/// (GMainContext: `g_main_context_push_thread_default`). Contexts go by their number in the script.
#[derive(Drop)]
pub struct DefaultStack {
    pushed: Vec<Pushed>,
    /// The contexts that stand on the stack.
    contexts: BTreeSet<u32>,
}

impl Model for DefaultStack {
    ghost use Rattle.context_core.specs.Defaults.{Defaults};
    ghost use Rattle.context_core.specs.Pushed.{contexts_of, IsKnown};

    ghost Value = { Defaults };

    ghost view = { λ s. contexts_of s.pushed.items };

    ghost invariant = { λ s. IsKnown s.pushed.items s.contexts };
}

impl DefaultStack {
    /// A stack with no context.
    pub fn new(alloc: Global) -> Self
        ensures { result ≡ [] }
    {
        DefaultStack {
            pushed: Vec::new(alloc),
            contexts: BTreeSet::new(alloc),
        }
    }

    /// Pushes a context. After a refusal of memory the stack is unchanged.
    pub fn push(&mut self, context: u32) -> Result<(), AllocError>
        ensures pushed { OnOk result (self.new ≡ pushed context self.old) }
        ensures same { OnErr result (self.new ≡ self.old) }
    {
        let Ok(is_new) = self.contexts.insert(context) else {
            return Err(AllocError);
        };
        let again = !is_new;
        if self.pushed.push(Pushed { context, again }).is_err() {
            if is_new {
                let _ = self.contexts.remove(&context);
            }
            return Err(AllocError);
        }
        Ok(())
    }

    /// Pops a context. It answers false, and changes nothing, where that is not the one on top.
    pub fn pop(&mut self, context: u32) -> bool
        ensures answer { result ≡ is_on_top context self.old }
        ensures popped { self.new ≡ popped context self.old }
    {
        match self.pushed.last().copied() {
            Some(top) if top.context == context => {
                let _ = self.pushed.pop();
                if !top.again {
                    let _ = self.contexts.remove(&context);
                }
                true
            }
            _ => false,
        }
    }

    /// The thread-default context, unless none was pushed.
    pub fn top(&self) -> Option<u32>
        ensures { result ≡ top_of self.now }
    {
        match self.pushed.last() {
            None => None,
            Some(top) => Some(top.context),
        }
    }

    /// What was pushed and not popped since, the last one on top. It takes no memory.
    pub fn pushed(&self) -> &[Pushed]
        ensures { contexts_of result.now ≡ self.now }
    {
        self.pushed.as_slice()
    }

    /// Whether a context was pushed and not popped since, on top or below.
    pub fn contains(&self, context: u32) -> bool
        ensures { result ≡ is_pushed context self.now }
    {
        self.contexts.contains(&context)
    }
}
