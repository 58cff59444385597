//! What the sources of replies hold, by rising id: looked for behind the one taken last, and else by halving. Those that hold none any more are left out in time.
ghost use Rattle.std.specs.Prelude.{◌≡◌, [], OnOk};
ghost use Rattle.lane_turn.specs.Replies.{held_under, held_with, held_without};

use by_id::ById;
use std::alloc::{AllocError, Global};
use std::marker::Model;
use task_steps::Reply;

/// A reply whose source was not dispatched yet.
#[derive(Clone, Copy, Debug)]
pub struct Awaited {
    /// The lane whose task replied.
    pub sender: u32,
    pub reply: Reply,
}

/// The replies that the sources of one context hold, by their ids. Contracts see the list of them.
#[derive(Drop)]
pub struct Replies {
    held: ById<Awaited>,
    /// Where a reply is looked for first: behind the one taken last.
    next: usize,
}

impl Model for Replies {
    ghost use Rattle.std.specs.Prelude.{ℕ, List};
    ghost use Rattle.lane_turn.specs.declared.replies.Awaited.{Awaited};

    ghost Value = { List (ℕ × Awaited) };

    ghost view = { λ s. s.held };
}

impl Replies {
    /// None. It takes no memory.
    pub(crate) fn new(alloc: Global) -> Self
        ensures { result ≡ [] }
    {
        Replies {
            held: ById::new(alloc),
            next: 0,
        }
    }

    /// A source holds a reply.
    pub(crate) fn put(&mut self, id: u64, awaited: Awaited) -> Result<(), AllocError>
        ensures { OnOk result (self.new ≡ held_with id awaited self.old) }
    {
        self.held.put(id, awaited)
    }

    /// The reply that a source holds.
    pub(crate) fn get(&self, id: u64) -> Option<Awaited>
        ensures { result ≡ held_under id self.now }
    {
        self.held.get(id, self.next)
    }

    /// The reply that a source holds, which it holds no more.
    pub(crate) fn take(&mut self, id: u64) -> Option<Awaited>
        ensures taken { result ≡ held_under id self.old }
        ensures left { self.new ≡ held_without id self.old }
    {
        self.held.take(id, &mut self.next)
    }
}
