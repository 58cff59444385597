//! What is known of some tasks without a look at each, by which a poll passes them over.
ghost use Rattle.std.specs.Prelude.{◌≡◌, ◌∷◌, [], IsTrue, ◌↔◌};
ghost use Rattle.task_steps.specs.BookInside.{due_by, mark_of, joined_mark, IsQuiet};
ghost use Rattle.task_steps.specs.Wake.{sooner};

use crate::entry::Entry;

/// Later than any wake by a number: what stands for none.
pub(crate) const NEVER: u32 = u32::MAX;

/// The lesser of two wakes of tasks, where there are such.
pub(crate) fn sooner_wake(a: Option<u64>, b: Option<u64>) -> Option<u64>
    ensures { result ≡ sooner a b }
{
    match (a, b) {
        (None, _) => b,
        (Some(_), None) => a,
        (Some(a), Some(b)) => Some(a.min(b)),
    }
}

/// A wake as a number.
fn due_by(wake: Option<u64>) -> u32
    ensures { result ≡ due_by wake }
{
    match wake {
        None => NEVER,
        Some(wake) => wake.min(u64::from(NEVER)) as u32,
    }
}

/// What is known of some tasks without a look at each.
#[derive(Clone, Copy)]
pub(crate) struct Mark {
    /// The least tick in which one is begun, or to which its body sleeps: `NEVER` where there is none, or none before.
    pub wake: u32,
    /// Whether one has a cancellable that no poll of it saw as cancelled.
    pub heeds: bool,
}

/// A poll of all tasks.
#[derive(Clone, Copy)]
pub(crate) struct Round {
    pub tick: u32,
    /// The tick of the last poll of all.
    pub polled: Option<u32>,
    /// Whether a cancellable that a task heeds, which was polled before, may be in the view.
    pub came: bool,
}

impl Mark {
    /// The mark of no task.
    pub(crate) fn of_none() -> Mark
        ensures { result ≡ mark_of [] }
    {
        Mark {
            wake: NEVER,
            heeds: false,
        }
    }

    /// The mark of one task.
    #[tactic(auto, using(crate::proofs::Marks::mark_one))]
    pub(crate) fn of_one(entry: &Entry) -> Mark
        ensures { result ≡ mark_of (entry.now ∷ []) }
    {
        Mark {
            wake: due_by(entry.wake()),
            heeds: entry.heeds(),
        }
    }

    /// The mark of two lists of tasks together.
    pub(crate) fn join(&self, other: Mark) -> Mark
        ensures { result ≡ joined_mark self.now other }
    {
        Mark {
            wake: self.wake.min(other.wake),
            heeds: self.heeds || other.heeds,
        }
    }

    /// Whether a poll need look at none of the tasks.
    pub(crate) fn is_quiet(&self, round: Round) -> bool
        ensures { IsTrue result ↔ IsQuiet round self.now }
    {
        round.tick < self.wake && !(round.came && self.heeds)
    }
}
