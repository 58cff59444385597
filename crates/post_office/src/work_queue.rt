//! The queue of a work list, which it shares with workers, and how each value is taken from it once.
ghost use Rattle.std.specs.Prelude.{◌≡◌, Contains, IfNone, IfSome, MatchOption};
ghost use Rattle.post_office.specs.Passes.{takes};
ghost use Rattle.post_office.specs.WorkQueue.{WasEmpty};

use crate::views::WorkView;
use crossbeam_queue::protocol::{Join, Lesson, Outcome, Protocol, Split};
use crossbeam_queue::{RuledSegQueue, SegPass};
use std::marker::Model;
use std::sync::Wait;

/// The rule: at every moment claims of single values led there from what was put.
pub(crate) struct Claimed;

impl<T> Protocol<T, WorkView<T>> for Claimed {
    ghost use Rattle.std.specs.Prelude.{[]};
    ghost use Rattle.post_office.specs.WorkQueue.{WasClaimed, keeper};

    ghost holds = { WasClaimed };

    ghost first = { keeper [] [] [] 0 };
}

/// A pass takes a value that was put, or learns that none waits.
pub(crate) struct Takes;

impl<T> Outcome<T, WorkView<T>> for Takes {
    ghost use Rattle.std.specs.Prelude.{◌≡◌, Contains};
    ghost use Rattle.post_office.specs.WorkQueue.{took};

    ghost then = { λ v x w. (w ≡ took v x) × Contains v.put x };
}

impl<T> Lesson<T, WorkView<T>> for Takes {
    ghost use Rattle.post_office.specs.WorkQueue.{WasSeen};

    ghost fact = { WasSeen };
}

/// The list's own pass puts a value.
pub(crate) struct Puts;

impl<T> Outcome<T, WorkView<T>> for Puts {
    ghost use Rattle.std.specs.Prelude.{◌≡◌, [], ◌∷◌, ◌++◌};
    ghost use Rattle.post_office.specs.WorkQueue.{keeper};

    ghost then = { λ v x w. w ≡ keeper (v.put ++ x ∷ []) v.taken v.recorded v.out };
}

/// A pass goes out from the list's own, and comes back to it.
pub(crate) struct Out;

impl<T> Split<WorkView<T>> for Out {
    ghost use Rattle.std.specs.Prelude.{[], ◌+◌};
    ghost use Rattle.post_office.specs.WorkQueue.{keeper, taker};

    ghost left = { λ v. keeper v.put v.taken v.recorded (v.out + 1) };

    ghost right = { λ v. taker v.put [] 1 };
}

impl<T> Join<WorkView<T>> for Out {
    ghost use Rattle.std.specs.Prelude.{[], ◌∷◌, ◌++◌, ◌-◌};
    ghost use Rattle.post_office.specs.WorkQueue.{keeper, taker};

    ghost both = { λ v w. keeper v.put v.taken (v.recorded ++ w.taken ∷ []) (v.out - 1) };

    ghost spent = { taker [] [] 0 };
}

pub(crate) type Queue<T> = RuledSegQueue<T, WorkView<T>, Claimed>;

pub(crate) type Seat<T> = SegPass<T, WorkView<T>>;

/// With this one worker takes from a work list. It takes no memory. Contracts see of which list it is, what was put there, and what it took.
#[derive(Drop)]
pub struct WorkPass<T> {
    pub(crate) seat: Seat<T>,
}

impl<T> Model for WorkPass<T> {
    ghost use Rattle.std.specs.Prelude.{◌≡◌, None};
    ghost use Rattle.post_office.specs.Passes.{Taking};
    ghost use Rattle.post_office.specs.WorkQueue.{taker};

    ghost Value = { Taking T };

    ghost view = { λ p. record { home = p.seat.web; put = p.seat.me.view.client.put; taken = p.seat.me.view.client.taken } };

    ghost invariant = { λ p. (p.seat.me.view.client ≡ taker p.seat.me.view.client.put p.seat.me.view.client.taken 1) × (p.seat.me.hand ≡ None) × (p.seat.me.spare ≡ None) };
}

/// The part of a work list that workers share. Contracts see which list it is of.
pub struct WorkQueue<T> {
    pub(crate) queue: Queue<T>,
}

impl<T> Model for WorkQueue<T> {
    ghost use Rattle.std.specs.Prelude.{ℕ};

    ghost Value = { ℕ × ℕ };

    ghost view = { λ q. q.queue.web };
}

impl<T: Drop> WorkQueue<T> {
    /// Takes one of the values that were put; the pass has it then behind those that it took before. `None` changes nothing, and
    /// tells of no value: that each was taken, once, is what `WorkList::take_rest` shows when all passes are back.
    pub fn take<R: Wait>(&self, rt: &R, pass: &mut WorkPass<T>) -> Option<T>
        requires home { pass.old.home ≡ self.now }
        ensures took { MatchOption result (pass.new ≡ pass.old) (λ x. pass.new ≡ takes pass.old x) }
        ensures put { IfSome result (λ x. Contains pass.old.put x) }
        ensures empty { IfNone result (WasEmpty pass.old) }
    {
        self.queue.pop_as::<Takes, R>(rt, &mut pass.seat)
    }
}
