//! A walk over the seats of an order, in both of its trees, from behind a key on; `candidates` goes by it.
ghost use Rattle.std.specs.Prelude.{◌≡◌, ◌≢◌, ◌∷◌, ◌++◌, [], length, true, false, IfSome, IfNone};
ghost use Rattle.std.specs.Iterator.{at_most};
ghost use Rattle.std.specs.Map.Iter.{TakesFirst};
ghost use Rattle.source_rows.specs.Inserted.{Rises};
ghost use Rattle.source_rows.specs.Seats.{is_ahead};
ghost use Rattle.source_rows.specs.Walk.{Begins, KeysRise, behind_key, after_of};

use crate::row::Key;
use crate::search::is_passed;
use crate::seat_order::SeatOrder;
use crate::seats::{Fork, Seat, Seats};
use std::iter::Iterator;
use std::marker::Model;

/// How many forks a path keeps.
const KEPT: usize = 12;

/// The forks on whose sooner side a walk is, the innermost first: what comes is the seat of each, with those on its later
/// side. Where there are more than it keeps it forgets the outer ones.
#[derive(Drop)]
pub(crate) struct Path<'a> {
    above: [Option<&'a Fork>; KEPT],
    /// Where the innermost one stands.
    top: usize,
}

impl<'a> Model for Path<'a> {
    ghost use Rattle.std.specs.Prelude.{List, ◌≡◌, ◌≤◌, drop, length, IsSome};
    ghost use Rattle.std.specs.List.{AllByRecursion};
    ghost use Rattle.source_rows.specs.declared.seats.Seat.{Seat};
    ghost use Rattle.source_rows.specs.Walk.{most_kept, over};

    ghost Value = { List Seat };

    ghost view = { λ p. over (drop p.top p.above) };

    ghost invariant = { λ p. (length p.above ≡ most_kept) × (p.top ≤ most_kept) × AllByRecursion (λ f. IsSome f) (drop p.top p.above) };
}

impl<'a> Path<'a> {
    fn new() -> Path<'a>
        ensures { result ≡ [] }
    {
        Path {
            above: [None; KEPT],
            top: KEPT,
        }
    }

    /// Goes to the sooner side of a fork.
    #[inline]
    fn push(&mut self, fork: &'a Fork)
        ensures begins { Begins (fork.now.seat ∷ fork.now.later.0 ++ self.old) self.new }
        ensures some { self.new ≢ [] }
    {
        let top = if self.top == 0 { KEPT } else { self.top } - 1;
        self.top = top;
        let above = &mut self.above[..];
        above[top] = Some(fork);
    }

    /// Comes back from the sooner side of a fork.
    #[inline]
    fn pop(&mut self) -> Option<&'a Fork>
        ensures some { IfSome result (λ f. self.old ≡ f.now.seat ∷ f.now.later.0 ++ self.new) }
        ensures none { IfNone result ((self.old ≡ []) × (self.new ≡ [])) }
    {
        if self.top == KEPT {
            return None;
        }
        let above = &self.above[..];
        let fork = above[self.top];
        self.top += 1;
        fork
    }

    /// Goes to the first of some seats.
    fn enter(&mut self, seats: &'a Seats)
        ensures { Begins (seats.now.0 ++ self.old) self.new }
    {
        if let Some(fork) = &seats.root {
            let fork = &**fork;
            self.push(fork);
            self.enter(&fork.sooner);
        }
    }

    /// Goes to the first of some seats that stands behind a key.
    fn seek(&mut self, seats: &'a Seats, after: Option<Key>)
        requires { Rises is_ahead seats.now.0 }
        ensures begins { Begins (behind_key after seats.now.0 ++ self.old) self.new }
        ensures none { self.new ≡ [] → behind_key after seats.now.0 ++ self.old ≡ [] }
    {
        if let Some(fork) = &seats.root {
            let fork = &**fork;
            if is_passed(after, fork.seat.key) {
                self.seek(&fork.later, after);
            } else {
                self.push(fork);
                self.seek(&fork.sooner, after);
            }
        }
    }

    /// Whether it keeps no fork.
    fn is_empty(&self) -> bool
        ensures yes { result ≡ true → self.now ≡ [] }
        ensures no { result ≡ false → self.now ≢ [] }
    {
        self.top == KEPT
    }

    /// Goes to the first of the seats of an order that stands behind a key, where it keeps no fork.
    fn begin(&mut self, seats: &'a SeatOrder, after: Option<Key>)
        requires rises { Rises is_ahead seats.now.0 }
        requires none { self.old ≡ [] }
        ensures begins { Begins (behind_key after seats.now.0) self.new }
        ensures none { self.new ≡ [] → behind_key after seats.now.0 ≡ [] }
    {
        self.seek(&seats.front, after);
        if self.is_empty() {
            self.seek(&seats.back, after);
        }
    }

    /// Comes back from the sooner side of a fork, which is sought where it was forgotten.
    #[inline]
    fn next_fork(&mut self, seats: &'a SeatOrder, after: &After<'a>) -> Option<&'a Fork>
        requires rises { Rises is_ahead seats.now.0 }
        requires begins { Begins (behind_key (after_of after.now) seats.now.0) self.old }
        ensures some { IfSome result (λ f. Begins (behind_key (after_of after.now) seats.now.0) (f.now.seat ∷ f.now.later.0 ++ self.new)) }
        ensures none { IfNone result ((behind_key (after_of after.now) seats.now.0 ≡ []) × (self.new ≡ [])) }
    {
        match self.pop() {
            None => {
                self.begin(seats, after.key());
                self.pop()
            }
            fork => fork,
        }
    }
}

/// How far a walk has come.
#[derive(Drop)]
struct After<'a> {
    /// The key behind which it began, if not at the first seat.
    first: Option<Key>,
    /// The seat that came last.
    last: Option<&'a Seat>,
}

impl<'a> After<'a> {
    /// The key behind which all stand that are left.
    fn key(&self) -> Option<Key>
        ensures { result ≡ after_of self.now }
    {
        match self.last {
            None => self.first,
            Some(seat) => Some(seat.key),
        }
    }
}

/// The seats of a tree that stand behind a key, one after another.
#[derive(Drop)]
pub(crate) struct Walk<'a> {
    seats: &'a SeatOrder,
    after: After<'a>,
    path: Path<'a>,
}

impl<'a> Model for Walk<'a> {
    ghost use Rattle.std.specs.Prelude.{List};
    ghost use Rattle.source_rows.specs.declared.seats.Seat.{Seat};
    ghost use Rattle.source_rows.specs.Inserted.{Rises};
    ghost use Rattle.source_rows.specs.Seats.{is_ahead};
    ghost use Rattle.source_rows.specs.Walk.{Begins, KeysRise, behind_key, after_of};

    ghost Value = { List Seat };

    ghost view = { λ w. behind_key (after_of w.after) w.seats.now.0 };

    ghost invariant = { λ w. Rises is_ahead w.seats.now.0 × KeysRise w.seats.now.0 × Begins (behind_key (after_of w.after) w.seats.now.0) w.path };
}

impl<'a> Walk<'a> {
    /// The seats that stand behind a key, or all.
    pub fn new(seats: &'a SeatOrder, after: Option<Key>) -> Walk<'a>
        requires rises { Rises is_ahead seats.now.0 }
        requires keys { KeysRise seats.now.0 }
        ensures { result ≡ behind_key after seats.now.0 }
    {
        Walk {
            seats,
            after: After {
                first: after,
                last: None,
            },
            path: Path::new(),
        }
    }
}

impl<'a> Iterator for Walk<'a> {
    type Item = &'a Seat;

    ghost next_gives = { TakesFirst (λ s. s.now) };

    ghost remaining = { λ s. at_most (length s) };

    #[inline]
    fn next(&mut self) -> Option<&'a Seat> {
        let fork = self.path.next_fork(self.seats, &self.after)?;
        self.after.last = Some(&fork.seat);
        self.path.enter(&fork.later);
        Some(&fork.seat)
    }
}
