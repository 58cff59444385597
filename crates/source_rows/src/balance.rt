//! Rotations that keep a tree of seats balanced, and what is left of one without its root.
ghost use Rattle.std.specs.Prelude.{◌≡◌, ◌+◌, ◌≤◌, ◌<◌, ◌^◌, max, length, ◌∷◌, ◌++◌, Some, is_some};
ghost use Rattle.loop_script.specs.Bounds.{count_end};
ghost use Rattle.source_rows.specs.Seats.{least_of};
ghost use Rattle.source_rows.specs.SeatTree.{seats_of, seen_of, LosesRoot, IsEven, IsNearlyEven, IsNoted, AreNearlyEven, IsHeight, IsLowered, Balances};

use crate::least::least_over;
use crate::room::Room;
use crate::seats::{Fork, Seats};

/// Takes the seat out that stands at the root, and hands its room out. It is kept apart, so that the way to it stays small.
#[inline(never)]
#[tactic(auto, using(crate::proofs::Low::low_even, crate::proofs::Low::low_sides))]
pub(crate) fn remove_root(root: &mut Option<Box<Fork>>) -> Option<Room>
    requires even { IsEven root.old }
    requires few { length (seen_of root.old).0 ≤ count_end }
    ensures room { is_some result ≡ is_some root.old }
    ensures seats { LosesRoot root.old root.new }
    ensures even { IsEven root.new }
    ensures height { IsLowered (seen_of root.old).1 (seen_of root.new).1 }
{
    match root.take() {
        None => None,
        Some(mut fork) => {
            let (sooner, mut later) = fork.take_sides();
            *root = match later.remove_first() {
                Some(next) => Some(balanced(next, sooner, later)),
                None => sooner.root,
            };
            Some(Room { fork })
        }
    }
}

/// A seat over two sides, in its room.
fn joined(mut fork: Box<Fork>, sooner: Seats, later: Seats) -> Box<Fork>
    requires { max sooner.1 later.1 + 1 < 2 ^ 64 }
    ensures sooner { result.value.sooner ≡ sooner }
    ensures seat { result.value.seat ≡ fork.value.seat }
    ensures height { result.value.height ≡ max sooner.1 later.1 + 1 }
    ensures least { result.value.least ≡ least_of (sooner.0 ++ fork.value.seat ∷ later.0) }
    ensures later { result.value.later ≡ later }
{
    fork.height = sooner.height().max(later.height()) + 1;
    fork.least = least_over(&sooner, &fork.seat, &later);
    fork.sooner = sooner;
    fork.later = later;
    fork
}

/// Brings a tree into balance after a change of one side.
pub(crate) fn balance(root: &mut Option<Box<Fork>>)
    requires { IsNearlyEven root.old }
    ensures { Balances root.old root.new }
{
    if let Some(fork) = root {
        let fork = &mut **fork;
        fork.least = least_over(&fork.sooner, &fork.seat, &fork.later);
    }
    balance_noted(root);
}

/// Brings a tree into balance after a change of one side, where its marks and its least time are noted already.
#[inline]
pub(crate) fn balance_noted(root: &mut Option<Box<Fork>>)
    requires near { IsNearlyEven root.old }
    requires noted { IsNoted root.old }
    ensures { Balances root.old root.new }
{
    if let Some(fork) = root {
        let fork = &mut **fork;
        let (low, high) = (fork.sooner.height(), fork.later.height());
        if low.abs_diff(high) <= 1 {
            fork.height = low.max(high) + 1;
            return;
        }
    }
    rotate(root);
}

/// Puts a tree together anew, so that it is balanced. It is kept apart, so that who needs it rarely stays small.
#[inline(never)]
fn rotate(root: &mut Option<Box<Fork>>)
    requires { IsNearlyEven root.old }
    ensures { Balances root.old root.new }
{
    *root = match root.take() {
        None => None,
        Some(mut fork) => {
            let (sooner, later) = fork.take_sides();
            Some(balanced(fork, sooner, later))
        }
    };
}

/// A seat over two sides that differ in height by at most two.
#[tactic(auto, using(crate::proofs::Low::low_even, crate::proofs::Low::low_sides))]
pub(crate) fn balanced(fork: Box<Fork>, sooner: Seats, later: Seats) -> Box<Fork>
    requires { AreNearlyEven sooner later }
    ensures even { IsEven (Some result) }
    ensures seats { seats_of result.value ≡ sooner.0 ++ fork.value.seat ∷ later.0 }
    ensures height { IsHeight sooner.1 later.1 result.value.height }
{
    let (low, high) = (sooner.height(), later.height());
    if low > high + 1 {
        lift_sooner(fork, sooner, later)
    } else if high > low + 1 {
        lift_later(fork, sooner, later)
    } else {
        joined(fork, sooner, later)
    }
}

/// A seat over two sides of which the sooner is the higher by two.
#[tactic(auto, using(crate::proofs::Low::low_even, crate::proofs::Low::low_sides))]
fn lift_sooner(fork: Box<Fork>, sooner: Seats, later: Seats) -> Box<Fork>
    requires sides { AreNearlyEven sooner later }
    requires higher { sooner.1 ≡ later.1 + 2 }
    ensures even { IsEven (Some result) }
    ensures seats { seats_of result.value ≡ sooner.0 ++ fork.value.seat ∷ later.0 }
    ensures height { IsHeight sooner.1 later.1 result.value.height }
{
    let Some(mut low) = sooner.root else {
        unreachable!()
    };
    let (first, inner) = low.take_sides();
    if first.height() >= inner.height() {
        let high = Some(joined(fork, inner, later));
        return joined(low, first, Seats { root: high });
    }
    let Some(mut middle) = inner.root else {
        unreachable!()
    };
    let (before, after) = middle.take_sides();
    let low = Some(joined(low, first, before));
    let high = Some(joined(fork, after, later));
    joined(middle, Seats { root: low }, Seats { root: high })
}

/// A seat over two sides of which the later is the higher by two.
#[tactic(auto, using(crate::proofs::Low::low_even, crate::proofs::Low::low_sides))]
fn lift_later(fork: Box<Fork>, sooner: Seats, later: Seats) -> Box<Fork>
    requires sides { AreNearlyEven sooner later }
    requires higher { later.1 ≡ sooner.1 + 2 }
    ensures even { IsEven (Some result) }
    ensures seats { seats_of result.value ≡ sooner.0 ++ fork.value.seat ∷ later.0 }
    ensures height { IsHeight sooner.1 later.1 result.value.height }
{
    let Some(mut high) = later.root else {
        unreachable!()
    };
    let (inner, last) = high.take_sides();
    if last.height() >= inner.height() {
        let low = Some(joined(fork, sooner, inner));
        return joined(high, Seats { root: low }, last);
    }
    let Some(mut middle) = inner.root else {
        unreachable!()
    };
    let (before, after) = middle.take_sides();
    let low = Some(joined(fork, sooner, before));
    let high = Some(joined(high, after, last));
    joined(middle, Seats { root: low }, Seats { root: high })
}
