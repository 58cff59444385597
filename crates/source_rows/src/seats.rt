//! The seats of rows in order, in a search tree whose nodes are taken beforehand: so a ready time is changed without memory.
//!
//! A node has all marks and the least time of the seats from there on: so the next row that may be ready and the next ready time
//! are found without a look at the others.
ghost use Rattle.std.specs.Prelude.{◌≡◌, ◌≤◌, ◌<◌, length, nat_lt, List, [], ◌∷◌, ◌++◌, true, false, Some, is_some, IfSome, IfNone, bit_or, if◌then◌else◌};
ghost use Rattle.loop_script.specs.Bounds.{count_end};
ghost use Rattle.std.specs.List.{list_any};
ghost use Rattle.std.specs.Ordering.{is_eq};
ghost use Rattle.source_rows.specs.Inserted.{inserted, Rises};
ghost use Rattle.source_rows.specs.Seats.{seat_cmp, is_ahead, without, next_due, due_after, least_by, least_of, marks_of, lesser, is_passed, front_of, IsLater, AddsNone, swapped, IsLow};
ghost use Rattle.cancel_view.specs.Marks.{opening};
ghost use Rattle.source_rows.specs.Candidates.{never};
ghost use Rattle.source_rows.specs.SeatTree.{seats_of, IsEvenFork, IsLowered};
ghost use Rattle.std.specs.Borrow.{sem};
ghost use Rattle.source_rows.specs.Lending.{LendsSide};

use crate::balance::{balance, balance_noted, remove_root};
use crate::least::Least;
use crate::room::Room;
use crate::row::Key;
use std::cmp::Ordering;
use std::marker::Model;
use std::mem;

/// Where a row stands in the order, and by what it may be ready.
#[derive(Clone, Copy, PartialEq, Eq, PartialOrd, Ord)]
pub(crate) struct Seat {
    pub(crate) key: Key,
    pub(crate) id: u64,
    /// The number of the mark by which the row is open: `NO_MARK` where there is none.
    pub(crate) mark: u16,
    /// When the row is due, in microseconds: `NEVER` where it has no ready time.
    pub(crate) due: u64,
}

/// Above each number of a path.
const PATH_NUMBERS: i128 = 1 << 64;

/// Later than any ready time.
pub(crate) const NEVER: u64 = 1 << 63;

/// Seats, seen as a list with the height of their tree. The tree is balanced: no seat stands deep in it.
#[cycle(seats)]
#[derive(Drop)]
pub(crate) struct Seats {
    pub(crate) root: Option<Box<Fork>>,
}

/// A seat between those that stand before it and those that stand behind it.
#[cycle(seats)]
#[derive(Drop)]
pub(crate) struct Fork {
    pub(crate) sooner: Seats,
    pub(crate) seat: Seat,
    /// How high the tree is from here.
    pub(crate) height: u64,
    /// All marks and the least time from here.
    pub(crate) least: Least,
    pub(crate) later: Seats,
}

impl Model for Seats {
    ghost use Rattle.std.specs.Prelude.{ℕ, List, length};
    ghost use Rattle.source_rows.specs.declared.seats.Seat.{Seat};

    ghost Value = { List Seat × ℕ };

    ghost use Rattle.source_rows.specs.SeatTree.{seen_of, IsEven};

    ghost view = { λ a. seen_of a.root };

    ghost invariant = { λ a. IsEven a.root };

    ghost size = { λ d. length d.0 };

    ghost use Rattle.std.proofs.Common.{arith, length-append};

    ghost size_decreases = { λ a h. Prim.grind (arith, length-append) };
}

impl Fork {
    /// A seat and nothing else.
    #[tactic(auto, using(crate::proofs::AllMarks::or_zero))]
    pub(crate) fn alone(seat: Seat) -> Fork
        ensures seats { seats_of result ≡ seat ∷ [] }
        ensures even { IsEvenFork result }
        ensures height { result.height ≡ 1 }
    {
        Fork {
            sooner: Seats::new(),
            seat,
            height: 1,
            least: Least::of(&seat),
            later: Seats::new(),
        }
    }

    /// Takes both sides away.
    pub(crate) fn take_sides(&mut self) -> (Seats, Seats)
        ensures sides { result ≡ (self.old.sooner, self.old.later) }
        ensures seat { self.new.seat ≡ self.old.seat }
    {
        let sooner = mem::replace(&mut self.sooner, Seats::new());
        let later = mem::replace(&mut self.later, Seats::new());
        (sooner, later)
    }
}

impl Fork {
    /// The side in front of the seat, or the one behind it.
    #[inline]
    fn side(&mut self, is_sooner: bool) -> &mut Seats
        ensures* lends { sem 𝓛 (LendsSide self.entry is_sooner result) }
        ensures value { result.now ≡ (if is_sooner then self.old.sooner else self.old.later) }
    {
        if is_sooner {
            &mut self.sooner
        } else {
            &mut self.later
        }
    }
}

impl Seats {
    pub fn new() -> Seats
        ensures { result ≡ ([], 0) }
    {
        Seats { root: None }
    }

    /// Whether there is no seat.
    pub fn is_empty(&self) -> bool
        ensures { result ≡ true → self.now ≡ ([], 0) }
    {
        self.root.is_none()
    }

    /// How many seats stand above each other at most.
    #[tactic(auto, using(crate::proofs::Low::low_even))]
    pub fn height(&self) -> u64
        ensures height { result ≡ self.now.1 }
        ensures low { IsLow self.now }
    {
        match &self.root {
            None => 0,
            Some(fork) => fork.height,
        }
    }

    /// Puts a seat into a room, and answers whether the tree is higher for it.
    #[tactic(auto, using(crate::proofs::Low::low_even))]
    pub fn insert(&mut self, room: Room, seat: &Seat) -> bool
        requires rises { Rises is_ahead self.old.0 }
        requires few { length self.old.0 < count_end }
        requires low { IsLow self.old }
        ensures seats { self.new.0 ≡ inserted is_ahead seat.now self.old.0 }
        ensures low { IsLow self.new }
        ensures height { IsLowered self.new.1 self.old.1 }
        ensures higher { result ≡ nat_lt self.old.1 self.new.1 }
    {
        let height = match &mut self.root {
            None => {
                self.root = Some(room.fill(*seat));
                return true;
            }
            Some(fork) => {
                let fork = &mut **fork;
                fork.least.note(seat);
                let is_sooner = is_ahead(seat, &fork.seat);
                let higher = fork.side(is_sooner).insert(room, seat);
                if !higher {
                    return false;
                }
                fork.height
            }
        };
        balance_noted(&mut self.root);
        height < self.height()
    }

    /// Takes the first seat out, in its room.
    #[tactic(auto, using(crate::proofs::Low::low_even))]
    pub(crate) fn remove_first(&mut self) -> Option<Box<Fork>>
        requires few { length self.old.0 ≤ count_end }
        requires low { IsLow self.old }
        ensures some { IfSome result (λ f. self.old.0 ≡ f.value.seat ∷ self.new.0) }
        ensures none { IfNone result (self.old ≡ ([], 0)) }
        ensures gone { IfNone result (self.new ≡ ([], 0)) }
        ensures low { IsLow self.new }
        ensures height { IsLowered self.old.1 self.new.1 }
    {
        match &mut self.root {
            None => return None,
            Some(fork) => {
                if let Some(first) = fork.sooner.remove_first() {
                    balance(&mut self.root);
                    return Some(first);
                }
            }
        }
        match self.root.take() {
            None => None,
            Some(mut fork) => {
                let (_, later) = fork.take_sides();
                self.root = later.root;
                Some(fork)
            }
        }
    }

    /// Takes a seat out, and hands its room out; none where it is not there.
    pub fn take(&mut self, seat: &Seat) -> Option<Room>
        requires rises { Rises is_ahead self.old.0 }
        requires few { length self.old.0 ≤ count_end }
        requires low { IsLow self.old }
        ensures there { is_some result ≡ list_any (λ u. is_eq (seat_cmp seat.now u)) self.old.0 }
        ensures seats { self.new.0 ≡ without seat.now self.old.0 }
        ensures low { IsLow self.new }
        ensures height { IsLowered self.old.1 self.new.1 }
    {
        let mut room = None;
        let _ = self.take_out(seat, &mut room);
        room
    }

    /// Takes a seat out, puts its room where none is, and answers whether the tree is lower for it.
    #[tactic(auto, using(crate::proofs::Low::low_even))]
    fn take_out(&mut self, seat: &Seat, room: &mut Option<Room>) -> bool
        requires rises { Rises is_ahead self.old.0 }
        requires few { length self.old.0 ≤ count_end }
        requires low { IsLow self.old }
        requires none { room.old ≡ None }
        ensures there { is_some room.new ≡ list_any (λ u. is_eq (seat_cmp seat.now u)) self.old.0 }
        ensures seats { self.new.0 ≡ without seat.now self.old.0 }
        ensures low { IsLow self.new }
        ensures height { IsLowered self.old.1 self.new.1 }
        ensures lower { result ≡ nat_lt self.new.1 self.old.1 }
    {
        let height = match &mut self.root {
            None => return false,
            Some(fork) => {
                let fork = &mut **fork;
                if is_same(seat, &fork.seat) {
                    let height = fork.height;
                    *room = remove_root(&mut self.root);
                    return self.height() < height;
                }
                let is_sooner = is_ahead(seat, &fork.seat);
                let lower = fork.side(is_sooner).take_out(seat, room);
                fork.leave_out(seat);
                if !lower {
                    return false;
                }
                fork.height
            }
        };
        balance_noted(&mut self.root);
        self.height() < height
    }

    /// Puts another seat of the same mark where one stands, and answers whether the least time may be another.
    pub fn set(&mut self, before: &Seat, after: &Seat) -> bool
        requires rises { Rises is_ahead self.old.0 }
        requires mark { after.now.mark ≡ before.now.mark }
        ensures seats { self.new.0 ≡ swapped before.now after.now self.old.0 }
        ensures height { self.new.1 ≡ self.old.1 }
        ensures least { result ≡ false → least_of self.new.0 ≡ least_of self.old.0 }
    {
        match &mut self.root {
            None => false,
            Some(fork) => {
                let fork = &mut **fork;
                let may_differ = if is_same(before, &fork.seat) {
                    fork.seat = *after;
                    true
                } else {
                    let is_sooner = is_ahead(before, &fork.seat);
                    fork.side(is_sooner).set(before, after)
                };
                may_differ && fork.note_due()
            }
        }
    }

    /// All marks of the seats, and their least time.
    pub(crate) fn least(&self) -> Least
        ensures { result ≡ least_of self.now.0 }
    {
        match &self.root {
            None => Least::none(),
            Some(fork) => fork.least,
        }
    }

    /// Whether the mark of a number is among theirs, so that it adds nothing to them.
    #[tactic(auto, using(crate::proofs::AllMarks::has_adds_none))]
    pub(crate) fn has_mark(&self, number: u16) -> bool
        ensures { result ≡ true → AddsNone number self.now.0 }
    {
        match &self.root {
            None => false,
            Some(fork) => fork.least.marks.has(number),
        }
    }

    /// Their least time.
    pub(crate) fn least_due(&self) -> u64
        ensures { result ≡ least_by (λ s. s.due) self.now.0 }
    {
        match &self.root {
            None => NEVER,
            Some(fork) => fork.least.due,
        }
    }

    /// Adds their marks, and their least time, to those of seats before them.
    #[tactic(auto, using(crate::proofs::SetIn::least_parts))]
    pub(crate) fn add_least(&self, least: &mut Least)
        ensures { (all : List Seat) → least.old ≡ least_of all → least.new ≡ least_of (all ++ self.now.0) }
    {
        if let Some(fork) = &self.root {
            least.join(&fork.least);
        }
    }
}

/// Whether two seats are one. Mostly the first numbers of their paths tell.
#[inline]
fn is_same(a: &Seat, b: &Seat) -> bool
    ensures { result ≡ is_eq (seat_cmp a.now b.now) }
{
    if a.key.1[0] == b.key.1[0] {
        match a.cmp(b) {
            Ordering::Equal => true,
            _ => false,
        }
    } else {
        false
    }
}

/// The priority of a seat and the first number of its path, as one number that has their order.
#[inline]
fn front(seat: &Seat) -> i128
    ensures { result ≡ front_of seat.now.key }
{
    seat.key.0 as i128 * PATH_NUMBERS + seat.key.1[0] as i128
}

/// Whether a seat stands before another. Mostly their fronts tell, and without a jump that depends on them.
#[inline]
pub(crate) fn is_ahead(a: &Seat, b: &Seat) -> bool
    ensures { result ≡ is_ahead a.now b.now }
{
    if a.key.1[0] == b.key.1[0] {
        match a.cmp(b) {
            Ordering::Less => true,
            _ => false,
        }
    } else {
        front(a) < front(b)
    }
}
