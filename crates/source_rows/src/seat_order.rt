//! The seats of rows in order, in two trees of which one stands behind the other.
//!
//! A row of the last priority mostly goes behind all others when it is attached. So the tree behind is kept low, and what goes there
//! takes few steps, however many seats there are; once it has grown, the two are joined. Other rows go down the tree in front.
ghost use Rattle.std.specs.Prelude.{◌≡◌, ◌≤◌, ◌<◌, ◌+◌, length, max, ◌++◌, ◌∷◌, [], true, false, map, filter, is_some, IfSome, IfNone, OnOk};
ghost use Rattle.loop_script.specs.Bounds.{count_end};
ghost use Rattle.std.specs.List.{AllByRecursion, list_any};
ghost use Rattle.std.specs.Ordering.{is_eq};
ghost use Rattle.source_rows.specs.Band.{is_between};
ghost use Rattle.source_rows.specs.Inserted.{inserted, Rises};
ghost use Rattle.source_rows.specs.LastTo.{stands_to, IsLastTo};
ghost use Rattle.source_rows.specs.Seats.{seat_cmp, is_ahead, without, first_awake, next_due, is_other, stays, swapped, replaced, IsLow};

use crate::least::lesser;
use crate::room::{Room, Spare};
use crate::row::Key;
use crate::search::is_passed;
use crate::seats::{Seat, Seats};
use crate::sight::Sight;
use std::alloc::AllocError;
use std::cmp::Ordering;
use std::marker::Model;
use std::mem;

/// How high the tree behind may be before it is joined with the one in front. A tree of this height has 54 to 255 seats.
const MOST_BEHIND: u64 = 8;

/// Seats in order, seen as a list with the height of the higher tree.
#[derive(Drop)]
pub(crate) struct SeatOrder {
    /// The key of the last seat of the front as it was when the two were joined; none before.
    bound: Option<Key>,
    /// The seats that don't stand behind the bound.
    pub(crate) front: Seats,
    /// Those that do, and all where there is no bound.
    pub(crate) back: Seats,
}

impl Model for SeatOrder {
    ghost use Rattle.std.specs.Prelude.{ℕ, List};
    ghost use Rattle.source_rows.specs.declared.seats.Seat.{Seat};
    ghost use Rattle.source_rows.specs.Seats.{IsLow};
    ghost use Rattle.source_rows.specs.SeatOrder.{seen_together, ArePassed, AreBehind};

    ghost Value = { List Seat × ℕ };

    ghost view = { λ o. seen_together o.front o.back };

    ghost invariant = { λ o. IsLow o.front × IsLow o.back × ArePassed o.bound o.front.0 × AreBehind o.bound o.back.0 };
}

/// Puts the seats behind to those in front, whose tree is as high or higher. None is left behind.
fn move_over(front: &mut Seats, back: &mut Seats)
    requires few { length front.old.0 + length back.old.0 ≤ count_end }
    requires low { IsLow front.old × IsLow back.old }
    requires not_higher { back.old.1 ≤ front.old.1 }
    ensures seats { front.new.0 ≡ front.old.0 ++ back.old.0 }
    ensures none { back.new ≡ ([], 0) }
    ensures low { IsLow front.new }
{
    if let Some(first) = back.remove_first() {
        let behind = mem::replace(back, Seats::new());
        front.append(first, behind);
    }
}

impl SeatOrder {
    pub fn new() -> SeatOrder
        ensures { result ≡ ([], 0) }
    {
        SeatOrder {
            bound: None,
            front: Seats::new(),
            back: Seats::new(),
        }
    }

    /// Where the tree behind has grown, makes one tree of both, if that in front is as high or has no seat, and sets the bound
    /// behind its last seat.
    fn join(&mut self)
        requires rises { Rises is_ahead self.old.0 }
        requires few { length self.old.0 ≤ count_end }
        ensures seats { self.new.0 ≡ self.old.0 }
    {
        if self.back.height() <= MOST_BEHIND {
            return;
        }
        if self.front.is_empty() {
            mem::swap(&mut self.front, &mut self.back);
            self.bound = self.front.last_key();
        } else if self.back.height() <= self.front.height() {
            move_over(&mut self.front, &mut self.back);
            self.bound = self.front.last_key();
        }
    }

    /// Puts a seat into a room.
    pub fn insert(&mut self, room: Room, seat: &Seat)
        requires rises { Rises is_ahead self.old.0 }
        requires few { length self.old.0 < count_end }
        ensures seats { self.new.0 ≡ inserted is_ahead seat.now self.old.0 }
        ensures low { IsLow self.new }
    {
        self.join();
        if is_passed(self.bound, seat.key) {
            let _ = self.front.insert(room, seat);
        } else {
            let _ = self.back.insert(room, seat);
        }
    }

    /// Takes a seat out, and hands its room out; none where it is not there.
    fn take(&mut self, seat: &Seat) -> Option<Room>
        requires rises { Rises is_ahead self.old.0 }
        requires few { length self.old.0 ≤ count_end }
        requires low { IsLow self.old }
        ensures there { is_some result ≡ list_any (λ u. is_eq (seat_cmp seat.now u)) self.old.0 }
        ensures seats { self.new.0 ≡ without seat.now self.old.0 }
        ensures low { IsLow self.new }
    {
        if is_passed(self.bound, seat.key) {
            self.front.take(seat)
        } else {
            self.back.take(seat)
        }
    }

    /// Takes a seat out, and keeps its room for one that comes.
    pub fn remove(&mut self, seat: &Seat, spare: &mut Spare)
        requires rises { Rises is_ahead self.old.0 }
        requires few { length self.old.0 ≤ count_end }
        requires low { IsLow self.old }
        ensures seats { self.new.0 ≡ without seat.now self.old.0 }
        ensures low { IsLow self.new }
    {
        if let Some(room) = self.take(seat) {
            spare.keep(room);
        }
    }

    /// Puts another seat into the place of one.
    pub fn change(&mut self, before: &Seat, after: &Seat)
        requires rises { Rises is_ahead self.old.0 }
        requires few { length self.old.0 ≤ count_end }
        requires low { IsLow self.old }
        requires there { list_any (λ u. is_eq (seat_cmp before.now u)) self.old.0 ≡ true }
        ensures seats { self.new.0 ≡ inserted is_ahead after.now (without before.now self.old.0) }
        ensures low { IsLow self.new }
    {
        if let Some(room) = self.take(before) {
            self.insert(room, after);
        }
    }

    /// Puts another seat of the same key and mark where one stands.
    pub fn set(&mut self, before: &Seat, after: &Seat)
        requires rises { Rises is_ahead self.old.0 }
        requires key { after.now.key ≡ before.now.key }
        requires mark { after.now.mark ≡ before.now.mark }
        ensures seats { self.new.0 ≡ swapped before.now after.now self.old.0 }
        ensures height { self.new.1 ≡ self.old.1 }
    {
        if is_passed(self.bound, before.key) {
            let _ = self.front.set(before, after);
        } else {
            let _ = self.back.set(before, after);
        }
    }

    /// Puts another seat of the same mark into the place of one, where it is another.
    pub fn replace(&mut self, before: &Seat, after: &Seat)
        requires rises { Rises is_ahead self.old.0 }
        requires mark { after.now.mark ≡ before.now.mark }
        requires few { length self.old.0 ≤ count_end }
        requires low { IsLow self.old }
        requires there { list_any (λ u. is_eq (seat_cmp before.now u)) self.old.0 ≡ true }
        ensures seats { self.new.0 ≡ replaced before.now after.now self.old.0 }
        ensures low { IsLow self.new }
    {
        if is_other(before, after) {
            if stays(before, after) {
                self.set(before, after);
            } else {
                self.change(before, after);
            }
        }
    }

    /// The id of the first seat behind a key that does not sleep.
    pub fn first_awake(&self, after: Option<Key>, sight: &Sight) -> Option<u64>
        requires { Rises is_ahead self.now.0 }
        ensures { result ≡ first_awake after sight.entry.now self.now.0 }
    {
        match self.front.first_awake(after, sight) {
            None => self.back.first_awake(after, sight),
            first => first,
        }
    }

    /// When the next of the seats is due, after a time.
    pub fn next_due(&self, now: u64) -> u64
        ensures { result ≡ next_due now self.now.0 }
    {
        lesser(self.front.next_due(now), self.back.next_due(now))
    }

    /// The last seat that does not stand behind a key.
    pub fn last_to(&self, key: &Key) -> Option<&Seat>
        requires { Rises is_ahead self.now.0 }
        ensures some { IfSome result (λ s. IsLastTo key.now self.now.0 s.now) }
        ensures none { IfNone result (AllByRecursion (λ u. stands_to key.now u ≡ false) self.now.0) }
    {
        match self.back.last_to(key) {
            None => self.front.last_to(key),
            last => last,
        }
    }

    /// Adds the ids of the seats that stand between two keys, or at them, in order.
    pub fn add_between(&self, first: &Key, last: &Key, ids: &mut Vec<u64>) -> Result<(), AllocError>
        requires { Rises is_ahead self.now.0 }
        ensures { OnOk result (ids.new.items ≡ ids.old.items ++ map (λ s. s.id) (filter (is_between first.now last.now) self.now.0)) }
    {
        self.front.add_between(first, last, ids)?;
        self.back.add_between(first, last, ids)
    }
}

/// Whether two seats are not the same.
fn is_other(a: &Seat, b: &Seat) -> bool
    ensures { result ≡ is_other a.now b.now }
{
    match a.cmp(b) {
        Ordering::Equal => false,
        _ => true,
    }
}

/// Whether two seats have one key.
fn stays(a: &Seat, b: &Seat) -> bool
    ensures { result ≡ stays a.now b.now }
{
    match a.key.cmp(&b.key) {
        Ordering::Equal => true,
        _ => false,
    }
}
