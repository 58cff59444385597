//! Rows in slots, by their ids, with their seats: a row put in, found by its id or between two keys, changed in place, taken out.
ghost use Rattle.std.specs.Prelude.{◌≡◌, ◌<◌, ◌≤◌, ◌+◌, ◌++◌, ◌∷◌, [], true, OnOk, OnErr, IfOk, IfSome, IfNone, is_some, IsSome, option_map, map, filter, not, ◌||◌};
ghost use Rattle.std.specs.List.{AllByRecursion};
ghost use Rattle.std.specs.Map.{lookup};
ghost use Rattle.std.specs.Option.{option_copied};
ghost use Rattle.std.specs.Ordering.{is_gt, nat_cmp};
ghost use Rattle.std.specs.BTreeMap.{is_at};
ghost use Rattle.loop_script.specs.Bounds.{count_end, latest};
ghost use Rattle.source_rows.specs.Band.{stands_between};
ghost use Rattle.source_rows.specs.Kept.{AllApart};
ghost use Rattle.source_rows.specs.LastTo.{IsLastRow};
ghost use Rattle.source_rows.specs.Moves.{with_moved};
ghost use Rattle.source_rows.specs.Rows.{key_cmp, key_of, row_of, has_id, in_order, changed, next_ready};
ghost use Rattle.source_rows.specs.Seats.{first_awake, in_seats, seat_of};
ghost use Rattle.source_rows.specs.Slots.{AllNamed, MayAsk, MayNest, asks};
ghost use Rattle.source_rows.specs.Walk.{rows_behind};

use crate::guesses::Guesses;
use crate::index::Index;
use crate::room::Spare;
use crate::row::{Key, Row};
use crate::seat_order::SeatOrder;
use crate::seats::NEVER;
use crate::sight::Sight;
use crate::walk::Walk;
use slab::Slab;
use std::alloc::{AllocError, Global};
use std::marker::Model;

/// Rows by rising id, each found by its id, with their seats in order.
#[derive(Drop)]
pub(crate) struct Table {
    slots: Slab<Row>,
    keys: Index,
    guesses: Guesses,
    seats: SeatOrder,
    spare: Spare,
    /// Whether a row may be one of a descriptor.
    may_ask: bool,
    /// Whether a row may have a parent.
    may_nest: bool,
    alloc: Global,
}

impl Model for Table {
    ghost use Rattle.std.specs.Prelude.{List};
    ghost use Rattle.source_rows.specs.declared.row.Row.{Row};

    ghost Value = { List Row };

    ghost use Rattle.source_rows.specs.Slots.{rows_at, IsHeld};

    ghost view = { λ t. rows_at t.slots t.keys };

    ghost invariant = { λ t. IsHeld t.slots t.keys t.seats t.may_ask t.may_nest };
}

/// The slot of an id, from a guess where that is right.
fn slot_of(slots: &Slab<Row>, keys: &Index, guesses: &Guesses, id: u64) -> Option<usize>
    requires { AllNamed slots.now keys.now }
    ensures { result ≡ lookup (is_at (nat_cmp id)) keys.now }
{
    if let Some(slot) = guesses.slot(id) {
        if let Some(row) = slots.get(slot) {
            if row.id == id {
                return Some(slot);
            }
        }
    }
    keys.get(id)
}

/// Whether a row may be one of a descriptor, once there is this row too.
fn may_ask_with(may: bool, row: &Row) -> bool
    ensures { result ≡ (may || asks row.now.kind) }
{
    may || row.asks()
}

/// Whether a row may have a parent, once there is this row too.
fn may_nest_with(may: bool, row: &Row) -> bool
    ensures { result ≡ (may || is_some row.now.parent) }
{
    may || row.parent.is_some()
}

impl Table {
    pub fn new(alloc: Global) -> Self
        ensures { result ≡ [] }
    {
        Table {
            slots: Slab::new(alloc),
            keys: Index::new(alloc),
            guesses: Guesses::new(alloc),
            seats: SeatOrder::new(),
            spare: Spare::new(alloc),
            may_ask: false,
            may_nest: false,
            alloc,
        }
    }

    /// The row of an id, lent.
    #[inline]
    pub fn found(&self, id: u64) -> Option<&Row>
        ensures { option_copied result ≡ row_of id self.now }
    {
        match slot_of(&self.slots, &self.keys, &self.guesses, id) {
            None => None,
            Some(key) => self.slots.get(key),
        }
    }

    /// The row of an id.
    #[inline]
    pub fn row(&self, id: u64) -> Option<Row>
        ensures { result ≡ row_of id self.now }
    {
        // `copied` would copy the row three times
        match self.found(id) {
            None => None,
            Some(row) => Some(*row),
        }
    }

    /// Whether a row may be one of a descriptor; false only where none is.
    pub fn may_ask(&self) -> bool
        ensures { MayAsk result self.now }
    {
        self.may_ask
    }

    /// Whether a row may have a parent; false only where none has.
    pub fn may_nest(&self) -> bool
        ensures { MayNest result self.now }
    {
        self.may_nest
    }

    /// The least ready time above `now`.
    pub fn next_ready(&self, now: u64) -> Option<i64>
        requires { now ≤ latest }
        ensures { result ≡ next_ready now self.now }
    {
        let due = self.seats.next_due(now);
        if due < NEVER { Some(due as i64) } else { None }
    }

    /// The id of the first row behind a key that may be ready.
    pub fn first_awake(&self, after: Option<Key>, sight: &Sight) -> Option<u64>
        ensures { result ≡ first_awake after sight.entry.now (in_seats self.now) }
    {
        self.seats.first_awake(after, sight)
    }

    /// The seats of the rows that stand behind a key, or of all, in order.
    pub fn walk(&self, after: Option<Key>) -> Walk<'_>
        requires { AllApart self.now }
        ensures { result ≡ map seat_of (rows_behind after self.now) }
    {
        Walk::new(&self.seats, after)
    }

    /// The last row that does not stand behind a key.
    pub fn last_to(&self, key: Key) -> Option<&Row>
        ensures some { IfSome result (λ r. IsLastRow key self.now r.now) }
        ensures none { IfNone result (AllByRecursion (λ r. is_gt (key_cmp (key_of r) key) ≡ true) self.now) }
    {
        let seat = self.seats.last_to(&key)?;
        self.found(seat.id)
    }

    /// The ids of the rows that stand between two keys, or at them, in order.
    pub fn ids_between(&self, first: Key, last: Key) -> Result<Vec<u64>, AllocError>
        requires { AllApart self.now }
        ensures { IfOk result (λ ids. ids.items ≡ map (λ r. r.id) (filter (stands_between first last) (in_order self.now))) }
    {
        let mut ids = Vec::new(self.alloc);
        self.seats.add_between(&first, &last, &mut ids)?;
        Ok(ids)
    }

    /// Puts a row behind the others.
    pub fn push(&mut self, row: Row) -> Result<(), AllocError>
        requires last { AllByRecursion (λ r. r.id < row.id) self.old }
        requires few { row.id < count_end }
        ensures ok { OnOk result (self.new ≡ self.old ++ row ∷ []) }
        ensures err { OnErr result (self.new ≡ self.old) }
    {
        let room = self.spare.room()?;
        self.slots.reserve(1)?;
        self.guesses.make_room(self.alloc, &self.slots)?;
        let key = self.slots.insert_reserved(row);
        match self.keys.push(row.id, key) {
            Ok(()) => {
                self.guesses.note(&self.slots, row.id, key);
                let may_ask = may_ask_with(self.may_ask, &row);
                let may_nest = may_nest_with(self.may_nest, &row);
                self.may_ask = may_ask;
                self.may_nest = may_nest;
                self.seats.insert(room, &row.seat());
                Ok(())
            }
            Err(_) => {
                let _ = self.slots.remove(key);
                Err(AllocError)
            }
        }
    }

    /// Gives the row of an id, where there is one, the priority and the order number that the root over it gets, and the place that goes with them.
    pub fn move_row(&mut self, id: u64, root: u64, priority: i32, order: u64)
        ensures { self.new ≡ with_moved root priority order (row_of id self.old) self.old }
    {
        if let Some(key) = slot_of(&self.slots, &self.keys, &self.guesses, id) {
            if let Some(slot) = self.slots.get_mut(key) {
                let before = slot.seat();
                *slot = slot.moved(root, priority, order);
                let after = slot.seat();
                self.seats.replace(&before, &after);
            }
        }
    }

    /// Raises the count of the row of an id, and answers it; None where there is no such row.
    pub fn count_one(&mut self, id: u64) -> Option<u64>
        requires { IfSome (row_of id self.old) (λ r. r.count < count_end) }
        ensures count { result ≡ option_map (λ r. r.count + 1) (row_of id self.old) }
        ensures rows { self.new ≡ changed id (λ r. record r { count = r.count + 1 }) self.old }
    {
        if let Some(key) = slot_of(&self.slots, &self.keys, &self.guesses, id) {
            if let Some(slot) = self.slots.get_mut(key) {
                let count = slot.count + 1;
                slot.count = count;
                return Some(count);
            }
        }
        None
    }

    /// Gives the row of an id another ready time; false where there is no such row. Where the times of its seat stay, so does its seat.
    pub fn set_ready(&mut self, id: u64, ready: i64) -> bool
        ensures there { result ≡ is_some (row_of id self.old) }
        ensures set { self.new ≡ changed id (λ r. record r { ready = ready }) self.old }
    {
        if let Some(key) = slot_of(&self.slots, &self.keys, &self.guesses, id) {
            if let Some(slot) = self.slots.get_mut(key) {
                if slot.keeps_times(ready) {
                    slot.ready = ready;
                } else {
                    let before = slot.seat();
                    slot.ready = ready;
                    let after = slot.seat();
                    self.seats.set(&before, &after);
                }
                return true;
            }
        }
        false
    }

    /// Takes the row of an id away.
    pub fn remove(&mut self, id: u64)
        requires { IsSome (row_of id self.old) }
        ensures { self.new ≡ filter (λ r. not (has_id id r)) self.old }
    {
        if let Some(key) = self.keys.remove(id) {
            if let Some(row) = self.slots.try_remove(key) {
                self.seats.remove(&row.seat(), &mut self.spare);
            }
        }
    }
}
