//! The rows that may be ready in a sight: an iterator over all of them, in order, by the walk of `walk`. A single search stands in `search`.
//!
//! Rows are taken one after another from the order, and looked at. After some that sleep the next one that is awake is
//! searched for in the tree of seats, and the order is entered again behind it: so a context whose rows are all awake costs
//! a walk, and one in which few are costs a search for each of them.
ghost use Rattle.std.specs.Prelude.{◌≡◌, ◌∷◌, ◌||◌, not, [], Some, None, IfSome, IfNone, filter, length, true, false};
ghost use Rattle.std.specs.Iterator.{at_most};
ghost use Rattle.std.specs.List.{AllByRecursion, find};
ghost use Rattle.std.specs.Map.Iter.{TakesFirst};
ghost use Rattle.std.specs.Option.{option_copied, option_map};
ghost use Rattle.source_rows.specs.InOrder.{AllFound, ids_of};
ghost use Rattle.source_rows.specs.Rows.{in_order, is_under, key_of};
ghost use Rattle.source_rows.specs.Kept.{AllApart};
ghost use Rattle.source_rows.specs.Tree.{IsForest, parent_of};
ghost use Rattle.cancel_view.specs.Marks.{opening};
ghost use Rattle.source_rows.specs.Candidates.{sleeps};
ghost use Rattle.source_rows.specs.Steps.{IsStep, IsWalk, HasLeft, Looks, left_of, comes, wakes, nearer, parent_at, above_at, is_above_id, IsOfRow};

use crate::row::{Key, Row};
use crate::seats::Seat;
use crate::sight::Sight;
use crate::table::Table;
use crate::walk::Walk;
use std::iter::Iterator;
use std::marker::Model;

/// After how many rows that sleep the next one that is awake is searched for.
const NEAR: u32 = 4;

/// An iterator over the rows that may be ready in a sight, and over those above them, in order.
#[derive(Drop)]
pub struct Candidates<'a> {
    table: &'a Table,
    /// What of the order is left.
    seats: Walk<'a>,
    sight: Sight,
    last: Option<&'a Row>,
}

/// What a look at the next few rows of an order tells.
pub(crate) enum Near<'a> {
    /// This one may be ready.
    Came(&'a Row),
    /// None of them may.
    Sleep,
    /// There are no more rows.
    Ended,
}

impl<'a> Model for Candidates<'a> {
    ghost use Rattle.std.specs.Prelude.{List};
    ghost use Rattle.std.specs.Option.{option_copied};
    ghost use Rattle.source_rows.specs.declared.row.Row.{Row};
    ghost use Rattle.source_rows.specs.Steps.{IsWalk, left_of};

    ghost Value = { List Row };

    ghost view = { λ a. left_of a.sight a.table.now (option_copied a.last) };

    ghost invariant = { λ a. IsWalk a.table.now a.sight (option_copied a.last) a.seats };
}

impl<'a> Candidates<'a> {
    /// All that may be ready in a sight.
    pub(crate) fn new(table: &'a Table, sight: Sight) -> Candidates<'a>
        requires { IsStep table.now sight None }
        ensures { result ≡ left_of sight table.now None }
    {
        Candidates {
            table,
            seats: table.walk(None),
            sight,
            last: None,
        }
    }

    /// Leaves out what stands under an id, by one search. It answers false, and leaves out nothing, where the row that came last does not
    /// stand under it.
    pub fn leave(&mut self, id: u64) -> bool
        ensures left { result ≡ true → self.new ≡ filter (λ r. not (is_under id r)) self.old }
        ensures same { result ≡ false → self.new ≡ self.old }
    {
        let Some(row) = above_last(self.table, self.last, id) else {
            return false;
        };
        self.seats = self.table.walk(Some(row.key()));
        self.last = Some(row);
        true
    }
}

impl<'a> Iterator for Candidates<'a> {
    type Item = &'a Row;

    ghost next_gives = { TakesFirst (λ r. r.now) };

    ghost remaining = { λ s. at_most (length s) };

    #[inline]
    fn next(&mut self) -> Option<&'a Row> {
        let row = advance(&mut self.seats, self.table, self.last, &self.sight)?;
        self.last = Some(row);
        Some(row)
    }
}

/// The row with an id, where the last one stands under it.
fn above_last<'a>(table: &'a Table, last: Option<&'a Row>, id: u64) -> Option<&'a Row>
    ensures { option_copied result ≡ above_at table.now (option_copied last.entry) id }
{
    match last {
        None => None,
        Some(last) => {
            if last.lineage.contains(&id) {
                table.found(id)
            } else {
                None
            }
        }
    }
}

/// Whether the last row is a child of the one with an id.
fn is_above_last(last: Option<&Row>, above: u64) -> bool
    ensures { result ≡ is_above_id (option_copied last.entry) above }
{
    match last {
        None => false,
        Some(last) => match last.parent {
            None => false,
            Some(id) => id == above,
        },
    }
}

/// Whether the row of a seat comes next, as the seat tells: it does not sleep, or the last row is a child of it.
#[inline]
fn comes_by(seat: &Seat, last: Option<&Row>, sight: &Sight) -> bool
    ensures { result ≡ (not (sleeps sight.entry.now (opening seat.now.mark) seat.now.due) || is_above_id (option_copied last.entry) seat.now.id) }
{
    !sight.one_sleeps(seat.mark, seat.due) || is_above_last(last, seat.id)
}

/// Looks at the next few rows of a part of the order.
fn look<'a>(
    seats: &mut Walk<'a>,
    table: &'a Table,
    last: Option<&'a Row>,
    sight: &Sight,
) -> Near<'a>
    requires step { IsStep table.now sight.now (option_copied last) }
    requires left { HasLeft table.now sight.now (option_copied last) seats.old }
    ensures tells { Looks sight.entry.now table.now seats.old seats.new result }
    ensures found { AllFound table.now (ids_of seats.new) }
    ensures are { AllByRecursion (IsOfRow table.now) seats.new }
{
    let mut tries = NEAR;
    'near: while 0 < tries {
        tries -= 1;
        let Some(seat) = seats.next() else {
            return Near::Ended;
        };
        if comes_by(seat, last, sight) {
            if let Some(row) = table.found(seat.id) {
                return Near::Came(row);
            }
        }
    }
    Near::Sleep
}

/// Where the last row stands.
fn last_key(last: Option<&Row>) -> Option<Key>
    ensures { result ≡ option_map key_of (option_copied last.entry) }
{
    match last {
        None => None,
        Some(row) => Some(row.key()),
    }
}

/// The first row behind the last that may be ready by itself.
fn awake_row<'a>(table: &'a Table, last: Option<&'a Row>, sight: &Sight) -> Option<&'a Row>
    requires forest { IsForest table.now }
    requires apart { AllApart table.now }
    ensures { option_copied result ≡ find (wakes sight.entry.now (option_copied last.entry)) (in_order table.now) }
{
    match table.first_awake(last_key(last), sight) {
        None => None,
        Some(id) => table.found(id),
    }
}

/// The parent of the last row.
fn parent_row<'a>(table: &'a Table, last: Option<&'a Row>) -> Option<&'a Row>
    ensures { option_copied result ≡ parent_at table.now (option_copied last.entry) }
{
    match last {
        None => None,
        Some(row) => match row.parent {
            None => None,
            Some(id) => table.found(id),
        },
    }
}

/// Which of two rows stands first.
fn nearer<'a>(a: Option<&'a Row>, b: Option<&'a Row>) -> Option<&'a Row>
    ensures { option_copied result ≡ nearer (option_copied a.entry) (option_copied b.entry) }
{
    match a {
        None => b,
        Some(first) => match b {
            None => a,
            Some(second) => { if second.stands_before(first) { b } else { a } }
        },
    }
}

/// The next row that may be ready, it or one under it.
fn next_row<'a>(table: &'a Table, last: Option<&'a Row>, sight: &Sight) -> Option<&'a Row>
    requires { IsStep table.now sight.now (option_copied last) }
    ensures { option_copied result ≡ find (comes sight.entry.now table.now (option_copied last.entry)) (in_order table.now) }
{
    nearer(awake_row(table, last, sight), parent_row(table, last))
}

/// The next row that may be ready, with the part of the order that stands behind it.
fn advance<'a>(
    seats: &mut Walk<'a>,
    table: &'a Table,
    last: Option<&'a Row>,
    sight: &Sight,
) -> Option<&'a Row>
    requires { IsWalk table.now sight.now (option_copied last) seats.old }
    ensures some { IfSome result (λ row. left_of sight.entry.now table.now (option_copied last.entry) ≡ row.now ∷ left_of sight.entry.now table.now (Some row.now)) }
    ensures walks { IfSome result (λ row. IsWalk table.now sight.entry.now (Some row.now) seats.new) }
    ensures none { IfNone result (left_of sight.entry.now table.now (option_copied last.entry) ≡ []) }
    ensures stays { IfNone result (IsWalk table.now sight.entry.now (option_copied last.entry) seats.new) }
{
    match look(seats, table, last, sight) {
        Near::Came(row) => Some(row),
        Near::Ended => None,
        Near::Sleep => {
            let row = next_row(table, last, sight)?;
            *seats = table.walk(Some(row.key()));
            Some(row)
        }
    }
}
