//! Single searches in the tree of seats: for the next one that is awake, the next time, the last one up to a key, and those between two keys.
ghost use Rattle.std.specs.Prelude.{◌≡◌, ◌++◌, false, map, filter, IfSome, IfNone, OnOk};
ghost use Rattle.std.specs.List.{AllByRecursion};
ghost use Rattle.std.specs.Ordering.{is_lt};
ghost use Rattle.source_rows.specs.Band.{is_between};
ghost use Rattle.source_rows.specs.Inserted.{Rises};
ghost use Rattle.source_rows.specs.Rows.{key_cmp};
ghost use Rattle.source_rows.specs.Seats.{is_ahead, first_awake, next_due, due_after, is_passed};
ghost use Rattle.source_rows.specs.LastTo.{stands_to, IsLastTo};

use crate::least::lesser;
use crate::row::Key;
use crate::seats::{NEVER, Seat, Seats};
use crate::sight::Sight;
use std::alloc::AllocError;
use std::cmp::Ordering;

impl Seats {
    /// The id of the first seat behind a key that does not sleep.
    pub fn first_awake(&self, after: Option<Key>, sight: &Sight) -> Option<u64>
        requires { Rises is_ahead self.now.0 }
        ensures { result ≡ first_awake after sight.entry.now self.now.0 }
    {
        match &self.root {
            None => None,
            Some(fork) => {
                let fork = &**fork;
                if sight.sleeps(&fork.least.marks, fork.least.due) {
                    return None;
                }
                if is_passed(after, fork.seat.key) {
                    return fork.later.first_awake(after, sight);
                }
                match fork.sooner.first_awake(after, sight) {
                    None => {
                        if sight.one_sleeps(fork.seat.mark, fork.seat.due) {
                            fork.later.first_awake(after, sight)
                        } else {
                            Some(fork.seat.id)
                        }
                    }
                    first => first,
                }
            }
        }
    }

    /// When the next of the seats is due, after a time.
    pub fn next_due(&self, now: u64) -> u64
        ensures { result ≡ next_due now self.now.0 }
    {
        match &self.root {
            None => NEVER,
            Some(fork) => {
                let fork = &**fork;
                if now < fork.least.due {
                    return fork.least.due;
                }
                lesser(
                    fork.sooner.next_due(now),
                    lesser(due_after(now, &fork.seat), fork.later.next_due(now)),
                )
            }
        }
    }

    /// The last seat that does not stand behind a key.
    pub fn last_to(&self, key: &Key) -> Option<&Seat>
        requires { Rises is_ahead self.now.0 }
        ensures some { IfSome result (λ s. IsLastTo key.now self.now.0 s.now) }
        ensures none { IfNone result (AllByRecursion (λ u. stands_to key.now u ≡ false) self.now.0) }
    {
        match &self.root {
            None => None,
            Some(fork) => {
                let fork = &**fork;
                if is_before(key, &fork.seat.key) {
                    return fork.sooner.last_to(key);
                }
                match fork.later.last_to(key) {
                    None => Some(&fork.seat),
                    last => last,
                }
            }
        }
    }

    /// Adds the ids of the seats that stand between two keys, or at them, in order.
    pub fn add_between(&self, first: &Key, last: &Key, ids: &mut Vec<u64>) -> Result<(), AllocError>
        requires { Rises is_ahead self.now.0 }
        ensures { OnOk result (ids.new.items ≡ ids.old.items ++ map (λ s. s.id) (filter (is_between first.now last.now) self.now.0)) }
    {
        match &self.root {
            None => Ok(()),
            Some(fork) => {
                let fork = &**fork;
                let key = &fork.seat.key;
                if is_before(key, first) {
                    return fork.later.add_between(first, last, ids);
                }
                if is_before(last, key) {
                    return fork.sooner.add_between(first, last, ids);
                }
                fork.sooner.add_between(first, last, ids)?;
                ids.push(fork.seat.id)?;
                fork.later.add_between(first, last, ids)
            }
        }
    }
}

/// Whether a key stands before another.
pub(crate) fn is_before(a: &Key, b: &Key) -> bool
    ensures { result ≡ is_lt (key_cmp a.now b.now) }
{
    match a.cmp(b) {
        Ordering::Less => true,
        _ => false,
    }
}

/// When a seat is due where that is after a time, else never.
fn due_after(now: u64, seat: &Seat) -> u64
    ensures { result ≡ due_after now seat.now }
{
    let due = seat.due;
    if now < due { due } else { NEVER }
}

/// Whether a key does not stand behind another.
pub(crate) fn is_passed(after: Option<Key>, key: Key) -> bool
    ensures { result ≡ is_passed after key }
{
    match after {
        None => false,
        Some(last) => match last.cmp(&key) {
            Ordering::Less => false,
            _ => true,
        },
    }
}
