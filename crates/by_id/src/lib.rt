//! Values by their ids, by rising id: found at a place that is guessed, and else by halving. Entries whose value was taken are left out in time.
#![tactic(auto)]

ghost use Rattle.std.specs.Prelude.{◌≡◌, [], OnOk, OnErr};
ghost use Rattle.std.specs.Map.{lookup, remove_entry};
ghost use Rattle.std.specs.Ordering.{nat_cmp};
ghost use Rattle.std.specs.BTreeMap.{is_at, insert_entry};

mod entry;

use entry::{Entry, are_below, leave_out_taken, place, put_among};
use std::alloc::{AllocError, Global};
use std::marker::Model;

/// Values by their ids. Contracts see the list of them, by rising id. A value that is taken leaves its entry; once more than half of
/// the entries are such, they are left out.
#[derive(Drop)]
pub struct ById<T> {
    entries: Vec<Entry<T>>,
    /// How many values were taken since entries were left out.
    taken: usize,
}

impl<T> Model for ById<T> {
    ghost use Rattle.std.specs.Prelude.{ℕ, List};

    ghost Value = { List (ℕ × T) };

    ghost use Rattle.by_id.specs.Entries.{living, IdsRise};

    ghost view = { λ s. living s.entries.items };

    ghost invariant = { λ s. IdsRise s.entries.items };
}

impl<T: Copy> ById<T> {
    /// None. It takes no memory.
    pub fn new(alloc: Global) -> Self
        ensures { result ≡ [] }
    {
        ById {
            entries: Vec::new(alloc),
            taken: 0,
        }
    }

    /// How far an id is above the first one: where its entry stands, as long as no id between was left out.
    #[inline]
    pub fn distance(&self, id: u64) -> usize {
        match self.entries.first() {
            None => 0,
            Some(first) => id.saturating_sub(first.id) as usize,
        }
    }

    /// Where the entry of an id is likely to stand: as far behind the first one as the id is above that one's, where it stands there, and
    /// else at another place that is guessed.
    #[inline]
    pub fn likely(&self, id: u64, guess: usize) -> usize {
        let at = self.distance(id);
        match self.entries.get(at) {
            Some(entry) if entry.id == id => at,
            _ => guess,
        }
    }

    /// The value of an id, which is looked for first at a place that is guessed.
    #[inline]
    pub fn get(&self, id: u64, guess: usize) -> Option<T>
        ensures { result ≡ lookup (is_at (nat_cmp id)) self.now }
    {
        let at = place(&self.entries, guess, id)?;
        let entry = self.entries.get(at)?;
        entry.value
    }

    /// Puts the value of an id in the place of that, over the one that it has.
    #[inline]
    pub fn put(&mut self, id: u64, value: T) -> Result<(), AllocError>
        ensures ok { OnOk result (self.new ≡ insert_entry nat_cmp self.old id value) }
        ensures err { OnErr result (self.new ≡ self.old) }
    {
        if are_below(&self.entries, id) {
            let entry = Entry {
                id,
                value: Some(value),
            };
            self.entries.push(entry)?;
            return Ok(());
        }
        put_among(&mut self.entries, id, value)
    }

    /// Takes the value of an id, which is looked for first at the place that is guessed. Behind what was taken the next one is guessed.
    #[inline]
    pub fn take(&mut self, id: u64, guess: &mut usize) -> Option<T>
        ensures value { result ≡ lookup (is_at (nat_cmp id)) self.old }
        ensures left { self.new ≡ remove_entry (is_at (nat_cmp id)) self.old }
    {
        let at = place(&self.entries, *guess, id)?;
        let entry = self.entries.get_mut(at)?;
        let value = entry.value.take()?;
        *guess = at + 1;
        self.taken = self.taken.saturating_add(1);
        if self.taken > self.entries.len() / 2 {
            leave_out_taken(&mut self.entries);
            self.taken = 0;
            *guess = 0;
        }
        Some(value)
    }
}
