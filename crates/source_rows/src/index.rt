//! The slot of each id, by rising id: found by its distance from the first, behind the one that was taken away last, and else by halving.
//! Ids that are gone are left out in time.
ghost use Rattle.std.specs.Prelude.{◌≡◌, ◌<◌, ◌++◌, ◌∷◌, [], OnOk, OnErr};
ghost use Rattle.std.specs.List.{AllByRecursion};
ghost use Rattle.std.specs.Map.{lookup, remove_entry};
ghost use Rattle.std.specs.Ordering.{nat_cmp};
ghost use Rattle.std.specs.BTreeMap.{is_at};

use by_id::ById;
use std::alloc::{AllocError, Global};
use std::marker::Model;

/// The slots of ids, by rising id.
#[derive(Drop)]
pub(crate) struct Index {
    slots: ById<u32>,
    /// The place behind the id that was taken away last.
    next: usize,
}

impl Model for Index {
    ghost use Rattle.std.specs.Prelude.{ℕ, List};
    ghost use Rattle.loop_script.specs.Units.{SourceId};

    ghost Value = { List (SourceId × ℕ) };

    ghost view = { λ i. i.slots };
}

impl Index {
    /// No id has a slot.
    pub fn new(alloc: Global) -> Self
        ensures { result ≡ [] }
    {
        Index {
            slots: ById::new(alloc),
            next: 0,
        }
    }

    /// The slot of an id. It is kept apart, so that who guesses it right stays small.
    #[inline(never)]
    pub fn get(&self, id: u64) -> Option<usize>
        ensures { result ≡ lookup (is_at (nat_cmp id)) self.now }
    {
        let slot = self.slots.get(id, self.slots.distance(id))?;
        Some(slot as usize)
    }

    /// Puts an id behind the others. There are slots for as many as a `u32` counts.
    pub fn push(&mut self, id: u64, slot: usize) -> Result<(), AllocError>
        requires { AllByRecursion (λ e. e.0 < id) self.old }
        ensures ok { OnOk result (self.new ≡ self.old ++ (id, slot) ∷ []) }
        ensures err { OnErr result (self.new ≡ self.old) }
    {
        if slot > u32::MAX as usize {
            return Err(AllocError);
        }
        self.slots.put(id, slot as u32)
    }

    /// Takes an id away, and answers its slot.
    pub fn remove(&mut self, id: u64) -> Option<usize>
        ensures value { result ≡ lookup (is_at (nat_cmp id)) self.old }
        ensures entries { self.new ≡ remove_entry (is_at (nat_cmp id)) self.old }
    {
        let mut guess = self.slots.likely(id, self.next);
        let slot = self.slots.take(id, &mut guess);
        self.next = guess;
        let slot = slot?;
        Some(slot as usize)
    }
}
