//! Which name each source, or each handler, of a run has: kept by ids as they come.
ghost use Rattle.std.specs.Prelude.{◌≡◌, [], OnOk, OnErr};
ghost use Rattle.run_names.specs.Labelled.{label_of, AreApart};

use crate::label::{Label, Origin, Seat};
use std::alloc::{AllocError, Global};
use std::collections::BTreeMap;
use std::marker::Model;

/// The labels that were given so far. Contracts see them as a list.
#[derive(Drop)]
pub(crate) struct Labels {
    /// The place of the last of each origin.
    counts: BTreeMap<Origin, u64>,
    given: BTreeMap<Seat, Label>,
}

impl Model for Labels {
    ghost use Rattle.std.specs.Prelude.{List};
    ghost use Rattle.run_names.specs.declared.label.Seat.{Seat};
    ghost use Rattle.run_names.specs.declared.label.Label.{Label};

    ghost Value = { List (Seat × Label) };

    ghost use Rattle.run_names.specs.Labelled.{AreKept};

    ghost view = { λ l. l.given.entries };

    ghost invariant = { λ l. AreKept ⟦<Seat as Ord>⟧.cmp ⟦<Origin as Ord>⟧.cmp l.counts l.given };
}

impl Labels {
    /// None was given yet.
    pub(crate) fn new(alloc: Global) -> Labels
        ensures { result ≡ [] }
    {
        Labels {
            counts: BTreeMap::new(alloc),
            given: BTreeMap::new(alloc),
        }
    }

    /// Gives the next label of an origin, where there is none yet.
    pub(crate) fn give(&mut self, seat: Seat, origin: Origin) -> Result<(), AllocError> {
        if self.given.contains_key(&seat) {
            return Ok(());
        }
        let before = self.counts.get(&origin).copied().unwrap_or(0);
        let Some(place) = before.checked_add(1) else {
            return Ok(());
        };
        self.counts.insert(origin, place)?;
        self.given.insert(seat, Label { origin, place })?;
        Ok(())
    }

    /// The label of what stands there. No two are called the same.
    pub(crate) fn get(&self, seat: Seat) -> Option<Label>
        ensures label { result ≡ label_of seat self.now }
        ensures apart { AreApart self.now }
    {
        self.given.get(&seat).copied()
    }
}
