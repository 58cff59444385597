//! Guesses at the slots of ids: a table that may be wrong.
use crate::row::Row;
use slab::Slab;
use std::alloc::{AllocError, Global};

/// The slot that the row of an id is likely to stand in. A guess may be wrong: who takes one looks what row is there.
#[derive(Drop)]
pub(crate) struct Guesses {
    slots: Vec<u32>,
}

impl Guesses {
    pub fn new(alloc: Global) -> Self {
        Guesses {
            slots: Vec::new(alloc),
        }
    }

    /// Where the guess of an id stands. Ids follow each other, so those of rows that were made together do not meet.
    fn place(&self, id: u64) -> Option<usize> {
        let last = self.slots.len().checked_sub(1)?;
        Some(id as usize & last)
    }

    /// The slot that an id's row is likely to stand in.
    pub fn slot(&self, id: u64) -> Option<usize> {
        let place = self.place(id)?;
        let slot = self.slots.get(place)?;
        Some(*slot as usize)
    }

    /// Whether the guess at a place is right for a row.
    fn is_right(&self, rows: &Slab<Row>, place: usize) -> bool {
        match self.slots.get(place) {
            None => false,
            Some(slot) => match rows.get(*slot as usize) {
                None => false,
                Some(row) => self.place(row.id) == Some(place),
            },
        }
    }

    /// Notes the slot of an id, where no right guess stands in its place. A slot of a number that no guess holds has none.
    pub fn note(&mut self, rows: &Slab<Row>, id: u64, slot: usize) {
        let Some(place) = self.place(id) else {
            return;
        };
        if self.is_right(rows, place) {
            return;
        }
        let Ok(slot) = u32::try_from(slot) else {
            return;
        };
        if let Some(guess) = self.slots.get_mut(place) {
            *guess = slot;
        }
    }

    /// Makes room for twice as many guesses as there are rows, and one row more.
    pub fn make_room(&mut self, alloc: Global, rows: &Slab<Row>) -> Result<(), AllocError> {
        let len = self.slots.len();
        if rows.len() < len / 2 {
            return Ok(());
        }
        let mut wider = Guesses {
            slots: vec![in alloc; 0; len.max(8).saturating_mul(2)]?,
        };
        for (slot, row) in rows.iter() {
            wider.note(rows, row.id, slot);
        }
        *self = wider;
        Ok(())
    }
}
