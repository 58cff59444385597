//! Rows in a plain list, which each call goes through.
use rand::RngExt;
use rand_pcg::Pcg32;
use source_rows::{Levels, Row, RowsFault};
use std::alloc::{AllocError, Global};

/// A row as the plain list keeps it.
#[derive(Clone, Copy)]
struct Held {
    id: u64,
    priority: i32,
    order: u64,
    parent: Option<u64>,
    level: u8,
    ready: i64,
    count: u64,
}

/// Rows in the order in which they were made.
#[derive(Drop)]
pub(crate) struct Plain {
    held: Vec<Held>,
    levels: Levels,
    next_id: u64,
    next_order: u64,
}

impl Plain {
    pub(crate) fn new(alloc: Global, levels: Levels) -> Plain {
        Plain {
            held: Vec::new(alloc),
            levels,
            next_id: 1,
            next_order: 0,
        }
    }

    pub(crate) fn len(&self) -> usize {
        self.held.len()
    }

    /// The id of some row, or one that no row has.
    pub(crate) fn some_id(&self, random: &mut Pcg32) -> u64 {
        let index = random.random_range(0..30_u32) as usize;
        match self.held.get(index) {
            Some(held) => held.id,
            None => self.next_id.saturating_sub(index as u64),
        }
    }

    fn find(&self, id: u64) -> Option<Held> {
        self.held.iter().find(|held| held.id == id).copied()
    }

    fn push(&mut self, priority: i32, parent: Option<u64>, level: u8) -> Result<u64, RowsFault> {
        let id = self.next_id;
        let held = Held {
            id,
            priority,
            order: self.next_order,
            parent,
            level,
            ready: -1,
            count: 0,
        };
        if self.held.push(held).is_err() {
            return Err(RowsFault::OutOfMemory);
        }
        self.next_id = id.saturating_add(1);
        self.next_order = self.next_order.saturating_add(1);
        Ok(id)
    }

    pub(crate) fn attach(&mut self, priority: i32) -> Result<u64, RowsFault> {
        self.push(priority, None, 1)
    }

    pub(crate) fn add_child(&mut self, parent: u64) -> Result<u64, RowsFault> {
        let Some(above) = self.find(parent) else {
            return Err(RowsFault::NoSource);
        };
        match (self.levels, above.level) {
            (Levels::Two, 2) => Err(RowsFault::IsChild),
            (Levels::Four, 4) => Err(RowsFault::TooDeep),
            (_, level) => self.push(above.priority, Some(parent), level.saturating_add(1)),
        }
    }

    /// Takes the row away, and then what is left without a parent, level by level.
    pub(crate) fn destroy(&mut self, id: u64) -> bool {
        let found = self.find(id).is_some();
        self.held.retain(|held| held.id != id);
        for _ in 0..self.held.len() {
            self.drop_one_orphan();
        }
        found
    }

    /// Takes away a row whose parent is gone, if there is one.
    fn drop_one_orphan(&mut self) {
        for index in 0..self.held.len() {
            if let Some(parent) = self.held[index].parent
                && self.find(parent).is_none()
            {
                self.held.remove(index);
                return;
            }
        }
    }

    /// Gives a root and then, level by level, the children of what has it the priority.
    pub(crate) fn set_priority(&mut self, id: u64, priority: i32) -> Result<(), RowsFault> {
        let Some(found) = self.find(id) else {
            return Err(RowsFault::NoSource);
        };
        if found.parent.is_some() {
            return Err(RowsFault::IsChild);
        }
        let order = self.next_order;
        for index in 0..self.held.len() {
            let held = self.held[index];
            if held.id == id {
                self.held[index] = Held {
                    priority,
                    order,
                    ..held
                };
            } else if let Some(above) = held.parent.and_then(|parent| self.find(parent)) {
                self.held[index] = Held {
                    priority: above.priority,
                    ..held
                };
            }
        }
        self.next_order = order.saturating_add(1);
        Ok(())
    }

    pub(crate) fn next_ready(&self, now: i64) -> Option<i64> {
        let mut next: Option<i64> = None;
        for held in self.held.iter() {
            if now < held.ready && next.is_none_or(|next| held.ready < next) {
                next = Some(held.ready);
            }
        }
        next
    }

    pub(crate) fn set_ready(&mut self, id: u64, ready: i64) -> bool {
        for held in self.held.iter_mut() {
            if held.id == id {
                held.ready = ready;
                return true;
            }
        }
        false
    }

    pub(crate) fn dispatched(&mut self, id: u64) -> Option<u64> {
        for held in self.held.iter_mut() {
            if held.id == id {
                held.count = held.count.saturating_add(1);
                return Some(held.count);
            }
        }
        None
    }

    /// The ids, the trees of roots and of children one after another.
    pub(crate) fn ordered(&self, alloc: Global) -> Result<Vec<u64>, AllocError> {
        let mut ids = Vec::new(alloc);
        self.list_under(None, 4, &mut ids)?;
        Ok(ids)
    }

    /// Lists the rows of a parent by priority and number, each behind those under it.
    fn list_under(
        &self,
        parent: Option<u64>,
        levels: u8,
        ids: &mut Vec<u64>,
    ) -> Result<(), AllocError> {
        if levels == 0 {
            return Ok(());
        }
        let mut last = None;
        for _ in 0..self.held.len() {
            let Some(next) = self.after(parent, last) else {
                break;
            };
            self.list_under(Some(next.id), levels - 1, ids)?;
            ids.push(next.id)?;
            last = Some((next.priority, next.order));
        }
        Ok(())
    }

    /// The first row of a parent behind a priority and a number.
    fn after(&self, parent: Option<u64>, last: Option<(i32, u64)>) -> Option<Held> {
        let mut first: Option<Held> = None;
        for held in self.held.iter() {
            let place = (held.priority, held.order);
            let is_behind = match last {
                Some(last) => last < place,
                None => true,
            };
            let is_first = match first {
                Some(first) => place < (first.priority, first.order),
                None => true,
            };
            if held.parent == parent && is_behind && is_first {
                first = Some(*held);
            }
        }
        first
    }

    /// Whether a row is as it is kept here.
    pub(crate) fn has(&self, row: &Row) -> bool {
        let Some(held) = self.find(row.id) else {
            return false;
        };
        (held.priority, held.order, held.parent) == (row.priority, row.order, row.parent)
            && (held.level, held.ready, held.count) == (row.level, row.ready, row.count)
    }
}
