//! Rows with few enough edits ahead that each may be tried.
ghost use Rattle.std.specs.Prelude.{◌+◌, ◌≤◌, ◌^◌};

use loop_script::SourceSpec;
use source_rows::{Levels, Rows, RowsFault};
use std::alloc::Global;

/// Rows, and how many edits are left that take an id or an order number.
#[derive(Drop)]
pub(crate) struct Tried {
    pub(crate) rows: Rows,
    left: u32,
    ghost ids: { rows.next_id + left ≤ 2 ^ 62 },
    ghost orders: { rows.next_order + left ≤ 2 ^ 62 },
}

impl Tried {
    pub(crate) fn new(alloc: Global, levels: Levels) -> Tried {
        Tried {
            rows: Rows::new(alloc, levels),
            left: 1_000_000,
        }
    }

    pub(crate) fn attach(&mut self, spec: SourceSpec, now: u32) -> Result<u64, RowsFault> {
        if self.left == 0 {
            return Err(RowsFault::OutOfMemory);
        }
        self.left -= 1;
        match self.rows.attach(spec, now as u64) {
            Ok(id) => Ok(id),
            Err(fault) => Err(fault),
        }
    }

    pub(crate) fn add_child(
        &mut self,
        parent: u64,
        spec: SourceSpec,
        now: u32,
    ) -> Result<u64, RowsFault> {
        if self.left == 0 {
            return Err(RowsFault::OutOfMemory);
        }
        self.left -= 1;
        match self.rows.add_child(parent, spec, now as u64) {
            Ok(id) => Ok(id),
            Err(fault) => Err(fault),
        }
    }

    pub(crate) fn set_priority(&mut self, id: u64, priority: i32) -> Result<(), RowsFault> {
        if self.left == 0 {
            return Err(RowsFault::OutOfMemory);
        }
        self.left -= 1;
        match self.rows.set_priority(id, priority) {
            Ok(()) => Ok(()),
            Err(fault) => Err(fault),
        }
    }

    pub(crate) fn dispatched(&mut self, id: u64) -> Option<u64> {
        match self.rows.row(id) {
            Some(row) if row.count > 1_000_000 => None,
            _ => self.rows.dispatched(id),
        }
    }

    pub(crate) fn set_ready(&mut self, id: u64, ready: i64) -> bool {
        self.rows.set_ready(id, ready)
    }

    /// The next ready time, or 0 where there is none.
    pub(crate) fn next_ready(&self, now: u64) -> u64 {
        if now > 1_000_000 {
            return 0;
        }
        match self.rows.next_ready(now) {
            Some(ready) if 0 < ready => ready as u64,
            _ => 0,
        }
    }

    pub(crate) fn destroy(&mut self, id: u64) -> bool {
        self.rows.destroy(id)
    }

    /// Whether both of the iterators over rows have one order.
    pub(crate) fn is_one_order(&self) -> bool {
        self.rows
            .in_order()
            .map(|row| row.id)
            .eq(self.rows.ordered().copied())
    }
}
