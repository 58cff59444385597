//! The rows of a context, by their public calls: edits, and what asks for one row, all in order, those that may be ready, and the next ready time.
ghost use Rattle.std.specs.Prelude.{[], map, ◌≡◌, ◌≤◌, ◌<◌, ◌+◌, ◌⊎◌, IfOk, OnOk, IfErr, OnErr, IfSome, Some, None, is_some, option_map, false};
ghost use Rattle.loop_script.specs.Bounds.{count_end, latest};
ghost use Rattle.std.specs.List.{AllByRecursion};
ghost use Rattle.std.specs.Option.{option_copied};
ghost use Rattle.std.specs.Borrow.{Bor};
ghost use Rattle.std.specs.Map.Iter.{ShowsInOrder};
ghost use Rattle.source_rows.specs.Candidates.{candidates};
ghost use Rattle.source_rows.specs.New.{IsNew};
ghost use Rattle.source_rows.specs.Slots.{MayAsk};
ghost use Rattle.source_rows.specs.declared.row.Row.{Row};
ghost use Rattle.source_rows.specs.Tree.{IsForest, IsOneTree, HasPlace};
ghost use Rattle.source_rows.specs.Rows.{no_rows, level_count, added, attached, child_added, child_fault, reprioritised, priority_fault, row_of, ready_set, counted, destroyed, in_order, next_ready};

use crate::candidates::Candidates;
use crate::fault::RowsFault;
use crate::in_order::{InOrder, Ordered};
use crate::levels::Levels;
use crate::moves::move_rows;
use crate::removal::remove_under;
use crate::row::{Row, make_child, make_root};
use crate::sight::Sight;
use crate::table::Table;
use loop_script::SourceSpec;
use std::alloc::{AllocError, Global};
use std::marker::Model;

/// The sources of one context. Ids and order numbers are given from 1 and from 0, and never again.
#[derive(Drop)]
pub struct Rows {
    table: Table,
    next_id: u64,
    next_order: u64,
    levels: Levels,
    alloc: Global,
}

impl Model for Rows {
    ghost use Rattle.source_rows.specs.Rows.{RowSet};

    ghost Value = { RowSet };

    ghost use Rattle.source_rows.specs.Kept.{set_of, IsSound};
    ghost use Rattle.source_rows.specs.Rows.{level_count};

    ghost view = { set_of };

    ghost invariant = { λ a. IsSound a.table a.next_id a.next_order (level_count a.levels) };
}

impl Rows {
    /// The rows of a context that has no sources yet.
    pub fn new(alloc: Global, levels: Levels) -> Self
        ensures { result ≡ no_rows (level_count levels) }
    {
        Rows {
            table: Table::new(alloc),
            next_id: 1,
            next_order: 0,
            levels,
            alloc,
        }
    }

    /// The row of an id; None where there is none, and none comes to it later.
    #[inline]
    pub fn row(&self, id: u64) -> Option<Row>
        ensures { result ≡ row_of id self.now.rows }
    {
        self.table.row(id)
    }

    /// The row of an id, lent.
    #[inline]
    pub fn found(&self, id: u64) -> Option<&Row>
        ensures { option_copied result ≡ row_of id self.now.rows }
    {
        self.table.found(id)
    }

    /// Puts a row behind the others.
    fn add(&mut self, row: Row) -> Result<(), RowsFault>
        requires new { IsNew row self.old.next_order }
        requires order { row.order ≡ self.old.next_order }
        requires place { HasPlace self.old.rows row.parent row }
        requires id { row.id ≡ self.old.next_id }
        requires level { row.level ≤ self.old.levels }
        requires ids { self.old.next_id < count_end }
        requires orders { self.old.next_order < count_end }
        ensures ok { OnOk result (self.new ≡ added row self.old) }
        ensures err { OnErr result (self.new ≡ self.old) }
        ensures fault { IfErr result (λ e. e ≡ RowsFault.OutOfMemory) }
    {
        if self.table.push(row).is_err() {
            return Err(RowsFault::OutOfMemory);
        }
        self.next_id += 1;
        self.next_order += 1;
        Ok(())
    }

    /// Attaches a source (GLib reference, `g_source_attach`), and answers its id. A timeout's ready time counts from
    /// `now`, in microseconds. After `OutOfMemory`, its one refusal, the rows are unchanged.
    pub fn attach(&mut self, spec: SourceSpec, now: u64) -> Result<u64, RowsFault>
        requires now { now ≤ latest }
        requires ids { self.old.next_id < count_end }
        requires orders { self.old.next_order < count_end }
        ensures ok { OnOk result (self.new ≡ attached spec now self.old) }
        ensures id { IfOk result (λ id. id ≡ self.old.next_id) }
        ensures err { OnErr result (self.new ≡ self.old) }
        ensures fault { IfErr result (λ e. e ≡ RowsFault.OutOfMemory) }
    {
        let id = self.next_id;
        let row = make_root(spec, now, id, self.next_order);
        self.add(row)?;
        Ok(id)
    }

    /// Attaches a source below another (`g_source_add_child_source`), and answers its id. It has the priority of its
    /// parent, and not that of its spec. Refused where no row is the parent (`NoSource`), where the parent stands at the
    /// last level (`IsChild` of two, `TooDeep` of four) and where memory runs out; the rows are then unchanged.
    pub fn add_child(&mut self, parent: u64, spec: SourceSpec, now: u64) -> Result<u64, RowsFault>
        requires now { now ≤ latest }
        requires ids { self.old.next_id < count_end }
        requires orders { self.old.next_order < count_end }
        ensures ok { OnOk result (self.new ≡ child_added spec now (row_of parent self.old.rows) self.old) }
        ensures id { IfOk result (λ id. id ≡ self.old.next_id) }
        ensures allowed { OnOk result (child_fault self.old.levels (row_of parent self.old.rows) ≡ None) }
        ensures err { OnErr result (self.new ≡ self.old) }
        ensures fault { IfErr result (λ e. (e ≡ RowsFault.OutOfMemory) ⊎ (child_fault self.old.levels (row_of parent self.old.rows) ≡ Some e)) }
        ensures memory { IfErr result (λ e. e ≡ RowsFault.OutOfMemory → child_fault self.old.levels (row_of parent self.old.rows) ≡ None) }
    {
        match self.row(parent) {
            None => Err(RowsFault::NoSource),
            Some(above) => {
                if above.level == self.levels.count() {
                    match self.levels {
                        Levels::Two => Err(RowsFault::IsChild),
                        Levels::Four => Err(RowsFault::TooDeep),
                    }
                } else {
                    let id = self.next_id;
                    let row = make_child(above, spec, now, id, self.next_order);
                    self.add(row)?;
                    Ok(id)
                }
            }
        }
    }

    /// Gives a row a ready time (`g_source_set_ready_time`), in microseconds, or -1 for never; false where there is no
    /// such row. It stands where it stood.
    pub fn set_ready(&mut self, id: u64, ready: i64) -> bool
        ensures row { result ≡ is_some (row_of id self.old.rows) }
        ensures rows { self.new ≡ ready_set id ready self.old }
    {
        self.table.set_ready(id, ready)
    }

    /// Gives a root and all that are under it a priority (`g_source_set_priority`), also the one that they have: the tree
    /// then stands behind the others of that priority, its own rows as they stood. Refused where no row has the id
    /// (`NoSource`), for a row with a parent (`IsChild`) and where memory runs out; the rows are then unchanged.
    pub fn set_priority(&mut self, id: u64, priority: i32) -> Result<(), RowsFault>
        requires orders { self.old.next_order < count_end }
        ensures ok { OnOk result (self.new ≡ reprioritised id priority self.old) }
        ensures allowed { OnOk result (priority_fault (row_of id self.old.rows) ≡ None) }
        ensures err { OnErr result (self.new ≡ self.old) }
        ensures fault { IfErr result (λ e. (e ≡ RowsFault.OutOfMemory) ⊎ (priority_fault (row_of id self.old.rows) ≡ Some e)) }
        ensures memory { IfErr result (λ e. e ≡ RowsFault.OutOfMemory → priority_fault (row_of id self.old.rows) ≡ None) }
    {
        match self.row(id) {
            None => Err(RowsFault::NoSource),
            Some(root) => {
                if root.level == 1 {
                    match self.move_tree(root, priority) {
                        Ok(()) => Ok(()),
                        Err(_) => Err(RowsFault::OutOfMemory),
                    }
                } else {
                    Err(RowsFault::IsChild)
                }
            }
        }
    }

    /// Moves the tree of a root to the end of a priority.
    fn move_tree(&mut self, root: Row, priority: i32) -> Result<(), AllocError>
        requires root { row_of root.id self.old.rows ≡ Some root }
        requires level { root.level ≡ 1 }
        requires orders { self.old.next_order < count_end }
        ensures ok { OnOk result (self.new ≡ reprioritised root.id priority self.old) }
        ensures err { OnErr result (self.new ≡ self.old) }
    {
        let order = self.next_order;
        if self.table.may_nest() {
            let (first, last) = root.tree_keys();
            let ids = self.table.ids_between(first, last)?;
            move_rows(&mut self.table, ids.as_slice(), root.id, priority, order);
        } else {
            // the root stands alone
            self.table.move_row(root.id, root.id, priority, order);
        }
        self.next_order += 1;
        Ok(())
    }

    /// Whether a row may be one of a descriptor; false only where none is.
    pub fn may_ask(&self) -> bool
        ensures { MayAsk result self.now.rows }
    {
        self.table.may_ask()
    }

    /// The least ready time above `now`, in microseconds; None where no row has one.
    pub fn next_ready(&self, now: u64) -> Option<i64>
        requires { now ≤ latest }
        ensures { result ≡ next_ready now self.now.rows }
    {
        self.table.next_ready(now)
    }

    /// Takes a row away with all that are under it (`g_source_destroy`); false where there is no such row. The others
    /// stand as they stood, and its id comes to no other row.
    pub fn destroy(&mut self, id: u64) -> bool
        ensures row { result ≡ is_some (row_of id self.old.rows) }
        ensures rows { self.new ≡ destroyed id self.old }
        ensures none { result ≡ false → self.new ≡ self.old }
    {
        match self.table.row(id) {
            None => false,
            Some(found) => {
                if self.table.may_nest() {
                    remove_under(&mut self.table, found.key(), id);
                } else {
                    // no row is under another
                    self.table.remove(id);
                }
                true
            }
        }
    }

    /// Raises how often a row was dispatched, and answers it; None where there is no such row.
    pub fn dispatched(&mut self, id: u64) -> Option<u64>
        requires { IfSome (row_of id self.old.rows) (λ r. r.count < count_end) }
        ensures count { result ≡ option_map (λ r. r.count + 1) (row_of id self.old.rows) }
        ensures rows { self.new ≡ counted id self.old }
    {
        self.table.count_one(id)
    }

    /// The rows in the order in which an iteration dispatches them. It takes no memory. Its clauses also say what holds
    /// of the rows at any time: how they stand in trees, and that one tree has one priority.
    pub fn in_order(&self) -> InOrder<'_>
        ensures rows { result ≡ in_order self.now.rows }
        ensures forest { IsForest self.now.rows }
        ensures one_tree { IsOneTree self.now.rows }
        ensures levels { AllByRecursion (λ r. r.level ≤ self.now.levels) self.now.rows }
        ensures ids { AllByRecursion (λ r. r.id < self.now.next_id) self.now.rows }
        ensures runs { ShowsInOrder (λ (r : Bor Row). r.now) }
    {
        InOrder::new(self.table.walk(None), &self.table)
    }

    /// The rows that may be ready, as far as kinds, ready times and a sight tell, and those above them, in the order in which an
    /// iteration dispatches them. Of what is a source of a cancellable those whose cancellable may have been seen are among them. It
    /// takes no memory.
    pub fn candidates(&self, sight: Sight) -> Candidates<'_>
        ensures rows { result ≡ candidates sight self.now.rows }
        ensures forest { IsForest self.now.rows }
        ensures one_tree { IsOneTree self.now.rows }
        ensures runs { ShowsInOrder (λ (r : Bor Row). r.now) }
    {
        Candidates::new(&self.table, sight)
    }

    /// The ids in the order in which an iteration dispatches their rows.
    pub fn ordered(&self) -> Ordered<'_>
        ensures { result ≡ map (λ r. r.id) (in_order self.now.rows) }
    {
        Ordered::new(self.table.walk(None))
    }
}
