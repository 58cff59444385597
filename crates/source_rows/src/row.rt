//! What is kept of a source, and what is asked of that alone: its key in the order, lineage, path and times, whether it is awake; how one is made.
ghost use Rattle.std.specs.Prelude.{◌≡◌, ◌<◌, ◌≤◌, ◌==◌, length};
ghost use Rattle.loop_script.specs.Bounds.{latest};
ghost use Rattle.source_rows.specs.Rows.{key_of, stands_before};
ghost use Rattle.source_rows.specs.Band.{first_key, last_key};
ghost use Rattle.source_rows.specs.Moves.{moved_row};
ghost use Rattle.source_rows.specs.Slots.{asks};
ghost use Rattle.source_rows.specs.Seats.{seat_of};
ghost use Rattle.source_rows.specs.Candidates.{is_awake, due_at, mark_number};
ghost use Rattle.source_rows.specs.Row.{ready_at, root_row, child_row, lineage_under, path_under};

use crate::seats::{NEVER, Seat};
use crate::sight::{ALWAYS, DESCRIPTOR, Sight};
use cancel_view::{NO_MARK, cancel_number};
use loop_script::{Kind, SourceSpec};
use std::cmp::Ordering;

/// Where a row stands: a priority, and in it a path.
pub(crate) type Key = (i32, [u64; 4]);

/// What is kept of a source.
#[derive(Clone, Copy, Debug, PartialEq, Eq)]
pub struct Row {
    /// From 1 on, rising, and never given again.
    pub id: u64,
    /// What makes it ready besides its ready time.
    pub kind: Kind,
    /// A smaller number is more urgent. A child has its parent's.
    pub priority: i32,
    /// Whether it may be dispatched while a call of it is in progress.
    pub recurse: bool,
    /// 1 for a root, and one more for each step down.
    pub level: u8,
    /// Where it stands among rows of one priority, or among the children of one parent.
    pub order: u64,
    /// The id of the row that it is a child of.
    pub parent: Option<u64>,
    /// When it is ready, in microseconds; -1 is never.
    pub ready: i64,
    /// The procedure that it calls; without one its call does nothing.
    pub call: Option<u32>,
    /// How often it was dispatched.
    pub count: u64,
    /// The ids from the root down to the row, filled up with its own.
    pub lineage: [u64; 4],
    /// The order numbers from the root down to the row, filled up with the greatest number.
    pub path: [u64; 4],
}

impl Row {
    /// Whether it is a source of a descriptor.
    pub(crate) fn asks(&self) -> bool
        ensures { result ≡ asks self.now.kind }
    {
        match self.kind {
            Kind::Fd(_, _) => true,
            _ => false,
        }
    }

    /// Where the row stands: by priority, and then by its path.
    pub(crate) fn key(&self) -> Key
        ensures { result ≡ key_of self.now }
    {
        let path = self.path;
        (self.priority, path)
    }

    /// Whether the row stands before another.
    pub(crate) fn stands_before(&self, other: &Row) -> bool
        ensures { result ≡ stands_before self.now other.now }
    {
        match self.key().cmp(&other.key()) {
            Ordering::Less => true,
            _ => false,
        }
    }

    /// Where the row stands, its id, the mark by which it is open, and when it is due.
    pub(crate) fn seat(&self) -> Seat
        ensures { result ≡ seat_of self.now }
    {
        Seat {
            key: self.key(),
            id: self.id,
            mark: mark_number(self.kind),
            due: due_at(self.ready),
        }
    }

    /// Whether the row keeps the time of its seat with another ready time.
    pub(crate) fn keeps_times(&self, ready: i64) -> bool
        ensures { result ≡ (due_at self.now.ready == due_at ready) }
    {
        due_at(self.ready) == due_at(ready)
    }

    /// Whether the source may be ready, as far as its kind and its ready time tell.
    pub(crate) fn is_awake(&self, sight: &Sight) -> bool
        ensures { result ≡ is_awake sight.entry.now self.now }
    {
        !sight.one_sleeps(mark_number(self.kind), due_at(self.ready))
    }

    /// The least and the greatest key of a row in the tree of a root.
    pub(crate) fn tree_keys(&self) -> (Key, Key)
        ensures { result ≡ (first_key self.now, last_key self.now) }
    {
        let front = self.path[0];
        let first = [front, 0, 0, 0];
        let last = [front, u64::MAX, u64::MAX, u64::MAX];
        ((self.priority, first), (self.priority, last))
    }

    /// The row as it stands once the root with the id, the row itself or one above it, has a priority and an order number.
    pub(crate) fn moved(&self, id: u64, priority: i32, order: u64) -> Row
        ensures { result ≡ moved_row id priority order self.now }
    {
        let mut path = self.path;
        path[0] = order;
        Row {
            priority,
            order: if self.id == id { order } else { self.order },
            path,
            ..*self
        }
    }
}

/// When a ready time comes.
fn due_at(ready: i64) -> u64
    ensures { result ≡ due_at ready }
{
    if ready < 0 { NEVER } else { ready as u64 }
}

/// The number of the mark by which a source is open: it may then be ready whatever its ready time.
fn mark_number(kind: Kind) -> u16
    ensures { result ≡ mark_number kind }
{
    match kind {
        Kind::Idle => ALWAYS,
        Kind::Timeout(_) | Kind::ReadyTime(_) => NO_MARK,
        Kind::Fd(_, _) => DESCRIPTOR,
        Kind::Cancel(c) => cancel_number(c),
    }
}

/// When a source is ready that is made at `now`.
pub(crate) fn ready_time(kind: Kind, now: u64) -> i64
    requires { now ≤ latest }
    ensures { result ≡ ready_at kind now }
{
    match kind {
        Kind::Timeout(ms) => (now + ms as u64 * 1000) as i64,
        Kind::ReadyTime(us) => us,
        _ => -1,
    }
}

/// The row of a source with no parent.
pub(crate) fn make_root(spec: SourceSpec, now: u64, id: u64, order: u64) -> Row
    requires { now ≤ latest }
    ensures { result ≡ root_row spec now id order }
{
    Row {
        id,
        kind: spec.kind,
        priority: spec.priority,
        order,
        parent: None,
        recurse: spec.recurse,
        ready: ready_time(spec.kind, now),
        call: spec.call,
        count: 0,
        level: 1,
        lineage: [id, id, id, id],
        path: [order, u64::MAX, u64::MAX, u64::MAX],
    }
}

/// The lineage of a child: the ids of those above it, and its own from its level on.
fn lineage_below(level: u8, lineage: [u64; 4], id: u64) -> [u64; 4]
    ensures { result ≡ lineage_under level lineage id }
{
    match level {
        1 => [lineage[0], id, id, id],
        2 => [lineage[0], lineage[1], id, id],
        _ => [lineage[0], lineage[1], lineage[2], id],
    }
}

/// The path of a child: the order numbers of those above it and its own, filled up with the greatest number.
fn path_below(level: u8, path: [u64; 4], order: u64) -> [u64; 4]
    ensures { result ≡ path_under level path order }
{
    match level {
        1 => [path[0], order, u64::MAX, u64::MAX],
        2 => [path[0], path[1], order, u64::MAX],
        _ => [path[0], path[1], path[2], order],
    }
}

/// The row of a child.
pub(crate) fn make_child(parent: Row, spec: SourceSpec, now: u64, id: u64, order: u64) -> Row
    requires now { now ≤ latest }
    requires level { parent.level < 4 }
    ensures { result ≡ child_row parent spec now id order }
{
    Row {
        id,
        kind: spec.kind,
        priority: parent.priority,
        order,
        parent: Some(parent.id),
        recurse: spec.recurse,
        ready: ready_time(spec.kind, now),
        call: spec.call,
        count: 0,
        level: parent.level + 1,
        lineage: lineage_below(parent.level, parent.lineage, id),
        path: path_below(parent.level, parent.path, order),
    }
}
