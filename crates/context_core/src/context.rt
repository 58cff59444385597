//! A context: who owns it and how often, its rows, how long it may wait, its three phases, and what it shows of each source.
ghost use Rattle.std.specs.Prelude.{◌≡◌, false, ◌≤◌, ◌<◌, ◌==◌, ◌&&◌, IfOk, IsSome, ℕ, ◌≢◌, [], filter, map, None};
ghost use Rattle.std.specs.Borrow.{sem};
ghost use Rattle.loop_script.specs.Bounds.{count_end, latest};
ghost use Rattle.loop_script.specs.Units.{Descriptor, Bits};
ghost use Rattle.context_core.specs.Lending.{LendsRows};
ghost use Rattle.context_core.specs.Defaults.{acquired, released, is_acquired};
ghost use Rattle.source_rows.specs.Rows.{no_rows, level_count, next_ready, in_order};
ghost use Rattle.source_rows.specs.Tree.{IsOneTree};
ghost use Rattle.context_core.specs.Ready.{in_view, own_ready, selected, is_free, is_ready};
ghost use Rattle.context_core.specs.Standing.{standing, first_with};
ghost use Rattle.context_core.specs.Phases.{ms_until, least_ready, wait_of, interests, asked_rows, levels_for, shown, handed, walk};

use crate::busy::{Busy, BusyTable};
use crate::free::FreeRows;
use crate::interest::{Interest, Prepared, Shown};
use crate::polled::{Polled, classes_of_shown, level_at};
use crate::ready::{interest, is_beyond, is_free, ms_until, own_ready, sooner_ready};
use crate::standing::{Standing, stand};
use crate::visit::{visit, visit_free};
use cancel_view::View;
use source_rows::{Levels, Row, Rows, Sight};
use std::alloc::{AllocError, Global};
use std::collections::BTreeSet;

/// For how many ids an iteration that dispatches something has room at first.
const FEW: usize = 32;

/// A context: its sources, and how often it was acquired and not released.
#[derive(Drop)]
pub struct Context {
    rows: Rows,
    acquires: u64,
}

impl Context {
    /// A context with no source, whose sources may stand at so many levels.
    pub fn new(alloc: Global, levels: Levels) -> Self
        ensures { result ≡ record { rows = no_rows (level_count levels); acquires = 0 } }
    {
        Context {
            rows: Rows::new(alloc, levels),
            acquires: 0,
        }
    }

    /// Acquires the context, once more where it was acquired (GMainContext: `g_main_context_acquire`).
    pub fn acquire(&mut self)
        requires { self.old.acquires < count_end }
        ensures { self.new ≡ acquired self.old }
    {
        self.acquires += 1;
    }

    /// Takes one `acquire` back. It answers false, and changes nothing, where there is none.
    pub fn release(&mut self) -> bool
        ensures answer { result ≡ is_acquired self.old }
        ensures released { self.new ≡ released self.old }
        ensures same { result ≡ false → self.new ≡ self.old }
    {
        if self.acquires == 0 {
            return false;
        }
        self.acquires -= 1;
        true
    }

    /// How many times `acquire` was called and not taken back.
    pub fn acquires(&self) -> u64
        ensures { result ≡ self.now.acquires }
    {
        self.acquires
    }

    /// Whether an `acquire` was not taken back.
    pub fn is_owned(&self) -> bool
        ensures { result ≡ is_acquired self.now }
    {
        self.acquires > 0
    }

    /// The sources.
    pub fn rows(&self) -> &Rows
        ensures { result.now ≡ self.now.rows }
    {
        &self.rows
    }

    /// The sources, to edit them.
    pub fn rows_mut(&mut self) -> &mut Rows
        ensures* writes_back { sem 𝓛 (LendsRows self.entry result) }
        ensures rows { result.now ≡ self.old.rows }
    {
        &mut self.rows
    }

    /// How many milliseconds a poll may wait where nothing is ready.
    fn wait(&self, now: u64, busy: &Busy) -> i64
        requires { now ≤ latest }
        ensures { result ≡ ms_until now (next_ready now (filter (is_free busy.now) self.now.rows.rows)) }
    {
        if busy.is_empty() {
            return ms_until(now, self.rows.next_ready(now));
        }
        let mut least = None;
        'rows: for row in self.rows.in_order() {
            if is_free(row, busy) {
                least = sooner_ready(least, row.ready, now);
            }
        }
        ms_until(now, least)
    }

    /// The least priority of what is ready before any descriptor is asked, at a time in microseconds, as `prepare` tells it: for who
    /// does not wait, and needs no time for a poll. Where there is one, an iteration would dispatch something, whatever descriptors show.
    pub fn ready_priority(&self, now: u64, busy: &Busy, view: &View) -> Option<i32>
        requires { now ≤ latest }
        ensures priority { result ≡ least_ready (in_view view.now) now busy.now self.now.rows.rows }
        ensures some { IsSome result → (level : Descriptor → Bits) → selected (own_ready level (in_view view.now) now) busy.now self.now.rows.rows ≢ [] }
    {
        let polled = Polled::nothing();
        let sight = Sight::undisturbed(now, view.marks());
        'rows: for row in FreeRows::new(self.rows.candidates(sight), busy) {
            if own_ready(row, &polled, now, view) {
                return Some(row.priority);
            }
        }
        None
    }

    /// What is ready before any descriptor is asked, at a time in microseconds, with the ids of the sources of this
    /// context whose calls are in progress and may not be dispatched again.
    pub fn prepare(&self, now: u64, busy: &[u64], view: &View) -> Prepared
        requires { now ≤ latest }
        ensures priority { result.priority ≡ least_ready (in_view view.now) now busy.now self.now.rows.rows }
        ensures timeout { result.timeout_ms ≡ wait_of now busy.now self.now.rows.rows result.priority }
    {
        let table = BusyTable::new(busy);
        let busy = Busy::new(busy, &table);
        match self.ready_priority(now, &busy, view) {
            Some(priority) => Prepared {
                priority: Some(priority),
                timeout_ms: 0,
            },
            None => Prepared {
                priority: None,
                timeout_ms: self.wait(now, &busy),
            },
        }
    }

    /// What the free sources that are not less urgent than what is ready ask of descriptors, in order. Its one refusal is want of memory.
    pub fn query(
        &self,
        alloc: Global,
        prepared: &Prepared,
        busy: &[u64],
    ) -> Result<Vec<Interest>, AllocError>
        ensures { IfOk result (λ list. list.items ≡ interests prepared.now.priority busy.now self.now.rows.rows) }
    {
        let table = BusyTable::new(busy);
        self.interests(alloc, prepared.priority, &Busy::new(busy, &table))
    }

    /// What `query` tells where a priority is the least of what is ready. Its one refusal is want of memory.
    pub fn interests(
        &self,
        alloc: Global,
        least: Option<i32>,
        busy: &Busy,
    ) -> Result<Vec<Interest>, AllocError>
        ensures { IfOk result (λ list. list.items ≡ interests least busy.now self.now.rows.rows) }
    {
        let mut list = Vec::new(alloc);
        if !self.rows.may_ask() {
            return Ok(list);
        }
        let sight = Sight::of_descriptors();
        'rows: for row in FreeRows::new(self.rows.candidates(sight), busy) {
            if let Some(interest) = interest(row, least, busy) {
                list.push(interest)?;
            }
        }
        Ok(list)
    }

    /// The descriptors that were asked, with the levels handed in for them.
    fn polled(
        &self,
        alloc: Global,
        least: Option<i32>,
        busy: &Busy,
        levels: &[u8],
    ) -> Result<Vec<Shown>, AllocError>
        ensures { IfOk result (λ list. list.items ≡ handed (asked_rows least busy.now self.now.rows.rows) levels.now) }
    {
        let mut list = Vec::new(alloc);
        if levels.is_empty() {
            return Ok(list);
        }
        let sight = Sight::of_descriptors();
        'rows: for row in FreeRows::new(self.rows.candidates(sight), busy) {
            if let Some(interest) = interest(row, least, busy) {
                if let Some(level) = level_at(levels, list.len()) {
                    list.push(Shown {
                        fd: interest.fd,
                        level,
                    })?;
                }
            }
        }
        Ok(list)
    }

    /// The ids of the ready rows, up to the least priority of them. In order all rows that lend to one stand before it.
    fn walk(
        &self,
        alloc: Global,
        least: Option<i32>,
        polled: &Polled,
        now: u64,
        busy: &Busy,
        view: &View,
    ) -> Result<Vec<u64>, AllocError>
        requires { now ≤ latest }
        ensures one_tree { IsOneTree self.now.rows.rows }
        ensures ids { IfOk result (λ ids. ids.items
            ≡ walk (is_ready (own_ready (shown polled.now) (in_view view.now) now) busy.now self.now.rows.rows) least (in_order self.now.rows.rows)) }
    {
        let sight = Sight::new(now, view.marks());
        let rows = FreeRows::new(self.rows.candidates(sight), busy);
        let mut ids = room_for_ids(alloc, least)?;
        let mut bound = least;
        let mut lent = BTreeSet::new(alloc);
        'rows: for row in rows {
            if is_beyond(bound, row.priority) {
                break;
            }
            if visit_free(&mut lent, row, polled, now, view)? {
                bound = Some(row.priority);
                ids.push(row.id)?;
            }
        }
        Ok(ids)
    }

    /// The ids of the sources that are dispatched next, in order, by the levels that descriptors show to the interests
    /// of `query`, one each. The rows, the time and what is busy are those of the `prepare`.
    pub fn check(
        &self,
        alloc: Global,
        prepared: &Prepared,
        now: u64,
        busy: &[u64],
        view: &View,
        levels: &[u8],
    ) -> Result<Vec<u64>, AllocError>
        requires now { now ≤ latest }
        requires prepared { prepared.now.priority ≡ least_ready (in_view view.now) now busy.now self.now.rows.rows }
        ensures { (level : ℕ → ℕ) → levels.now ≡ levels_for level (asked_rows prepared.now.priority busy.now self.now.rows.rows)
            → IfOk result (λ ids. ids.items ≡ selected (own_ready level (in_view view.now) now) busy.now self.now.rows.rows) }
    {
        let table = BusyTable::new(busy);
        let busy = Busy::new(busy, &table);
        self.select(alloc, prepared.priority, now, &busy, view, levels)
    }

    /// What `check` tells where a priority is the least of what is ready. Its one refusal is want of memory, after which all is as before.
    pub fn select(
        &self,
        alloc: Global,
        least: Option<i32>,
        now: u64,
        busy: &Busy,
        view: &View,
        levels: &[u8],
    ) -> Result<Vec<u64>, AllocError>
        requires now { now ≤ latest }
        requires least { least ≡ least_ready (in_view view.now) now busy.now self.now.rows.rows }
        ensures { (level : ℕ → ℕ) → levels.now ≡ levels_for level (asked_rows least busy.now self.now.rows.rows)
            → IfOk result (λ ids. ids.items ≡ selected (own_ready level (in_view view.now) now) busy.now self.now.rows.rows) }
    {
        if levels.is_empty() {
            return self.walk(alloc, least, &Polled::nothing(), now, busy, view);
        }
        let list = self.polled(alloc, least, busy, levels)?;
        let classes = classes_of_shown(&list);
        let polled = Polled::new(&list, &classes);
        self.walk(alloc, least, &polled, now, busy, view)
    }

    /// What an iteration begun now would do with each source, in the order of dispatch, where descriptors are known by a list.
    fn all_standings(
        &self,
        alloc: Global,
        polled: &Polled,
        now: u64,
        busy: &Busy,
        view: &View,
    ) -> Result<Vec<Standing>, AllocError>
        requires { now ≤ latest }
        ensures one_tree { IsOneTree self.now.rows.rows }
        ensures list { IfOk result (λ list. list.items ≡ map (standing (shown polled.now) (in_view view.now) now busy.now self.now.rows.rows) (in_order self.now.rows.rows)) }
    {
        let mut list = Vec::new(alloc);
        let mut lent = BTreeSet::new(alloc);
        let mut first = None;
        'rows: for row in self.rows.in_order() {
            let ready = visit(&mut lent, row, polled, now, busy, view)?;
            first = first_of(first, row, ready);
            list.push(stand(row, ready, first, polled, busy))?;
        }
        Ok(list)
    }

    /// What an iteration begun now would do with each source, and why, in the order of dispatch, as that of `rows`, by the
    /// levels that descriptors show to the interests of a `query` after a `prepare` that found nothing ready, one each.
    pub fn standings(
        &self,
        alloc: Global,
        now: u64,
        busy: &[u64],
        view: &View,
        levels: &[u8],
    ) -> Result<Vec<Standing>, AllocError>
        requires { now ≤ latest }
        ensures { (level : ℕ → ℕ) → levels.now ≡ levels_for level (asked_rows None busy.now self.now.rows.rows)
            → IfOk result (λ list. list.items ≡ map (standing level (in_view view.now) now busy.now self.now.rows.rows) (in_order self.now.rows.rows)) }
    {
        let table = BusyTable::new(busy);
        let busy = Busy::new(busy, &table);
        let list = self.polled(alloc, None, &busy, levels)?;
        let classes = classes_of_shown(&list);
        let polled = Polled::new(&list, &classes);
        self.all_standings(alloc, &polled, now, &busy, view)
    }
}

/// No ids, with room for a few where something is ready: so they are not moved again and again as they come.
fn room_for_ids(alloc: Global, least: Option<i32>) -> Result<Vec<u64>, AllocError>
    ensures { IfOk result (λ ids. ids.items ≡ []) }
{
    match least {
        Some(_) => Vec::with_capacity(alloc, FEW),
        None => Ok(Vec::new(alloc)),
    }
}

/// The row that was ready first, where a ready one comes after it or is it.
fn first_of(first: Option<Row>, row: &Row, ready: bool) -> Option<Row>
    ensures { result ≡ first_with first ready row.now }
{
    if first.is_none() && ready {
        Some(*row)
    } else {
        first
    }
}
