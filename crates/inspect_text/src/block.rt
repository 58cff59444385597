//! One iteration in words: a line for each source of its context, with how it stands and how many stand below it, those that are alike joined.
//! Lines that the block before it has are taken from there.
use context_core::Standing;
use inspect_words::{Words, push_source, push_standing};
use run_names::RunNames;
use source_rows::{Row, Rows};
use std::alloc::{AllocError, Global};
use std::cmp::Ordering;
use std::collections::BTreeMap;

/// What an iteration does with the sources of a context.
#[derive(Drop)]
pub(crate) struct Block {
    /// A line for each source, in the order of dispatch, and one for what an older iteration loses.
    pub lines: String,
    /// Whether some source is to be dispatched.
    pub dispatches: bool,
    /// Of which source each of the first lines is, and where it stands.
    told: Vec<Told>,
}

/// A source as a line tells of it, and from where to where that line stands.
#[derive(Clone, Copy)]
struct Told {
    shown: Shown,
    from: usize,
    to: usize,
}

/// What the line of a source goes by.
#[derive(Clone, Copy)]
struct Shown {
    id: u64,
    priority: i32,
    path: [u64; 4],
    standing: Standing,
    /// The first source below it that is ready, where there is one.
    below: Option<u64>,
}

impl Shown {
    fn new(row: &Row, standing: Standing, below: Option<u64>) -> Shown {
        Shown {
            id: row.id,
            priority: row.priority,
            path: row.path,
            standing,
            below,
        }
    }

    /// Whether it is dispatched before another, where both are ready, or after it.
    fn cmp_place(&self, other: &Shown) -> Ordering {
        match self.priority.cmp(&other.priority) {
            Ordering::Equal => self.path.cmp(&other.path),
            order => order,
        }
    }

    /// Whether its line is that of another, of the same context.
    fn is_alike(&self, other: &Shown) -> bool {
        self.id == other.id
            && self.priority == other.priority
            && self.standing == other.standing
            && self.below == other.below
    }
}

/// The lines of the block before, from a source on: most sources are told of as they were.
#[derive(Clone, Copy)]
struct Before<'a> {
    block: Option<&'a Block>,
    place: usize,
}

impl<'a> Before<'a> {
    /// The line of a source, where that stays. Sources are asked for in their order.
    fn line_of(&mut self, shown: &Shown) -> Option<&'a str> {
        let block = self.block?;
        for told in block.told.as_slice().get(self.place..)? {
            match told.shown.cmp_place(shown) {
                Ordering::Greater => return None,
                Ordering::Less => self.place = self.place.saturating_add(1),
                Ordering::Equal => {
                    if !told.shown.is_alike(shown) {
                        return None;
                    }
                    return block.lines.as_str().get(told.from..told.to);
                }
            }
        }
        None
    }
}

/// Whether an iteration finds a source ready.
fn is_told_ready(standing: Standing) -> bool {
    matches!(standing, Standing::Selected | Standing::LessUrgent { .. })
}

/// Takes a source that is ready as the first one below each above it that has none yet.
fn add_below(below: &mut BTreeMap<u64, u64>, row: &Row) -> Result<(), AllocError> {
    for above in row.lineage.iter() {
        if *above != row.id && below.get(above).is_none() {
            below.insert(*above, row.id)?;
        }
    }
    Ok(())
}

/// Adds the line of a source in an iteration: its name, its kind, how it stands, and how many stand below it.
fn push_row(
    out: &mut String,
    words: Words<'_>,
    context: u32,
    row: &Row,
    shown: &Shown,
) -> Result<(), AllocError> {
    let names = words.names;
    out.push_str("  ")?;
    names.push_source(out, context, row.id)?;
    out.push_str(", ")?;
    push_source(out, names, context, row)?;
    out.push_str(": ")?;
    push_standing(out, words, context, row.id, shown.standing)?;
    if is_told_ready(shown.standing) {
        if let Some(below) = shown.below {
            out.push_str("; ")?;
            names.push_source(out, context, below)?;
            out.push_str(" below it is ready")?;
        }
    }
    out.push_str("\n")
}

impl Block {
    /// What an iteration of a context does with its sources. Lines that the block before it has are taken from there.
    pub(crate) fn of(
        alloc: Global,
        words: Words<'_>,
        context: u32,
        rows: Option<&Rows>,
        standings: &[Standing],
        before: Option<&Block>,
    ) -> Result<Block, AllocError> {
        let mut block = Block {
            lines: String::new(alloc),
            dispatches: false,
            told: Vec::new(alloc),
        };
        if let Some(rows) = rows {
            let mut below = BTreeMap::new(alloc);
            block.add_all(words, context, rows, standings, before, &mut below)?;
        }
        if block.lines.is_empty() {
            block.lines.push_str("  it has no source\n")?;
        }
        Ok(block)
    }

    /// Adds the lines of all sources.
    fn add_all(
        &mut self,
        words: Words<'_>,
        context: u32,
        rows: &Rows,
        standings: &[Standing],
        before: Option<&Block>,
        below: &mut BTreeMap<u64, u64>,
    ) -> Result<(), AllocError> {
        let mut before = Before {
            block: before,
            place: 0,
        };
        // (those below a source come before it)
        for (row, standing) in rows.in_order().zip(standings) {
            let shown = Shown::new(row, *standing, below.get(&row.id).copied());
            self.add(words, context, row, shown, &mut before)?;
            if is_told_ready(*standing) {
                add_below(below, row)?;
            }
        }
        Ok(())
    }

    /// Adds the line of a source.
    fn add(
        &mut self,
        words: Words<'_>,
        context: u32,
        row: &Row,
        shown: Shown,
        before: &mut Before<'_>,
    ) -> Result<(), AllocError> {
        let from = self.lines.len();
        match before.line_of(&shown) {
            Some(line) => self.lines.push_str(line)?,
            None => push_row(&mut self.lines, words, context, row, &shown)?,
        }
        if shown.standing == Standing::Selected {
            self.dispatches = true;
        }
        let to = self.lines.len();
        self.told.push(Told { shown, from, to })?;
        Ok(())
    }

    /// Adds what an older iteration loses, the next source last.
    pub(crate) fn push_lost(
        &mut self,
        names: &RunNames,
        context: u32,
        lost: &[u64],
    ) -> Result<(), AllocError> {
        if lost.is_empty() {
            return Ok(());
        }
        let out = &mut self.lines;
        out.push_str("  the older iteration loses what it had left: ")?;
        for (n, id) in lost.iter().rev().enumerate() {
            if n != 0 {
                out.push_str(", ")?;
            }
            names.push_source(out, context, *id)?;
        }
        out.push_str("\n")
    }
}
