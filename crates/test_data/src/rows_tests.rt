//! Single calls of rows, with ample memory and with memory refused, and random edits beside plain rows.
use crate::expected::expect_same;
use crate::plain::Plain;
use crate::tried::Tried;
use loop_script::{Kind, SourceSpec};
use rand::RngExt;
use rand_pcg::Pcg32;
use source_rows::{Levels, Row, RowsFault};
use std::alloc::{AllocError, Global};
use std::process::Abort;

/// From which numbers that look random the edits come, of which stream of them.
const SEED: u64 = 20;

const STREAM: u64 = 0;

const IDLE: SourceSpec = SourceSpec {
    kind: Kind::Idle,
    priority: 200,
    recurse: false,
    call: None,
};

const TIMEOUT: SourceSpec = SourceSpec {
    kind: Kind::Timeout(2),
    priority: 0,
    recurse: false,
    call: Some(7),
};

/// A call, of which a test knows the answer and the order after it.
#[derive(Clone, Copy)]
enum Step {
    Attach(SourceSpec),
    Child(u64, SourceSpec),
    Priority(u64, i32),
    Ready(u64, i64),
    NextReady(u64),
    Dispatched(u64),
    Destroy(u64),
    IsThere(u64),
}

/// Takes a step. Where a call answers true or false the number is 1 or 0, and where it answers none it is 0.
fn take(rows: &mut Tried, step: &Step) -> Result<u64, RowsFault> {
    match step {
        Step::Attach(spec) => rows.attach(*spec, 0),
        Step::Child(parent, spec) => rows.add_child(*parent, *spec, 0),
        Step::Priority(id, priority) => rows.set_priority(*id, *priority).map(|_| 0),
        Step::Ready(id, ready) => Ok(rows.set_ready(*id, *ready) as u64),
        Step::NextReady(now) => Ok(rows.next_ready(*now)),
        Step::Dispatched(id) => Ok(rows.dispatched(*id).unwrap_or(0)),
        Step::Destroy(id) => Ok(rows.destroy(*id) as u64),
        Step::IsThere(id) => Ok(rows.rows.row(*id).is_some() as u64),
    }
}

type Known = (Step, Result<u64, RowsFault>, &'static [u64]);

const STEPS_OF_TWO_LEVELS: [Known; 16] = [
    (Step::Attach(IDLE), Ok(1), &[1]),
    (Step::Attach(TIMEOUT), Ok(2), &[2, 1]),
    (Step::Child(1, IDLE), Ok(3), &[2, 3, 1]),
    (Step::Child(3, IDLE), Err(RowsFault::IsChild), &[2, 3, 1]),
    (Step::Child(9, IDLE), Err(RowsFault::NoSource), &[2, 3, 1]),
    (Step::Priority(3, 0), Err(RowsFault::IsChild), &[2, 3, 1]),
    (Step::Priority(1, -5), Ok(0), &[3, 1, 2]),
    (Step::NextReady(1_999), Ok(2_000), &[3, 1, 2]),
    (Step::NextReady(2_000), Ok(0), &[3, 1, 2]),
    (Step::Ready(2, 5), Ok(1), &[3, 1, 2]),
    (Step::NextReady(4), Ok(5), &[3, 1, 2]),
    (Step::Destroy(1), Ok(1), &[2]),
    (Step::IsThere(3), Ok(0), &[2]),
    (Step::Destroy(1), Ok(0), &[2]),
    (Step::Dispatched(2), Ok(1), &[2]),
    (Step::Dispatched(1), Ok(0), &[2]),
];

/// Roots that are moved and destroyed while no row has a child, and then beside one that has.
const STEPS_OF_ROOTS: [Known; 12] = [
    (Step::Attach(IDLE), Ok(1), &[1]),
    (Step::Attach(TIMEOUT), Ok(2), &[2, 1]),
    (Step::Attach(TIMEOUT), Ok(3), &[2, 3, 1]),
    (Step::Priority(2, 0), Ok(0), &[3, 2, 1]),
    (Step::Priority(1, -1), Ok(0), &[1, 3, 2]),
    (Step::Destroy(3), Ok(1), &[1, 2]),
    (Step::Priority(3, 0), Err(RowsFault::NoSource), &[1, 2]),
    (Step::Attach(TIMEOUT), Ok(4), &[1, 2, 4]),
    (Step::Child(1, IDLE), Ok(5), &[5, 1, 2, 4]),
    (Step::Priority(1, 0), Ok(0), &[2, 4, 5, 1]),
    (Step::Destroy(4), Ok(1), &[2, 5, 1]),
    (Step::Destroy(1), Ok(1), &[2]),
];

/// A chain of four, and then a root with two branches and one that is more urgent until the first has its priority.
const STEPS_OF_FOUR_LEVELS: [Known; 14] = [
    (Step::Attach(IDLE), Ok(1), &[1]),
    (Step::Child(1, IDLE), Ok(2), &[2, 1]),
    (Step::Child(2, IDLE), Ok(3), &[3, 2, 1]),
    (Step::Child(3, IDLE), Ok(4), &[4, 3, 2, 1]),
    (Step::Child(4, IDLE), Err(RowsFault::TooDeep), &[4, 3, 2, 1]),
    (Step::Priority(2, 0), Err(RowsFault::IsChild), &[4, 3, 2, 1]),
    (Step::Destroy(2), Ok(1), &[1]),
    (Step::Child(1, IDLE), Ok(5), &[5, 1]),
    (Step::Child(1, IDLE), Ok(6), &[5, 6, 1]),
    (Step::Child(5, TIMEOUT), Ok(7), &[7, 5, 6, 1]),
    (Step::Attach(TIMEOUT), Ok(8), &[8, 7, 5, 6, 1]),
    (Step::Priority(1, 0), Ok(0), &[8, 7, 5, 6, 1]),
    (Step::Priority(1, -1), Ok(0), &[7, 5, 6, 1, 8]),
    (Step::Destroy(5), Ok(1), &[6, 1, 8]),
];

/// The first eight rows.
fn first_rows(rows: &Tried) -> [Option<Row>; 8] {
    [1, 2, 3, 4, 5, 6, 7, 8].map(|id| rows.rows.row(id))
}

fn are_in_order(rows: &Tried, ids: &[u64]) -> bool {
    rows.rows.ordered().eq(ids)
}

/// Takes a step. Where memory is refused, the rows are as before, and the step is taken again.
fn retake(rt: &impl Abort, rows: &mut Tried, step: &Step, ids: &[u64]) -> Result<u64, RowsFault> {
    let before = first_rows(rows);
    match take(rows, step) {
        Err(RowsFault::OutOfMemory) => {
            assert!(rt; first_rows(rows) == before);
            assert!(rt; are_in_order(rows, ids));
            take(rows, step)
        }
        answer => answer,
    }
}

/// Takes steps of which the answers and the order after each are known, once more where memory may be refused.
fn expect_steps_of(rt: &impl Abort, rows: &mut Tried, steps: &[Known], may_be_refused: bool) {
    let mut before: &[u64] = &[];
    for (step, answer, order) in steps {
        let found = if may_be_refused {
            retake(rt, rows, step, before)
        } else {
            take(rows, step)
        };
        expect_same(rt, found, *answer);
        assert!(rt; rows.is_one_order());
        assert!(rt; are_in_order(rows, order));
        before = *order;
    }
}

/// The same of new rows.
fn expect_steps(
    rt: &impl Abort,
    alloc: Global,
    levels: Levels,
    steps: &[Known],
    may_be_refused: bool,
) {
    let mut rows = Tried::new(alloc, levels);
    expect_steps_of(rt, &mut rows, steps, may_be_refused);
}

#[test]
fn two_levels(rt: HostRuntime) {
    expect_steps(&rt, rt.alloc(), Levels::Two, &STEPS_OF_TWO_LEVELS, false);
}

fn expect_roots(rt: &impl Abort, alloc: Global, levels: Levels, may_be_refused: bool) {
    expect_steps(rt, alloc, levels, &STEPS_OF_ROOTS, may_be_refused);
}

#[test]
fn roots(rt: HostRuntime) {
    expect_roots(&rt, rt.alloc(), Levels::Two, false);
    expect_roots(&rt, rt.alloc(), Levels::Four, false);
}

#[test]
fn four_levels(rt: HostRuntime) {
    expect_steps(&rt, rt.alloc(), Levels::Four, &STEPS_OF_FOUR_LEVELS, false);
}

/// Whatever request is refused, rows are as they were or as the step leaves them, also for all steps that come after.
#[test]
fn refused_rows_of_two_levels(rt: HostRuntime) {
    expect_steps(&rt, rt.alloc(), Levels::Two, &STEPS_OF_TWO_LEVELS, true);
}

#[test]
fn refused_rows_of_roots(rt: HostRuntime) {
    expect_roots(&rt, rt.alloc(), Levels::Two, true);
}

#[test]
fn refused_rows_of_four_levels(rt: HostRuntime) {
    expect_steps(&rt, rt.alloc(), Levels::Four, &STEPS_OF_FOUR_LEVELS, true);
}

/// Whether one random edit of the rows and of the plain ones has one answer; none is given a child where they do not nest.
fn answers_alike(random: &mut Pcg32, rows: &mut Tried, plain: &mut Plain, nests: bool) -> bool {
    let choice = if plain.len() > 24 {
        12
    } else {
        random.random_range(0..20_u32)
    };
    let id = plain.some_id(random);
    let ready = random.random_range(-1..49_i64);
    let spec = SourceSpec {
        priority: random.random_range(-1..2_i32) * 100,
        ..IDLE
    };
    match choice {
        4..=9 if nests => rows.add_child(id, spec, 0) == plain.add_child(id),
        0..=9 => rows.attach(spec, 0) == plain.attach(spec.priority),
        10..=13 => rows.destroy(id) == plain.destroy(id),
        14..=15 => rows.set_ready(id, ready) == plain.set_ready(id, ready),
        16..=17 => rows.set_priority(id, spec.priority) == plain.set_priority(id, spec.priority),
        _ => rows.dispatched(id) == plain.dispatched(id),
    }
}

/// Both have the same rows, and the same next ready time; the rows stand in the order of these ids.
fn expect_alike(rt: &impl Abort, rows: &Tried, plain: &Plain, ids: &[u64]) {
    assert!(rt;
        rows.rows.next_ready(20) == plain.next_ready(20),
        "one ready time"
    );
    assert!(rt; rows.is_one_order());
    assert!(rt; are_in_order(rows, ids));
    for row in rows.rows.in_order() {
        assert!(rt; plain.has(&row), "a row as it was made and edited");
    }
}

/// Random edits, of which the first five hundred give no children.
fn expect_edits_of(
    rt: &impl Abort,
    alloc: Global,
    random: &mut Pcg32,
    rows: &mut Tried,
    plain: &mut Plain,
) -> Result<(), AllocError> {
    for step in 0..2_500_u64 {
        let alike = answers_alike(random, rows, plain, step >= 500);
        assert!(rt; alike, "one answer");
        expect_alike(rt, rows, plain, &plain.ordered(alloc)?);
    }
    Ok(())
}

/// The same of new rows.
fn expect_edits(rt: &impl Abort, alloc: Global, levels: Levels) -> Result<(), AllocError> {
    let mut random = Pcg32::new(SEED, STREAM);
    let mut rows = Tried::new(alloc, levels);
    let mut plain = Plain::new(alloc, levels);
    expect_edits_of(rt, alloc, &mut random, &mut rows, &mut plain)
}

#[test]
fn random_edits(rt: HostRuntime) -> Result<(), AllocError> {
    expect_edits(&rt, rt.alloc(), Levels::Two)?;
    expect_edits(&rt, rt.alloc(), Levels::Four)
}

/// Timeouts of so many ticks one behind the other.
fn attach_all(rt: &impl Abort, rows: &mut Tried, ticks: u32) {
    for now in 0..ticks {
        assert!(rt; rows.attach(TIMEOUT, now) == Ok(u64::from(now) + 1));
    }
}

/// Ready times up to this row's that are changed from the first on.
fn delay_all(rt: &impl Abort, rows: &mut Tried, last: u32) {
    for id in 1..=last {
        assert!(rt;
            rows.set_ready(u64::from(id), 500_000 + i64::from(id)),
            "a row"
        );
    }
}

fn destroy_all(rt: &impl Abort, rows: &mut Tried, first: u64, last: u64) {
    for id in first..=last {
        assert!(rt; rows.destroy(id), "a row");
    }
}

fn expect_low(rt: &impl Abort, rows: &mut Tried) {
    attach_all(rt, rows, 100_000);
    expect_same(rt, rows.next_ready(0), 2_000);
    delay_all(rt, rows, 90_000);
    expect_same(rt, rows.next_ready(0), 92_000);
    destroy_all(rt, rows, 90_001, 100_000);
    destroy_all(rt, rows, 101, 90_000);
    expect_same(rt, rows.next_ready(0), 500_001);
}

/// Ready times that come one behind the other, that are changed from the first on, and that go from the first on, stand in
/// a low tree: in one that leans so many would stand above each other that a call finds no stack, or no end.
#[test]
fn low_tree(rt: HostRuntime) {
    expect_low(&rt, &mut Tried::new(rt.alloc(), Levels::Two));
}
