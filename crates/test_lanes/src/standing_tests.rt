//! What an iteration would do with each source of a context, worked out by hand, in a table.
use crate::expected::{expect, expect_same};
use crate::made::{Asked, Source, made};
use context_core::Standing;
use loop_script::Kind;
use source_rows::Levels;
use std::alloc::{AllocError, Global};
use std::process::Abort;

/// The standings at time 0 of sources of which some are in a call, by what descriptors show.
#[derive(Clone, Copy)]
struct Known {
    what: &'static str,
    levels: Levels,
    sources: &'static [Source],
    busy: &'static [u64],
    cancelled: bool,
    shown: &'static [u8],
    wanted: &'static [Standing],
}

const TWO_IDLE: [Source; 2] = [Source::Root(Kind::Idle, 200), Source::Root(Kind::Idle, 200)];

const WITH_A_CHILD: [Source; 2] = [Source::Root(Kind::Idle, 0), Source::Child(1, Kind::Idle)];

/// Sources 1 to 4, each below the one before.
const CHAIN_OF_FOUR: [Source; 4] = [
    Source::Root(Kind::Idle, 0),
    Source::Child(1, Kind::Idle),
    Source::Child(2, Kind::Idle),
    Source::Child(3, Kind::Idle),
];

const BY_FIRST: Standing = Standing::Blocked { by: 1 };

const BY_THIRD: Standing = Standing::Blocked { by: 3 };

const IN_ITS_OWN: Known = Known {
    what: "its own call blocks it",
    levels: Levels::Two,
    sources: &TWO_IDLE,
    busy: &[1],
    cancelled: false,
    shown: &[],
    wanted: &[BY_FIRST, Standing::Selected],
};

const IN_ITS_PARENTS: Known = Known {
    what: "its parent's call blocks it",
    sources: &WITH_A_CHILD,
    wanted: &[BY_FIRST, BY_FIRST],
    ..IN_ITS_OWN
};

const IN_THE_NEAREST: Known = Known {
    what: "the nearest above it that is in a call blocks it",
    levels: Levels::Four,
    sources: &CHAIN_OF_FOUR,
    busy: &[1, 3],
    wanted: &[BY_THIRD, BY_THIRD, BY_FIRST, BY_FIRST],
    ..IN_ITS_OWN
};

/// A child goes before its parent in the order, the innermost of a chain first.
const IN_CALLS: [Known; 3] = [IN_ITS_OWN, IN_ITS_PARENTS, IN_THE_NEAREST];

const NEVER: Standing = Standing::Asleep { until: None };

const CHILD_LENDS: Known = Known {
    what: "a child lends",
    levels: Levels::Two,
    sources: &[
        Source::Root(Kind::ReadyTime(-1), 0),
        Source::Child(1, Kind::Idle),
    ],
    busy: &[],
    cancelled: false,
    shown: &[],
    wanted: &[Standing::Selected, Standing::Selected],
};

const CHILD_IN_A_CALL: Known = Known {
    what: "a child in a call does not",
    busy: &[2],
    wanted: &[Standing::Blocked { by: 2 }, NEVER],
    ..CHILD_LENDS
};

/// A parent that never wakes is ready by its child; where the child is in a call, it is asleep.
const OF_LENDERS: [Known; 2] = [CHILD_LENDS, CHILD_IN_A_CALL];

const NOT_SHOWN: Standing = Standing::NotShown {
    fd: 0,
    shown: 1,
    asked: 4,
    until: None,
};

const AFTER_THE_SECOND: Standing = Standing::LessUrgent {
    than: 2,
    priority: 0,
};

const WRONG_BIT: Known = Known {
    what: "another bit is shown",
    levels: Levels::Two,
    sources: &[Source::Root(Kind::Fd(0, 4), 0)],
    busy: &[],
    cancelled: false,
    shown: &[1],
    wanted: &[NOT_SHOWN],
};

const BOTH_BITS: Known = Known {
    what: "both bits are shown",
    shown: &[5],
    wanted: &[Standing::Selected],
    ..WRONG_BIT
};

const BESIDE_URGENT: Known = Known {
    what: "an urgent source goes first",
    sources: &[
        Source::Root(Kind::Idle, 200),
        Source::Root(Kind::ReadyTime(0), 0),
    ],
    shown: &[],
    wanted: &[Standing::Selected, AFTER_THE_SECOND],
    ..WRONG_BIT
};

/// A descriptor that shows `in` to a source that asks for `out`, and then both; and an idle source beside an urgent one.
const OF_KINDS: [Known; 3] = [WRONG_BIT, BOTH_BITS, BESIDE_URGENT];

const SLEEPS: Standing = Standing::Asleep { until: Some(1500) };

const UNCANCELLED: Standing = Standing::NotCancelled {
    cancellable: 0,
    until: None,
};

const BEFORE_CANCEL: Known = Known {
    what: "not cancelled",
    levels: Levels::Two,
    sources: &[
        Source::Root(Kind::ReadyTime(1500), 0),
        Source::Root(Kind::Cancel(0), 0),
    ],
    busy: &[],
    cancelled: false,
    shown: &[],
    wanted: &[SLEEPS, UNCANCELLED],
};

const AFTER_CANCEL: Known = Known {
    what: "cancelled",
    cancelled: true,
    wanted: &[SLEEPS, Standing::Selected],
    ..BEFORE_CANCEL
};

/// A ready time to come, and a cancellable before it is cancelled and after.
const OF_WAITS: [Known; 2] = [BEFORE_CANCEL, AFTER_CANCEL];

/// The standings of a context, unless memory is refused; they only look at it.
fn expect_standings(
    rt: &impl Abort,
    alloc: Global,
    made: &Asked,
    known: &Known,
) -> Result<(), AllocError> {
    let context = &made.tried.context;
    let found = context.standings(alloc, 0, known.busy, &made.view, known.shown)?;
    expect_same(
        rt,
        (known.what, found.as_slice()),
        (known.what, known.wanted),
    );
    Ok(())
}

/// Whether the standings are told, and then they are right: at once or, where memory may be refused, asked for again.
fn are_told(
    rt: &impl Abort,
    alloc: Global,
    made: &Asked,
    known: &Known,
    may_be_refused: bool,
) -> bool {
    expect_standings(rt, alloc, made, known).is_ok()
        || may_be_refused && expect_standings(rt, alloc, made, known).is_ok()
}

/// The same of a row's sources and view.
fn expect_told(rt: &impl Abort, alloc: Global, known: &Known, may_be_refused: bool) {
    match made(alloc, known.levels, known.sources, known.cancelled) {
        Some(made) => expect(rt, are_told(rt, alloc, &made, known, may_be_refused)),
        None => expect(rt, may_be_refused),
    }
}

fn expect_all_told(rt: &impl Abort, alloc: Global, rows: &[Known], may_be_refused: bool) {
    for known in rows {
        expect_told(rt, alloc, known, may_be_refused);
    }
}

// (each table stands in a function of its own, whose proof grows faster than its length)

#[test]
fn standings_in_calls(rt: HostRuntime) {
    expect_all_told(&rt, rt.alloc(), &IN_CALLS, false);
}

#[test]
fn standings_of_lenders(rt: HostRuntime) {
    expect_all_told(&rt, rt.alloc(), &OF_LENDERS, false);
}

#[test]
fn standings_by_kind(rt: HostRuntime) {
    expect_all_told(&rt, rt.alloc(), &OF_KINDS, false);
}

#[test]
fn standings_of_what_waits(rt: HostRuntime) {
    expect_all_told(&rt, rt.alloc(), &OF_WAITS, false);
}

/// Whatever request is refused, the standings are right, or are asked for again and are.
#[test]
fn refused_standings(rt: HostRuntime) {
    expect_all_told(&rt, rt.alloc(), &OF_WAITS, true);
}
