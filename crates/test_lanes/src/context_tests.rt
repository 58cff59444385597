//! The phases on single contexts, in a table; the stack of thread-default contexts; and what is acquired.
ghost use Rattle.std.specs.Prelude.{◌≡◌};

use crate::expected::{expect, expect_same};
use crate::made::{Asked, Source, made};
use context_core::{Context, DefaultStack, Interest, Prepared};
use loop_script::Kind;
use source_rows::Levels;
use std::alloc::{AllocError, Global};
use std::process::Abort;

/// What the phases give at time 0 with no call in progress: what `prepare` answers, what `query` asks, and the sources that `check`
/// gives, by what descriptors then show.
#[derive(Clone, Copy)]
struct Phases {
    what: &'static str,
    sources: &'static [Source],
    cancelled: bool,
    shown: &'static [u8],
    prepared: Prepared,
    asked: &'static [Interest],
    selected: &'static [u64],
}

/// An idle source, a descriptor more urgent than it, and one less urgent.
const IDLE_AND_DESCRIPTORS: [Source; 3] = [
    Source::Root(Kind::Idle, 200),
    Source::Root(Kind::Fd(0, 1), 0),
    Source::Root(Kind::Fd(1, 1), 300),
];

const SHOWN: Phases = Phases {
    what: "what is shown",
    sources: &IDLE_AND_DESCRIPTORS,
    cancelled: false,
    shown: &[1],
    prepared: Prepared {
        priority: Some(200),
        timeout_ms: 0,
    },
    asked: &[Interest { fd: 0, bits: 1 }],
    selected: &[2],
};

const NOT_SHOWN: Phases = Phases {
    what: "what is not shown",
    shown: &[0],
    selected: &[1],
    ..SHOWN
};

/// Of the descriptors only the more urgent one can matter, which goes first where it is shown.
const OF_DESCRIPTORS: [Phases; 2] = [SHOWN, NOT_SHOWN];

const EMPTY: Phases = Phases {
    what: "no sources",
    sources: &[],
    cancelled: false,
    shown: &[],
    prepared: Prepared {
        priority: None,
        timeout_ms: -1,
    },
    asked: &[],
    selected: &[],
};

const BETWEEN: Phases = Phases {
    what: "between two milliseconds",
    sources: &[Source::Root(Kind::ReadyTime(1500), 0)],
    prepared: Prepared {
        priority: None,
        timeout_ms: 2,
    },
    ..EMPTY
};

const BEFORE_CANCEL: Phases = Phases {
    what: "not cancelled",
    sources: &[Source::Root(Kind::Cancel(0), 0)],
    ..EMPTY
};

const AFTER_CANCEL: Phases = Phases {
    what: "cancelled",
    cancelled: true,
    prepared: Prepared {
        priority: Some(0),
        timeout_ms: 0,
    },
    selected: &[1],
    ..BEFORE_CANCEL
};

/// A ready time in the middle of a millisecond, for which the wait is rounded up; no sources, for which it has no end; and a source of
/// a cancellable before that is cancelled, and after.
const OF_OTHERS: [Phases; 4] = [EMPTY, BETWEEN, BEFORE_CANCEL, AFTER_CANCEL];

fn expect_asked(
    rt: &impl Abort,
    alloc: Global,
    context: &Context,
    prepared: &Prepared,
    wanted: &Phases,
) -> Result<(), AllocError> {
    let asked = context.query(alloc, prepared, &[])?;
    expect_same(
        rt,
        (wanted.what, asked.as_slice()),
        (wanted.what, wanted.asked),
    );
    Ok(())
}

fn expect_selected(
    rt: &impl Abort,
    alloc: Global,
    made: &Asked,
    wanted: &Phases,
) -> Result<(), AllocError> {
    let context = &made.tried.context;
    let prepared = context.prepare(0, &[], &made.view);
    let selected = context.check(alloc, &prepared, 0, &[], &made.view, wanted.shown)?;
    expect_same(
        rt,
        (wanted.what, selected.as_slice()),
        (wanted.what, wanted.selected),
    );
    Ok(())
}

/// The phases of a context, unless memory is refused; they only look at it.
fn expect_phases(
    rt: &impl Abort,
    alloc: Global,
    made: &Asked,
    wanted: &Phases,
) -> Result<(), AllocError> {
    let context = &made.tried.context;
    let prepared = context.prepare(0, &[], &made.view);
    expect_same(rt, (wanted.what, prepared), (wanted.what, wanted.prepared));
    expect_asked(rt, alloc, context, &prepared, wanted)?;
    expect_selected(rt, alloc, made, wanted)
}

/// Whether the phases are told, and then they are right: at once or, where memory may be refused, asked for again.
fn are_told(
    rt: &impl Abort,
    alloc: Global,
    made: &Asked,
    wanted: &Phases,
    may_be_refused: bool,
) -> bool {
    expect_phases(rt, alloc, made, wanted).is_ok()
        || may_be_refused && expect_phases(rt, alloc, made, wanted).is_ok()
}

/// The same of a row's sources and view.
fn expect_told(rt: &impl Abort, alloc: Global, row: &Phases, may_be_refused: bool) {
    match made(alloc, Levels::Two, row.sources, row.cancelled) {
        Some(made) => expect(rt, are_told(rt, alloc, &made, row, may_be_refused)),
        None => expect(rt, may_be_refused),
    }
}

fn expect_all_told(rt: &impl Abort, alloc: Global, rows: &[Phases], may_be_refused: bool) {
    for row in rows {
        expect_told(rt, alloc, row, may_be_refused);
    }
}

#[test]
fn phases_of_descriptors(rt: HostRuntime) {
    expect_all_told(&rt, rt.alloc(), &OF_DESCRIPTORS, false);
}

#[test]
fn phases_of_others(rt: HostRuntime) {
    expect_all_told(&rt, rt.alloc(), &OF_OTHERS, false);
}

/// Whatever request is refused, a phase answers what it has to, or is asked again and does.
#[test]
fn refused_phases(rt: HostRuntime) {
    expect_all_told(&rt, rt.alloc(), &OF_DESCRIPTORS, true);
}

fn expect_popped(rt: &impl Abort, stack: &mut DefaultStack) {
    expect(rt, stack.push(1).is_ok());
    expect(rt, stack.push(2).is_ok());
    expect(rt, !stack.pop(1));
    expect(rt, stack.pop(2));
    expect(rt, stack.top() == Some(1));
    expect(rt, stack.contains(1) && !stack.contains(2));
}

/// Two pushes: the one below can't be popped before the one on top.
#[test]
fn pops_what_is_on_top(rt: HostRuntime) {
    expect_popped(&rt, &mut DefaultStack::new(rt.alloc()));
}

fn expect_released(rt: &impl Abort, context: &mut Context)
    requires { context.old.acquires ≡ 0 }
{
    context.acquire();
    expect(rt, context.is_owned());
    expect(rt, context.release());
    expect(rt, !context.release());
    expect(rt, !context.is_owned());
}

/// An acquire that is taken back, and a release too many.
#[test]
fn releases_what_was_acquired(rt: HostRuntime) {
    expect_released(&rt, &mut Context::new(rt.alloc(), Levels::Two));
}

/// Pushes. Where memory is refused the stack is as it was, and a second call pushes.
fn push_again(rt: &impl Abort, stack: &mut DefaultStack, context: u32) {
    let top = stack.top();
    if stack.push(context).is_err() {
        expect(rt, stack.top() == top);
        expect(rt, !stack.contains(context));
        expect(rt, stack.push(context).is_ok());
    }
}

fn pop_from_the_top(rt: &impl Abort, stack: &mut DefaultStack, context: u32) {
    expect(rt, stack.top() == Some(context));
    expect(rt, stack.pop(context));
}

fn push_and_pop_nine(rt: &impl Abort, stack: &mut DefaultStack) {
    for context in 1..10_u32 {
        push_again(rt, stack, context);
    }
    expect(rt, !stack.pop(1));
    for left in 0..9_u32 {
        pop_from_the_top(rt, stack, 9 - left);
    }
    expect(rt, stack.top().is_none());
}

/// Whatever request is refused, what was pushed is popped from the top on, for so many that the stack grows.
#[test]
fn refused_push(rt: HostRuntime) {
    push_and_pop_nine(&rt, &mut DefaultStack::new(rt.alloc()));
}
