//! What an iteration selects, by the three phases.
ghost use Rattle.std.specs.Prelude.{◌≡◌, map, IfOk, Some};
ghost use Rattle.loop_script.specs.Parts.{level_of};
ghost use Rattle.lane_turn.specs.Lane.{is_any};
ghost use Rattle.lane_turn.specs.Sources.{chosen_in, standings_in};

use cancel_view::View;
use context_core::{Busy, BusyTable, Context, Interest, Prepared, Standing};
use loop_script::Script;
use std::alloc::{AllocError, Global};

/// How many milliseconds a poll of a lane waits: its time is that of the tick.
const NO_WAIT: i64 = 0;

/// The levels that descriptors show at a tick, one for each interest.
fn poll(
    alloc: Global,
    script: &Script,
    tick: u32,
    interests: &[Interest],
) -> Result<Vec<u8>, AllocError>
    ensures { IfOk result (λ levels. levels.items ≡ map (λ i. level_of script.now i.fd tick) interests.now) }
{
    interests
        .iter()
        .map(|interest| script.level(interest.fd, tick))
        .collect(alloc)
}

/// The ids that an iteration of a context would dispatch at a tick, beside calls in progress.
fn select_beside(
    alloc: Global,
    context: &Context,
    script: &Script,
    tick: u32,
    busy: &Busy,
    view: &View,
) -> Result<Vec<u64>, AllocError>
    ensures { IfOk result (λ ids. ids.items ≡ chosen_in script.now tick view.now busy.now (Some context.now)) }
{
    let now = script.now(tick);
    let priority = context.ready_priority(now, busy, view);
    let interests = context.interests(alloc, priority, busy)?;
    let levels = poll(alloc, script, tick, &interests)?;
    context.select(alloc, priority, now, busy, view, &levels)
}

/// The same by the ids of the sources whose calls are in progress.
pub(crate) fn select(
    alloc: Global,
    context: &Context,
    script: &Script,
    tick: u32,
    busy: &[u64],
    view: &View,
) -> Result<Vec<u64>, AllocError>
    ensures { IfOk result (λ ids. ids.items ≡ chosen_in script.now tick view.now busy.now (Some context.now)) }
{
    if busy.is_empty() {
        return select_beside(alloc, context, script, tick, &Busy::none(), view);
    }
    let table = BusyTable::new(busy);
    let busy = Busy::new(busy, &table);
    select_beside(alloc, context, script, tick, &busy, view)
}

/// Whether an iteration of a context would dispatch anything at a tick, beside calls in progress. Where something is ready before any
/// descriptor is asked, that is told without a list.
fn selects_any_beside(
    alloc: Global,
    context: &Context,
    script: &Script,
    tick: u32,
    busy: &Busy,
    view: &View,
) -> Result<bool, AllocError>
    ensures { IfOk result (λ any. any ≡ is_any (chosen_in script.now tick view.now busy.now (Some context.now))) }
{
    let now = script.now(tick);
    if context.ready_priority(now, busy, view).is_some() {
        return Ok(true);
    }
    let ids = select_beside(alloc, context, script, tick, busy, view)?;
    Ok(!ids.is_empty())
}

/// The same by the ids of the sources whose calls are in progress.
pub(crate) fn selects_any(
    alloc: Global,
    context: &Context,
    script: &Script,
    tick: u32,
    busy: &[u64],
    view: &View,
) -> Result<bool, AllocError>
    ensures { IfOk result (λ any. any ≡ is_any (chosen_in script.now tick view.now busy.now (Some context.now))) }
{
    if busy.is_empty() {
        return selects_any_beside(alloc, context, script, tick, &Busy::none(), view);
    }
    let table = BusyTable::new(busy);
    let busy = Busy::new(busy, &table);
    selects_any_beside(alloc, context, script, tick, &busy, view)
}

/// What an iteration of a context begun at a tick would do with each of its sources, in the order of dispatch.
pub(crate) fn stand(
    alloc: Global,
    context: &Context,
    script: &Script,
    tick: u32,
    busy: &[u64],
    view: &View,
) -> Result<Vec<Standing>, AllocError>
    ensures { IfOk result (λ list. list.items ≡ standings_in script.now tick view.now busy.now (Some context.now)) }
{
    let nothing_ready = Prepared {
        priority: None,
        timeout_ms: NO_WAIT,
    };
    let interests = context.query(alloc, &nothing_ready, busy)?;
    let levels = poll(alloc, script, tick, &interests)?;
    context.standings(alloc, script.now(tick), busy, view, &levels)
}
