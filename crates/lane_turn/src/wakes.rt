//! When a lane has something to do next: the next tick of a source, by kind, of a context, of a step.
ghost use Rattle.std.specs.Prelude.{◌≡◌, ℕ, ◌<◌, ◌≤◌, ◌^◌, [], Some, true, false, length, IfSome};
ghost use Rattle.task_steps.specs.Run.{IsAfter};
ghost use Rattle.loop_script.specs.Parts.{level_of, time_of};
ghost use Rattle.source_rows.specs.Rows.{next_ready};
ghost use Rattle.std.specs.List.{find};
ghost use Rattle.context_core.specs.Ready.{in_view, is_due, has_bit, kind_ready};
ghost use Rattle.context_core.specs.Standing.{is_in_call};
ghost use Rattle.lane_turn.specs.Sources.{own_ready_at, chosen_in};
ghost use Rattle.lane_turn.specs.Frames.{busy};
ghost use Rattle.lane_turn.specs.Lane.{chosen};
ghost use Rattle.lane_turn.specs.Quiet.{IsIdle};
ghost use Rattle.lane_turn.specs.Meaning.{lane_of};
ghost use Rattle.loop_script.specs.Bounds.{count_end};

use crate::frames::Frames;
use crate::lane::{Lane, Status};
use crate::layer::Top;
use cancel_view::View;
use context_core::Context;
use loop_script::{Kind, Script};
use source_rows::{Row, Sight};
use std::iter::Iterator;

/// The bits of an error, a hang-up and an invalid descriptor, which are told whatever is asked for.
const ALWAYS_TOLD: u8 = 56;

/// The sooner of two ticks, where none is never.
pub(crate) fn sooner_turn(a: Option<u64>, b: Option<u64>) -> Option<u64>
    ensures { (k : ℕ) → IsAfter k result → IsAfter k a × IsAfter k b }
{
    match (a, b) {
        (None, b) => b,
        (a, None) => a,
        (Some(a), Some(b)) => Some(a.min(b)),
    }
}

/// The tick of a wake, or a later one from which on it is asked for; none where it is not below so many.
pub(crate) fn tick_of(wake: Option<u64>, from: u32, ticks: u32) -> Option<u32>
    ensures later { IfSome result (λ next. from ≤ next) }
    ensures within { IfSome result (λ next. next < ticks) }
    ensures before { (k : ℕ) → from ≤ k → k < ticks → IsAfter k result → IsAfter k wake }
{
    match wake {
        None => None,
        Some(wake) => {
            let next = wake.max(u64::from(from));
            if next < u64::from(ticks) {
                Some(next as u32)
            } else {
                None
            }
        }
    }
}

/// Whether a tick has come by another.
fn row_wake_is_by(wake: Option<u64>, tick: u32) -> bool
    ensures { result ≡ true → (k : ℕ) → tick ≤ k → IsAfter k wake → ⊥ }
{
    match wake {
        Some(wake) => wake <= u64::from(tick),
        None => false,
    }
}

/// Whether a level has a bit that is asked for, or that of an error, a hang-up or an invalid descriptor.
fn shows_any(level: u8, bits: u8) -> bool
    ensures { result ≡ has_bit level bits }
{
    level & (bits | ALWAYS_TOLD) != 0
}

/// When a descriptor may show a bit that is asked for: at once, or when it shows something else next.
fn fd_wake(script: &Script, fd: u32, bits: u8, from: u32) -> Option<u64>
    ensures { (k : ℕ) → from ≤ k → IsAfter k result → has_bit (level_of script.now fd k) bits ≡ false }
{
    if shows_any(script.level(fd, from), bits) {
        return Some(u64::from(from));
    }
    match script.next_change(fd, from) {
        Some(change) => Some(u64::from(change)),
        None => None,
    }
}

/// When a kind of source may be ready, from a tick on.
fn kind_wake(script: &Script, kind: Kind, from: u32, view: &View) -> Option<u64>
    ensures { (k : ℕ) → from ≤ k → IsAfter k result → kind_ready (λ fd. level_of script.now fd k) (in_view view.now) kind ≡ false }
{
    match kind {
        Kind::Idle => Some(u64::from(from)),
        Kind::Timeout(_) | Kind::ReadyTime(_) => None,
        Kind::Fd(fd, bits) => fd_wake(script, fd, bits, from),
        Kind::Cancel(c) => {
            if view.is_cancelled(c) {
                Some(u64::from(from))
            } else {
                None
            }
        }
    }
}

/// The first tick at which a ready time in microseconds has come: never for -1.
fn due_wake(script: &Script, ready: i64) -> Option<u64>
    ensures { (k : ℕ) → IsAfter k result → is_due (time_of script.now k) ready ≡ false }
{
    if ready < 0 {
        return None;
    }
    Some((ready as u64).div_ceil(script.tick_us()))
}

/// When a source may be ready by itself, from a tick on.
fn row_wake(script: &Script, row: &Row, from: u32, view: &View) -> Option<u64>
    ensures { (k : ℕ) → from ≤ k → IsAfter k result → own_ready_at script.now k view.now row.now ≡ false }
{
    sooner_turn(
        kind_wake(script, row.kind, from, view),
        due_wake(script, row.ready),
    )
}

/// The outermost of a source of a context and those above it of which a call in progress blocks.
fn blocker(frames: &Frames, context: u32, row: &Row) -> Option<u64>
    ensures { result ≡ find (is_in_call (busy context frames.now)) row.now.lineage }
{
    row.lineage
        .iter()
        .copied()
        .find(|id| frames.blocks(context, *id))
}

/// When the next ready time of a context comes that has not come by a tick.
fn next_due(script: &Script, context: &Context, from: u32) -> Option<u64>
    ensures { (k : ℕ) → IsAfter k result → IfSome (next_ready (time_of script.now from) context.now.rows.rows) (λ ready. is_due (time_of script.now k) ready ≡ false) }
{
    match context.rows().next_ready(script.now(from)) {
        Some(ready) => due_wake(script, ready),
        None => None,
    }
}

/// When an iteration of a context may select something, from a tick on, while calls in progress stay as they are: what may be
/// ready at that tick is looked at, but for what a call blocks, and of the others the next ready time.
fn context_wake(
    script: &Script,
    frames: &Frames,
    number: u32,
    context: &Context,
    from: u32,
    view: &View,
) -> Option<u64>
    ensures { (k : ℕ) → from ≤ k → IsAfter k result → chosen_in script.now k view.now (busy number frames.now) (Some context.now) ≡ [] }
{
    let mut wake = None;
    let mut rows = context
        .rows()
        .candidates(Sight::new(script.now(from), view.marks()));
    while let Some(row) = rows.next() {
        let own = row_wake(script, row, from, view);
        if own.is_some() {
            match blocker(frames, number, row) {
                Some(id) => {
                    if id != row.id {
                        rows.leave(id);
                    }
                }
                None => {
                    wake = sooner_turn(wake, own);
                    if row_wake_is_by(wake, from) {
                        return wake;
                    }
                }
            }
        }
    }
    sooner_turn(wake, next_due(script, context, from))
}

impl Lane {
    /// When an iteration of a context may select something, from a tick on.
    fn select_wake(&self, script: &Script, number: u32, from: u32) -> Option<u64>
        ensures { (k : ℕ) → from ≤ k → IsAfter k result → chosen script.now k number (lane_of self.now) ≡ [] }
    {
        match self.context(number) {
            Some(context) => context_wake(
                script,
                &self.frames,
                number,
                context,
                from,
                self.watch.view(),
            ),
            None => None,
        }
    }

    /// When a step may do something, from a tick on, while tasks tell nothing.
    pub(crate) fn step_wake(&self, script: &Script, from: u32) -> Option<u64>
        requires { length (lane_of self.now).frames < count_end }
        ensures { (k : ℕ) → from ≤ k → IsAfter k result → IsIdle script.now k (lane_of self.now) }
    {
        if self.status != Status::GoesOn {
            return None;
        }
        match self.frames.top() {
            Top::Nothing => None,
            Top::Loop { number, context } => {
                if self.is_running(number) && !self.frames.has_rest(context) {
                    self.select_wake(script, context, from)
                } else {
                    Some(u64::from(from))
                }
            }
            _ => Some(u64::from(from)),
        }
    }
}
