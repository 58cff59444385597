//! How far a body is by the course of its tree, while no poll saw it as cancelled, or where its first one did.
ghost use Rattle.std.specs.Prelude.{◌≡◌, ◌+◌, ◌≤◌, min, Option, None, Some};
ghost use Rattle.loop_script.specs.Course.{IsCourse};
ghost use Rattle.loop_script.specs.Tree.{Tree};
ghost use Rattle.loop_script.specs.Units.{Tick};
ghost use Rattle.task_steps.specs.Progress.{IsKnown, IsPending, beyond, last_tick, told};
ghost use Rattle.task_steps.specs.RunInside.{Holds};

use crate::progress::Progress;
use loop_script::{Course, Outcome};

/// Later than any tick, so many ticks from any.
const BEYOND: u128 = 1 << 32;

/// The tick that is so many after another, or one that is beyond all that there are.
fn later(tick: u32, ticks: u128) -> u64
    ensures { result ≡ tick + min ticks beyond }
{
    u64::from(tick) + ticks.min(BEYOND) as u64
}

/// An end in a tick, or a wait beyond all ticks that there are.
fn ended(tick: u64, outcome: Outcome) -> Progress
    ensures { result ≡ told tick outcome }
{
    match u32::try_from(tick) {
        Ok(tick) => Progress::Ended { tick, outcome },
        Err(_) => Progress::Waits(tick),
    }
}

/// How far a body is that was begun in a tick, by the course of its tree, where no poll up to another tick saw it as cancelled: to its
/// next check, or to its end where that comes before.
pub(crate) fn progress_by(course: &Course, begun: u32, tick: u32) -> Progress
    requires { begun ≤ tick }
    ensures { (tree : Tree) → IsCourse tree course.now → IsKnown course.now.tick_us tree begun None tick last_tick result }
{
    let passed = u128::from(tick - begun);
    let next = course.checks.partition_point(|check| *check <= passed);
    match course.checks.get(next) {
        Some(check) if *check <= course.end.tick => Progress::Waits(later(begun, *check)),
        _ => ended(later(begun, course.end.tick), course.end.outcome),
    }
}

/// How far a body is that was begun in a tick, by the course of its tree, where polls see it as cancelled in that tick: at its end.
#[tactic(auto, using(crate::proofs::Cancelled::holds_cancelled, crate::proofs::Cancelled::pending_told))]
pub(crate) fn progress_cancelled(course: &Course, begun: u32) -> Progress
    ensures holds { (tree : Tree) (clear : Option Tick) (from : Tick) → IsCourse tree course.now → from ≤ begun → Holds course.now.tick_us tree begun clear (Some from) result }
    ensures pending { (tick : Tick) → tick ≤ last_tick → IsPending tick result }
{
    ended(
        later(begun, course.cancelled.tick),
        course.cancelled.outcome,
    )
}
