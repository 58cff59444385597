//! What a tree comes to that nobody cancels, when its checks are begun and how it ends, and how one ends that is cancelled from its begin on.
ghost use Rattle.std.specs.Prelude.{◌≡◌, ◌+◌, ◌<◌, ◌≤◌, ◌++◌, ◌∷◌, [], ◌^◌, None, Some, IfOk, IfSome, OnOk, if◌then◌else◌};
ghost use Rattle.loop_script.specs.Bounds.{farthest, longest_tick, longest_time};
ghost use Rattle.loop_script.specs.Course.{IsCourse, checks_of};
ghost use Rattle.loop_script.specs.End.{checked, earlier, end_of, ending, is_ok, joined, limited, seen, ticks_of};

use crate::outcome::Outcome;
use crate::tree::{Branch, Node};
use std::alloc::{AllocError, Global};

/// What a tree comes to, in ticks from the one in which it is begun.
#[derive(Drop)]
pub struct Course {
    /// How many microseconds a tick has.
    pub tick_us: u64,
    /// When its checks are begun where nobody cancels it, rising; among them are those of parts that are cut short.
    pub checks: Vec<u128>,
    /// Its end where nobody cancels it.
    pub end: End,
    /// Its end where it is seen as cancelled from its begin on.
    pub cancelled: End,
}

/// No end is foreseen that is later. No script comes near it: a sleep takes 2^50 ticks at most.
const FARTHEST: u128 = 1 << 120;

/// How many ticks a sleep or a limit of a task takes: its time, rounded up.
pub fn wait_ticks(us: u64, tick_us: u64) -> u64
    requires us { us ≤ longest_time }
    requires some { 0 < tick_us }
    requires short { tick_us ≤ longest_tick }
    ensures ticks { result ≡ ticks_of tick_us us }
    ensures bound { result ≤ longest_time + longest_tick }
{
    (us + (tick_us - 1)) / tick_us
}

/// Why there is no course.
enum Unforeseen {
    TooFar,
    OutOfMemory,
}

impl From<AllocError> for Unforeseen {
    ghost use Rattle.loop_script.specs.declared.course.Unforeseen.TheVariants.{OutOfMemory};

    ghost from_gives = { λ _ e. e ≡ OutOfMemory };

    fn from(_e: AllocError) -> Unforeseen {
        Unforeseen::OutOfMemory
    }
}

/// The end of a tree, or of a part of one.
#[derive(Clone, Copy)]
pub struct End {
    /// In which tick it is.
    pub tick: u128,
    /// How it ends.
    pub outcome: Outcome,
}

impl End {
    /// An end in a tick.
    fn new(tick: u128, outcome: Outcome) -> End
        ensures { result ≡ record { tick = tick; outcome = outcome } }
    {
        End { tick, outcome }
    }

    /// The tick in which it is, where it is one with ok.
    fn ok_at(self) -> Option<u128>
        ensures { result ≡ (if is_ok self.outcome then Some self.tick else None) }
    {
        match self.outcome {
            Outcome::Ok(_) => Some(self.tick),
            _ => None,
        }
    }

    /// When both parts have ended, and how.
    fn joined(self, other: End) -> End
        ensures { ending result.tick result.outcome ≡ joined (ending self.tick self.outcome) (ending other.tick other.outcome) }
    {
        End::new(self.tick.max(other.tick), self.outcome.and(other.outcome))
    }

    /// The earlier of two ends, the first where they come together.
    fn earlier(self, other: End) -> End
        ensures { ending result.tick result.outcome ≡ earlier (ending self.tick self.outcome) (ending other.tick other.outcome) }
    {
        if self.tick <= other.tick { self } else { other }
    }

    /// The end of a part that has a limit.
    fn limited(self, limit: u128) -> End
        ensures { ending result.tick result.outcome ≡ limited limit (ending self.tick self.outcome) }
    {
        if self.tick <= limit {
            self
        } else {
            End::new(limit, Outcome::TimedOut)
        }
    }
}

impl Course {
    /// That of a tree, where a tick is so many microseconds long; none where it goes too far.
    pub(crate) fn of(
        alloc: Global,
        tree: &Branch,
        tick_us: u64,
    ) -> Result<Option<Course>, AllocError>
        requires some { 0 < tick_us }
        requires short { tick_us ≤ longest_tick }
        ensures { IfOk result (λ c. IfSome c (λ course. IsCourse tree.now course)) }
    {
        match Course::foreseen(alloc, tree, tick_us) {
            Ok(course) => Ok(Some(course)),
            Err(Unforeseen::TooFar) => Ok(None),
            Err(Unforeseen::OutOfMemory) => Err(AllocError),
        }
    }

    /// The same, or why there is none.
    fn foreseen(alloc: Global, tree: &Branch, tick_us: u64) -> Result<Course, Unforeseen>
        requires some { 0 < tick_us }
        requires short { tick_us ≤ longest_tick }
        ensures { IfOk result (λ course. IsCourse tree.now course) }
    {
        let mut checks = Vec::new(alloc);
        let end = foresee(tree, 0, None, tick_us, &mut checks)?;
        checks.sort_unstable();
        let cancelled = foresee(tree, 0, Some(0), tick_us, &mut Vec::new(alloc))?;
        Ok(Course {
            tick_us,
            checks,
            end,
            cancelled,
        })
    }
}

/// The tick that is so many after another.
fn later(tick: u128, ticks: u64) -> Result<u128, Unforeseen>
    requires tick { tick ≤ farthest }
    requires ticks { ticks ≤ longest_time + longest_tick }
    ensures sum { IfOk result (λ t. t ≡ tick + ticks) }
    ensures near { IfOk result (λ t. t ≤ farthest) }
{
    let sum = tick + u128::from(ticks);
    if sum <= FARTHEST {
        Ok(sum)
    } else {
        Err(Unforeseen::TooFar)
    }
}

/// Whether the poll of a tick sees what is seen as cancelled from a tick on.
fn is_seen(from: Option<u128>, tick: u128) -> bool
    ensures { result ≡ seen from tick }
{
    match from {
        None => false,
        Some(from) => from <= tick,
    }
}

/// How a check ends.
fn checked(cancelled: bool) -> Outcome
    ensures { result ≡ checked cancelled }
{
    if cancelled {
        Outcome::Cancelled
    } else {
        Outcome::Ok(0)
    }
}

/// The end of a check, whose tick is added.
fn passed_check(begun: u128, from: Option<u128>, checks: &mut Vec<u128>) -> Result<End, AllocError>
    ensures end { IfOk result (λ e. e ≡ record { tick = begun; outcome = checked (seen from begun) }) }
    ensures checks { OnOk result (checks.new.items ≡ checks.old.items ++ begun ∷ []) }
{
    checks.push(begun)?;
    Ok(End::new(begun, checked(is_seen(from, begun))))
}

/// The end of a tree that is begun in a tick, where it is seen as cancelled from a tick on, if at all. The ticks in which its checks are
/// begun are added, with those of parts that are cut short.
fn foresee(
    tree: &Branch,
    begun: u128,
    from: Option<u128>,
    tick_us: u64,
    checks: &mut Vec<u128>,
) -> Result<End, Unforeseen>
    requires begun { begun ≤ farthest }
    requires some { 0 < tick_us }
    requires short { tick_us ≤ longest_tick }
    ensures end { IfOk result (λ e. end_of tick_us tree.now begun from ≡ ending e.tick e.outcome) }
    ensures near { IfOk result (λ e. e.tick ≤ farthest) }
    ensures checks { OnOk result (checks.new.items ≡ checks.old.items ++ checks_of tick_us tree.now begun from) }
{
    match &tree.node {
        Node::Value(value) => Ok(End::new(begun, Outcome::Ok(*value))),
        Node::Fail => Ok(End::new(begun, Outcome::Failed)),
        Node::Sleep(us) => {
            let tick = later(begun, wait_ticks(*us, tick_us))?;
            Ok(End::new(tick, Outcome::Ok(0)))
        }
        Node::Check => Ok(passed_check(begun, from, checks)?),
        Node::Seq { first, next } => {
            let end = foresee(first, begun, from, tick_us, checks)?;
            match end.ok_at() {
                Some(tick) => foresee(next, tick, from, tick_us, checks),
                None => Ok(end),
            }
        }
        Node::Both { one, other } => {
            let end = foresee(one, begun, from, tick_us, checks)?;
            Ok(end.joined(foresee(other, begun, from, tick_us, checks)?))
        }
        Node::First { one, other } => {
            let end = foresee(one, begun, from, tick_us, checks)?;
            Ok(end.earlier(foresee(other, begun, from, tick_us, checks)?))
        }
        Node::Within(us, body) => {
            let limit = later(begun, wait_ticks(*us, tick_us))?;
            Ok(foresee(body, begun, from, tick_us, checks)?.limited(limit))
        }
    }
}
