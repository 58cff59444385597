//! How far a task's tree is by a tick, now or ahead: its end, or until when it waits.
ghost use Rattle.std.specs.Prelude.{◌≡◌, ◌+◌, ◌<◌, ◌≤◌, true, Option};
ghost use Rattle.loop_script.specs.Bounds.{longest_tick, longest_time};
ghost use Rattle.loop_script.specs.Tree.{Tree, sleep, check, both, first, within};
ghost use Rattle.loop_script.specs.Units.{Tick, Microseconds};
ghost use Rattle.loop_script.specs.End.{checked, seen, ticks_of};
ghost use Rattle.task_steps.specs.Progress.{EndsIn, IsKnown, IsPending, IsProgress, come_by, ok_at, tick_of};

use loop_script::{Branch, Node, Outcome, wait_ticks};

/// How far a tree is by a tick.
#[derive(Clone, Copy)]
pub(crate) enum Progress {
    /// It ended in this tick, with this outcome.
    Ended { tick: u32, outcome: Outcome },
    /// It goes on, and nothing happens before this tick: asked up to now, the least at which a sleep or limit in progress ends.
    Waits(u64),
}

impl Progress {
    /// The tick in which it ended, if with ok.
    pub(crate) fn ok_at(self) -> Option<u32>
        ensures { result ≡ ok_at self }
    {
        match self {
            Progress::Ended {
                tick,
                outcome: Outcome::Ok(_),
            } => Some(tick),
            _ => None,
        }
    }

    /// The outcome, where it ends by a tick.
    pub(crate) fn come_by(self, tick: u32) -> Option<Outcome>
        ensures { result ≡ come_by tick self }
    {
        match self {
            Progress::Ended { tick: end, outcome } if end <= tick => Some(outcome),
            _ => None,
        }
    }

    /// Whether it ends in a tick.
    pub(crate) fn ends_in(self, tick: u32) -> bool
        ensures { result ≡ true → EndsIn tick self }
    {
        matches!(self, Progress::Ended { tick: end, .. } if end == tick)
    }

    /// Whether it holds on in a tick, as an end does, and a wait before it ends.
    pub(crate) fn holds_on(self, tick: u32) -> bool
        ensures { result ≡ true → IsPending tick self }
    {
        match self {
            Progress::Ended { .. } => true,
            Progress::Waits(wake) => u64::from(tick) < wake,
        }
    }

    /// The tick of its end, or the one to which it waits.
    pub(crate) fn tick(self) -> u64
        ensures { result ≡ tick_of self }
    {
        match self {
            Progress::Ended { tick, .. } => u64::from(tick),
            Progress::Waits(wake) => wake,
        }
    }
}

/// What is asked of a tree, and what is known of its cancellable.
#[derive(Clone, Copy)]
pub(crate) struct Moment {
    /// The tick by which it is asked how far the tree is, now or ahead. It is known what polls up to it see.
    pub tick: u32,
    /// How many microseconds a tick has.
    pub tick_us: u64,
    /// From which tick on they see its cancellable as cancelled.
    pub cancelled: Option<u32>,
}

/// Whether the poll of a tick sees what was seen as cancelled from a tick on.
fn is_seen(from: Option<u32>, tick: u32) -> bool
    ensures { result ≡ seen from tick }
{
    match from {
        None => false,
        Some(from) => from <= tick,
    }
}

/// How a check ends.
fn checked(cancelled: bool) -> Outcome
    ensures { result ≡ checked cancelled }
{
    if cancelled {
        Outcome::Cancelled
    } else {
        Outcome::Ok(0)
    }
}

/// How far a sleep is.
pub(crate) fn slept(begun: u32, us: u64, at: &Moment) -> Progress
    requires us { us ≤ longest_time }
    requires some { 0 < at.now.tick_us }
    requires short { at.now.tick_us ≤ longest_tick }
    ensures now { IsProgress at.now.tick_us (sleep us) begun at.now.cancelled at.now.tick result }
    ensures ahead { IsKnown at.now.tick_us (sleep us) begun at.now.cancelled at.now.tick at.now.tick result }
{
    let end = u64::from(begun) + wait_ticks(us, at.tick_us);
    if end <= u64::from(at.tick) {
        Progress::Ended {
            tick: end as u32,
            outcome: Outcome::Ok(0),
        }
    } else {
        Progress::Waits(end)
    }
}

/// How far a check is.
pub(crate) fn asked(begun: u32, at: &Moment) -> Progress
    requires begun { begun ≤ at.now.tick }
    ensures now { IsProgress at.now.tick_us check begun at.now.cancelled at.now.tick result }
    ensures ahead { IsKnown at.now.tick_us check begun at.now.cancelled at.now.tick at.now.tick result }
{
    Progress::Ended {
        tick: begun,
        outcome: checked(is_seen(at.cancelled, begun)),
    }
}

/// How far two parts are that are both waited for.
pub(crate) fn joined(one: Progress, other: Progress) -> Progress
    ensures now { (tick_us : Microseconds) (a b : Tree) (f tick : Tick) (c : Option Tick) → IsProgress tick_us a f c tick one → IsProgress tick_us b f c tick other → IsProgress tick_us (both a b) f c tick result }
    ensures ahead { (tick_us : Microseconds) (a b : Tree) (f known tick : Tick) (c : Option Tick) → IsKnown tick_us a f c known tick one → IsKnown tick_us b f c known tick other → IsKnown tick_us (both a b) f c known tick result }
{
    match (one, other) {
        (
            Progress::Ended { tick: a, outcome },
            Progress::Ended {
                tick: b,
                outcome: second,
            },
        ) => {
            Progress::Ended {
                tick: a.max(b),
                outcome: outcome.and(second),
            }
        }
        (Progress::Ended { .. }, Progress::Waits(_)) => other,
        (Progress::Waits(_), Progress::Ended { .. }) => one,
        (Progress::Waits(a), Progress::Waits(b)) => Progress::Waits(a.min(b)),
    }
}

/// How far two parts are of which the earlier end counts, the first where both end in a tick.
pub(crate) fn earlier(one: Progress, other: Progress) -> Progress
    ensures now { (tick_us : Microseconds) (a b : Tree) (f tick : Tick) (c : Option Tick) → IsProgress tick_us a f c tick one → IsProgress tick_us b f c tick other → IsProgress tick_us (first a b) f c tick result }
    ensures ahead { (tick_us : Microseconds) (a b : Tree) (f known tick : Tick) (c : Option Tick) → IsKnown tick_us a f c known tick one → IsKnown tick_us b f c known tick other → IsKnown tick_us (first a b) f c known tick result }
{
    match (one, other) {
        (Progress::Ended { tick: a, .. }, Progress::Ended { tick: b, .. }) => {
            if a <= b { one } else { other }
        }
        (Progress::Ended { tick: a, .. }, Progress::Waits(b)) => {
            if u64::from(a) <= b { one } else { other }
        }
        (Progress::Waits(a), Progress::Ended { tick: b, .. }) => {
            if u64::from(b) < a { other } else { one }
        }
        (Progress::Waits(a), Progress::Waits(b)) => Progress::Waits(a.min(b)),
    }
}

/// How far a part is that has a limit.
pub(crate) fn limited(limit: u64, tick: u32, body: Progress) -> Progress
    ensures now { (tick_us us : Microseconds) (a : Tree) (f : Tick) (c : Option Tick) → limit ≡ f + ticks_of tick_us us → IsProgress tick_us a f c tick body → IsProgress tick_us (within us a) f c tick result }
    ensures ahead { (tick_us us : Microseconds) (a : Tree) (f known : Tick) (c : Option Tick) → limit ≡ f + ticks_of tick_us us → known ≤ tick → IsKnown tick_us a f c known tick body → IsKnown tick_us (within us a) f c known tick result }
{
    match body {
        Progress::Ended { tick: end, .. } if u64::from(end) <= limit => body,
        Progress::Waits(wake) if wake <= limit || u64::from(tick) < limit => {
            Progress::Waits(limit.min(wake))
        }
        _ => Progress::Ended {
            tick: limit as u32,
            outcome: Outcome::TimedOut,
        },
    }
}

/// How far a tree is that is begun in a tick, by the moment that is given.
#[tactic(auto, using(crate::proofs::Parts::seq_stays, crate::proofs::Parts::seq_goes, crate::proofs::Known::stays_known, crate::proofs::Known::goes_known, crate::proofs::Parts::first_now, crate::proofs::Parts::first_known))]
pub(crate) fn progress_of(tree: &Branch, begun: u32, at: &Moment) -> Progress
    requires some { 0 < at.now.tick_us }
    requires short { at.now.tick_us ≤ longest_tick }
    requires begun { begun ≤ at.now.tick }
    ensures now { IsProgress at.now.tick_us tree.now begun at.now.cancelled at.now.tick result }
    ensures ahead { IsKnown at.now.tick_us tree.now begun at.now.cancelled at.now.tick at.now.tick result }
{
    match &tree.node {
        Node::Value(value) => Progress::Ended {
            tick: begun,
            outcome: Outcome::Ok(*value),
        },
        Node::Fail => Progress::Ended {
            tick: begun,
            outcome: Outcome::Failed,
        },
        Node::Sleep(us) => slept(begun, *us, at),
        Node::Check => asked(begun, at),
        Node::Seq { first, next } => {
            let progress = progress_of(first, begun, at);
            match progress.ok_at() {
                Some(tick) => progress_of(next, tick, at),
                None => progress,
            }
        }
        Node::Both { one, other } => {
            joined(progress_of(one, begun, at), progress_of(other, begun, at))
        }
        Node::First { one, other } => {
            let progress = progress_of(one, begun, at);
            if progress.ends_in(begun) {
                return progress;
            }
            earlier(progress, progress_of(other, begun, at))
        }
        Node::Within(us, body) => {
            let limit = u64::from(begun) + wait_ticks(*us, at.tick_us);
            limited(limit, at.tick, progress_of(body, begun, at))
        }
    }
}
