//! For tests: the end of a tree and its wakes, by recursion on it, straight from the rule.
ghost use Rattle.std.specs.Prelude.{◌<◌};

use loop_script::{Branch, Node, Outcome};

/// How a tree is begun: the tick, the first tick that sees it as cancelled, and the length of a tick in microseconds.
#[derive(Clone, Copy)]
pub(crate) struct Begun {
    pub tick: u64,
    pub cancel: Option<u64>,
    pub tick_us: u64,
    pub ghost some: { 0 < tick_us },
}

impl Begun {
    fn at(&self, tick: u64) -> Begun {
        Begun {
            tick,
            cancel: self.cancel,
            tick_us: self.tick_us,
        }
    }

    fn after(&self, us: u64) -> u64 {
        self.tick.saturating_add(us.div_ceil(self.tick_us))
    }
}

/// The tick and the outcome at which a tree ends.
pub(crate) fn end(tree: &Branch, begun: &Begun) -> (u64, Outcome) {
    match &tree.node {
        Node::Value(value) => (begun.tick, Outcome::Ok(*value)),
        Node::Fail => (begun.tick, Outcome::Failed),
        Node::Sleep(us) => (begun.after(*us), Outcome::Ok(0)),
        Node::Check => match begun.cancel {
            Some(from) if from <= begun.tick => (begun.tick, Outcome::Cancelled),
            _ => (begun.tick, Outcome::Ok(0)),
        },
        Node::Seq { first, next } => match end(first, begun) {
            (tick, Outcome::Ok(_)) => end(next, &begun.at(tick)),
            fault => fault,
        },
        Node::Both { one, other } => {
            let (first_tick, first) = end(one, begun);
            let (second_tick, second) = end(other, begun);
            let outcome = if let Outcome::Ok(_) = first {
                second
            } else {
                first
            };
            (first_tick.max(second_tick), outcome)
        }
        Node::First { one, other } => {
            let first = end(one, begun);
            let second = end(other, begun);
            if second.0 < first.0 { second } else { first }
        }
        Node::Within(us, body) => {
            let ended = end(body, begun);
            if ended.0 > begun.after(*us) {
                (begun.after(*us), Outcome::TimedOut)
            } else {
                ended
            }
        }
    }
}

/// The least tick at which a sleep or limit ends that is in progress after the polls of a tick.
pub(crate) fn wake(tree: &Branch, begun: &Begun, now: u64) -> Option<u64> {
    if end(tree, begun).0 <= now {
        return None;
    }
    match &tree.node {
        Node::Sleep(us) => Some(begun.after(*us)),
        Node::Seq { first, next } => {
            let (tick, _) = end(first, begun);
            if tick <= now {
                wake(next, &begun.at(tick), now)
            } else {
                wake(first, begun, now)
            }
        }
        Node::Both { one, other } => least(wake(one, begun, now), wake(other, begun, now)),
        Node::First { one, other } => least(wake(one, begun, now), wake(other, begun, now)),
        Node::Within(us, body) => least(Some(begun.after(*us)), wake(body, begun, now)),
        _ => None,
    }
}

fn least(a: Option<u64>, b: Option<u64>) -> Option<u64> {
    match (a, b) {
        (Some(a), Some(b)) => Some(if b < a { b } else { a }),
        (Some(a), None) => Some(a),
        (None, b) => b,
    }
}
