//! What a body keeps of what its last poll found, in few bytes.
ghost use Rattle.std.specs.Prelude.{◌≡◌, Some};
ghost use Rattle.task_steps.specs.Noted.{noted_of};

use crate::progress::Progress;
use loop_script::Outcome;

/// What the last poll found, if anything is noted. An end stands here by its outcome, with no word beside it that says that it is
/// an end, or that anything is noted: so it takes half the bytes of an `Option<Progress>`.
#[derive(Clone, Copy)]
pub(crate) enum Noted {
    Nothing,
    /// It goes on, and nothing happens before this tick.
    Waits(u64),
    /// It ended in this tick, with this value.
    Ok { tick: u32, value: i64 },
    /// It ended in this tick, as the name says; so do those below.
    Failed(u32),
    Cancelled(u32),
    TimedOut(u32),
}

impl Noted {
    /// Notes how far a body is.
    pub(crate) fn of(progress: Progress) -> Noted
        ensures { noted_of result ≡ Some progress }
    {
        match progress {
            Progress::Waits(wake) => Noted::Waits(wake),
            Progress::Ended { tick, outcome } => match outcome {
                Outcome::Ok(value) => Noted::Ok { tick, value },
                Outcome::Failed => Noted::Failed(tick),
                Outcome::Cancelled => Noted::Cancelled(tick),
                Outcome::TimedOut => Noted::TimedOut(tick),
            },
        }
    }

    /// What was noted, where anything was.
    pub(crate) fn get(self) -> Option<Progress>
        ensures { result ≡ noted_of self }
    {
        let (tick, outcome) = match self {
            Noted::Nothing => return None,
            Noted::Waits(wake) => return Some(Progress::Waits(wake)),
            Noted::Ok { tick, value } => (tick, Outcome::Ok(value)),
            Noted::Failed(tick) => (tick, Outcome::Failed),
            Noted::Cancelled(tick) => (tick, Outcome::Cancelled),
            Noted::TimedOut(tick) => (tick, Outcome::TimedOut),
        };
        Some(Progress::Ended { tick, outcome })
    }
}
