//! How a task ends.

/// How a task ends.
#[derive(Clone, Copy, Debug, PartialEq, Eq)]
pub enum Outcome {
    /// With a value.
    Ok(i64),
    Failed,
    Cancelled,
    TimedOut,
}

impl Outcome {
    ghost use Rattle.std.specs.Prelude.{◌≡◌};
    ghost use Rattle.loop_script.specs.End.{both_of};

    /// The outcome of two parts that are both waited for: the second's where the first is ok, else the first's.
    pub fn and(self, second: Outcome) -> Outcome
        ensures { result ≡ both_of self second }
    {
        match self {
            Outcome::Ok(_) => second,
            _ => self,
        }
    }
}
