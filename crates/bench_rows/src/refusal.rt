//! Why the program ended without its line.
ghost use Rattle.std.specs.Prelude.{◌≡◌};

use source_rows::RowsFault;
use std::alloc::AllocError;

/// Why the program ended without its line.
#[derive(Clone, Copy, Drop)]
pub(crate) enum Refusal {
    /// The arguments name nothing that can be measured.
    Usage,
    /// A call of the rows or a request for memory was refused.
    Call,
    /// The line could not be written.
    Write,
}

impl Refusal {
    /// The exit status.
    pub(crate) fn status(self) -> u8 {
        match self {
            Refusal::Usage => 1,
            Refusal::Call => 3,
            Refusal::Write => 4,
        }
    }

    /// What is told of it.
    pub(crate) fn line(self) -> &'static str {
        match self {
            Refusal::Usage => {
                "usage: bench_rows attach|destroy|set_priority|set_ready|next_ready loop|random COUNT ROUNDS"
            }
            Refusal::Call => "a call was refused",
            Refusal::Write => "the line was not written",
        }
    }
}

impl From<AllocError> for Refusal {
    ghost use Rattle.bench_rows.specs.declared.refusal.Refusal.TheVariants.{Call};

    ghost from_gives = { λ _ refusal. refusal ≡ Call };

    fn from(_: AllocError) -> Refusal {
        Refusal::Call
    }
}

impl From<RowsFault> for Refusal {
    ghost use Rattle.bench_rows.specs.declared.refusal.Refusal.TheVariants.{Call};

    ghost from_gives = { λ _ refusal. refusal ≡ Call };

    fn from(_: RowsFault) -> Refusal {
        Refusal::Call
    }
}
