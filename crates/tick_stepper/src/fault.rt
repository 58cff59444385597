//! The refusals of a stepper's calls, and what each comes from.
use lane_turn::{HandFault, LaneFault};
use std::alloc::AllocError;
use thiserror::Error;

/// Why a call of a stepper was refused.
#[derive(Clone, Copy, Debug, PartialEq, Eq, Error)]
pub enum StepFault {
    /// The workers are none, or more than 64.
    #[error("workers")]
    Workers,
    /// The table does not name one of the workers for each lane.
    #[error("table")]
    Table,
    /// A request for memory was refused.
    #[error("memory")]
    OutOfMemory,
    /// An earlier call was refused memory, so the lanes are not those of any tick.
    #[error("spent")]
    Spent,
}

/// A request for memory was refused, in whichever call.
#[derive(Clone, Copy)]
pub struct OutOfMemory;

impl From<OutOfMemory> for StepFault {
    ghost use Rattle.std.specs.Prelude.{◌≡◌};
    ghost use Rattle.tick_stepper.specs.declared.fault.StepFault.TheVariants as faults;

    ghost from_gives = { λ _ fault. fault ≡ faults.OutOfMemory };

    fn from(_: OutOfMemory) -> Self {
        StepFault::OutOfMemory
    }
}

impl From<AllocError> for OutOfMemory {
    fn from(_: AllocError) -> Self {
        OutOfMemory
    }
}

/// A lane that was not spent is refused a turn or a delivery only where memory runs out.
impl From<LaneFault> for OutOfMemory {
    fn from(_: LaneFault) -> Self {
        OutOfMemory
    }
}

/// And so is a handing over of it.
impl From<HandFault> for OutOfMemory {
    fn from(_: HandFault) -> Self {
        OutOfMemory
    }
}

impl From<post_office::OutOfMemory> for OutOfMemory {
    fn from(_: post_office::OutOfMemory) -> Self {
        OutOfMemory
    }
}
