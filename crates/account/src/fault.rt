//! Why an account was refused.
use thiserror::Error;
use tick_stepper::OutOfMemory;

/// Why a call of an account was refused.
#[derive(Clone, Copy, Debug, PartialEq, Eq, Error)]
pub enum AccountFault {
    /// An earlier call was refused memory, so the lanes are not those of any moment.
    #[error("spent")]
    Spent,
    /// A request for memory was refused.
    #[error("memory")]
    OutOfMemory,
}

impl From<OutOfMemory> for AccountFault {
    ghost use Rattle.std.specs.Prelude.{◌≡◌};
    ghost use Rattle.account.specs.declared.fault.AccountFault.TheVariants as faults;

    ghost from_gives = { λ _ fault. fault ≡ faults.OutOfMemory };

    fn from(_: OutOfMemory) -> Self {
        AccountFault::OutOfMemory
    }
}
