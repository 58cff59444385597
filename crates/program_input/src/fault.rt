//! Why a program has not what it is given: the exit status, and the line on standard error.
ghost use Rattle.std.specs.Prelude.{◌≡◌};
ghost use Rattle.program_input.specs.Input.{status_of};

use std::alloc::AllocError;

/// Why words or bytes were not read.
#[derive(Clone, Copy, Debug, Drop, PartialEq, Eq)]
pub enum InputFault {
    /// A word of the command line is not in UTF-8.
    NotText,
    /// A file was not opened, or a read failed.
    Unreadable,
    /// There are more bytes than a script may have, which are 4,194,304.
    TooLong,
    /// A request for memory was refused.
    OutOfMemory,
}

impl From<AllocError> for InputFault {
    ghost use Rattle.program_input.specs.declared.fault.InputFault.TheVariants as faults;

    ghost from_gives = { λ _ fault. fault ≡ faults.OutOfMemory };

    fn from(_: AllocError) -> Self {
        InputFault::OutOfMemory
    }
}

impl InputFault {
    /// The exit status of a program that ends by it.
    pub fn status(self) -> u8
        ensures { result ≡ status_of self }
    {
        match self {
            InputFault::NotText => 1,
            InputFault::OutOfMemory => 3,
            InputFault::Unreadable | InputFault::TooLong => 4,
        }
    }

    /// The line on standard error, as `mainctx_check` and `mainctx_inspect` have it.
    pub fn line(self) -> &'static str {
        match self {
            InputFault::NotText => "error: the arguments are not in UTF-8\n",
            InputFault::Unreadable => "read\n",
            InputFault::TooLong => "read: a script has 4194304 bytes at most\n",
            InputFault::OutOfMemory => "memory\n",
        }
    }
}
