//! The reasons for which bytes have no JSON text as a table of TOML.
use std::alloc::AllocError;
use std::fmt;
use thiserror::Error;

/// A value of TOML for which no JSON value stands.
#[derive(Clone, Copy, Debug, PartialEq, Eq)]
pub enum Unfit {
    /// A float, also `inf` and `nan`.
    Float,
    /// A date, a time, or both.
    Datetime,
}

impl fmt::Display for Unfit {
    fn fmt<W: fmt::Write>(&self, f: &mut fmt::Formatter<W>) -> fmt::Result {
        f.write_str(match self {
            Unfit::Float => "a number with a fraction or an exponent",
            Unfit::Datetime => "a date or a time",
        })
    }
}

/// Why there is no JSON text.
#[derive(Debug, Drop, Error)]
pub enum TomlFault {
    /// The bytes are no UTF-8 or no TOML: with the line, the column and the reason.
    #[error("{0}")]
    NotToml(toml::de::Error),
    /// A value within the table has no JSON value: with the pointer to it (RFC 6901).
    #[error("{unfit} has no place in a script: at {pointer}")]
    NoJson { unfit: Unfit, pointer: String },
    /// Tables and arrays nest deeper than a JSON text is read.
    #[error("tables and arrays nest more than 128 deep")]
    TooDeep,
    /// A request for memory was refused.
    #[error("out of memory")]
    OutOfMemory,
}

impl From<AllocError> for TomlFault {
    ghost use Rattle.std.specs.Prelude.{◌≡◌};
    ghost use Rattle.toml_names.specs.declared.fault.TomlFault.TheVariants.{OutOfMemory};

    ghost from_gives = { λ _ fault. fault ≡ OutOfMemory };

    fn from(_: AllocError) -> Self {
        TomlFault::OutOfMemory
    }
}
