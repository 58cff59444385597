//! The faults that are seen while a script is read.

/// Which faults of reading were seen.
#[derive(Clone, Copy)]
pub(crate) struct Faults {
    pub shape: bool,
    pub limit: bool,
}
