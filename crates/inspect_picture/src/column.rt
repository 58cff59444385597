//! How many columns a text takes, and a row filled with spaces up to a column.
use std::alloc::AllocError;

/// How many characters a text has.
pub(crate) fn width_of(text: &str) -> usize {
    text.chars().count()
}

/// Adds spaces up to a column; two where the row is as wide already.
pub(crate) fn push_to_column(row: &mut String, column: usize) -> Result<(), AllocError> {
    let width = width_of(row.as_str());
    if width >= column {
        return row.push_str("  ");
    }
    for _ in width..column {
        row.push_str(" ")?;
    }
    Ok(())
}
