//! Where a value lies in a table of TOML, as a JSON pointer, and how keys stand in pointers.
use std::alloc::{AllocError, Global};

/// The steps that lead to a value, the last one first.
#[derive(Clone, Copy)]
pub(crate) enum Place<'a> {
    Top,
    Key(&'a Place<'a>, &'a str),
    Item(&'a Place<'a>, usize),
}

impl Place<'_> {
    /// The pointer to the value (RFC 6901).
    pub(crate) fn pointer(&self, alloc: Global) -> Result<String, AllocError> {
        match self {
            Place::Top => Ok(String::new(alloc)),
            Place::Key(above, key) => {
                let mut text = above.pointer(alloc)?;
                text.push('/')?;
                push_escaped(&mut text, key)?;
                Ok(text)
            }
            Place::Item(above, index) => {
                let mut text = above.pointer(alloc)?;
                write!(text, "/{index}")?;
                Ok(text)
            }
        }
    }
}

/// Adds a key as it stands in a pointer (RFC 6901): `~` as `~0`, and `/` as `~1`. Where memory is refused, what was added by then
/// stays.
pub fn push_escaped(text: &mut String, key: &str) -> Result<(), AllocError> {
    for character in key.chars() {
        match character {
            '~' => text.push_str("~0")?,
            '/' => text.push_str("~1")?,
            _ => text.push(character)?,
        }
    }
    Ok(())
}
