//! The line and column of a byte of a script.

/// A place in a document: a byte from 0, its line and its column in characters, both from 1.
#[derive(Clone, Copy)]
pub(crate) struct Cursor {
    pub byte: usize,
    pub line: usize,
    pub column: usize,
    /// Where the line begins.
    pub line_start: usize,
}

impl Cursor {
    /// The place of the first byte: line 1, column 1.
    pub(crate) fn start() -> Cursor {
        Cursor {
            byte: 0,
            line: 1,
            column: 1,
            line_start: 0,
        }
    }

    /// The place of a later byte.
    pub(crate) fn to(self, bytes: &[u8], byte: usize) -> Cursor {
        let mut cursor = self;
        if let Some(passed) = bytes.get(self.byte..byte) {
            for each in passed {
                cursor.byte = cursor.byte.saturating_add(1);
                if *each == b'\n' {
                    cursor.line = cursor.line.saturating_add(1);
                    cursor.column = 1;
                    cursor.line_start = cursor.byte;
                } else if begins_character(*each) {
                    cursor.column = cursor.column.saturating_add(1);
                }
            }
        }
        cursor
    }

    /// The place of a byte of a line, from the reader's own words: its line and the bytes before it, both from 1.
    pub(crate) fn of_line(bytes: &[u8], line: usize, column: usize) -> Cursor {
        let mut left = line;
        let mut start = 0usize;
        for (n, each) in bytes.iter().enumerate() {
            if left <= 1 {
                break;
            }
            if *each == b'\n' {
                left = left.saturating_sub(1);
                start = n.saturating_add(1);
            }
        }
        let byte = start
            .saturating_add(column.saturating_sub(1))
            .min(bytes.len());
        Cursor::start().to(bytes, byte)
    }
}

/// Whether a byte begins a character of UTF-8.
pub(crate) fn begins_character(byte: u8) -> bool {
    byte < 0x80 || byte >= 0xc0
}
