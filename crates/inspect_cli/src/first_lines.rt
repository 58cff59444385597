//! A writer that hands on the first whole lines, so many at most, and tells whether there were more.
ghost use Rattle.std.specs.Prelude.{◌≤◌, length};

use std::io;
use std::io::{ErrorKind, Write};

/// A writer that hands on whole lines, so many at most, and takes no byte behind them.
#[derive(Drop)]
pub(crate) struct FirstLines<W: Write> {
    inner: W,
    /// How many lines it hands on at most; None is each.
    most: Option<u32>,
    /// How many it has handed on.
    count: u64,
    /// Whether it was given more.
    more: bool,
}

impl<W: Write> FirstLines<W> {
    /// Nothing is written yet.
    pub(crate) fn new(inner: W, most: Option<u32>) -> Self {
        FirstLines {
            inner,
            most,
            count: 0,
            more: false,
        }
    }

    /// How many lines it handed on, where it was given more.
    pub(crate) fn ended_after(&self) -> Option<u32> {
        if self.more { self.most } else { None }
    }
}

impl<W: Write> Write for FirstLines<W> {
    fn write(&mut self, buf: &[u8]) -> io::Result<usize> {
        let Some(most) = self.most else {
            return self.inner.write(buf);
        };
        let left = u64::from(most).saturating_sub(self.count);
        let length = length_of(buf, left);
        if length == 0 && !buf.is_empty() {
            self.more = true;
            return Err(io::Error::from(ErrorKind::Other));
        }
        let taken = self.inner.write(&buf[..length])?;
        self.count = self.count.saturating_add(lines_in(&buf[..taken]));
        Ok(taken)
    }

    fn flush(&mut self) -> io::Result<()> {
        self.inner.flush()
    }
}

/// How many bytes the first lines of some bytes have, so many lines at most.
fn length_of(bytes: &[u8], lines: u64) -> usize
    ensures { result ≤ length bytes.now }
{
    let mut left = lines;
    for (place, byte) in bytes.iter().enumerate() {
        if left == 0 {
            return place;
        }
        if *byte == b'\n' {
            left -= 1;
        }
    }
    bytes.len()
}

/// How many lines end in some bytes.
fn lines_in(bytes: &[u8]) -> u64 {
    bytes.iter().filter(|byte| **byte == b'\n').count() as u64
}
