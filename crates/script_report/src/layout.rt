//! Where the values of a JSON document lie in its bytes.
use json::{Reader, Scratch, Token};
use std::alloc::{AllocError, Global};
use std::collections::BTreeMap;

/// The bytes of a value, from the first to before the end.
#[derive(Clone, Copy)]
pub(crate) struct Span {
    pub start: usize,
    pub end: usize,
}

/// A value's bytes, with those of its parts. Of a key that stands twice the last value counts.
#[derive(Drop)]
pub(crate) enum Layout {
    Scalar(Span),
    List(Span, Vec<Layout>),
    Object(Span, BTreeMap<String, Layout>),
}

impl Layout {
    /// From which byte to which a value of the document lies.
    pub(crate) fn span(&self) -> Span {
        match self {
            Layout::Scalar(span) => *span,
            Layout::List(span, _) => *span,
            Layout::Object(span, _) => *span,
        }
    }

    /// Whether it is neither a list nor an object.
    pub(crate) fn is_scalar(&self) -> bool {
        matches!(self, Layout::Scalar(_))
    }

    /// Where the n-th item of a list lies.
    pub(crate) fn item(&self, n: usize) -> Option<&Layout> {
        match self {
            Layout::List(_, items) => items.as_slice().get(n),
            _ => None,
        }
    }

    /// Where what an object has under a key lies; of a key that stands twice the last.
    pub(crate) fn member(&self, key: &str) -> Option<&Layout> {
        match self {
            Layout::Object(_, members) => members.get(key),
            _ => None,
        }
    }
}

/// More levels than any document has that is read.
const LEVELS: u32 = 130;

/// The layout of a document; none where it is no JSON.
pub(crate) fn layout_of(alloc: Global, text: &str) -> Result<Option<Layout>, AllocError> {
    let mut scratch = Scratch::new(alloc);
    let mut reader = Reader::new(text, &mut scratch)?;
    read_value(alloc, text.as_bytes(), &mut reader, LEVELS)
}

/// Where a value lies that comes next in the document, with those in it; none where it has too many levels or is no JSON.
#[cycle(read_value)]
fn read_value(
    alloc: Global,
    bytes: &[u8],
    reader: &mut Reader<'_>,
    levels: u32,
) -> Result<Option<Layout>, AllocError> {
    if levels == 0 {
        return Ok(None);
    }
    let start = reader.offset();
    match reader.next() {
        Some(Token::BeginArray) => read_list(alloc, bytes, reader, start, levels - 1),
        Some(Token::BeginObject) => read_object(alloc, bytes, reader, start, levels - 1),
        Some(Token::String(_)) => Ok(Some(Layout::Scalar(Span {
            start,
            end: end_of_text(bytes, start),
        }))),
        Some(Token::Number(_)) | Some(Token::Bool(_)) | Some(Token::Null) => {
            Ok(Some(Layout::Scalar(Span {
                start,
                end: end_of_word(bytes, start),
            })))
        }
        _ => Ok(None),
    }
}

/// Where a list lies, of which the bracket has been read, with its items.
#[cycle(read_value)]
fn read_list(
    alloc: Global,
    bytes: &[u8],
    reader: &mut Reader<'_>,
    start: usize,
    levels: u32,
) -> Result<Option<Layout>, AllocError> {
    let mut items = Vec::new(alloc);
    for _ in 0..u64::MAX {
        let end = reader.offset().saturating_add(1);
        if reader.take_end_array() {
            return Ok(Some(Layout::List(Span { start, end }, items)));
        }
        match read_value(alloc, bytes, reader, levels)? {
            Some(item) => items.push(item)?,
            None => return Ok(None),
        }
    }
    Ok(None)
}

/// Where an object lies, of which the bracket has been read, with its members.
#[cycle(read_value)]
fn read_object(
    alloc: Global,
    bytes: &[u8],
    reader: &mut Reader<'_>,
    start: usize,
    levels: u32,
) -> Result<Option<Layout>, AllocError> {
    let mut members = BTreeMap::new(alloc);
    for _ in 0..u64::MAX {
        let end = reader.offset().saturating_add(1);
        match reader.next_key() {
            Ok(Some(key)) => {
                let name = String::from_str(alloc, key)?;
                match read_value(alloc, bytes, reader, levels)? {
                    Some(member) => drop(members.insert(name, member)?),
                    None => return Ok(None),
                }
            }
            Ok(None) => return Ok(Some(Layout::Object(Span { start, end }, members))),
            Err(_) => return Ok(None),
        }
    }
    Ok(None)
}

/// The end of the text that begins with the quote at a byte.
fn end_of_text(bytes: &[u8], start: usize) -> usize {
    let mut escaped = false;
    for (n, byte) in bytes.iter().enumerate().skip(start.saturating_add(1)) {
        if escaped {
            escaped = false;
        } else if *byte == b'\\' {
            escaped = true;
        } else if *byte == b'"' {
            return n.saturating_add(1);
        }
    }
    bytes.len()
}

/// The end of the number, or of the word true, false or null, that begins at a byte.
fn end_of_word(bytes: &[u8], start: usize) -> usize {
    for (n, byte) in bytes.iter().enumerate().skip(start) {
        if !is_of_word(*byte) {
            return n;
        }
    }
    bytes.len()
}

/// Whether a byte of the document goes on with a number, `true`, `false` or `null`.
fn is_of_word(byte: u8) -> bool {
    matches!(byte, b'0'..=b'9' | b'a'..=b'z' | b'A'..=b'Z' | b'+' | b'-' | b'.')
}
