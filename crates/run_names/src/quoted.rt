//! A name as a text has it, in quotes or plain, by what its letters are.
ghost use Rattle.std.specs.Prelude.{◌≡◌, ◌++◌, OnOk, string_bytes};
ghost use Rattle.std.specs.List.{list_all};
ghost use Rattle.json.specs.Print.{quoted};
ghost use Rattle.run_names.specs.Text as texts;

use json::Writer;
use std::alloc::{AllocError, Global};
use std::str::from_utf8;

/// Whether a byte needs no quotes.
fn is_plain(byte: u8) -> bool
    ensures { result ≡ texts.is_plain byte }
{
    byte.is_ascii_alphanumeric() || byte == b'_' || byte == b'-'
}

/// Whether a name needs no quotes.
fn is_bare(name: &str) -> bool
    ensures { result ≡ texts.is_bare name.now }
{
    !name.is_empty() && are_plain(name.as_bytes())
}

/// Whether a text needs no quotes: each of its bytes is plain.
fn are_plain(bytes: &[u8]) -> bool
    ensures { result ≡ list_all texts.is_plain bytes.now }
{
    bytes.iter().all(|byte| is_plain(*byte))
}

/// Adds a text in quotes, as JSON has it.
pub fn push_quoted(alloc: Global, out: &mut String, text: &str) -> Result<(), AllocError>
    ensures { OnOk result (string_bytes out.new ≡ string_bytes out.old ++ quoted text.now) }
{
    let mut writer = Writer::new(Vec::new(alloc));
    writer.string(text)?;
    let bytes = writer.into_inner();
    out.push_str(from_utf8(bytes.as_slice()).unwrap_or(""))
}

/// Adds a name: as it is, or where it has other characters than letters, digits, `_` and `-`, in quotes.
pub(crate) fn push_name(alloc: Global, out: &mut String, name: &str) -> Result<(), AllocError>
    ensures { OnOk result (string_bytes out.new ≡ string_bytes out.old ++ texts.name_text name.now) }
{
    if is_bare(name) {
        out.push_str(name)
    } else {
        push_quoted(alloc, out, name)
    }
}
