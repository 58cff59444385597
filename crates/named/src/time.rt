//! Times as texts: an amount, a space and a unit.
ghost use Rattle.std.specs.Prelude.{◌≡◌, drop, Option};
ghost use Rattle.std.specs.Str.{bytes_eq};
ghost use Rattle.named.specs.Leaf.{is_digit, and_digit, amount, behind, begins_with_digit, unit, time, in_milliseconds};

const MILLISECOND: u64 = 1000; // in microseconds

const SECOND: u64 = 1_000_000;

/// A time in microseconds, as `16 ms` says it; `us`, `ms` and `s` are the units.
pub(crate) fn time(text: &str) -> Option<u64>
    ensures { result ≡ time text.now }
{
    let bytes = text.as_bytes();
    if !begins_with_digit(bytes) {
        return None;
    }
    let length = unit(behind(bytes))?;
    Some(amount(bytes).saturating_mul(length))
}

/// The same where it is whole milliseconds.
pub(crate) fn in_milliseconds(us: u64) -> Option<u64>
    ensures { result ≡ in_milliseconds us }
{
    if us % MILLISECOND == 0 {
        Some(us / MILLISECOND)
    } else {
        None
    }
}

/// Whether a byte of a time is a digit.
fn is_digit(byte: u8) -> bool
    ensures { result ≡ is_digit byte }
{
    b'0' <= byte && byte <= b'9'
}

/// Whether a time begins with a digit, as each has to.
fn begins_with_digit(bytes: &[u8]) -> bool
    ensures { result ≡ begins_with_digit bytes.now }
{
    match bytes.first() {
        Some(byte) => is_digit(*byte),
        None => false,
    }
}

/// The amount that the digits at the front say.
fn amount(bytes: &[u8]) -> u64
    ensures { result ≡ amount 0 bytes.now }
{
    let mut amount: u64 = 0;
    for byte in bytes {
        if !is_digit(*byte) {
            return amount;
        }
        amount = amount
            .saturating_mul(10)
            .saturating_add(u64::from(*byte - b'0'));
    }
    amount
}

/// What is behind the digits at the front.
fn behind(bytes: &[u8]) -> &[u8]
    ensures { result.now ≡ behind bytes.now }
{
    let mut n = 0;
    while n < bytes.len() && is_digit(bytes[n]) {
        n += 1;
    }
    &bytes[n..]
}

/// How many microseconds a unit has.
fn unit(bytes: &[u8]) -> Option<u64>
    ensures { result ≡ unit bytes.now }
{
    if bytes == " us".as_bytes() {
        Some(1)
    } else if bytes == " ms".as_bytes() {
        Some(MILLISECOND)
    } else if bytes == " s".as_bytes() {
        Some(SECOND)
    } else {
        None
    }
}
