//! What a value without parts is in a script of numbers: a name, a number, a time, a priority, a truth.
ghost use Rattle.std.specs.Prelude.{◌≡◌, [], ◌∷◌, Some, is_some, option_map, option_and_then, codes, if◌then◌else◌};
ghost use Rattle.json.specs.Find.{as_str, as_number, as_bool, as_array, is_null};
ghost use Rattle.json.specs.Token.{boolean, null};
ghost use Rattle.json.specs.Value.{value_view, items_view};
ghost use Rattle.named.specs.Leaf.{as_it_is, priority, keep, names_among, name, count, number_in, time_in, in_milliseconds, is_never, true_alone, whole, bits, leaf};
ghost use Rattle.named.specs.Views.{names_of, tokens_of};

use crate::bits::bits;
use crate::names::Names;
use crate::sort::{Kind, Leaf};
use crate::time::{in_milliseconds, time};
use json::Value;

/// What a value without parts is in a script of numbers.
#[derive(Clone, Copy)]
pub(crate) enum Scalar<'a> {
    /// It has nothing there.
    Nothing,
    Null,
    Bool(bool),
    Whole(u64),
    /// A number as it is written.
    Digits(&'a str),
}

/// What a value is that should be this; None where it is not.
pub(crate) fn scalar_of<'a>(names: &Names<'_>, asked: Leaf, value: &Value<'a>) -> Option<Scalar<'a>>
    ensures { option_map tokens_of result ≡ leaf asked (names_of names.now) (value_view value.now) }
{
    match asked {
        Leaf::Name(kind) => name(names, kind, value),
        Leaf::NameOrNull(kind) => if value.is_null() {
            Some(Scalar::Null)
        } else {
            name(names, kind, value)
        },
        Leaf::Names => count(value),
        Leaf::Priority => priority_of(value),
        Leaf::Bits => whole(value.as_str().and_then(bits)),
        Leaf::Milliseconds => whole(time_of(value).and_then(in_milliseconds)),
        Leaf::Microseconds => whole(time_of(value)),
        Leaf::ReadyTime => ready_time_of(value),
        Leaf::Keep => keep_of(value),
        Leaf::True => true_alone(value),
        Leaf::Label => match value.as_str() {
            Some(_) => Some(Scalar::Nothing),
            None => true_alone(value),
        },
        Leaf::Number => number_of(value),
        Leaf::Truth => truth(value),
    }
}

/// A whole number, where there is one.
fn whole<'a>(number: Option<u64>) -> Option<Scalar<'a>>
    ensures { option_map tokens_of result ≡ option_map whole number }
{
    Some(Scalar::Whole(number?))
}

/// A truth, as that of a key that a script of numbers has as well.
fn truth<'a>(value: &Value<'_>) -> Option<Scalar<'a>>
    ensures { option_map tokens_of result ≡ option_map (λ b. boolean b ∷ []) (as_bool (value_view value.now)) }
{
    Some(Scalar::Bool(value.as_bool()?))
}

/// The number of a name that was declared or said.
fn name<'a>(names: &Names<'_>, kind: Kind, value: &Value<'_>) -> Option<Scalar<'a>>
    ensures { option_map tokens_of result ≡ name kind (names_of names.now) (value_view value.now) }
{
    let number = names.number(kind, value.as_str()?)?;
    Some(Scalar::Whole(number as u64))
}

/// How many names a list has, which a script of numbers has in its place.
fn count<'a>(value: &Value<'_>) -> Option<Scalar<'a>>
    ensures { option_map tokens_of result ≡ count (value_view value.now) }
{
    let Value::Array(items) = value else {
        return None;
    };
    Some(Scalar::Whole(names_among(items.as_slice())?))
}

/// How many names a list has, where it has nothing else.
fn names_among(items: &[Value<'_>]) -> Option<u64>
    ensures { result ≡ names_among 0 (items_view items.now) }
{
    for item in items {
        if item.as_str().is_none() {
            return None;
        }
    }
    Some(items.len() as u64)
}

/// A number as it is written.
fn number_of<'a>(value: &Value<'a>) -> Option<Scalar<'a>>
    ensures { option_map tokens_of result ≡ number_in (value_view value.now) }
{
    Some(Scalar::Digits(value.as_number()?))
}

/// A priority: by the name that GLib has for it, or as a number.
fn priority_of<'a>(value: &Value<'a>) -> Option<Scalar<'a>>
    ensures { option_map tokens_of result ≡ (if is_some (as_str (value_view value.now)) then option_map as_it_is (option_and_then priority (as_str (value_view value.now))) else number_in (value_view value.now)) }
{
    match value.as_str() {
        Some(word) => Some(Scalar::Digits(priority(word)?)),
        None => number_of(value),
    }
}

/// GLib's priorities.
fn priority(word: &str) -> Option<&'static str>
    ensures { option_map (λ s. s.now) result ≡ priority word.now }
{
    match word {
        "HIGH" => Some("-100"),
        "DEFAULT" => Some("0"),
        "HIGH_IDLE" => Some("100"),
        "DEFAULT_IDLE" => Some("200"),
        "LOW" => Some("300"),
        _ => None,
    }
}

/// A time with its unit, in microseconds.
fn time_of(value: &Value<'_>) -> Option<u64>
    ensures { result ≡ time_in (value_view value.now) }
{
    time(value.as_str()?)
}

/// A ready time: a time with its unit, or -1 for `never`.
fn ready_time_of<'a>(value: &Value<'_>) -> Option<Scalar<'a>>
    ensures { option_map tokens_of result ≡ (if is_never (as_str (value_view value.now)) then Some (as_it_is (codes "-1")) else option_map whole (time_in (value_view value.now))) }
{
    match value.as_str() {
        Some("never") => Some(Scalar::Digits("-1")),
        _ => whole(time_of(value)),
    }
}

/// How often a source is kept: null for `CONTINUE`, 0 for `REMOVE`, or a number.
fn keep_of<'a>(value: &Value<'a>) -> Option<Scalar<'a>>
    ensures { option_map tokens_of result ≡ (if is_null (value_view value.now) then Some (null ∷ []) else if is_some (as_str (value_view value.now)) then option_and_then keep (as_str (value_view value.now)) else number_in (value_view value.now)) }
{
    if value.is_null() {
        return Some(Scalar::Null);
    }
    match value.as_str() {
        Some("CONTINUE") => Some(Scalar::Null),
        Some("REMOVE") => Some(Scalar::Whole(0)),
        Some(_) => None,
        None => number_of(value),
    }
}

/// Nothing, of a key whose value is true and says no more than that the key stands.
fn true_alone<'a>(value: &Value<'_>) -> Option<Scalar<'a>>
    ensures { option_map tokens_of result ≡ true_alone (as_bool (value_view value.now)) }
{
    match value.as_bool() {
        Some(true) => Some(Scalar::Nothing),
        _ => None,
    }
}
