//! What is wrong with one value of a script with names itself, the values in it apart: its size, its keys, those that it lacks or that must be there.
ghost use Rattle.std.specs.Prelude.{◌≡◌, ◌++◌, ◌==◌, not, is_none, IfOk, OnOk};
ghost use Rattle.std.specs.List.{list_any};
ghost use Rattle.std.specs.Str.{bytes_eq};
ghost use Rattle.json.specs.Find.{as_array, as_object};
ghost use Rattle.json.specs.Value.{value_view, items_view, members_view};
ghost use Rattle.named.specs.Words.{text_of};
ghost use Rattle.named.specs.Faults.{where_so, lack, lacks, field_lack, field_lacks, other_keys, of_kind, allowed, unknown_in, count, must_be_there, of_object, of_size, of_word, own, twice, declaring};
ghost use Rattle.named.specs.Tables.{fields, keys};
ghost use Rattle.named.specs.Pieces.{chosen};
ghost use Rattle.named.specs.Views.{names_of};

use crate::fault::Cause;
use crate::field::{Absent, Field, fields, keys};
use crate::names::Names;
use crate::piece::chosen;
use crate::scalar::scalar_of;
use crate::sort::{Choice, Kind, Object, Sort};
use crate::table::{At, Part, beside, makes_source, parts, words};
use crate::word::Word;
use json::Value;
use std::alloc::{AllocError, Global};

/// The causes of faults that a value itself has, in order.
pub(crate) fn own_causes(
    alloc: Global,
    names: &Names<'_>,
    sort: Sort,
    value: &Value<'_>,
) -> Result<Vec<Cause>, AllocError>
    ensures { IfOk result (λ causes. causes.items ≡ own sort (names_of names.now) (value_view value.now)) }
{
    let mut causes = Vec::new(alloc);
    match sort {
        Sort::Leaf(leaf) => push_cause_where(
            scalar_of(names, leaf, value).is_none(),
            Cause::Unfit,
            &mut causes,
        )?,
        Sort::OneOf(choice) => push_of_word(alloc, choice, value, &mut causes)?,
        Sort::An(Object::Script) => {
            push_of_object(Object::Script, value, &mut causes)?;
            push_twice(names, value, &mut causes)?;
        }
        Sort::An(object) => push_of_object(object, value, &mut causes)?,
        Sort::Pair => push_of_size(2, value, &mut causes)?,
        Sort::Actions | Sort::Levels => push_cause_where(
            !is_list(value),
            Cause::OtherType,
            &mut causes,
        )?,
        _ => push_cause_where(!is_object(value), Cause::OtherType, &mut causes)?,
    }
    Ok(causes)
}

/// Adds a cause, where a test holds.
fn push_cause_where(so: bool, cause: Cause, causes: &mut Vec<Cause>) -> Result<(), AllocError>
    ensures { OnOk result (causes.new.items ≡ causes.old.items ++ where_so so cause) }
{
    if so {
        causes.push(cause)?;
    }
    Ok(())
}

/// Whether a value with names is a list.
fn is_list(value: &Value<'_>) -> bool
    ensures { not result ≡ is_none (as_array (value_view value.now)) }
{
    matches!(value, Value::Array(_))
}

/// Whether a value with names is an object.
fn is_object(value: &Value<'_>) -> bool
    ensures { not result ≡ is_none (as_object (value_view value.now)) }
{
    matches!(value, Value::Object(_))
}

/// Adds what is wrong with a value of which one word has to stand, an action, a source or a tree: no word, parts that it lacks,
/// other keys.
fn push_of_word(
    alloc: Global,
    choice: Choice,
    value: &Value<'_>,
    causes: &mut Vec<Cause>,
) -> Result<(), AllocError>
    ensures { OnOk result (causes.new.items ≡ causes.old.items ++ of_word choice (value_view value.now) (chosen choice (value_view value.now))) }
{
    let Some(word) = chosen(choice, value) else {
        return push_cause_where(true, Cause::NoWord, causes);
    };
    let asked = parts(choice, word);
    match choice {
        Choice::Tree => push_of_size(asked.len() + 1, value, causes),
        Choice::Source => push_lacks(asked, value, causes),
        Choice::Action => {
            push_lacks(asked, value, causes)?;
            let allowed = allowed(alloc, word, value)?;
            push_unknown(allowed.as_slice(), value, causes)
        }
    }
}

/// A list should have so many items.
fn push_of_size(size: usize, value: &Value<'_>, causes: &mut Vec<Cause>) -> Result<(), AllocError>
    ensures { OnOk result (causes.new.items ≡ causes.old.items ++ of_size size (as_array (value_view value.now))) }
{
    match value {
        Value::Array(items) => {
            push_cause_where(
                !has_size(items.as_slice(), size),
                Cause::OtherLength,
                causes,
            )
        }
        _ => push_cause_where(true, Cause::OtherLength, causes),
    }
}

/// Whether a list has so many items.
#[tactic(auto, using(crate::proofs::Causes::counts))]
fn has_size(items: &[Value<'_>], size: usize) -> bool
    ensures { result ≡ (count (items_view items.now) == size) }
{
    items.len() == size
}

/// Adds that a key is missing.
fn push_lack(at: At, is_absent: bool, causes: &mut Vec<Cause>) -> Result<(), AllocError>
    ensures { OnOk result (causes.new.items ≡ causes.old.items ++ lack at is_absent) }
{
    match at {
        At::Key(word) => push_cause_where(is_absent, Cause::NoKey(word), causes),
        _ => Ok(()),
    }
}

/// Adds a cause for each part behind the word that is missing, as the slot of an `attach`.
fn push_lacks(parts: &[Part], value: &Value<'_>, causes: &mut Vec<Cause>) -> Result<(), AllocError>
    ensures { OnOk result (causes.new.items ≡ causes.old.items ++ lacks parts.now (value_view value.now)) }
{
    for part in parts {
        push_lack(part.at, part.at.find(value).is_none(), causes)?;
    }
    Ok(())
}

/// Whether a value with names that lacks a field is at fault.
fn must_be_there(absent: Absent) -> bool
    ensures { result ≡ must_be_there absent }
{
    matches!(absent, Absent::Fault)
}

/// Adds a cause where an object lacks a field that must be there.
fn push_field_lack(
    field: &Field,
    value: &Value<'_>,
    causes: &mut Vec<Cause>,
) -> Result<(), AllocError>
    ensures { OnOk result (causes.new.items ≡ causes.old.items ++ field_lack field.now (value_view value.now)) }
{
    if must_be_there(field.absent) {
        push_lack(field.at, field.at.find(value).is_none(), causes)?;
    }
    Ok(())
}

/// Adds a cause for each field that must be there and that an object lacks.
fn push_field_lacks(
    fields: &[Field],
    value: &Value<'_>,
    causes: &mut Vec<Cause>,
) -> Result<(), AllocError>
    ensures { OnOk result (causes.new.items ≡ causes.old.items ++ field_lacks fields.now (value_view value.now)) }
{
    for field in fields {
        push_field_lack(field, value, causes)?;
    }
    Ok(())
}

/// Adds what is wrong with an object itself: its type, fields that it lacks, other keys.
fn push_of_object(
    object: Object,
    value: &Value<'_>,
    causes: &mut Vec<Cause>,
) -> Result<(), AllocError>
    ensures { OnOk result (causes.new.items ≡ causes.old.items ++ of_object object (value_view value.now)) }
{
    push_cause_where(!is_object(value), Cause::OtherType, causes)?;
    push_field_lacks(fields(object), value, causes)?;
    push_unknown(keys(object), value, causes)
}

/// The kinds whose names are declared.
const DECLARING: [Kind; 6] = [
    Kind::Thread,
    Kind::Context,
    Kind::Loop,
    Kind::Procedure,
    Kind::Cancellable,
    Kind::Descriptor,
];

/// Adds a cause for each kind of declared names of which one stands twice in a script.
fn push_twice(
    names: &Names<'_>,
    script: &Value<'_>,
    causes: &mut Vec<Cause>,
) -> Result<(), AllocError>
    ensures { OnOk result (causes.new.items ≡ causes.old.items ++ twice declaring (names_of names.now) (value_view script.now)) }
{
    push_twice_of(&DECLARING, names, script, causes)
}

/// Adds a cause for each of some kinds of which a declared name stands twice.
fn push_twice_of(
    kinds: &[Kind],
    names: &Names<'_>,
    script: &Value<'_>,
    causes: &mut Vec<Cause>,
) -> Result<(), AllocError>
    ensures { OnOk result (causes.new.items ≡ causes.old.items ++ twice kinds.now (names_of names.now) (value_view script.now)) }
{
    for kind in kinds {
        push_cause_where(!names.has_all(*kind, script), Cause::Twice(*kind), causes)?;
    }
    Ok(())
}

/// The keys that may stand in an action of a script with names, and those of its kind of source where it makes one.
fn allowed(alloc: Global, word: Word, value: &Value<'_>) -> Result<Vec<Word>, AllocError>
    ensures { IfOk result (λ found. found.items ≡ allowed word (value_view value.now)) }
{
    let mut found = Vec::new(alloc);
    found.push(word)?;
    found.extend_from_slice(beside(word))?;
    if makes_source(word) {
        push_of_kind(chosen(Choice::Source, value), &mut found)?;
    }
    Ok(found)
}

/// Adds the word of a source's kind and the keys that may stand beside it; where it has no kind, the words of all kinds.
fn push_of_kind(kind: Option<Word>, found: &mut Vec<Word>) -> Result<(), AllocError>
    ensures { OnOk result (found.new.items ≡ found.old.items ++ of_kind kind) }
{
    match kind {
        Some(word) => {
            found.push(word)?;
            found.extend_from_slice(beside(word))
        }
        None => found.extend_from_slice(words(Choice::Source)),
    }
}

/// Adds each member whose key is none of these; where none are given they are not looked at.
fn push_unknown(
    allowed: &[Word],
    value: &Value<'_>,
    causes: &mut Vec<Cause>,
) -> Result<(), AllocError>
    ensures { OnOk result (causes.new.items ≡ causes.old.items ++ unknown_in allowed.now (as_object (value_view value.now))) }
{
    match value {
        Value::Object(members) if !allowed.is_empty() => {
            push_other_keys(allowed, members.as_slice(), causes)
        }
        _ => Ok(()),
    }
}

/// Adds a cause for each of these members whose key is none of the allowed ones.
fn push_other_keys(
    allowed: &[Word],
    members: &[(&str, Value<'_>)],
    causes: &mut Vec<Cause>,
) -> Result<(), AllocError>
    ensures { OnOk result (causes.new.items ≡ causes.old.items ++ other_keys allowed.now 0 (members_view members.now)) }
{
    for (n, member) in members.iter().enumerate() {
        push_cause_where(
            !is_allowed_key(allowed, member.0),
            Cause::OtherKey(n),
            causes,
        )?;
    }
    Ok(())
}

/// Whether a key is one of the allowed words.
fn is_allowed_key(allowed: &[Word], key: &str) -> bool
    ensures { result ≡ list_any (λ w. bytes_eq (text_of w) key.now) allowed.now }
{
    allowed.iter().any(|word| word.text() == key)
}
