//! What is wrong with one value of a script of numbers itself, its parts apart: its size, its keys and words, those that it lacks.
ghost use Rattle.std.specs.Prelude.{◌≡◌, ◌++◌, ◌&&◌, ◌≤ℤ◌, [], codes, pos, not, nat_lt, map, is_some, is_none, if◌then◌else◌, option_map, option_to_list, IfOk, OnOk};
ghost use Rattle.std.specs.List.{list_any};
ghost use Rattle.std.specs.Str.{bytes_eq};
ghost use Rattle.serde_json.specs.View.{view, items_view, members_view};
ghost use Rattle.serde_json.specs.Find.{get, as_null, as_bool, as_number, as_array, as_object};
ghost use Rattle.loop_script.specs.Form.{one_of};
ghost use Rattle.loop_script.specs.Tables.{keys};
ghost use Rattle.loop_script.specs.Place.{size, asked};
ghost use Rattle.loop_script.specs.Misfit.{contexts_in, contexts_of};
ghost use Rattle.script_check.specs.Own.{own, where_so, of_whole, of_signed, of_list, of_contexts, has_size, other_keys, no_keys, of_object, of_word};
ghost use Rattle.script_check.specs.Views.{object_of, choice_of, form_of, shape_of, key_of, name_of};

use crate::depth::is_deeper;
use crate::fault::Cause;
use crate::shape::Shape;
use crate::tables::{Key, keys_of, parts_of};
use crate::wanted::{Choice, Object, Wanted};
use serde_json::{Map, Value};
use std::alloc::{AllocError, Global};

/// The causes of faults that a value itself has where it should have this form, in order.
pub(crate) fn own_causes(
    alloc: Global,
    shape: Shape,
    value: &Value,
) -> Result<Vec<Cause>, AllocError>
    ensures { IfOk result (λ causes. causes.items ≡ own (shape_of shape) (view value.now)) }
{
    match shape {
        Shape::Whole(low, high) => at_most_one(alloc, of_whole(value, low, high)),
        Shape::WholeOrNull(low, high) => at_most_one(alloc, of_whole_or_null(value, low, high)),
        Shape::Signed(low, high) => at_most_one(alloc, of_signed(value, low, high)),
        Shape::Truth => at_most_one(alloc, of_truth(value)),
        Shape::List(low, high, _) => at_most_one(alloc, of_list(value, low, high)),
        Shape::Lanes(low, high, most) => of_lanes(alloc, value, low, high, most),
        Shape::Pair => at_most_one(alloc, of_size(value, 2)),
        Shape::An(object) => of_object(alloc, value, object),
        Shape::OneOf(choice) => of_choice(alloc, value, choice),
    }
}

/// A cause, where there is one.
fn at_most_one(alloc: Global, cause: Option<Cause>) -> Result<Vec<Cause>, AllocError>
    ensures { IfOk result (λ causes. causes.items ≡ option_to_list cause) }
{
    let mut causes = Vec::new(alloc);
    if let Some(cause) = cause {
        causes.push(cause)?;
    }
    Ok(causes)
}

/// Adds a cause, where a test holds.
fn push_where(so: bool, cause: Cause, causes: &mut Vec<Cause>) -> Result<(), AllocError>
    ensures { OnOk result (causes.new.items ≡ causes.old.items ++ where_so so cause) }
{
    if so {
        causes.push(cause)?;
    }
    Ok(())
}

/// The cause of a fault, where a test holds, and else none.
fn cause_where(so: bool, cause: Cause) -> Option<Cause>
    ensures { option_to_list result ≡ where_so so cause }
{
    if so { Some(cause) } else { None }
}

/// What is wrong with a JSON value that should be a whole number in a range: its type, or the range; none where it is right.
fn of_whole(value: &Value, low: u64, high: u64) -> Option<Cause>
    ensures { option_to_list result ≡ of_whole low high (as_number (view value.now)) }
{
    let Some(number) = value.as_number() else {
        return Some(Cause::OtherType);
    };
    match number.as_u64() {
        Some(n) => cause_where(n < low || high < n, Cause::Range),
        None => if number.is_i64() {
            Some(Cause::Range)
        } else {
            Some(Cause::OtherType)
        },
    }
}

/// What is wrong with a JSON value that should be null or a whole number in a range; none where it is right.
fn of_whole_or_null(value: &Value, low: u64, high: u64) -> Option<Cause>
    ensures { option_to_list result ≡ (if is_some (as_null (view value.now)) then [] else of_whole low high (as_number (view value.now))) }
{
    if value.is_null() {
        None
    } else {
        of_whole(value, low, high)
    }
}

/// What is wrong with a JSON value that should be a signed whole number in a range; none where it is right.
fn of_signed(value: &Value, low: i64, high: i64) -> Option<Cause>
    requires { high ≤ℤ pos 9223372036854775807 }
    ensures { option_to_list result ≡ of_signed low high (as_number (view value.now)) }
{
    let Some(number) = value.as_number() else {
        return Some(Cause::OtherType);
    };
    match number.as_i64() {
        Some(n) => cause_where(n < low || high < n, Cause::Range),
        None => if number.is_f64() {
            Some(Cause::OtherType)
        } else {
            Some(Cause::Range)
        },
    }
}

/// What is wrong with a JSON value that should be true or false: its type; none where it is right.
fn of_truth(value: &Value) -> Option<Cause>
    ensures { option_to_list result ≡ where_so (is_none (as_bool (view value.now))) Cause.OtherType }
{
    cause_where(value.as_bool().is_none(), Cause::OtherType)
}

/// What is wrong with a JSON value that should be a list of so many items at least and at most: that it is none, or their count.
#[tactic(auto, using(crate::proofs::Sizes::counts))]
fn of_list(value: &Value, low: usize, high: usize) -> Option<Cause>
    ensures { option_to_list result ≡ of_list low high (as_array (view value.now)) }
{
    match value.as_array() {
        Some(items) => cause_where(items.len() < low || high < items.len(), Cause::Count),
        None => Some(Cause::OtherType),
    }
}

/// What is wrong with a JSON value that should be a list of just so many parts, as a pair: that it is none, or of another length.
#[tactic(auto, using(crate::proofs::Sizes::counts))]
fn of_size(value: &Value, parts: usize) -> Option<Cause>
    ensures { option_to_list result ≡ where_so (not (has_size parts (size (view value.now)))) Cause.OtherLength }
{
    match value.as_array() {
        Some(items) => cause_where(items.len() != parts, Cause::OtherLength),
        None => Some(Cause::OtherLength),
    }
}

/// What is wrong with the JSON value of `lanes`: its type, how many lanes there are, too many contexts in all of them.
fn of_lanes(
    alloc: Global,
    value: &Value,
    low: usize,
    high: usize,
    most: u64,
) -> Result<Vec<Cause>, AllocError>
    ensures { IfOk result (λ causes. causes.items ≡ of_list low high (as_array (view value.now)) ++ of_contexts most (as_array (view value.now))) }
{
    let mut causes = at_most_one(alloc, of_list(value, low, high))?;
    if has_more_contexts(value, most) {
        causes.push(Cause::Contexts)?;
    }
    Ok(causes)
}

/// Whether lanes have more contexts together than so many.
fn has_more_contexts(value: &Value, most: u64) -> bool
    ensures { where_so result Cause.Contexts ≡ of_contexts most (as_array (view value.now)) }
{
    match value.as_array() {
        Some(lanes) => are_more_contexts(lanes.as_slice(), most),
        None => false,
    }
}

/// Goes over the JSON values of lanes, and tells whether they have more contexts together than so many.
fn are_more_contexts(lanes: &[Value], most: u64) -> bool
    ensures { result ≡ nat_lt most (contexts_in (items_view lanes.now)) }
{
    let mut left = most;
    for lane in lanes {
        let contexts = contexts_of(lane);
        if left < contexts {
            return true;
        }
        left -= contexts;
    }
    false
}

/// The number under `contexts`, or 0.
#[tactic(auto, using(crate::proofs::Sizes::contexts_are))]
fn contexts_of(lane: &Value) -> u64
    ensures { result ≡ contexts_of (get (codes "contexts") (view lane.now)) }
{
    lane.get("contexts").and_then(Value::as_u64).unwrap_or(0)
}

/// What is wrong with a JSON value that should be an object, as a lane: its type, or the keys that are unknown or missing.
fn of_object(alloc: Global, value: &Value, object: Object) -> Result<Vec<Cause>, AllocError>
    ensures { IfOk result (λ causes. causes.items ≡ of_object (keys (object_of object)) (view value.now) (as_object (view value.now))) }
{
    match value.as_object() {
        Some(members) => {
            let mut causes = Vec::new(alloc);
            push_other_keys(keys_of(object), members, &mut causes)?;
            push_no_keys(keys_of(object), value, &mut causes)?;
            Ok(causes)
        }
        None => at_most_one(alloc, Some(Cause::OtherType)),
    }
}

/// Adds a cause for each key of a JSON object that is not in the table of its keys.
fn push_other_keys(
    keys: &[Key],
    members: &Map<String, Value>,
    causes: &mut Vec<Cause>,
) -> Result<(), AllocError>
    ensures { OnOk result (causes.new.items ≡ causes.old.items ++ other_keys (map key_of keys.now) 0 (members_view members.now.entries)) }
{
    let mut n = 0;
    for (name, _value) in members.iter() {
        push_where(!is_key(keys, name.as_str()), Cause::OtherKey(n), causes)?;
        n += 1;
    }
    Ok(())
}

/// Whether the name of a member of a JSON object is a key of the object's table.
fn is_key(keys: &[Key], name: &str) -> bool
    ensures { result ≡ list_any (λ key. bytes_eq name.now key.name) (map key_of keys.now) }
{
    is_among(keys, name)
}

/// Goes over the keys of an object's table, and tells whether the text of one is this name.
fn is_among(keys: &[Key], name: &str) -> bool
    ensures { result ≡ list_any (λ key. bytes_eq name.now (name_of key.name)) keys.now }
{
    keys.iter().any(|key| name == key.name.text())
}

/// Adds a cause for each key of an object's table that must be there and that the JSON value lacks.
fn push_no_keys(keys: &[Key], value: &Value, causes: &mut Vec<Cause>) -> Result<(), AllocError>
    ensures { OnOk result (causes.new.items ≡ causes.old.items ++ no_keys 0 (map key_of keys.now) (view value.now)) }
{
    for (n, key) in keys.iter().enumerate() {
        push_where(lacks(key, value), Cause::NoKey(n), causes)?;
    }
    Ok(())
}

/// Whether a key must be there and is absent.
fn lacks(key: &Key, value: &Value) -> bool
    ensures { result ≡ (key.now.needed && is_none (get (name_of key.now.name) (view value.now))) }
{
    key.needed && value.get(key.name.text()).is_none()
}

/// What is wrong with a JSON value that should be a kind, an action or a tree: its word or its length, and of a tree its depth.
fn of_choice(alloc: Global, value: &Value, choice: Choice) -> Result<Vec<Cause>, AllocError>
    ensures { IfOk result (λ causes. causes.items ≡ own (one_of (choice_of choice)) (view value.now)) }
{
    let mut causes = at_most_one(alloc, of_word(value, choice))?;
    if choice == Choice::Tree && is_deeper(value, DEEPEST_TREE) {
        causes.push(Cause::Depth)?;
    }
    Ok(causes)
}

/// How deep a tree may go.
const DEEPEST_TREE: u32 = 16;

/// What is wrong at the front of a kind, an action or a tree of JSON: an unknown word, or too few or too many parts behind it.
#[tactic(auto, using(crate::proofs::Sizes::length_by_map))]
fn of_word(value: &Value, choice: Choice) -> Option<Cause>
    ensures { option_to_list result ≡ of_word (asked (choice_of choice) (view value.now)) (view value.now) }
{
    match asked_parts(value, choice) {
        Some(parts) => of_size(value, parts.len() + 1),
        None => Some(Cause::OtherWord),
    }
}

/// What should stand behind the word at the front.
pub(crate) fn asked_parts(value: &Value, choice: Choice) -> Option<&'static [Wanted]>
    ensures { option_map (λ parts. map form_of parts.now) result ≡ asked (choice_of choice) (view value.now) }
{
    match value.get(0usize).and_then(Value::as_str) {
        Some(word) => parts_of(choice, word),
        None => None,
    }
}
