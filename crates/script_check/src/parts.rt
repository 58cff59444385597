//! The parts of a value of a script, each with what should stand there.
ghost use Rattle.std.specs.Prelude.{◌≡◌, ◌≤◌, ◌++◌, map, IfOk, OnOk};
ghost use Rattle.serde_json.specs.View.{view, items_view};
ghost use Rattle.serde_json.specs.Find.{as_array};
ghost use Rattle.loop_script.specs.Tables.{keys, pair_parts};
ghost use Rattle.script_check.specs.Parts.{parts, there, items_from, items_in, from, under_keys, behind};
ghost use Rattle.script_check.specs.Views.{object_of, choice_of, form_of, shape_of, key_of, step_of};
ghost use Rattle.loop_script.specs.Seen.{seen};
ghost use Rattle.script_check.specs.Seen.{part_view};

use crate::own::asked_parts;
use crate::place::Step;
use crate::shape::Shape;
use crate::tables::{Key, keys_of};
use crate::wanted::{Object, Wanted};
use serde_json::Value;
use std::alloc::{AllocError, Global};

/// A part of a value.
#[derive(Clone, Copy)]
pub(crate) struct PartOf<'v> {
    pub step: Step,
    pub wanted: Wanted,
    pub value: &'v Value,
}

/// The parts of a value that should have this form, in order.
pub(crate) fn parts_in<'v>(
    alloc: Global,
    shape: Shape,
    value: &'v Value,
) -> Result<Vec<PartOf<'v>>, AllocError>
    ensures { IfOk result (λ found. map part_view found.items ≡ parts (shape_of shape) (view value.now)) }
{
    match shape {
        Shape::List(_, _, each) => items_of(alloc, each, value),
        Shape::Lanes(_, _, _) => items_of(alloc, Wanted::An(Object::Lane), value),
        Shape::Pair => parts_from(alloc, &[Wanted::Tick, Wanted::Bits], 0, value),
        Shape::An(object) => members_of(alloc, keys_of(object), value),
        Shape::OneOf(choice) => match asked_parts(value, choice) {
            Some(wanted) => parts_from(alloc, wanted, 1, value),
            None => Ok(Vec::new(alloc)),
        },
        _ => Ok(Vec::new(alloc)),
    }
}

/// The parts of a JSON value that should be a list: its items, in each of which the same should stand; none of what is no list.
fn items_of<'v>(
    alloc: Global,
    each: Wanted,
    value: &'v Value,
) -> Result<Vec<PartOf<'v>>, AllocError>
    ensures { IfOk result (λ found. map part_view found.items ≡ items_in (form_of each) (as_array (view value.now))) }
{
    match value.as_array() {
        Some(items) => items_as_parts(alloc, each, items.as_slice()),
        None => Ok(Vec::new(alloc)),
    }
}

/// Makes a part of each item of a JSON list, with the step to it, and what should stand there.
fn items_as_parts<'v>(
    alloc: Global,
    each: Wanted,
    items: &'v [Value],
) -> Result<Vec<PartOf<'v>>, AllocError>
    ensures { IfOk result (λ found. map part_view found.items ≡ items_from 0 (form_of each) (items_view items.now)) }
{
    let mut found = Vec::with_capacity(alloc, items.len())?;
    for (n, item) in items.iter().enumerate() {
        found.push(PartOf {
            step: Step::Item(n),
            wanted: each,
            value: item,
        })?;
    }
    Ok(found)
}

/// Adds a part, where it is there.
fn push_part<'v>(
    step: Step,
    wanted: Wanted,
    value: Option<&'v Value>,
    found: &mut Vec<PartOf<'v>>,
) -> Result<(), AllocError>
    ensures { OnOk result (map part_view found.new.items ≡ map part_view found.old.items ++ there (step_of step) (form_of wanted) (seen value.entry)) }
{
    if let Some(value) = value {
        found.push(PartOf {
            step,
            wanted,
            value,
        })?;
    }
    Ok(())
}

/// The parts of a list from the n-th on, as far as they are there.
fn parts_from<'v>(
    alloc: Global,
    wanted: &[Wanted],
    first: usize,
    value: &'v Value,
) -> Result<Vec<PartOf<'v>>, AllocError>
    requires { first ≤ 1 }
    ensures { IfOk result (λ found. map part_view found.items ≡ from first (map form_of wanted.now) (view value.now)) }
{
    let mut found = Vec::new(alloc);
    for (n, each) in wanted.iter().enumerate() {
        push_part(
            Step::Item(first + n),
            *each,
            value.get(first + n),
            &mut found,
        )?;
    }
    Ok(found)
}

/// The parts of a JSON value that should be an object: what it has under the keys of a table, in the order of the table.
fn members_of<'v>(
    alloc: Global,
    keys: &[Key],
    value: &'v Value,
) -> Result<Vec<PartOf<'v>>, AllocError>
    ensures { IfOk result (λ found. map part_view found.items ≡ under_keys (map key_of keys.now) (view value.now)) }
{
    let mut found = Vec::new(alloc);
    for key in keys {
        push_part(
            Step::Key(key.name),
            key.wanted,
            value.get(key.name.text()),
            &mut found,
        )?;
    }
    Ok(found)
}
