//! The faults of a script of numbers in the order of their places.
ghost use Rattle.std.specs.Prelude.{◌≡◌, map, length, IfOk, IsPermutation};
ghost use Rattle.std.specs.List.{range_with_len};
ghost use Rattle.std.specs.List.Sorted.{IsNonDecreasingBy};

use crate::layout::{Layout, Span};
use crate::lead::value_at;
use crate::words::other_key;
use script_check::{Cause, Fault, Step};
use serde_json::Value;
use std::alloc::{AllocError, Global};

/// A fault, by its place in the list of all, with the bytes of the value that it points to.
#[derive(Drop)]
pub(crate) struct Placed {
    pub span: Span,
    /// The end of the bytes that are marked: all of a value that is neither a list nor an object, else the first.
    pub marked: usize,
    pub fault: usize,
}

/// All faults, each once, by where their values begin.
pub(crate) fn in_order(
    alloc: Global,
    value: &Value,
    layout: &Layout,
    faults: &[Fault],
) -> Result<Vec<Placed>, AllocError>
    ensures all { IfOk result (λ placed. IsPermutation (range_with_len 0 (length faults.now)) (map (λ (one : Placed). one.fault) placed.items)) }
    ensures order { IfOk result (λ placed. IsNonDecreasingBy (λ (one : Placed). one.span.start) placed.items) }
{
    let mut placed = place_all(alloc, value, layout, faults)?;
    placed.sort_by_key(|one| one.span.start)?;
    Ok(placed)
}

/// All faults with their bytes, as they stand in the list.
fn place_all(
    alloc: Global,
    value: &Value,
    layout: &Layout,
    faults: &[Fault],
) -> Result<Vec<Placed>, AllocError>
    ensures { IfOk result (λ placed. map (λ (one : Placed). one.fault) placed.items ≡ range_with_len 0 (length faults.now)) }
{
    let mut placed = Vec::new(alloc);
    for number in 0..faults.len() {
        placed.push(place_one(value, layout, &faults[number], number))?;
    }
    Ok(placed)
}

/// A fault of this number with its bytes.
fn place_one(value: &Value, layout: &Layout, fault: &Fault, number: usize) -> Placed
    ensures { result.fault ≡ number }
{
    let steps = fault.place.steps();
    let at = value_at(value, steps);
    let here = walk(layout, steps);
    let target = match fault.cause {
        Cause::OtherKey(k) => match other_key(at, k).and_then(|name| here.member(name)) {
            Some(member) => member,
            None => here,
        },
        _ => here,
    };
    let span = target.span();
    let marked = if target.is_scalar() {
        span.end
    } else {
        span.start.saturating_add(1)
    };
    Placed {
        span,
        marked,
        fault: number,
    }
}

/// The layout of the value at a place.
fn walk<'l>(layout: &'l Layout, steps: &[Step]) -> &'l Layout {
    let mut here = layout;
    for step in steps {
        let next = match step {
            Step::Key(name) => here.member(name.text()),
            Step::Item(n) => here.item(*n),
        };
        if let Some(inner) = next {
            here = inner;
        }
    }
    here
}
