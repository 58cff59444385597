//! What reads a part of a script into a value, with the faults in it: one value, or a list of rows, needed or not.
ghost use Rattle.std.specs.Prelude.{◌≡◌, ◌≤◌, length, IfOk, OnOk};
ghost use Rattle.loop_script.specs.Read.{after};
ghost use Rattle.loop_script.specs.Rows.{rows, rows_or, of_length, each};
ghost use Rattle.serde_json.specs.View.{items_view};
ghost use Rattle.loop_script.specs.Seen.{seen};

use crate::faults::Faults;
use crate::items::Items;
use serde_json::Value;
use std::alloc::{AllocError, Global};

/// What a part of a script is read into.
pub(crate) trait Form: Sized {
    ghost use Rattle.std.specs.Prelude.{Option};
    ghost use Rattle.serde_json.specs.Data.{Data};
    ghost use Rattle.loop_script.specs.Read.{Read};

    /// The value of the data, and the faults in it.
    ghost form: { Option Data → Read Self };

    /// Reads a part of a script, as a lane or an action, from its JSON value, if there is one, and marks the faults in it.
    fn read(alloc: Global, value: Option<&Value>, faults: &mut Faults) -> Result<Self, AllocError>
        ensures value { IfOk result (λ x. x ≡ (form (seen value.entry)).value) }
        ensures faults { OnOk result (faults.new ≡ after faults.old (form (seen value.entry))) };
}

/// Reads a list of a script's parts that must be there, with so many at least and at most; another count is a fault of limit.
#[tactic(auto, unfolding(crate::specs::Rows::rows))]
pub(crate) fn rows_within<T: Form + Drop>(
    alloc: Global,
    value: Option<&Value>,
    low: usize,
    high: usize,
    faults: &mut Faults,
) -> Result<Items<T>, AllocError>
    ensures value { IfOk result (λ xs. xs ≡ (rows low high T.form (seen value.entry)).value) }
    ensures faults { OnOk result (faults.new ≡ after faults.old (rows low high T.form (seen value.entry))) }
    ensures few { IfOk result (λ xs. length xs ≤ high) }
{
    match value.and_then(Value::as_array) {
        Some(values) => {
            let items = read_each(alloc, values.as_slice(), faults)?;
            Ok(counted_items(alloc, items, low, high, faults))
        }
        None => {
            faults.shape = true;
            Ok(Items::from_vec(Vec::new(alloc)))
        }
    }
}

/// Reads each item of a JSON list as a part of a script, in order, however many there are.
fn read_each<T: Form + Drop>(
    alloc: Global,
    values: &[Value],
    faults: &mut Faults,
) -> Result<Items<T>, AllocError>
    ensures value { IfOk result (λ xs. xs ≡ (each T.form (items_view values.now)).value) }
    ensures faults { OnOk result (faults.new ≡ after faults.old (each T.form (items_view values.now))) }
{
    let mut items = Vec::with_capacity(alloc, values.len())?;
    for value in values {
        items.push(T::read(alloc, Some(value), faults)?)?;
    }
    Ok(Items::from_vec(items))
}

/// The parts of a list that was read, where their count is in its range; else it is a fault of limit, and the list is empty.
fn counted_items<T: Drop>(
    alloc: Global,
    items: Items<T>,
    low: usize,
    high: usize,
    faults: &mut Faults,
) -> Items<T>
    ensures value { result ≡ (of_length low high items).value }
    ensures faults { faults.new ≡ after faults.old (of_length low high items) }
    ensures few { length result ≤ high }
{
    let count = items.as_slice().len();
    if low <= count && count <= high {
        items
    } else {
        faults.limit = true;
        Items::from_vec(Vec::new(alloc))
    }
}

/// Reads a list of a script's parts that may be absent, which stands for an empty one, with so many at most.
#[tactic(auto, unfolding(crate::specs::Rows::rows_or))]
pub(crate) fn rows_or_none<T: Form + Drop>(
    alloc: Global,
    value: Option<&Value>,
    high: usize,
    faults: &mut Faults,
) -> Result<Items<T>, AllocError>
    ensures value { IfOk result (λ xs. xs ≡ (rows_or high T.form (seen value.entry)).value) }
    ensures faults { OnOk result (faults.new ≡ after faults.old (rows_or high T.form (seen value.entry))) }
    ensures few { IfOk result (λ xs. length xs ≤ high) }
{
    match value {
        None => Ok(Items::from_vec(Vec::new(alloc))),
        Some(_) => rows_within(alloc, value, 0, high, faults),
    }
}
