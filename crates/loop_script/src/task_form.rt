//! Reading the tasks of a script from their values.
ghost use Rattle.std.specs.Prelude.{◌≡◌, IfOk, OnOk};
ghost use Rattle.loop_script.specs.Read.{after};
ghost use Rattle.loop_script.specs.TaskForm.{task_spec, shallow_tree, priority_or_zero};
ghost use Rattle.loop_script.specs.Seen.{seen};

use crate::faults::Faults;
use crate::number::{index_number, optional_flag, optional_index, priority_number};
use crate::object::only_keys;
use crate::part::field_of;
use crate::task::TaskSpec;
use crate::tree::{Branch, TaskTree};
use crate::tree_form::read_tree;
use serde_json::Value;
use std::alloc::{AllocError, Global};

/// The task of an object.
#[tactic(auto, unfolding(crate::specs::TaskForm::task_spec))]
pub(crate) fn read_task(
    alloc: Global,
    value: Option<&Value>,
    faults: &mut Faults,
) -> Result<TaskSpec, AllocError>
    ensures value { IfOk result (λ t. t ≡ (task_spec (seen value.entry)).value) }
    ensures faults { OnOk result (faults.new ≡ after faults.old (task_spec (seen value.entry))) }
{
    only_keys(
        value,
        &[
            "tree",
            "call",
            "cancel",
            "check",
            "return_on_cancel",
            "priority",
        ],
        faults,
    );
    let tree = read_shallow_tree(alloc, field_of(value, "tree"), faults)?;
    let call = index_number(field_of(value, "call"), faults);
    let cancel = optional_index(field_of(value, "cancel"), faults);
    let check = optional_flag(field_of(value, "check"), true, faults);
    let return_on_cancel = optional_flag(field_of(value, "return_on_cancel"), false, faults);
    let priority = read_task_priority(field_of(value, "priority"), faults);
    Ok(TaskSpec {
        tree: TaskTree::new(alloc, tree)?,
        call,
        cancel,
        check,
        return_on_cancel,
        priority,
    })
}

/// A tree of depth 1 to 16, judged once it is read: faults of shape below that depth count too.
#[tactic(auto, unfolding(crate::specs::TaskForm::shallow_tree))]
fn read_shallow_tree(
    alloc: Global,
    value: Option<&Value>,
    faults: &mut Faults,
) -> Result<Branch, AllocError>
    ensures value { IfOk result (λ t. t ≡ (shallow_tree (seen value.entry)).value) }
    ensures faults { OnOk result (faults.new ≡ after faults.old (shallow_tree (seen value.entry))) }
{
    let tree = read_tree(alloc, value, faults)?;
    if tree.fits(16) {
        Ok(tree)
    } else {
        faults.limit = true;
        Ok(Branch::fail())
    }
}

/// Reads the key `priority` of a task, which is that of its reply, and 0 where it is absent.
#[tactic(auto, unfolding(crate::specs::TaskForm::priority_or_zero))]
fn read_task_priority(value: Option<&Value>, faults: &mut Faults) -> i32
    ensures value { result ≡ (priority_or_zero (seen value.entry)).value }
    ensures faults { faults.new ≡ after faults.old (priority_or_zero (seen value.entry)) }
{
    match value {
        None => 0,
        Some(_) => priority_number(value, faults),
    }
}
