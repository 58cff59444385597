//! Reading the trees of tasks from their values.
ghost use Rattle.std.specs.Prelude.{◌≡◌, IfOk, OnOk, Some};
ghost use Rattle.serde_json.specs.View.{view};
ghost use Rattle.loop_script.specs.Read.{after};
ghost use Rattle.loop_script.specs.TreeForm.{tree, value_form, fail_form, sleep_form, check_form, seq_form, both_form, first_form, within_form};
ghost use Rattle.loop_script.specs.Seen.{seen};

use crate::bounds::LONGEST_TIME;
use crate::faults::Faults;
use crate::number::{signed_number, whole_number};
use crate::part::{check_arity, part_of, word_of};
use crate::tree::Branch;
use serde_json::Value;
use std::alloc::{AllocError, Global};

/// The tree of an array whose word says its form.
#[cycle(read_tree)]
#[tactic(auto, using(crate::proofs::Trees::tree_is))]
pub(crate) fn read_tree(
    alloc: Global,
    value: Option<&Value>,
    faults: &mut Faults,
) -> Result<Branch, AllocError>
    ensures value { IfOk result (λ t. t ≡ (tree (seen value.entry)).value) }
    ensures faults { OnOk result (faults.new ≡ after faults.old (tree (seen value.entry))) }
{
    let word = word_of(value);
    match value {
        Some(given) => match word {
            "value" => Ok(read_value(given, faults)),
            "fail" => Ok(read_fail(given, faults)),
            "sleep" => Ok(read_sleep(given, faults)),
            "check" => Ok(read_check(given, faults)),
            "seq" => read_seq(alloc, given, faults),
            "both" => read_both(alloc, given, faults),
            "first" => read_first(alloc, given, faults),
            "within" => read_within(alloc, given, faults),
            _ => {
                faults.shape = true;
                Ok(Branch::fail())
            }
        },
        None => {
            faults.shape = true;
            Ok(Branch::fail())
        }
    }
}

/// Reads the tree `["value", V]` of a task from its JSON value.
#[tactic(auto, unfolding(crate::specs::TreeForm::value_form))]
fn read_value(value: &Value, faults: &mut Faults) -> Branch
    ensures value { result ≡ (value_form (Some (view value.now))).value }
    ensures faults { faults.new ≡ after faults.old (value_form (Some (view value.now))) }
{
    check_arity(Some(value), 2, faults);
    Branch::value(signed_number(part_of(Some(value), 1), i64::MIN, i64::MAX, faults))
}

/// Reads the tree `["fail"]` of a task from its JSON value.
#[tactic(auto, unfolding(crate::specs::TreeForm::fail_form))]
fn read_fail(value: &Value, faults: &mut Faults) -> Branch
    ensures value { result ≡ (fail_form (Some (view value.now))).value }
    ensures faults { faults.new ≡ after faults.old (fail_form (Some (view value.now))) }
{
    check_arity(Some(value), 1, faults);
    Branch::fail()
}

/// Reads the tree `["sleep", US]` of a task from its JSON value.
#[tactic(auto, unfolding(crate::specs::TreeForm::sleep_form))]
fn read_sleep(value: &Value, faults: &mut Faults) -> Branch
    ensures value { result ≡ (sleep_form (Some (view value.now))).value }
    ensures faults { faults.new ≡ after faults.old (sleep_form (Some (view value.now))) }
{
    check_arity(Some(value), 2, faults);
    Branch::sleep(whole_number(part_of(Some(value), 1), 0, LONGEST_TIME, faults))
}

/// Reads the tree `["check"]` of a task from its JSON value.
#[tactic(auto, unfolding(crate::specs::TreeForm::check_form))]
fn read_check(value: &Value, faults: &mut Faults) -> Branch
    ensures value { result ≡ (check_form (Some (view value.now))).value }
    ensures faults { faults.new ≡ after faults.old (check_form (Some (view value.now))) }
{
    check_arity(Some(value), 1, faults);
    Branch::check()
}

/// Reads the tree `["seq", A, B]` of a task from its JSON value, with the two trees in it.
#[cycle(read_tree)]
#[tactic(auto, unfolding(crate::specs::TreeForm::seq_form))]
fn read_seq(alloc: Global, value: &Value, faults: &mut Faults) -> Result<Branch, AllocError>
    ensures value { IfOk result (λ t. t ≡ (seq_form (Some (view value.now))).value) }
    ensures faults { OnOk result (faults.new ≡ after faults.old (seq_form (Some (view value.now)))) }
{
    check_arity(Some(value), 3, faults);
    let first = read_tree(alloc, part_of(Some(value), 1), faults)?;
    let next = read_tree(alloc, part_of(Some(value), 2), faults)?;
    Branch::seq(alloc, first, next)
}

/// Reads the tree `["both", A, B]` of a task from its JSON value, with the two trees in it.
#[cycle(read_tree)]
#[tactic(auto, unfolding(crate::specs::TreeForm::both_form))]
fn read_both(alloc: Global, value: &Value, faults: &mut Faults) -> Result<Branch, AllocError>
    ensures value { IfOk result (λ t. t ≡ (both_form (Some (view value.now))).value) }
    ensures faults { OnOk result (faults.new ≡ after faults.old (both_form (Some (view value.now)))) }
{
    check_arity(Some(value), 3, faults);
    let one = read_tree(alloc, part_of(Some(value), 1), faults)?;
    let other = read_tree(alloc, part_of(Some(value), 2), faults)?;
    Branch::both(alloc, one, other)
}

/// Reads the tree `["first", A, B]` of a task from its JSON value, with the two trees in it.
#[cycle(read_tree)]
#[tactic(auto, unfolding(crate::specs::TreeForm::first_form))]
fn read_first(alloc: Global, value: &Value, faults: &mut Faults) -> Result<Branch, AllocError>
    ensures value { IfOk result (λ t. t ≡ (first_form (Some (view value.now))).value) }
    ensures faults { OnOk result (faults.new ≡ after faults.old (first_form (Some (view value.now)))) }
{
    check_arity(Some(value), 3, faults);
    let one = read_tree(alloc, part_of(Some(value), 1), faults)?;
    let other = read_tree(alloc, part_of(Some(value), 2), faults)?;
    Branch::first(alloc, one, other)
}

/// Reads the tree `["within", US, A]` of a task from its JSON value, with the tree in it.
#[cycle(read_tree)]
#[tactic(auto, unfolding(crate::specs::TreeForm::within_form))]
fn read_within(alloc: Global, value: &Value, faults: &mut Faults) -> Result<Branch, AllocError>
    ensures value { IfOk result (λ t. t ≡ (within_form (Some (view value.now))).value) }
    ensures faults { OnOk result (faults.new ≡ after faults.old (within_form (Some (view value.now)))) }
{
    check_arity(Some(value), 3, faults);
    let us = whole_number(part_of(Some(value), 1), 0, LONGEST_TIME, faults);
    let body = read_tree(alloc, part_of(Some(value), 2), faults)?;
    Branch::within(alloc, us, body)
}
