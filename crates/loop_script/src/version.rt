//! Whether a script gives contexts (`give`) only where its version allows it: looked for in what was read of it, or in its JSON where that has faults.
ghost use Rattle.std.specs.Prelude.{◌≡◌, map, Some};
ghost use Rattle.loop_script.specs.Gives.{is_give, gives};
ghost use Rattle.loop_script.specs.Plan.{plan};
ghost use Rattle.loop_script.specs.Script.{none_seen};
ghost use Rattle.std.specs.List.{list_any};
ghost use Rattle.serde_json.specs.Find.{get};
ghost use Rattle.serde_json.specs.View.{view};
ghost use Rattle.loop_script.specs.Seen.{seen};
ghost use Rattle.loop_script.specs.Version.{is_version_2, begins_give, listed, list_gives, some_gives, gives_outside_version_2};

use crate::action::Action;
use crate::faults::Faults;
use crate::part::{field_of, word_of};
use crate::plan::{LaneSpec, Plan, Proc};
use serde_json::Value;

/// Whether some action of a script begins with the word `give`, and its version is not 2, where this was read of it with these faults.
#[tactic(auto, using(crate::proofs::GivesRead::read_with_no_fault))]
pub(crate) fn gives_too_early(script: &Value, read: &Plan, faults: Faults) -> bool
    requires plan { read.now ≡ (plan (Some (view script.now))).value }
    requires faults { faults ≡ (plan (Some (view script.now))).faults none_seen }
    ensures { result ≡ gives_outside_version_2 (view script.now) }
{
    if faults.shape || faults.limit {
        gives_outside_version_2(script)
    } else {
        !is_version_2(script) && gives(read)
    }
}

/// Whether some list of actions hands a context over.
fn gives(plan: &Plan) -> bool
    ensures { result ≡ gives plan.now }
{
    some_lane_gives(plan.lanes.as_slice()) || some_proc_gives(plan.procs.as_slice())
}

/// Whether the start list of some lane that was read has a `give`.
fn some_lane_gives(lanes: &[LaneSpec]) -> bool
    ensures { result ≡ list_any (λ l. list_any is_give l.start) lanes.now }
{
    lanes.iter().any(|lane| some_give(lane.start.as_slice()))
}

/// Whether the list of some procedure that was read has a `give`.
fn some_proc_gives(procs: &[Proc]) -> bool
    ensures { result ≡ list_any (λ q. list_any is_give q.actions) procs.now }
{
    procs.iter().any(|proc| some_give(proc.actions.as_slice()))
}

/// Whether some action of a list that was read is a `give`.
fn some_give(actions: &[Action]) -> bool
    ensures { result ≡ list_any is_give actions.now }
{
    actions.iter().any(is_give)
}

/// Whether an action hands a context over.
fn is_give(action: &Action) -> bool
    ensures { result ≡ is_give action.now }
{
    matches!(action, Action::Give { .. })
}

/// Whether some action of a script begins with the word `give`, and its version is not 2.
fn gives_outside_version_2(script: &Value) -> bool
    ensures { result ≡ gives_outside_version_2 (view script.now) }
{
    !is_version_2(script)
        && (some_gives(script.get("lanes"), "start") || some_gives(script.get("procs"), "do"))
}

/// Whether the version that a script tells is 2.
pub fn is_version_2(script: &Value) -> bool
    ensures { result ≡ is_version_2 (view script.now) }
{
    match script.get("version").and_then(Value::as_u64) {
        Some(version) => version == 2,
        None => false,
    }
}

/// Whether some action under a key of the lanes or procedures of a JSON value begins with the word `give`.
fn some_gives(owners: Option<&Value>, key: &str) -> bool
    ensures { result ≡ some_gives key.now (seen owners.entry) }
{
    any_list_gives(items_of(owners), key)
}

/// Whether some action under a key of these lanes or procedures, in JSON not read yet, begins with the word `give`.
fn any_list_gives(owners: &[Value], key: &str) -> bool
    ensures { result ≡ list_any (λ owner. list_gives (get key.now (view owner))) owners.now }
{
    owners
        .iter()
        .any(|owner| list_gives(field_of(Some(owner), key)))
}

/// Whether a JSON value is a list of which some action begins with the word `give`.
fn list_gives(actions: Option<&Value>) -> bool
    ensures { result ≡ list_gives (seen actions.entry) }
{
    any_begins_give(items_of(actions))
}

/// Whether some action of a list, in JSON not read yet, begins with the word `give`.
fn any_begins_give(actions: &[Value]) -> bool
    ensures { result ≡ list_any (λ action. begins_give (view action)) actions.now }
{
    actions.iter().any(|action| begins_give(action))
}

/// Whether an action begins with the word `give`.
pub fn begins_give(action: &Value) -> bool
    ensures { result ≡ begins_give (view action.now) }
{
    word_of(Some(action)) == "give"
}

/// The items of a list; none of what is no list.
#[tactic(auto, using(crate::proofs::Gives::items_viewed))]
pub fn items_of(list: Option<&Value>) -> &[Value]
    ensures { map view result.now ≡ listed (seen list.entry) }
{
    match list.and_then(Value::as_array) {
        Some(items) => items.as_slice(),
        None => &[],
    }
}
