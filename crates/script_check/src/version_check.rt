//! The actions that the version of a script has not.
ghost use Rattle.std.specs.Prelude.{◌≡◌, ◌++◌, map, OnOk};
ghost use Rattle.serde_json.specs.View.{view};
ghost use Rattle.script_check.specs.VersionFaults.{gives_from, gives_of, version_faults};
ghost use Rattle.script_check.specs.Seen.{found_of};
ghost use Rattle.script_check.specs.Views.{name_of};

use crate::action_check::push_at;
use crate::fault::{Cause, Fault};
use crate::place::{Place, Step};
use crate::tables::Name;
use crate::wanted::{Choice, Wanted};
use loop_script::{begins_give, is_version_2, items_of};
use serde_json::Value;
use std::alloc::{AllocError, Global};

/// Adds a fault for each `give` of a script whose version is not 2.
pub(crate) fn push_version_faults(
    alloc: Global,
    script: &Value,
    faults: &mut Vec<Fault>,
) -> Result<(), AllocError>
    ensures { OnOk result (map found_of faults.new.items ≡ map found_of faults.old.items ++ version_faults (view script.now)) }
{
    if !is_version_2(script) {
        let lanes = items_of(script.get("lanes"));
        push_gives_of(alloc, Name::Lanes, Name::Start, lanes, faults)?;
        let procs = items_of(script.get("procs"));
        push_gives_of(alloc, Name::Procs, Name::Do, procs, faults)?;
    }
    Ok(())
}

/// Adds a fault for each action of the lists under a key of lanes or procedures that begins with `give`.
fn push_gives_of(
    alloc: Global,
    name: Name,
    actions: Name,
    owners: &[Value],
    faults: &mut Vec<Fault>,
) -> Result<(), AllocError>
    ensures { OnOk result (map found_of faults.new.items ≡ map found_of faults.old.items ++ gives_of (name_of name) (name_of actions) 0 (map view owners.now)) }
{
    for (n, owner) in owners.iter().enumerate() {
        let mut place = Place::of(alloc, &[Step::Key(name), Step::Item(n), Step::Key(actions)])?;
        push_gives(
            alloc,
            items_of(owner.get(actions.text())),
            &mut place,
            faults,
        )?;
    }
    Ok(())
}

/// Adds a fault for each action of a list, in JSON not read yet, that begins with `give`, which only version 2 has.
fn push_gives(
    alloc: Global,
    actions: &[Value],
    place: &mut Place,
    faults: &mut Vec<Fault>,
) -> Result<(), AllocError>
    ensures faults { OnOk result (map found_of faults.new.items ≡ map found_of faults.old.items ++ gives_from place.old 0 (map view actions.now)) }
    ensures place { OnOk result (place.new ≡ place.old) }
{
    for (n, action) in actions.iter().enumerate() {
        if begins_give(action) {
            push_at(
                alloc,
                Step::Item(n),
                Wanted::OneOf(Choice::Action),
                Cause::OtherVersion,
                place,
                faults,
            )?;
        }
    }
    Ok(())
}
