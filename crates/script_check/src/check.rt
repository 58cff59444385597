//! All faults of a script, gathered: first those of shape and limits, and where there are none those of references and rules.
ghost use Rattle.std.specs.Prelude.{◌≡◌, ◌++◌, map, IfOk, OnOk};
ghost use Rattle.serde_json.specs.View.{view};
ghost use Rattle.script_check.specs.Faults.{faults_in, found_at, form_faults};
ghost use Rattle.script_check.specs.ScriptFaults.{script_faults};
ghost use Rattle.script_check.specs.Own.{own};
ghost use Rattle.script_check.specs.Seen.{found_of};
ghost use Rattle.script_check.specs.Views.{form_of};

use crate::fault::Fault;
use crate::own::own_causes;
use crate::parts::parts_in;
use crate::place::Place;
use crate::plan_check::plan_faults;
use crate::version_check::push_version_faults;
use crate::wanted::{Object, Wanted};
use loop_script::Plan;
use serde_json::Value;
use std::alloc::{AllocError, Global};

/// How many levels are looked at; no value that is read nests deeper than 127.
const LEVELS: u32 = 128;

/// The faults of shape and of limits in a script: of each value its own, then those of its parts. `AllocError` comes only where a request for
/// memory was refused.
pub fn form_faults(alloc: Global, value: &Value) -> Result<Vec<Fault>, AllocError>
    ensures { IfOk result (λ faults. map found_of faults.items ≡ form_faults (view value.now)) }
{
    let mut place = Place::root(alloc);
    let mut faults = Vec::new(alloc);
    check(
        alloc,
        Wanted::An(Object::Script),
        value,
        LEVELS,
        &mut place,
        &mut faults,
    )?;
    Ok(faults)
}

/// All faults of a script: those of shape and of limits with the actions that its version has not, and where there are none, those of references and of rules.
pub fn script_faults(alloc: Global, value: &Value) -> Result<Vec<Fault>, AllocError>
    ensures { IfOk result (λ faults. map found_of faults.items ≡ script_faults (view value.now)) }
{
    let mut faults = form_faults(alloc, value)?;
    push_version_faults(alloc, value, &mut faults)?;
    if !faults.is_empty() {
        return Ok(faults);
    }
    match Plan::of_value(alloc, value)? {
        Some(plan) => plan_faults(alloc, &plan),
        None => Ok(faults),
    }
}

/// Adds the faults of a value at a place.
fn check(
    alloc: Global,
    wanted: Wanted,
    value: &Value,
    levels: u32,
    place: &mut Place,
    faults: &mut Vec<Fault>,
) -> Result<(), AllocError>
    ensures faults { OnOk result (map found_of faults.new.items ≡ map found_of faults.old.items ++ faults_in levels place.old (form_of wanted) (view value.now)) }
    ensures place { OnOk result (place.new ≡ place.old) }
{
    if levels == 0 {
        return Ok(());
    }
    push_own(alloc, wanted, value, place, faults)?;
    let parts = parts_in(alloc, wanted.shape(), value)?;
    for part in parts.as_slice() {
        place.enter(part.step)?;
        check(alloc, part.wanted, part.value, levels - 1, place, faults)?;
        place.leave();
    }
    Ok(())
}

/// Adds a fault at a place for each cause that a value itself has, its parts apart, where it should be what is wanted.
fn push_own(
    alloc: Global,
    wanted: Wanted,
    value: &Value,
    place: &Place,
    faults: &mut Vec<Fault>,
) -> Result<(), AllocError>
    ensures { OnOk result (map found_of faults.new.items ≡ map found_of faults.old.items ++ found_at place.now (form_of wanted) (own (form_of wanted) (view value.now))) }
{
    let causes = own_causes(alloc, wanted.shape(), value)?;
    for cause in causes.as_slice() {
        faults.push(Fault {
            place: place.copy(alloc)?,
            wanted,
            cause: *cause,
        })?;
    }
    Ok(())
}
