//! Which rule an action breaks: whether what it calls stays, or has actions that handlers may not take.
ghost use Rattle.std.specs.Prelude.{◌≡◌, ◌++◌, map, slice_get, OnOk};
ghost use Rattle.loop_script.specs.Parts.{actions_of_proc, keeps};
ghost use Rattle.loop_script.specs.Rules.{is_plain};
ghost use Rattle.script_check.specs.PlanFaults.{first_not_plain, action_broken};
ghost use Rattle.script_check.specs.Seen.{found_of};

use crate::action_check::push_at;
use crate::fault::{Cause, Fault};
use crate::place::{Place, Step};
use crate::wanted::{Object, Wanted};
use loop_script::{Action, Proc};
use std::alloc::{AllocError, Global};

/// Adds a fault for the rule that an action breaks, where it breaks one.
pub(crate) fn check_rules(
    alloc: Global,
    procs: &[Proc],
    action: &Action,
    place: &mut Place,
    faults: &mut Vec<Fault>,
) -> Result<(), AllocError>
    ensures faults { OnOk result (map found_of faults.new.items ≡ map found_of faults.old.items ++ action_broken procs.now place.old action.now) }
    ensures place { OnOk result (place.new ≡ place.old) }
{
    match action {
        Action::Connect { proc, .. } => match first_not_plain(actions_of(procs, *proc)) {
            Some(n) => push_at(
                alloc,
                Step::Item(3),
                Wanted::Proc,
                Cause::NotPlain(n),
                place,
                faults,
            ),
            None => Ok(()),
        },
        Action::Invoke { proc, .. } => if keeps(procs, *proc) {
            push_at(
                alloc,
                Step::Item(2),
                Wanted::Proc,
                Cause::Stays,
                place,
                faults,
            )
        } else {
            Ok(())
        },
        Action::Task(task) => if task.check || !task.return_on_cancel {
            Ok(())
        } else {
            push_at(
                alloc,
                Step::Item(1),
                Wanted::An(Object::Task),
                Cause::Unchecked,
                place,
                faults,
            )
        },
        _ => Ok(()),
    }
}

/// The actions of a procedure that an action connects, by its number; none for the number of no procedure.
fn actions_of(procs: &[Proc], proc: u32) -> &[Action]
    ensures { result.now ≡ actions_of_proc (slice_get procs.now proc) }
{
    match procs.get(proc as usize) {
        Some(found) => found.actions.as_slice(),
        None => &[],
    }
}

/// Whether a source stays after its first dispatch where it calls this.
fn keeps(procs: &[Proc], proc: u32) -> bool
    ensures { result ≡ keeps (slice_get procs.now proc) 1 }
{
    match procs.get(proc as usize) {
        Some(found) => match found.keep {
            Some(most) => 1 <= most,
            None => true,
        },
        None => false,
    }
}

/// The first action that no handler may hold.
fn first_not_plain(actions: &[Action]) -> Option<usize>
    ensures { result ≡ first_not_plain 0 actions.now }
{
    for (n, action) in actions.iter().enumerate() {
        if !is_plain(action) {
            return Some(n);
        }
    }
    None
}

/// Whether a handler may do this action; of one that may not a fault is told.
fn is_plain(action: &Action) -> bool
    ensures { result ≡ is_plain action.now }
{
    matches!(
        action,
        Action::Destroy(_) | Action::SetReady(_, _) | Action::Quit(_) | Action::Log(_)
    )
}
