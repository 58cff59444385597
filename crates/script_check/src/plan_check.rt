//! The faults of references and of rules in a script whose shape and limits are right.
ghost use Rattle.std.specs.Prelude.{◌≡◌, ◌≤◌, ◌++◌, ◌∷◌, [], length, map, IfOk, OnOk};
ghost use Rattle.script_check.specs.Found.{nth};
ghost use Rattle.script_check.specs.PlanFaults.{plan_faults, action_missing, action_broken, in_lanes, in_procs, in_actions, in_loops, in_fds, not_above, not_rising};
ghost use Rattle.script_check.specs.Seen.{found_of};

use crate::action_check::{check_number, check_references, push_at};
use crate::counts::{Counts, Sort};
use crate::fault::{Cause, Fault};
use crate::place::{Place, Step};
use crate::rule_check::check_rules;
use crate::tables::Name;
use crate::wanted::Wanted;
use loop_script::{Action, Items, LaneSpec, Level, Plan, Proc};
use std::alloc::{AllocError, Global};

/// The faults of references and of rules in a script.
#[tactic(auto, unfolding(crate::specs::PlanFaults::plan_faults))]
pub fn plan_faults(alloc: Global, plan: &Plan) -> Result<Vec<Fault>, AllocError>
    requires { length plan.now.lanes ≤ 64 }
    ensures { IfOk result (λ faults. map found_of faults.items ≡ plan_faults plan.now) }
{
    let counts = Counts::of(plan);
    let procs = plan.procs.as_slice();
    let mut faults = Vec::new(alloc);
    check_lanes(alloc, &counts, procs, plan.lanes.as_slice(), &mut faults)?;
    check_fds(alloc, plan.fds.as_slice(), &mut faults)?;
    check_loops(alloc, &counts, plan.loops.as_slice(), &mut faults)?;
    check_procs(alloc, &counts, procs, procs, &mut faults)?;
    Ok(faults)
}

/// Adds the faults of references and of rules of each action of a list, which stands at a place.
fn check_actions(
    alloc: Global,
    counts: &Counts,
    procs: &[Proc],
    actions: &[Action],
    place: &mut Place,
    faults: &mut Vec<Fault>,
) -> Result<(), AllocError>
    ensures faults { OnOk result (map found_of faults.new.items ≡ map found_of faults.old.items ++ in_actions counts.now procs.now place.old 0 actions.now) }
    ensures place { OnOk result (place.new ≡ place.old) }
{
    for (n, action) in actions.iter().enumerate() {
        check_action(alloc, counts, procs, action, n, place, faults)?;
    }
    Ok(())
}

/// Adds the faults of references and of rules of the n-th action of a list.
fn check_action(
    alloc: Global,
    counts: &Counts,
    procs: &[Proc],
    action: &Action,
    n: usize,
    place: &mut Place,
    faults: &mut Vec<Fault>,
) -> Result<(), AllocError>
    ensures faults { OnOk result (map found_of faults.new.items ≡ map found_of faults.old.items ++ (action_missing counts.now (place.old ++ nth n ∷ []) action.now ++ action_broken procs.now (place.old ++ nth n ∷ []) action.now)) }
    ensures place { OnOk result (place.new ≡ place.old) }
{
    place.enter(Step::Item(n))?;
    check_references(alloc, counts, action, place, faults)?;
    check_rules(alloc, procs, action, place, faults)?;
    place.leave();
    Ok(())
}

/// Adds the faults of references and of rules of the actions in the start list of each lane.
fn check_lanes(
    alloc: Global,
    counts: &Counts,
    procs: &[Proc],
    lanes: &[LaneSpec],
    faults: &mut Vec<Fault>,
) -> Result<(), AllocError>
    ensures { OnOk result (map found_of faults.new.items ≡ map found_of faults.old.items ++ in_lanes counts.now procs.now 0 lanes.now) }
{
    for (n, lane) in lanes.iter().enumerate() {
        let mut place = Place::of(
            alloc,
            &[
                Step::Key(Name::Lanes),
                Step::Item(n),
                Step::Key(Name::Start),
            ],
        )?;
        check_actions(
            alloc,
            counts,
            procs,
            lane.start.as_slice(),
            &mut place,
            faults,
        )?;
    }
    Ok(())
}

/// Adds the faults of references and of rules of the actions of some procedures, `procs` being all of them.
fn check_procs(
    alloc: Global,
    counts: &Counts,
    procs: &[Proc],
    some: &[Proc],
    faults: &mut Vec<Fault>,
) -> Result<(), AllocError>
    ensures { OnOk result (map found_of faults.new.items ≡ map found_of faults.old.items ++ in_procs counts.now procs.now 0 some.now) }
{
    for (n, proc) in some.iter().enumerate() {
        let mut place = Place::of(
            alloc,
            &[Step::Key(Name::Procs), Step::Item(n), Step::Key(Name::Do)],
        )?;
        check_actions(
            alloc,
            counts,
            procs,
            proc.actions.as_slice(),
            &mut place,
            faults,
        )?;
    }
    Ok(())
}

/// Adds a fault of reference for each loop whose context the script has not.
fn check_loops(
    alloc: Global,
    counts: &Counts,
    loops: &[u32],
    faults: &mut Vec<Fault>,
) -> Result<(), AllocError>
    ensures { OnOk result (map found_of faults.new.items ≡ map found_of faults.old.items ++ in_loops counts.now 0 loops.now) }
{
    let mut place = Place::of(alloc, &[Step::Key(Name::Loops)])?;
    for (n, context) in loops.iter().enumerate() {
        check_number(
            alloc,
            counts,
            Sort::Context,
            *context,
            Step::Item(n),
            &mut place,
            faults,
        )?;
    }
    Ok(())
}

/// Adds a fault of rule for each pair of a descriptor whose tick is not above that of the pair before.
fn check_fds(alloc: Global, fds: &[Items<Level>], faults: &mut Vec<Fault>) -> Result<(), AllocError>
    ensures { OnOk result (map found_of faults.new.items ≡ map found_of faults.old.items ++ in_fds 0 fds.now) }
{
    for (n, levels) in fds.iter().enumerate() {
        let mut place = Place::of(alloc, &[Step::Key(Name::Fds), Step::Item(n)])?;
        check_levels(alloc, levels.as_slice(), &mut place, faults)?;
    }
    Ok(())
}

/// Adds the faults of the pairs of a descriptor.
fn check_levels(
    alloc: Global,
    levels: &[Level],
    place: &mut Place,
    faults: &mut Vec<Fault>,
) -> Result<(), AllocError>
    ensures { OnOk result (map found_of faults.new.items ≡ map found_of faults.old.items ++ not_rising place.old levels.now) }
{
    match levels {
        [first, rest @ ..] => check_rest(alloc, first.tick, rest, place, faults),
        [] => Ok(()),
    }
}

/// Adds the faults of the pairs of a descriptor that stand behind one of this tick.
fn check_rest(
    alloc: Global,
    first: u32,
    levels: &[Level],
    place: &mut Place,
    faults: &mut Vec<Fault>,
) -> Result<(), AllocError>
    ensures { OnOk result (map found_of faults.new.items ≡ map found_of faults.old.items ++ not_above place.old first 1 levels.now) }
{
    let mut before = first;
    let mut n = 0;
    for level in levels {
        n += 1;
        if level.tick <= before {
            push_at(
                alloc,
                Step::Item(n),
                Wanted::Pair,
                Cause::NotAbove(before),
                place,
                faults,
            )?;
        }
        before = level.tick;
    }
    Ok(())
}
