//! What an action, a source or a task names that the script has not.
ghost use Rattle.std.specs.Prelude.{◌≡◌, ◌++◌, ◌∷◌, [], map, OnOk};
ghost use Rattle.script_check.specs.PlanFaults.{fault, missing, option_missing, kind_missing, source_missing, task_missing, action_missing};
ghost use Rattle.script_check.specs.Seen.{found_of};
ghost use Rattle.script_check.specs.Views.{form_of, step_of};

use crate::counts::{Counts, Sort};
use crate::fault::{Cause, Fault};
use crate::place::{Place, Step};
use crate::tables::Name;
use crate::wanted::Wanted;
use loop_script::{Action, Kind, SourceSpec, TaskSpec};
use std::alloc::{AllocError, Global};

/// Adds a fault at a step from a place.
pub(crate) fn push_at(
    alloc: Global,
    step: Step,
    wanted: Wanted,
    cause: Cause,
    place: &mut Place,
    faults: &mut Vec<Fault>,
) -> Result<(), AllocError>
    ensures faults { OnOk result (map found_of faults.new.items ≡ map found_of faults.old.items ++ fault (place.old ++ step_of step ∷ []) (form_of wanted) cause) }
    ensures place { OnOk result (place.new ≡ place.old) }
{
    place.enter(step)?;
    faults.push(Fault {
        place: place.copy(alloc)?,
        wanted,
        cause,
    })?;
    place.leave();
    Ok(())
}

/// Adds a fault where a number at a step from a place names nothing of its sort in the script.
pub(crate) fn check_number(
    alloc: Global,
    counts: &Counts,
    sort: Sort,
    number: u32,
    step: Step,
    place: &mut Place,
    faults: &mut Vec<Fault>,
) -> Result<(), AllocError>
    ensures faults { OnOk result (map found_of faults.new.items ≡ map found_of faults.old.items ++ missing counts.now sort (place.old ++ step_of step ∷ []) number) }
    ensures place { OnOk result (place.new ≡ place.old) }
{
    let count = counts.count(sort);
    if u64::from(number) < count {
        return Ok(());
    }
    push_at(
        alloc,
        step,
        sort.wanted(),
        Cause::Missing(count),
        place,
        faults,
    )
}

/// Adds a fault at a step from a place, where a number that may be absent names nothing of its sort in the script.
fn check_option(
    alloc: Global,
    counts: &Counts,
    sort: Sort,
    number: Option<u32>,
    step: Step,
    place: &mut Place,
    faults: &mut Vec<Fault>,
) -> Result<(), AllocError>
    ensures faults { OnOk result (map found_of faults.new.items ≡ map found_of faults.old.items ++ option_missing counts.now sort (place.old ++ step_of step ∷ []) number) }
    ensures place { OnOk result (place.new ≡ place.old) }
{
    match number {
        Some(number) => check_number(alloc, counts, sort, number, step, place, faults),
        None => Ok(()),
    }
}

/// Adds a fault where the script lacks the descriptor or the cancellable that a source's kind, at this place, names.
fn check_kind(
    alloc: Global,
    counts: &Counts,
    kind: Kind,
    place: &mut Place,
    faults: &mut Vec<Fault>,
) -> Result<(), AllocError>
    ensures faults { OnOk result (map found_of faults.new.items ≡ map found_of faults.old.items ++ kind_missing counts.now place.old kind) }
    ensures place { OnOk result (place.new ≡ place.old) }
{
    match kind {
        Kind::Idle => Ok(()),
        Kind::Timeout(_) => Ok(()),
        Kind::ReadyTime(_) => Ok(()),
        Kind::Fd(fd, _) => check_number(
            alloc,
            counts,
            Sort::Descriptor,
            fd,
            Step::Item(1),
            place,
            faults,
        ),
        Kind::Cancel(c) => check_number(
            alloc,
            counts,
            Sort::Cancellable,
            c,
            Step::Item(1),
            place,
            faults,
        ),
    }
}

/// Adds the faults of a source at a step from a place: the script lacks the procedure that it calls, or what its kind names.
fn check_source(
    alloc: Global,
    counts: &Counts,
    source: SourceSpec,
    step: Step,
    place: &mut Place,
    faults: &mut Vec<Fault>,
) -> Result<(), AllocError>
    ensures faults { OnOk result (map found_of faults.new.items ≡ map found_of faults.old.items ++ source_missing counts.now (place.old ++ step_of step ∷ []) source) }
    ensures place { OnOk result (place.new ≡ place.old) }
{
    place.enter(step)?;
    check_option(
        alloc,
        counts,
        Sort::Proc,
        source.call,
        Step::Key(Name::Call),
        place,
        faults,
    )?;
    place.enter(Step::Key(Name::Kind))?;
    check_kind(alloc, counts, source.kind, place, faults)?;
    place.leave();
    place.leave();
    Ok(())
}

/// Adds the faults of a task at a step from a place: the script lacks the procedure of its reply, or its cancellable.
fn check_task(
    alloc: Global,
    counts: &Counts,
    task: &TaskSpec,
    step: Step,
    place: &mut Place,
    faults: &mut Vec<Fault>,
) -> Result<(), AllocError>
    ensures faults { OnOk result (map found_of faults.new.items ≡ map found_of faults.old.items ++ task_missing counts.now (place.old ++ step_of step ∷ []) task.now) }
    ensures place { OnOk result (place.new ≡ place.old) }
{
    place.enter(step)?;
    check_number(
        alloc,
        counts,
        Sort::Proc,
        task.call,
        Step::Key(Name::Call),
        place,
        faults,
    )?;
    check_option(
        alloc,
        counts,
        Sort::Cancellable,
        task.cancel,
        Step::Key(Name::Cancel),
        place,
        faults,
    )?;
    place.leave();
    Ok(())
}

/// Adds a fault for each thing that an action names and the script has not.
pub(crate) fn check_references(
    alloc: Global,
    counts: &Counts,
    action: &Action,
    place: &mut Place,
    faults: &mut Vec<Fault>,
) -> Result<(), AllocError>
    ensures faults { OnOk result (map found_of faults.new.items ≡ map found_of faults.old.items ++ action_missing counts.now place.old action.now) }
    ensures place { OnOk result (place.new ≡ place.old) }
{
    let one = Step::Item(1);
    match action {
        Action::Attach { context, spec, .. } => {
            check_number(alloc, counts, Sort::Context, *context, one, place, faults)?;
            check_source(alloc, counts, *spec, Step::Item(3), place, faults)
        }
        Action::Child { spec, .. } => check_source(
            alloc,
            counts,
            *spec,
            Step::Item(3),
            place,
            faults,
        ),
        Action::Iterate(context) => check_number(
            alloc,
            counts,
            Sort::Context,
            *context,
            one,
            place,
            faults,
        ),
        Action::Pending(context) => check_number(
            alloc,
            counts,
            Sort::Context,
            *context,
            one,
            place,
            faults,
        ),
        Action::Push(context) => check_number(
            alloc,
            counts,
            Sort::Context,
            *context,
            one,
            place,
            faults,
        ),
        Action::Pop(context) => check_number(
            alloc,
            counts,
            Sort::Context,
            *context,
            one,
            place,
            faults,
        ),
        Action::Acquire(context) => check_number(
            alloc,
            counts,
            Sort::Context,
            *context,
            one,
            place,
            faults,
        ),
        Action::Release(context) => check_number(
            alloc,
            counts,
            Sort::Context,
            *context,
            one,
            place,
            faults,
        ),
        Action::Run(number) => check_number(alloc, counts, Sort::Loop, *number, one, place, faults),
        Action::Quit(number) => check_number(
            alloc,
            counts,
            Sort::Loop,
            *number,
            one,
            place,
            faults,
        ),
        Action::Cancel(c) => check_number(alloc, counts, Sort::Cancellable, *c, one, place, faults),
        Action::Connect {
            cancellable,
            proc,
            ..
        } => {
            check_number(
                alloc,
                counts,
                Sort::Cancellable,
                *cancellable,
                one,
                place,
                faults,
            )?;
            check_number(
                alloc,
                counts,
                Sort::Proc,
                *proc,
                Step::Item(3),
                place,
                faults,
            )
        }
        Action::Task(task) => check_task(alloc, counts, task, one, place, faults),
        Action::Invoke { context, proc } => {
            check_number(alloc, counts, Sort::Context, *context, one, place, faults)?;
            check_number(
                alloc,
                counts,
                Sort::Proc,
                *proc,
                Step::Item(2),
                place,
                faults,
            )
        }
        Action::Give { context, lane } => {
            check_number(alloc, counts, Sort::Context, *context, one, place, faults)?;
            check_number(
                alloc,
                counts,
                Sort::Lane,
                *lane,
                Step::Item(2),
                place,
                faults,
            )
        }
        Action::Destroy(_) => Ok(()),
        Action::SetReady(_, _) => Ok(()),
        Action::SetPriority(_, _) => Ok(()),
        Action::Disconnect(_) => Ok(()),
        Action::ShowDefault => Ok(()),
        Action::Log(_) => Ok(()),
    }
}
