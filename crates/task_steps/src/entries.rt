//! A task that is started, as an entry of the book.
ghost use Rattle.std.specs.Prelude.{◌≡◌, ◌+◌, ◌<◌, ◌≤◌, ◌^◌, IfOk};
ghost use Rattle.loop_script.specs.Bounds.{longest_tick, tick_end};
ghost use Rattle.task_steps.specs.Task.{task_of};
ghost use Rattle.task_steps.specs.Book.{started};
ghost use Rattle.task_steps.specs.declared.stage.Stage.TheVariants.{Fresh};

use crate::body::Body;
use crate::entry::Entry;
use loop_script::TaskSpec;
use std::alloc::AllocError;

/// A task that is first polled in the tick after the given one.
pub(crate) fn new_entry(
    spec: &TaskSpec,
    ctx: u32,
    tick: u32,
    number: u64,
    tick_us: u64,
) -> Result<Entry, AllocError>
    requires some { 0 < tick_us }
    requires short { tick_us ≤ longest_tick }
    requires tick { tick < tick_end }
    ensures task { IfOk result (λ e. task_of e ≡ started tick_us number spec.now ctx tick) }
    ensures stage { IfOk result (λ e. e.run.stage ≡ Fresh) }
{
    let entry = Entry {
        number,
        ctx,
        first: tick + 1,
        call: spec.call,
        priority: spec.priority,
        cancel: spec.cancel,
        check: spec.check,
        return_on_cancel: spec.return_on_cancel,
        run: Body::new(&spec.tree, tick_us)?,
    };
    Ok(entry)
}
