//! Once a script was read: what its tasks come to that nobody cancels is looked for, so that no task that is started has to. It is the same script.
ghost use Rattle.std.specs.Prelude.{◌≡◌, ◌<◌, ◌≤◌, OnOk};
ghost use Rattle.loop_script.specs.Bounds.{longest_tick};

use crate::action::Action;
use crate::items::Items;
use crate::plan::{LaneSpec, Plan, Proc};
use std::alloc::{AllocError, Global};
use std::mem;

/// Looks at the tasks of a list of actions, where a tick is so many microseconds long.
fn foresee_tasks(alloc: Global, actions: &mut Items<Action>, tick_us: u64) -> Result<(), AllocError>
    requires some { 0 < tick_us }
    requires short { tick_us ≤ longest_tick }
    ensures { OnOk result (actions.new ≡ actions.old) }
{
    let mut list = mem::replace(actions, Items::from_vec(Vec::new(alloc))).into_vec();
    for action in list.iter_mut() {
        if let Action::Task(spec) = action {
            spec.tree.foresee(alloc, tick_us)?;
        }
    }
    *actions = Items::from_vec(list);
    Ok(())
}

/// Looks at the tasks of the start lists of lanes.
fn foresee_lanes(alloc: Global, lanes: &mut Items<LaneSpec>, tick_us: u64) -> Result<(), AllocError>
    requires some { 0 < tick_us }
    requires short { tick_us ≤ longest_tick }
    ensures { OnOk result (lanes.new ≡ lanes.old) }
{
    let mut list = mem::replace(lanes, Items::from_vec(Vec::new(alloc))).into_vec();
    for lane in list.iter_mut() {
        foresee_tasks(alloc, &mut lane.start, tick_us)?;
    }
    *lanes = Items::from_vec(list);
    Ok(())
}

/// Looks at the tasks of procedures.
fn foresee_procs(alloc: Global, procs: &mut Items<Proc>, tick_us: u64) -> Result<(), AllocError>
    requires some { 0 < tick_us }
    requires short { tick_us ≤ longest_tick }
    ensures { OnOk result (procs.new ≡ procs.old) }
{
    let mut list = mem::replace(procs, Items::from_vec(Vec::new(alloc))).into_vec();
    for proc in list.iter_mut() {
        foresee_tasks(alloc, &mut proc.actions, tick_us)?;
    }
    *procs = Items::from_vec(list);
    Ok(())
}

impl Plan {
    /// Looks what its tasks come to that nobody cancels; they keep that.
    pub(crate) fn foresee(&mut self, alloc: Global) -> Result<(), AllocError>
        requires some { 0 < self.old.tick_us }
        requires short { self.old.tick_us ≤ longest_tick }
        ensures { OnOk result (self.new ≡ self.old) }
    {
        foresee_lanes(alloc, &mut self.lanes, self.tick_us)?;
        foresee_procs(alloc, &mut self.procs, self.tick_us)
    }
}
