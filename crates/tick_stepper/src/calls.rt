//! The types of what goes to a worker that stays for a run, and of what comes back; `stay` fills them.
ghost use Rattle.std.specs.Coded.{codes};
ghost use Rattle.loop_script.specs.contracts.tree.TaskTree as task_tree;
ghost use Rattle.tick_stepper.specs.Call.{IsCall, IsReply};

use crate::share::Share;
use std::marker::{Brand, PhantomData};

/// A run, of which proofs name the script. Each run picks its own.
pub(crate) trait Planned {
    ghost use Rattle.loop_script.specs.declared.plan.Plan.{Plan};

    ghost plan: { Plan };
}

impl Planned for Brand {
    ghost use Rattle.tick_stepper.specs.Plain.{no_plan};

    ghost plan = { no_plan };
}

/// Lanes of a run before their turns at a tick: each is what it would be if one thread took all turns.
#[derive(Drop)]
pub(crate) struct Call<J: Planned> {
    pub(crate) tick: u32,
    pub(crate) share: Share,
    pub(crate) of: PhantomData<J>,
    pub(crate) ghost is: { IsCall J.plan tick share } by { Prim.hlevel (codes, task_tree.the_row.coded) },
}

/// The lanes of a call after their turns, with what they posted.
#[derive(Drop)]
pub(crate) struct Reply<J: Planned> {
    pub(crate) tick: u32,
    pub(crate) share: Share,
    pub(crate) of: PhantomData<J>,
    pub(crate) ghost is: { IsReply J.plan tick share.lanes.items share.tray } by { Prim.hlevel (codes, task_tree.the_row.coded) },
}
