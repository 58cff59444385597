//! A script that was read, by its public calls: its times and lanes, whose a context is, a procedure's actions, a descriptor's levels, what stays.
ghost use Rattle.std.specs.Prelude.{◌≡◌, ◌≤◌, ◌<◌, ◌^◌, length, slice_get, Some, true};
ghost use Rattle.std.specs.List.{list_all};
ghost use Rattle.loop_script.specs.Bounds.{most_lanes, most_items, most_ticks, longest_tick, latest};
ghost use Rattle.loop_script.specs.Script.{Answers, IsRead, verdict};
ghost use Rattle.loop_script.specs.Limits.{IsBounded};
ghost use Rattle.loop_script.specs.Level.{rises};
ghost use Rattle.loop_script.specs.References.{sizes, action_refers};
ghost use Rattle.loop_script.specs.Rules.{action_rules};
ghost use Rattle.loop_script.specs.Parts.{time_of, start_of, actions_of_proc, actions_of, context_of, home_of, home_in, is_kept, stays, levels_of, level_of, next_change_of};

use crate::action::Action;
use crate::body::Body;
use crate::fault::ScriptFault;
use crate::faults::Faults;
use crate::level::{Level, bits_at, change_after};
use crate::plan::{LaneSpec, Plan, Proc};
use crate::references::context_count;
use crate::version::gives_too_early;
use serde_json::Value;
use std::alloc::Global;
use std::marker::Model;

/// A script that was read: within its limits, its references and its rules. Contracts see its plan.
#[derive(Drop)]
pub struct Script {
    plan: Plan,
}

impl Model for Script {
    ghost use Rattle.loop_script.specs.declared.plan.Plan.{Plan};
    ghost use Rattle.loop_script.specs.Limits.{IsScript};
    ghost use Rattle.loop_script.specs.contracts.tree.TaskTree as task_tree;
    ghost use Rattle.std.specs.Coded.{codes};

    ghost Value = { Plan };

    ghost coded = { Prim.hlevel (codes, task_tree.the_row.coded) };

    ghost view = { λ a. a.plan };

    ghost invariant = { λ a. IsScript a.plan };
}

impl Script {
    /// Reads a script. The fault is the first class of those that stand anywhere in it: not JSON, shape, limit,
    /// reference, rule. `OutOfMemory` comes only where a request for memory was refused.
    pub fn read(alloc: Global, bytes: &[u8]) -> Result<Script, ScriptFault>
        ensures { Answers bytes.now result }
    {
        let value = read_value(alloc, bytes)?;
        let mut faults = Faults {
            shape: false,
            limit: false,
        };
        let plan = Plan::read(alloc, Some(&value), &mut faults)?;
        if gives_too_early(&value, &plan, faults) {
            return Err(ScriptFault::Shape);
        }
        let mut script = judged(plan, faults)?;
        script.plan.foresee(alloc)?;
        Ok(script)
    }

    /// The version of the rules: in version 2 a child may have children and a context may be given to another lane, in version 1 neither.
    pub fn version(&self) -> u32
        ensures version { result ≡ self.now.version }
        ensures first { 1 ≤ result }
        ensures last { result ≤ 2 }
    {
        self.plan.version
    }

    /// How many ticks the script runs.
    pub fn ticks(&self) -> u32
        ensures ticks { result ≡ self.now.ticks }
        ensures few { result ≤ most_ticks }
    {
        self.plan.ticks
    }

    /// How long a tick is, in microseconds.
    pub fn tick_us(&self) -> u64
        ensures tick_us { result ≡ self.now.tick_us }
        ensures some { 0 < result }
        ensures short { result ≤ longest_tick }
    {
        self.plan.tick_us
    }

    /// The time at a tick, in microseconds.
    pub fn now(&self, tick: u32) -> u64
        ensures now { result ≡ time_of self.now tick }
        ensures small { result ≤ latest }
    {
        u64::from(tick) * self.plan.tick_us
    }

    /// How many lanes there are.
    pub fn lanes(&self) -> u32
        ensures lanes { result ≡ length self.now.lanes }
        ensures few { result ≤ most_lanes }
    {
        self.plan.lanes.as_slice().len() as u32
    }

    /// A lane.
    pub fn lane(&self, lane: u32) -> &LaneSpec
        requires { lane < length self.now.lanes }
        ensures { slice_get self.now.lanes lane ≡ Some result.now }
    {
        &self.plan.lanes.as_slice()[lane as usize]
    }

    /// How many contexts the lanes have together.
    pub fn contexts(&self) -> u32
        ensures contexts { result ≡ (sizes self.now).contexts }
        ensures few { result ≤ most_items }
    {
        context_count(self.plan.lanes.as_slice()) as u32
    }

    /// The lane that holds a context at first. Contexts are numbered on over the lanes.
    pub fn home(&self, context: u32) -> u32
        ensures { result ≡ home_of self.now context }
    {
        home_among(self.plan.lanes.as_slice(), context)
    }

    /// How many loops there are.
    pub fn loops(&self) -> u32
        ensures loops { result ≡ length self.now.loops }
        ensures few { result ≤ most_items }
    {
        self.plan.loops.as_slice().len() as u32
    }

    /// The context of a loop.
    pub fn loop_context(&self, number: u32) -> u32
        requires { number < length self.now.loops }
        ensures { result ≡ context_of self.now number }
    {
        self.plan.loops.as_slice()[number as usize]
    }

    /// How many cancellables there are.
    pub fn cancellables(&self) -> u32
        ensures cancellables { result ≡ self.now.cancellables }
        ensures few { result ≤ most_items }
    {
        self.plan.cancellables
    }

    /// What a descriptor shows at a tick: the bits of the last of its levels whose tick has come, and none before the
    /// first. A number that no descriptor has shows none.
    pub fn level(&self, fd: u32, tick: u32) -> u8
        ensures { result ≡ level_of self.now fd tick }
    {
        bits_at(self.levels(fd), tick)
    }

    /// The first tick after this one at which a descriptor's list has a level; none where the list is over.
    pub fn next_change(&self, fd: u32, tick: u32) -> Option<u32>
        ensures { result ≡ next_change_of self.now fd tick }
    {
        change_after(self.levels(fd), tick)
    }

    /// The levels of a descriptor by its number, with ticks that rise; empty for the number of no descriptor.
    #[tactic(auto, using(crate::proofs::Rising::levels_rise))]
    fn levels(&self, fd: u32) -> &[Level]
        ensures levels { result.now ≡ levels_of self.now fd }
        ensures rises { rises result.now ≡ true }
    {
        match self.plan.fds.as_slice().get(fd as usize) {
            Some(levels) => levels.as_slice(),
            None => &[],
        }
    }

    /// A procedure.
    pub fn proc(&self, proc: u32) -> &Proc
        requires { proc < length self.now.procs }
        ensures { slice_get self.now.procs proc ≡ Some result.now }
    {
        &self.plan.procs.as_slice()[proc as usize]
    }
}

impl Script {
    /// The actions of a call; none for the number of no lane or procedure. Each names what the script has,
    /// connects handlers alone, and invokes what goes after its one call.
    pub fn actions(&self, body: Body) -> &[Action]
        ensures actions { result.now ≡ actions_of self.now body }
        ensures refer { list_all (action_refers (sizes self.now)) result.now ≡ true }
        ensures rules { list_all (action_rules self.now.procs) result.now ≡ true }
    {
        match body {
            Body::Start(lane) => start_actions(self.plan.lanes.as_slice(), lane),
            Body::Procedure(proc) => proc_actions(self.plan.procs.as_slice(), proc),
            Body::Nothing => &[],
        }
    }

    /// Whether a source stays after the n-th of its dispatches, where its call takes these actions.
    pub fn stays(&self, body: Body, n: u64) -> bool
        ensures { result ≡ stays self.now body n }
    {
        match body {
            Body::Procedure(proc) => match self.plan.procs.as_slice().get(proc as usize) {
                Some(found) => is_kept(found.keep, n),
                None => false,
            },
            _ => true,
        }
    }
}

/// The start list of a lane by its number; empty for the number of no lane.
fn start_actions(lanes: &[LaneSpec], lane: u32) -> &[Action]
    ensures { result.now ≡ start_of (slice_get lanes.now lane) }
{
    match lanes.get(lane as usize) {
        Some(found) => found.start.as_slice(),
        None => &[],
    }
}

/// The list of actions of a procedure by its number; empty for the number of no procedure.
pub(crate) fn proc_actions(procs: &[Proc], proc: u32) -> &[Action]
    ensures { result.now ≡ actions_of_proc (slice_get procs.now proc) }
{
    match procs.get(proc as usize) {
        Some(found) => found.actions.as_slice(),
        None => &[],
    }
}

/// Whether a source stays after so many dispatches.
pub(crate) fn is_kept(keep: Option<u32>, n: u64) -> bool
    ensures { result ≡ is_kept keep n }
{
    match keep {
        Some(most) => n <= u64::from(most),
        None => true,
    }
}

/// The place of the lane that holds a context.
fn home_among(lanes: &[LaneSpec], context: u32) -> u32
    requires { length lanes.now ≤ most_lanes }
    ensures { result ≡ home_in 0 lanes.now context }
{
    let mut left = context;
    for (number, lane) in lanes.iter().enumerate() {
        if left < lane.contexts {
            return number as u32;
        }
        left -= lane.contexts;
    }
    lanes.len() as u32
}

/// The script of a plan that was read, or the first of its classes of fault, of which the reading has marked shape and limit.
fn judged(plan: Plan, faults: Faults) -> Result<Script, ScriptFault>
    requires { IsBounded plan }
    ensures { result ≡ verdict faults plan }
{
    if faults.shape {
        Err(ScriptFault::Shape)
    } else if faults.limit {
        Err(ScriptFault::Limit)
    } else if !plan.refers_within() {
        Err(ScriptFault::Reference)
    } else if !plan.keeps_rules() {
        Err(ScriptFault::Rule)
    } else {
        Ok(Script { plan })
    }
}

/// Reads bytes as one JSON value; other bytes are the fault `NotJson`, and a refusal of memory is `OutOfMemory`.
fn read_value(alloc: Global, bytes: &[u8]) -> Result<Value, ScriptFault>
    ensures { IsRead bytes.now result }
{
    match Value::from_slice(alloc, bytes) {
        Ok(value) => Ok(value),
        Err(e) => if e.is_memory() {
            Err(ScriptFault::OutOfMemory)
        } else {
            Err(ScriptFault::NotJson)
        },
    }
}
