//! Whether each number of a script names something of it.
ghost use Rattle.std.specs.Prelude.{◌≡◌, ◌≤◌, length, sum_by, nat_lt};
ghost use Rattle.std.specs.List.{list_all};
ghost use Rattle.loop_script.specs.Bounds.{most_lanes};
ghost use Rattle.loop_script.specs.References.{sizes, option_refers, kind_refers, action_refers, source_refers, task_refers, plan_refers};

use crate::action::Action;
use crate::plan::{LaneSpec, Plan, Proc};
use crate::source::{Kind, SourceSpec};
use crate::task::TaskSpec;

/// How many of each a script has.
#[derive(Clone, Copy)]
pub(crate) struct Sizes {
    pub lanes: usize,
    pub contexts: u64,
    pub cancellables: u32,
    pub fds: usize,
    pub loops: usize,
    pub procs: usize,
}

impl Sizes {
    /// Whether a number is a context's.
    fn has_context(&self, context: u32) -> bool
        ensures { result ≡ nat_lt context self.now.contexts }
    {
        u64::from(context) < self.contexts
    }
}

/// Whether a number that may be absent is below a size.
fn option_within(index: Option<u32>, size: u64) -> bool
    ensures { result ≡ option_refers size index }
{
    match index {
        None => true,
        Some(i) => u64::from(i) < size,
    }
}

impl Kind {
    /// Whether the descriptor or the cancellable that a source's kind names is there in the script; other kinds name nothing.
    fn refers_within(self, sizes: &Sizes) -> bool
        ensures { result ≡ kind_refers sizes.now self }
    {
        match self {
            Kind::Idle | Kind::Timeout(_) | Kind::ReadyTime(_) => true,
            Kind::Fd(fd, _) => (fd as usize) < sizes.fds,
            Kind::Cancel(c) => c < sizes.cancellables,
        }
    }
}

impl SourceSpec {
    /// Whether the procedure that a source calls, and what its kind names, are there in the script.
    fn refers_within(&self, sizes: &Sizes) -> bool
        ensures { result ≡ source_refers sizes.now self.now }
    {
        option_within(self.call, sizes.procs as u64) && self.kind.refers_within(sizes)
    }
}

impl TaskSpec {
    /// Whether the procedure that a task's reply calls, and the task's cancellable, are there in the script.
    fn refers_within(&self, sizes: &Sizes) -> bool
        ensures { result ≡ task_refers sizes.now self.now }
    {
        (self.call as usize) < sizes.procs
            && option_within(self.cancel, u64::from(sizes.cancellables))
    }
}

impl Action {
    /// Whether an action, with the source or task in it, names only contexts, loops, procedures and so on that the script has.
    fn refers_within(&self, sizes: &Sizes) -> bool
        ensures { result ≡ action_refers sizes.now self.now }
    {
        match self {
            Action::Attach { context, spec, .. } => {
                sizes.has_context(*context) && spec.refers_within(sizes)
            }
            Action::Child { spec, .. } => spec.refers_within(sizes),
            Action::Iterate(context) => sizes.has_context(*context),
            Action::Pending(context) => sizes.has_context(*context),
            Action::Push(context) => sizes.has_context(*context),
            Action::Pop(context) => sizes.has_context(*context),
            Action::Acquire(context) => sizes.has_context(*context),
            Action::Release(context) => sizes.has_context(*context),
            Action::Run(number) => (*number as usize) < sizes.loops,
            Action::Quit(number) => (*number as usize) < sizes.loops,
            Action::Cancel(c) => *c < sizes.cancellables,
            Action::Connect {
                cancellable,
                proc,
                ..
            } => { *cancellable < sizes.cancellables && (*proc as usize) < sizes.procs }
            Action::Task(spec) => spec.refers_within(sizes),
            Action::Invoke { context, proc } => {
                sizes.has_context(*context) && (*proc as usize) < sizes.procs
            }
            Action::Give { context, lane } => {
                sizes.has_context(*context) && (*lane as usize) < sizes.lanes
            }
            Action::Destroy(_) => true,
            Action::SetReady(_, _) => true,
            Action::SetPriority(_, _) => true,
            Action::Disconnect(_) => true,
            Action::ShowDefault => true,
            Action::Log(_) => true,
        }
    }
}

/// Whether each action of a list that was read names only what the script has.
fn actions_refer_within(actions: &[Action], sizes: &Sizes) -> bool
    ensures { result ≡ list_all (action_refers sizes.now) actions.now }
{
    actions.iter().all(|action| action.refers_within(sizes))
}

impl Plan {
    /// Whether each number in a script that was read names something of it, as else the class of fault is reference.
    pub(crate) fn refers_within(&self) -> bool
        requires { length self.now.lanes ≤ most_lanes }
        ensures { result ≡ plan_refers self.now }
    {
        let sizes = self.sizes();
        lanes_refer_within(self.lanes.as_slice(), &sizes)
            && procs_refer_within(self.procs.as_slice(), &sizes)
            && loops_refer_within(self.loops.as_slice(), &sizes)
    }

    /// Counts the lanes, contexts, cancellables, descriptors, loops and procedures of a script, to judge its references by.
    fn sizes(&self) -> Sizes
        requires { length self.now.lanes ≤ most_lanes }
        ensures { result ≡ sizes self.now }
    {
        Sizes {
            lanes: self.lanes.as_slice().len(),
            contexts: context_count(self.lanes.as_slice()),
            cancellables: self.cancellables,
            fds: self.fds.as_slice().len(),
            loops: self.loops.as_slice().len(),
            procs: self.procs.as_slice().len(),
        }
    }
}

/// Whether the actions in the start lists of all lanes name only what the script has.
fn lanes_refer_within(lanes: &[LaneSpec], sizes: &Sizes) -> bool
    ensures { result ≡ list_all (λ l. list_all (action_refers sizes.now) l.start) lanes.now }
{
    lanes
        .iter()
        .all(|lane| actions_refer_within(lane.start.as_slice(), sizes))
}

/// Whether the actions of all procedures name only what the script has.
fn procs_refer_within(procs: &[Proc], sizes: &Sizes) -> bool
    ensures { result ≡ list_all (λ q. list_all (action_refers sizes.now) q.actions) procs.now }
{
    procs.iter().all(|proc| actions_refer_within(proc.actions.as_slice(), sizes))
}

/// Whether the context of each loop is one of the script.
fn loops_refer_within(loops: &[u32], sizes: &Sizes) -> bool
    ensures { result ≡ list_all (λ c. nat_lt c sizes.now.contexts) loops.now }
{
    loops.iter().all(|context| sizes.has_context(*context))
}

/// How many contexts the lanes of a script have together; of 64 lanes at most.
pub fn context_count(lanes: &[LaneSpec]) -> u64
    requires { length lanes.now ≤ most_lanes }
    ensures { result ≡ sum_by (λ l. l.contexts) lanes.now }
{
    lanes.iter().map(|lane| u64::from(lane.contexts)).sum()
}
