//! Whether a script keeps the rules: levels whose ticks rise, what a handler and what is invoked at once may do, tasks that reply on a cancel.
ghost use Rattle.std.specs.Prelude.{◌≡◌};
ghost use Rattle.std.specs.List.{list_all};
ghost use Rattle.loop_script.specs.Level.{rises};
ghost use Rattle.loop_script.specs.Rules.{is_plain, is_handler, goes_at_once, action_rules, plan_rules};

use crate::action::Action;
use crate::items::Items;
use crate::level::{Level, rises};
use crate::plan::{LaneSpec, Plan, Proc};
use crate::script::{is_kept, proc_actions};

impl Plan {
    /// Whether a script that was read keeps the rules: the ticks of its descriptors rise, and each of its actions keeps its own.
    pub(crate) fn keeps_rules(&self) -> bool
        ensures { result ≡ plan_rules self.now }
    {
        let procs = self.procs.as_slice();
        all_rise(self.fds.as_slice())
            && lanes_keep_rules(self.lanes.as_slice(), procs)
            && procs_keep_rules(procs, procs)
    }
}

/// Whether the ticks in the list of each descriptor rise strictly.
fn all_rise(fds: &[Items<Level>]) -> bool
    ensures { result ≡ list_all rises fds.now }
{
    fds.iter().all(|levels| rises(levels.as_slice()))
}

/// Whether each action in the start lists of lanes keeps the rules, `procs` being all procedures of the script.
fn lanes_keep_rules(lanes: &[LaneSpec], procs: &[Proc]) -> bool
    ensures { result ≡ list_all (λ l. list_all (action_rules procs.now) l.start) lanes.now }
{
    lanes
        .iter()
        .all(|lane| actions_keep_rules(lane.start.as_slice(), procs))
}

/// Whether the actions of some procedures keep the rules, `procs` being all of them.
fn procs_keep_rules(some: &[Proc], procs: &[Proc]) -> bool
    ensures { result ≡ list_all (λ q. list_all (action_rules procs.now) q.actions) some.now }
{
    some.iter()
        .all(|proc| actions_keep_rules(proc.actions.as_slice(), procs))
}

/// Whether each action of one list keeps the rules, `procs` being all procedures of the script.
fn actions_keep_rules(actions: &[Action], procs: &[Proc]) -> bool
    ensures { result ≡ list_all (action_rules procs.now) actions.now }
{
    actions.iter().all(|action| keeps_rules(action, procs))
}

/// Whether an action that was read keeps the rule on what it connects or invokes, or on its task that returns on cancel.
fn keeps_rules(action: &Action, procs: &[Proc]) -> bool
    ensures { result ≡ action_rules procs.now action.now }
{
    match action {
        Action::Connect { proc, .. } => is_handler(procs, *proc),
        Action::Invoke { proc, .. } => goes_at_once(procs, *proc),
        Action::Task(spec) => spec.check || !spec.return_on_cancel,
        _ => true,
    }
}

/// Whether a procedure is of plain actions alone.
fn is_handler(procs: &[Proc], proc: u32) -> bool
    ensures { result ≡ is_handler procs.now proc }
{
    proc_actions(procs, proc)
        .iter()
        .all(|action| is_plain(action))
}

/// Whether a source goes after its first call of a procedure.
fn goes_at_once(procs: &[Proc], proc: u32) -> bool
    ensures { result ≡ goes_at_once procs.now proc }
{
    match procs.get(proc as usize) {
        Some(found) => !is_kept(found.keep, 1),
        None => true,
    }
}

/// Whether a handler may do this action; a script with a handler that does another is refused.
fn is_plain(action: &Action) -> bool
    ensures { result ≡ is_plain action.now }
{
    matches!(
        action,
        Action::Destroy(_) | Action::SetReady(_, _) | Action::Quit(_) | Action::Log(_)
    )
}
