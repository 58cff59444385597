//! Reading each action of a script from its value: its word, its parts.
ghost use Rattle.std.specs.Prelude.{◌≡◌, IfOk, OnOk};
ghost use Rattle.loop_script.specs.Read.{after};
ghost use Rattle.loop_script.specs.Action.{attach, child, destroy, set_ready, set_priority, iterate, pending, run, quit, cancel, connect, disconnect, task, push, pop, show_default, acquire, release, invoke, give, log, action};
ghost use Rattle.loop_script.specs.Seen.{seen};

use crate::action::Action;
use crate::faults::Faults;
use crate::form::Form;
use crate::number::{index_number, priority_number, ready_time, slot_number, whole_number};
use crate::part::{check_arity, part_of, word_of};
use crate::source::{read_child, read_source};
use crate::task_form::read_task;
use serde_json::Value;
use std::alloc::{AllocError, Global};

impl Form for Action {
    ghost use Rattle.loop_script.specs.Action.{action};

    ghost form = { action };

    /// Reads an action, as an item of a lane's start list or a procedure's list, from its JSON value.
    fn read(
        alloc: Global,
        value: Option<&Value>,
        faults: &mut Faults,
    ) -> Result<Action, AllocError> {
        read_action(alloc, value, faults)
    }
}

/// Reads an action from its JSON value by the word at its front; another word is a fault of shape, read as a `log` of 0.
#[tactic(auto, unfolding(crate::specs::Action::action))]
fn read_action(
    alloc: Global,
    value: Option<&Value>,
    faults: &mut Faults,
) -> Result<Action, AllocError>
    ensures value { IfOk result (λ a. a ≡ (action (seen value.entry)).value) }
    ensures faults { OnOk result (faults.new ≡ after faults.old (action (seen value.entry))) }
{
    match word_of(value) {
        "attach" => Ok(read_attach(value, faults)),
        "child" => Ok(read_child_action(value, faults)),
        "destroy" => Ok(read_destroy(value, faults)),
        "set_ready" => Ok(read_set_ready(value, faults)),
        "set_priority" => Ok(read_set_priority(value, faults)),
        "iterate" => Ok(read_iterate(value, faults)),
        "pending" => Ok(read_pending(value, faults)),
        "run" => Ok(read_run(value, faults)),
        "quit" => Ok(read_quit(value, faults)),
        "cancel" => Ok(read_cancel(value, faults)),
        "connect" => Ok(read_connect(value, faults)),
        "disconnect" => Ok(read_disconnect(value, faults)),
        "task" => read_task_action(alloc, value, faults),
        "push" => Ok(read_push(value, faults)),
        "pop" => Ok(read_pop(value, faults)),
        "show_default" => Ok(read_show_default(value, faults)),
        "acquire" => Ok(read_acquire(value, faults)),
        "release" => Ok(read_release(value, faults)),
        "invoke" => Ok(read_invoke(value, faults)),
        "give" => Ok(read_give(value, faults)),
        "log" => Ok(read_log(value, faults)),
        _ => {
            faults.shape = true;
            Ok(Action::Log(0))
        }
    }
}

/// Reads the action `["attach", CONTEXT, SLOT, SOURCE]` from its JSON value.
#[tactic(auto, unfolding(crate::specs::Action::attach))]
fn read_attach(value: Option<&Value>, faults: &mut Faults) -> Action
    ensures value { result ≡ (attach (seen value.entry)).value }
    ensures faults { faults.new ≡ after faults.old (attach (seen value.entry)) }
{
    check_arity(value, 4, faults);
    let context = index_number(part_of(value, 1), faults);
    let slot = slot_number(part_of(value, 2), faults);
    let spec = read_source(part_of(value, 3), faults);
    Action::Attach {
        context,
        slot,
        spec,
    }
}

/// Reads the action `["child", PARENT, SLOT, CHILD]` from its JSON value; both numbers are those of slots.
#[tactic(auto, unfolding(crate::specs::Action::child))]
fn read_child_action(value: Option<&Value>, faults: &mut Faults) -> Action
    ensures value { result ≡ (child (seen value.entry)).value }
    ensures faults { faults.new ≡ after faults.old (child (seen value.entry)) }
{
    check_arity(value, 4, faults);
    let parent = slot_number(part_of(value, 1), faults);
    let slot = slot_number(part_of(value, 2), faults);
    let spec = read_child(part_of(value, 3), faults);
    Action::Child { parent, slot, spec }
}

/// Reads the action `["destroy", SLOT]` from its JSON value.
#[tactic(auto, unfolding(crate::specs::Action::destroy))]
fn read_destroy(value: Option<&Value>, faults: &mut Faults) -> Action
    ensures value { result ≡ (destroy (seen value.entry)).value }
    ensures faults { faults.new ≡ after faults.old (destroy (seen value.entry)) }
{
    check_arity(value, 2, faults);
    Action::Destroy(slot_number(part_of(value, 1), faults))
}

/// Reads the action `["set_ready", SLOT, US]` from its JSON value.
#[tactic(auto, unfolding(crate::specs::Action::set_ready))]
fn read_set_ready(value: Option<&Value>, faults: &mut Faults) -> Action
    ensures value { result ≡ (set_ready (seen value.entry)).value }
    ensures faults { faults.new ≡ after faults.old (set_ready (seen value.entry)) }
{
    check_arity(value, 3, faults);
    let slot = slot_number(part_of(value, 1), faults);
    let us = ready_time(part_of(value, 2), faults);
    Action::SetReady(slot, us)
}

/// Reads the action `["set_priority", SLOT, PRIORITY]` from its JSON value.
#[tactic(auto, unfolding(crate::specs::Action::set_priority))]
fn read_set_priority(value: Option<&Value>, faults: &mut Faults) -> Action
    ensures value { result ≡ (set_priority (seen value.entry)).value }
    ensures faults { faults.new ≡ after faults.old (set_priority (seen value.entry)) }
{
    check_arity(value, 3, faults);
    let slot = slot_number(part_of(value, 1), faults);
    let priority = priority_number(part_of(value, 2), faults);
    Action::SetPriority(slot, priority)
}

/// Reads the action `["iterate", CONTEXT]` from its JSON value.
#[tactic(auto, unfolding(crate::specs::Action::iterate))]
fn read_iterate(value: Option<&Value>, faults: &mut Faults) -> Action
    ensures value { result ≡ (iterate (seen value.entry)).value }
    ensures faults { faults.new ≡ after faults.old (iterate (seen value.entry)) }
{
    check_arity(value, 2, faults);
    Action::Iterate(index_number(part_of(value, 1), faults))
}

/// Reads the action `["pending", CONTEXT]` from its JSON value.
#[tactic(auto, unfolding(crate::specs::Action::pending))]
fn read_pending(value: Option<&Value>, faults: &mut Faults) -> Action
    ensures value { result ≡ (pending (seen value.entry)).value }
    ensures faults { faults.new ≡ after faults.old (pending (seen value.entry)) }
{
    check_arity(value, 2, faults);
    Action::Pending(index_number(part_of(value, 1), faults))
}

/// Reads the action `["run", LOOP]` from its JSON value.
#[tactic(auto, unfolding(crate::specs::Action::run))]
fn read_run(value: Option<&Value>, faults: &mut Faults) -> Action
    ensures value { result ≡ (run (seen value.entry)).value }
    ensures faults { faults.new ≡ after faults.old (run (seen value.entry)) }
{
    check_arity(value, 2, faults);
    Action::Run(index_number(part_of(value, 1), faults))
}

/// Reads the action `["quit", LOOP]` from its JSON value.
#[tactic(auto, unfolding(crate::specs::Action::quit))]
fn read_quit(value: Option<&Value>, faults: &mut Faults) -> Action
    ensures value { result ≡ (quit (seen value.entry)).value }
    ensures faults { faults.new ≡ after faults.old (quit (seen value.entry)) }
{
    check_arity(value, 2, faults);
    Action::Quit(index_number(part_of(value, 1), faults))
}

/// Reads the action `["cancel", CANCELLABLE]` from its JSON value.
#[tactic(auto, unfolding(crate::specs::Action::cancel))]
fn read_cancel(value: Option<&Value>, faults: &mut Faults) -> Action
    ensures value { result ≡ (cancel (seen value.entry)).value }
    ensures faults { faults.new ≡ after faults.old (cancel (seen value.entry)) }
{
    check_arity(value, 2, faults);
    Action::Cancel(index_number(part_of(value, 1), faults))
}

/// Reads the action `["connect", CANCELLABLE, SLOT, PROCEDURE]` from its JSON value.
#[tactic(auto, unfolding(crate::specs::Action::connect))]
fn read_connect(value: Option<&Value>, faults: &mut Faults) -> Action
    ensures value { result ≡ (connect (seen value.entry)).value }
    ensures faults { faults.new ≡ after faults.old (connect (seen value.entry)) }
{
    check_arity(value, 4, faults);
    let cancellable = index_number(part_of(value, 1), faults);
    let slot = slot_number(part_of(value, 2), faults);
    let proc = index_number(part_of(value, 3), faults);
    Action::Connect {
        cancellable,
        slot,
        proc,
    }
}

/// Reads the action `["disconnect", SLOT]` from its JSON value.
#[tactic(auto, unfolding(crate::specs::Action::disconnect))]
fn read_disconnect(value: Option<&Value>, faults: &mut Faults) -> Action
    ensures value { result ≡ (disconnect (seen value.entry)).value }
    ensures faults { faults.new ≡ after faults.old (disconnect (seen value.entry)) }
{
    check_arity(value, 2, faults);
    Action::Disconnect(slot_number(part_of(value, 1), faults))
}

/// Reads the action `["task", TASK]` from its JSON value, with the task in it.
#[tactic(auto, unfolding(crate::specs::Action::task))]
fn read_task_action(
    alloc: Global,
    value: Option<&Value>,
    faults: &mut Faults,
) -> Result<Action, AllocError>
    ensures value { IfOk result (λ a. a ≡ (task (seen value.entry)).value) }
    ensures faults { OnOk result (faults.new ≡ after faults.old (task (seen value.entry))) }
{
    check_arity(value, 2, faults);
    Ok(Action::Task(read_task(alloc, part_of(value, 1), faults)?))
}

/// Reads the action `["push", CONTEXT]` from its JSON value.
#[tactic(auto, unfolding(crate::specs::Action::push))]
fn read_push(value: Option<&Value>, faults: &mut Faults) -> Action
    ensures value { result ≡ (push (seen value.entry)).value }
    ensures faults { faults.new ≡ after faults.old (push (seen value.entry)) }
{
    check_arity(value, 2, faults);
    Action::Push(index_number(part_of(value, 1), faults))
}

/// Reads the action `["pop", CONTEXT]` from its JSON value.
#[tactic(auto, unfolding(crate::specs::Action::pop))]
fn read_pop(value: Option<&Value>, faults: &mut Faults) -> Action
    ensures value { result ≡ (pop (seen value.entry)).value }
    ensures faults { faults.new ≡ after faults.old (pop (seen value.entry)) }
{
    check_arity(value, 2, faults);
    Action::Pop(index_number(part_of(value, 1), faults))
}

/// Reads the action `["show_default"]`, which has no parts behind its word, from its JSON value.
#[tactic(auto, unfolding(crate::specs::Action::show_default))]
fn read_show_default(value: Option<&Value>, faults: &mut Faults) -> Action
    ensures value { result ≡ (show_default (seen value.entry)).value }
    ensures faults { faults.new ≡ after faults.old (show_default (seen value.entry)) }
{
    check_arity(value, 1, faults);
    Action::ShowDefault
}

/// Reads the action `["acquire", CONTEXT]` from its JSON value.
#[tactic(auto, unfolding(crate::specs::Action::acquire))]
fn read_acquire(value: Option<&Value>, faults: &mut Faults) -> Action
    ensures value { result ≡ (acquire (seen value.entry)).value }
    ensures faults { faults.new ≡ after faults.old (acquire (seen value.entry)) }
{
    check_arity(value, 2, faults);
    Action::Acquire(index_number(part_of(value, 1), faults))
}

/// Reads the action `["release", CONTEXT]` from its JSON value.
#[tactic(auto, unfolding(crate::specs::Action::release))]
fn read_release(value: Option<&Value>, faults: &mut Faults) -> Action
    ensures value { result ≡ (release (seen value.entry)).value }
    ensures faults { faults.new ≡ after faults.old (release (seen value.entry)) }
{
    check_arity(value, 2, faults);
    Action::Release(index_number(part_of(value, 1), faults))
}

/// Reads the action `["invoke", CONTEXT, PROCEDURE]` from its JSON value.
#[tactic(auto, unfolding(crate::specs::Action::invoke))]
fn read_invoke(value: Option<&Value>, faults: &mut Faults) -> Action
    ensures value { result ≡ (invoke (seen value.entry)).value }
    ensures faults { faults.new ≡ after faults.old (invoke (seen value.entry)) }
{
    check_arity(value, 3, faults);
    let context = index_number(part_of(value, 1), faults);
    let proc = index_number(part_of(value, 2), faults);
    Action::Invoke { context, proc }
}

/// Reads the action `["give", CONTEXT, LANE]` from its JSON value, whatever the version of the script.
#[tactic(auto, unfolding(crate::specs::Action::give))]
fn read_give(value: Option<&Value>, faults: &mut Faults) -> Action
    ensures value { result ≡ (give (seen value.entry)).value }
    ensures faults { faults.new ≡ after faults.old (give (seen value.entry)) }
{
    check_arity(value, 3, faults);
    let context = index_number(part_of(value, 1), faults);
    let lane = index_number(part_of(value, 2), faults);
    Action::Give { context, lane }
}

/// Reads the action `["log", N]` from its JSON value.
#[tactic(auto, unfolding(crate::specs::Action::log))]
fn read_log(value: Option<&Value>, faults: &mut Faults) -> Action
    ensures value { result ≡ (log (seen value.entry)).value }
    ensures faults { faults.new ≡ after faults.old (log (seen value.entry)) }
{
    check_arity(value, 2, faults);
    Action::Log(whole_number(part_of(value, 1), 0, 4_294_967_295, faults) as u32)
}
