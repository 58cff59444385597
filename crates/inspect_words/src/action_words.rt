//! Actions in words, the thing that each is about, and what did one: a call, a handler, a step.
use account::{Deed, Moment};
use loop_script::{Action, Body};
use run_names::{RunNames, Thing};
use std::alloc::AllocError;

/// The word of an action, as scripts write it.
pub fn action_in_a_word(action: &Action) -> &'static str {
    match action {
        Action::Attach { .. } => "attach",
        Action::Child { .. } => "child",
        Action::Destroy(_) => "destroy",
        Action::SetReady(_, _) => "set_ready",
        Action::SetPriority(_, _) => "set_priority",
        Action::Iterate(_) => "iterate",
        Action::Pending(_) => "pending",
        Action::Run(_) => "run",
        Action::Quit(_) => "quit",
        Action::Cancel(_) => "cancel",
        Action::Connect { .. } => "connect",
        Action::Disconnect(_) => "disconnect",
        Action::Task(_) => "task",
        Action::Push(_) => "push",
        Action::Pop(_) => "pop",
        Action::ShowDefault => "show_default",
        Action::Acquire(_) => "acquire",
        Action::Release(_) => "release",
        Action::Invoke { .. } => "invoke",
        Action::Give { .. } => "give",
        Action::Log(_) => "log",
    }
}

/// Adds which list of actions it is.
pub fn push_list(out: &mut String, names: &RunNames, body: Body) -> Result<(), AllocError> {
    match body {
        Body::Start(lane) => {
            out.push_str("the start list of ")?;
            names.push(out, Thing::Thread(lane))
        }
        Body::Procedure(proc) => names.push(out, Thing::Procedure(proc)),
        Body::Nothing => out.push_str("no procedure"),
    }
}

/// Adds what a moment was, as the cause of something.
pub fn push_cause(out: &mut String, names: &RunNames, moment: &Moment) -> Result<(), AllocError> {
    match moment.deed {
        Deed::Acted { body, place } => {
            write!(out, "action {place} of ")?;
            push_list(out, names, body)
        }
        Deed::Returned { body } => {
            out.push_str("the end of a call of ")?;
            push_list(out, names, body)
        }
        Deed::Received { sender, .. } => {
            out.push_str("what ")?;
            names.push(out, Thing::Thread(sender))?;
            out.push_str(" sent")
        }
        _ => out.push_str("the run"),
    }
}

/// Adds an action: its word, and what stands next to it in the script.
pub fn push_action(out: &mut String, names: &RunNames, action: &Action) -> Result<(), AllocError> {
    out.push_str(action_in_a_word(action))?;
    let thing = if names.are_there() {
        named_thing_of(action)
    } else {
        thing_of(action)
    };
    match thing {
        Some(thing) => {
            out.push_str(" ")?;
            names.push_bare(out, thing)
        }
        None => Ok(()),
    }
}

/// What an action of a script with names names first.
fn named_thing_of(action: &Action) -> Option<Thing> {
    match action {
        Action::Attach { slot, .. } => Some(Thing::Slot(u32::from(*slot))),
        Action::Child { slot, .. } => Some(Thing::Slot(u32::from(*slot))),
        Action::Connect { slot, .. } => Some(Thing::Slot(u32::from(*slot))),
        Action::Invoke { proc, .. } => Some(Thing::Procedure(*proc)),
        _ => thing_of(action),
    }
}

/// What an action of a script of numbers names first.
fn thing_of(action: &Action) -> Option<Thing> {
    match action {
        Action::Attach { context, .. } => Some(Thing::Context(*context)),
        Action::Invoke { context, .. } => Some(Thing::Context(*context)),
        Action::Give { context, .. } => Some(Thing::Context(*context)),
        Action::Connect { cancellable, .. } => Some(Thing::Cancellable(*cancellable)),
        Action::Child { parent, .. } => Some(Thing::Slot(u32::from(*parent))),
        Action::Destroy(slot) => Some(Thing::Slot(u32::from(*slot))),
        Action::SetReady(slot, _) => Some(Thing::Slot(u32::from(*slot))),
        Action::SetPriority(slot, _) => Some(Thing::Slot(u32::from(*slot))),
        Action::Disconnect(slot) => Some(Thing::Slot(u32::from(*slot))),
        Action::Iterate(number) => Some(Thing::Context(*number)),
        Action::Pending(number) => Some(Thing::Context(*number)),
        Action::Run(number) => Some(Thing::Loop(*number)),
        Action::Quit(number) => Some(Thing::Loop(*number)),
        Action::Cancel(number) => Some(Thing::Cancellable(*number)),
        Action::Push(number) => Some(Thing::Context(*number)),
        Action::Pop(number) => Some(Thing::Context(*number)),
        Action::Acquire(number) => Some(Thing::Context(*number)),
        Action::Release(number) => Some(Thing::Context(*number)),
        Action::Log(number) => Some(Thing::Text(*number)),
        Action::Task(_) => None,
        Action::ShowDefault => None,
    }
}
