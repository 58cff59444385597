//! How an iteration began, in words: who asked for it, of which context, and what made the call that asked.
use crate::action_words::push_list;
use crate::window::SourceName;
use account::{Account, Deed, Moment};
use lane_turn::{Activity, Asker, Call, LaneState, Origin};
use loop_script::{Action, Body};
use run_names::{RunNames, Thing};
use std::alloc::AllocError;

/// Who asked for an iteration.
#[derive(Clone, Copy, Debug, PartialEq, Eq)]
pub enum AskedBy {
    /// The run of a loop.
    Loop(u32),
    /// An action of a call.
    Action {
        caller: Caller,
        body: Body,
        place: usize,
    },
}

/// What made a call.
#[derive(Clone, Copy, Debug, PartialEq, Eq)]
pub enum Caller {
    /// The thread itself, of its start list.
    Start,
    Source(SourceName),
    Invoke,
}

/// What made a call of this origin.
pub fn caller_of(origin: Origin) -> Caller {
    match origin {
        Origin::Start => Caller::Start,
        Origin::Source(caller) => Caller::Source(SourceName {
            context: caller.context,
            id: caller.id,
        }),
        Origin::Invoke(_) => Caller::Invoke,
    }
}

/// An iteration that a moment began.
#[derive(Clone, Copy, Debug, PartialEq, Eq)]
pub struct Begun {
    pub lane: u32,
    pub context: u32,
    pub asker: AskedBy,
}

/// The innermost iteration that an action asked for, with the call of that action.
#[derive(Clone, Copy)]
struct Asked {
    call: Call,
    context: u32,
}

/// The iteration that is innermost in a lane, where an action asked for it.
fn asked_by_action(lane: &LaneState) -> Option<Asked> {
    let mut caller = None;
    let mut innermost = None;
    for one in lane.frames() {
        innermost = None;
        match one {
            Activity::Call(call) => caller = Some(call),
            Activity::Iteration {
                context,
                asker: Asker::Iterate(_),
                ..
            } => {
                if let Some(call) = caller {
                    innermost = Some(Asked { call, context });
                }
            }
            _ => {}
        }
    }
    innermost
}

/// The iteration that a moment began, if it did.
pub fn begun_by(account: &Account, moment: &Moment) -> Option<Begun> {
    let number = moment.lane;
    match moment.deed {
        Deed::Iterated {
            loop_number,
            context,
        } => Some(Begun {
            lane: number,
            context,
            asker: AskedBy::Loop(loop_number),
        }),
        Deed::Acted { body, place } => {
            let Some(Action::Iterate(context)) = account.script().actions(body).get(place) else {
                return None;
            };
            let asked = asked_by_action(account.lane(number)?)?;
            if asked.context != *context {
                return None;
            }
            Some(Begun {
                lane: number,
                context: *context,
                asker: AskedBy::Action {
                    caller: caller_of(asked.call.origin),
                    body,
                    place,
                },
            })
        }
        _ => None,
    }
}

impl Begun {
    /// Adds which iteration it is: its thread, who asked for it, and its context.
    pub fn push(&self, out: &mut String, names: &RunNames) -> Result<(), AllocError> {
        out.push_str(", ")?;
        names.push(out, Thing::Thread(self.lane))?;
        out.push_str(": ")?;
        self.asker.push(out, names)?;
        out.push_str(" iterates ")?;
        names.push(out, Thing::Context(self.context))
    }
}

impl AskedBy {
    /// Adds who asked.
    pub fn push(self, out: &mut String, names: &RunNames) -> Result<(), AllocError> {
        match self {
            AskedBy::Loop(number) => names.push(out, Thing::Loop(number)),
            AskedBy::Action {
                caller,
                body,
                place,
            } => {
                write!(out, "action {place} of ")?;
                push_list(out, names, body)?;
                caller.push(out, names)
            }
        }
    }
}

impl Caller {
    /// Adds to the words what made the call that asked, where that is not the thread itself.
    fn push(self, out: &mut String, names: &RunNames) -> Result<(), AllocError> {
        match self {
            Caller::Start => Ok(()),
            Caller::Source(SourceName { context, id }) => {
                out.push_str(", which ")?;
                names.push(out, Thing::Source { context, id })?;
                out.push_str(" calls,")
            }
            Caller::Invoke => out.push_str(", which is invoked,"),
        }
    }
}
