//! A lane as it is opened: it holds its start call, and nothing else.
ghost use Rattle.std.specs.Prelude.{◌≡◌, ◌∷◌, [], IfOk, OnOk, false};
ghost use Rattle.lane_turn.specs.Frames.{CallOf};
ghost use Rattle.lane_turn.specs.declared.layer.Origin.TheVariants as origins;
ghost use Rattle.loop_script.specs.declared.body.Body.TheVariants as bodies;
ghost use Rattle.lane_turn.specs.Turn.{opening, open_context, open_contexts, open_slots, open_loops, open_replies};
ghost use Rattle.lane_turn.specs.Sources.{tree_levels};
ghost use Rattle.lane_turn.specs.Meaning.{lane_of};
ghost use Rattle.lane_watch.specs.Watch.{nothing_seen, no_tasks};
ghost use Rattle.source_rows.specs.Rows.{level_count};

use crate::frames::Frames;
use crate::lane::{Lane, Status};
use crate::layer::{Call, Origin};
use crate::limits::SLOTS;
use crate::replies::Replies;
use crate::slot::Named;
use context_core::{Context, DefaultStack};
use lane_watch::Watch;
use loop_script::{Body, Script};
use source_rows::Levels;
use std::alloc::{AllocError, Global};

/// The contexts of a script, of which those of the lane have no source yet.
fn open_contexts(
    alloc: Global,
    script: &Script,
    lane: u32,
) -> Result<Vec<Option<Context>>, AllocError>
    ensures { IfOk result (λ contexts. contexts.items ≡ open_contexts script.now lane) }
{
    let mut contexts = Vec::new(alloc);
    for context in 0..script.contexts() {
        contexts.push(open_context(alloc, script, lane, context))?;
    }
    Ok(contexts)
}

/// A context of a script, as the lane has it at first: none where it is another lane's.
fn open_context(alloc: Global, script: &Script, lane: u32, context: u32) -> Option<Context>
    ensures { result ≡ open_context script.now lane context }
{
    if script.home(context) == lane {
        Some(Context::new(alloc, tree_levels(script)))
    } else {
        None
    }
}

/// At how many levels the sources of a script stand at most.
fn tree_levels(script: &Script) -> Levels
    ensures { level_count result ≡ tree_levels script.now }
{
    if script.version() == 1 {
        Levels::Two
    } else {
        Levels::Four
    }
}

/// Slots that name nothing.
fn open_slots(alloc: Global, slots: usize) -> Result<Vec<Option<Named>>, AllocError>
    ensures { IfOk result (λ places. places.items ≡ open_slots slots) }
{
    let mut places = Vec::new(alloc);
    for _ in 0..slots {
        places.push(None)?;
    }
    Ok(places)
}

/// What a lane watches at first: nothing is cancelled, and no task was started.
fn open_watch(alloc: Global, script: &Script) -> Result<Watch, AllocError>
    ensures { IfOk result (λ watch. watch ≡ record { view = nothing_seen script.now.cancellables; tasks = no_tasks script.now.cancellables script.now.tick_us }) }
{
    match Watch::new(alloc, script.cancellables(), script.tick_us()) {
        Ok(watch) => Ok(watch),
        Err(_) => Err(AllocError),
    }
}

/// So many that are not so: no loop runs, or no context is given.
fn open_loops(alloc: Global, loops: u32) -> Result<Vec<bool>, AllocError>
    ensures { IfOk result (λ running. running.items ≡ open_loops loops) }
{
    let mut running = Vec::new(alloc);
    for _ in 0..loops {
        running.push(false)?;
    }
    Ok(running)
}

/// Replies of no source.
fn open_replies(alloc: Global, contexts: u32) -> Result<Vec<Replies>, AllocError>
    ensures { IfOk result (λ replies. replies.items ≡ open_replies contexts) }
{
    let mut replies = Vec::new(alloc);
    for _ in 0..contexts {
        replies.push(Replies::new(alloc))?;
    }
    Ok(replies)
}

/// A lane with nothing in progress and no room for anything yet.
fn bare_lane(alloc: Global, lane: u32, watch: Watch) -> Lane
    ensures { lane_of result ≡ record { number = lane; contexts = []; given = []; slots = []; view = watch.view; tasks = watch.tasks; frames = []; running = []; defaults = []; replies = []; trace = []; status = Status.GoesOn } }
{
    Lane {
        number: lane,
        contexts: Vec::new(alloc),
        given: Vec::new(alloc),
        slots: Vec::new(alloc),
        watch,
        frames: Frames::new(alloc),
        running: Vec::new(alloc),
        defaults: DefaultStack::new(alloc),
        replies: Vec::new(alloc),
        trace: Vec::new(alloc),
        status: Status::GoesOn,
    }
}

/// Gives a lane its contexts, room for what comes, and its start call.
fn fill(alloc: Global, script: &Script, lane: &mut Lane) -> Result<(), AllocError>
    ensures { OnOk result (lane_of lane.new ≡ record (opening script.now lane.old.number) { view = lane.old.watch.view; tasks = lane.old.watch.tasks; frames = CallOf (record { origin = origins.Start; body = bodies.Start lane.old.number; place = 0 }) ∷ lane.old.frames; defaults = lane.old.defaults; trace = lane.old.trace.items; status = lane.old.status }) }
{
    lane.contexts = open_contexts(alloc, script, lane.number)?;
    lane.given = open_loops(alloc, script.contexts())?;
    lane.slots = open_slots(alloc, SLOTS)?;
    lane.running = open_loops(alloc, script.loops())?;
    lane.replies = open_replies(alloc, script.contexts())?;
    lane.frames.begin_call(Call {
        origin: Origin::Start,
        body: Body::Start(lane.number),
        place: 0,
    })
}

/// A lane that holds its start call.
fn open_lane(alloc: Global, script: &Script, lane: u32) -> Result<Lane, AllocError>
    ensures { IfOk result (λ opened. lane_of opened ≡ opening script.now lane) }
{
    let mut opened = bare_lane(alloc, lane, open_watch(alloc, script)?);
    fill(alloc, script, &mut opened)?;
    Ok(opened)
}

/// The same in a box.
pub(crate) fn boxed_lane(alloc: Global, script: &Script, lane: u32) -> Result<Box<Lane>, AllocError>
    ensures { IfOk result (λ opened. lane_of opened.value ≡ opening script.now lane) }
{
    let opened = open_lane(alloc, script, lane)?;
    Ok(Box::new(alloc, opened)?)
}
